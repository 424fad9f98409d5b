//! Main commands and files.
ghost use Rattle.std.specs.Prelude.{◌≡◌, ℕ};
ghost use Rattle.tht_grammar.specs.Reading as spec;
ghost use Rattle.tht_parse.specs.Readings.{Reads};

use crate::assns::braced;
use crate::bodies::body;
use crate::cursor::Tokens;
use crate::decls::decls;
use crate::lists::param;
use crate::stop::{Fault, Stop};
use sqlite_items::Boxed;
use std::alloc::Global;
use tht_tree::decl::Param;
use tht_tree::file::{Main, Source1};
use tht_tree::token::TokenKind;

/// How many constructs may be open.
const MAX_DEPTH: usize = 100;
/// The version of the format.
const VERSION: u32 = 1;

/// `"main" NAME ":" sort box body`
#[tactic(auto, unfolding(tht_grammar::specs::Reading::main))]
fn main_command(alloc: Global, tokens: &mut Tokens<'_>, depth: usize) -> Result<Boxed<Main>, Stop>
    ensures { Reads (spec.main (spec.nested depth) tokens.old) result tokens.new }
{
    let spot = tokens.spot();
    tokens.expect(TokenKind::Main)?;
    let result = param(alloc, tokens)?;
    let post = braced(alloc, tokens, depth)?;
    let body = body(alloc, tokens, depth)?;
    let Param { name: result, sort } = result;
    let post = post.into_inner();
    let main = Main {
        spot,
        result,
        sort,
        post,
        body,
    };
    Ok(Boxed::new(alloc, main)?)
}

/// The version, which is 1.
#[tactic(auto, unfolding(tht_grammar::specs::Reading::version_number))]
fn version(tokens: &mut Tokens<'_>) -> Result<u32, Stop>
    ensures { (d : ℕ) → Reads (spec.version_number (spec.nested d) tokens.old) result tokens.new }
{
    if !tokens.sees(TokenKind::Num) {
        return Err(Stop::Fault(Fault::Unexpected));
    }
    if tokens.value() != u64::from(VERSION) {
        return Err(Stop::Fault(Fault::Version));
    }
    tokens.advance();
    Ok(VERSION)
}

/// `"tht" NUM { decl }* main`
#[tactic(auto, unfolding(tht_grammar::specs::Reading::file))]
fn file(alloc: Global, tokens: &mut Tokens<'_>, depth: usize) -> Result<Boxed<Source1>, Stop>
    ensures { Reads (spec.file (spec.nested depth) tokens.old) result tokens.new }
{
    tokens.expect(TokenKind::Tht)?;
    let version = version(tokens)?;
    let decls = decls(alloc, tokens, depth)?;
    let main = main_command(alloc, tokens, depth)?;
    let main = main.into_inner();
    let file = Source1 {
        version,
        decls,
        main,
    };
    Ok(Boxed::new(alloc, file)?)
}

/// The file that all of the tokens spell.
#[tactic(auto, using(crate::proofs::Wholes::none_left, crate::proofs::Wholes::some_left, crate::proofs::Wholes::not_read))]
pub fn whole(alloc: Global, tokens: &mut Tokens<'_>) -> Result<Boxed<Source1>, Stop>
    ensures { Reads (spec.whole tokens.old) result tokens.new }
{
    let found = file(alloc, tokens, MAX_DEPTH)?;
    match tokens.peek() {
        None => Ok(found),
        Some(_) => Err(Stop::Fault(Fault::Unexpected)),
    }
}
