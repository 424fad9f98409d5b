//! Lists of names with their sorts and of numbers.
ghost use Rattle.std.specs.Prelude.{◌≡◌};
ghost use Rattle.tht_tree.specs.declared.token.TokenKind.TheVariants as k;
ghost use Rattle.tht_grammar.specs.Steps.{is, listed};
ghost use Rattle.tht_grammar.specs.Reading as spec;
ghost use Rattle.tht_parse.specs.Readings.{Reads};

use crate::cursor::Tokens;
use crate::names::{name, number, sort};
use crate::stop::{Fault, Stop};
use sqlite_items::Items;
use std::alloc::Global;
use tht_tree::decl::Param;
use tht_tree::token::TokenKind;

/// How many parameters or logical variables a declaration may have.
const MAX_PARAMS: usize = 16;
/// How many numbers a list may have.
const MAX_NUMBERS: usize = 64;

/// `NAME ":" sort`
#[tactic(auto, unfolding(tht_grammar::specs::Reading::param))]
pub fn param(alloc: Global, tokens: &mut Tokens<'_>) -> Result<Param, Stop>
    ensures { Reads (spec.param tokens.old) result tokens.new }
{
    let name = name(alloc, tokens)?;
    tokens.expect(TokenKind::Colon)?;
    let sort = sort(tokens)?;
    Ok(Param { name, sort })
}

/// `list(NAME ":" sort)`
#[tactic(auto, using(crate::proofs::Entries::entries_more, crate::proofs::Entries::entries_last, crate::proofs::Entries::entries_err, crate::proofs::Entries::entries_many, crate::proofs::Entries::entries_over), unfolding(tht_grammar::specs::Steps::listed))]
fn param_list(alloc: Global, tokens: &mut Tokens<'_>) -> Result<Items<Param>, Stop>
    ensures { Reads (listed (is k.Name) spec.param 16 tokens.old) result tokens.new }
{
    let mut found = Items::new(alloc);
    if !tokens.sees(TokenKind::Name) {
        return Ok(found);
    }
    for _turn in 0..MAX_PARAMS {
        let entry = param(alloc, tokens)?;
        found.push(entry)?;
        if !tokens.sees(TokenKind::Comma) {
            return Ok(found);
        }
        tokens.advance();
    }
    if tokens.sees(TokenKind::Name) {
        return Err(Stop::Fault(Fault::Many));
    }
    Err(Stop::Fault(Fault::Unexpected))
}

/// `list(NUM)`
#[tactic(auto, using(crate::proofs::Entries::entries_more, crate::proofs::Entries::entries_last, crate::proofs::Entries::entries_err, crate::proofs::Entries::entries_many, crate::proofs::Entries::entries_over), unfolding(tht_grammar::specs::Steps::listed))]
fn number_list(alloc: Global, tokens: &mut Tokens<'_>) -> Result<Items<u64>, Stop>
    ensures { Reads (listed (is k.Num) spec.number 64 tokens.old) result tokens.new }
{
    let mut found = Items::new(alloc);
    if !tokens.sees(TokenKind::Num) {
        return Ok(found);
    }
    for _turn in 0..MAX_NUMBERS {
        let entry = number(tokens)?;
        found.push(entry)?;
        if !tokens.sees(TokenKind::Comma) {
            return Ok(found);
        }
        tokens.advance();
    }
    if tokens.sees(TokenKind::Num) {
        return Err(Stop::Fault(Fault::Many));
    }
    Err(Stop::Fault(Fault::Unexpected))
}

/// `"(" list(NAME ":" sort) ")"`
#[tactic(auto, unfolding(tht_grammar::specs::Reading::params))]
pub fn params(alloc: Global, tokens: &mut Tokens<'_>) -> Result<Items<Param>, Stop>
    ensures { Reads (spec.params tokens.old) result tokens.new }
{
    tokens.expect(TokenKind::LParen)?;
    let found = param_list(alloc, tokens)?;
    tokens.expect(TokenKind::RParen)?;
    Ok(found)
}

/// `"[" list(NAME ":" sort) "]"`
#[tactic(auto, unfolding(tht_grammar::specs::Reading::logic))]
pub fn logic(alloc: Global, tokens: &mut Tokens<'_>) -> Result<Items<Param>, Stop>
    ensures { Reads (spec.logic tokens.old) result tokens.new }
{
    tokens.expect(TokenKind::LBracket)?;
    let found = param_list(alloc, tokens)?;
    tokens.expect(TokenKind::RBracket)?;
    Ok(found)
}

/// `"(" list(NUM) ")"`
#[tactic(auto, unfolding(tht_grammar::specs::Reading::nums))]
pub fn nums(alloc: Global, tokens: &mut Tokens<'_>) -> Result<Items<u64>, Stop>
    ensures { Reads (spec.nums tokens.old) result tokens.new }
{
    tokens.expect(TokenKind::LParen)?;
    let found = number_list(alloc, tokens)?;
    tokens.expect(TokenKind::RParen)?;
    Ok(found)
}
