//! Lists of terms, and a term in brackets.
ghost use Rattle.std.specs.Prelude.{[]};
ghost use Rattle.tht_tree.specs.Grammar.{a_term};
ghost use Rattle.tht_grammar.specs.Words.{begins_term as starts_term};
ghost use Rattle.tht_grammar.specs.Steps.{entries, listed};
ghost use Rattle.tht_grammar.specs.Reading as spec;
ghost use Rattle.tht_parse.specs.Readings.{Reads};

use crate::cursor::Tokens;
use crate::nesting::begins_term;
use crate::stop::{Fault, Stop};
use crate::terms::term;
use sqlite_items::{Boxed, Items};
use std::alloc::Global;
use tht_tree::term::Term;
use tht_tree::token::TokenKind;

/// How many terms a list may have.
const MAX_ARGUMENTS: usize = 64;

/// `term { "," term }*`, at most so many.
#[tactic(auto, using(crate::proofs::Entries::entries_more, crate::proofs::Entries::entries_last, crate::proofs::Entries::entries_err, crate::proofs::Entries::entries_many, crate::proofs::Entries::entries_over))]
pub fn some_terms(
    alloc: Global,
    tokens: &mut Tokens<'_>,
    depth: usize,
    limit: usize,
) -> Result<Items<Term>, Stop>
    ensures { Reads (entries starts_term (spec.nested depth a_term) limit [] tokens.old) result tokens.new }
{
    let mut found = Items::new(alloc);
    for _turn in 0..limit {
        let item = term(alloc, tokens, depth)?;
        found.push(item.into_inner())?;
        if !tokens.sees(TokenKind::Comma) {
            return Ok(found);
        }
        tokens.advance();
    }
    if begins_term(tokens.peek()) {
        return Err(Stop::Fault(Fault::Many));
    }
    Err(Stop::Fault(Fault::Unexpected))
}

/// `list(term)`
#[tactic(auto, unfolding(tht_grammar::specs::Steps::listed))]
pub fn terms(alloc: Global, tokens: &mut Tokens<'_>, depth: usize) -> Result<Items<Term>, Stop>
    ensures { Reads (listed starts_term (spec.nested depth a_term) 64 tokens.old) result tokens.new }
{
    if !begins_term(tokens.peek()) {
        return Ok(Items::new(alloc));
    }
    some_terms(alloc, tokens, depth, MAX_ARGUMENTS)
}

/// `"(" list(term) ")"`
#[tactic(auto, unfolding(tht_grammar::specs::Reading::arguments))]
pub fn arguments(alloc: Global, tokens: &mut Tokens<'_>, depth: usize) -> Result<Items<Term>, Stop>
    ensures { Reads (spec.arguments (spec.nested depth) tokens.old) result tokens.new }
{
    tokens.expect(TokenKind::LParen)?;
    let found = terms(alloc, tokens, depth)?;
    tokens.expect(TokenKind::RParen)?;
    Ok(found)
}

/// `"[" term "]"`
#[tactic(auto, unfolding(tht_grammar::specs::Reading::bracketed))]
pub fn bracketed(alloc: Global, tokens: &mut Tokens<'_>, depth: usize) -> Result<Boxed<Term>, Stop>
    ensures { Reads (spec.bracketed (spec.nested depth) tokens.old) result tokens.new }
{
    tokens.expect(TokenKind::LBracket)?;
    let found = term(alloc, tokens, depth)?;
    tokens.expect(TokenKind::RBracket)?;
    Ok(found)
}
