//! Assertions.
ghost use Rattle.std.specs.Prelude.{◌≡◌};
ghost use Rattle.tht_tree.specs.Grammar.{an_assn, after_either};
ghost use Rattle.tht_grammar.specs.Reading as spec;
ghost use Rattle.tht_parse.specs.Readings.{Reads};

use crate::arguments::{arguments, bracketed};
use crate::cursor::Tokens;
use crate::names::{name, sort};
use crate::nesting::{Construct, enter};
use crate::operators::MAX_CHAIN;
use crate::stop::{Fault, Stop};
use crate::terms::{off, offsets};
use sqlite_items::Boxed;
use std::alloc::Global;
use tht_tree::assn::Assn;
use tht_tree::term::Term;
use tht_tree::token::TokenKind;

/// `"{" assn "}"`
pub fn braced(alloc: Global, tokens: &mut Tokens<'_>, depth: usize) -> Result<Boxed<Assn>, Stop>
    ensures { Reads (spec.box (spec.nested depth) tokens.old) result tokens.new }
{
    tokens.expect(TokenKind::LBrace)?;
    let found = assn(alloc, tokens, depth)?;
    tokens.expect(TokenKind::RBrace)?;
    Ok(found)
}

/// `apr { "*" apr }*`, inside the constructs that are open, of which `depth` more may be.
#[cycle(assns)]
pub fn assn(alloc: Global, tokens: &mut Tokens<'_>, depth: usize) -> Result<Boxed<Assn>, Stop>
    ensures { Reads (spec.nested depth an_assn tokens.old) result tokens.new }
{
    let less = enter(tokens, Construct::Assn, depth)?;
    chain(alloc, tokens, less)
}

/// `apr { "*" apr }*`
#[cycle(assns)]
#[tactic(auto, using(crate::proofs::Chains::stars_none, crate::proofs::Chains::stars_many, crate::proofs::Chains::stars_step, crate::proofs::Chains::stars_err), unfolding(tht_grammar::specs::Reading::assn))]
fn chain(alloc: Global, tokens: &mut Tokens<'_>, depth: usize) -> Result<Boxed<Assn>, Stop>
    ensures { Reads (spec.assn (spec.nested depth) tokens.old) result tokens.new }
{
    let mut left = apr(alloc, tokens, depth)?;
    for _turn in 0..MAX_CHAIN {
        if !tokens.sees(TokenKind::Star) {
            return Ok(left);
        }
        tokens.advance();
        let right = apr(alloc, tokens, depth)?;
        left = Boxed::new(alloc, Assn::Star(left, right))?;
    }
    if tokens.sees(TokenKind::Star) {
        return Err(Stop::Fault(Fault::Many));
    }
    Ok(left)
}

/// A part of a chain.
#[cycle(assns)]
#[tactic(auto, unfolding(tht_grammar::specs::Reading::apr))]
fn apr(alloc: Global, tokens: &mut Tokens<'_>, depth: usize) -> Result<Boxed<Assn>, Stop>
    ensures { Reads (spec.apr (spec.nested depth) tokens.old) result tokens.new }
{
    match tokens.peek() {
        Some(TokenKind::Emp) => {
            tokens.advance();
            Ok(Boxed::new(alloc, Assn::Emp)?)
        }
        Some(TokenKind::LBracket) => {
            let fact = bracketed(alloc, tokens, depth)?;
            Ok(Boxed::new(alloc, Assn::Fact(fact))?)
        }
        Some(TokenKind::LParen) => {
            tokens.advance();
            let inner = assn(alloc, tokens, depth)?;
            tokens.expect(TokenKind::RParen)?;
            Ok(inner)
        }
        Some(TokenKind::Name) => named(alloc, tokens, depth),
        Some(TokenKind::Null) => {
            tokens.advance();
            let place = Boxed::new(alloc, Term::Null)?;
            cell(alloc, tokens, depth, place)
        }
        Some(TokenKind::Exists) => exists(alloc, tokens, depth),
        Some(TokenKind::Either) => either(alloc, tokens, depth),
        _ => Err(Stop::Fault(Fault::Unexpected)),
    }
}

/// What follows `either` or its `or`.
#[cycle(assns)]
fn alternative(alloc: Global, tokens: &mut Tokens<'_>, depth: usize) -> Result<Boxed<Assn>, Stop>
    ensures { Reads (spec.nested depth after_either tokens.old) result tokens.new }
{
    let less = enter(tokens, Construct::Alternative, depth)?;
    apr(alloc, tokens, less)
}

/// `"exists" NAME ":" sort "." assn`
#[cycle(assns)]
#[tactic(auto, unfolding(tht_grammar::specs::Reading::exists))]
fn exists(alloc: Global, tokens: &mut Tokens<'_>, depth: usize) -> Result<Boxed<Assn>, Stop>
    ensures { Reads (spec.exists (spec.nested depth) tokens.old) result tokens.new }
{
    tokens.expect(TokenKind::Exists)?;
    let bound = name(alloc, tokens)?;
    tokens.expect(TokenKind::Colon)?;
    let sort = sort(tokens)?;
    tokens.expect(TokenKind::Dot)?;
    let body = assn(alloc, tokens, depth)?;
    Ok(Boxed::new(alloc, Assn::Exists(bound, sort, body))?)
}

/// `"either" apr "or" apr`
#[cycle(assns)]
#[tactic(auto, unfolding(tht_grammar::specs::Reading::either))]
fn either(alloc: Global, tokens: &mut Tokens<'_>, depth: usize) -> Result<Boxed<Assn>, Stop>
    ensures { Reads (spec.either (spec.nested depth) tokens.old) result tokens.new }
{
    tokens.expect(TokenKind::Either)?;
    let left = alternative(alloc, tokens, depth)?;
    tokens.expect(TokenKind::Or)?;
    let right = alternative(alloc, tokens, depth)?;
    Ok(Boxed::new(alloc, Assn::Either(left, right))?)
}

/// An instance of a predicate, or a cell with a name in its place.
#[tactic(auto, unfolding(tht_grammar::specs::Reading::named))]
fn named(alloc: Global, tokens: &mut Tokens<'_>, depth: usize) -> Result<Boxed<Assn>, Stop>
    ensures { Reads (spec.named (spec.nested depth) tokens.old) result tokens.new }
{
    let name = name(alloc, tokens)?;
    if !tokens.sees(TokenKind::LParen) {
        let place = Boxed::new(alloc, Term::Var(name))?;
        return cell(alloc, tokens, depth, place);
    }
    let arguments = arguments(alloc, tokens, depth)?;
    Ok(Boxed::new(alloc, Assn::Inst(name, arguments))?)
}

/// A cell, after the first token of its place.
#[tactic(auto, unfolding(tht_grammar::specs::Reading::cell))]
fn cell(
    alloc: Global,
    tokens: &mut Tokens<'_>,
    depth: usize,
    start: Boxed<Term>,
) -> Result<Boxed<Assn>, Stop>
    ensures { Reads (spec.cell (spec.nested depth) start tokens.old) result tokens.new }
{
    let place = offsets(alloc, tokens, start)?;
    match tokens.peek() {
        Some(TokenKind::Arrow) => {
            tokens.advance();
            let value = off(alloc, tokens, depth)?;
            Ok(Boxed::new(alloc, Assn::Own(place, value))?)
        }
        Some(TokenKind::FatArrow) => {
            tokens.advance();
            let value = off(alloc, tokens, depth)?;
            Ok(Boxed::new(alloc, Assn::Shared(place, value))?)
        }
        _ => Err(Stop::Fault(Fault::Unexpected)),
    }
}
