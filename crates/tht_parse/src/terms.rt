//! Terms.
ghost use Rattle.std.specs.Prelude.{◌≡◌};
ghost use Rattle.tht_tree.specs.Grammar.{dots, a_term, after_not, after_link, after_len};
ghost use Rattle.tht_grammar.specs.Steps.{chain};
ghost use Rattle.tht_grammar.specs.Reading as spec;
ghost use Rattle.tht_parse.specs.Levels.{part_of, chain_of};
ghost use Rattle.tht_parse.specs.Readings.{Reads};

use crate::cursor::Tokens;
use crate::names::offset;
use crate::nesting::{Construct, enter};
use crate::operators::{Level, MAX_CHAIN, compares, implies, joined, links, operator};
use crate::stop::{Fault, Stop};
use sqlite_items::Boxed;
use std::alloc::Global;
use tht_tree::plain::Name;
use tht_tree::term::Term;
use tht_tree::token::TokenKind;

/// `disj | disj "imp" term`, inside the constructs that are open, of which `depth` more may be.
#[cycle(terms)]
#[tactic(auto, unfolding(tht_grammar::specs::Reading::term, crate::specs::Levels::chain_of))]
pub fn term(alloc: Global, tokens: &mut Tokens<'_>, depth: usize) -> Result<Boxed<Term>, Stop>
    ensures { Reads (spec.nested depth a_term tokens.old) result tokens.new }
{
    let less = enter(tokens, Construct::Term, depth)?;
    let left = chain(alloc, tokens, less, Level::Disj)?;
    let Some(join) = implies(tokens.peek()) else {
        return Ok(left);
    };
    tokens.advance();
    let right = term(alloc, tokens, less)?;
    Ok(joined(alloc, join, left, right)?)
}

/// A chain of at most 64 operators.
#[cycle(terms)]
#[tactic(auto, using(crate::proofs::Levels::level_first, crate::proofs::Levels::level_err, crate::proofs::Chains::chain_none, crate::proofs::Chains::chain_many, crate::proofs::Chains::chain_step, crate::proofs::Chains::chain_err))]
fn chain(
    alloc: Global,
    tokens: &mut Tokens<'_>,
    depth: usize,
    level: Level,
) -> Result<Boxed<Term>, Stop>
    ensures { Reads (chain_of level (spec.nested depth) tokens.old) result tokens.new }
{
    let mut left = part(alloc, tokens, depth, level)?;
    for _turn in 0..MAX_CHAIN {
        let Some(join) = operator(level, tokens.peek()) else {
            return Ok(left);
        };
        tokens.advance();
        let right = part(alloc, tokens, depth, level)?;
        left = joined(alloc, join, left, right)?;
    }
    match operator(level, tokens.peek()) {
        Some(_) => Err(Stop::Fault(Fault::Many)),
        None => Ok(left),
    }
}

/// A part of a chain.
#[cycle(terms)]
#[tactic(auto, unfolding(crate::specs::Levels::part_of, crate::specs::Levels::chain_of))]
fn part(
    alloc: Global,
    tokens: &mut Tokens<'_>,
    depth: usize,
    level: Level,
) -> Result<Boxed<Term>, Stop>
    ensures { Reads (part_of level (spec.nested depth) tokens.old) result tokens.new }
{
    match level {
        Level::Disj => chain(alloc, tokens, depth, Level::Conj),
        Level::Conj => neg(alloc, tokens, depth),
        Level::Sum => chain(alloc, tokens, depth, Level::Prod),
        Level::Prod => off(alloc, tokens, depth),
    }
}

/// `"not" neg | cmp`
#[cycle(terms)]
#[tactic(auto, unfolding(tht_grammar::specs::Reading::neg))]
fn neg(alloc: Global, tokens: &mut Tokens<'_>, depth: usize) -> Result<Boxed<Term>, Stop>
    ensures { Reads (spec.neg (spec.nested depth) tokens.old) result tokens.new }
{
    if !tokens.sees(TokenKind::Not) {
        return cmp(alloc, tokens, depth);
    }
    tokens.advance();
    let inner = negated(alloc, tokens, depth)?;
    Ok(Boxed::new(alloc, Term::Not(inner))?)
}

/// What follows `not`.
#[cycle(terms)]
fn negated(alloc: Global, tokens: &mut Tokens<'_>, depth: usize) -> Result<Boxed<Term>, Stop>
    ensures { Reads (spec.nested depth after_not tokens.old) result tokens.new }
{
    let depth = enter(tokens, Construct::Negated, depth)?;
    neg(alloc, tokens, depth)
}

/// `app (("=" | "<" | "<=") app)?`
#[cycle(terms)]
#[tactic(auto, unfolding(tht_grammar::specs::Reading::cmp))]
fn cmp(alloc: Global, tokens: &mut Tokens<'_>, depth: usize) -> Result<Boxed<Term>, Stop>
    ensures { Reads (spec.cmp (spec.nested depth) tokens.old) result tokens.new }
{
    let left = app(alloc, tokens, depth)?;
    let Some(join) = compares(tokens.peek()) else {
        return Ok(left);
    };
    tokens.advance();
    let right = app(alloc, tokens, depth)?;
    Ok(joined(alloc, join, left, right)?)
}

/// `sum (("::" | "++") app)?`
#[cycle(terms)]
#[tactic(auto, unfolding(tht_grammar::specs::Reading::app, crate::specs::Levels::chain_of))]
fn app(alloc: Global, tokens: &mut Tokens<'_>, depth: usize) -> Result<Boxed<Term>, Stop>
    ensures { Reads (spec.app (spec.nested depth) tokens.old) result tokens.new }
{
    let left = chain(alloc, tokens, depth, Level::Sum)?;
    let Some(join) = links(tokens.peek()) else {
        return Ok(left);
    };
    tokens.advance();
    let right = linked(alloc, tokens, depth)?;
    Ok(joined(alloc, join, left, right)?)
}

/// What follows `::` or `++`.
#[cycle(terms)]
fn linked(alloc: Global, tokens: &mut Tokens<'_>, depth: usize) -> Result<Boxed<Term>, Stop>
    ensures { Reads (spec.nested depth after_link tokens.old) result tokens.new }
{
    let depth = enter(tokens, Construct::Linked, depth)?;
    app(alloc, tokens, depth)
}

/// `prim { "." NUM }*`
#[cycle(terms)]
#[tactic(auto, unfolding(tht_grammar::specs::Reading::off))]
pub fn off(alloc: Global, tokens: &mut Tokens<'_>, depth: usize) -> Result<Boxed<Term>, Stop>
    ensures { Reads (spec.off (spec.nested depth) tokens.old) result tokens.new }
{
    let place = prim(alloc, tokens, depth)?;
    offsets(alloc, tokens, place)
}

/// A number, a literal, a name, `()`, a term in parentheses, or `len prim`.
#[cycle(terms)]
#[tactic(auto, unfolding(tht_grammar::specs::Reading::prim))]
fn prim(alloc: Global, tokens: &mut Tokens<'_>, depth: usize) -> Result<Boxed<Term>, Stop>
    ensures { Reads (spec.prim (spec.nested depth) tokens.old) result tokens.new }
{
    match tokens.peek() {
        Some(TokenKind::Num) => {
            let value = u128::from(tokens.value());
            tokens.advance();
            Ok(Boxed::new(alloc, Term::Num(value))?)
        }
        Some(TokenKind::True) => {
            tokens.advance();
            Ok(Boxed::new(alloc, Term::True)?)
        }
        Some(TokenKind::False) => {
            tokens.advance();
            Ok(Boxed::new(alloc, Term::False)?)
        }
        Some(TokenKind::Null) => {
            tokens.advance();
            Ok(Boxed::new(alloc, Term::Null)?)
        }
        Some(TokenKind::Nil) => {
            tokens.advance();
            Ok(Boxed::new(alloc, Term::Nil)?)
        }
        Some(TokenKind::Name) => {
            let text = String::from_str(alloc, tokens.text())?;
            tokens.advance();
            Ok(Boxed::new(alloc, Term::Var(Name::new(text)))?)
        }
        Some(TokenKind::LParen) => {
            tokens.advance();
            closed(alloc, tokens, depth)
        }
        Some(TokenKind::Len) => {
            tokens.advance();
            let inner = measured(alloc, tokens, depth)?;
            Ok(Boxed::new(alloc, Term::Len(inner))?)
        }
        _ => Err(Stop::Fault(Fault::Unexpected)),
    }
}

/// What follows `len`.
#[cycle(terms)]
fn measured(alloc: Global, tokens: &mut Tokens<'_>, depth: usize) -> Result<Boxed<Term>, Stop>
    ensures { Reads (spec.nested depth after_len tokens.old) result tokens.new }
{
    let depth = enter(tokens, Construct::Measured, depth)?;
    prim(alloc, tokens, depth)
}

/// What follows an opening parenthesis.
#[cycle(terms)]
#[tactic(auto, unfolding(tht_grammar::specs::Reading::closed))]
fn closed(alloc: Global, tokens: &mut Tokens<'_>, depth: usize) -> Result<Boxed<Term>, Stop>
    ensures { Reads (spec.closed (spec.nested depth) tokens.old) result tokens.new }
{
    if tokens.sees(TokenKind::RParen) {
        tokens.advance();
        return Ok(Boxed::new(alloc, Term::Unit)?);
    }
    let inner = term(alloc, tokens, depth)?;
    tokens.expect(TokenKind::RParen)?;
    Ok(inner)
}

/// The offsets after the first part of a place.
#[tactic(auto, using(crate::proofs::Chains::dots_none, crate::proofs::Chains::dots_many, crate::proofs::Chains::dots_step, crate::proofs::Chains::dots_err))]
pub fn offsets(
    alloc: Global,
    tokens: &mut Tokens<'_>,
    place: Boxed<Term>,
) -> Result<Boxed<Term>, Stop>
    ensures { Reads (chain dots spec.offset 64 place tokens.old) result tokens.new }
{
    let mut place = place;
    for _turn in 0..MAX_CHAIN {
        if !tokens.sees(TokenKind::Dot) {
            return Ok(place);
        }
        tokens.advance();
        let by = offset(tokens)?;
        place = Boxed::new(alloc, Term::Offset(place, by))?;
    }
    if tokens.sees(TokenKind::Dot) {
        return Err(Stop::Fault(Fault::Many));
    }
    Ok(place)
}
