//! Gives.
ghost use Rattle.std.specs.Prelude.{◌≡◌};
ghost use Rattle.tht_tree.specs.Grammar.{a_give, after_prefix};
ghost use Rattle.tht_grammar.specs.Steps.{rest};
ghost use Rattle.tht_grammar.specs.Reading as spec;
ghost use Rattle.tht_parse.specs.Gives.{give_fact};
ghost use Rattle.tht_parse.specs.Readings.{Reads};

use crate::arguments::bracketed;
use crate::cursor::Tokens;
use crate::names::number;
use crate::nesting::{Construct, enter};
use crate::operators::MAX_CHAIN;
use crate::proofs::proof;
use crate::stop::{Fault, Stop};
use sqlite_items::Boxed;
use std::alloc::Global;
use tht_tree::give::{Give, GiveKind};
use tht_tree::token::TokenKind;

/// `gpr { "*" gpr }*`, inside the constructs that are open, of which `depth` more may be.
#[cycle(gives)]
pub fn give(alloc: Global, tokens: &mut Tokens<'_>, depth: usize) -> Result<Boxed<Give>, Stop>
    ensures { Reads (spec.nested depth a_give tokens.old) result tokens.new }
{
    let less = enter(tokens, Construct::Give, depth)?;
    chain(alloc, tokens, less)
}

/// `gpr { "*" gpr }*`
#[cycle(gives)]
#[tactic(auto, using(crate::proofs::Chains::give_first, crate::proofs::Chains::give_err, crate::proofs::Chains::gives_none, crate::proofs::Chains::gives_many, crate::proofs::Chains::gives_step, crate::proofs::Chains::gives_err))]
fn chain(alloc: Global, tokens: &mut Tokens<'_>, depth: usize) -> Result<Boxed<Give>, Stop>
    ensures { Reads (spec.give (spec.nested depth) tokens.old) result tokens.new }
{
    let spot = tokens.spot();
    let mut left = gpr(alloc, tokens, depth)?;
    for _turn in 0..MAX_CHAIN {
        if !tokens.sees(TokenKind::Star) {
            return Ok(left);
        }
        tokens.advance();
        let right = gpr(alloc, tokens, depth)?;
        let kind = GiveKind::Star(left, right);
        left = Boxed::new(alloc, Give { spot, kind })?;
    }
    if tokens.sees(TokenKind::Star) {
        return Err(Stop::Fault(Fault::Many));
    }
    Ok(left)
}

/// A part of a chain.
#[cycle(gives)]
#[tactic(auto, unfolding(tht_grammar::specs::Reading::gpr))]
fn gpr(alloc: Global, tokens: &mut Tokens<'_>, depth: usize) -> Result<Boxed<Give>, Stop>
    ensures { Reads (spec.gpr (spec.nested depth) tokens.old) result tokens.new }
{
    if tokens.sees(TokenKind::LParen) {
        tokens.advance();
        let inner = give(alloc, tokens, depth)?;
        tokens.expect(TokenKind::RParen)?;
        return Ok(inner);
    }
    let spot = tokens.spot();
    let kind = give_kind(alloc, tokens, depth)?;
    let kind = kind.into_inner();
    Ok(Boxed::new(alloc, Give { spot, kind })?)
}

/// A give, by its first token.
#[cycle(gives)]
#[tactic(auto, unfolding(tht_grammar::specs::Reading::give_kind))]
fn give_kind(alloc: Global, tokens: &mut Tokens<'_>, depth: usize) -> Result<Boxed<GiveKind>, Stop>
    ensures { Reads (spec.give_kind (spec.nested depth) tokens.old) result tokens.new }
{
    match tokens.peek() {
        Some(TokenKind::Emp) => {
            tokens.advance();
            Ok(Boxed::new(alloc, GiveKind::Emp)?)
        }
        Some(TokenKind::AtSign) => {
            tokens.advance();
            let atom = number(tokens)?;
            Ok(Boxed::new(alloc, GiveKind::Atom(atom))?)
        }
        Some(TokenKind::LBracket) => fact(alloc, tokens, depth),
        Some(TokenKind::Ex) => {
            tokens.advance();
            let witness = bracketed(alloc, tokens, depth)?;
            let inner = prefixed(alloc, tokens, depth)?;
            Ok(Boxed::new(alloc, GiveKind::Ex(witness, inner))?)
        }
        Some(TokenKind::Left) => {
            tokens.advance();
            let inner = prefixed(alloc, tokens, depth)?;
            Ok(Boxed::new(alloc, GiveKind::Left(inner))?)
        }
        Some(TokenKind::Right) => {
            tokens.advance();
            let inner = prefixed(alloc, tokens, depth)?;
            Ok(Boxed::new(alloc, GiveKind::Right(inner))?)
        }
        Some(TokenKind::Fold) => {
            tokens.advance();
            let inner = prefixed(alloc, tokens, depth)?;
            Ok(Boxed::new(alloc, GiveKind::Fold(inner))?)
        }
        _ => Err(Stop::Fault(Fault::Unexpected)),
    }
}

/// What follows `ex [t]`, `left`, `right` or `fold`.
#[cycle(gives)]
fn prefixed(alloc: Global, tokens: &mut Tokens<'_>, depth: usize) -> Result<Boxed<Give>, Stop>
    ensures { Reads (spec.nested depth after_prefix tokens.old) result tokens.new }
{
    let less = enter(tokens, Construct::Prefixed, depth)?;
    gpr(alloc, tokens, less)
}

/// `[p]`
fn fact(alloc: Global, tokens: &mut Tokens<'_>, depth: usize) -> Result<Boxed<GiveKind>, Stop>
    ensures { Reads (give_fact (spec.nested depth) (rest tokens.old)) result tokens.new }
{
    tokens.advance();
    let proof = proof(alloc, tokens, depth)?;
    tokens.expect(TokenKind::RBracket)?;
    let proof = proof.into_inner();
    Ok(Boxed::new(alloc, GiveKind::Fact(proof))?)
}
