//! The constructs that count as open, and the tokens that begin them.
ghost use Rattle.std.specs.Prelude.{◌≡◌};
ghost use Rattle.tht_grammar.specs.Words as spec;
ghost use Rattle.tht_parse.specs.Nesting.{nested_of, Enters};

use crate::cursor::Tokens;
use crate::stop::{Fault, Stop};
use tht_tree::token::TokenKind;

/// A construct that stands inside another and counts as one more open.
#[derive(Clone, Copy, Debug)]
pub enum Construct {
    Term,
    /// What follows `not`.
    Negated,
    /// What follows `::` or `++`.
    Linked,
    /// What follows `len`.
    Measured,
    Assn,
    /// What follows `either` or its `or`.
    Alternative,
    Proof,
    Give,
    /// What follows `ex [t]`, `left`, `right` or `fold`.
    Prefixed,
    Body,
}

fn begins_prim(kind: Option<TokenKind>) -> bool
    ensures { result ≡ spec.begins_prim kind }
{
    matches!(
        kind,
        Some(
            TokenKind::Num
                | TokenKind::True
                | TokenKind::False
                | TokenKind::Null
                | TokenKind::Nil
                | TokenKind::Name
                | TokenKind::LParen
                | TokenKind::Len
        )
    )
}

/// Whether such a token begins a term.
pub fn begins_term(kind: Option<TokenKind>) -> bool
    ensures { result ≡ spec.begins_term kind }
{
    matches!(kind, Some(TokenKind::Not)) || begins_prim(kind)
}

fn begins_assn(kind: Option<TokenKind>) -> bool
    ensures { result ≡ spec.begins_assn kind }
{
    matches!(
        kind,
        Some(
            TokenKind::Emp
                | TokenKind::LBracket
                | TokenKind::LParen
                | TokenKind::Name
                | TokenKind::Null
                | TokenKind::Exists
                | TokenKind::Either
        )
    )
}

fn begins_proof(kind: Option<TokenKind>) -> bool
    ensures { result ≡ spec.begins_proof kind }
{
    matches!(
        kind,
        Some(
            TokenKind::LParen
                | TokenKind::Hyp
                | TokenKind::Refl
                | TokenKind::Calc
                | TokenKind::As
                | TokenKind::Sym
                | TokenKind::Both
                | TokenKind::Subst
                | TokenKind::Pair
                | TokenKind::Fst
                | TokenKind::Snd
                | TokenKind::Inl
                | TokenKind::Inr
                | TokenKind::Cases
        )
    ) || matches!(
        kind,
        Some(
            TokenKind::Fun
                | TokenKind::App
                | TokenKind::Neg
                | TokenKind::Absurd
                | TokenKind::Em
                | TokenKind::Lin
                | TokenKind::Monus
                | TokenKind::Head
                | TokenKind::Tail
                | TokenKind::Nocons
                | TokenKind::Apart
                | TokenKind::Nonnull
                | TokenKind::Lemma
                | TokenKind::Todo
        )
    )
}

fn begins_give(kind: Option<TokenKind>) -> bool
    ensures { result ≡ spec.begins_give kind }
{
    matches!(
        kind,
        Some(
            TokenKind::LParen
                | TokenKind::Emp
                | TokenKind::AtSign
                | TokenKind::LBracket
                | TokenKind::Ex
                | TokenKind::Left
                | TokenKind::Right
                | TokenKind::Fold
        )
    )
}

fn begins(construct: Construct, kind: Option<TokenKind>) -> bool
    ensures { result ≡ spec.begins (nested_of construct) kind }
{
    match construct {
        Construct::Term | Construct::Negated => begins_term(kind),
        Construct::Linked | Construct::Measured => begins_prim(kind),
        Construct::Assn | Construct::Alternative => begins_assn(kind),
        Construct::Proof => begins_proof(kind),
        Construct::Give | Construct::Prefixed => begins_give(kind),
        Construct::Body => matches!(kind, Some(TokenKind::LBrace)),
    }
}

/// How many more constructs may be open inside the one that begins here, where it and `depth - 1` more may be.
#[tactic(auto, using(crate::proofs::Depths::deeper), unfolding(tht_grammar::specs::Reading::nested))]
pub fn enter(tokens: &Tokens<'_>, construct: Construct, depth: usize) -> Result<usize, Stop>
    ensures { Enters (nested_of construct) depth tokens.now result }
{
    if depth == 0 {
        return Err(if begins(construct, tokens.peek()) {
            Stop::Fault(Fault::Deep)
        } else {
            Stop::Fault(Fault::Unexpected)
        });
    }
    Ok(depth - 1)
}
