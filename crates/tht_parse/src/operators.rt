//! The operators of terms.
ghost use Rattle.std.specs.Prelude.{◌≡◌, IfOk};
ghost use Rattle.tht_tree.specs.Grammar as grammar;
ghost use Rattle.tht_parse.specs.Joins.{node, joins};
ghost use Rattle.tht_parse.specs.Levels.{operators_of};

use sqlite_items::Boxed;
use std::alloc::{AllocError, Global};
use tht_tree::term::Term;
use tht_tree::token::TokenKind;

/// How many operators a chain may have.
pub const MAX_CHAIN: usize = 64;

/// An operator between two terms.
#[derive(Clone, Copy, Debug)]
pub enum Join {
    Imp,
    Or,
    And,
    Equal,
    Less,
    LessEqual,
    Cons,
    Cat,
    Add,
    Sub,
    Mul,
}

/// The chains of terms, from the loosest on.
#[derive(Clone, Copy, Debug)]
pub enum Level {
    /// `conj { "or" conj }*`
    Disj,
    /// `neg { "and" neg }*`
    Conj,
    /// `prod { ("+" | "-") prod }*`
    Sum,
    /// `off { "*" off }*`
    Prod,
}

/// The term of an operator and its sides.
pub fn joined(
    alloc: Global,
    join: Join,
    left: Boxed<Term>,
    right: Boxed<Term>,
) -> Result<Boxed<Term>, AllocError>
    ensures { IfOk result (λ x. x ≡ node join left right) }
{
    let term = match join {
        Join::Imp => Term::Imp(left, right),
        Join::Or => Term::Or(left, right),
        Join::And => Term::And(left, right),
        Join::Equal => Term::Eq(left, right),
        Join::Less => Term::Lt(left, right),
        Join::LessEqual => Term::Le(left, right),
        Join::Cons => Term::Cons(left, right),
        Join::Cat => Term::Cat(left, right),
        Join::Add => Term::Add(left, right),
        Join::Sub => Term::Sub(left, right),
        Join::Mul => Term::Mul(left, right),
    };
    Boxed::new(alloc, term)
}

/// `imp`
pub fn implies(kind: Option<TokenKind>) -> Option<Join>
    ensures { joins result ≡ grammar.implies kind }
{
    match kind {
        Some(TokenKind::Imp) => Some(Join::Imp),
        _ => None,
    }
}

/// `=`, `<` or `<=`
pub fn compares(kind: Option<TokenKind>) -> Option<Join>
    ensures { joins result ≡ grammar.compares kind }
{
    match kind {
        Some(TokenKind::Equal) => Some(Join::Equal),
        Some(TokenKind::Less) => Some(Join::Less),
        Some(TokenKind::LessEqual) => Some(Join::LessEqual),
        _ => None,
    }
}

/// `::` or `++`
pub fn links(kind: Option<TokenKind>) -> Option<Join>
    ensures { joins result ≡ grammar.links kind }
{
    match kind {
        Some(TokenKind::Link) => Some(Join::Cons),
        Some(TokenKind::Join) => Some(Join::Cat),
        _ => None,
    }
}

/// The operator of a chain that this token is.
#[tactic(auto, unfolding(crate::specs::Levels::operators_of))]
pub fn operator(level: Level, kind: Option<TokenKind>) -> Option<Join>
    ensures { joins result ≡ operators_of level kind }
{
    match level {
        Level::Disj => match kind {
            Some(TokenKind::Or) => Some(Join::Or),
            _ => None,
        },
        Level::Conj => match kind {
            Some(TokenKind::And) => Some(Join::And),
            _ => None,
        },
        Level::Sum => match kind {
            Some(TokenKind::Plus) => Some(Join::Add),
            Some(TokenKind::Minus) => Some(Join::Sub),
            _ => None,
        },
        Level::Prod => match kind {
            Some(TokenKind::Star) => Some(Join::Mul),
            _ => None,
        },
    }
}
