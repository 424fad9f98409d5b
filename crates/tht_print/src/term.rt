// The tokens of terms.
ghost use Rattle.std.specs.Prelude.{◌≡◌, ◌==◌, ◌<◌, true, false, map, MatchOption, OnOk};
ghost use Rattle.tht_tree.specs.Layout as layout;
ghost use Rattle.tht_tree.specs.Layout.{shown_term};
ghost use Rattle.tht_print.specs.Tokens.{tokens_of};
ghost use Rattle.tht_print.specs.Chains.{is_of_operators, IsLink};

use crate::tokens::Tokens;
use std::alloc::AllocError;
use tht_tree::term::Term;
use tht_tree::token::TokenKind;

/// The operators of a chain that stand without parentheses.
pub const MAX_OPERATORS: u8 = 64;

// How tightly the parts of the grammar hold together.
const IMPLICATION: u8 = 0;

const DISJUNCTION: u8 = 1;

const CONJUNCTION: u8 = 2;

const NEGATION: u8 = 3;

const COMPARISON: u8 = 4;

const APPENDING: u8 = 5;

const SUM: u8 = 6;

const PRODUCT: u8 = 7;

const OFFSET: u8 = 8;

const PRIMARY: u8 = 9;

/// Puts a term before the tokens.
pub fn term<'a>(t: &'a Term, out: &mut Tokens<'a>) -> Result<(), AllocError>
    ensures { OnOk result (tokens_of out.new ≡ layout.term t.now (tokens_of out.old)) }
{
    operand(t, IMPLICATION, out)
}

/// Puts a place of a cell, or what one holds, before the tokens.
pub fn off<'a>(t: &'a Term, out: &mut Tokens<'a>) -> Result<(), AllocError>
    ensures { OnOk result (tokens_of out.new ≡ layout.off t.now (tokens_of out.old)) }
{
    operand(t, OFFSET, out)
}

/// Puts a word and a term before the tokens.
pub fn after_word<'a>(word: TokenKind, t: &'a Term, out: &mut Tokens<'a>) -> Result<(), AllocError>
    ensures { OnOk result (tokens_of out.new ≡ layout.◌▹◌ word (layout.term t.now (tokens_of out.old))) }
{
    term(t, out)?;
    out.word(word)
}

/// Puts a term in brackets before the tokens.
pub fn bracketed<'a>(t: &'a Term, out: &mut Tokens<'a>) -> Result<(), AllocError>
    ensures { OnOk result (tokens_of out.new ≡ layout.brackets (layout.term t.now) (tokens_of out.old)) }
{
    out.word(TokenKind::RBracket)?;
    term(t, out)?;
    out.word(TokenKind::LBracket)
}

/// Puts a word and a term in brackets before the tokens.
pub fn over<'a>(word: TokenKind, t: &'a Term, out: &mut Tokens<'a>) -> Result<(), AllocError>
    ensures { OnOk result (tokens_of out.new ≡ layout.◌▹◌ word (layout.brackets (layout.term t.now) (tokens_of out.old))) }
{
    bracketed(t, out)?;
    out.word(word)
}

/// Puts terms with commas between them before the tokens.
#[tactic(auto, using(crate::proofs::Lists::commas_last))]
pub fn listed<'a>(ts: &'a [Term], out: &mut Tokens<'a>) -> Result<(), AllocError>
    ensures { OnOk result (tokens_of out.new ≡ layout.commas (map layout.term ts.now) (tokens_of out.old)) }
{
    let mut rest = ts;
    while let Some((t, front)) = rest.split_last() {
        term(t, out)?;
        if !front.is_empty() {
            out.word(TokenKind::Comma)?;
        }
        rest = front;
    }
    Ok(())
}

/// Puts terms in parentheses before the tokens.
pub fn arguments<'a>(ts: &'a [Term], out: &mut Tokens<'a>) -> Result<(), AllocError>
    ensures { OnOk result (tokens_of out.new ≡ layout.arguments ts.now (tokens_of out.old)) }
{
    out.word(TokenKind::RParen)?;
    listed(ts, out)?;
    out.word(TokenKind::LParen)
}

#[tactic(auto, unfolding(tht_tree::specs::Layout::shown_term))]
fn rank_of(t: &Term) -> u8
    ensures { result ≡ (shown_term t.now).rank }
{
    match t {
        Term::Imp(_, _) => IMPLICATION,
        Term::Or(_, _) => DISJUNCTION,
        Term::And(_, _) => CONJUNCTION,
        Term::Not(_) => NEGATION,
        Term::Eq(_, _) => COMPARISON,
        Term::Lt(_, _) => COMPARISON,
        Term::Le(_, _) => COMPARISON,
        Term::Cons(_, _) => APPENDING,
        Term::Cat(_, _) => APPENDING,
        Term::Add(_, _) => SUM,
        Term::Sub(_, _) => SUM,
        Term::Mul(_, _) => PRODUCT,
        Term::Offset(_, _) => OFFSET,
        _ => PRIMARY,
    }
}

/// A term as part of a chain: the rank of the chain, and its operands and operator.
#[derive(Clone, Copy)]
struct Link<'a> {
    rank: u8,
    left: &'a Term,
    op: TokenKind,
    right: &'a Term,
}

// The term as part of a chain of operators, if it is one.
#[tactic(auto, unfolding(tht_tree::specs::Layout::shown_term))]
fn link_of(t: &Term) -> Option<Link<'_>>
    ensures { MatchOption result (is_of_operators (shown_term t.now).rank ≡ false) (λ link. IsLink t.now link) }
{
    let (rank, left, op, right) = match t {
        Term::Mul(x, y) => (PRODUCT, x, TokenKind::Star, y),
        Term::Add(x, y) => (SUM, x, TokenKind::Plus, y),
        Term::Sub(x, y) => (SUM, x, TokenKind::Minus, y),
        Term::And(x, y) => (CONJUNCTION, x, TokenKind::And, y),
        Term::Or(x, y) => (DISJUNCTION, x, TokenKind::Or, y),
        _ => return None,
    };
    Some(Link {
        rank,
        left: left.get(),
        op,
        right: right.get(),
    })
}

#[cycle(term)]
fn operand<'a>(t: &'a Term, rank: u8, out: &mut Tokens<'a>) -> Result<(), AllocError>
    ensures { OnOk result (tokens_of out.new ≡ layout.at rank (shown_term t.now) (tokens_of out.old)) }
{
    if rank <= rank_of(t) {
        return bare(t, out);
    }
    out.word(TokenKind::RParen)?;
    bare(t, out)?;
    out.word(TokenKind::LParen)
}

#[cycle(term)]
#[tactic(auto, unfolding(tht_tree::specs::Layout::shown_term))]
fn bare<'a>(t: &'a Term, out: &mut Tokens<'a>) -> Result<(), AllocError>
    ensures { OnOk result (tokens_of out.new ≡ (shown_term t.now).bare 64 (tokens_of out.old)) }
{
    match t {
        Term::Num(n) => out.number(*n),
        Term::True => out.word(TokenKind::True),
        Term::False => out.word(TokenKind::False),
        Term::Null => out.word(TokenKind::Null),
        Term::Nil => out.word(TokenKind::Nil),
        Term::Unit => {
            out.word(TokenKind::RParen)?;
            out.word(TokenKind::LParen)
        }
        Term::Var(x) => out.name(x),
        Term::Len(x) => prefixed(x.get(), TokenKind::Len, PRIMARY, out),
        Term::Offset(_, _) => offsets(t, out),
        Term::Mul(_, _) => chain(t, PRODUCT, out),
        Term::Add(_, _) => chain(t, SUM, out),
        Term::Sub(_, _) => chain(t, SUM, out),
        Term::Cons(x, y) => pair(x.get(), y.get(), TokenKind::Link, (SUM, APPENDING), out),
        Term::Cat(x, y) => pair(x.get(), y.get(), TokenKind::Join, (SUM, APPENDING), out),
        Term::Eq(x, y) => pair(
            x.get(),
            y.get(),
            TokenKind::Equal,
            (APPENDING, APPENDING),
            out,
        ),
        Term::Lt(x, y) => pair(
            x.get(),
            y.get(),
            TokenKind::Less,
            (APPENDING, APPENDING),
            out,
        ),
        Term::Le(x, y) => pair(
            x.get(),
            y.get(),
            TokenKind::LessEqual,
            (APPENDING, APPENDING),
            out,
        ),
        Term::Not(x) => prefixed(x.get(), TokenKind::Not, NEGATION, out),
        Term::And(_, _) => chain(t, CONJUNCTION, out),
        Term::Or(_, _) => chain(t, DISJUNCTION, out),
        Term::Imp(x, y) => pair(
            x.get(),
            y.get(),
            TokenKind::Imp,
            (DISJUNCTION, IMPLICATION),
            out,
        ),
    }
}

// A word and its operand.
#[cycle(term)]
fn prefixed<'a>(
    t: &'a Term,
    word: TokenKind,
    rank: u8,
    out: &mut Tokens<'a>,
) -> Result<(), AllocError>
    ensures { OnOk result (tokens_of out.new ≡ layout.◌▹◌ word (layout.at rank (shown_term t.now) (tokens_of out.old))) }
{
    operand(t, rank, out)?;
    out.word(word)
}

// An operator and its two operands, at places that want these ranks.
#[cycle(term)]
fn pair<'a>(
    x: &'a Term,
    y: &'a Term,
    op: TokenKind,
    ranks: (u8, u8),
    out: &mut Tokens<'a>,
) -> Result<(), AllocError>
    ensures { OnOk result (tokens_of out.new ≡ layout.at ranks.0 (shown_term x.now) (layout.◌▹◌ op (layout.at ranks.1 (shown_term y.now) (tokens_of out.old)))) }
{
    operand(y, ranks.1, out)?;
    out.word(op)?;
    operand(x, ranks.0, out)
}

// A chain of operators of this rank.
#[cycle(term)]
fn chain<'a>(t: &'a Term, rank: u8, out: &mut Tokens<'a>) -> Result<(), AllocError>
    requires of_operators { is_of_operators rank ≡ true }
    requires ranked { (shown_term t.now).rank ≡ rank }
    ensures { OnOk result (tokens_of out.new ≡ (shown_term t.now).bare 64 (tokens_of out.old)) }
{
    let mut left = t;
    for _turn in 0..MAX_OPERATORS {
        let Some(link) = link_of(left) else {
            break;
        };
        if link.rank != rank {
            break;
        }
        operand(link.right, rank + 1, out)?;
        out.word(link.op)?;
        left = link.left;
    }
    operand(left, rank + 1, out)
}

// A run of offsets.
#[cycle(term)]
#[tactic(auto, unfolding(tht_tree::specs::Layout::shown_term))]
fn offsets<'a>(t: &'a Term, out: &mut Tokens<'a>) -> Result<(), AllocError>
    requires { (shown_term t.now).rank ≡ 8 }
    ensures { OnOk result (tokens_of out.new ≡ (shown_term t.now).bare 64 (tokens_of out.old)) }
{
    let mut left = t;
    for _turn in 0..MAX_OPERATORS {
        let Term::Offset(x, n) = left else {
            break;
        };
        out.number(u128::from(*n))?;
        out.word(TokenKind::Dot)?;
        left = x.get();
    }
    operand(left, PRIMARY, out)
}
