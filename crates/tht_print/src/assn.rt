// The tokens of assertions.
ghost use Rattle.std.specs.Prelude.{◌≡◌, ◌∷◌, OnOk};
ghost use Rattle.tht_tree.specs.Layout as layout;
ghost use Rattle.tht_tree.specs.Layout.{shown_assn};
ghost use Rattle.tht_tree.specs.declared.token.TokenKind.TheVariants as k;
ghost use Rattle.tht_print.specs.Tokens.{tokens_of};

use crate::names::sorted;
use crate::term::{MAX_OPERATORS, arguments, bracketed, off};
use crate::tokens::Tokens;
use std::alloc::AllocError;
use tht_tree::assn::Assn;
use tht_tree::plain::{Name, Sort};
use tht_tree::term::Term;
use tht_tree::token::TokenKind;

// How tightly the parts of the grammar hold together: chains of `*`, and all else.
const CHAIN: u8 = 0;

const PRIMARY: u8 = 1;

/// Puts an assertion before the tokens.
pub fn assn<'a>(a: &'a Assn, out: &mut Tokens<'a>) -> Result<(), AllocError>
    ensures { OnOk result (tokens_of out.new ≡ layout.assn a.now (tokens_of out.old)) }
{
    operand(a, CHAIN, out)
}

/// Puts an assertion in braces before the tokens.
pub fn boxed<'a>(a: &'a Assn, out: &mut Tokens<'a>) -> Result<(), AllocError>
    ensures { OnOk result (tokens_of out.new ≡ layout.«box» a.now (tokens_of out.old)) }
{
    out.word(TokenKind::RBrace)?;
    assn(a, out)?;
    out.word(TokenKind::LBrace)
}

#[tactic(auto, unfolding(tht_tree::specs::Layout::shown_assn))]
fn rank_of(a: &Assn) -> u8
    ensures { result ≡ (shown_assn a.now).rank }
{
    match a {
        Assn::Star(_, _) => CHAIN,
        _ => PRIMARY,
    }
}

#[cycle(assn)]
fn operand<'a>(a: &'a Assn, rank: u8, out: &mut Tokens<'a>) -> Result<(), AllocError>
    ensures { OnOk result (tokens_of out.new ≡ layout.at rank (shown_assn a.now) (tokens_of out.old)) }
{
    if rank <= rank_of(a) {
        return bare(a, out);
    }
    out.word(TokenKind::RParen)?;
    bare(a, out)?;
    out.word(TokenKind::LParen)
}

#[cycle(assn)]
#[tactic(auto, unfolding(tht_tree::specs::Layout::shown_assn))]
fn bare<'a>(a: &'a Assn, out: &mut Tokens<'a>) -> Result<(), AllocError>
    ensures { OnOk result (tokens_of out.new ≡ (shown_assn a.now).bare 64 (tokens_of out.old)) }
{
    match a {
        Assn::Emp => out.word(TokenKind::Emp),
        Assn::Fact(t) => bracketed(t.get(), out),
        Assn::Own(place, value) => cell(place.get(), TokenKind::Arrow, value.get(), out),
        Assn::Shared(place, value) => cell(place.get(), TokenKind::FatArrow, value.get(), out),
        Assn::Star(_, _) => chain(a, out),
        Assn::Inst(name, ts) => instance(name, ts.as_slice(), out),
        Assn::Exists(x, sort, b) => exists(b.get(), x, *sort, out),
        Assn::Either(b, c) => either(b.get(), c.get(), out),
    }
}

fn cell<'a>(
    place: &'a Term,
    arrow: TokenKind,
    value: &'a Term,
    out: &mut Tokens<'a>,
) -> Result<(), AllocError>
    ensures { OnOk result (tokens_of out.new ≡ layout.off place.now (layout.◌▹◌ arrow (layout.off value.now (tokens_of out.old)))) }
{
    off(value, out)?;
    out.word(arrow)?;
    off(place, out)
}

fn instance<'a>(name: &'a Name, ts: &'a [Term], out: &mut Tokens<'a>) -> Result<(), AllocError>
    ensures { OnOk result (tokens_of out.new ≡ layout.name name.now ∷ layout.arguments ts.now (tokens_of out.old)) }
{
    arguments(ts, out)?;
    out.name(name)
}

// In parentheses where a `*` comes next, which would be of the body.
#[cycle(assn)]
fn exists<'a>(
    body: &'a Assn,
    x: &'a Name,
    sort: Sort,
    out: &mut Tokens<'a>,
) -> Result<(), AllocError>
    ensures { OnOk result (tokens_of out.new ≡ layout.exists x.now sort (shown_assn body.now) (tokens_of out.old)) }
{
    if !out.starts_with_star() {
        return quantified(body, x, sort, out);
    }
    out.word(TokenKind::RParen)?;
    quantified(body, x, sort, out)?;
    out.word(TokenKind::LParen)
}

#[cycle(assn)]
fn quantified<'a>(
    body: &'a Assn,
    x: &'a Name,
    sort: Sort,
    out: &mut Tokens<'a>,
) -> Result<(), AllocError>
    ensures { OnOk result (tokens_of out.new ≡ layout.◌▹◌ k.Exists (layout.sorted x.now sort (layout.◌▹◌ k.Dot (layout.at 0 (shown_assn body.now) (tokens_of out.old))))) }
{
    operand(body, CHAIN, out)?;
    out.word(TokenKind::Dot)?;
    sorted(x, sort, out)?;
    out.word(TokenKind::Exists)
}

#[cycle(assn)]
fn either<'a>(a: &'a Assn, b: &'a Assn, out: &mut Tokens<'a>) -> Result<(), AllocError>
    ensures { OnOk result (tokens_of out.new ≡ layout.◌▹◌ k.Either (layout.at 1 (shown_assn a.now) (layout.◌▹◌ k.Or (layout.at 1 (shown_assn b.now) (tokens_of out.old))))) }
{
    operand(b, PRIMARY, out)?;
    out.word(TokenKind::Or)?;
    operand(a, PRIMARY, out)?;
    out.word(TokenKind::Either)
}

// A chain of stars.
#[cycle(assn)]
#[tactic(auto, unfolding(tht_tree::specs::Layout::shown_assn))]
fn chain<'a>(a: &'a Assn, out: &mut Tokens<'a>) -> Result<(), AllocError>
    requires { (shown_assn a.now).rank ≡ 0 }
    ensures { OnOk result (tokens_of out.new ≡ (shown_assn a.now).bare 64 (tokens_of out.old)) }
{
    let mut left = a;
    for _turn in 0..MAX_OPERATORS {
        let Assn::Star(x, y) = left else {
            break;
        };
        operand(y.get(), PRIMARY, out)?;
        out.word(TokenKind::Star)?;
        left = x.get();
    }
    operand(left, PRIMARY, out)
}
