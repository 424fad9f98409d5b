// The tokens of gives.
ghost use Rattle.std.specs.Prelude.{◌≡◌, ◌∷◌, OnOk};
ghost use Rattle.tht_tree.specs.Layout as layout;
ghost use Rattle.tht_tree.specs.Layout.{shown_give};
ghost use Rattle.tht_tree.specs.declared.token.TokenKind.TheVariants as k;
ghost use Rattle.tht_print.specs.Tokens.{tokens_of};

use crate::names::numbered;
use crate::proof::proof;
use crate::term::{MAX_OPERATORS, over};
use crate::tokens::Tokens;
use std::alloc::AllocError;
use tht_tree::give::{Give, GiveKind};
use tht_tree::proof::Proof;
use tht_tree::term::Term;
use tht_tree::token::TokenKind;

// How tightly the parts of the grammar hold together: chains of `*`, and all else.
const CHAIN: u8 = 0;

const PRIMARY: u8 = 1;

/// Puts `by` and a give before the tokens.
pub fn by_give<'a>(g: &'a Give, out: &mut Tokens<'a>) -> Result<(), AllocError>
    ensures { OnOk result (tokens_of out.new ≡ layout.by_give g.now (tokens_of out.old)) }
{
    operand(g, CHAIN, out)?;
    out.word(TokenKind::By)
}

#[tactic(auto, unfolding(tht_tree::specs::Layout::shown_give))]
fn rank_of(g: &Give) -> u8
    ensures { result ≡ (shown_give g.now).rank }
{
    match &g.kind {
        GiveKind::Star(_, _) => CHAIN,
        _ => PRIMARY,
    }
}

#[cycle(give)]
fn operand<'a>(g: &'a Give, rank: u8, out: &mut Tokens<'a>) -> Result<(), AllocError>
    ensures { OnOk result (tokens_of out.new ≡ layout.at rank (shown_give g.now) (tokens_of out.old)) }
{
    if rank <= rank_of(g) {
        return bare(g, out);
    }
    out.word(TokenKind::RParen)?;
    bare(g, out)?;
    out.word(TokenKind::LParen)
}

#[cycle(give)]
#[tactic(auto, unfolding(tht_tree::specs::Layout::shown_give))]
fn bare<'a>(g: &'a Give, out: &mut Tokens<'a>) -> Result<(), AllocError>
    ensures { OnOk result (tokens_of out.new ≡ (shown_give g.now).bare 64 (tokens_of out.old)) }
{
    match &g.kind {
        GiveKind::Emp => out.word(TokenKind::Emp),
        GiveKind::Atom(n) => numbered(TokenKind::AtSign, *n, out),
        GiveKind::Fact(q) => fact(q, out),
        GiveKind::Star(_, _) => chain(g, out),
        GiveKind::Ex(t, h) => {
            operand(h.get(), PRIMARY, out)?;
            over(TokenKind::Ex, t.get(), out)
        }
        GiveKind::Left(h) => prefixed(h.get(), TokenKind::Left, out),
        GiveKind::Right(h) => prefixed(h.get(), TokenKind::Right, out),
        GiveKind::Fold(h) => prefixed(h.get(), TokenKind::Fold, out),
    }
}

fn fact<'a>(q: &'a Proof, out: &mut Tokens<'a>) -> Result<(), AllocError>
    ensures { OnOk result (tokens_of out.new ≡ layout.brackets (layout.proof q.now) (tokens_of out.old)) }
{
    out.word(TokenKind::RBracket)?;
    proof(q, out)?;
    out.word(TokenKind::LBracket)
}

// A word and its operand.
#[cycle(give)]
fn prefixed<'a>(g: &'a Give, word: TokenKind, out: &mut Tokens<'a>) -> Result<(), AllocError>
    ensures { OnOk result (tokens_of out.new ≡ layout.◌▹◌ word (layout.at 1 (shown_give g.now) (tokens_of out.old))) }
{
    operand(g, PRIMARY, out)?;
    out.word(word)
}

// A chain of stars.
#[cycle(give)]
#[tactic(auto, unfolding(tht_tree::specs::Layout::shown_give))]
fn chain<'a>(g: &'a Give, out: &mut Tokens<'a>) -> Result<(), AllocError>
    requires { (shown_give g.now).rank ≡ 0 }
    ensures { OnOk result (tokens_of out.new ≡ (shown_give g.now).bare 64 (tokens_of out.old)) }
{
    let mut left = g;
    for _turn in 0..MAX_OPERATORS {
        let GiveKind::Star(x, y) = &left.kind else {
            break;
        };
        operand(y.get(), PRIMARY, out)?;
        out.word(TokenKind::Star)?;
        left = x.get();
    }
    operand(left, PRIMARY, out)
}
