// The tokens of steps.
ghost use Rattle.std.specs.Prelude.{◌≡◌, ◌∷◌, OnOk};
ghost use Rattle.tht_tree.specs.Layout as layout;
ghost use Rattle.tht_tree.specs.Layout.{name, number};
ghost use Rattle.tht_tree.specs.declared.token.TokenKind.TheVariants as k;
ghost use Rattle.tht_print.specs.Tokens.{tokens_of};

use crate::give::by_give;
use crate::names::{named, numbered, sorted};
use crate::proof::by_proof;
use crate::term::{after_word, arguments, term};
use crate::tokens::Tokens;
use std::alloc::AllocError;
use tht_tree::give::Give;
use tht_tree::plain::{Name, Sort};
use tht_tree::proof::Proof;
use tht_tree::step::StepKind;
use tht_tree::term::Term;
use tht_tree::token::TokenKind;

/// Puts a proof step before the tokens.
pub fn step<'a>(s: &'a StepKind, out: &mut Tokens<'a>) -> Result<(), AllocError>
    ensures { OnOk result (tokens_of out.new ≡ layout.step s.now (tokens_of out.old)) }
{
    match s {
        StepKind::Have(h, t, q) => have(h, t.get(), q, out),
        StepKind::OpenVar(n, x, sort) => open_var(*n, x, *sort, out),
        StepKind::OpenFact(n, h) => open_fact(*n, h, out),
        StepKind::Unfold(n) => numbered(TokenKind::Unfold, *n, out),
        StepKind::Fold(x, ts, g) => instance(TokenKind::Fold, x, ts.as_slice(), g, out),
        StepKind::Rewrite(m, n, t, q) => rewrite((*m, *n), t.get(), q, out),
        StepKind::Use(x, ts, g) => instance(TokenKind::Use, x, ts.as_slice(), g, out),
    }
}

fn have<'a>(h: &'a Name, t: &'a Term, q: &'a Proof, out: &mut Tokens<'a>) -> Result<(), AllocError>
    ensures { OnOk result (tokens_of out.new ≡ layout.◌▹◌ k.Have (name h.now ∷ layout.◌▹◌ k.Colon (layout.term t.now (layout.by_proof q.now (tokens_of out.old))))) }
{
    by_proof(q, out)?;
    after_word(TokenKind::Colon, t, out)?;
    named(TokenKind::Have, h, out)
}

fn open_var<'a>(n: u64, x: &'a Name, sort: Sort, out: &mut Tokens<'a>) -> Result<(), AllocError>
    ensures { OnOk result (tokens_of out.new ≡ layout.◌▹◌ k.Open (number n ∷ layout.◌▹◌ k.As (layout.sorted x.now sort (tokens_of out.old)))) }
{
    sorted(x, sort, out)?;
    out.word(TokenKind::As)?;
    numbered(TokenKind::Open, n, out)
}

fn open_fact<'a>(n: u64, h: &'a Name, out: &mut Tokens<'a>) -> Result<(), AllocError>
    ensures { OnOk result (tokens_of out.new ≡ layout.◌▹◌ k.Open (number n ∷ layout.◌▹◌ k.As (name h.now ∷ tokens_of out.old))) }
{
    named(TokenKind::As, h, out)?;
    numbered(TokenKind::Open, n, out)
}

fn rewrite<'a>(
    at: (u64, u64),
    t: &'a Term,
    q: &'a Proof,
    out: &mut Tokens<'a>,
) -> Result<(), AllocError>
    ensures { OnOk result (tokens_of out.new ≡ layout.◌▹◌ k.Rewrite (number at.0 ∷ number at.1 ∷ layout.◌▹◌ k.To (layout.term t.now (layout.by_proof q.now (tokens_of out.old))))) }
{
    by_proof(q, out)?;
    after_word(TokenKind::To, t, out)?;
    out.number(u128::from(at.1))?;
    numbered(TokenKind::Rewrite, at.0, out)
}

// A word, an instance of a predicate or a lemma, and the give that it rests on.
fn instance<'a>(
    word: TokenKind,
    x: &'a Name,
    ts: &'a [Term],
    g: &'a Give,
    out: &mut Tokens<'a>,
) -> Result<(), AllocError>
    ensures { OnOk result (tokens_of out.new ≡ layout.◌▹◌ word (name x.now ∷ layout.arguments ts.now (layout.by_give g.now (tokens_of out.old)))) }
{
    by_give(g, out)?;
    arguments(ts, out)?;
    named(word, x, out)
}
