// The tokens of proofs.
ghost use Rattle.std.specs.Prelude.{◌≡◌, ◌∷◌, map, OnOk};
ghost use Rattle.tht_tree.specs.Layout as layout;
ghost use Rattle.tht_tree.specs.Layout.{name, number};
ghost use Rattle.tht_tree.specs.declared.token.TokenKind.TheVariants as k;
ghost use Rattle.tht_print.specs.Parts.{lin_entry, proof_kind};
ghost use Rattle.tht_print.specs.Tokens.{tokens_of};

use crate::names::{named, numbered, sorted};
use crate::term::{arguments, bracketed, over, term};
use crate::tokens::Tokens;
use std::alloc::AllocError;
use tht_tree::plain::{Name, Sort};
use tht_tree::proof::{LinEntry, Proof, ProofKind};
use tht_tree::term::Term;
use tht_tree::token::TokenKind;

/// Puts `by` and a proof before the tokens.
pub fn by_proof<'a>(q: &'a Proof, out: &mut Tokens<'a>) -> Result<(), AllocError>
    ensures { OnOk result (tokens_of out.new ≡ layout.by_proof q.now (tokens_of out.old)) }
{
    proof(q, out)?;
    out.word(TokenKind::By)
}

/// Puts a proof before the tokens.
#[cycle(proof)]
#[tactic(auto, unfolding(tht_tree::specs::Layout::proof, crate::specs::Parts::proof_kind))]
pub fn proof<'a>(q: &'a Proof, out: &mut Tokens<'a>) -> Result<(), AllocError>
    ensures { OnOk result (tokens_of out.new ≡ layout.proof q.now (tokens_of out.old)) }
{
    form(&q.kind, out)
}

#[cycle(proof)]
#[tactic(auto, unfolding(tht_tree::specs::Layout::proof, crate::specs::Parts::proof_kind, crate::specs::Parts::lin_entry))]
fn form<'a>(q: &'a ProofKind, out: &mut Tokens<'a>) -> Result<(), AllocError>
    ensures { OnOk result (tokens_of out.new ≡ proof_kind q.now (tokens_of out.old)) }
{
    match q {
        ProofKind::Hyp(h) => named(TokenKind::Hyp, h, out),
        ProofKind::Refl => out.word(TokenKind::Refl),
        ProofKind::Calc => out.word(TokenKind::Calc),
        ProofKind::Recast(t, q) => over_one(TokenKind::As, t.get(), q.get(), out),
        ProofKind::Sym(q) => one(TokenKind::Sym, q.get(), out),
        ProofKind::Both(q, r) => two(TokenKind::Both, q.get(), r.get(), out),
        ProofKind::Subst(x, sort, t, from, to, q, r) => {
            over_ends(from.get(), to.get(), q.get(), r.get(), out)?;
            motive(x, *sort, t.get(), out)
        }
        ProofKind::Pair(q, r) => two(TokenKind::Pair, q.get(), r.get(), out),
        ProofKind::Fst(t, q) => over_one(TokenKind::Fst, t.get(), q.get(), out),
        ProofKind::Snd(t, q) => over_one(TokenKind::Snd, t.get(), q.get(), out),
        ProofKind::Inl(q) => one(TokenKind::Inl, q.get(), out),
        ProofKind::Inr(q) => one(TokenKind::Inr, q.get(), out),
        ProofKind::Cases(t, p, h, q, i, r) => {
            cases(h, q.get(), i, r.get(), out)?;
            over_one(TokenKind::Cases, t.get(), p.get(), out)
        }
        ProofKind::Fun(h, q) => function(h, q.get(), out),
        ProofKind::App(t, q, r) => over_two(TokenKind::App, t.get(), q.get(), r.get(), out),
        ProofKind::Neg(t, q, r) => over_two(TokenKind::Neg, t.get(), q.get(), r.get(), out),
        ProofKind::Absurd(q) => one(TokenKind::Absurd, q.get(), out),
        ProofKind::Em(t, h, q, i, r) => {
            cases(h, q.get(), i, r.get(), out)?;
            over(TokenKind::Em, t.get(), out)
        }
        ProofKind::Lin(n, entries) => {
            certificate(entries.as_slice(), out)?;
            numbered(TokenKind::Lin, *n, out)
        }
        ProofKind::Monus(q) => one(TokenKind::Monus, q.get(), out),
        ProofKind::Head(t, u, q) => over_ones(TokenKind::Head, t.get(), u.get(), q.get(), out),
        ProofKind::Tail(t, u, q) => over_ones(TokenKind::Tail, t.get(), u.get(), q.get(), out),
        ProofKind::Nocons => out.word(TokenKind::Nocons),
        ProofKind::Apart(m, n) => apart(*m, *n, out),
        ProofKind::Nonnull(n) => numbered(TokenKind::Nonnull, *n, out),
        ProofKind::Lemma(x, ts, q) => lemma(x, ts.as_slice(), q.get(), out),
        ProofKind::Todo => out.word(TokenKind::Todo),
    }
}

// A word and a proof.
#[cycle(proof)]
fn one<'a>(word: TokenKind, q: &'a Proof, out: &mut Tokens<'a>) -> Result<(), AllocError>
    ensures { OnOk result (tokens_of out.new ≡ layout.◌▹◌ word (layout.proof q.now (tokens_of out.old))) }
{
    proof(q, out)?;
    out.word(word)
}

// A word and two proofs.
#[cycle(proof)]
fn two<'a>(
    word: TokenKind,
    q: &'a Proof,
    r: &'a Proof,
    out: &mut Tokens<'a>,
) -> Result<(), AllocError>
    ensures { OnOk result (tokens_of out.new ≡ layout.◌▹◌ word (layout.proof q.now (layout.proof r.now (tokens_of out.old)))) }
{
    proof(r, out)?;
    proof(q, out)?;
    out.word(word)
}

// A word, a term and a proof.
#[cycle(proof)]
fn over_one<'a>(
    word: TokenKind,
    t: &'a Term,
    q: &'a Proof,
    out: &mut Tokens<'a>,
) -> Result<(), AllocError>
    ensures { OnOk result (tokens_of out.new ≡ layout.◌▹◌ word (layout.brackets (layout.term t.now) (layout.proof q.now (tokens_of out.old)))) }
{
    proof(q, out)?;
    over(word, t, out)
}

// A word, a term and two proofs.
#[cycle(proof)]
fn over_two<'a>(
    word: TokenKind,
    t: &'a Term,
    q: &'a Proof,
    r: &'a Proof,
    out: &mut Tokens<'a>,
) -> Result<(), AllocError>
    ensures { OnOk result (tokens_of out.new ≡ layout.◌▹◌ word (layout.brackets (layout.term t.now) (layout.proof q.now (layout.proof r.now (tokens_of out.old))))) }
{
    proof(r, out)?;
    proof(q, out)?;
    over(word, t, out)
}

// A word, two terms and a proof.
#[cycle(proof)]
fn over_ones<'a>(
    word: TokenKind,
    t: &'a Term,
    u: &'a Term,
    q: &'a Proof,
    out: &mut Tokens<'a>,
) -> Result<(), AllocError>
    ensures { OnOk result (tokens_of out.new ≡ layout.◌▹◌ word (layout.brackets (layout.term t.now) (layout.brackets (layout.term u.now) (layout.proof q.now (tokens_of out.old))))) }
{
    proof(q, out)?;
    bracketed(u, out)?;
    over(word, t, out)
}

// Two terms and two proofs.
#[cycle(proof)]
fn over_ends<'a>(
    from: &'a Term,
    to: &'a Term,
    q: &'a Proof,
    r: &'a Proof,
    out: &mut Tokens<'a>,
) -> Result<(), AllocError>
    ensures { OnOk result (tokens_of out.new ≡ layout.brackets (layout.term from.now) (layout.brackets (layout.term to.now) (layout.proof q.now (layout.proof r.now (tokens_of out.old))))) }
{
    proof(r, out)?;
    proof(q, out)?;
    bracketed(to, out)?;
    bracketed(from, out)
}

// The formula in which `subst` replaces.
fn motive<'a>(x: &'a Name, sort: Sort, t: &'a Term, out: &mut Tokens<'a>) -> Result<(), AllocError>
    ensures { OnOk result (tokens_of out.new ≡ layout.◌▹◌ k.Subst (layout.◌▹◌ k.LParen (layout.sorted x.now sort (layout.◌▹◌ k.Dot (layout.term t.now (layout.◌▹◌ k.RParen (tokens_of out.old))))))) }
{
    out.word(TokenKind::RParen)?;
    term(t, out)?;
    out.word(TokenKind::Dot)?;
    sorted(x, sort, out)?;
    out.word(TokenKind::LParen)?;
    out.word(TokenKind::Subst)
}

// A hypothesis and a proof that uses it, in braces.
#[cycle(proof)]
fn case<'a>(q: &'a Proof, h: &'a Name, out: &mut Tokens<'a>) -> Result<(), AllocError>
    ensures { OnOk result (tokens_of out.new ≡ layout.case h.now (layout.proof q.now) (tokens_of out.old)) }
{
    out.word(TokenKind::RBrace)?;
    proof(q, out)?;
    out.word(TokenKind::Dot)?;
    named(TokenKind::LBrace, h, out)
}

#[cycle(proof)]
fn cases<'a>(
    h: &'a Name,
    q: &'a Proof,
    i: &'a Name,
    r: &'a Proof,
    out: &mut Tokens<'a>,
) -> Result<(), AllocError>
    ensures { OnOk result (tokens_of out.new ≡ layout.case h.now (layout.proof q.now) (layout.case i.now (layout.proof r.now) (tokens_of out.old))) }
{
    case(r, i, out)?;
    case(q, h, out)
}

#[cycle(proof)]
fn function<'a>(h: &'a Name, q: &'a Proof, out: &mut Tokens<'a>) -> Result<(), AllocError>
    ensures { OnOk result (tokens_of out.new ≡ layout.◌▹◌ k.Fun (name h.now ∷ layout.◌▹◌ k.Dot (layout.proof q.now (tokens_of out.old)))) }
{
    proof(q, out)?;
    out.word(TokenKind::Dot)?;
    named(TokenKind::Fun, h, out)
}

// The entries of a linear certificate, in braces.
#[cycle(proof)]
#[tactic(auto, using(crate::proofs::Lists::commas_last, crate::proofs::Lists::most_last))]
fn certificate<'a>(entries: &'a [LinEntry], out: &mut Tokens<'a>) -> Result<(), AllocError>
    ensures { OnOk result (tokens_of out.new ≡ layout.braces (layout.commas (map lin_entry entries.now)) (tokens_of out.old)) }
{
    out.word(TokenKind::RBrace)?;
    let mut rest = entries;
    while let Some((entry, front)) = rest.split_last() {
        fact(entry, out)?;
        if !front.is_empty() {
            out.word(TokenKind::Comma)?;
        }
        rest = front;
    }
    out.word(TokenKind::LBrace)
}

#[cycle(proof)]
#[tactic(auto, unfolding(tht_tree::specs::Layout::proof, crate::specs::Parts::lin_entry))]
fn fact<'a>(entry: &'a LinEntry, out: &mut Tokens<'a>) -> Result<(), AllocError>
    ensures { OnOk result (tokens_of out.new ≡ lin_entry entry.now (tokens_of out.old)) }
{
    proof(entry.proof.get(), out)?;
    bracketed(entry.fact.get(), out)?;
    out.number(u128::from(entry.multiplier))
}

fn apart(m: u64, n: u64, out: &mut Tokens<'_>) -> Result<(), AllocError>
    ensures { OnOk result (tokens_of out.new ≡ layout.◌▹◌ k.Apart (number m ∷ number n ∷ tokens_of out.old)) }
{
    out.number(u128::from(n))?;
    numbered(TokenKind::Apart, m, out)
}

#[cycle(proof)]
fn lemma<'a>(
    x: &'a Name,
    ts: &'a [Term],
    q: &'a Proof,
    out: &mut Tokens<'a>,
) -> Result<(), AllocError>
    ensures { OnOk result (tokens_of out.new ≡ layout.◌▹◌ k.Lemma (name x.now ∷ layout.arguments ts.now (layout.proof q.now (tokens_of out.old)))) }
{
    proof(q, out)?;
    arguments(ts, out)?;
    named(TokenKind::Lemma, x, out)
}
