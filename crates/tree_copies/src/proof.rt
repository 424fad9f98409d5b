// Copies of proofs, and their comparison but for spots.
ghost use Rattle.std.specs.Prelude.{◌≡◌, ◌↔◌, map, IfOk, IsTrue};
ghost use Rattle.tht_tree.specs.WithoutSpots.{bare_proof, bare_entry};
ghost use Rattle.tree_copies.specs.Levels.{proof_level, entry_level, is_binder};

use sqlite_items::{Boxed, Items};
use std::alloc::{AllocError, Global};
use tht_tree::plain::Name;
use tht_tree::proof::{LinEntry, Proof, ProofKind, ProofKind as Kind};
use tht_tree::term::{Term, copy as copy_term, copy_terms, same as same_term, same_terms};

// ---- copies

#[cycle(copy)]
pub(crate) fn copy_proof(alloc: Global, proof: &Proof) -> Result<Proof, AllocError>
    ensures { IfOk result (λ p. p ≡ proof.now) }
{
    let kind = copy_kind(alloc, &proof.kind)?;
    Ok(Proof {
        spot: proof.spot,
        kind,
    })
}

#[cycle(copy)]
fn copy(alloc: Global, proof: &Boxed<Proof>) -> Result<Boxed<Proof>, AllocError>
    ensures { IfOk result (λ p. p ≡ proof.now) }
{
    let inner = copy_proof(alloc, proof.get())?;
    Boxed::new(alloc, inner)
}

#[cycle(copy)]
fn copy_kind(alloc: Global, kind: &ProofKind) -> Result<ProofKind, AllocError>
    ensures { IfOk result (λ k. k ≡ kind.now) }
{
    match kind {
        Kind::Hyp(h) => Ok(Kind::Hyp(h.copy()?)),
        Kind::Refl => Ok(Kind::Refl),
        Kind::Calc => Ok(Kind::Calc),
        Kind::Recast(t, p) => Ok(Kind::Recast(copy_term(alloc, t)?, copy(alloc, p)?)),
        Kind::Sym(p) => Ok(Kind::Sym(copy(alloc, p)?)),
        Kind::Both(p, q) => Ok(Kind::Both(copy(alloc, p)?, copy(alloc, q)?)),
        Kind::Subst(..) => copy_binder(alloc, kind),
        Kind::Pair(p, q) => Ok(Kind::Pair(copy(alloc, p)?, copy(alloc, q)?)),
        Kind::Fst(t, p) => Ok(Kind::Fst(copy_term(alloc, t)?, copy(alloc, p)?)),
        Kind::Snd(t, p) => Ok(Kind::Snd(copy_term(alloc, t)?, copy(alloc, p)?)),
        Kind::Inl(p) => Ok(Kind::Inl(copy(alloc, p)?)),
        Kind::Inr(p) => Ok(Kind::Inr(copy(alloc, p)?)),
        Kind::Cases(..) => copy_binder(alloc, kind),
        Kind::Fun(h, p) => Ok(Kind::Fun(h.copy()?, copy(alloc, p)?)),
        Kind::App(t, p, q) => Ok(Kind::App(copy_term(alloc, t)?, copy(alloc, p)?, copy(alloc, q)?)),
        Kind::Neg(t, p, q) => Ok(Kind::Neg(copy_term(alloc, t)?, copy(alloc, p)?, copy(alloc, q)?)),
        Kind::Absurd(p) => Ok(Kind::Absurd(copy(alloc, p)?)),
        Kind::Em(..) => copy_binder(alloc, kind),
        Kind::Lin(k, entries) => Ok(Kind::Lin(*k, copy_entries(alloc, entries)?)),
        Kind::Monus(p) => Ok(Kind::Monus(copy(alloc, p)?)),
        Kind::Head(s, t, p) => copy_head(alloc, p, s, t),
        Kind::Tail(s, t, p) => copy_tail(alloc, p, s, t),
        Kind::Nocons => Ok(Kind::Nocons),
        Kind::Apart(i, j) => Ok(Kind::Apart(*i, *j)),
        Kind::Nonnull(i) => Ok(Kind::Nonnull(*i)),
        Kind::Lemma(l, ts, p) => copy_use(alloc, p, l, ts),
        Kind::Todo => Ok(Kind::Todo),
    }
}

// A proof that binds a variable of a formula, or a hypothesis in each of two branches.
#[cycle(copy)]
fn copy_binder(alloc: Global, kind: &ProofKind) -> Result<ProofKind, AllocError>
    requires { IsTrue (is_binder kind.now) }
    ensures { IfOk result (λ k. k ≡ kind.now) }
{
    match kind {
        Kind::Subst(x, sort, t, a, b, p, q) => {
            let (t, a, b) = copy_three(alloc, t, a, b)?;
            let (p, q) = (copy(alloc, p)?, copy(alloc, q)?);
            Ok(Kind::Subst(x.copy()?, *sort, t, a, b, p, q))
        }
        Kind::Cases(t, p, h, q, g, r) => {
            let (t, p) = (copy_term(alloc, t)?, copy(alloc, p)?);
            let (h, q) = copy_branch(alloc, h, q)?;
            let (g, r) = copy_branch(alloc, g, r)?;
            Ok(Kind::Cases(t, p, h, q, g, r))
        }
        Kind::Em(t, h, p, g, q) => {
            let t = copy_term(alloc, t)?;
            let (h, p) = copy_branch(alloc, h, p)?;
            let (g, q) = copy_branch(alloc, g, q)?;
            Ok(Kind::Em(t, h, p, g, q))
        }
        _ => unreachable!(),
    }
}

/// A hypothesis' name, and the proof in which it is known.
type Branch = (Name, Boxed<Proof>);

#[cycle(copy)]
fn copy_branch(alloc: Global, name: &Name, proof: &Boxed<Proof>) -> Result<Branch, AllocError>
    ensures { IfOk result (λ b. (b.0 ≡ name.now) × (b.1 ≡ proof.now)) }
{
    let name = name.copy()?;
    let proof = copy(alloc, proof)?;
    Ok((name, proof))
}

#[cycle(copy)]
fn copy_head(
    alloc: Global,
    proof: &Boxed<Proof>,
    s: &Boxed<Term>,
    t: &Boxed<Term>,
) -> Result<ProofKind, AllocError>
    ensures { IfOk result (λ k. k ≡ ProofKind.Head s.now t.now proof.now) }
{
    let s = copy_term(alloc, s)?;
    let t = copy_term(alloc, t)?;
    let proof = copy(alloc, proof)?;
    Ok(Kind::Head(s, t, proof))
}

#[cycle(copy)]
fn copy_tail(
    alloc: Global,
    proof: &Boxed<Proof>,
    s: &Boxed<Term>,
    t: &Boxed<Term>,
) -> Result<ProofKind, AllocError>
    ensures { IfOk result (λ k. k ≡ ProofKind.Tail s.now t.now proof.now) }
{
    let s = copy_term(alloc, s)?;
    let t = copy_term(alloc, t)?;
    let proof = copy(alloc, proof)?;
    Ok(Kind::Tail(s, t, proof))
}

#[cycle(copy)]
fn copy_use(
    alloc: Global,
    proof: &Boxed<Proof>,
    lemma: &Name,
    arguments: &Items<Term>,
) -> Result<ProofKind, AllocError>
    ensures { IfOk result (λ k. k ≡ ProofKind.Lemma lemma.now arguments.now proof.now) }
{
    let lemma = lemma.copy()?;
    let arguments = copy_terms(alloc, arguments)?;
    let proof = copy(alloc, proof)?;
    Ok(Kind::Lemma(lemma, arguments, proof))
}

type Three = (Boxed<Term>, Boxed<Term>, Boxed<Term>);

fn copy_three(
    alloc: Global,
    a: &Boxed<Term>,
    b: &Boxed<Term>,
    c: &Boxed<Term>,
) -> Result<Three, AllocError>
    ensures { IfOk result (λ r. (r.0 ≡ a.now) × (r.1 ≡ b.now) × (r.2 ≡ c.now)) }
{
    let a = copy_term(alloc, a)?;
    let b = copy_term(alloc, b)?;
    let c = copy_term(alloc, c)?;
    Ok((a, b, c))
}

#[cycle(copy)]
fn copy_entries(alloc: Global, entries: &Items<LinEntry>) -> Result<Items<LinEntry>, AllocError>
    ensures { IfOk result (λ es. es ≡ entries.now) }
{
    let mut copies = Items::new(alloc);
    for entry in entries.as_slice() {
        copies.push(copy_entry(alloc, entry)?)?;
    }
    Ok(copies)
}

#[cycle(copy)]
fn copy_entry(alloc: Global, entry: &LinEntry) -> Result<LinEntry, AllocError>
    ensures { IfOk result (λ e. e ≡ entry.now) }
{
    let fact = copy_term(alloc, &entry.fact)?;
    let proof = copy(alloc, &entry.proof)?;
    Ok(LinEntry {
        multiplier: entry.multiplier,
        fact,
        proof,
    })
}

// ---- sameness but for spots

#[cycle(same)]
pub(crate) fn same_proof(proof: &Proof, other: &Proof) -> bool
    ensures { IsTrue result ↔ (bare_proof proof.now ≡ bare_proof other.now) }
{
    same_kind(&proof.kind, &other.kind)
}

#[cycle(same)]
fn same(proof: &Boxed<Proof>, other: &Boxed<Proof>) -> bool
    ensures { IsTrue result ↔ (bare_proof proof.now ≡ bare_proof other.now) }
{
    same_proof(proof.get(), other.get())
}

#[cycle(same)]
fn same_kind(kind: &ProofKind, other: &ProofKind) -> bool
    ensures { IsTrue result ↔ (proof_level kind.now ≡ proof_level other.now) }
{
    match (kind, other) {
        (Kind::Hyp(h), Kind::Hyp(g)) => h.same(g),
        (Kind::Refl, Kind::Refl) => true,
        (Kind::Calc, Kind::Calc) => true,
        (Kind::Recast(t, p), Kind::Recast(u, q)) => same_term(t, u) && same(p, q),
        (Kind::Sym(p), Kind::Sym(q)) => same(p, q),
        (Kind::Both(p, q), Kind::Both(m, n)) => same(p, m) && same(q, n),
        (Kind::Subst(x, s, t, a, b, p, q), Kind::Subst(y, r, u, c, d, m, n)) => {
            x.same(y) && s == r && same_three(t, a, b, u, c, d) && same(p, m) && same(q, n)
        }
        (Kind::Pair(p, q), Kind::Pair(m, n)) => same(p, m) && same(q, n),
        (Kind::Fst(t, p), Kind::Fst(u, q)) => same_term(t, u) && same(p, q),
        (Kind::Snd(t, p), Kind::Snd(u, q)) => same_term(t, u) && same(p, q),
        (Kind::Inl(p), Kind::Inl(q)) => same(p, q),
        (Kind::Inr(p), Kind::Inr(q)) => same(p, q),
        (Kind::Cases(t, p, h, q, g, r), Kind::Cases(u, k, a, l, b, m)) => {
            same_term(t, u) && same(p, k) && h.same(a) && same(q, l) && g.same(b) && same(r, m)
        }
        (Kind::Fun(h, p), Kind::Fun(g, q)) => h.same(g) && same(p, q),
        (Kind::App(t, p, q), Kind::App(u, m, n)) => same_term(t, u) && same(p, m) && same(q, n),
        (Kind::Neg(t, p, q), Kind::Neg(u, m, n)) => same_term(t, u) && same(p, m) && same(q, n),
        (Kind::Absurd(p), Kind::Absurd(q)) => same(p, q),
        (Kind::Em(t, h, p, g, q), Kind::Em(u, a, m, b, n)) => {
            same_term(t, u) && h.same(a) && same(p, m) && g.same(b) && same(q, n)
        }
        (Kind::Lin(k, es), Kind::Lin(l, fs)) => k == l && same_entries(es, fs),
        (Kind::Monus(p), Kind::Monus(q)) => same(p, q),
        (Kind::Head(s, t, p), Kind::Head(u, v, q)) => same_two(s, t, u, v) && same(p, q),
        (Kind::Tail(s, t, p), Kind::Tail(u, v, q)) => same_two(s, t, u, v) && same(p, q),
        (Kind::Nocons, Kind::Nocons) => true,
        (Kind::Apart(i, j), Kind::Apart(k, l)) => i == k && j == l,
        (Kind::Nonnull(i), Kind::Nonnull(j)) => i == j,
        (Kind::Lemma(l, t, p), Kind::Lemma(m, u, q)) => l.same(m) && same_terms(t, u) && same(p, q),
        (Kind::Todo, Kind::Todo) => true,
        _ => false,
    }
}

// Whether the first two terms are the last two.
fn same_two(a: &Boxed<Term>, b: &Boxed<Term>, c: &Boxed<Term>, d: &Boxed<Term>) -> bool
    ensures { IsTrue result ↔ ((a.now ≡ c.now) × (b.now ≡ d.now)) }
{
    same_term(a, c) && same_term(b, d)
}

// Whether the first three terms are the last three.
fn same_three(
    a: &Boxed<Term>,
    b: &Boxed<Term>,
    c: &Boxed<Term>,
    d: &Boxed<Term>,
    e: &Boxed<Term>,
    f: &Boxed<Term>,
) -> bool
    ensures { IsTrue result ↔ ((a.now ≡ d.now) × (b.now ≡ e.now) × (c.now ≡ f.now)) }
{
    same_term(a, d) && same_term(b, e) && same_term(c, f)
}

#[cycle(same)]
fn same_entries(entries: &Items<LinEntry>, others: &Items<LinEntry>) -> bool
    ensures { IsTrue result ↔ (map bare_entry entries.now ≡ map bare_entry others.now) }
{
    if entries.len() != others.len() {
        return false;
    }
    for (entry, other) in entries.as_slice().iter().zip(others.as_slice().iter()) {
        if !same_entry(entry, other) {
            return false;
        }
    }
    true
}

#[cycle(same)]
fn same_entry(entry: &LinEntry, other: &LinEntry) -> bool
    ensures { IsTrue result ↔ (entry_level entry.now ≡ entry_level other.now) }
{
    entry.multiplier == other.multiplier
        && same_term(&entry.fact, &other.fact)
        && same(&entry.proof, &other.proof)
}
