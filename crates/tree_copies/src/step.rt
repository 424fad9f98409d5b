// Copies of proof steps, and their comparison but for spots.
ghost use Rattle.std.specs.Prelude.{◌≡◌, ◌↔◌, IfOk, IsTrue};
ghost use Rattle.tht_tree.specs.WithoutSpots.{bare_step, bare_step_kind};

use crate::give::{copy_give, same_give};
use crate::proof::{copy_proof, same_proof};
use std::alloc::{AllocError, Global};
use tht_tree::step::{Step, StepKind, StepKind as Kind};
use tht_tree::term::{copy as copy_term, copy_terms, same as same_term, same_terms};

pub(crate) fn copy_step(alloc: Global, step: &Step) -> Result<Step, AllocError>
    ensures { IfOk result (λ s. s ≡ step.now) }
{
    let kind = copy_kind(alloc, &step.kind)?;
    Ok(Step {
        spot: step.spot,
        kind,
    })
}

fn copy_kind(alloc: Global, kind: &StepKind) -> Result<StepKind, AllocError>
    ensures { IfOk result (λ k. k ≡ kind.now) }
{
    match kind {
        Kind::Have(h, t, p) => Ok(Kind::Have(
            h.copy()?,
            copy_term(alloc, t)?,
            copy_proof(alloc, p)?,
        )),
        Kind::OpenVar(i, x, sort) => Ok(Kind::OpenVar(*i, x.copy()?, *sort)),
        Kind::OpenFact(i, h) => Ok(Kind::OpenFact(*i, h.copy()?)),
        Kind::Unfold(i) => Ok(Kind::Unfold(*i)),
        Kind::Fold(p, ts, g) => Ok(Kind::Fold(
            p.copy()?,
            copy_terms(alloc, ts)?,
            copy_give(alloc, g)?,
        )),
        Kind::Rewrite(i, k, t, p) => Ok(Kind::Rewrite(
            *i,
            *k,
            copy_term(alloc, t)?,
            copy_proof(alloc, p)?,
        )),
        Kind::Use(l, ts, g) => Ok(Kind::Use(
            l.copy()?,
            copy_terms(alloc, ts)?,
            copy_give(alloc, g)?,
        )),
    }
}

// Whether the two are the same but for their spots.
pub(crate) fn same_step(step: &Step, other: &Step) -> bool
    ensures { IsTrue result ↔ (bare_step step.now ≡ bare_step other.now) }
{
    same_kind(&step.kind, &other.kind)
}

fn same_kind(kind: &StepKind, other: &StepKind) -> bool
    ensures { IsTrue result ↔ (bare_step_kind kind.now ≡ bare_step_kind other.now) }
{
    match (kind, other) {
        (Kind::Have(h, t, p), Kind::Have(g, u, q)) => {
            h.same(g) && same_term(t, u) && same_proof(p, q)
        }
        (Kind::OpenVar(i, x, s), Kind::OpenVar(j, y, r)) => i == j && x.same(y) && s == r,
        (Kind::OpenFact(i, h), Kind::OpenFact(j, g)) => i == j && h.same(g),
        (Kind::Unfold(i), Kind::Unfold(j)) => i == j,
        (Kind::Fold(p, ts, g), Kind::Fold(q, us, h)) => {
            p.same(q) && same_terms(ts, us) && same_give(g, h)
        }
        (Kind::Rewrite(i, k, t, p), Kind::Rewrite(j, l, u, q)) => {
            i == j && k == l && same_term(t, u) && same_proof(p, q)
        }
        (Kind::Use(l, ts, g), Kind::Use(m, us, h)) => {
            l.same(m) && same_terms(ts, us) && same_give(g, h)
        }
        _ => false,
    }
}
