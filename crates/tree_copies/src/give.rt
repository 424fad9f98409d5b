// Copies of gives, and their comparison but for spots.
ghost use Rattle.std.specs.Prelude.{◌≡◌, ◌↔◌, IfOk, IsTrue};
ghost use Rattle.tht_tree.specs.WithoutSpots.{bare_give};
ghost use Rattle.tree_copies.specs.Levels.{give_level};

use crate::proof::{copy_proof, same_proof};
use sqlite_items::Boxed;
use std::alloc::{AllocError, Global};
use tht_tree::give::{Give, GiveKind, GiveKind as Kind};
use tht_tree::term::{copy as copy_term, same as same_term};

#[cycle(copy)]
pub(crate) fn copy_give(alloc: Global, give: &Give) -> Result<Give, AllocError>
    ensures { IfOk result (λ g. g ≡ give.now) }
{
    let kind = copy_kind(alloc, &give.kind)?;
    Ok(Give {
        spot: give.spot,
        kind,
    })
}

#[cycle(copy)]
fn copy(alloc: Global, give: &Boxed<Give>) -> Result<Boxed<Give>, AllocError>
    ensures { IfOk result (λ g. g ≡ give.now) }
{
    let inner = copy_give(alloc, give.get())?;
    Boxed::new(alloc, inner)
}

#[cycle(copy)]
fn copy_kind(alloc: Global, kind: &GiveKind) -> Result<GiveKind, AllocError>
    ensures { IfOk result (λ k. k ≡ kind.now) }
{
    match kind {
        Kind::Emp => Ok(Kind::Emp),
        Kind::Atom(i) => Ok(Kind::Atom(*i)),
        Kind::Fact(p) => Ok(Kind::Fact(copy_proof(alloc, p)?)),
        Kind::Star(g, h) => Ok(Kind::Star(copy(alloc, g)?, copy(alloc, h)?)),
        Kind::Ex(t, g) => Ok(Kind::Ex(copy_term(alloc, t)?, copy(alloc, g)?)),
        Kind::Left(g) => Ok(Kind::Left(copy(alloc, g)?)),
        Kind::Right(g) => Ok(Kind::Right(copy(alloc, g)?)),
        Kind::Fold(g) => Ok(Kind::Fold(copy(alloc, g)?)),
    }
}

#[cycle(same)]
pub(crate) fn same_give(give: &Give, other: &Give) -> bool
    ensures { IsTrue result ↔ (bare_give give.now ≡ bare_give other.now) }
{
    same_kind(&give.kind, &other.kind)
}

#[cycle(same)]
fn same(give: &Boxed<Give>, other: &Boxed<Give>) -> bool
    ensures { IsTrue result ↔ (bare_give give.now ≡ bare_give other.now) }
{
    same_give(give.get(), other.get())
}

#[cycle(same)]
fn same_kind(kind: &GiveKind, other: &GiveKind) -> bool
    ensures { IsTrue result ↔ (give_level kind.now ≡ give_level other.now) }
{
    match (kind, other) {
        (Kind::Emp, Kind::Emp) => true,
        (Kind::Atom(i), Kind::Atom(j)) => i == j,
        (Kind::Fact(p), Kind::Fact(q)) => same_proof(p, q),
        (Kind::Star(g, h), Kind::Star(k, l)) => same(g, k) && same(h, l),
        (Kind::Ex(t, g), Kind::Ex(u, h)) => same_term(t, u) && same(g, h),
        (Kind::Left(g), Kind::Left(h)) => same(g, h),
        (Kind::Right(g), Kind::Right(h)) => same(g, h),
        (Kind::Fold(g), Kind::Fold(h)) => same(g, h),
        _ => false,
    }
}
