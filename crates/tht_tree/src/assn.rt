// Assertions.
ghost use Rattle.std.specs.Prelude.{◌≡◌, ◌↔◌, ◌+◌, ◌-◌, ◌^◌, min, max, map, sum, sum_by, IfOk, IsTrue};
ghost use Rattle.tht_tree.specs.Rules.Sizes.{nodes, levels, max_by, assn_nodes, assn_levels as levels_of};

use crate::plain::{Memory, Name, Sort};
use crate::term::{
    Term, copy as copy_term, copy_terms, over_deeper, over_two, same as same_term, same_terms,
    term_levels, term_size,
};
use sqlite_items::{Boxed, Items};
use std::alloc::{AllocError, Global};

/// An assertion. Chains of `*` lean to the left.
#[derive(Drop)]
pub enum Assn {
    Emp,
    /// `[t]`
    Fact(Boxed<Term>),
    /// `place -> value`: one private cell.
    Own(Boxed<Term>, Boxed<Term>),
    /// `place => value`: one shared cell.
    Shared(Boxed<Term>, Boxed<Term>),
    Star(Boxed<Assn>, Boxed<Assn>),
    /// `P(t, ..)`: an instance of a predicate.
    Inst(Name, Items<Term>),
    /// `exists x : sort . A`
    Exists(Name, Sort, Boxed<Assn>),
    /// `either A or B`
    Either(Boxed<Assn>, Boxed<Assn>),
}

impl Assn {
    /// An equal assertion.
    pub fn copy(&self, alloc: Global) -> Result<Assn, Memory>
        ensures { IfOk result (λ a. a ≡ self.now) }
    {
        copy_assn(alloc, self).map_err(|_| Memory)
    }
}

/// An equal assertion.
#[cycle(copy)]
pub fn copy_assn(alloc: Global, assn: &Assn) -> Result<Assn, AllocError>
    ensures { IfOk result (λ a. a ≡ assn.now) }
{
    match assn {
        Assn::Emp => Ok(Assn::Emp),
        Assn::Fact(t) => Ok(Assn::Fact(copy_term(alloc, t)?)),
        Assn::Own(t, u) => Ok(Assn::Own(copy_term(alloc, t)?, copy_term(alloc, u)?)),
        Assn::Shared(t, u) => Ok(Assn::Shared(copy_term(alloc, t)?, copy_term(alloc, u)?)),
        Assn::Star(a, b) => Ok(Assn::Star(copy(alloc, a)?, copy(alloc, b)?)),
        Assn::Inst(p, ts) => Ok(Assn::Inst(p.copy()?, copy_terms(alloc, ts)?)),
        Assn::Exists(x, sort, a) => Ok(Assn::Exists(x.copy()?, *sort, copy(alloc, a)?)),
        Assn::Either(a, b) => Ok(Assn::Either(copy(alloc, a)?, copy(alloc, b)?)),
    }
}

#[cycle(copy)]
fn copy(alloc: Global, assn: &Boxed<Assn>) -> Result<Boxed<Assn>, AllocError>
    ensures { IfOk result (λ a. a ≡ assn.now) }
{
    let inner = copy_assn(alloc, assn.get())?;
    Boxed::new(alloc, inner)
}

/// Whether the two are the same tree.
#[cycle(same)]
pub fn same_assn(assn: &Assn, other: &Assn) -> bool
    ensures { IsTrue result ↔ (assn.now ≡ other.now) }
{
    match (assn, other) {
        (Assn::Emp, Assn::Emp) => true,
        (Assn::Fact(t), Assn::Fact(u)) => same_term(t, u),
        (Assn::Own(t, u), Assn::Own(v, w)) => same_term(t, v) && same_term(u, w),
        (Assn::Shared(t, u), Assn::Shared(v, w)) => same_term(t, v) && same_term(u, w),
        (Assn::Star(a, b), Assn::Star(c, d)) => same(a, c) && same(b, d),
        (Assn::Inst(p, ts), Assn::Inst(q, us)) => p.same(q) && same_terms(ts, us),
        (Assn::Exists(x, r, a), Assn::Exists(y, s, b)) => x.same(y) && r == s && same(a, b),
        (Assn::Either(a, b), Assn::Either(c, d)) => same(a, c) && same(b, d),
        _ => false,
    }
}

#[cycle(same)]
fn same(assn: &Boxed<Assn>, other: &Boxed<Assn>) -> bool
    ensures { IsTrue result ↔ (assn.now ≡ other.now) }
{
    same_assn(assn.get(), other.get())
}

/// How many nodes the assertion has, its terms' included: at most 2^64 - 1, where the count stays.
pub fn assn_size(assn: &Assn) -> u64
    ensures { result ≡ min (assn_nodes assn.now) (2 ^ 64 - 1) }
{
    match assn {
        Assn::Emp => 1,
        Assn::Fact(t) => term_size(t.get()).saturating_add(1),
        Assn::Own(t, u) => over_two(term_size(t.get()), term_size(u.get())),
        Assn::Shared(t, u) => over_two(term_size(t.get()), term_size(u.get())),
        Assn::Star(a, b) => over_two(assn_size(a.get()), assn_size(b.get())),
        Assn::Inst(_, ts) => terms_size(ts).saturating_add(1),
        Assn::Exists(_, _, a) => assn_size(a.get()).saturating_add(1),
        Assn::Either(a, b) => over_two(assn_size(a.get()), assn_size(b.get())),
    }
}

fn terms_size(terms: &Items<Term>) -> u64
    ensures { result ≡ min (sum_by nodes terms.now) (2 ^ 64 - 1) }
{
    let mut total: u64 = 0;
    for term in terms.as_slice() {
        total = total.saturating_add(term_size(term));
    }
    total
}

/// How many levels the assertion has, its terms' included: at most 2^64 - 1, where the count stays.
pub fn assn_levels(assn: &Assn) -> u64
    ensures { result ≡ min (levels_of assn.now) (2 ^ 64 - 1) }
{
    match assn {
        Assn::Emp => 1,
        Assn::Fact(t) => term_levels(t.get()).saturating_add(1),
        Assn::Own(t, u) => over_deeper(term_levels(t.get()), term_levels(u.get())),
        Assn::Shared(t, u) => over_deeper(term_levels(t.get()), term_levels(u.get())),
        Assn::Star(a, b) => over_deeper(assn_levels(a.get()), assn_levels(b.get())),
        Assn::Inst(_, ts) => terms_levels(ts).saturating_add(1),
        Assn::Exists(_, _, a) => assn_levels(a.get()).saturating_add(1),
        Assn::Either(a, b) => over_deeper(assn_levels(a.get()), assn_levels(b.get())),
    }
}

// The most levels of a term in the list, or 0 where there is none.
fn terms_levels(terms: &Items<Term>) -> u64
    ensures { result ≡ min (max_by levels terms.now) (2 ^ 64 - 1) }
{
    let mut most: u64 = 0;
    for term in terms.as_slice() {
        most = most.max(term_levels(term));
    }
    most
}
