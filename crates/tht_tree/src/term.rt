// Terms.
ghost use Rattle.std.specs.Prelude.{◌≡◌, ◌↔◌, ◌+◌, ◌-◌, ◌^◌, min, max, IfOk, IsTrue};
ghost use Rattle.tht_tree.specs.Rules.Sizes.{nodes, levels};
ghost use Rattle.tht_tree.specs.SameTree.{same_of};

use crate::plain::{Memory, Name};
use sqlite_items::{Boxed, Items};
use std::alloc::{AllocError, Global};

/// A term. Chains of `+ - * and or` and of offsets lean to the left.
#[derive(Drop)]
pub enum Term {
    Num(u128),
    True,
    False,
    Null,
    /// `nil`, the empty sequence.
    Nil,
    /// `()`
    Unit,
    Var(Name),
    /// `len t`
    Len(Boxed<Term>),
    /// `t.k`, with k from 0 to 7.
    Offset(Boxed<Term>, u8),
    Mul(Boxed<Term>, Boxed<Term>),
    Add(Boxed<Term>, Boxed<Term>),
    /// `t - u`, which stops at 0.
    Sub(Boxed<Term>, Boxed<Term>),
    /// `t :: u`
    Cons(Boxed<Term>, Boxed<Term>),
    /// `t ++ u`
    Cat(Boxed<Term>, Boxed<Term>),
    Eq(Boxed<Term>, Boxed<Term>),
    Lt(Boxed<Term>, Boxed<Term>),
    Le(Boxed<Term>, Boxed<Term>),
    Not(Boxed<Term>),
    And(Boxed<Term>, Boxed<Term>),
    Or(Boxed<Term>, Boxed<Term>),
    Imp(Boxed<Term>, Boxed<Term>),
}

impl Term {
    /// An equal term.
    pub fn copy(&self, alloc: Global) -> Result<Term, Memory>
        ensures { IfOk result (λ t. t ≡ self.now) }
    {
        copy_term(alloc, self).map_err(|_| Memory)
    }
}

#[cycle(copy)]
pub(crate) fn copy_term(alloc: Global, term: &Term) -> Result<Term, AllocError>
    ensures { IfOk result (λ t. t ≡ term.now) }
{
    match term {
        Term::Num(n) => Ok(Term::Num(*n)),
        Term::True => Ok(Term::True),
        Term::False => Ok(Term::False),
        Term::Null => Ok(Term::Null),
        Term::Nil => Ok(Term::Nil),
        Term::Unit => Ok(Term::Unit),
        Term::Var(x) => Ok(Term::Var(x.copy()?)),
        Term::Len(a) => Ok(Term::Len(copy(alloc, a)?)),
        Term::Offset(a, k) => Ok(Term::Offset(copy(alloc, a)?, *k)),
        Term::Mul(a, b) => Ok(Term::Mul(copy(alloc, a)?, copy(alloc, b)?)),
        Term::Add(a, b) => Ok(Term::Add(copy(alloc, a)?, copy(alloc, b)?)),
        Term::Sub(a, b) => Ok(Term::Sub(copy(alloc, a)?, copy(alloc, b)?)),
        Term::Cons(a, b) => Ok(Term::Cons(copy(alloc, a)?, copy(alloc, b)?)),
        Term::Cat(a, b) => Ok(Term::Cat(copy(alloc, a)?, copy(alloc, b)?)),
        Term::Eq(a, b) => Ok(Term::Eq(copy(alloc, a)?, copy(alloc, b)?)),
        Term::Lt(a, b) => Ok(Term::Lt(copy(alloc, a)?, copy(alloc, b)?)),
        Term::Le(a, b) => Ok(Term::Le(copy(alloc, a)?, copy(alloc, b)?)),
        Term::Not(a) => Ok(Term::Not(copy(alloc, a)?)),
        Term::And(a, b) => Ok(Term::And(copy(alloc, a)?, copy(alloc, b)?)),
        Term::Or(a, b) => Ok(Term::Or(copy(alloc, a)?, copy(alloc, b)?)),
        Term::Imp(a, b) => Ok(Term::Imp(copy(alloc, a)?, copy(alloc, b)?)),
    }
}

/// An equal term.
#[cycle(copy)]
pub fn copy(alloc: Global, term: &Boxed<Term>) -> Result<Boxed<Term>, AllocError>
    ensures { IfOk result (λ t. t ≡ term.now) }
{
    let inner = copy_term(alloc, term.get())?;
    Boxed::new(alloc, inner)
}

/// Equal terms.
pub fn copy_terms(alloc: Global, terms: &Items<Term>) -> Result<Items<Term>, AllocError>
    ensures { IfOk result (λ ts. ts ≡ terms.now) }
{
    let mut copies = Items::new(alloc);
    for term in terms.as_slice() {
        copies.push(copy_term(alloc, term)?)?;
    }
    Ok(copies)
}

/// Whether the two are the same tree.
#[cycle(same)]
pub fn same_term(term: &Term, other: &Term) -> bool
    ensures decides { IsTrue result ↔ (term.now ≡ other.now) }
    ensures test { result ≡ same_of term.now other.now }
{
    match (term, other) {
        (Term::Num(m), Term::Num(n)) => m == n,
        (Term::True, Term::True) => true,
        (Term::False, Term::False) => true,
        (Term::Null, Term::Null) => true,
        (Term::Nil, Term::Nil) => true,
        (Term::Unit, Term::Unit) => true,
        (Term::Var(x), Term::Var(y)) => x.as_str() == y.as_str(),
        (Term::Len(a), Term::Len(b)) => same(a, b),
        (Term::Offset(a, k), Term::Offset(b, l)) => k == l && same(a, b),
        (Term::Mul(a, b), Term::Mul(c, d)) => same(a, c) && same(b, d),
        (Term::Add(a, b), Term::Add(c, d)) => same(a, c) && same(b, d),
        (Term::Sub(a, b), Term::Sub(c, d)) => same(a, c) && same(b, d),
        (Term::Cons(a, b), Term::Cons(c, d)) => same(a, c) && same(b, d),
        (Term::Cat(a, b), Term::Cat(c, d)) => same(a, c) && same(b, d),
        (Term::Eq(a, b), Term::Eq(c, d)) => same(a, c) && same(b, d),
        (Term::Lt(a, b), Term::Lt(c, d)) => same(a, c) && same(b, d),
        (Term::Le(a, b), Term::Le(c, d)) => same(a, c) && same(b, d),
        (Term::Not(a), Term::Not(b)) => same(a, b),
        (Term::And(a, b), Term::And(c, d)) => same(a, c) && same(b, d),
        (Term::Or(a, b), Term::Or(c, d)) => same(a, c) && same(b, d),
        (Term::Imp(a, b), Term::Imp(c, d)) => same(a, c) && same(b, d),
        _ => false,
    }
}

/// Whether the two are the same tree.
#[cycle(same)]
pub fn same(term: &Boxed<Term>, other: &Boxed<Term>) -> bool
    ensures decides { IsTrue result ↔ (term.now ≡ other.now) }
    ensures test { result ≡ same_of term.now other.now }
{
    same_term(term.get(), other.get())
}

/// Whether the two lists are the same trees.
pub fn same_terms(terms: &Items<Term>, others: &Items<Term>) -> bool
    ensures { IsTrue result ↔ (terms.now ≡ others.now) }
{
    if terms.len() != others.len() {
        return false;
    }
    for (term, other) in terms.as_slice().iter().zip(others.as_slice().iter()) {
        if !same_term(term, other) {
            return false;
        }
    }
    true
}

/// How many nodes the term has, its parts included: at most 2^64 - 1, where the count stays.
pub fn term_size(term: &Term) -> u64
    ensures { result ≡ min (nodes term.now) (2 ^ 64 - 1) }
{
    match term {
        Term::Num(_) => 1,
        Term::True => 1,
        Term::False => 1,
        Term::Null => 1,
        Term::Nil => 1,
        Term::Unit => 1,
        Term::Var(_) => 1,
        Term::Len(a) => term_size(a.get()).saturating_add(1),
        Term::Offset(a, _) => term_size(a.get()).saturating_add(1),
        Term::Mul(a, b) => over_two(term_size(a.get()), term_size(b.get())),
        Term::Add(a, b) => over_two(term_size(a.get()), term_size(b.get())),
        Term::Sub(a, b) => over_two(term_size(a.get()), term_size(b.get())),
        Term::Cons(a, b) => over_two(term_size(a.get()), term_size(b.get())),
        Term::Cat(a, b) => over_two(term_size(a.get()), term_size(b.get())),
        Term::Eq(a, b) => over_two(term_size(a.get()), term_size(b.get())),
        Term::Lt(a, b) => over_two(term_size(a.get()), term_size(b.get())),
        Term::Le(a, b) => over_two(term_size(a.get()), term_size(b.get())),
        Term::Not(a) => term_size(a.get()).saturating_add(1),
        Term::And(a, b) => over_two(term_size(a.get()), term_size(b.get())),
        Term::Or(a, b) => over_two(term_size(a.get()), term_size(b.get())),
        Term::Imp(a, b) => over_two(term_size(a.get()), term_size(b.get())),
    }
}

// One more than two counts together.
pub(crate) fn over_two(a: u64, b: u64) -> u64
    ensures { result ≡ min (a + b + 1) (2 ^ 64 - 1) }
{
    a.saturating_add(b).saturating_add(1)
}

/// How many levels the term has, where one with no parts has one: at most 2^64 - 1, where the count stays.
pub fn term_levels(term: &Term) -> u64
    ensures { result ≡ min (levels term.now) (2 ^ 64 - 1) }
{
    match term {
        Term::Num(_) => 1,
        Term::True => 1,
        Term::False => 1,
        Term::Null => 1,
        Term::Nil => 1,
        Term::Unit => 1,
        Term::Var(_) => 1,
        Term::Len(a) => term_levels(a.get()).saturating_add(1),
        Term::Offset(a, _) => term_levels(a.get()).saturating_add(1),
        Term::Mul(a, b) => over_deeper(term_levels(a.get()), term_levels(b.get())),
        Term::Add(a, b) => over_deeper(term_levels(a.get()), term_levels(b.get())),
        Term::Sub(a, b) => over_deeper(term_levels(a.get()), term_levels(b.get())),
        Term::Cons(a, b) => over_deeper(term_levels(a.get()), term_levels(b.get())),
        Term::Cat(a, b) => over_deeper(term_levels(a.get()), term_levels(b.get())),
        Term::Eq(a, b) => over_deeper(term_levels(a.get()), term_levels(b.get())),
        Term::Lt(a, b) => over_deeper(term_levels(a.get()), term_levels(b.get())),
        Term::Le(a, b) => over_deeper(term_levels(a.get()), term_levels(b.get())),
        Term::Not(a) => term_levels(a.get()).saturating_add(1),
        Term::And(a, b) => over_deeper(term_levels(a.get()), term_levels(b.get())),
        Term::Or(a, b) => over_deeper(term_levels(a.get()), term_levels(b.get())),
        Term::Imp(a, b) => over_deeper(term_levels(a.get()), term_levels(b.get())),
    }
}

// One more than the greater of two counts.
pub(crate) fn over_deeper(a: u64, b: u64) -> u64
    ensures { result ≡ min (max a b + 1) (2 ^ 64 - 1) }
{
    a.max(b).saturating_add(1)
}
