// Terms put in for names.
ghost use Rattle.std.specs.Prelude.{◌≡◌, ◌+◌, ◌-◌, ◌^◌, min, max, IfOk};
ghost use Rattle.tht_tree.specs.declared.term.Term.TheVariants.{Var};
ghost use Rattle.tht_tree.specs.Terms.{value};
ghost use Rattle.tht_tree.specs.Syntax.{Names};
ghost use Rattle.tht_tree.specs.Rules.Sizes.{nodes, levels};
ghost use Rattle.tht_tree.specs.Values.{Env};
ghost use Rattle.tht_tree.specs.Normal.Putting.{put_name, put_in as term_with, put_nodes, put_levels, put_within, over};
ghost use Rattle.pure_terms.specs.Answers.{IsPutAnswer, KeepsRoots};
ghost use Rattle.pure_terms.specs.Inside.{puts_of};
ghost use Rattle.pure_terms.specs.Zeros.{zeros_in, put_zeros};

use crate::inside::outside;
use crate::puts::Inside;
use crate::subst::Subst;
use crate::zeros::zeros_of;
use sqlite_items::Boxed;
use std::alloc::Global;
use tht_tree::form::PutEnd;
use tht_tree::plain::{Memory, Name};
use tht_tree::term::Term;

/// The most nodes of a formula.
const FORMULA_NODES: u64 = 65_536;

/// The most levels of a formula.
const FORMULA_LEVELS: u64 = 1_000;

/// The term with these put in for its names, all at once. It is `Large`, and nothing is made, where what it would make
/// passes the limits of a formula.
///
/// What it makes has the value of the term where each name has the value of what stands for it, if the names that are
/// replaced are no roots' names.
#[tactic(auto, using(crate::proofs::PutSizes::no_memory))]
pub fn put_in(alloc: Global, term: &Term, by: &Subst) -> Result<Term, PutEnd>
    ensures answer { IsPutAnswer result (put_within by.now term.now) }
    ensures value { (roots : Names) (env : Env) → KeepsRoots roots by.now → IfOk result (λ t. value roots env t ≡ value roots (over roots env by.now) term.now) }
{
    let terms = outside(&*by);
    if size_inside(term, &terms) > FORMULA_NODES {
        return Err(PutEnd::Large);
    }
    if levels_inside(term, &terms) > FORMULA_LEVELS {
        return Err(PutEnd::Large);
    }
    Ok(term_inside(alloc, term, &terms)?)
}

/// The term with these put in, of any size.
#[cycle(put)]
pub fn term_inside(alloc: Global, term: &Term, by: &Inside<'_>) -> Result<Term, Memory>
    ensures { IfOk result (λ t. t ≡ term_with (puts_of by.now) term.now) }
{
    match term {
        Term::Num(n) => Ok(Term::Num(*n)),
        Term::True => Ok(Term::True),
        Term::False => Ok(Term::False),
        Term::Null => Ok(Term::Null),
        Term::Nil => Ok(Term::Nil),
        Term::Unit => Ok(Term::Unit),
        Term::Var(x) => stand_in(alloc, x, by),
        Term::Len(a) => Ok(Term::Len(put_boxed(alloc, a, by)?)),
        Term::Offset(a, k) => Ok(Term::Offset(put_boxed(alloc, a, by)?, *k)),
        Term::Mul(a, b) => Ok(Term::Mul(put_boxed(alloc, a, by)?, put_boxed(alloc, b, by)?)),
        Term::Add(a, b) => Ok(Term::Add(put_boxed(alloc, a, by)?, put_boxed(alloc, b, by)?)),
        Term::Sub(a, b) => Ok(Term::Sub(put_boxed(alloc, a, by)?, put_boxed(alloc, b, by)?)),
        Term::Cons(a, b) => Ok(Term::Cons(put_boxed(alloc, a, by)?, put_boxed(alloc, b, by)?)),
        Term::Cat(a, b) => Ok(Term::Cat(put_boxed(alloc, a, by)?, put_boxed(alloc, b, by)?)),
        Term::Eq(a, b) => Ok(Term::Eq(put_boxed(alloc, a, by)?, put_boxed(alloc, b, by)?)),
        Term::Lt(a, b) => Ok(Term::Lt(put_boxed(alloc, a, by)?, put_boxed(alloc, b, by)?)),
        Term::Le(a, b) => Ok(Term::Le(put_boxed(alloc, a, by)?, put_boxed(alloc, b, by)?)),
        Term::Not(a) => Ok(Term::Not(put_boxed(alloc, a, by)?)),
        Term::And(a, b) => Ok(Term::And(put_boxed(alloc, a, by)?, put_boxed(alloc, b, by)?)),
        Term::Or(a, b) => Ok(Term::Or(put_boxed(alloc, a, by)?, put_boxed(alloc, b, by)?)),
        Term::Imp(a, b) => Ok(Term::Imp(put_boxed(alloc, a, by)?, put_boxed(alloc, b, by)?)),
    }
}

#[cycle(put)]
fn put_boxed(alloc: Global, term: &Boxed<Term>, by: &Inside<'_>) -> Result<Boxed<Term>, Memory>
    ensures { IfOk result (λ t. t ≡ term_with (puts_of by.now) term.now) }
{
    let made = term_inside(alloc, term.get(), by)?;
    Ok(Boxed::new(alloc, made)?)
}

// What stands for a name: the term that is put in for it, or the name itself.
fn stand_in(alloc: Global, name: &Name, by: &Inside<'_>) -> Result<Term, Memory>
    ensures { IfOk result (λ t. t ≡ put_name (puts_of by.now) name.now) }
{
    match by {
        Inside::Terms(terms) => term_for(alloc, name, terms),
        Inside::Renamed(bound, new, outer) => {
            if bound.as_str() == name.as_str() {
                return Ok(Term::Var(new.copy()?));
            }
            stand_in(alloc, name, outer)
        }
    }
}

fn term_for(alloc: Global, name: &Name, by: &Subst) -> Result<Term, Memory>
    ensures { IfOk result (λ t. t ≡ put_name by.now name.now) }
{
    match by.find(name) {
        Some(entry) => entry.term.copy(alloc),
        None => Ok(Term::Var(name.copy()?)),
    }
}

// ---- the size of what it would make: at most 2^64 - 1, where the counts stay

/// How many nodes the term with these put in has.
pub fn size_inside(term: &Term, by: &Inside<'_>) -> u64
    ensures { result ≡ min (put_nodes (puts_of by.now) term.now) (2 ^ 64 - 1) }
{
    match term {
        Term::Num(_) => 1,
        Term::True => 1,
        Term::False => 1,
        Term::Null => 1,
        Term::Nil => 1,
        Term::Unit => 1,
        Term::Var(x) => name_size(x, by),
        Term::Len(a) => size_inside(a.get(), by).saturating_add(1),
        Term::Offset(a, _) => size_inside(a.get(), by).saturating_add(1),
        Term::Mul(a, b) => over_two(size_inside(a.get(), by), size_inside(b.get(), by)),
        Term::Add(a, b) => over_two(size_inside(a.get(), by), size_inside(b.get(), by)),
        Term::Sub(a, b) => over_two(size_inside(a.get(), by), size_inside(b.get(), by)),
        Term::Cons(a, b) => over_two(size_inside(a.get(), by), size_inside(b.get(), by)),
        Term::Cat(a, b) => over_two(size_inside(a.get(), by), size_inside(b.get(), by)),
        Term::Eq(a, b) => over_two(size_inside(a.get(), by), size_inside(b.get(), by)),
        Term::Lt(a, b) => over_two(size_inside(a.get(), by), size_inside(b.get(), by)),
        Term::Le(a, b) => over_two(size_inside(a.get(), by), size_inside(b.get(), by)),
        Term::Not(a) => size_inside(a.get(), by).saturating_add(1),
        Term::And(a, b) => over_two(size_inside(a.get(), by), size_inside(b.get(), by)),
        Term::Or(a, b) => over_two(size_inside(a.get(), by), size_inside(b.get(), by)),
        Term::Imp(a, b) => over_two(size_inside(a.get(), by), size_inside(b.get(), by)),
    }
}

fn name_size(name: &Name, by: &Inside<'_>) -> u64
    ensures { result ≡ min (nodes (put_name (puts_of by.now) name.now)) (2 ^ 64 - 1) }
{
    match by {
        Inside::Terms(terms) => terms.nodes(name),
        Inside::Renamed(bound, new, outer) => {
            if bound.as_str() == name.as_str() {
                return nodes_of(new);
            }
            name_size(name, outer)
        }
    }
}

// A variable is one node.
fn nodes_of(variable: &Name) -> u64
    ensures { result ≡ min (nodes (Var variable.now)) (2 ^ 64 - 1) }
{
    1
}

// One more than two counts together.
fn over_two(a: u64, b: u64) -> u64
    ensures { result ≡ min (a + b + 1) (2 ^ 64 - 1) }
{
    a.saturating_add(b).saturating_add(1)
}

/// How many levels the term with these put in has.
pub fn levels_inside(term: &Term, by: &Inside<'_>) -> u64
    ensures { result ≡ min (put_levels (puts_of by.now) term.now) (2 ^ 64 - 1) }
{
    match term {
        Term::Num(_) => 1,
        Term::True => 1,
        Term::False => 1,
        Term::Null => 1,
        Term::Nil => 1,
        Term::Unit => 1,
        Term::Var(x) => name_depth(x, by),
        Term::Len(a) => levels_inside(a.get(), by).saturating_add(1),
        Term::Offset(a, _) => levels_inside(a.get(), by).saturating_add(1),
        Term::Mul(a, b) => over_deeper(levels_inside(a.get(), by), levels_inside(b.get(), by)),
        Term::Add(a, b) => over_deeper(levels_inside(a.get(), by), levels_inside(b.get(), by)),
        Term::Sub(a, b) => over_deeper(levels_inside(a.get(), by), levels_inside(b.get(), by)),
        Term::Cons(a, b) => over_deeper(levels_inside(a.get(), by), levels_inside(b.get(), by)),
        Term::Cat(a, b) => over_deeper(levels_inside(a.get(), by), levels_inside(b.get(), by)),
        Term::Eq(a, b) => over_deeper(levels_inside(a.get(), by), levels_inside(b.get(), by)),
        Term::Lt(a, b) => over_deeper(levels_inside(a.get(), by), levels_inside(b.get(), by)),
        Term::Le(a, b) => over_deeper(levels_inside(a.get(), by), levels_inside(b.get(), by)),
        Term::Not(a) => levels_inside(a.get(), by).saturating_add(1),
        Term::And(a, b) => over_deeper(levels_inside(a.get(), by), levels_inside(b.get(), by)),
        Term::Or(a, b) => over_deeper(levels_inside(a.get(), by), levels_inside(b.get(), by)),
        Term::Imp(a, b) => over_deeper(levels_inside(a.get(), by), levels_inside(b.get(), by)),
    }
}

fn name_depth(name: &Name, by: &Inside<'_>) -> u64
    ensures { result ≡ min (levels (put_name (puts_of by.now) name.now)) (2 ^ 64 - 1) }
{
    match by {
        Inside::Terms(terms) => terms.levels(name),
        Inside::Renamed(bound, new, outer) => {
            if bound.as_str() == name.as_str() {
                return levels_of(new);
            }
            name_depth(name, outer)
        }
    }
}

// A variable is one level.
fn levels_of(variable: &Name) -> u64
    ensures { result ≡ min (levels (Var variable.now)) (2 ^ 64 - 1) }
{
    1
}

// One more than the greater of two counts.
fn over_deeper(a: u64, b: u64) -> u64
    ensures { result ≡ min (max a b + 1) (2 ^ 64 - 1) }
{
    a.max(b).saturating_add(1)
}

// ---- the names of zeros in what it would make

/// How long the longest name of zeros in the term with these put in is, or 0 where there is none.
pub fn zeros_inside(term: &Term, by: &Inside<'_>) -> usize
    ensures { result ≡ put_zeros (puts_of by.now) term.now }
{
    match term {
        Term::Num(_) => 0,
        Term::True => 0,
        Term::False => 0,
        Term::Null => 0,
        Term::Nil => 0,
        Term::Unit => 0,
        Term::Var(x) => name_zeros(x, by),
        Term::Len(a) => zeros_inside(a.get(), by),
        Term::Offset(a, _) => zeros_inside(a.get(), by),
        Term::Mul(a, b) => zeros_inside(a.get(), by).max(zeros_inside(b.get(), by)),
        Term::Add(a, b) => zeros_inside(a.get(), by).max(zeros_inside(b.get(), by)),
        Term::Sub(a, b) => zeros_inside(a.get(), by).max(zeros_inside(b.get(), by)),
        Term::Cons(a, b) => zeros_inside(a.get(), by).max(zeros_inside(b.get(), by)),
        Term::Cat(a, b) => zeros_inside(a.get(), by).max(zeros_inside(b.get(), by)),
        Term::Eq(a, b) => zeros_inside(a.get(), by).max(zeros_inside(b.get(), by)),
        Term::Lt(a, b) => zeros_inside(a.get(), by).max(zeros_inside(b.get(), by)),
        Term::Le(a, b) => zeros_inside(a.get(), by).max(zeros_inside(b.get(), by)),
        Term::Not(a) => zeros_inside(a.get(), by),
        Term::And(a, b) => zeros_inside(a.get(), by).max(zeros_inside(b.get(), by)),
        Term::Or(a, b) => zeros_inside(a.get(), by).max(zeros_inside(b.get(), by)),
        Term::Imp(a, b) => zeros_inside(a.get(), by).max(zeros_inside(b.get(), by)),
    }
}

fn name_zeros(name: &Name, by: &Inside<'_>) -> usize
    ensures { result ≡ zeros_in (put_name (puts_of by.now) name.now) }
{
    match by {
        Inside::Terms(terms) => terms.zeros(name),
        Inside::Renamed(bound, new, outer) => {
            if bound.as_str() == name.as_str() {
                return zeros_of(new);
            }
            name_zeros(name, outer)
        }
    }
}
