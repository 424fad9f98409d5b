// The calls on terms, assertions and plain types, once each, with values worked out by hand. Larger trees are copied and compared
// where they can be read from a text, in the tests of the parser.
use sqlite_items::{Boxed, Items};
use std::alloc::{AllocError, Global};
use std::test::Fail;
use tht_tree::assn::{Assn, assn_levels, assn_size, same_assn};
use tht_tree::body::Cells;
use tht_tree::plain::Name;
use tht_tree::status::Status;
use tht_tree::term::{Term, same_term, term_levels, term_size};

// 98 parentheses around chains of 64 operators, at five levels of precedence: the deepest term of a source.
const DEEPEST_TERM: u64 = 98 * 64 * 5;

// 98 parentheses around chains of 64 stars: the deepest assertion.
const DEEPEST_STAR: u64 = 98 * 64;

fn name(alloc: Global, text: &str) -> Result<Name, AllocError> {
    Ok(Name::new(text.to_string(alloc)?))
}

fn var(alloc: Global, text: &str) -> Result<Term, AllocError> {
    Ok(Term::Var(name(alloc, text)?))
}

fn sum(alloc: Global, left: Term, right: Term) -> Result<Term, AllocError> {
    Ok(Term::Add(Boxed::new(alloc, left)?, Boxed::new(alloc, right)?))
}

fn no_memory<E: Drop>(_: E) -> AllocError {
    AllocError
}

// place -> value
fn cell(alloc: Global, place: Term, value: Term) -> Result<Assn, AllocError> {
    Ok(Assn::Own(Boxed::new(alloc, place)?, Boxed::new(alloc, value)?))
}

fn star(alloc: Global, left: Assn, right: Assn) -> Result<Assn, AllocError> {
    Ok(Assn::Star(Boxed::new(alloc, left)?, Boxed::new(alloc, right)?))
}

fn small(alloc: Global, x: &str) -> Result<Term, AllocError> {
    let inner = sum(alloc, var(alloc, x)?, Term::Num(1))?;
    sum(alloc, inner, Term::Unit)
}

#[test]
fn terms_are_copied_and_measured(rt: HostRuntime) -> Result<(), Fail> {
    let term = small(rt.alloc(), "x")?;
    let copy = term.copy(rt.alloc()).map_err(no_memory)?;
    assert!(rt; same_term(&term, &copy));
    assert_eq!(rt; term_size(&copy), 5);
    assert_eq!(rt; term_levels(&copy), 3);
    Ok(())
}

#[test]
fn terms_are_told_apart(rt: HostRuntime) -> Result<(), Fail> {
    let term = small(rt.alloc(), "x")?;
    let other = small(rt.alloc(), "y")?;
    assert!(rt; !same_term(&term, &other));
    Ok(())
}

// x -> x + 1
fn held(alloc: Global) -> Result<Assn, AllocError> {
    let value = sum(alloc, var(alloc, "x")?, Term::Num(1))?;
    cell(alloc, var(alloc, "x")?, value)
}

// p(1)
fn instance(alloc: Global) -> Result<Assn, AllocError> {
    let mut arguments = Items::new(alloc);
    arguments.push(Term::Num(1))?;
    Ok(Assn::Inst(name(alloc, "p")?, arguments))
}

// (x -> x + 1) * p(1)
fn small_assn(alloc: Global) -> Result<Assn, AllocError> {
    let held = held(alloc)?;
    let instance = instance(alloc)?;
    star(alloc, held, instance)
}

#[test]
fn assertions_are_copied_and_measured(rt: HostRuntime) -> Result<(), Fail> {
    let assn = small_assn(rt.alloc())?;
    let copy = assn.copy(rt.alloc()).map_err(no_memory)?;
    assert!(rt; same_assn(&assn, &copy));
    assert_eq!(rt; assn_size(&copy), 8);
    assert_eq!(rt; assn_levels(&copy), 4);
    Ok(())
}

#[test]
fn assertions_are_told_apart(rt: HostRuntime) -> Result<(), Fail> {
    let assn = small_assn(rt.alloc())?;
    assert!(rt; !same_assn(&assn, &Assn::Emp));
    Ok(())
}

#[test]
fn new_cells_are_a_list(rt: HostRuntime) -> Result<(), Fail> {
    let alloc = rt.alloc();
    let mut cells = Cells::one(alloc, Term::Num(4))?;
    cells.push(Term::Nil)?;
    let copy = cells.copy(alloc)?;
    assert_eq!(rt; copy.as_slice().len(), 2);
    Ok(())
}

#[test]
fn the_deepest_term_fits_the_stack(rt: HostRuntime) -> Result<(), Fail> {
    let alloc = rt.alloc();
    let mut term = Term::Num(0);
    for _ in 0..DEEPEST_TERM {
        term = sum(alloc, term, Term::Num(1))?;
    }
    let copy = term.copy(alloc).map_err(no_memory)?;
    assert!(rt; same_term(&term, &copy));
    assert_eq!(rt; term_size(&copy), 2 * DEEPEST_TERM + 1);
    assert_eq!(rt; term_levels(&copy), DEEPEST_TERM + 1);
    Ok(())
}

#[test]
fn the_deepest_assertion_fits_the_stack(rt: HostRuntime) -> Result<(), Fail> {
    let alloc = rt.alloc();
    let mut assn = Assn::Emp;
    for _ in 0..DEEPEST_STAR {
        assn = star(alloc, assn, Assn::Emp)?;
    }
    let copy = assn.copy(alloc).map_err(no_memory)?;
    assert!(rt; same_assn(&assn, &copy));
    assert_eq!(rt; assn_size(&copy), 2 * DEEPEST_STAR + 1);
    assert_eq!(rt; assn_levels(&copy), DEEPEST_STAR + 1);
    Ok(())
}

#[test]
fn statuses_have_their_numbers(rt: HostRuntime) {
    assert_eq!(rt; Status::Done.number(), 0);
    assert_eq!(rt; Status::NamesOrSorts.number(), 6);
    assert_eq!(rt; Status::Rule.number(), 7);
    assert_eq!(rt; Status::Memory.number(), 10);
}
