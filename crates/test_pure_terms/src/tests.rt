// The calls of this crate, once each with ample memory. What each answer must be is worked out by hand from the rules.
mod linear;
mod normals;
mod putting;

use sqlite_items::Boxed;
use std::alloc::{AllocError, Global};
use tht_tree::plain::Name;
use tht_tree::term::Term;

fn name(alloc: Global, text: &str) -> Result<Name, AllocError> {
    Ok(Name::new(text.to_string(alloc)?))
}

fn var(alloc: Global, text: &str) -> Result<Term, AllocError> {
    Ok(Term::Var(name(alloc, text)?))
}

fn length(alloc: Global, part: Result<Term, AllocError>) -> Result<Term, AllocError> {
    Ok(Term::Len(Boxed::new(alloc, part?)?))
}

// The term as the part of so many more levels.
fn lengths(alloc: Global, part: Result<Term, AllocError>, levels: u64) -> Result<Term, AllocError> {
    let mut term = part;
    for _ in 0..levels {
        term = length(alloc, term);
    }
    term
}

fn difference(
    alloc: Global,
    left: Result<Term, AllocError>,
    right: Result<Term, AllocError>,
) -> Result<Term, AllocError> {
    let left = Boxed::new(alloc, left?)?;
    Ok(Term::Sub(left, Boxed::new(alloc, right?)?))
}

fn no_memory<E: Drop>(_: E) -> AllocError {
    AllocError
}
