// Terms put in for names, and the order of terms.
use super::{difference, length, lengths, name, no_memory, var};
use pure_terms::{Subst, compare_terms, put_in};
use sqlite_items::Boxed;
use std::alloc::{AllocError, Global};
use std::cmp::Ordering;
use std::test::Fail;
use tht_tree::form::PutEnd;
use tht_tree::term::{Term, same_term};

// 98 parentheses around chains of 64 operators, at five levels of precedence: the deepest term of a source.
const DEEPEST_TERM: u64 = 98 * 64 * 5;

fn one(alloc: Global, from: &str, to: Result<Term, AllocError>) -> Result<Subst, AllocError> {
    let mut by = Subst::new(alloc);
    by.add(name(alloc, from)?, to?).map_err(no_memory)?;
    Ok(by)
}

fn two(alloc: Global, from: [&str; 2], to: [&str; 2]) -> Result<Subst, AllocError> {
    let mut by = one(alloc, from[0], var(alloc, to[0]))?;
    by.add(name(alloc, from[1])?, var(alloc, to[1])?)
        .map_err(no_memory)?;
    Ok(by)
}

fn makes(
    alloc: Global,
    by: &Subst,
    term: Result<Term, AllocError>,
    want: Result<Term, AllocError>,
) -> Result<bool, AllocError> {
    let made = put_in(alloc, &term?, by).map_err(no_memory)?;
    Ok(same_term(&made, &want?))
}

// Why nothing is made, if nothing is.
fn end(
    alloc: Global,
    by: &Subst,
    term: Result<Term, AllocError>,
) -> Result<Option<PutEnd>, AllocError> {
    Ok(put_in(alloc, &term?, by).err())
}

#[test]
fn names_are_replaced_at_once(rt: HostRuntime) -> Result<(), Fail> {
    let alloc = rt.alloc();
    let by = two(alloc, ["x", "y"], ["y", "x"])?;
    let term = difference(alloc, var(alloc, "x"), length(alloc, var(alloc, "y")));
    let want = difference(alloc, var(alloc, "y"), length(alloc, var(alloc, "x")));
    assert!(rt; makes(alloc, &by, term, want)?);
    Ok(())
}

#[test]
fn the_first_of_a_name_counts_and_others_stay(rt: HostRuntime) -> Result<(), Fail> {
    let alloc = rt.alloc();
    let by = two(alloc, ["x", "x"], ["y", "z"])?;
    let term = difference(alloc, var(alloc, "x"), var(alloc, "xy"));
    let want = difference(alloc, var(alloc, "y"), var(alloc, "xy"));
    assert!(rt; makes(alloc, &by, term, want)?);
    Ok(())
}

// Differences in as many levels more, each of one term with itself.
fn doubled(alloc: Global, levels: u8) -> Result<Term, AllocError> {
    let mut term = Term::Num(1);
    for _ in 0..levels {
        let left = term.copy(alloc).map_err(no_memory);
        term = difference(alloc, left, Ok(term))?;
    }
    Ok(term)
}

fn twice(alloc: Global, x: &str) -> Result<Term, AllocError> {
    difference(alloc, var(alloc, x), var(alloc, x))
}

// What is put in for `x` has 2^15 - 1 nodes, so `len (x - x)` makes 65,536.
#[test]
fn at_most_65536_nodes_are_made(rt: HostRuntime) -> Result<(), Fail> {
    let alloc = rt.alloc();
    let by = one(alloc, "x", doubled(alloc, 14))?;
    assert_eq!(rt;
        end(alloc, &by, lengths(alloc, twice(alloc, "x"), 1))?,
        None
    );
    assert_eq!(rt;
        end(alloc, &by, lengths(alloc, twice(alloc, "x"), 2))?,
        Some(PutEnd::Large)
    );
    Ok(())
}

// What is put in for `x` has 600 levels, so 400 more make 1,000.
#[test]
fn at_most_1000_levels_are_made(rt: HostRuntime) -> Result<(), Fail> {
    let alloc = rt.alloc();
    let by = one(alloc, "x", lengths(alloc, Ok(Term::Nil), 599))?;
    assert_eq!(rt;
        end(alloc, &by, lengths(alloc, var(alloc, "x"), 400))?,
        None
    );
    assert_eq!(rt;
        end(alloc, &by, lengths(alloc, var(alloc, "x"), 401))?,
        Some(PutEnd::Large)
    );
    Ok(())
}

// ---- the order of terms

// Whether the first one stands before the second one, and each with itself.
fn ascend(
    lower: Result<Term, AllocError>,
    upper: Result<Term, AllocError>,
) -> Result<bool, AllocError> {
    let lower = lower?;
    let upper = upper?;
    Ok(
        compare_terms(&lower, &upper) == Ordering::Less
            && compare_terms(&upper, &lower) == Ordering::Greater
            && compare_terms(&upper, &upper) == Ordering::Equal,
    )
}

fn offset(alloc: Global, x: &str, number: u8) -> Result<Term, AllocError> {
    let place = Boxed::new(alloc, var(alloc, x)?)?;
    Ok(Term::Offset(place, number))
}

#[test]
fn levels_stand_by_form_number_and_name(rt: HostRuntime) -> Result<(), Fail> {
    let alloc = rt.alloc();
    assert!(rt; ascend(Ok(Term::Num(2)), Ok(Term::Num(10)))?);
    assert!(rt; ascend(Ok(Term::Num(10)), var(alloc, "a"))?);
    assert!(rt; ascend(var(alloc, "a"), var(alloc, "ab"))?);
    assert!(rt; ascend(var(alloc, "ab"), var(alloc, "b"))?);
    assert!(rt; ascend(var(alloc, "b"), length(alloc, var(alloc, "a")))?);
    assert!(rt; ascend(length(alloc, Ok(Term::Nil)), twice(alloc, "a"))?);
    assert!(rt; ascend(offset(alloc, "b", 1), offset(alloc, "a", 2))?);
    Ok(())
}

#[test]
fn parts_stand_from_left_to_right(rt: HostRuntime) -> Result<(), Fail> {
    let alloc = rt.alloc();
    let first = difference(alloc, var(alloc, "a"), var(alloc, "b"));
    let second = difference(alloc, var(alloc, "a"), var(alloc, "c"));
    assert!(rt; ascend(first, second)?);
    let second = difference(alloc, var(alloc, "a"), var(alloc, "c"));
    assert!(rt; ascend(second, twice(alloc, "b"))?);
    Ok(())
}

#[test]
fn the_deepest_term_fits_the_stack(rt: HostRuntime) -> Result<(), Fail> {
    let alloc = rt.alloc();
    let mut term = var(alloc, "x")?;
    for _ in 0..DEEPEST_TERM {
        term = difference(alloc, Ok(term), Ok(Term::Num(1)))?;
    }
    let copy = term.copy(alloc).map_err(no_memory)?;
    assert_eq!(rt; compare_terms(&term, &copy), Ordering::Equal);
    assert_eq!(rt;
        end(alloc, &Subst::new(alloc), Ok(copy))?,
        Some(PutEnd::Large)
    );
    Ok(())
}
