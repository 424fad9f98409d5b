// Inequalities, their columns and rows, and sorts, worked out by hand.
use pure_terms::{Scope, coefficient, columns, reading, row, sort_in};
use sqlite_items::{Boxed, Items};
use std::alloc::{AllocError, Global};
use std::collections::BTreeMap;
use std::test::Fail;
use tht_tree::form::{Comparison, Inequality, LinearTerm, NormalEnd, Product};
use tht_tree::plain::{Memory, Name, Sort};
use tht_tree::state::Local;
use tht_tree::term::Term;

const LEAST: i128 = -170141183460469231731687303715884105728;

const GREATEST: i128 = 170141183460469231731687303715884105727;
/// 2^127
const HALF: u128 = 170141183460469231731687303715884105728;

const MOST: u128 = 340282366920938463463374607431768211455;

/// Two numbers, whether the left one is to be below the right one, and the constant that is to be at most 0.
const CONSTANTS: &[(u128, u128, bool, Result<i128, NormalEnd>)] = &[
    (0, 0, false, Ok(0)),
    (0, 0, true, Ok(1)),
    (3, 5, false, Ok(-2)),
    (3, 5, true, Ok(-1)),
    (HALF - 1, 0, false, Ok(GREATEST)),
    (HALF - 1, 0, true, Err(NormalEnd::Wide)),
    (HALF, 0, false, Err(NormalEnd::Wide)),
    (0, HALF, false, Ok(LEAST)),
    (0, HALF + 1, false, Err(NormalEnd::Wide)),
    (0, HALF + 1, true, Ok(LEAST)),
    (MOST, MOST, false, Ok(0)),
    (MOST, MOST, true, Ok(1)),
    (MOST, 0, true, Err(NormalEnd::Wide)),
    (0, MOST, true, Err(NormalEnd::Wide)),
];

// The constant of a comparison's inequality.
fn constant_read(alloc: Global, scope: &Scope, comparison: &Comparison) -> Result<i128, NormalEnd> {
    let form = reading(alloc, scope, comparison)?;
    Ok(coefficient(&[], form.as_slice()))
}

fn constant(alloc: Global, left: u128, right: u128, strict: bool) -> Result<i128, NormalEnd> {
    let scope = BTreeMap::new(alloc);
    let comparison = Comparison {
        left: Term::Num(left),
        right: Term::Num(right),
        strict,
    };
    constant_read(alloc, &scope, &comparison)
}

#[test]
fn numbers_are_taken_together(rt: HostRuntime) {
    for (left, right, strict, want) in CONSTANTS {
        let read = constant(rt.alloc(), *left, *right, *strict);
        assert_eq!(rt; read, *want, "{left} and {right}");
    }
}

// ---- products of variables

fn variable(alloc: Global, name: &str) -> Result<Term, AllocError> {
    let text = String::from_str(alloc, name)?;
    Ok(Term::Var(Name::new(text)))
}

fn product(alloc: Global, names: &[&str]) -> Result<Product, AllocError> {
    let mut atoms = Items::new(alloc);
    for name in names {
        atoms.push(variable(alloc, name)?)?;
    }
    Ok(atoms)
}

fn is_variable(term: &Term, name: &str) -> bool {
    match term {
        Term::Var(x) => x.as_str() == name,
        _ => false,
    }
}

fn is_product(atoms: &[Term], names: &[&str]) -> bool {
    for (atom, name) in atoms.iter().zip(names) {
        if !is_variable(atom, name) {
            return false;
        }
    }
    atoms.len() == names.len()
}

type Row = &'static [(i128, &'static [&'static str])];

fn form(alloc: Global, terms: Row) -> Result<Inequality, AllocError> {
    let mut form = Items::new(alloc);
    for (coefficient, names) in terms {
        let atoms = product(alloc, names)?;
        form.push(LinearTerm {
            coefficient: *coefficient,
            atoms,
        })?;
    }
    Ok(form)
}

fn is_form(form: &[LinearTerm], terms: Row) -> bool {
    for (term, (coefficient, names)) in form.iter().zip(terms) {
        if term.coefficient != *coefficient {
            return false;
        }
        if !is_product(term.atoms.as_slice(), names) {
            return false;
        }
    }
    form.len() == terms.len()
}

// ---- a reading with variables

fn numbers(alloc: Global, names: &[&str]) -> Result<Scope, AllocError> {
    let mut scope = BTreeMap::new(alloc);
    for name in names {
        let text = String::from_str(alloc, name)?;
        scope.insert(text, Local::Variable(Sort::Nat))?;
    }
    Ok(scope)
}

fn sum(
    alloc: Global,
    a: Result<Term, AllocError>,
    b: Result<Term, AllocError>,
) -> Result<Term, AllocError> {
    let a = Boxed::new(alloc, a?)?;
    Ok(Term::Add(a, Boxed::new(alloc, b?)?))
}

fn below(
    left: Result<Term, AllocError>,
    right: Result<Term, AllocError>,
) -> Result<Comparison, AllocError> {
    let left = left?;
    Ok(Comparison {
        left,
        right: right?,
        strict: true,
    })
}

// x + (3 + x) < y + x
fn comparison(alloc: Global) -> Result<Comparison, AllocError> {
    let more = sum(alloc, Ok(Term::Num(3)), variable(alloc, "x"));
    let left = sum(alloc, variable(alloc, "x"), more);
    let right = sum(alloc, variable(alloc, "y"), variable(alloc, "x"));
    below(left, right)
}

fn reads_as(
    alloc: Global,
    scope: &Scope,
    comparison: &Comparison,
    want: Row,
) -> Result<bool, NormalEnd> {
    let form = reading(alloc, scope, comparison)?;
    Ok(is_form(form.as_slice(), want))
}

fn comparison_reads_as(alloc: Global, scope: &Scope, want: Row) -> Result<bool, Fail> {
    let comparison = comparison(alloc)?;
    Ok(reads_as(alloc, scope, &comparison, want)?)
}

#[test]
fn like_products_are_joined(rt: HostRuntime) -> Result<(), Fail> {
    let scope = numbers(rt.alloc(), &["x", "y"])?;
    // 4 + x - y
    let want: Row = &[(4, &[]), (1, &["x"]), (-1, &["y"])];
    assert!(rt; comparison_reads_as(rt.alloc(), &scope, want)?);
    Ok(())
}

// ---- columns and rows

// 4 - x, 2 x + y, and 7 x y - 5
const ROWS: &[Row] = &[
    &[(4, &[]), (-1, &["x"])],
    &[(2, &["x"]), (1, &["y"])],
    &[(-5, &[]), (7, &["x", "y"])],
];

fn forms(alloc: Global) -> Result<Items<Inequality>, AllocError> {
    let mut forms = Items::new(alloc);
    for terms in ROWS {
        forms.push(form(alloc, terms)?)?;
    }
    Ok(forms)
}

#[test]
fn each_variable_is_one_column(rt: HostRuntime) -> Result<(), Fail> {
    let forms = forms(rt.alloc())?;
    let columns = columns(rt.alloc(), forms.as_slice())?;
    let want: &[&[&str]] = &[&["x"], &["x", "y"], &["y"]];
    assert_eq!(rt; columns.len(), want.len());
    for (column, names) in columns.as_slice().iter().zip(want) {
        assert!(rt; is_product(column.as_slice(), names));
    }
    Ok(())
}

/// An inequality, products in some order, and their coefficients in it.
const READ: &[(Row, &[&[&str]], &[i128])] = &[
    (
        &[(4, &[]), (-1, &["x"])],
        &[&["x"], &["x", "y"], &["y"]],
        &[-1, 0, 0],
    ),
    (
        &[(-5, &[]), (7, &["x", "y"])],
        &[&["x"], &["x", "y"], &["y"]],
        &[0, 7, 0],
    ),
    // neither has to ascend
    (&[(2, &["x"]), (1, &["y"])], &[&["y"], &["x"]], &[1, 2]),
    (&[(2, &["y"]), (1, &["x"])], &[&["x"], &["y"]], &[1, 2]),
];

fn products(alloc: Global, list: &[&[&str]]) -> Result<Items<Product>, AllocError> {
    let mut products = Items::new(alloc);
    for names in list {
        products.push(product(alloc, names)?)?;
    }
    Ok(products)
}

fn read(alloc: Global, terms: Row, list: &[&[&str]]) -> Result<Vec<i128>, Memory> {
    let form = form(alloc, terms)?;
    let products = products(alloc, list)?;
    row(alloc, products.as_slice(), form.as_slice())
}

#[test]
fn rows_are_read(rt: HostRuntime) -> Result<(), Fail> {
    for (terms, list, want) in READ {
        let row = read(rt.alloc(), terms, list)?;
        assert_eq!(rt; row.as_slice(), *want);
    }
    Ok(())
}

// ---- sorts

// The sort of a name, of `name + 1` and of `len(name)`, where x is a number in scope and x and r are roots.
fn sorts(alloc: Global, name: &str) -> Result<[Option<Sort>; 3], AllocError> {
    let scope = numbers(alloc, &["x"])?;
    let mut roots = Items::new(alloc);
    roots.push(Name::new(String::from_str(alloc, "x")?))?;
    roots.push(Name::new(String::from_str(alloc, "r")?))?;
    let plain = sort_in(&variable(alloc, name)?, roots.as_slice(), &scope);
    let more = sum(alloc, variable(alloc, name), Ok(Term::Num(1)))?;
    let more = sort_in(&more, roots.as_slice(), &scope);
    let length = Term::Len(Boxed::new(alloc, variable(alloc, name)?)?);
    let length = sort_in(&length, roots.as_slice(), &scope);
    Ok([plain, more, length])
}

#[test]
fn a_variable_hides_a_root(rt: HostRuntime) -> Result<(), Fail> {
    let nat = Some(Sort::Nat);
    assert_eq!(rt; sorts(rt.alloc(), "x")?, [nat, nat, None]);
    assert_eq!(rt; sorts(rt.alloc(), "r")?, [Some(Sort::Loc), None, None]);
    assert_eq!(rt; sorts(rt.alloc(), "y")?, [None, None, None]);
    Ok(())
}
