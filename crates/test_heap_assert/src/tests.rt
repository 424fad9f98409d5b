// The calls of this crate, once each with ample memory. What each answer must be is worked out by hand from the definitions.
use heap_assert::{DefinitionEnd, alike, definition, flatten, put_in_assn};
use pure_terms::Subst;
use sqlite_items::{Boxed, Items};
use std::alloc::{AllocError, Global};
use std::test::Fail;
use tht_tree::assn::{Assn, same_assn};
use tht_tree::decl::{Access, DeclKind, Param};
use tht_tree::form::PutEnd;
use tht_tree::plain::{Name, Sort};
use tht_tree::term::Term;

fn name(alloc: Global, text: &str) -> Result<Name, AllocError> {
    Ok(Name::new(text.to_string(alloc)?))
}

fn var(alloc: Global, text: &str) -> Result<Term, AllocError> {
    Ok(Term::Var(name(alloc, text)?))
}

fn no_memory<E: Drop>(_: E) -> AllocError {
    AllocError
}

// `[left = right]`
fn equation(alloc: Global, left: &str, right: &str) -> Result<Assn, AllocError> {
    let left = Boxed::new(alloc, var(alloc, left)?)?;
    let right = Boxed::new(alloc, var(alloc, right)?)?;
    Ok(Assn::Fact(Boxed::new(alloc, Term::Eq(left, right))?))
}

// `left * right`
fn joined(
    alloc: Global,
    left: Result<Assn, AllocError>,
    right: Result<Assn, AllocError>,
) -> Result<Assn, AllocError> {
    let left = Boxed::new(alloc, left?)?;
    Ok(Assn::Star(left, Boxed::new(alloc, right?)?))
}

// `exists x : nat . part`
fn some(alloc: Global, x: &str, part: Result<Assn, AllocError>) -> Result<Assn, AllocError> {
    let x = name(alloc, x)?;
    Ok(Assn::Exists(x, Sort::Nat, Boxed::new(alloc, part?)?))
}

fn are_same(
    one: Result<Assn, AllocError>,
    other: Result<Assn, AllocError>,
) -> Result<bool, AllocError> {
    Ok(same_assn(&one?, &other?))
}

fn are_alike(
    one: Result<Assn, AllocError>,
    other: Result<Assn, AllocError>,
) -> Result<bool, AllocError> {
    Ok(alike(&one?, &other?))
}

// ---- atoms

fn atoms_of(alloc: Global, assn: Result<Assn, AllocError>) -> Result<Items<Assn>, AllocError> {
    let mut atoms = Items::new(alloc);
    flatten(assn?, &mut atoms).map_err(no_memory)?;
    Ok(atoms)
}

fn last_of(atoms: &mut Items<Assn>) -> Result<Assn, AllocError> {
    atoms.pop().ok_or(AllocError)
}

#[test]
fn stars_are_split_and_emp_is_dropped(rt: HostRuntime) -> Result<(), Fail> {
    let alloc = rt.alloc();
    let left = joined(alloc, Ok(Assn::Emp), equation(alloc, "a", "b"));
    let right = joined(alloc, equation(alloc, "b", "c"), Ok(Assn::Emp));
    let mut atoms = atoms_of(alloc, joined(alloc, left, right))?;
    assert_eq!(rt; atoms.len(), 2);
    assert!(rt; are_same(last_of(&mut atoms), equation(alloc, "b", "c"))?);
    assert!(rt; are_same(last_of(&mut atoms), equation(alloc, "a", "b"))?);
    Ok(())
}

#[test]
fn stars_in_an_exists_stay(rt: HostRuntime) -> Result<(), Fail> {
    let alloc = rt.alloc();
    let inner = joined(alloc, equation(alloc, "x", "a"), equation(alloc, "x", "b"));
    let atoms = atoms_of(alloc, some(alloc, "x", inner))?;
    assert_eq!(rt; atoms.len(), 1);
    Ok(())
}

// ---- sameness

#[test]
fn bound_names_do_not_count(rt: HostRuntime) -> Result<(), Fail> {
    let alloc = rt.alloc();
    let one = some(alloc, "x", equation(alloc, "x", "y"));
    let other = some(alloc, "z", equation(alloc, "z", "y"));
    assert!(rt; are_alike(one, other)?);
    Ok(())
}

#[test]
fn a_bound_name_is_no_free_one(rt: HostRuntime) -> Result<(), Fail> {
    let alloc = rt.alloc();
    let one = some(alloc, "x", equation(alloc, "x", "y"));
    let other = some(alloc, "y", equation(alloc, "y", "y"));
    assert!(rt; !are_alike(one, other)?);
    Ok(())
}

#[test]
fn the_innermost_binder_counts(rt: HostRuntime) -> Result<(), Fail> {
    let alloc = rt.alloc();
    let one = some(alloc, "x", some(alloc, "x", equation(alloc, "x", "x")));
    let inner = some(alloc, "x", some(alloc, "y", equation(alloc, "y", "y")));
    assert!(rt; are_alike(one, inner)?);
    let one = some(alloc, "x", some(alloc, "x", equation(alloc, "x", "x")));
    let outer = some(alloc, "x", some(alloc, "y", equation(alloc, "x", "x")));
    assert!(rt; !are_alike(one, outer)?);
    Ok(())
}

// ---- terms put in

fn one_for(alloc: Global, from: &str, to: &str) -> Result<Subst, AllocError> {
    let mut by = Subst::new(alloc);
    by.add(name(alloc, from)?, var(alloc, to)?)
        .map_err(no_memory)?;
    Ok(by)
}

fn with(alloc: Global, by: &Subst, assn: Result<Assn, AllocError>) -> Result<Assn, AllocError> {
    put_in_assn(alloc, &assn?, by).map_err(no_memory)
}

// `exists x . [x = y]` with x for y: the bound x is another one.
#[test]
fn nothing_is_captured(rt: HostRuntime) -> Result<(), Fail> {
    let alloc = rt.alloc();
    let by = one_for(alloc, "y", "x")?;
    let made = with(alloc, &by, some(alloc, "x", equation(alloc, "x", "y")));
    assert!(rt; are_same(made, some(alloc, "0", equation(alloc, "0", "x")))?);
    Ok(())
}

// `[not (x = 5)]`
fn no_five(alloc: Global, x: &str) -> Result<Assn, AllocError> {
    let x = Boxed::new(alloc, var(alloc, x)?)?;
    let five = Boxed::new(alloc, Term::Num(5))?;
    let equal = Boxed::new(alloc, Term::Eq(x, five))?;
    Ok(Assn::Fact(Boxed::new(alloc, Term::Not(equal))?))
}

// `exists y . [not (a = 5)]` with a variable `0` for a: the bound one is another one.
#[test]
fn a_name_of_zeros_is_not_captured(rt: HostRuntime) -> Result<(), Fail> {
    let alloc = rt.alloc();
    let by = one_for(alloc, "a", "0")?;
    let made = with(alloc, &by, some(alloc, "y", no_five(alloc, "a")));
    assert!(rt; are_same(made, some(alloc, "00", no_five(alloc, "0")))?);
    Ok(())
}

// `exists 00 . [00 = a]`: the name `00` is bound, and counts for nothing.
#[test]
fn a_bound_name_of_zeros_is_renamed(rt: HostRuntime) -> Result<(), Fail> {
    let alloc = rt.alloc();
    let by = one_for(alloc, "b", "000")?;
    let made = with(alloc, &by, some(alloc, "00", equation(alloc, "00", "a")));
    assert!(rt; are_same(made, some(alloc, "0", equation(alloc, "0", "a")))?);
    Ok(())
}

#[test]
fn bound_names_stay_bound(rt: HostRuntime) -> Result<(), Fail> {
    let alloc = rt.alloc();
    let by = one_for(alloc, "x", "a")?;
    let inner = some(alloc, "x", some(alloc, "z", equation(alloc, "x", "z")));
    let made = with(alloc, &by, joined(alloc, equation(alloc, "x", "z"), inner));
    let inner = some(alloc, "0", some(alloc, "00", equation(alloc, "0", "00")));
    assert!(rt; are_same(made, joined(alloc, equation(alloc, "a", "z"), inner))?);
    Ok(())
}

// So many `exists` round `[x = y]`, which has three levels.
fn deep(alloc: Global, levels: u64) -> Result<Assn, AllocError> {
    let mut assn = equation(alloc, "x", "y");
    for _ in 0..levels {
        assn = some(alloc, "x", assn);
    }
    assn
}

fn end(
    alloc: Global,
    by: &Subst,
    assn: Result<Assn, AllocError>,
) -> Result<Option<PutEnd>, AllocError> {
    Ok(put_in_assn(alloc, &assn?, by).err())
}

#[test]
fn at_most_1000_levels_are_made(rt: HostRuntime) -> Result<(), Fail> {
    let alloc = rt.alloc();
    let by = Subst::new(alloc);
    assert_eq!(rt; end(alloc, &by, deep(alloc, 997))?, None);
    assert_eq!(rt; end(alloc, &by, deep(alloc, 998))?, Some(PutEnd::Large));
    Ok(())
}

// ---- definitions

// the parameter `x`
fn params(alloc: Global) -> Result<Items<Param>, AllocError> {
    let mut params = Items::new(alloc);
    params.push(Param {
        name: name(alloc, "x")?,
        sort: Sort::Seq,
    })?;
    Ok(params)
}

// `pred P(x) = [x = y]`
fn plain(alloc: Global) -> Result<DeclKind, AllocError> {
    let p = name(alloc, "P")?;
    let params = params(alloc)?;
    Ok(DeclKind::Pred(Access::Private, p, params, equation(alloc, "x", "y")?))
}

// For `nil` `[x = nil]`, written with names, and for `h :: t` `[h = t]`.
fn by_cases(alloc: Global) -> Result<DeclKind, AllocError> {
    let p = name(alloc, "P")?;
    let params = params(alloc)?;
    let on = name(alloc, "x")?;
    let nil = equation(alloc, "a", "b")?;
    let (head, tail) = (name(alloc, "h")?, name(alloc, "t")?);
    let cons = equation(alloc, "h", "t")?;
    Ok(DeclKind::PredOn(Access::Private, p, params, on, nil, head, tail, cons))
}

fn defined(
    alloc: Global,
    declared: Result<DeclKind, AllocError>,
    argument: Result<Term, AllocError>,
) -> Result<Result<Assn, DefinitionEnd>, AllocError> {
    let mut arguments = Items::new(alloc);
    arguments.push(argument?)?;
    Ok(definition(alloc, &declared?, &arguments))
}

fn definition_is(
    alloc: Global,
    declared: Result<DeclKind, AllocError>,
    argument: Result<Term, AllocError>,
    want: Result<Assn, AllocError>,
) -> Result<bool, AllocError> {
    let made = defined(alloc, declared, argument)?.map_err(no_memory)?;
    Ok(same_assn(&made, &want?))
}

#[test]
fn an_instance_is_its_body(rt: HostRuntime) -> Result<(), Fail> {
    let alloc = rt.alloc();
    let want = equation(alloc, "a", "y");
    assert!(rt; definition_is(alloc, plain(alloc), var(alloc, "a"), want)?);
    Ok(())
}

#[test]
fn the_argument_selects_the_case(rt: HostRuntime) -> Result<(), Fail> {
    let alloc = rt.alloc();
    let want = equation(alloc, "a", "b");
    assert!(rt; definition_is(alloc, by_cases(alloc), Ok(Term::Nil), want)?);
    let head = Boxed::new(alloc, var(alloc, "a")?)?;
    let cons = Term::Cons(head, Boxed::new(alloc, var(alloc, "b")?)?);
    let want = equation(alloc, "a", "b");
    assert!(rt; definition_is(alloc, by_cases(alloc), Ok(cons), want)?);
    Ok(())
}

#[test]
fn another_sequence_has_no_case(rt: HostRuntime) -> Result<(), Fail> {
    let alloc = rt.alloc();
    let end = defined(alloc, by_cases(alloc), var(alloc, "a"))?.err();
    assert_eq!(rt; end, Some(DefinitionEnd::NoCase));
    Ok(())
}
