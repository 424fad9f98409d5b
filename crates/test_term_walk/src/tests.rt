// Sorts, kinds and scopes, worked out by hand.
use sqlite_items::Boxed;
use std::alloc::{AllocError, Global};
use std::test::Fail;
use term_walk::kinds::kind_of;
use term_walk::scope::Scope;
use term_walk::sorts::sort_of;
use term_walk::terms::{any_program, any_term};
use tht_tree::assn::Assn;
use tht_tree::plain::{Name, Sort};
use tht_tree::term::Term;
use tht_tree::walk::{Class, Kind, SortEnd, WalkCode};

fn name(alloc: Global, text: &str) -> Result<Name, AllocError> {
    Ok(Name::new(text.to_string(alloc)?))
}

// A number `n` and a sequence `p` of the program, and a sequence `s` of the logic.
fn variables(alloc: Global) -> Result<Scope, AllocError> {
    let mut scope = Scope::new(alloc);
    let _ = scope.bind(&name(alloc, "n")?, Class::Program(Sort::Nat))?;
    let _ = scope.bind(&name(alloc, "p")?, Class::Program(Sort::Seq))?;
    let _ = scope.bind(&name(alloc, "s")?, Class::Logic(Sort::Seq))?;
    Ok(scope)
}

fn variable(alloc: Global, text: &str) -> Result<Boxed<Term>, AllocError> {
    Boxed::new(alloc, Term::Var(name(alloc, text)?))
}

#[test]
fn terms_have_sorts(rt: HostRuntime) -> Result<(), Fail> {
    let alloc = rt.alloc();
    let scope = variables(alloc)?;
    let sum = Term::Add(variable(alloc, "n")?, Boxed::new(alloc, Term::Num(1))?);
    assert!(rt; matches!(sort_of(&scope, &sum, true), Ok(Sort::Nat)));
    let length = Term::Len(variable(alloc, "s")?);
    assert!(rt; matches!(sort_of(&scope, &length, false), Ok(Sort::Nat)));
    assert!(rt; matches!(sort_of(&scope, &length, true), Err(SortEnd::LogicOnly)));
    Ok(())
}

// A sequence is no program term, also where a variable of the program stands for it.
#[test]
fn sequences_are_of_the_logic(rt: HostRuntime) -> Result<(), Fail> {
    let alloc = rt.alloc();
    let scope = variables(alloc)?;
    let sequence = variable(alloc, "p")?;
    assert!(rt; matches!(sort_of(&scope, sequence.get(), false), Ok(Sort::Seq)));
    assert!(rt;
        matches!(
            sort_of(&scope, sequence.get(), true),
            Err(SortEnd::LogicOnly)
        )
    );
    assert_eq!(rt; any_term(&scope, sequence.get()), None);
    assert_eq!(rt; any_program(&scope, sequence.get()), Some(WalkCode::S2));
    Ok(())
}

#[test]
fn names_go_out_of_scope(rt: HostRuntime) -> Result<(), Fail> {
    let alloc = rt.alloc();
    let mut scope = variables(alloc)?;
    let term = variable(alloc, "n")?;
    let n = name(alloc, "n")?;
    let shadowed = scope.bind(&n, Class::Hypothesis)?;
    assert_eq!(rt; any_term(&scope, term.get()), Some(WalkCode::N3));
    scope.unbind(&n, shadowed)?;
    assert_eq!(rt; any_term(&scope, term.get()), None);
    Ok(())
}

// null -> 0 * null => 0
#[test]
fn cells_have_kinds(rt: HostRuntime) -> Result<(), Fail> {
    let alloc = rt.alloc();
    let scope = Scope::new(alloc);
    let own = Assn::Own(
        Boxed::new(alloc, Term::Null)?,
        Boxed::new(alloc, Term::Num(0))?,
    );
    assert_eq!(rt; kind_of(&scope, &own), Kind::Private);
    let own = Boxed::new(alloc, own)?;
    let shared = Assn::Shared(
        Boxed::new(alloc, Term::Null)?,
        Boxed::new(alloc, Term::Num(0))?,
    );
    let both = Assn::Star(own, Boxed::new(alloc, shared)?);
    assert_eq!(rt; kind_of(&scope, &both), Kind::Mixed);
    Ok(())
}
