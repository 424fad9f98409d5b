// What the statements and ends of bodies are refused for themselves: their names, terms, boxes, and where they stand.
ghost use Rattle.std.specs.Prelude.{◌≡◌, OnOk, IfOk, option_copied};
ghost use Rattle.tht_tree.specs.declared.walk.Class.{Class as TheClass};
ghost use Rattle.tht_tree.specs.Walk.Codes.{unless as unless_code};
ghost use Rattle.tht_tree.specs.SameTree.{is_unit};
ghost use Rattle.tht_tree.specs.declared.term.Term.{out-Term};
ghost use Rattle.tht_tree.specs.declared.walk.WalkCode.TheVariants.{S4};
ghost use Rattle.tht_tree.specs.Walk.Names.{with_name, new_name as new_name_code, new_parts as new_parts_code};
ghost use Rattle.tht_tree.specs.Walk.Bodies.{not_in_lemma as not_in_lemma_code, only_inside as only_inside_code, only_outside as only_outside_code};
ghost use Rattle.tht_tree.specs.Walk.Bodies.{place_term as place_code, new_result as new_result_code, result_box as result_box_code};
ghost use Rattle.tht_tree.specs.Walk.Bodies.{private_box as private_box_code, do_box as do_box_code, call_arguments as call_arguments_code};
ghost use Rattle.tht_tree.specs.Walk.Bodies.{command as command_code, call_sort as the_call_sort, returned as returned_code};
ghost use Rattle.term_walk.specs.Scopes.{scope_of};

use std::alloc::AllocError;
use term_walk::assns::walk_assn;
use term_walk::codes::{first, unless};
use term_walk::kinds::private_only;
use term_walk::scope::Scope;
use term_walk::terms::{
    any_program, any_programs, any_terms, arguments, new_name, program_of, storable,
};
use tht_tree::assn::Assn;
use tht_tree::plain::{Name, Sort};
use tht_tree::term::Term;
use tht_tree::walk::{Class, Frame, Signature, WalkCode, Where};

// ---- places

/// S4: no statement but a proof step stands in a lemma.
pub(crate) fn not_in_lemma(place: Where) -> Option<WalkCode>
    ensures { result ≡ not_in_lemma_code place }
{
    match place {
        Where::Outside => None,
        Where::Inside => None,
        Where::InLemma => Some(WalkCode::S4),
    }
}

pub(crate) fn only_inside(place: Where) -> Option<WalkCode>
    ensures { result ≡ only_inside_code place }
{
    match place {
        Where::Outside => Some(WalkCode::S4),
        Where::Inside => None,
        Where::InLemma => Some(WalkCode::S4),
    }
}

pub(crate) fn only_outside(place: Where) -> Option<WalkCode>
    ensures { result ≡ only_outside_code place }
{
    match place {
        Where::Outside => None,
        Where::Inside => Some(WalkCode::S4),
        Where::InLemma => Some(WalkCode::S4),
    }
}

// ---- names

/// N2: a name that is bound behind another one.
pub(crate) fn new_behind(scope: &Scope, earlier: &Name, name: &Name) -> Option<WalkCode>
    ensures { (c : TheClass) → result ≡ new_name_code (with_name (scope_of scope.now) earlier.now c) name.now }
{
    if earlier.as_str() == name.as_str() {
        Some(WalkCode::N2)
    } else {
        new_name(scope, name)
    }
}

/// The names of the head and the tail of a sequence.
pub(crate) fn new_parts(scope: &Scope, head: &Name, tail: &Name) -> Option<WalkCode>
    ensures { result ≡ new_parts_code (scope_of scope.now) head.now tail.now }
{
    first(new_name(scope, head), new_behind(scope, head, tail))
}

/// The name of a result, and its sort.
pub(crate) fn new_result(scope: &Scope, name: &Name, sort: Sort) -> Option<WalkCode>
    ensures { result ≡ new_result_code (scope_of scope.now) name.now sort }
{
    first(new_name(scope, name), storable(sort))
}

// ---- boxes

/// A box, in which the result is known.
pub(crate) fn result_box(
    scope: &mut Scope,
    name: &Name,
    sort: Sort,
    assn: &Assn,
) -> Result<Option<WalkCode>, AllocError>
    ensures ok { IfOk result (λ c. c ≡ result_box_code (scope_of scope.old) name.now sort assn.now) }
    ensures same { OnOk result (scope_of scope.new ≡ scope_of scope.old) }
{
    let shadowed = scope.bind(name, Class::Program(sort))?;
    let code = walk_assn(assn, scope)?;
    scope.unbind(name, shadowed)?;
    Ok(code)
}

/// A box of private cells alone.
pub(crate) fn private_box(
    scope: &mut Scope,
    name: &Name,
    sort: Sort,
    assn: &Assn,
) -> Result<Option<WalkCode>, AllocError>
    ensures ok { IfOk result (λ c. c ≡ private_box_code (scope_of scope.old) name.now sort assn.now) }
    ensures same { OnOk result (scope_of scope.new ≡ scope_of scope.old) }
{
    let code = result_box(scope, name, sort, assn)?;
    Ok(first(code, private_only(scope, assn)))
}

/// The box of a `do`, which may be of any kind where it does not stand outside.
pub(crate) fn do_box(
    place: Where,
    scope: &mut Scope,
    name: &Name,
    sort: Sort,
    assn: &Assn,
) -> Result<Option<WalkCode>, AllocError>
    ensures ok { IfOk result (λ c. c ≡ do_box_code place (scope_of scope.old) name.now sort assn.now) }
    ensures same { OnOk result (scope_of scope.new ≡ scope_of scope.old) }
{
    match place {
        Where::Outside => private_box(scope, name, sort, assn),
        Where::Inside => result_box(scope, name, sort, assn),
        Where::InLemma => result_box(scope, name, sort, assn),
    }
}

// ---- terms

/// The term for the place of a cell.
pub(crate) fn place_term(scope: &Scope, term: &Term) -> Option<WalkCode>
    ensures { result ≡ place_code (scope_of scope.now) term.now }
{
    program_of(scope, Sort::Loc, term)
}

/// A body returns a program term of its sort, a lemma `()` alone.
pub(crate) fn returned(frame: Frame, scope: &Scope, term: &Term) -> Option<WalkCode>
    ensures { result ≡ returned_code frame.place frame.result (scope_of scope.now) term.now }
{
    match frame.place {
        Where::Outside => program_of(scope, frame.result, term),
        Where::Inside => program_of(scope, frame.result, term),
        Where::InLemma => first(any_program(scope, term), unit_alone(term)),
    }
}

// S4: the term `()`.
fn unit_alone(term: &Term) -> Option<WalkCode>
    ensures { result ≡ unless_code (is_unit (out-Term term.now)) S4 }
{
    unless(matches!(term, Term::Unit), WalkCode::S4)
}

// ---- calls

/// The command that is called, with its arguments: in parentheses program terms, in brackets terms of the logic.
pub(crate) fn command(
    place: Where,
    scope: &Scope,
    name: &Name,
    terms: &[Term],
    logic: &[Term],
) -> Option<WalkCode>
    ensures { result ≡ command_code place (scope_of scope.now) name.now terms.now logic.now }
{
    let called = match scope.get(name) {
        Some(Class::Txn(signature)) => {
            first(
                call_arguments(scope, signature, terms, logic),
                only_inside(place),
            )
        }
        Some(Class::Proc(signature)) => {
            first(
                call_arguments(scope, signature, terms, logic),
                only_outside(place),
            )
        }
        Some(_) => Some(WalkCode::N3),
        None => Some(WalkCode::N1),
    };
    first(
        any_programs(scope, terms),
        first(any_terms(scope, logic), called),
    )
}

fn call_arguments(
    scope: &Scope,
    signature: &Signature,
    terms: &[Term],
    logic: &[Term],
) -> Option<WalkCode>
    ensures { result ≡ call_arguments_code (scope_of scope.now) signature.now terms.now logic.now }
{
    first(
        arguments(scope, true, signature.params.as_slice(), terms),
        arguments(scope, false, signature.logic.as_slice(), logic),
    )
}

/// The sort of a call's result.
pub(crate) fn call_sort(class: Option<&Class>) -> Sort
    ensures { result ≡ the_call_sort (option_copied class.entry) }
{
    match class {
        Some(Class::Txn(signature)) => signature.result,
        Some(Class::Proc(signature)) => signature.result,
        _ => Sort::Unit,
    }
}
