// The names and sorts of lemmas.
ghost use Rattle.std.specs.Prelude.{◌≡◌, OnOk, IfOk};
ghost use Rattle.tht_tree.specs.declared.plain.Sort.TheVariants.{Nat};
ghost use Rattle.tht_tree.specs.Walk.Codes.{first as first_code, construct};
ghost use Rattle.tht_tree.specs.Walk.Names.{with_parts, with_variable, new_name as new_name_code, new_parts as new_parts_code, param_sorts};
ghost use Rattle.tht_tree.specs.Walk.Assns.{assn as assn_code};
ghost use Rattle.tht_tree.specs.Walk.Decls.{in_lemma, first_case, second_case, case_names as case_names_code, lemma_code, lemma_body, lemma_bodies};
ghost use Rattle.term_walk.specs.Scopes.{scope_of, unbound};

use crate::bodies::walk_body;
use crate::heads::{Coded, bind_parts, enter, enter_case, new_variables, on_variable, only};
use crate::placing::new_parts;
use sqlite_items::Items;
use std::alloc::{AllocError, Global};
use term_walk::assns::walk_assn;
use term_walk::codes::{Walked, first, refuse};
use term_walk::params::sorts_of;
use term_walk::scope::{Scope, Shadow};
use term_walk::terms::new_name;
use tht_tree::body::Body;
use tht_tree::decl::{Lemma, LemmaKind};
use tht_tree::plain::{Name, Sort};
use tht_tree::walk::{Class, Frame, Naming, Where};

/// What is refused in a lemma.
pub(crate) fn walk_lemma(alloc: Global, lemma: &Lemma, scope: &mut Scope) -> Walked
    ensures ok { IfOk result (λ r. r ≡ construct lemma.now.spot (lemma_code lemma.now (scope_of scope.old)) (lemma_bodies lemma.now lemma.now.kind (scope_of scope.old))) }
    ensures same { OnOk result (scope_of scope.new ≡ scope_of scope.old) }
{
    match own(alloc, lemma, scope)? {
        Some(code) => refuse(lemma.spot, code),
        None => walk_bodies(alloc, lemma, scope),
    }
}

/// A lemma that may be named so.
pub(crate) fn lemma_class(alloc: Global, lemma: &Lemma, naming: Naming) -> Result<Class, AllocError>
    ensures { IfOk result (λ c. c ≡ Class.Lemma (param_sorts lemma.now.params) naming) }
{
    let sorts = sorts_of(alloc, lemma.params.as_slice())?;
    Ok(Class::Lemma(sorts, naming))
}

// ---- what a lemma is refused for itself

fn own(alloc: Global, lemma: &Lemma, scope: &mut Scope) -> Coded
    ensures ok { IfOk result (λ c. c ≡ lemma_code lemma.now (scope_of scope.old)) }
    ensures same { OnOk result (scope_of scope.new ≡ scope_of scope.old) }
{
    let name = new_name(scope, &lemma.name);
    let class = lemma_class(alloc, lemma, Naming::Nowhere)?;
    let variables = new_variables(alloc, &lemma.name, class, lemma.params.as_slice(), scope)?;
    let names = first(name, first(variables, case_names(alloc, lemma, scope)?));
    Ok(first(names, boxes(alloc, lemma, scope)?))
}

// The pre- and the postcondition.
fn boxes(alloc: Global, lemma: &Lemma, scope: &mut Scope) -> Coded
    ensures ok { IfOk result (λ c. c ≡ first_code (assn_code lemma.now.pre (in_lemma lemma.now (scope_of scope.old))) (assn_code lemma.now.post (in_lemma lemma.now (scope_of scope.old)))) }
    ensures same { OnOk result (scope_of scope.new ≡ scope_of scope.old) }
{
    let mut bound = Items::new(alloc);
    enter_lemma(alloc, lemma, scope, &mut bound)?;
    let pre = walk_assn(&lemma.pre, scope)?;
    let post = walk_assn(&lemma.post, scope)?;
    scope.unbind_all(bound)?;
    Ok(first(pre, post))
}

// The parameter behind `on`, and the names of the second case.
fn case_names(alloc: Global, lemma: &Lemma, scope: &mut Scope) -> Coded
    ensures ok { IfOk result (λ c. c ≡ case_names_code lemma.now lemma.now.kind (scope_of scope.old)) }
    ensures same { OnOk result (scope_of scope.new ≡ scope_of scope.old) }
{
    match &lemma.kind {
        LemmaKind::Plain(_) => Ok(None),
        LemmaKind::OnSeq(on, _, head, tail, _) => {
            let class = lemma_class(alloc, lemma, Naming::Nowhere)?;
            let params = lemma.params.as_slice();
            let sort = on_variable(alloc, &lemma.name, class, params, on, Sort::Seq, scope)?;
            Ok(first(sort, parts_names(alloc, lemma, on, head, tail, scope)?))
        }
        LemmaKind::OnNat(on, _, before, _) => {
            let class = lemma_class(alloc, lemma, Naming::Nowhere)?;
            let params = lemma.params.as_slice();
            let sort = on_variable(alloc, &lemma.name, class, params, on, Sort::Nat, scope)?;
            Ok(first(sort, before_name(alloc, lemma, on, before, scope)?))
        }
    }
}

// The names of a head and a tail.
fn parts_names(
    alloc: Global,
    lemma: &Lemma,
    on: &Name,
    head: &Name,
    tail: &Name,
    scope: &mut Scope,
) -> Coded
    ensures ok { IfOk result (λ c. c ≡ new_parts_code (second_case lemma.now on.now tail.now (scope_of scope.old)) head.now tail.now) }
    ensures same { OnOk result (scope_of scope.new ≡ scope_of scope.old) }
{
    let mut bound = Items::new(alloc);
    enter_second(alloc, lemma, on, tail, scope, &mut bound)?;
    let code = new_parts(scope, head, tail);
    scope.unbind_all(bound)?;
    Ok(code)
}

// The name of the number that is one less.
fn before_name(alloc: Global, lemma: &Lemma, on: &Name, before: &Name, scope: &mut Scope) -> Coded
    ensures ok { IfOk result (λ c. c ≡ new_name_code (second_case lemma.now on.now before.now (scope_of scope.old)) before.now) }
    ensures same { OnOk result (scope_of scope.new ≡ scope_of scope.old) }
{
    let mut bound = Items::new(alloc);
    enter_second(alloc, lemma, on, before, scope, &mut bound)?;
    let code = new_name(scope, before);
    scope.unbind_all(bound)?;
    Ok(code)
}

// ---- what is known in it

// A lemma does not name itself.
fn enter_lemma(
    alloc: Global,
    lemma: &Lemma,
    scope: &mut Scope,
    bound: &mut Items<Shadow>,
) -> Result<(), AllocError>
    ensures known { OnOk result (scope_of scope.new ≡ in_lemma lemma.now (scope_of scope.old)) }
    ensures outer { OnOk result (unbound (scope_of scope.new) bound.new ≡ unbound (scope_of scope.old) bound.old) }
{
    let class = lemma_class(alloc, lemma, Naming::Nowhere)?;
    let _ = enter(&lemma.name, class, lemma.params.as_slice(), scope, bound)?;
    Ok(())
}

fn enter_first(
    alloc: Global,
    lemma: &Lemma,
    on: &Name,
    scope: &mut Scope,
    bound: &mut Items<Shadow>,
) -> Result<(), AllocError>
    ensures known { OnOk result (scope_of scope.new ≡ first_case lemma.now on.now (scope_of scope.old)) }
    ensures outer { OnOk result (unbound (scope_of scope.new) bound.new ≡ unbound (scope_of scope.old) bound.old) }
{
    let class = lemma_class(alloc, lemma, Naming::Nowhere)?;
    enter_case(
        &lemma.name,
        class,
        on,
        lemma.params.as_slice(),
        scope,
        bound,
    )
}

// One with `on` names itself in its second case alone, with exactly the tail, or the number, as that argument.
fn enter_second(
    alloc: Global,
    lemma: &Lemma,
    on: &Name,
    variable: &Name,
    scope: &mut Scope,
    bound: &mut Items<Shadow>,
) -> Result<(), AllocError>
    ensures known { OnOk result (scope_of scope.new ≡ second_case lemma.now on.now variable.now (scope_of scope.old)) }
    ensures outer { OnOk result (unbound (scope_of scope.new) bound.new ≡ unbound (scope_of scope.old) bound.old) }
{
    let params = lemma.params.as_slice();
    let class = lemma_class(alloc, lemma, only(on, params, variable)?)?;
    enter_case(&lemma.name, class, on, params, scope, bound)
}

// ---- its bodies

fn walk_bodies(alloc: Global, lemma: &Lemma, scope: &mut Scope) -> Walked
    ensures ok { IfOk result (λ r. r ≡ lemma_bodies lemma.now lemma.now.kind (scope_of scope.old)) }
    ensures same { OnOk result (scope_of scope.new ≡ scope_of scope.old) }
{
    match &lemma.kind {
        LemmaKind::Plain(body) => plain_body(alloc, lemma, body.get(), scope),
        LemmaKind::OnSeq(on, body, head, tail, other) => {
            match first_body(alloc, lemma, on, body.get(), scope)? {
                Some(refusal) => Ok(Some(refusal)),
                None => parts_body(alloc, lemma, on, head, tail, other.get(), scope),
            }
        }
        LemmaKind::OnNat(on, body, before, other) => {
            match first_body(alloc, lemma, on, body.get(), scope)? {
                Some(refusal) => Ok(Some(refusal)),
                None => next_body(alloc, lemma, on, before, other.get(), scope),
            }
        }
    }
}

fn lemma_frame() -> Frame
    ensures { result ≡ record { place = Where.InLemma; result = Sort.Unit } }
{
    Frame {
        place: Where::InLemma,
        result: Sort::Unit,
    }
}

fn plain_body(alloc: Global, lemma: &Lemma, body: &Body, scope: &mut Scope) -> Walked
    ensures ok { IfOk result (λ r. r ≡ lemma_body body.now (in_lemma lemma.now (scope_of scope.old))) }
    ensures same { OnOk result (scope_of scope.new ≡ scope_of scope.old) }
{
    let mut bound = Items::new(alloc);
    enter_lemma(alloc, lemma, scope, &mut bound)?;
    let refusal = walk_body(alloc, body, lemma_frame(), scope)?;
    scope.unbind_all(bound)?;
    Ok(refusal)
}

fn first_body(alloc: Global, lemma: &Lemma, on: &Name, body: &Body, scope: &mut Scope) -> Walked
    ensures ok { IfOk result (λ r. r ≡ lemma_body body.now (first_case lemma.now on.now (scope_of scope.old))) }
    ensures same { OnOk result (scope_of scope.new ≡ scope_of scope.old) }
{
    let mut bound = Items::new(alloc);
    enter_first(alloc, lemma, on, scope, &mut bound)?;
    let refusal = walk_body(alloc, body, lemma_frame(), scope)?;
    scope.unbind_all(bound)?;
    Ok(refusal)
}

// The case of a head and a tail.
fn parts_body(
    alloc: Global,
    lemma: &Lemma,
    on: &Name,
    head: &Name,
    tail: &Name,
    body: &Body,
    scope: &mut Scope,
) -> Walked
    ensures ok { IfOk result (λ r. r ≡ lemma_body body.now (with_parts (second_case lemma.now on.now tail.now (scope_of scope.old)) head.now tail.now)) }
    ensures same { OnOk result (scope_of scope.new ≡ scope_of scope.old) }
{
    let mut bound = Items::new(alloc);
    enter_second(alloc, lemma, on, tail, scope, &mut bound)?;
    bind_parts(head, tail, scope, &mut bound)?;
    let refusal = walk_body(alloc, body, lemma_frame(), scope)?;
    scope.unbind_all(bound)?;
    Ok(refusal)
}

// The case of one more than a number.
fn next_body(
    alloc: Global,
    lemma: &Lemma,
    on: &Name,
    before: &Name,
    body: &Body,
    scope: &mut Scope,
) -> Walked
    ensures ok { IfOk result (λ r. r ≡ lemma_body body.now (with_variable (second_case lemma.now on.now before.now (scope_of scope.old)) before.now Nat)) }
    ensures same { OnOk result (scope_of scope.new ≡ scope_of scope.old) }
{
    let mut bound = Items::new(alloc);
    enter_second(alloc, lemma, on, before, scope, &mut bound)?;
    scope.bind_in(before, Class::Logic(Sort::Nat), &mut bound)?;
    let refusal = walk_body(alloc, body, lemma_frame(), scope)?;
    scope.unbind_all(bound)?;
    Ok(refusal)
}
