// The names and sorts of predicates.
ghost use Rattle.std.specs.Prelude.{◌≡◌, OnOk, IfOk};
ghost use Rattle.tht_tree.specs.declared.walk.Naming.TheVariants.{Nowhere, Only};
ghost use Rattle.tht_tree.specs.Walk.Names.{with_parts, new_parts as new_parts_code, param_sorts, param_number as the_param_number};
ghost use Rattle.tht_tree.specs.Walk.Decls.{with_predicate, in_case, definition as definition_code, pred_code, pred_on_code};
ghost use Rattle.term_walk.specs.Scopes.{scope_of};

use crate::heads::{Coded, bind_parts, enter, enter_case, new_variables, on_variable, only};
use crate::placing::new_parts;
use sqlite_items::Items;
use std::alloc::{AllocError, Global};
use term_walk::assns::walk_assn;
use term_walk::codes::first;
use term_walk::kinds::of_access;
use term_walk::params::sorts_of;
use term_walk::scope::Scope;
use term_walk::terms::new_name;
use tht_tree::assn::Assn;
use tht_tree::decl::{Access, Param};
use tht_tree::plain::{Name, Sort};
use tht_tree::walk::{Class, Naming, WalkCode};

/// A predicate by its name, with its access and its parameters.
#[derive(Clone, Copy)]
pub(crate) struct Pred<'a> {
    pub access: Access,
    pub name: &'a Name,
    pub params: &'a [Param],
}

/// What a predicate is by cases on one of its parameters: for `nil`, and for a head and a tail with these names.
#[derive(Clone, Copy)]
pub(crate) struct Cases<'a> {
    pub on: &'a Name,
    pub nil: &'a Assn,
    pub head: &'a Name,
    pub tail: &'a Name,
    pub cons: &'a Assn,
}

pub(crate) fn pred_of<'a>(access: Access, name: &'a Name, params: &'a [Param]) -> Pred<'a>
    ensures { result ≡ record { access = access; name = name.entry; params = params.entry } }
{
    Pred {
        access,
        name,
        params,
    }
}

pub(crate) fn cases_of<'a>(
    on: &'a Name,
    nil: &'a Assn,
    head: &'a Name,
    tail: &'a Name,
    cons: &'a Assn,
) -> Cases<'a>
    ensures { result ≡ record { on = on.entry; nil = nil.entry; head = head.entry; tail = tail.entry; cons = cons.entry } }
{
    Cases {
        on,
        nil,
        head,
        tail,
        cons,
    }
}

/// What a predicate stands for that may be named so.
pub(crate) fn predicate_class(
    alloc: Global,
    pred: &Pred<'_>,
    naming: Naming,
) -> Result<Class, AllocError>
    ensures { IfOk result (λ c. c ≡ Class.Predicate pred.now.access (param_sorts pred.now.params.now) naming) }
{
    let sorts = sorts_of(alloc, pred.params)?;
    Ok(Class::Predicate(pred.access, sorts, naming))
}

/// What is refused in a predicate with one definition, in which it does not name itself.
pub(crate) fn plain(alloc: Global, pred: &Pred<'_>, assn: &Assn, scope: &mut Scope) -> Coded
    ensures ok { IfOk result (λ c. c ≡ pred_code pred.now.access pred.now.name.now pred.now.params.now assn.now (scope_of scope.old)) }
    ensures same { OnOk result (scope_of scope.new ≡ scope_of scope.old) }
{
    let mut bound = Items::new(alloc);
    let own = new_name(scope, pred.name);
    let class = predicate_class(alloc, pred, Naming::Nowhere)?;
    let variables = enter(pred.name, class, pred.params, scope, &mut bound)?;
    let definition = definition(pred.access, assn, scope)?;
    scope.unbind_all(bound)?;
    Ok(first(own, first(variables, definition)))
}

// A definition, or one case of it.
fn definition(access: Access, assn: &Assn, scope: &mut Scope) -> Coded
    ensures ok { IfOk result (λ c. c ≡ definition_code access (scope_of scope.old) assn.now) }
    ensures same { OnOk result (scope_of scope.new ≡ scope_of scope.old) }
{
    let code = walk_assn(assn, scope)?;
    Ok(first(code, of_access(access, scope, assn)))
}

/// What is refused in a predicate by cases. It names itself in its second case, with exactly the tail as that argument.
pub(crate) fn by_cases(
    alloc: Global,
    pred: &Pred<'_>,
    cases: &Cases<'_>,
    scope: &mut Scope,
) -> Coded
    ensures ok { IfOk result (λ c. c ≡ pred_on_code pred.now.access pred.now.name.now pred.now.params.now cases.now.on.now cases.now.nil.now cases.now.head.now cases.now.tail.now cases.now.cons.now (scope_of scope.old)) }
    ensures same { OnOk result (scope_of scope.new ≡ scope_of scope.old) }
{
    let own = new_name(scope, pred.name);
    let class = predicate_class(alloc, pred, Naming::Nowhere)?;
    let variables = new_variables(alloc, pred.name, class, pred.params, scope)?;
    let class = predicate_class(alloc, pred, Naming::Nowhere)?;
    let on = on_variable(
        alloc,
        pred.name,
        class,
        pred.params,
        cases.on,
        Sort::Seq,
        scope,
    )?;
    let nil = nil_case(alloc, pred, cases, scope)?;
    let (parts, cons) = cons_case(alloc, pred, cases, scope)?;
    let names = first(own, first(variables, first(on, parts)));
    Ok(first(names, first(nil, cons)))
}

fn nil_case(alloc: Global, pred: &Pred<'_>, cases: &Cases<'_>, scope: &mut Scope) -> Coded
    ensures ok { let itself = with_predicate (scope_of scope.old) pred.now.access pred.now.name.now pred.now.params.now Nowhere in
        IfOk result (λ c. c ≡ definition_code pred.now.access (in_case itself cases.now.on.now pred.now.params.now) cases.now.nil.now) }
    ensures same { OnOk result (scope_of scope.new ≡ scope_of scope.old) }
{
    let mut bound = Items::new(alloc);
    let class = predicate_class(alloc, pred, Naming::Nowhere)?;
    enter_case(pred.name, class, cases.on, pred.params, scope, &mut bound)?;
    let code = definition(pred.access, cases.nil, scope)?;
    scope.unbind_all(bound)?;
    Ok(code)
}

/// What is refused in the names of a head and a tail, and in the case behind them.
type CaseCodes = (Option<WalkCode>, Option<WalkCode>);

fn cons_case(
    alloc: Global,
    pred: &Pred<'_>,
    cases: &Cases<'_>,
    scope: &mut Scope,
) -> Result<CaseCodes, AllocError>
    ensures ok { let naming = Only (the_param_number cases.now.on.now pred.now.params.now) cases.now.tail.now in
        let itself = with_predicate (scope_of scope.old) pred.now.access pred.now.name.now pred.now.params.now naming in
        let cons = in_case itself cases.now.on.now pred.now.params.now in
        IfOk result (λ c. (c.0 ≡ new_parts_code cons cases.now.head.now cases.now.tail.now) × (c.1 ≡ definition_code pred.now.access (with_parts cons cases.now.head.now cases.now.tail.now) cases.now.cons.now)) }
    ensures same { OnOk result (scope_of scope.new ≡ scope_of scope.old) }
{
    let mut bound = Items::new(alloc);
    let naming = only(cases.on, pred.params, cases.tail)?;
    let class = predicate_class(alloc, pred, naming)?;
    enter_case(pred.name, class, cases.on, pred.params, scope, &mut bound)?;
    let names = new_parts(scope, cases.head, cases.tail);
    bind_parts(cases.head, cases.tail, scope, &mut bound)?;
    let code = definition(pred.access, cases.cons, scope)?;
    scope.unbind_all(bound)?;
    Ok((names, code))
}
