// The declaration of a predicate or a lemma with its parameters, and the parameter behind `on`.
ghost use Rattle.std.specs.Prelude.{◌≡◌, OnOk, IfOk, List, ◌∷◌, option_copied};
ghost use Rattle.tht_tree.specs.Walk.Names.{with_name, with_parts, other_params, param_number as number_of};
ghost use Rattle.tht_tree.specs.Walk.Decls.{with_logic, new_logic, in_case, on_parameter as on_parameter_code};
ghost use Rattle.tht_tree.specs.declared.decl.Param.{Param as TheParam};
ghost use Rattle.term_walk.specs.Scopes.{scope_of, unbound};
ghost use Rattle.name_walk.specs.Params.{others_left};

use sqlite_items::Items;
use std::alloc::{AllocError, Global};
use term_walk::findings::clash;
use term_walk::params::{bind_params, param_number};
use term_walk::scope::{Scope, Shadow};
use tht_tree::decl::Param;
use tht_tree::plain::{Name, Sort};
use tht_tree::walk::{Class, Naming, WalkCode};

/// What is refused in a construct itself, where there is memory to tell.
pub(crate) type Coded = Result<Option<WalkCode>, AllocError>;

// ---- names and parameters in scope

/// Brings a predicate or a lemma into scope, and its parameters behind it. The result is what is refused in their names.
pub(crate) fn enter(
    name: &Name,
    class: Class,
    params: &[Param],
    scope: &mut Scope,
    bound: &mut Items<Shadow>,
) -> Coded
    ensures ok { IfOk result (λ c. c ≡ new_logic (with_name (scope_of scope.old) name.now class) params.now) }
    ensures known { OnOk result (scope_of scope.new ≡ with_logic (with_name (scope_of scope.old) name.now class) params.now) }
    ensures outer { OnOk result (unbound (scope_of scope.new) bound.new ≡ unbound (scope_of scope.old) bound.old) }
{
    scope.bind_in(name, class, bound)?;
    bind_params(false, params, scope, bound)
}

/// The same in a case behind `on`, where the parameter behind `on` is replaced, and so is not in scope.
pub(crate) fn enter_case(
    name: &Name,
    class: Class,
    on: &Name,
    params: &[Param],
    scope: &mut Scope,
    bound: &mut Items<Shadow>,
) -> Result<(), AllocError>
    ensures known { OnOk result (scope_of scope.new ≡ in_case (with_name (scope_of scope.old) name.now class) on.now params.now) }
    ensures outer { OnOk result (unbound (scope_of scope.new) bound.new ≡ unbound (scope_of scope.old) bound.old) }
{
    scope.bind_in(name, class, bound)?;
    bind_others(on, params, scope, bound)
}

// Brings the parameters into scope but for the one with this name.
fn bind_others(
    name: &Name,
    params: &[Param],
    scope: &mut Scope,
    bound: &mut Items<Shadow>,
) -> Result<(), AllocError>
    ensures known { OnOk result (scope_of scope.new ≡ with_logic (scope_of scope.old) (other_params name.now params.now)) }
    ensures outer { OnOk result (unbound (scope_of scope.new) bound.new ≡ unbound (scope_of scope.old) bound.old) }
{
    let mut replaced = false;
    for param in params {
        replaced = bind_other(name, replaced, param, scope, bound)?;
    }
    Ok(())
}

// Brings a parameter into scope, but for the first with this name. The result is whether that one has been met.
fn bind_other(
    name: &Name,
    replaced: bool,
    param: &Param,
    scope: &mut Scope,
    bound: &mut Items<Shadow>,
) -> Result<bool, AllocError>
    ensures known { IfOk result (λ met. (rest : List TheParam) → with_logic (scope_of scope.new) (others_left met name.now rest) ≡ with_logic (scope_of scope.old) (others_left replaced name.now (param.now ∷ rest))) }
    ensures outer { OnOk result (unbound (scope_of scope.new) bound.new ≡ unbound (scope_of scope.old) bound.old) }
{
    if replaced {
        scope.bind_in(&param.name, Class::Logic(param.sort), bound)?;
        return Ok(true);
    }
    if name.as_str() == param.name.as_str() {
        return Ok(true);
    }
    scope.bind_in(&param.name, Class::Logic(param.sort), bound)?;
    Ok(false)
}

/// What is refused in the names of the parameters of a predicate or a lemma.
pub(crate) fn new_variables(
    alloc: Global,
    name: &Name,
    class: Class,
    params: &[Param],
    scope: &mut Scope,
) -> Coded
    ensures ok { IfOk result (λ c. c ≡ new_logic (with_name (scope_of scope.old) name.now class) params.now) }
    ensures same { OnOk result (scope_of scope.new ≡ scope_of scope.old) }
{
    let mut bound = Items::new(alloc);
    let code = enter(name, class, params, scope, &mut bound)?;
    scope.unbind_all(bound)?;
    Ok(code)
}

/// The parameter behind `on` of a predicate or a lemma has this sort.
pub(crate) fn on_variable(
    alloc: Global,
    name: &Name,
    class: Class,
    params: &[Param],
    on: &Name,
    sort: Sort,
    scope: &mut Scope,
) -> Coded
    ensures ok { IfOk result (λ c. c ≡ on_parameter_code sort (with_logic (with_name (scope_of scope.old) name.now class) params.now on.now)) }
    ensures same { OnOk result (scope_of scope.new ≡ scope_of scope.old) }
{
    let mut bound = Items::new(alloc);
    let _ = enter(name, class, params, scope, &mut bound)?;
    let code = on_parameter(sort, scope.get(on));
    scope.unbind_all(bound)?;
    Ok(code)
}

// The parameter behind `on` has this sort.
fn on_parameter(sort: Sort, class: Option<&Class>) -> Option<WalkCode>
    ensures { result ≡ on_parameter_code sort (option_copied class.entry) }
{
    match class {
        Some(Class::Logic(found)) => clash(sort, Some(*found)),
        Some(_) => Some(WalkCode::N3),
        None => Some(WalkCode::N1),
    }
}

/// Brings the head and the tail of a sequence into scope.
pub(crate) fn bind_parts(
    head: &Name,
    tail: &Name,
    scope: &mut Scope,
    bound: &mut Items<Shadow>,
) -> Result<(), AllocError>
    ensures known { OnOk result (scope_of scope.new ≡ with_parts (scope_of scope.old) head.now tail.now) }
    ensures outer { OnOk result (unbound (scope_of scope.new) bound.new ≡ unbound (scope_of scope.old) bound.old) }
{
    scope.bind_in(head, Class::Logic(Sort::Nat), bound)?;
    scope.bind_in(tail, Class::Logic(Sort::Seq), bound)
}

/// The second case behind `on`: the argument behind `on` is this variable.
pub(crate) fn only(on: &Name, params: &[Param], variable: &Name) -> Result<Naming, AllocError>
    ensures { IfOk result (λ n. n ≡ Naming.Only (number_of on.now params.now) variable.now) }
{
    let argument = param_number(on, params);
    let variable = variable.copy()?;
    Ok(Naming::Only { argument, variable })
}
