// The names and sorts of txns and procs.
ghost use Rattle.std.specs.Prelude.{◌≡◌, OnOk, IfOk};
ghost use Rattle.tht_tree.specs.declared.walk.Where.TheVariants.{Inside, Outside};
ghost use Rattle.tht_tree.specs.Walk.Codes.{construct};
ghost use Rattle.tht_tree.specs.Walk.Bodies.{frame, body as the_body};
ghost use Rattle.tht_tree.specs.Walk.Decls.{signature as the_signature, with_txn, with_proc, in_command, head_code, txn_code, proc_code};
ghost use Rattle.term_walk.specs.Scopes.{scope_of, unbound};

use crate::bodies::walk_body;
use crate::heads::Coded;
use crate::placing::{new_result, private_box, result_box};
use sqlite_items::Items;
use std::alloc::{AllocError, Global};
use term_walk::assns::walk_assn;
use term_walk::codes::{Walked, first, refuse};
use term_walk::kinds::private_only;
use term_walk::params::{all_storable, bind_params, sorts_of};
use term_walk::scope::{Scope, Shadow};
use term_walk::terms::new_name;
use tht_tree::body::Body;
use tht_tree::decl::Head;
use tht_tree::plain::Spot;
use tht_tree::walk::{Class, Frame, Signature, Where};

/// What is refused in a txn at this place.
pub(crate) fn walk_txn(
    alloc: Global,
    head: &Head,
    body: &Body,
    spot: Spot,
    scope: &mut Scope,
) -> Walked
    ensures ok { IfOk result (λ r. r ≡ construct spot (txn_code head.now (scope_of scope.old))
        (the_body body.now (frame Inside head.now.sort) (in_command head.now (with_txn (scope_of scope.old) head.now)))) }
    ensures same { OnOk result (scope_of scope.new ≡ scope_of scope.old) }
{
    let mut bound = Items::new(alloc);
    let refusal = txn_parts(alloc, head, body, spot, scope, &mut bound)?;
    scope.unbind_all(bound)?;
    Ok(refusal)
}

/// What is refused in a proc at this place.
pub(crate) fn walk_proc(
    alloc: Global,
    head: &Head,
    body: &Body,
    spot: Spot,
    scope: &mut Scope,
) -> Walked
    ensures ok { IfOk result (λ r. r ≡ construct spot (proc_code head.now (scope_of scope.old))
        (the_body body.now (frame Outside head.now.sort) (in_command head.now (with_proc (scope_of scope.old) head.now)))) }
    ensures same { OnOk result (scope_of scope.new ≡ scope_of scope.old) }
{
    let mut bound = Items::new(alloc);
    let refusal = proc_parts(alloc, head, body, spot, scope, &mut bound)?;
    scope.unbind_all(bound)?;
    Ok(refusal)
}

// ---- what they stand for

pub(crate) fn txn_class(alloc: Global, head: &Head) -> Result<Class, AllocError>
    ensures { IfOk result (λ c. c ≡ Class.Txn (the_signature head.now)) }
{
    Ok(Class::Txn(signature(alloc, head)?))
}

pub(crate) fn proc_class(alloc: Global, head: &Head) -> Result<Class, AllocError>
    ensures { IfOk result (λ c. c ≡ Class.Proc (the_signature head.now)) }
{
    Ok(Class::Proc(signature(alloc, head)?))
}

fn signature(alloc: Global, head: &Head) -> Result<Signature, AllocError>
    ensures { IfOk result (λ s. s ≡ the_signature head.now) }
{
    let params = sorts_of(alloc, head.params.as_slice())?;
    let logic = sorts_of(alloc, head.logic.as_slice())?;
    Ok(Signature {
        params,
        logic,
        result: head.sort,
    })
}

// ---- their parts, of which the names stay in scope

fn txn_parts(
    alloc: Global,
    head: &Head,
    body: &Body,
    spot: Spot,
    scope: &mut Scope,
    bound: &mut Items<Shadow>,
) -> Walked
    ensures ok { IfOk result (λ r. r ≡ construct spot (txn_code head.now (scope_of scope.old))
        (the_body body.now (frame Inside head.now.sort) (in_command head.now (with_txn (scope_of scope.old) head.now)))) }
    ensures outer { OnOk result (unbound (scope_of scope.new) bound.new ≡ unbound (scope_of scope.old) bound.old) }
{
    match txn_own(alloc, head, scope, bound)? {
        Some(code) => refuse(spot, code),
        None => walk_body(alloc, body, in_head(Where::Inside, head), scope),
    }
}

fn proc_parts(
    alloc: Global,
    head: &Head,
    body: &Body,
    spot: Spot,
    scope: &mut Scope,
    bound: &mut Items<Shadow>,
) -> Walked
    ensures ok { IfOk result (λ r. r ≡ construct spot (proc_code head.now (scope_of scope.old))
        (the_body body.now (frame Outside head.now.sort) (in_command head.now (with_proc (scope_of scope.old) head.now)))) }
    ensures outer { OnOk result (unbound (scope_of scope.new) bound.new ≡ unbound (scope_of scope.old) bound.old) }
{
    match proc_own(alloc, head, scope, bound)? {
        Some(code) => refuse(spot, code),
        None => walk_body(alloc, body, in_head(Where::Outside, head), scope),
    }
}

// Where the body stands, and the sort of what it returns.
fn in_head(place: Where, head: &Head) -> Frame
    ensures { result ≡ frame place head.now.sort }
{
    Frame {
        place,
        result: head.sort,
    }
}

// Pre- and postcondition of a txn are of any kind.
fn txn_own(alloc: Global, head: &Head, scope: &mut Scope, bound: &mut Items<Shadow>) -> Coded
    ensures ok { IfOk result (λ c. c ≡ txn_code head.now (scope_of scope.old)) }
    ensures known { OnOk result (scope_of scope.new ≡ in_command head.now (with_txn (scope_of scope.old) head.now)) }
    ensures outer { OnOk result (unbound (scope_of scope.new) bound.new ≡ unbound (scope_of scope.old) bound.old) }
{
    let name = new_name(scope, &head.name);
    let class = txn_class(alloc, head)?;
    scope.bind_in(&head.name, class, bound)?;
    let own = walk_head(head, scope, bound)?;
    let post = result_box(scope, &head.result, head.sort, &head.post)?;
    Ok(first(name, first(own, post)))
}

// Those of a proc speak of private cells alone.
fn proc_own(alloc: Global, head: &Head, scope: &mut Scope, bound: &mut Items<Shadow>) -> Coded
    ensures ok { IfOk result (λ c. c ≡ proc_code head.now (scope_of scope.old)) }
    ensures known { OnOk result (scope_of scope.new ≡ in_command head.now (with_proc (scope_of scope.old) head.now)) }
    ensures outer { OnOk result (unbound (scope_of scope.new) bound.new ≡ unbound (scope_of scope.old) bound.old) }
{
    let name = new_name(scope, &head.name);
    let class = proc_class(alloc, head)?;
    scope.bind_in(&head.name, class, bound)?;
    let pre = private_only(scope, &head.pre);
    let own = walk_head(head, scope, bound)?;
    let post = private_box(scope, &head.result, head.sort, &head.post)?;
    Ok(first(name, first(own, first(pre, post))))
}

// The parameters, the logical variables, the precondition, and the name of the result, which is known in the postcondition
// alone.
fn walk_head(head: &Head, scope: &mut Scope, bound: &mut Items<Shadow>) -> Coded
    ensures ok { IfOk result (λ c. c ≡ head_code head.now (scope_of scope.old)) }
    ensures known { OnOk result (scope_of scope.new ≡ in_command head.now (scope_of scope.old)) }
    ensures outer { OnOk result (unbound (scope_of scope.new) bound.new ≡ unbound (scope_of scope.old) bound.old) }
{
    let params = bind_params(true, head.params.as_slice(), scope, bound)?;
    let held = all_storable(head.params.as_slice());
    let logic = bind_params(false, head.logic.as_slice(), scope, bound)?;
    let names = first(params, first(held, logic));
    let pre = walk_assn(&head.pre, scope)?;
    let result = new_result(scope, &head.result, head.sort);
    Ok(first(names, first(pre, result)))
}
