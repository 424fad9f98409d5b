// The names and sorts of declarations, and what is known after each.
ghost use Rattle.std.specs.Prelude.{◌≡◌, OnOk, IfOk, true, option_copied};
ghost use Rattle.tht_tree.specs.declared.walk.Class.TheVariants as n;
ghost use Rattle.tht_tree.specs.declared.walk.Naming.TheVariants.{Anywhere};
ghost use Rattle.tht_tree.specs.Walk.Names.{with_name};
ghost use Rattle.tht_tree.specs.Walk.Decls.{initial as initial_code, root_value as root_value_code, root_code, invariant_code};
ghost use Rattle.tht_tree.specs.Walk.Decls.{with_predicate, with_lemma, with_txn, with_proc, decl_kind, after_decl};
ghost use Rattle.term_walk.specs.Scopes.{scope_of};
ghost use Rattle.name_walk.specs.Known.{before_of};

use crate::commands::{proc_class, txn_class, walk_proc, walk_txn};
use crate::heads::Coded;
use crate::lemmas::{lemma_class, walk_lemma};
use crate::predicates::{Pred, by_cases, cases_of, plain, pred_of, predicate_class};
use std::alloc::{AllocError, Global};
use term_walk::assns::walk_assn;
use term_walk::codes::{Walked, at, first, unless};
use term_walk::findings::clash;
use term_walk::kinds::shared_only;
use term_walk::scope::Scope;
use term_walk::steps::with_give;
use term_walk::terms::new_name;
use tht_tree::assn::Assn;
use tht_tree::decl::{Decl, DeclKind, Head, Initial, Lemma};
use tht_tree::plain::{Name, Sort};
use tht_tree::walk::{Class, Naming, WalkCode};

/// What stands before a declaration, beside the names in scope: an invariant, and a txn or a proc.
#[derive(Clone, Copy)]
pub(crate) struct Seen {
    pub invariant: bool,
    pub commands: bool,
}

/// What is refused in a declaration of a file that has an invariant, or has none.
pub(crate) fn walk_decl(
    alloc: Global,
    decl: &Decl,
    with_invariant: bool,
    seen: Seen,
    scope: &mut Scope,
) -> Walked
    ensures ok { IfOk result (λ r. r ≡ decl_kind with_invariant decl.now.kind decl.now.spot (before_of seen (scope_of scope.old))) }
    ensures same { OnOk result (scope_of scope.new ≡ scope_of scope.old) }
{
    let spot = decl.spot;
    match &decl.kind {
        DeclKind::Root(x, sort, value) => {
            let own = root(scope, x, *sort, value, with_invariant, seen);
            Ok(at(spot, own))
        }
        DeclKind::Invariant(a, g) => {
            let own = invariant(a, seen, scope)?;
            with_give(g, own, spot, scope)
        }
        DeclKind::Pred(access, p, params, a) => {
            let pred = pred_of(*access, p, params.as_slice());
            Ok(at(spot, plain(alloc, &pred, a, scope)?))
        }
        DeclKind::PredOn(access, p, params, on, nil, head, tail, cons) => {
            let pred = pred_of(*access, p, params.as_slice());
            let cases = cases_of(on, nil, head, tail, cons);
            Ok(at(spot, by_cases(alloc, &pred, &cases, scope)?))
        }
        DeclKind::Lemma(lemma) => walk_lemma(alloc, lemma.get(), scope),
        DeclKind::Txn(head, body) => walk_txn(alloc, head.get(), body.get(), spot, scope),
        DeclKind::Proc(head, body) => walk_proc(alloc, head.get(), body.get(), spot, scope),
    }
}

// ---- what is known behind a declaration

/// Brings into scope what is known after a declaration. The result is what stands before the next one.
pub(crate) fn declare(
    alloc: Global,
    decl: &Decl,
    seen: Seen,
    scope: &mut Scope,
) -> Result<Seen, AllocError>
    ensures { IfOk result (λ s. before_of s (scope_of scope.new) ≡ after_decl decl.now.kind (before_of seen (scope_of scope.old))) }
{
    match &decl.kind {
        DeclKind::Root(x, _, _) => bind_before(x, Class::Root, seen, scope),
        DeclKind::Invariant(_, _) => Ok(behind_invariant(seen)),
        DeclKind::Pred(access, p, params, _) => {
            let pred = pred_of(*access, p, params.as_slice());
            declare_pred(alloc, &pred, seen, scope)
        }
        DeclKind::PredOn(access, p, params, _, _, _, _, _) => {
            let pred = pred_of(*access, p, params.as_slice());
            declare_pred(alloc, &pred, seen, scope)
        }
        DeclKind::Lemma(lemma) => declare_lemma(alloc, lemma.get(), seen, scope),
        DeclKind::Txn(head, _) => declare_txn(alloc, head.get(), seen, scope),
        DeclKind::Proc(head, _) => declare_proc(alloc, head.get(), seen, scope),
    }
}

// Brings a name into scope, with what was seen.
fn bind_before(name: &Name, class: Class, seen: Seen, scope: &mut Scope) -> Result<Seen, AllocError>
    ensures { IfOk result (λ s. before_of s (scope_of scope.new) ≡ before_of seen (with_name (scope_of scope.old) name.now class)) }
{
    let _ = scope.bind(name, class)?;
    Ok(seen)
}

fn behind_invariant(seen: Seen) -> Seen
    ensures { result ≡ record { invariant = true; commands = seen.commands } }
{
    Seen {
        invariant: true,
        commands: seen.commands,
    }
}

fn behind_command(seen: Seen) -> Seen
    ensures { result ≡ record { invariant = seen.invariant; commands = true } }
{
    Seen {
        invariant: seen.invariant,
        commands: true,
    }
}

fn declare_pred(
    alloc: Global,
    pred: &Pred<'_>,
    seen: Seen,
    scope: &mut Scope,
) -> Result<Seen, AllocError>
    ensures { IfOk result (λ s. before_of s (scope_of scope.new) ≡ before_of seen (with_predicate (scope_of scope.old) pred.now.access pred.now.name.now pred.now.params.now Anywhere)) }
{
    let class = predicate_class(alloc, pred, Naming::Anywhere)?;
    bind_before(pred.name, class, seen, scope)
}

fn declare_lemma(
    alloc: Global,
    lemma: &Lemma,
    seen: Seen,
    scope: &mut Scope,
) -> Result<Seen, AllocError>
    ensures { IfOk result (λ s. before_of s (scope_of scope.new) ≡ before_of seen (with_lemma (scope_of scope.old) lemma.now Anywhere)) }
{
    let class = lemma_class(alloc, lemma, Naming::Anywhere)?;
    bind_before(&lemma.name, class, seen, scope)
}

fn declare_txn(
    alloc: Global,
    head: &Head,
    seen: Seen,
    scope: &mut Scope,
) -> Result<Seen, AllocError>
    ensures { IfOk result (λ s. before_of s (scope_of scope.new) ≡ before_of (record { invariant = seen.invariant; commands = true }) (with_txn (scope_of scope.old) head.now)) }
{
    let class = txn_class(alloc, head)?;
    bind_before(&head.name, class, behind_command(seen), scope)
}

fn declare_proc(
    alloc: Global,
    head: &Head,
    seen: Seen,
    scope: &mut Scope,
) -> Result<Seen, AllocError>
    ensures { IfOk result (λ s. before_of s (scope_of scope.new) ≡ before_of (record { invariant = seen.invariant; commands = true }) (with_proc (scope_of scope.old) head.now)) }
{
    let class = proc_class(alloc, head)?;
    bind_before(&head.name, class, behind_command(seen), scope)
}

// ---- roots and the invariant

// N6: a root stands in a file with an invariant, N5: before it.
fn root(
    scope: &Scope,
    name: &Name,
    sort: Sort,
    value: &Initial,
    with_invariant: bool,
    seen: Seen,
) -> Option<WalkCode>
    ensures { result ≡ root_code with_invariant name.now sort value.now (before_of seen (scope_of scope.now)) }
{
    let value = first(new_name(scope, name), initial(scope, name, sort, value));
    let order = first(
        unless(!seen.invariant, WalkCode::N5),
        unless(with_invariant, WalkCode::N6),
    );
    first(value, order)
}

// The first value of a root: a literal, or the place of a root that is known, itself included.
fn initial(scope: &Scope, name: &Name, sort: Sort, value: &Initial) -> Option<WalkCode>
    ensures { result ≡ initial_code (with_name (scope_of scope.now) name.now n.Root) sort value.now }
{
    match value {
        Initial::Num(_) => clash(sort, Some(Sort::Nat)),
        Initial::True => clash(sort, Some(Sort::Bool)),
        Initial::False => clash(sort, Some(Sort::Bool)),
        Initial::Null => clash(sort, Some(Sort::Loc)),
        Initial::Unit => clash(sort, Some(Sort::Unit)),
        Initial::Root(x) => place_of_root(scope, name, sort, x),
    }
}

fn place_of_root(scope: &Scope, itself: &Name, sort: Sort, name: &Name) -> Option<WalkCode>
    ensures { result ≡ root_value_code sort (with_name (scope_of scope.now) itself.now n.Root name.now) }
{
    if itself.as_str() == name.as_str() {
        clash(sort, Some(Sort::Loc))
    } else {
        root_value(sort, scope.get(name))
    }
}

fn root_value(sort: Sort, class: Option<&Class>) -> Option<WalkCode>
    ensures { result ≡ root_value_code sort (option_copied class.entry) }
{
    match class {
        Some(Class::Root) => clash(sort, Some(Sort::Loc)),
        Some(_) => Some(WalkCode::N3),
        None => Some(WalkCode::N1),
    }
}

fn invariant(assn: &Assn, seen: Seen, scope: &mut Scope) -> Coded
    ensures ok { IfOk result (λ c. c ≡ invariant_code assn.now (before_of seen (scope_of scope.old))) }
    ensures same { OnOk result (scope_of scope.new ≡ scope_of scope.old) }
{
    let code = walk_assn(assn, scope)?;
    let order = unless(!(seen.invariant || seen.commands), WalkCode::N5);
    Ok(first(code, first(shared_only(scope, assn), order)))
}
