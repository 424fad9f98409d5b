//! The names and sorts of a proof step, and what is known after it.
ghost use Rattle.std.specs.Prelude.{◌≡◌, OnOk, IfOk};
ghost use Rattle.tht_tree.specs.Walk.Codes.{construct};
ghost use Rattle.tht_tree.specs.Walk.Proofs.{proof as the_proof};
ghost use Rattle.tht_tree.specs.Walk.Gives.{give as the_give};
ghost use Rattle.tht_tree.specs.Walk.Steps.{step as the_step, after_step};
ghost use Rattle.term_walk.specs.Scopes.{scope_of, unbound};

use self::StepKind as Kind;
use crate::codes::{Walked, at, first, refuse};
use crate::gives::walk_give;
use crate::proofs::walk_proof;
use crate::scope::{Scope, Shadow};
use crate::terms::{any_term, formula, lemma, new_name, predicate};
use sqlite_items::Items;
use std::alloc::AllocError;
use tht_tree::give::Give;
use tht_tree::plain::Spot;
use tht_tree::proof::Proof;
use tht_tree::step::{Step, StepKind};
use tht_tree::walk::{Class, WalkCode};

/// The first refusal in a proof step. The scope is then as it was.
pub fn walk_step(step: &Step, scope: &mut Scope) -> Walked
    ensures ok { IfOk result (λ r. r ≡ the_step step.now (scope_of scope.old)) }
    ensures same { OnOk result (scope_of scope.new ≡ scope_of scope.old) }
{
    let spot = step.spot;
    match &step.kind {
        Kind::Have(h, t, p) => {
            let own = first(new_name(scope, h), formula(scope, t.get()));
            with_proof(p, own, spot, scope)
        }
        Kind::OpenVar(_, x, _) => Ok(at(spot, new_name(scope, x))),
        Kind::OpenFact(_, h) => Ok(at(spot, new_name(scope, h))),
        Kind::Unfold(_) => Ok(None),
        Kind::Fold(p, ts, g) => with_give(g, predicate(scope, p, ts), spot, scope),
        Kind::Rewrite(_, _, t, p) => with_proof(p, any_term(scope, t.get()), spot, scope),
        Kind::Use(l, ts, g) => with_give(g, lemma(scope, l, ts), spot, scope),
    }
}

/// The first refusal in a construct at this place, with the code of its own, and a proof inside it.
pub fn with_proof(proof: &Proof, own: Option<WalkCode>, spot: Spot, scope: &mut Scope) -> Walked
    ensures ok { IfOk result (λ r. r ≡ construct spot own (the_proof proof.now (scope_of scope.old))) }
    ensures same { OnOk result (scope_of scope.new ≡ scope_of scope.old) }
{
    match own {
        Some(code) => refuse(spot, code),
        None => walk_proof(proof, scope),
    }
}

/// The first refusal in a construct at this place, with the code of its own, and a give inside it.
pub fn with_give(give: &Give, own: Option<WalkCode>, spot: Spot, scope: &mut Scope) -> Walked
    ensures ok { IfOk result (λ r. r ≡ construct spot own (the_give give.now (scope_of scope.old))) }
    ensures same { OnOk result (scope_of scope.new ≡ scope_of scope.old) }
{
    match own {
        Some(code) => refuse(spot, code),
        None => walk_give(give, scope),
    }
}

/// Brings into scope what is known after a proof step.
pub fn bind_after_step(
    kind: &StepKind,
    scope: &mut Scope,
    bound: &mut Items<Shadow>,
) -> Result<(), AllocError>
    ensures known { OnOk result (scope_of scope.new ≡ after_step kind.now (scope_of scope.old)) }
    ensures outer { OnOk result (unbound (scope_of scope.new) bound.new ≡ unbound (scope_of scope.old) bound.old) }
{
    match kind {
        Kind::Have(h, _, _) => scope.bind_in(h, Class::Hypothesis, bound),
        Kind::OpenVar(_, x, sort) => scope.bind_in(x, Class::Logic(*sort), bound),
        Kind::OpenFact(_, h) => scope.bind_in(h, Class::Hypothesis, bound),
        Kind::Unfold(_) => Ok(()),
        Kind::Fold(_, _, _) => Ok(()),
        Kind::Rewrite(_, _, _, _) => Ok(()),
        Kind::Use(_, _, _) => Ok(()),
    }
}
