// Normal forms of goals.
ghost use Rattle.std.specs.Prelude.{◌≡◌, IfOk};
ghost use Rattle.tht_tree.specs.declared.rule.RuleCode.TheVariants.{R8};
ghost use Rattle.tht_tree.specs.SameTree.{same_of, is_true as says_true};
ghost use Rattle.tht_tree.specs.declared.term.Term.{out-Term};
ghost use Rattle.tht_tree.specs.Normal.Forms.{normal_term};
ghost use Rattle.tht_tree.specs.Rules.Refusals.{needs};
ghost use Rattle.tht_tree.specs.Rules.Proofs.{needs_normal, needs_same_normal};
ghost use Rattle.pure_terms.specs.Locals.{locals_of};
ghost use Rattle.pure_proofs.specs.Verdicts.{IsEndOf};

use crate::shapes::is_true;
use crate::verdict::{Verdict, need, refuse};
use pure_terms::{Scope, normal};
use std::alloc::Global;
use tht_tree::form::NormalEnd;
use tht_tree::plain::{Memory, Spot};
use tht_tree::rule::RuleCode;
use tht_tree::term::{Term, same_term};

/// What is refused where a term has no normal form, or a comparison no inequality.
pub(crate) fn no_form(spot: Spot, end: NormalEnd) -> Verdict
    ensures { IfOk result (λ r. IsEndOf end spot r) }
{
    match end {
        NormalEnd::Large => refuse(spot, RuleCode::R10),
        NormalEnd::Wide => refuse(spot, RuleCode::R7),
        NormalEnd::Memory => Err(Memory),
    }
}

/// The goal's normal form is `true`.
pub(crate) fn normal_is_true(alloc: Global, spot: Spot, scope: &Scope, goal: &Term) -> Verdict
    ensures { IfOk result (λ r. r ≡ needs_normal spot (normal_term (locals_of scope.now) goal.now) (λ u. needs spot R8 (says_true (out-Term u)))) }
{
    match normal(alloc, scope, goal) {
        Ok(form) => Ok(need(spot, RuleCode::R8, is_true(&form))),
        Err(end) => no_form(spot, end),
    }
}

/// Two terms have one normal form.
pub(crate) fn same_normal(alloc: Global, spot: Spot, scope: &Scope, a: &Term, b: &Term) -> Verdict
    ensures { IfOk result (λ r. r ≡ needs_same_normal spot (locals_of scope.now) a.now b.now) }
{
    match normal(alloc, scope, a) {
        Ok(form) => normal_is(alloc, spot, scope, b, &form),
        Err(end) => no_form(spot, end),
    }
}

// The term's normal form is this one.
fn normal_is(alloc: Global, spot: Spot, scope: &Scope, term: &Term, form: &Term) -> Verdict
    ensures { IfOk result (λ r. r ≡ needs_normal spot (normal_term (locals_of scope.now) term.now) (λ w. needs spot R8 (same_of form.now w))) }
{
    match normal(alloc, scope, term) {
        Ok(other) => Ok(need(spot, RuleCode::R8, same_term(form, &other))),
        Err(end) => no_form(spot, end),
    }
}
