// The rules of proofs that have no proof inside.
ghost use Rattle.std.specs.Prelude.{◌≡◌, ◌==◌, ◌&&◌, not, None, Some, MatchOption, IfOk};
ghost use Rattle.tht_tree.specs.declared.rule.RuleCode.TheVariants.{R1, R2, R5, R8};
ghost use Rattle.tht_tree.specs.declared.term.Term.{out-Term};
ghost use Rattle.tht_tree.specs.SameTree.{same_of, is_true as says_true};
ghost use Rattle.tht_tree.specs.Normal.Forms.{normal_term};
ghost use Rattle.tht_tree.specs.Rules.Context.{atom_at};
ghost use Rattle.tht_tree.specs.Rules.Known.{hyp_named, cell_place as place_of};
ghost use Rattle.tht_tree.specs.Rules.Proofs.{equation_of as equation_in, makes, needs_normal, needs_same_normal};
ghost use Rattle.tht_tree.specs.Rules.Refusals.{needs, needs_some, needs_two, ◌▸◌};
ghost use Rattle.tht_tree.specs.Rules.Shapes.{as_equation as equation_at, as_disequation as disequation_at, as_nonnull as nonnull_at};
ghost use Rattle.pure_proofs.specs.Formulas.{made_of};
ghost use Rattle.pure_proofs.specs.Said.{known_in};
ghost use Rattle.pure_proofs.specs.Verdicts.{without_lemmas};

use crate::forms::{normal_is_true, same_normal};
use crate::formulas::{Formula, make};
use crate::known::Known;
use crate::shapes::{Pair, as_disequation, as_equation, as_nonnull};
use crate::sorts::equation_of;
use crate::verdict::{Verdict, need, refuse};
use std::alloc::Global;
use tht_tree::assn::Assn;
use tht_tree::plain::{Name, Sort, Spot};
use tht_tree::rule::{RuleCode, RuleRefusal};
use tht_tree::term::{Term, same_term};

/// `hyp h`
#[tactic(auto, unfolding(crate::specs::Said::known_in))]
pub(crate) fn by_hypothesis(
    spot: Spot,
    name: &Name,
    known: &Known,
    goal: &Term,
) -> Option<RuleRefusal>
    ensures { result ≡ needs_some spot R5 (hyp_named name.now (known_in known.now.state).hyps) (λ u. needs spot R5 (same_of u goal.now)) }
{
    match known.hypothesis(name) {
        Some(formula) => need(spot, RuleCode::R5, same_term(formula, goal)),
        None => need(spot, RuleCode::R5, false),
    }
}

/// `refl`
pub(crate) fn by_reflexivity(spot: Spot, goal: &Term) -> Option<RuleRefusal>
    ensures { result ≡ needs_two spot R5 (equation_at goal.now) (λ a b. needs spot R5 (same_of a b)) }
{
    match as_equation(goal) {
        Some((a, b)) => need(spot, RuleCode::R5, same_term(a, b)),
        None => need(spot, RuleCode::R5, false),
    }
}

/// `calc`
#[tactic(auto, unfolding(crate::specs::Said::known_in))]
pub(crate) fn by_calculation(alloc: Global, spot: Spot, known: &Known, goal: &Term) -> Verdict
    ensures { IfOk result (λ r. r ≡ needs_normal spot (normal_term (known_in known.now.state).scope goal.now) (λ u. needs spot R8 (says_true (out-Term u)))) }
{
    normal_is_true(alloc, spot, &known.state.scope, goal)
}

/// The two terms have one normal form.
#[tactic(auto, unfolding(crate::specs::Said::known_in))]
pub(crate) fn have_one_form(alloc: Global, spot: Spot, known: &Known, a: &Term, b: &Term) -> Verdict
    ensures { IfOk result (λ r. r ≡ needs_same_normal spot (known_in known.now.state).scope a.now b.now) }
{
    same_normal(alloc, spot, &known.state.scope, a, b)
}

/// The formula, if it is not too large, is the goal.
pub(crate) fn makes_goal(alloc: Global, spot: Spot, formula: Formula<'_>, goal: &Term) -> Verdict
    ensures { IfOk result (λ r. r ≡ makes spot (made_of formula.entry) goal.now) }
{
    match make(formula, alloc)? {
        Some(made) => Ok(need(spot, RuleCode::R5, same_term(&made, goal))),
        None => refuse(spot, RuleCode::R10),
    }
}

/// The sides of an equation of this sort.
#[tactic(auto, unfolding(crate::specs::Said::known_in))]
pub(crate) fn sides<'a>(
    goal: &'a Term,
    sort: Sort,
    roots: &[Name],
    known: &Known,
) -> Option<Pair<'a>>
    ensures { let said = equation_in (without_lemmas roots.now) sort (known_in known.now.state).scope goal.now in
        MatchOption result (said ≡ None) (λ p. said ≡ Some (p.0.now, p.1.now)) }
{
    equation_of(goal, sort, roots, &known.state.scope)
}

// The place of an atom that is a cell.
fn cell_place(atom: &Assn) -> Option<&Term>
    ensures { MatchOption result (place_of atom.now ≡ None) (λ t. place_of atom.now ≡ Some t.now) }
{
    match atom {
        Assn::Own(place, _) => Some(place.get()),
        Assn::Shared(place, _) => Some(place.get()),
        _ => None,
    }
}

/// `apart i j`
#[tactic(auto, unfolding(crate::specs::Said::known_in))]
pub(crate) fn by_two_cells(
    spot: Spot,
    i: u64,
    j: u64,
    known: &Known,
    goal: &Term,
) -> Option<RuleRefusal>
    ensures { let atoms = (known_in known.now.state).atoms in result ≡ needs_two spot R5 (disequation_at goal.now) (λ a b.
        needs_some spot R1 (atom_at i atoms) (λ x. needs_some spot R1 (atom_at j atoms) (λ y.
        needs_some spot R2 (place_of x) (λ s. needs_some spot R2 (place_of y) (λ u.
        needs spot R5 (not (i == j)) ▸ needs spot R5 (same_of s a && same_of u b)))))) }
{
    let Some((a, b)) = as_disequation(goal) else {
        return need(spot, RuleCode::R5, false);
    };
    let Some(x) = known.atom(i) else {
        return need(spot, RuleCode::R1, false);
    };
    let Some(y) = known.atom(j) else {
        return need(spot, RuleCode::R1, false);
    };
    let Some(s) = cell_place(x) else {
        return need(spot, RuleCode::R2, false);
    };
    let Some(u) = cell_place(y) else {
        return need(spot, RuleCode::R2, false);
    };
    if i == j {
        return need(spot, RuleCode::R5, false);
    }
    need(spot, RuleCode::R5, same_term(s, a) && same_term(u, b))
}

/// `nonnull i`
#[tactic(auto, unfolding(crate::specs::Said::known_in))]
pub(crate) fn by_one_cell(
    spot: Spot,
    number: u64,
    known: &Known,
    goal: &Term,
) -> Option<RuleRefusal>
    ensures { result ≡ needs_some spot R5 (nonnull_at goal.now) (λ a.
        needs_some spot R1 (atom_at number (known_in known.now.state).atoms) (λ x. needs_some spot R2 (place_of x) (λ s. needs spot R5 (same_of s a)))) }
{
    let Some(place) = as_nonnull(goal) else {
        return need(spot, RuleCode::R5, false);
    };
    let Some(atom) = known.atom(number) else {
        return need(spot, RuleCode::R1, false);
    };
    let Some(held) = cell_place(atom) else {
        return need(spot, RuleCode::R2, false);
    };
    need(spot, RuleCode::R5, same_term(held, place))
}
