// The cell that a command names.
ghost use Rattle.std.specs.Prelude.{◌≡◌, ◌≤◌, All};
ghost use Rattle.tht_tree.specs.declared.term.Term.TheVariants.{Eq};
ghost use Rattle.tht_tree.specs.Rules.Context.{context_of};
ghost use Rattle.pure_terms.specs.Locals.{locals_of};
ghost use Rattle.pure_proofs.specs.Verdicts.{IsVerdict};
ghost use Rattle.hoare_rules.specs.Cells.{Agrees, MakesGoal, value_refused};
ghost use Rattle.hoare_rules.specs.Made.{IsMade};

use crate::atoms::cell_at;
use heap_rules::{pair_fits, refused};
use pure_proofs::{Known, Refusal, prove};
use pure_terms::{Scope, sort_in};
use sqlite_items::Boxed;
use std::alloc::Global;
use tht_tree::plain::{Sort, Spot};
use tht_tree::proof::Proof;
use tht_tree::rule::RuleCode;
use tht_tree::state::State;
use tht_tree::term::Term;

/// A cell as a command at this spot names it: by its place, the number of its atom, and the proof that the two agree.
#[derive(Clone, Copy)]
pub(crate) struct NamedCell<'a> {
    pub spot: Spot,
    pub place: &'a Term,
    pub number: u64,
    pub proof: &'a Proof,
}

/// Whether the command names a cell, of whose value this sort may be wanted. What is known stays as it was.
pub(crate) fn find_named(
    alloc: Global,
    known: &mut Known,
    cell: NamedCell<'_>,
    wanted: Option<Sort>,
) -> Result<(), Refusal>
    ensures agrees { Agrees result cell.entry wanted (context_of known.old.state) }
    ensures kept { context_of known.new.state ≡ context_of known.old.state }
{
    let goal = place_goal(alloc, &known.state, cell, wanted)?;
    prove(cell.proof, alloc, &[], known, &goal)
}

// The goal that the place that is named is that of the atom's cell.
fn place_goal(
    alloc: Global,
    state: &State,
    cell: NamedCell<'_>,
    wanted: Option<Sort>,
) -> Result<Term, Refusal>
    requires { All (λ a. a.0 ≤ state.now.made) state.now.atoms.entries }
    ensures { MakesGoal result cell.entry wanted (context_of state.now) }
{
    let found = cell_at(&state.atoms, state.made, cell.spot, cell.number)?;
    need_sort(cell.spot, found.value, wanted, &state.scope)?;
    equation(alloc, cell.spot, cell.place, found.place)
}

// Refused where the term has another sort than wanted.
fn need_sort(spot: Spot, term: &Term, wanted: Option<Sort>, scope: &Scope) -> Result<(), Refusal>
    ensures { IsVerdict result (value_refused spot (locals_of scope.now) wanted term.now) }
{
    match wanted {
        None => Ok(()),
        Some(sort) => match sort_in(term, &[], scope) {
            Some(found) if found == sort => Ok(()),
            _ => Err(refused(spot, RuleCode::R2)),
        },
    }
}

// The equation of the two terms, unless it is too large.
fn equation(alloc: Global, spot: Spot, a: &Term, b: &Term) -> Result<Term, Refusal>
    ensures { IsMade result spot (Eq a.now b.now) }
{
    if !pair_fits(a, b) {
        return Err(refused(spot, RuleCode::R10));
    }
    let a = Boxed::new(alloc, a.copy(alloc)?)?;
    let b = Boxed::new(alloc, b.copy(alloc)?)?;
    Ok(Term::Eq(a, b))
}
