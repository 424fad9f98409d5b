// Results with the atoms that come with them.
ghost use Rattle.std.specs.Prelude.{◌≡◌};
ghost use Rattle.tht_tree.specs.Rules.Context.{context_of};
ghost use Rattle.tht_logic.specs.Rules.Calls.{with_result};
ghost use Rattle.hoare_rules.specs.Cells.{Says};

use heap_rules::{add_atoms, bind, has_room, refused};
use pure_proofs::{Known, Refusal};
use std::alloc::Global;
use tht_tree::assn::Assn;
use tht_tree::plain::{Name, Sort, Spot};
use tht_tree::rule::RuleCode;
use tht_tree::state::Local;

/// A result, of a call or an inner body, at its spot.
#[derive(Clone, Copy)]
pub(crate) struct Outcome<'a> {
    pub spot: Spot,
    pub name: &'a Name,
    pub sort: Sort,
}

/// A result with this name and sort.
pub(crate) fn outcome_of(spot: Spot, name: &Name, sort: Sort) -> Outcome<'_>
    ensures spot { result.spot ≡ spot }
    ensures name { result.name.now ≡ name.now }
    ensures sort { result.sort ≡ sort }
{
    Outcome { spot, name, sort }
}

/// The result has a name, and the atoms of the assertion are there.
pub(crate) fn add_outcome(
    alloc: Global,
    known: &mut Known,
    outcome: Outcome<'_>,
    assn: Assn,
) -> Result<(), Refusal>
    ensures { Says result (with_result outcome.entry.spot (context_of known.old.state) outcome.entry.name.now outcome.entry.sort assn) (context_of known.new.state) }
{
    if !has_room(known.nodes, known.state.made, &assn) {
        return Err(refused(outcome.spot, RuleCode::R10));
    }
    bind(alloc, known, outcome.name, Local::Variable(outcome.sort))?;
    add_atoms(assn, known)
}
