// What is known before the body of a proc.
ghost use Rattle.std.specs.Prelude.{◌≡◌, OnOk, IfOk, IfErr};
ghost use Rattle.tht_tree.specs.Rules.Context.{context_of};
ghost use Rattle.tht_logic.specs.Flatten.{with_assn};
ghost use Rattle.tht_logic.specs.Rules.Checking.{if_fits};
ghost use Rattle.tht_logic.specs.Rules.Files.{at_start};
ghost use Rattle.hoare_rules.specs.Cells.{MakesState, Says};
ghost use Rattle.file_checker.specs.Starts.{in_head, with_bound};

use heap_rules::{add_atoms, assn_fits, bind, has_room, refused};
use pure_proofs::{Known, Refusal};
use sqlite_items::Items;
use std::alloc::Global;
use tht_tree::assn::Assn;
use tht_tree::decl::{Head, Param};
use tht_tree::plain::Spot;
use tht_tree::rule::RuleCode;
use tht_tree::state::{Local, State};

/// What is known before the body of a proc at this spot: its parameters and logical variables are in scope, and the atoms of its
/// precondition are there.
#[tactic(auto, using(crate::proofs::Starting::pre_large))]
pub(crate) fn state_at_start(alloc: Global, spot: Spot, head: &Head) -> Result<State, Refusal>
    ensures { MakesState result (at_start spot head.now) }
{
    if !assn_fits(&head.pre) {
        return Err(refused(spot, RuleCode::R10));
    }
    let mut known = known_in(alloc, head)?;
    add_assn(alloc, &mut known, spot, &head.pre)?;
    Ok(known.into_state())
}

// What is known in a proc before its precondition: its parameters and logical variables are in scope.
fn known_in(alloc: Global, head: &Head) -> Result<Known, Refusal>
    ensures ok { IfOk result (λ k. context_of k.state ≡ in_head head.now) }
    ensures memory { IfErr result (λ e. e ≡ Refusal.Memory) }
{
    let mut known = Known::new(alloc, State::new(alloc))?;
    bind_all(alloc, &mut known, &head.params)?;
    bind_all(alloc, &mut known, &head.logic)?;
    Ok(known)
}

// Brings variables into scope.
fn bind_all(alloc: Global, known: &mut Known, params: &Items<Param>) -> Result<(), Refusal>
    ensures ok { OnOk result (context_of known.new.state ≡ with_bound (context_of known.old.state) params.now) }
    ensures memory { IfErr result (λ e. e ≡ Refusal.Memory) }
{
    for param in params.as_slice() {
        bind(alloc, known, &param.name, Local::Variable(param.sort))?;
    }
    Ok(())
}

// Adds the atoms of an assertion, where what is known is not too large then.
fn add_assn(alloc: Global, known: &mut Known, spot: Spot, assn: &Assn) -> Result<(), Refusal>
    ensures { Says result (if_fits spot (with_assn assn.now (context_of known.old.state))) (context_of known.new.state) }
{
    if !has_room(known.nodes, known.state.made, assn) {
        return Err(refused(spot, RuleCode::R10));
    }
    add_atoms(assn.copy(alloc)?, known)
}
