// The calls on gives and proof steps.
ghost use Rattle.std.specs.Prelude.{◌≡◌, OnErr, OnOk};
ghost use Rattle.tht_tree.specs.Rules.Context.{context_of};
ghost use Rattle.tht_logic.specs.Rules.Gives.{after_give};
ghost use Rattle.tht_logic.specs.Rules.Steps.{after_step};
ghost use Rattle.heap_rules.specs.Declarations.{declared_by};
ghost use Rattle.heap_rules.specs.Following.{Follows};
ghost use Rattle.heap_rules.specs.Sound.{SplitsHeaps, KeepsHeaps};

use crate::gives::consume_given;
use crate::places::Predicates;
use crate::steps::change_by;
use pure_proofs::{Known, Refusal};
use std::alloc::Global;
use tht_tree::assn::Assn;
use tht_tree::give::Give;
use tht_tree::step::Step;

/// Consumes the atoms by which the give proves the goal, each once. After an `Err` what is known is as it was.
///
/// Beside the work on proofs, the time is at most in proportion to the size of the give, of the atoms that it names and of what is
/// made on the way, times the logarithm of the number of names and atoms.
#[tactic(auto, using(crate::proofs::Sound::give_is_sound))]
pub fn take_give(
    alloc: Global,
    known: &mut Known,
    predicates: &Predicates<'_>,
    give: &Give,
    goal: &Assn,
) -> Result<(), Refusal>
    ensures follows { Follows result (after_give (declared_by predicates.now) (context_of known.old.state) give.now goal.now) (context_of known.old.state) (context_of known.new.state) }
    ensures kept { OnErr result (context_of known.new.state ≡ context_of known.old.state) }
    ensures sound { OnOk result (SplitsHeaps (declared_by predicates.now) give.now goal.now (context_of known.old.state) (context_of known.new.state)) }
{
    consume_given(alloc, known, predicates, give, goal)
}

/// Takes a proof step. After an `Err` what is known is as it was.
///
/// Beside the work on proofs, the time is at most in proportion to the size of the step, of the atoms that it names and of
/// those that it adds, times the logarithm of the number of names and atoms.
#[tactic(auto, using(crate::proofs::Sound::step_is_sound))]
pub fn take_step(
    alloc: Global,
    known: &mut Known,
    predicates: &Predicates<'_>,
    step: &Step,
) -> Result<(), Refusal>
    ensures follows { Follows result (after_step (declared_by predicates.now) (context_of known.old.state) step.now) (context_of known.old.state) (context_of known.new.state) }
    ensures kept { OnErr result (context_of known.new.state ≡ context_of known.old.state) }
    ensures sound { OnOk result (KeepsHeaps (declared_by predicates.now) step.now (context_of known.old.state) (context_of known.new.state)) }
{
    change_by(alloc, known, predicates, step)
}
