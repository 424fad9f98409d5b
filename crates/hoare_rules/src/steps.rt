// Proof steps among the statements.
ghost use Rattle.tht_tree.specs.Rules.Context.{context_of};
ghost use Rattle.tht_logic.specs.Rules.Steps.{after_step};
ghost use Rattle.heap_rules.specs.Declarations.{declared_by};
ghost use Rattle.hoare_rules.specs.Cells.{Says};

use crate::atoms::ascend;
use heap_rules::{Predicates, take_step};
use pure_proofs::{Known, Refusal};
use std::alloc::Global;
use tht_tree::step::Step;

/// Goes on over a proof step.
#[tactic(auto, using(crate::proofs::Following::follows_says))]
pub(crate) fn check_step(
    alloc: Global,
    known: &mut Known,
    predicates: &Predicates<'_>,
    step: &Step,
) -> Result<(), Refusal>
    ensures { Says result (after_step (declared_by predicates.now) (context_of known.old.state) step.now) (context_of known.new.state) }
{
    ascend(&known.state.atoms);
    take_step(alloc, known, predicates, step)
}
