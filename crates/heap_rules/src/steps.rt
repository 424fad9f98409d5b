// Proof steps.
ghost use Rattle.std.specs.Prelude.{◌≡◌, OnErr};
ghost use Rattle.tht_tree.specs.Rules.Context.{context_of};
ghost use Rattle.tht_tree.specs.Rules.Proofs.{prove as said_of, proves};
ghost use Rattle.tht_logic.specs.Rules.Steps.{after_step, after_step_kind};
ghost use Rattle.pure_proofs.specs.Verdicts.{IsVerdict};
ghost use Rattle.heap_rules.specs.Declarations.{declared_by};
ghost use Rattle.heap_rules.specs.Following.{Follows};
ghost use Rattle.heap_rules.specs.Stages.{undeclared, had};

use self::StepKind as Kind;
use crate::folding::{Instance, fold};
use crate::opening::{hypothesis, open_as_fact, open_as_variable, unfold};
use crate::places::Predicates;
use crate::refusals::refused;
use crate::rewriting::{Rewriting, rewrite};
use crate::sizes::formula_fits;
use pure_proofs::{Known, Refusal, prove};
use std::alloc::Global;
use tht_tree::plain::{Name, Spot};
use tht_tree::proof::Proof;
use tht_tree::rule::RuleCode;
use tht_tree::step::{Step, StepKind};
use tht_tree::term::Term;

// A proof step, at its spot.
pub(crate) fn change_by(
    alloc: Global,
    known: &mut Known,
    predicates: &Predicates<'_>,
    step: &Step,
) -> Result<(), Refusal>
    ensures follows { Follows result (after_step (declared_by predicates.now) (context_of known.old.state) step.now) (context_of known.old.state) (context_of known.new.state) }
    ensures err { OnErr result (context_of known.new.state ≡ context_of known.old.state) }
{
    take_kind(alloc, known, predicates, step.spot, &step.kind)
}

// A step, by its form.
#[tactic(auto, using(crate::proofs::Declared::have_step, crate::proofs::Declared::variable_step, crate::proofs::Declared::fact_step, crate::proofs::Declared::unfold_step, crate::proofs::Declared::fold_step, crate::proofs::Declared::rewrite_step, crate::proofs::Declared::use_step))]
fn take_kind(
    alloc: Global,
    known: &mut Known,
    predicates: &Predicates<'_>,
    spot: Spot,
    step: &StepKind,
) -> Result<(), Refusal>
    ensures follows { Follows result (after_step_kind (declared_by predicates.now) spot (context_of known.old.state) step.now) (context_of known.old.state) (context_of known.new.state) }
    ensures err { OnErr result (context_of known.new.state ≡ context_of known.old.state) }
{
    match step {
        Kind::Have(name, formula, proof) => { have(alloc, known, spot, name, formula.get(), proof) }
        Kind::OpenVar(number, name, sort) => {
            open_as_variable(alloc, known, spot, *number, name, *sort)
        }
        Kind::OpenFact(number, name) => open_as_fact(alloc, known, spot, *number, name),
        Kind::Unfold(number) => unfold(alloc, known, predicates, spot, *number),
        Kind::Fold(name, arguments, give) => {
            let instance = Instance {
                spot,
                name,
                arguments,
            };
            fold(alloc, known, predicates, instance, give)
        }
        Kind::Rewrite(number, part, term, proof) => {
            let step = Rewriting {
                spot,
                number: *number,
                part: *part,
                term: term.get(),
            };
            rewrite(alloc, known, step, proof)
        }
        Kind::Use(..) => Err(refused(spot, RuleCode::R12)),
    }
}

// A formula is known under this name, by its proof.
fn have(
    alloc: Global,
    known: &mut Known,
    spot: Spot,
    name: &Name,
    formula: &Term,
    proof: &Proof,
) -> Result<(), Refusal>
    ensures follows { Follows result (had spot (context_of known.old.state) name.now formula.now proof.now) (context_of known.old.state) (context_of known.new.state) }
    ensures err { OnErr result (context_of known.new.state ≡ context_of known.old.state) }
{
    prove_fitting(alloc, known, spot, formula, proof)?;
    let hyp = hypothesis(alloc, name, formula)?;
    known.assume(spot, hyp)?;
    Ok(())
}

// Whether the formula is not too large, and proved. What is known stays as it was.
fn prove_fitting(
    alloc: Global,
    known: &mut Known,
    spot: Spot,
    formula: &Term,
    proof: &Proof,
) -> Result<(), Refusal>
    ensures verdict { IsVerdict result (proves spot (said_of undeclared proof.now) (context_of known.old.state) formula.now) }
    ensures kept { context_of known.new.state ≡ context_of known.old.state }
{
    if !formula_fits(formula) {
        return Err(refused(spot, RuleCode::R10));
    }
    prove(proof, alloc, &[], known, formula)
}
