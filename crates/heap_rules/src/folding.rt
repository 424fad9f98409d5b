// The step that folds: an instance for the atoms that its definition consumes.
ghost use Rattle.std.specs.Prelude.{◌≡◌, IfOk, IfErr, OnErr};
ghost use Rattle.tht_tree.specs.declared.assn.Assn.TheVariants.{Inst};
ghost use Rattle.tht_tree.specs.Rules.Context.{context_of};
ghost use Rattle.heap_rules.specs.ConsumedAtoms.{Consumes, IsCounted, left_of};
ghost use Rattle.heap_rules.specs.Declarations.{declared_by};
ghost use Rattle.heap_rules.specs.Following.{Follows};
ghost use Rattle.heap_rules.specs.Stages.{folded_from, put_for, instance_folded};

use crate::added::{add_atoms, has_room};
use crate::consumed::Consumed;
use crate::gives::check_give;
use crate::places::Predicates;
use crate::predicates::defined;
use crate::refusals::refused;
use crate::sizes::assn_fits;
use pure_proofs::{Known, Refusal};
use sqlite_items::Items;
use std::alloc::Global;
use tht_tree::assn::Assn;
use tht_tree::give::Give;
use tht_tree::plain::{Name, Spot};
use tht_tree::rule::RuleCode;
use tht_tree::term::Term;

/// An instance of a predicate, in a step at this spot.
#[derive(Clone, Copy)]
pub(crate) struct Instance<'a> {
    pub spot: Spot,
    pub name: &'a Name,
    pub arguments: &'a Items<Term>,
}

/// Puts an instance in the place of the atoms by which the give proves its definition.
pub(crate) fn fold(
    alloc: Global,
    known: &mut Known,
    predicates: &Predicates<'_>,
    instance: Instance<'_>,
    give: &Give,
) -> Result<(), Refusal>
    ensures follows { Follows result (instance_folded (declared_by predicates.now) instance.entry.spot (context_of known.old.state) instance.entry.name.now instance.entry.arguments.now give.now) (context_of known.old.state) (context_of known.new.state) }
    ensures err { OnErr result (context_of known.new.state ≡ context_of known.old.state) }
{
    let consumed = consumed_by(alloc, known, predicates, instance, give)?;
    put_instance(alloc, known, instance, consumed)
}

// The atoms by which the give proves the definition. What is known stays as it was.
#[tactic(auto, unfolding(pure_proofs::specs::Said::known_in))]
fn consumed_by(
    alloc: Global,
    known: &mut Known,
    predicates: &Predicates<'_>,
    instance: Instance<'_>,
    give: &Give,
) -> Result<Consumed, Refusal>
    ensures frame { Consumes result (folded_from (declared_by predicates.now) instance.entry.spot (context_of known.old.state) instance.entry.name.now instance.entry.arguments.now give.now) (context_of known.old.state).atoms }
    ensures counted { IfOk result (λ s. IsCounted s (context_of known.old.state).atoms) }
    ensures kept { context_of known.new.state ≡ context_of known.old.state }
{
    let goal = defined(
        alloc,
        predicates,
        instance.spot,
        instance.name,
        instance.arguments,
    )?;
    check_give(alloc, known, predicates, give, &goal)
}

// Puts the instance in the place of these atoms.
fn put_instance(
    alloc: Global,
    known: &mut Known,
    instance: Instance<'_>,
    consumed: Consumed,
) -> Result<(), Refusal>
    requires { IsCounted consumed (context_of known.old.state).atoms }
    ensures follows { Follows result (put_for instance.entry.spot (left_of consumed (context_of known.old.state).atoms) (context_of known.old.state) (Inst instance.entry.name.now instance.entry.arguments.now)) (context_of known.old.state) (context_of known.new.state) }
    ensures err { OnErr result (context_of known.new.state ≡ context_of known.old.state) }
{
    let atom = instance_atom(alloc, instance)?;
    if !assn_fits(&atom) {
        return Err(refused(instance.spot, RuleCode::R10));
    }
    if !has_room(known.nodes - consumed.nodes, known.state.made, &atom) {
        return Err(refused(instance.spot, RuleCode::R10));
    }
    let made = known.state.made;
    add_atoms(atom, known)?;
    consumed.take_out(known, made);
    Ok(())
}

// The instance as an atom.
fn instance_atom(alloc: Global, instance: Instance<'_>) -> Result<Assn, Refusal>
    ensures ok { IfOk result (λ a. a ≡ Inst instance.entry.name.now instance.entry.arguments.now) }
    ensures memory { IfErr result (λ e. e ≡ Refusal.Memory) }
{
    let arguments = copies(alloc, instance.arguments)?;
    Ok(Assn::Inst(instance.name.copy()?, arguments))
}

fn copies(alloc: Global, terms: &Items<Term>) -> Result<Items<Term>, Refusal>
    ensures ok { IfOk result (λ ts. ts ≡ terms.now) }
    ensures memory { IfErr result (λ e. e ≡ Refusal.Memory) }
{
    let mut copies = Items::new(alloc);
    for term in terms.as_slice() {
        copies.push(term.copy(alloc)?)?;
    }
    Ok(copies)
}
