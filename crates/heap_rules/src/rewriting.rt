// The step that rewrites a part of an atom.
ghost use Rattle.std.specs.Prelude.{◌≡◌, [], Some, IfOk, IfErr, OnErr};
ghost use Rattle.tht_tree.specs.declared.assn.Assn.{out-Assn};
ghost use Rattle.tht_tree.specs.declared.plain.Sort.TheVariants.{Bool};
ghost use Rattle.tht_tree.specs.declared.term.Term.TheVariants.{Eq};
ghost use Rattle.tht_tree.specs.Rules.Context.{context_of};
ghost use Rattle.tht_tree.specs.Rules.Scoping.{sort_of, is_of};
ghost use Rattle.tht_logic.specs.Rules.Checking.{unless_refused};
ghost use Rattle.tht_logic.specs.Rules.Parts.{Part, part_at};
ghost use Rattle.pure_terms.specs.Locals.{locals_of};
ghost use Rattle.pure_proofs.specs.Verdicts.{IsVerdict};
ghost use Rattle.heap_rules.specs.Following.{Makes, Follows};
ghost use Rattle.heap_rules.specs.Stages.{equation as equation_with, no_equation, not_equal, atom_with, part_changed};

use crate::atoms::{find_atom, nodes_with, set_atom};
use crate::parts::{part_of, put_part};
use crate::refusals::refused;
use crate::sizes::{assn_fits, context_is_within, pair_fits};
use pure_proofs::{Known, Refusal, prove};
use pure_terms::{Scope, sort_in};
use sqlite_items::Boxed;
use std::alloc::Global;
use tht_tree::assn::Assn;
use tht_tree::plain::Spot;
use tht_tree::proof::Proof;
use tht_tree::rule::RuleCode;
use tht_tree::term::Term;

/// A term for a part of an atom, by the numbers of the two, in a step at this spot.
#[derive(Clone, Copy)]
pub(crate) struct Rewriting<'a> {
    pub spot: Spot,
    pub number: u64,
    pub part: u64,
    pub term: &'a Term,
}

/// Puts the term in the place of the part, which is equal to it by this proof.
pub(crate) fn rewrite(
    alloc: Global,
    known: &mut Known,
    step: Rewriting<'_>,
    proof: &Proof,
) -> Result<(), Refusal>
    ensures follows { Follows result (unless_refused (not_equal step.entry.spot (context_of known.old.state) step.entry.number step.entry.part step.entry.term.now proof.now) (part_changed step.entry.spot (context_of known.old.state) step.entry.number step.entry.part step.entry.term.now)) (context_of known.old.state) (context_of known.new.state) }
    ensures err { OnErr result (context_of known.new.state ≡ context_of known.old.state) }
{
    prove_equal(alloc, known, step, proof)?;
    change_part(alloc, known, step)
}

// ---- the proof

// Whether the part and the term are equal by this proof. What is known stays as it was.
fn prove_equal(
    alloc: Global,
    known: &mut Known,
    step: Rewriting<'_>,
    proof: &Proof,
) -> Result<(), Refusal>
    ensures verdict { IsVerdict result (not_equal step.entry.spot (context_of known.old.state) step.entry.number step.entry.part step.entry.term.now proof.now) }
    ensures kept { context_of known.new.state ≡ context_of known.old.state }
{
    let atom = find_atom(known, step.spot, step.number)?;
    let goal = equation(alloc, atom, step, &known.state.scope)?;
    prove(proof, alloc, &[], known, &goal)
}

// The equation of the part of the atom and the term.
fn equation(alloc: Global, atom: &Assn, step: Rewriting<'_>, scope: &Scope) -> Result<Term, Refusal>
    ensures { Makes result (equation_with step.entry.spot (locals_of scope.now) step.entry.part step.entry.term.now atom.now) }
{
    match part_of(atom, step.part) {
        Some(part) => {
            need_equation(step.spot, part, step.term, scope)?;
            Ok(equal(alloc, part, step.term)?)
        }
        None => Err(refused(step.spot, RuleCode::R2)),
    }
}

// Refused where the two terms make no equation, or one that is too large.
fn need_equation(spot: Spot, a: &Term, b: &Term, scope: &Scope) -> Result<(), Refusal>
    ensures { IsVerdict result (no_equation spot (locals_of scope.now) a.now b.now) }
{
    if !have_one_sort(a, b, scope) {
        return Err(refused(spot, RuleCode::R2));
    }
    if !pair_fits(a, b) {
        return Err(refused(spot, RuleCode::R10));
    }
    Ok(())
}

// Whether the two terms have one sort.
fn have_one_sort(a: &Term, b: &Term, scope: &Scope) -> bool
    ensures { result ≡ is_of Bool (sort_of [] (locals_of scope.now) (Eq a.now b.now)) }
{
    match (sort_in(a, &[], scope), sort_in(b, &[], scope)) {
        (Some(s), Some(r)) => s == r,
        _ => false,
    }
}

// The equation of the two terms.
fn equal(alloc: Global, a: &Term, b: &Term) -> Result<Term, Refusal>
    ensures ok { IfOk result (λ t. t ≡ Eq a.now b.now) }
    ensures memory { IfErr result (λ e. e ≡ Refusal.Memory) }
{
    let a = Boxed::new(alloc, a.copy(alloc)?)?;
    let b = Boxed::new(alloc, b.copy(alloc)?)?;
    Ok(Term::Eq(a, b))
}

// ---- the change

// Puts the term in the place of the part.
fn change_part(alloc: Global, known: &mut Known, step: Rewriting<'_>) -> Result<(), Refusal>
    ensures follows { Follows result (part_changed step.entry.spot (context_of known.old.state) step.entry.number step.entry.part step.entry.term.now) (context_of known.old.state) (context_of known.new.state) }
    ensures err { OnErr result (context_of known.new.state ≡ context_of known.old.state) }
{
    let atom = find_atom(known, step.spot, step.number)?;
    let atom = changed_atom(alloc, atom, step)?;
    if !context_is_within(nodes_with(known, step.number, &atom)) {
        return Err(refused(step.spot, RuleCode::R10));
    }
    set_atom(known, step.number, atom);
    Ok(())
}

// The atom with the term in the place of the part.
fn changed_atom(alloc: Global, atom: &Assn, step: Rewriting<'_>) -> Result<Assn, Refusal>
    ensures { Makes result (atom_with step.entry.spot step.entry.part step.entry.term.now atom.now) }
{
    if part_of(atom, step.part).is_none() {
        return Err(refused(step.spot, RuleCode::R2));
    }
    let atom = with_part(alloc, atom, step)?;
    if !assn_fits(&atom) {
        return Err(refused(step.spot, RuleCode::R10));
    }
    Ok(atom)
}

fn with_part(alloc: Global, atom: &Assn, step: Rewriting<'_>) -> Result<Assn, Refusal>
    ensures ok { IfOk result (λ p. (part : Part) → part_at step.entry.part (out-Assn atom.now) ≡ Some part → p ≡ part.with step.entry.term.now) }
    ensures memory { IfErr result (λ e. e ≡ Refusal.Memory) }
{
    let term = Boxed::new(alloc, step.term.copy(alloc)?)?;
    Ok(put_part(atom.copy(alloc)?, step.part, term))
}
