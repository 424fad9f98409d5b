// Steps that put what an atom says in its place: they open an existential or a fact, or unfold an instance.
ghost use Rattle.std.specs.Prelude.{◌≡◌, ◌<◌, ◌^◌, ◌∷◌, [], ℕ, List, IfOk, IfErr, OnErr};
ghost use Rattle.tht_tree.specs.declared.term.Term.TheVariants.{Var};
ghost use Rattle.tht_tree.specs.Rules.Context.{Context, context_of, context_nodes};
ghost use Rattle.tht_tree.specs.Rules.Known.{hyp_fits};
ghost use Rattle.tht_tree.specs.declared.rule.RuleCode.TheVariants.{R2};
ghost use Rattle.tht_tree.specs.Rules.Refusals.{needs};
ghost use Rattle.tht_tree.specs.Rules.Scoping.{same_sort};
ghost use Rattle.tht_logic.specs.Putting.{put_assn_within};
ghost use Rattle.tht_logic.specs.Rules.Checking.{on_ok, put_or_refused};
ghost use Rattle.pure_proofs.specs.Verdicts.{IsVerdict};
ghost use Rattle.heap_rules.specs.Changes.{Finds};
ghost use Rattle.heap_rules.specs.Declarations.{declared_by};
ghost use Rattle.heap_rules.specs.Following.{Makes, Follows};
ghost use Rattle.heap_rules.specs.Stages.{atom_found, formula_of, opened, unfolded, opened_as_variable, opened_as_fact, put_named_by, instance_unfolded};

use crate::added::{add_atoms, has_room, replace_atom};
use crate::atoms::{find_atom, forget, nodes_without, take_atom, take_back, take_older};
use crate::names::bind;
use crate::places::Predicates;
use crate::predicates::defined;
use crate::refusals::{put_within, refused};
use crate::sizes::{context_is_within, formula_fits};
use pure_proofs::{Known, Refusal};
use pure_terms::Subst;
use std::alloc::Global;
use tht_tree::assn::Assn;
use tht_tree::plain::{Name, Sort, Spot};
use tht_tree::rule::RuleCode;
use tht_tree::state::{Hyp, Local};
use tht_tree::term::{Term, term_size};

/// Opens an existential: some value of the sort is called by this name from now on.
pub(crate) fn open_as_variable(
    alloc: Global,
    known: &mut Known,
    spot: Spot,
    number: u64,
    name: &Name,
    sort: Sort,
) -> Result<(), Refusal>
    ensures follows { Follows result (opened_as_variable spot (context_of known.old.state) number name.now sort) (context_of known.old.state) (context_of known.new.state) }
    ensures err { OnErr result (context_of known.new.state ≡ context_of known.old.state) }
{
    let atom = find_atom(known, spot, number)?;
    let body = open(alloc, atom, spot, name, sort)?;
    put_named(alloc, known, spot, number, body, name, sort)
}

// Puts the atoms of an assertion in the place of the atom with this number, and brings a variable into scope. After an `Err`
// nothing has changed.
fn put_named(
    alloc: Global,
    known: &mut Known,
    spot: Spot,
    number: u64,
    assn: Assn,
    name: &Name,
    sort: Sort,
) -> Result<(), Refusal>
    ensures follows { Follows result (put_named_by spot (context_of known.old.state) number assn name.now sort) (context_of known.old.state) (context_of known.new.state) }
    ensures err { OnErr result (context_of known.new.state ≡ context_of known.old.state) }
{
    if !has_room(nodes_without(known, number), known.state.made, &assn) {
        return Err(refused(spot, RuleCode::R10));
    }
    let made = known.state.made;
    add_atoms(assn, known)?;
    match bind(alloc, known, name, Local::Variable(sort)) {
        Ok(()) => {
            take_older(known, made, number);
            Ok(())
        }
        Err(refusal) => {
            take_back(known, made);
            Err(refusal)
        }
    }
}

// What an existential says of the variable with this name.
fn open(alloc: Global, atom: &Assn, spot: Spot, name: &Name, sort: Sort) -> Result<Assn, Refusal>
    ensures { Makes result (opened spot name.now sort atom.now) }
{
    match atom {
        Assn::Exists(bound, of, body) => {
            need_sort(spot, sort, *of)?;
            put_variable(alloc, spot, body.get(), bound, name)
        }
        _ => Err(refused(spot, RuleCode::R2)),
    }
}

// Refused where an existential is of another sort than wanted.
fn need_sort(spot: Spot, wanted: Sort, sort: Sort) -> Result<(), Refusal>
    ensures { IsVerdict result (needs spot R2 (same_sort wanted sort)) }
{
    if wanted == sort {
        Ok(())
    } else {
        Err(refused(spot, RuleCode::R2))
    }
}

// The assertion with a variable for a bound name.
fn put_variable(
    alloc: Global,
    spot: Spot,
    assn: &Assn,
    bound: &Name,
    name: &Name,
) -> Result<Assn, Refusal>
    ensures { Makes result (put_or_refused spot (put_assn_within ((bound.now, Var name.now) ∷ []) assn.now)) }
{
    let by = variable_for(alloc, bound, name)?;
    put_within(alloc, spot, assn, &by)
}

fn variable_for(alloc: Global, bound: &Name, name: &Name) -> Result<Subst, Refusal>
    ensures ok { IfOk result (λ s. s ≡ (bound.now, Var name.now) ∷ []) }
    ensures memory { IfErr result (λ e. e ≡ Refusal.Memory) }
{
    let mut by = Subst::new(alloc);
    by.add(bound.copy()?, Term::Var(name.copy()?))?;
    Ok(by)
}

/// Opens a fact: its formula is known under this name.
pub(crate) fn open_as_fact(
    alloc: Global,
    known: &mut Known,
    spot: Spot,
    number: u64,
    name: &Name,
) -> Result<(), Refusal>
    ensures follows { Follows result (opened_as_fact spot (context_of known.old.state) number name.now) (context_of known.old.state) (context_of known.new.state) }
    ensures err { OnErr result (context_of known.new.state ≡ context_of known.old.state) }
{
    let formula = fact_at(known, spot, number)?;
    if !hyp_has_room(nodes_without(known, number), formula) {
        return Err(refused(spot, RuleCode::R10));
    }
    let hyp = hypothesis(alloc, name, formula)?;
    known.add(hyp)?;
    forget(take_atom(known, number));
    Ok(())
}

// Whether the formula is not too large as a hypothesis beside what has so many nodes, in a state.
fn hyp_has_room(nodes: u64, formula: &Term) -> bool
    ensures { (c : Context) (h : List ℕ) → context_nodes c ≡ nodes → c.made < 2 ^ 32 → result ≡ hyp_fits c h formula.now }
{
    if !formula_fits(formula) {
        return false;
    }
    context_is_within(nodes.saturating_add(term_size(formula)))
}

// The formula of the atom with this number.
fn fact_at(known: &Known, spot: Spot, number: u64) -> Result<&Term, Refusal>
    ensures { Finds result (on_ok (atom_found spot (context_of known.now.state) number) (formula_of spot)) }
{
    match find_atom(known, spot, number)? {
        Assn::Fact(formula) => Ok(formula.get()),
        _ => Err(refused(spot, RuleCode::R2)),
    }
}

// The hypothesis with this name and formula.
pub(crate) fn hypothesis(alloc: Global, name: &Name, formula: &Term) -> Result<Hyp, Refusal>
    ensures ok { IfOk result (λ h. h ≡ record { name = name.now; formula = formula.now }) }
    ensures memory { IfErr result (λ e. e ≡ Refusal.Memory) }
{
    let name = name.copy()?;
    let formula = formula.copy(alloc)?;
    Ok(Hyp { name, formula })
}

/// Puts the atoms of an instance's definition in its place.
pub(crate) fn unfold(
    alloc: Global,
    known: &mut Known,
    predicates: &Predicates<'_>,
    spot: Spot,
    number: u64,
) -> Result<(), Refusal>
    ensures follows { Follows result (instance_unfolded (declared_by predicates.now) spot (context_of known.old.state) number) (context_of known.old.state) (context_of known.new.state) }
    ensures err { OnErr result (context_of known.new.state ≡ context_of known.old.state) }
{
    let atom = find_atom(known, spot, number)?;
    let definition = definition_of(alloc, atom, predicates, spot)?;
    replace_atom(known, spot, number, definition)
}

// What an instance is defined as.
fn definition_of(
    alloc: Global,
    atom: &Assn,
    predicates: &Predicates<'_>,
    spot: Spot,
) -> Result<Assn, Refusal>
    ensures { Makes result (unfolded (declared_by predicates.now) spot atom.now) }
{
    match atom {
        Assn::Inst(name, arguments) => defined(alloc, predicates, spot, name, arguments),
        _ => Err(refused(spot, RuleCode::R2)),
    }
}
