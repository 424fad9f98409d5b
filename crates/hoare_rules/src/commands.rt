// The rules of statements on private cells.
ghost use Rattle.std.specs.Prelude.{◌≡◌, IfOk, IfErr};
ghost use Rattle.tht_tree.specs.declared.term.Term.TheVariants.{Eq, Var};
ghost use Rattle.tht_tree.specs.Rules.Context.{context_of};
ghost use Rattle.tht_logic.specs.Rules.Commands.{after_read, after_write, after_free};
ghost use Rattle.hoare_rules.specs.Cells.{Says, undeclared};
ghost use Rattle.hoare_rules.specs.Steps.{learnt, written, freed};

use crate::atoms::{ascend, cell_at, set_cell_value, take_atom};
use crate::cells::{NamedCell, find_named};
use crate::names::bind;
use heap_rules::{context_is_within, pair_fits, pair_size, refused};
use pure_proofs::{Known, Refusal};
use sqlite_items::Boxed;
use std::alloc::Global;
use tht_tree::plain::{Name, Sort, Spot};
use tht_tree::proof::Proof;
use tht_tree::rule::RuleCode;
use tht_tree::state::{Hyp, Local};
use tht_tree::term::{Term, term_size};

/// The cell that a command at this spot names.
pub(crate) fn named_cell<'a>(
    spot: Spot,
    place: &'a Boxed<Term>,
    number: u64,
    proof: &'a Proof,
) -> NamedCell<'a>
    ensures spot { result.spot ≡ spot }
    ensures place { result.place.now ≡ place.now }
    ensures number { result.number ≡ number }
    ensures proof { result.proof.now ≡ proof.now }
{
    NamedCell {
        spot,
        place: place.get(),
        number,
        proof,
    }
}

// ---- reads

/// Reads a cell: the name has its value.
pub(crate) fn read(
    alloc: Global,
    known: &mut Known,
    cell: NamedCell<'_>,
    name: &Name,
    sort: Sort,
    hyp: &Name,
) -> Result<(), Refusal>
    ensures { Says result (after_read undeclared cell.entry.spot (context_of known.old.state) name.now sort cell.entry.place.now cell.entry.number hyp.now cell.entry.proof.now) (context_of known.new.state) }
{
    find_named(alloc, known, cell, Some(sort))?;
    learn(alloc, known, cell, name, sort, hyp)
}

// The name has the value that was read.
fn learn(
    alloc: Global,
    known: &mut Known,
    cell: NamedCell<'_>,
    name: &Name,
    sort: Sort,
    hyp: &Name,
) -> Result<(), Refusal>
    ensures { Says result (learnt cell.entry.spot (context_of known.old.state) cell.entry.number name.now sort hyp.now) (context_of known.new.state) }
{
    let found = cell_at(&known.state.atoms, known.state.made, cell.spot, cell.number)?;
    let hyp = equation(alloc, hyp, name, found.value)?;
    bind(alloc, &mut known.state.scope, name, Local::Variable(sort))?;
    known.assume(cell.spot, hyp)?;
    Ok(())
}

// The hypothesis that the name and the term are equal.
fn equation(alloc: Global, hyp: &Name, name: &Name, value: &Term) -> Result<Hyp, Refusal>
    ensures ok { IfOk result (λ h. h ≡ record { name = hyp.now; formula = Eq (Var name.now) value.now }) }
    ensures memory { IfErr result (λ e. e ≡ Refusal.Memory) }
{
    let left = Boxed::new(alloc, Term::Var(name.copy()?))?;
    let right = Boxed::new(alloc, value.copy(alloc)?)?;
    Ok(Hyp {
        name: hyp.copy()?,
        formula: Term::Eq(left, right),
    })
}

// ---- writes

/// Writes a cell.
pub(crate) fn write(
    alloc: Global,
    known: &mut Known,
    cell: NamedCell<'_>,
    value: &Term,
) -> Result<(), Refusal>
    ensures { Says result (after_write undeclared cell.entry.spot (context_of known.old.state) cell.entry.place.now value.now cell.entry.number cell.entry.proof.now) (context_of known.new.state) }
{
    find_named(alloc, known, cell, None)?;
    put_value(alloc, known, cell, value)
}

// The cell has another value.
fn put_value(
    alloc: Global,
    known: &mut Known,
    cell: NamedCell<'_>,
    value: &Term,
) -> Result<(), Refusal>
    ensures { Says result (written cell.entry.spot (context_of known.old.state) cell.entry.number value.now) (context_of known.new.state) }
{
    ascend(&known.state.atoms);
    let found = cell_at(&known.state.atoms, known.state.made, cell.spot, cell.number)?;
    if !pair_fits(found.place, value) {
        return Err(refused(cell.spot, RuleCode::R10));
    }
    let nodes = (known.nodes - term_size(found.value)).saturating_add(term_size(value));
    if !context_is_within(nodes) {
        return Err(refused(cell.spot, RuleCode::R10));
    }
    let value = value.copy(alloc)?;
    let value = Boxed::new(alloc, value)?;
    set_cell_value(&mut known.state.atoms, cell.number, value);
    known.nodes = nodes;
    Ok(())
}

// ---- frees

/// Takes a cell away.
pub(crate) fn free(alloc: Global, known: &mut Known, cell: NamedCell<'_>) -> Result<(), Refusal>
    ensures { Says result (after_free undeclared cell.entry.spot (context_of known.old.state) cell.entry.place.now cell.entry.number cell.entry.proof.now) (context_of known.new.state) }
{
    find_named(alloc, known, cell, None)?;
    take(known, cell)
}

// The cell is there no more.
fn take(known: &mut Known, cell: NamedCell<'_>) -> Result<(), Refusal>
    ensures { Says result (freed cell.entry.spot (context_of known.old.state) cell.entry.number) (context_of known.new.state) }
{
    let found = cell_at(&known.state.atoms, known.state.made, cell.spot, cell.number)?;
    let nodes = known.nodes - pair_size(found.place, found.value);
    if !context_is_within(nodes) {
        return Err(refused(cell.spot, RuleCode::R10));
    }
    take_atom(&mut known.state.atoms, cell.number);
    known.nodes = nodes;
    Ok(())
}
