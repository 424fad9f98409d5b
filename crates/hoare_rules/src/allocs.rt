// The rule of `alloc`: new cells, next to each other.
ghost use Rattle.std.specs.Prelude.{◌≡◌, ◌+◌, ◌-◌, ◌^◌, ◌<◌, ◌≤◌, ℕ, List, min, length, OnOk, IfOk, IfErr, IsTrue, ◌↔◌};
ghost use Rattle.std.specs.List.{list_all};
ghost use Rattle.tht_tree.specs.Rules.Context.{context_of, context_nodes};
ghost use Rattle.tht_tree.specs.Rules.Sizes.{assn_nodes, assn_fits};
ghost use Rattle.tht_logic.specs.Flatten.{with_atoms};
ghost use Rattle.tht_logic.specs.Rules.Commands.{after_alloc, place_behind, new_cells};
ghost use Rattle.hoare_rules.specs.Cells.{Says};
ghost use Rattle.hoare_rules.specs.Steps.{new_cell, all_nodes, with_next};

use crate::names::bind;
use crate::sizes::{new_cell_fits, new_cell_size};
use heap_rules::{context_is_within, refused};
use pure_proofs::{Known, Refusal};
use sqlite_items::Boxed;
use std::alloc::Global;
use tht_tree::assn::Assn;
use tht_tree::plain::{Name, Sort, Spot};
use tht_tree::rule::RuleCode;
use tht_tree::state::Local;
use tht_tree::term::Term;

/// Goes on over an `alloc` of cells with these values, whose first place has this name. Nothing is made where one of them, or the
/// whole, would be too large.
pub(crate) fn allocate(
    alloc: Global,
    known: &mut Known,
    spot: Spot,
    name: &Name,
    values: &[Term],
) -> Result<(), Refusal>
    requires { length values.now ≤ 8 }
    ensures { Says result (after_alloc spot (context_of known.old.state) name.now values.now) (context_of known.new.state) }
{
    if !cells_fit(values) {
        return Err(refused(spot, RuleCode::R10));
    }
    if !context_is_within(known.nodes.saturating_add(cells_size(values))) {
        return Err(refused(spot, RuleCode::R10));
    }
    if !are_numbers(known.state.made, values.len()) {
        return Err(refused(spot, RuleCode::R10));
    }
    bind(
        alloc,
        &mut known.state.scope,
        name,
        Local::Variable(Sort::Loc),
    )?;
    add_cells(alloc, known, name, values)
}

// Whether there are so many numbers behind this one.
fn are_numbers(made: u32, count: usize) -> bool
    ensures { IsTrue result ↔ (made + count < 2 ^ 32) }
{
    u64::from(made).saturating_add(count as u64) <= u64::from(u32::MAX)
}

// ---- their sizes

// Whether each of the cells is within the limits of one formula.
fn cells_fit(values: &[Term]) -> bool
    ensures { (x : List ℕ) → result ≡ list_all assn_fits (new_cells x 0 values.now) }
{
    for (index, value) in values.iter().enumerate() {
        if !new_cell_fits(index, value) {
            return false;
        }
    }
    true
}

// How many nodes the cells have, up to 2^64 - 1, where the count stays.
fn cells_size(values: &[Term]) -> u64
    ensures { (x : List ℕ) → min result (2 ^ 64 - 1) ≡ min (all_nodes (new_cells x 0 values.now)) (2 ^ 64 - 1) }
{
    let mut total: u64 = 0;
    for (index, value) in values.iter().enumerate() {
        total = total.saturating_add(new_cell_size(index, value));
    }
    total
}

// ---- what is made

// Adds the cells, under the next numbers.
fn add_cells(alloc: Global, known: &mut Known, name: &Name, values: &[Term]) -> Result<(), Refusal>
    requires few { length values.now ≤ 8 }
    requires room { context_nodes (context_of known.old.state) + all_nodes (new_cells name.now 0 values.now) ≤ 262144 }
    requires numbers { known.old.state.made + length values.now < 2 ^ 32 }
    ensures ok { OnOk result (context_of known.new.state ≡ with_atoms (new_cells name.now 0 values.now) (context_of known.old.state)) }
    ensures memory { IfErr result (λ e. e ≡ Refusal.Memory) }
{
    for (index, value) in values.iter().enumerate() {
        add_cell(alloc, known, name, index, value)?;
    }
    Ok(())
}

// Adds a cell, so many behind the first, under the next number.
fn add_cell(
    alloc: Global,
    known: &mut Known,
    name: &Name,
    index: usize,
    value: &Term,
) -> Result<(), Refusal>
    requires few { index < 8 }
    requires room { context_nodes (context_of known.old.state) + assn_nodes (new_cell name.now index value.now) ≤ 262144 }
    requires numbers { known.old.state.made + 1 < 2 ^ 32 }
    ensures ok { OnOk result (context_of known.new.state ≡ with_next (new_cell name.now index value.now) (context_of known.old.state)) }
    ensures memory { IfErr result (λ e. e ≡ Refusal.Memory) }
{
    let atom = make_cell(alloc, name, index, value)?;
    let number = known.state.made + 1;
    let nodes = known.nodes + new_cell_size(index, value);
    known.state.atoms.insert(number, atom)?;
    known.state.made = number;
    known.nodes = nodes;
    Ok(())
}

fn make_cell(alloc: Global, name: &Name, index: usize, value: &Term) -> Result<Assn, Refusal>
    requires { index < 8 }
    ensures ok { IfOk result (λ a. a ≡ new_cell name.now index value.now) }
    ensures memory { IfErr result (λ e. e ≡ Refusal.Memory) }
{
    let value = Boxed::new(alloc, value.copy(alloc)?)?;
    let place = make_place(alloc, name, index)?;
    Ok(Assn::Own(place, value))
}

// The place so many cells behind the one with this name.
fn make_place(alloc: Global, name: &Name, index: usize) -> Result<Boxed<Term>, Refusal>
    requires { index < 8 }
    ensures ok { IfOk result (λ t. t ≡ place_behind name.now index) }
    ensures memory { IfErr result (λ e. e ≡ Refusal.Memory) }
{
    let first = Boxed::new(alloc, Term::Var(name.copy()?))?;
    if index == 0 {
        return Ok(first);
    }
    Ok(Boxed::new(alloc, Term::Offset(first, index as u8))?)
}
