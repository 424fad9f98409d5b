// The sizes of new cells, and their limits.
ghost use Rattle.std.specs.Prelude.{◌≡◌, ◌-◌, ◌^◌, ◌≤◌, ℕ, List, min};
ghost use Rattle.tht_tree.specs.Rules.Sizes.{nodes, levels, assn_nodes, is_within as within, assn_fits};
ghost use Rattle.tht_logic.specs.Rules.Commands.{place_behind};
ghost use Rattle.hoare_rules.specs.Steps.{new_cell};

use tht_tree::term::{Term, term_levels, term_size};

/// The most nodes of one formula: a hypothesis, a goal or an atom.
const FORMULA_NODES: u64 = 65_536;

/// The most levels of one formula.
const FORMULA_LEVELS: u64 = 1_000;

fn is_within(nodes: u64, levels: u64) -> bool
    ensures { result ≡ within nodes levels }
{
    nodes <= FORMULA_NODES && levels <= FORMULA_LEVELS
}

// How many nodes, and how many levels, the place has that is so many behind one with a name.
fn place_size(index: usize) -> u64
    ensures nodes { (x : List ℕ) → result ≡ nodes (place_behind x index) }
    ensures levels { (x : List ℕ) → result ≡ levels (place_behind x index) }
    ensures small { result ≤ 2 }
{
    if index == 0 { 1 } else { 2 }
}

/// How many nodes a new cell has that is so many behind the first: at most 2^64 - 1, where the count stays.
#[tactic(auto, using(crate::proofs::CellSizes::own_nodes))]
pub(crate) fn new_cell_size(index: usize, value: &Term) -> u64
    ensures { (x : List ℕ) → result ≡ min (assn_nodes (new_cell x index value.now)) (2 ^ 64 - 1) }
{
    term_size(value).saturating_add(place_size(index) + 1)
}

/// Whether a new cell that is so many behind the first is within the limits of one formula.
#[tactic(auto, using(crate::proofs::CellSizes::own_nodes, crate::proofs::CellSizes::own_levels))]
pub(crate) fn new_cell_fits(index: usize, value: &Term) -> bool
    ensures { (x : List ℕ) → result ≡ assn_fits (new_cell x index value.now) }
{
    let levels = term_levels(value).max(place_size(index)).saturating_add(1);
    is_within(new_cell_size(index, value), levels)
}
