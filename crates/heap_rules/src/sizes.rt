// The sizes of what is known, and their limits.
ghost use Rattle.std.specs.Prelude.{◌≡◌, ◌+◌, ◌-◌, ◌^◌, min, nat_le, length, sum_by};
ghost use Rattle.tht_tree.specs.declared.assn.Assn.TheVariants.{Own};
ghost use Rattle.tht_tree.specs.declared.term.Term.TheVariants.{Eq};
ghost use Rattle.tht_tree.specs.Rules.Sizes.{nodes, assn_nodes, is_within as within, formula_fits as term_fits, assn_fits as fits};
ghost use Rattle.tht_logic.specs.Flatten.{flatten};

use tht_tree::assn::{Assn, assn_levels, assn_size};
use tht_tree::term::{Term, term_levels, term_size};

/// The most nodes of one formula: a hypothesis, a goal or an atom.
const FORMULA_NODES: u64 = 65_536;

/// The most levels of one formula.
const FORMULA_LEVELS: u64 = 1_000;

/// The most nodes of all hypotheses and atoms together.
const CONTEXT_NODES: u64 = 262_144;

fn is_within(nodes: u64, levels: u64) -> bool
    ensures { result ≡ within nodes levels }
{
    nodes <= FORMULA_NODES && levels <= FORMULA_LEVELS
}

/// Whether what is known may have so many nodes.
pub fn context_is_within(nodes: u64) -> bool
    ensures { result ≡ nat_le nodes 262144 }
{
    nodes <= CONTEXT_NODES
}

/// Whether the formula is within the limits of one formula.
pub fn formula_fits(formula: &Term) -> bool
    ensures { result ≡ term_fits formula.now }
{
    is_within(term_size(formula), term_levels(formula))
}

/// Whether the assertion is within the limits of one formula.
pub fn assn_fits(assn: &Assn) -> bool
    ensures { result ≡ fits assn.now }
{
    is_within(assn_size(assn), assn_levels(assn))
}

/// How many nodes an equation or a cell of two terms has: at most 2^64 - 1, where the count stays.
pub fn pair_size(a: &Term, b: &Term) -> u64
    ensures { result ≡ min (nodes a.now + nodes b.now + 1) (2 ^ 64 - 1) }
{
    term_size(a).saturating_add(term_size(b)).saturating_add(1)
}

/// Whether an equation or a cell of the two terms is within the limits of one formula.
#[tactic(auto, using(crate::proofs::CellSizes::own_nodes, crate::proofs::CellSizes::own_levels))]
pub fn pair_fits(a: &Term, b: &Term) -> bool
    ensures equation { result ≡ term_fits (Eq a.now b.now) }
    ensures cell { result ≡ fits (Own a.now b.now) }
{
    let levels = term_levels(a).max(term_levels(b)).saturating_add(1);
    is_within(pair_size(a, b), levels)
}

/// How many nodes the atoms of an assertion have: at most 2^64 - 1, where the count stays.
pub fn atoms_size(assn: &Assn) -> u64
    ensures { result ≡ min (sum_by assn_nodes (flatten assn.now)) (2 ^ 64 - 1) }
{
    match assn {
        Assn::Emp => 0,
        Assn::Star(a, b) => atoms_size(a.get()).saturating_add(atoms_size(b.get())),
        _ => assn_size(assn),
    }
}

/// How many atoms an assertion has: at most 2^64 - 1, where the count stays.
pub fn atoms_count(assn: &Assn) -> u64
    ensures { result ≡ min (length (flatten assn.now)) (2 ^ 64 - 1) }
{
    match assn {
        Assn::Emp => 0,
        Assn::Star(a, b) => atoms_count(a.get()).saturating_add(atoms_count(b.get())),
        _ => 1,
    }
}
