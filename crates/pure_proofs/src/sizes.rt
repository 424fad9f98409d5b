// The sizes of formulas, and their limits.
ghost use Rattle.std.specs.Prelude.{◌≡◌, ◌+◌, ◌-◌, ◌^◌, min, max, nat_le, sum_by};
ghost use Rattle.tht_tree.specs.declared.term.Term.TheVariants.{Eq, Le, And, Imp, Not, Cons};
ghost use Rattle.tht_tree.specs.Rules.Context.{context_of, context_nodes};
ghost use Rattle.tht_tree.specs.Rules.Sizes.{nodes, levels, assn_nodes, is_within as within, formula_fits as fits};

use std::collections::BTreeMap;
use tht_tree::assn::{Assn, assn_size};
use tht_tree::state::{Hyp, State};
use tht_tree::term::{Term, term_levels, term_size};

/// The most nodes of one formula.
const FORMULA_NODES: u64 = 65_536;

/// The most levels of one formula.
const FORMULA_LEVELS: u64 = 1_000;

/// The most nodes of all hypotheses and atoms together.
const CONTEXT_NODES: u64 = 262_144;

fn is_within(nodes: u64, levels: u64) -> bool
    ensures { result ≡ within nodes levels }
{
    nodes <= FORMULA_NODES && levels <= FORMULA_LEVELS
}

/// Whether what is known may have so many nodes.
pub(crate) fn context_is_within(nodes: u64) -> bool
    ensures { result ≡ nat_le nodes 262144 }
{
    nodes <= CONTEXT_NODES
}

/// Whether the formula is within the limits.
pub(crate) fn formula_fits(formula: &Term) -> bool
    ensures { result ≡ fits formula.now }
{
    is_within(term_size(formula), term_levels(formula))
}

/// Whether the negation of the formula is within the limits.
pub(crate) fn negation_fits(formula: &Term) -> bool
    ensures { result ≡ fits (Not formula.now) }
{
    let nodes = term_size(formula).saturating_add(1);
    is_within(nodes, term_levels(formula).saturating_add(1))
}

// How many nodes a formula of two parts has: at most 2^64 - 1, where the count stays.
fn pair_size(a: &Term, b: &Term) -> u64
    ensures { result ≡ min (nodes a.now + nodes b.now + 1) (2 ^ 64 - 1) }
{
    term_size(a).saturating_add(term_size(b)).saturating_add(1)
}

// How many levels a formula of two parts has: at most 2^64 - 1, where the count stays.
fn pair_levels(a: &Term, b: &Term) -> u64
    ensures { result ≡ min (max (levels a.now) (levels b.now) + 1) (2 ^ 64 - 1) }
{
    term_levels(a).max(term_levels(b)).saturating_add(1)
}

/// Whether a formula of the two parts is within the limits.
pub(crate) fn pair_fits(a: &Term, b: &Term) -> bool
    ensures equation { result ≡ fits (Eq a.now b.now) }
    ensures at_most { result ≡ fits (Le a.now b.now) }
    ensures conjunction { result ≡ fits (And a.now b.now) }
    ensures implication { result ≡ fits (Imp a.now b.now) }
{
    is_within(pair_size(a, b), pair_levels(a, b))
}

/// Whether the equation of two sequences, each an element before others, is within the limits.
pub(crate) fn conses_fit(x: &Term, s: &Term, y: &Term, u: &Term) -> bool
    ensures { result ≡ fits (Eq (Cons x.now s.now) (Cons y.now u.now)) }
{
    let nodes = pair_size(x, s).saturating_add(pair_size(y, u));
    let levels = pair_levels(x, s).max(pair_levels(y, u));
    is_within(nodes.saturating_add(1), levels.saturating_add(1))
}

/// How many nodes the hypotheses and atoms have: at most 2^64 - 1, where the count stays.
pub fn state_size(state: &State) -> u64
    ensures { result ≡ min (context_nodes (context_of state.now)) (2 ^ 64 - 1) }
{
    hyps_size(state.hyps.as_slice()).saturating_add(atoms_size(&state.atoms))
}

fn hyps_size(hyps: &[Hyp]) -> u64
    ensures { result ≡ min (sum_by (λ h. nodes h.formula) hyps.now) (2 ^ 64 - 1) }
{
    let mut total: u64 = 0;
    for hyp in hyps {
        total = total.saturating_add(term_size(&hyp.formula));
    }
    total
}

fn atoms_size(atoms: &BTreeMap<u32, Assn>) -> u64
    ensures { result ≡ min (sum_by (λ a. assn_nodes a.1) atoms.now.entries) (2 ^ 64 - 1) }
{
    let mut total: u64 = 0;
    for atom in atoms.values() {
        total = total.saturating_add(assn_size(atom));
    }
    total
}
