// The atoms of what is known: one found by its number, taken away and changed.
ghost use Rattle.std.specs.Prelude.{◌≡◌, ◌<◌, ◌≤◌, ◌-◌, ◌^◌, All, Some, OnErr, OnSome, IfOk, IfErr, IsSome, true, min, option_map, unwrap_or};
ghost use Rattle.std.specs.Option.{option_copied};
ghost use Rattle.tht_tree.specs.declared.assn.Assn.{Assn};
ghost use Rattle.tht_tree.specs.Rules.Context.{context_of, context_nodes, context_fits, atom_at, with_atom, without_atom};
ghost use Rattle.tht_tree.specs.Rules.Sizes.{assn_nodes};
ghost use Rattle.heap_rules.specs.Changes.{less, less_older, older, changed, Finds};
ghost use Rattle.heap_rules.specs.Following.{IsAscending};
ghost use Rattle.heap_rules.specs.Stages.{atom_found};

use crate::refusals::refused;
use pure_proofs::{Known, Refusal};
use std::collections::BTreeMap;
use std::mem;
use tht_tree::assn::{Assn, assn_size};
use tht_tree::plain::Spot;
use tht_tree::rule::RuleCode;
use tht_tree::state::State;

/// The atoms by their numbers.
type Atoms = BTreeMap<u32, Assn>;

// The atom with this number, where none has a number above those made.
fn find(atoms: &Atoms, made: u32, number: u64) -> Option<&Assn>
    requires { All (λ a. a.0 ≤ made) atoms.now.entries }
    ensures { option_copied result ≡ atom_at number atoms.now.entries }
{
    if number > u64::from(made) {
        return None;
    }
    let key = number as u32;
    atoms.get(&key)
}

/// The atom with this number. The construct at the spot is refused where there is none.
pub fn find_atom(known: &Known, spot: Spot, number: u64) -> Result<&Assn, Refusal>
    ensures { Finds result (atom_found spot (context_of known.now.state) number) }
{
    match find(&known.state.atoms, known.state.made, number) {
        Some(atom) => Ok(atom),
        None => Err(refused(spot, RuleCode::R1)),
    }
}

/// Takes the atom with this number away, if there is one.
pub fn take_atom(known: &mut Known, number: u64) -> Option<Assn>
    ensures atom { result ≡ atom_at number (context_of known.old.state).atoms }
    ensures left { context_of known.new.state ≡ less number (context_of known.old.state) }
{
    let atom = remove(&mut known.state.atoms, known.state.made, number);
    known.nodes -= size_of(&atom);
    atom
}

/// Takes the atom with this number away, if it is one of the first `made`.
pub(crate) fn take_older(known: &mut Known, made: u32, number: u64)
    ensures { context_of known.new.state ≡ less_older made number (context_of known.old.state) }
{
    if number <= u64::from(made) {
        forget(take_atom(known, number));
    }
}

/// Takes the atoms with numbers above this one away: the next atom takes the number behind it.
pub(crate) fn take_back(known: &mut Known, made: u32)
    ensures { context_of known.new.state ≡ older made (context_of known.old.state) }
{
    let mut last = known.state.made;
    while last > made {
        ascend(&known.state);
        forget(take_atom(known, u64::from(last)));
        last -= 1;
    }
    known.state.made = made;
}

// Takes the atom with this number away, where none has a number above those made.
fn remove(atoms: &mut Atoms, made: u32, number: u64) -> Option<Assn>
    requires { All (λ a. a.0 ≤ made) atoms.old.entries }
    ensures atom { result ≡ atom_at number atoms.old.entries }
    ensures left { atoms.new.entries ≡ without_atom number atoms.old.entries }
{
    if number > u64::from(made) {
        return None;
    }
    let key = number as u32;
    atoms.remove(&key)
}

fn size_of(atom: &Option<Assn>) -> u64
    ensures { result ≡ min (unwrap_or (option_map assn_nodes atom.now) 0) (2 ^ 64 - 1) }
{
    match atom {
        Some(atom) => assn_size(atom),
        None => 0,
    }
}

/// How many nodes what is known has without the atom with this number.
pub fn nodes_without(known: &Known, number: u64) -> u64
    ensures { result ≡ context_nodes (less number (context_of known.now.state)) }
{
    known.nodes - size_at(known, number)
}

fn size_at(known: &Known, number: u64) -> u64
    ensures { result ≡ min (unwrap_or (option_map assn_nodes (atom_at number (context_of known.now.state).atoms)) 0) (2 ^ 64 - 1) }
{
    match find(&known.state.atoms, known.state.made, number) {
        Some(atom) => assn_size(atom),
        None => 0,
    }
}

/// How many nodes what is known has with this atom under the number: at most 2^64 - 1, where the count stays.
pub fn nodes_with(known: &Known, number: u64, atom: &Assn) -> u64
    ensures { result ≡ min (context_nodes (changed number atom.now (context_of known.now.state))) (2 ^ 64 - 1) }
{
    ascend(&known.state);
    nodes_without(known, number).saturating_add(assn_size(atom))
}

/// The atoms of a state are in the order of their numbers.
pub fn ascend(state: &State)
    ensures { IsAscending (context_of state.now) }
{
    let _count = state.atoms.len();
}

/// Puts this atom in the place of the one with the number, which must be there. What is known must not be too large then.
pub fn set_atom(known: &mut Known, number: u64, atom: Assn)
    requires there { IsSome (atom_at number (context_of known.old.state).atoms) }
    requires fits { context_fits (changed number atom (context_of known.old.state)) ≡ true }
    ensures { context_of known.new.state ≡ changed number atom (context_of known.old.state) }
{
    let nodes = nodes_with(known, number, &atom);
    replace(&mut known.state.atoms, number, atom);
    known.nodes = nodes;
}

// Puts this atom in the place of the one with the number, which must be there.
fn replace(atoms: &mut Atoms, number: u64, atom: Assn)
    requires small { number < 2 ^ 32 }
    requires there { IsSome (atom_at number atoms.old.entries) }
    ensures { atoms.new.entries ≡ with_atom number atom atoms.old.entries }
{
    let key = number as u32;
    if let Some(held) = atoms.get_mut(&key) {
        forget(Some(mem::replace(held, atom)));
    }
}

/// Lets an atom go.
pub fn forget(atom: Option<Assn>) {
    let _ = atom;
}
