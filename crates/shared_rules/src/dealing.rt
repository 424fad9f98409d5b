// Atoms that are moved into a state of their own.
ghost use Rattle.std.specs.Prelude.{◌≡◌, ◌≤◌, ◌<◌, ◌^◌, [], All, OnOk, OnErr, IfOk, OnSome};
ghost use Rattle.std.specs.List.Sorted.{IsStrictlySortedBy};
ghost use Rattle.std.specs.Map.{keys_of};
ghost use Rattle.std.specs.Option.{option_copied};
ghost use Rattle.std.specs.Ordering.{nat_cmp};
ghost use Rattle.tht_tree.specs.Rules.Context.{context_of, context_nodes, atom_at, without_atom, with_atom};
ghost use Rattle.tht_logic.specs.Rules.Calls.{dealt};
ghost use Rattle.shared_rules.specs.Dealing.{Deals, Moves, MovesOne};
ghost use Rattle.shared_rules.specs.Gathering.{gathered, left_of, with_found};
ghost use Rattle.shared_rules.specs.Splitting.{SplitsBetween};

use pure_proofs::Refusal;
use std::alloc::Global;
use std::collections::BTreeMap;
use std::mem;
use tht_tree::assn::Assn;
use tht_tree::plain::{Memory, Spot};
use tht_tree::rule::{RuleCode, RuleRefusal};
use tht_tree::state::State;

/// The atoms by their numbers.
type Atoms = BTreeMap<u32, Assn>;

/// Moves the atoms with these numbers, under which they stay, out of a state, none of whose atoms has a number above those made, into
/// a new one with the same names and hypotheses. The construct at the spot is refused where one is not there, and where a number is
/// listed twice. After an `Err` nothing has changed.
pub fn deal(alloc: Global, state: &mut State, numbers: &[u64], spot: Spot) -> Result<State, Refusal>
    requires { All (λ a. a.0 ≤ (context_of state.old).made) (context_of state.old).atoms }
    ensures dealt { Deals result (dealt spot numbers.now (context_of state.old).atoms) (context_of state.new) }
    ensures given { IfOk result (λ s. context_of s ≡ record (context_of state.old) { atoms = (context_of s).atoms }) }
    ensures frame { context_of state.new ≡ record (context_of state.old) { atoms = (context_of state.new).atoms } }
    ensures kept { OnErr result (context_of state.new ≡ context_of state.old) }
    ensures given_numbered { IfOk result (λ s. All (λ a. a.0 ≤ (context_of s).made) (context_of s).atoms) }
    ensures frame_numbered { All (λ a. a.0 ≤ (context_of state.new).made) (context_of state.new).atoms }
    ensures smaller { context_nodes (context_of state.new) ≤ context_nodes (context_of state.old) }
    ensures sound { IfOk result (λ s. SplitsBetween (context_of state.old) (context_of s) (context_of state.new)) }
{
    deal_out(alloc, state, numbers, spot)
}

// The same, by the rule alone.
fn deal_out(alloc: Global, state: &mut State, numbers: &[u64], spot: Spot) -> Result<State, Refusal>
    requires { All (λ a. a.0 ≤ (context_of state.old).made) (context_of state.old).atoms }
    ensures dealt { Deals result (dealt spot numbers.now (context_of state.old).atoms) (context_of state.new) }
    ensures given { IfOk result (λ s. context_of s ≡ record (context_of state.old) { atoms = (context_of s).atoms }) }
    ensures frame { context_of state.new ≡ record (context_of state.old) { atoms = (context_of state.new).atoms } }
    ensures kept { OnErr result (context_of state.new ≡ context_of state.old) }
    ensures given_numbered { IfOk result (λ s. All (λ a. a.0 ≤ (context_of s).made) (context_of s).atoms) }
    ensures frame_numbered { All (λ a. a.0 ≤ (context_of state.new).made) (context_of state.new).atoms }
    ensures smaller { context_nodes (context_of state.new) ≤ context_nodes (context_of state.old) }
{
    let mut given = names_alone(alloc, state)?;
    let atoms = taken(alloc, &state.atoms, state.made, numbers, spot)?;
    forget(mem::replace(&mut given.atoms, atoms));
    remove_all(&mut state.atoms, state.made, numbers);
    Ok(given)
}

// A state with the same names and hypotheses, and without atoms.
fn names_alone(alloc: Global, state: &mut State) -> Result<State, Memory>
    ensures given { IfOk result (λ s. context_of s ≡ record (context_of state.old) { atoms = [] }) }
    ensures same { context_of state.new ≡ context_of state.old }
{
    let atoms = mem::replace(&mut state.atoms, BTreeMap::new(alloc));
    let copied = state.copy(alloc);
    forget(mem::replace(&mut state.atoms, atoms));
    copied
}

// Equal atoms for those with these numbers. They are dealt out of copies of these alone, so that nothing changes where a number is refused.
fn taken(
    alloc: Global,
    atoms: &Atoms,
    made: u32,
    numbers: &[u64],
    spot: Spot,
) -> Result<Atoms, Refusal>
    requires { All (λ a. a.0 ≤ made) atoms.now.entries }
    ensures { Moves result (dealt spot numbers.now atoms.now.entries) (left_of numbers.now atoms.now.entries) }
{
    let mut found = gather(alloc, atoms, made, numbers)?;
    ascend(atoms);
    ascend(&found);
    move_out(alloc, &mut found, made, numbers, spot)
}

// Copies of the atoms with these numbers, as far as they are there.
fn gather(alloc: Global, atoms: &Atoms, made: u32, numbers: &[u64]) -> Result<Atoms, Memory>
    requires { All (λ a. a.0 ≤ made) atoms.now.entries }
    ensures { IfOk result (λ m. m.entries ≡ gathered numbers.now atoms.now.entries []) }
{
    let mut found = BTreeMap::new(alloc);
    for number in numbers {
        gather_one(alloc, atoms, made, *number, &mut found)?;
    }
    Ok(found)
}

fn gather_one(
    alloc: Global,
    atoms: &Atoms,
    made: u32,
    number: u64,
    found: &mut Atoms,
) -> Result<(), Memory>
    requires { All (λ a. a.0 ≤ made) atoms.now.entries }
    ensures { OnOk result (found.new.entries ≡ with_found number (atom_at number atoms.now.entries) found.old.entries) }
{
    match find(atoms, made, number) {
        Some(atom) => add_copy(alloc, found, number as u32, atom),
        None => Ok(()),
    }
}

fn add_copy(alloc: Global, found: &mut Atoms, key: u32, atom: &Assn) -> Result<(), Memory>
    ensures { OnOk result (found.new.entries ≡ with_atom key atom.now found.old.entries) }
{
    let copied = atom.copy(alloc)?;
    match found.insert(key, copied) {
        Ok(_shadowed) => Ok(()),
        Err(_failed) => Err(Memory),
    }
}

// The atom with this number, where none has a number above those made.
fn find(atoms: &Atoms, made: u32, number: u64) -> Option<&Assn>
    requires { All (λ a. a.0 ≤ made) atoms.now.entries }
    ensures found { option_copied result ≡ atom_at number atoms.now.entries }
    ensures numbered { OnSome result (number < 2 ^ 32) }
{
    if u64::from(made) < number {
        return None;
    }
    let key = number as u32;
    atoms.get(&key)
}

// Takes the atoms with these numbers away.
fn remove_all(atoms: &mut Atoms, made: u32, numbers: &[u64])
    requires { All (λ a. a.0 ≤ made) atoms.old.entries }
    ensures { atoms.new.entries ≡ left_of numbers.now atoms.old.entries }
{
    for number in numbers {
        forget_atom(remove(atoms, made, *number));
    }
}

fn forget_atom(atom: Option<Assn>) {
    let _ = atom;
}

fn forget(atoms: Atoms) {
    let _ = atoms;
}

// Moves the atoms with these numbers out of those that are there, none of which has a number above `made`.
fn move_out(
    alloc: Global,
    atoms: &mut Atoms,
    made: u32,
    numbers: &[u64],
    spot: Spot,
) -> Result<Atoms, Refusal>
    requires { All (λ a. a.0 ≤ made) atoms.old.entries }
    ensures { Moves result (dealt spot numbers.now atoms.old.entries) atoms.new.entries }
{
    ascend(atoms);
    let mut given = BTreeMap::new(alloc);
    for number in numbers {
        move_one(atoms, made, *number, spot, &mut given)?;
    }
    Ok(given)
}

// Moves one atom.
fn move_one(
    atoms: &mut Atoms,
    made: u32,
    number: u64,
    spot: Spot,
    given: &mut Atoms,
) -> Result<(), Refusal>
    requires { All (λ a. a.0 ≤ made) atoms.old.entries }
    ensures { MovesOne result spot number atoms.old.entries given.old.entries atoms.new.entries given.new.entries }
{
    let Some(atom) = remove(atoms, made, number) else {
        return Err(absent(spot));
    };
    given.insert(number as u32, atom)?;
    Ok(())
}

// The atoms are in the order of their numbers, as in every map.
fn ascend(atoms: &Atoms)
    ensures { IsStrictlySortedBy nat_cmp (keys_of atoms.now.entries) }
{
    let _count = atoms.len();
}

// Takes the atom with this number away, where none has a number above those made.
fn remove(atoms: &mut Atoms, made: u32, number: u64) -> Option<Assn>
    requires { All (λ a. a.0 ≤ made) atoms.old.entries }
    ensures atom { result ≡ atom_at number atoms.old.entries }
    ensures left { atoms.new.entries ≡ without_atom number atoms.old.entries }
    ensures numbered { OnSome result (number < 2 ^ 32) }
{
    if number > u64::from(made) {
        return None;
    }
    let key = number as u32;
    atoms.remove(&key)
}

// The atom that the construct at this spot names is not there.
fn absent(spot: Spot) -> Refusal
    ensures { result ≡ Refusal.Rule (record { spot = spot; code = RuleCode.R1 }) }
{
    Refusal::Rule(RuleRefusal {
        spot,
        code: RuleCode::R1,
    })
}
