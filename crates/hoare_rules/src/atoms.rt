// The atoms of a state: one found by its number, changed, added and taken away.
ghost use Rattle.std.specs.Prelude.{◌≡◌, ◌<◌, ◌≤◌, ◌^◌, All, Some, OnOk, OnSome};
ghost use Rattle.std.specs.List.Sorted.{IsStrictlySortedBy};
ghost use Rattle.std.specs.Map.{keys_of};
ghost use Rattle.std.specs.Option.{option_copied};
ghost use Rattle.std.specs.Ordering.{nat_cmp};
ghost use Rattle.tht_tree.specs.declared.assn.Assn.TheVariants.{Own};
ghost use Rattle.tht_tree.specs.declared.term.Term.{Term};
ghost use Rattle.tht_tree.specs.Rules.Context.{atom_at, with_atom, without_atom};
ghost use Rattle.hoare_rules.specs.Atoms.{FindsCell};

use heap_rules::refused;
use pure_proofs::Refusal;
use sqlite_items::Boxed;
use std::collections::BTreeMap;
use std::mem;
use tht_tree::assn::Assn;
use tht_tree::plain::Spot;
use tht_tree::rule::RuleCode;
use tht_tree::term::Term;

/// The atoms by their numbers.
pub(crate) type Atoms = BTreeMap<u32, Assn>;

/// The numbers of the atoms ascend, as in every map.
pub(crate) fn ascend(atoms: &Atoms)
    ensures { IsStrictlySortedBy nat_cmp (keys_of atoms.now.entries) }
{
    let _count = atoms.len();
}

// The atom with this number, where none has a number above those made.
fn find(atoms: &Atoms, made: u32, number: u64) -> Option<&Assn>
    requires { All (λ a. a.0 ≤ made) atoms.now.entries }
    ensures atom { option_copied result ≡ atom_at number atoms.now.entries }
    ensures numbered { OnSome result (number < 2 ^ 32) }
{
    if number > u64::from(made) {
        return None;
    }
    let key = number as u32;
    atoms.get(&key)
}

/// A cell: its place and its value.
#[derive(Clone, Copy)]
pub(crate) struct Cell<'a> {
    pub place: &'a Term,
    pub value: &'a Term,
}

/// The cell of the atom with this number, where none has a number above those made. The construct at the spot is refused
/// where there is no such atom, or it is no cell.
pub(crate) fn cell_at(
    atoms: &Atoms,
    made: u32,
    spot: Spot,
    number: u64,
) -> Result<Cell<'_>, Refusal>
    requires { All (λ a. a.0 ≤ made) atoms.now.entries }
    ensures cell { FindsCell result spot (atom_at number atoms.now.entries) }
    ensures numbered { OnOk result (number < 2 ^ 32) }
{
    match find(atoms, made, number) {
        Some(Assn::Own(place, value)) => Ok(Cell {
            place: place.get(),
            value: value.get(),
        }),
        Some(_) => Err(refused(spot, RuleCode::R2)),
        None => Err(refused(spot, RuleCode::R1)),
    }
}

/// Takes an atom away.
pub(crate) fn take_atom(atoms: &mut Atoms, number: u64)
    requires { number < 2 ^ 32 }
    ensures { atoms.new.entries ≡ without_atom number atoms.old.entries }
{
    let key = number as u32;
    forget(atoms.remove(&key));
}

fn forget(atom: Option<Assn>) {
    let _ = atom;
}

/// Puts another value into the cell of an atom.
pub(crate) fn set_cell_value(atoms: &mut Atoms, number: u64, value: Boxed<Term>)
    requires { number < 2 ^ 32 }
    ensures { (at was : Term) → atom_at number atoms.old.entries ≡ Some (Own at was) → atoms.new.entries ≡ with_atom number (Own at value) atoms.old.entries }
{
    let key = number as u32;
    if let Some(atom) = atoms.get_mut(&key) {
        set_value(atom, value);
    }
}

// Puts another value into a cell.
fn set_value(atom: &mut Assn, value: Boxed<Term>)
    ensures { (at was : Term) → atom.old ≡ Own at was → atom.new ≡ Own at value }
{
    if let Assn::Own(_, held) = atom {
        forget_term(mem::replace(held, value));
    }
}

fn forget_term(term: Boxed<Term>) {
    let _ = term;
}
