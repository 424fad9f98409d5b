// The atoms of an assertion.
ghost use Rattle.std.specs.Prelude.{◌≡◌, ◌++◌, OnOk, OnErr};
ghost use Rattle.tht_logic.specs.Flatten.{flatten as atoms_of};
ghost use Rattle.heap_assert.specs.FirstAtoms.{FirstAdded};
ghost use Rattle.heap_assert.specs.Heaps.{AddsItsHeaps};

use sqlite_items::Items;
use tht_tree::assn::Assn;
use tht_tree::plain::Memory;

/// Adds what the `*` of an assertion join to the atoms that are there, from left to right and without `emp`. At want of memory the first
/// of them may have been added.
pub fn flatten(assn: Assn, atoms: &mut Items<Assn>) -> Result<(), Memory>
    ensures ok { OnOk result (atoms.new ≡ atoms.old ++ atoms_of assn) }
    ensures err { OnErr result (FirstAdded atoms.old atoms.new (atoms_of assn)) }
    ensures heaps { OnOk result (AddsItsHeaps atoms.old atoms.new assn) }
{
    add_atoms(assn, atoms)
}

// Adds the atoms of the assertion.
fn add_atoms(assn: Assn, atoms: &mut Items<Assn>) -> Result<(), Memory>
    ensures ok { OnOk result (atoms.new ≡ atoms.old ++ atoms_of assn) }
    ensures err { OnErr result (FirstAdded atoms.old atoms.new (atoms_of assn)) }
{
    match assn {
        Assn::Emp => Ok(()),
        Assn::Star(left, right) => {
            add_atoms(left.into_inner(), atoms)?;
            add_atoms(right.into_inner(), atoms)
        }
        atom => Ok(atoms.push(atom)?),
    }
}
