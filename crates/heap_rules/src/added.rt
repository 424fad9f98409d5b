// Atoms that are added, with the next numbers.
ghost use Rattle.std.specs.Prelude.{◌≡◌, ◌≤◌, All, OnOk, OnErr, IfErr};
ghost use Rattle.tht_tree.specs.Rules.Context.{Context, context_of, context_nodes, context_fits};
ghost use Rattle.tht_logic.specs.Flatten.{with_assn};
ghost use Rattle.heap_rules.specs.Changes.{more, KeepsOlder};
ghost use Rattle.heap_rules.specs.Following.{Follows};
ghost use Rattle.heap_rules.specs.Stages.{replaced_by};

use crate::atoms::{nodes_without, take_back, take_older};
use crate::refusals::refused;
use crate::sizes::{atoms_count, atoms_size, context_is_within};
use pure_proofs::{Known, Refusal};
use tht_tree::assn::{Assn, assn_size};
use tht_tree::plain::Spot;
use tht_tree::rule::RuleCode;

/// Adds the atoms of an assertion, which take the next numbers from left to right, whatever their size: a caller finds out by
/// `has_room` whether what is known is not too large then. After an `Err`, which is want of memory, nothing has changed; it also comes
/// where there would be 2^32 numbered atoms, or 2^64 - 1 nodes, which no memory holds.
pub fn add_atoms(assn: Assn, known: &mut Known) -> Result<(), Refusal>
    ensures ok { OnOk result (context_of known.new.state ≡ with_assn assn (context_of known.old.state)) }
    ensures err { OnErr result (context_of known.new.state ≡ context_of known.old.state) }
    ensures memory { IfErr result (λ e. e ≡ Refusal.Memory) }
{
    let made = known.state.made;
    match add_each(assn, known) {
        Ok(()) => Ok(()),
        Err(refusal) => {
            take_back(known, made);
            Err(refusal)
        }
    }
}

// The same, where at want of memory some of them may have been added.
fn add_each(assn: Assn, known: &mut Known) -> Result<(), Refusal>
    ensures ok { OnOk result (context_of known.new.state ≡ with_assn assn (context_of known.old.state)) }
    ensures err { OnErr result (KeepsOlder (context_of known.old.state) (context_of known.new.state)) }
    ensures memory { IfErr result (λ e. e ≡ Refusal.Memory) }
{
    match assn {
        Assn::Emp => Ok(()),
        Assn::Star(left, right) => {
            add_each(left.into_inner(), known)?;
            add_each(right.into_inner(), known)
        }
        atom => add_atom(known, atom),
    }
}

// Adds an atom, which takes the next number. After an `Err` nothing has changed.
fn add_atom(known: &mut Known, atom: Assn) -> Result<(), Refusal>
    ensures ok { OnOk result (context_of known.new.state ≡ more atom (context_of known.old.state)) }
    ensures err { OnErr result (context_of known.new.state ≡ context_of known.old.state) }
    ensures memory { IfErr result (λ e. e ≡ Refusal.Memory) }
{
    let Some(number) = known.state.made.checked_add(1) else {
        return Err(Refusal::Memory);
    };
    let nodes = known.nodes.saturating_add(assn_size(&atom));
    if nodes == u64::MAX {
        return Err(Refusal::Memory);
    }
    known.state.atoms.insert(number, atom)?;
    known.state.made = number;
    known.nodes = nodes;
    Ok(())
}

/// Whether what has so many nodes, and so many numbered atoms, may have the atoms of the assertion too.
pub fn has_room(nodes: u64, made: u32, assn: &Assn) -> bool
    ensures { (c : Context) → All (λ a. a.0 ≤ c.made) c.atoms → context_nodes c ≡ nodes → c.made ≡ made → result ≡ context_fits (with_assn assn.now c) }
{
    if !context_is_within(nodes.saturating_add(atoms_size(assn))) {
        return false;
    }
    atoms_count(assn) <= u64::from(u32::MAX - made)
}

/// Puts the atoms of an assertion in the place of the atom with this number, unless what is known is then too large. After an `Err`
/// nothing has changed.
pub fn replace_atom(known: &mut Known, spot: Spot, number: u64, assn: Assn) -> Result<(), Refusal>
    ensures follows { Follows result (replaced_by spot (context_of known.old.state) number assn) (context_of known.old.state) (context_of known.new.state) }
    ensures err { OnErr result (context_of known.new.state ≡ context_of known.old.state) }
{
    if !has_room(nodes_without(known, number), known.state.made, &assn) {
        return Err(refused(spot, RuleCode::R10));
    }
    let made = known.state.made;
    add_atoms(assn, known)?;
    take_older(known, made, number);
    Ok(())
}
