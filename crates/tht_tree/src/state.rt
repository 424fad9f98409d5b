// The checker's state.
ghost use Rattle.std.specs.Prelude.{◌≡◌, IfOk, OnOk};
ghost use Rattle.std.specs.BTreeMap.{insert_entry};
ghost use Rattle.std.specs.Ordering.{nat_cmp};
ghost use Rattle.tht_tree.specs.Rules.Context.{context_of, no_context};

use crate::assn::Assn;
use crate::plain::{Memory, Name, Sort};
use crate::term::Term;
use sqlite_items::Items;
use std::alloc::Global;
use std::collections::BTreeMap;

/// What a local name stands for: a variable of a sort, or a hypothesis.
#[derive(Clone, Copy, Debug, PartialEq, Eq)]
pub enum Local {
    Variable(Sort),
    Hypothesis,
}

/// A formula that is known to be true, by its name.
#[derive(Drop)]
pub struct Hyp {
    pub name: Name,
    pub formula: Term,
}

/// What the checker knows before a command: the local names, the hypotheses in the order in which they were added, the
/// numbered atoms, and how many atoms were numbered, from 1, at most 2^32 - 1.
pub struct State {
    pub scope: BTreeMap<String, Local>,
    pub hyps: Items<Hyp>,
    pub atoms: BTreeMap<u32, Assn>,
    pub made: u32,
}

// By hand, so that a crate that lets a state go does not prove the drop of its parts again.
impl Drop for State {
    fn drop(self) {
        let State {
            scope,
            hyps,
            atoms,
            made: _,
        } = self;
        let _ = scope;
        let _ = hyps;
        let _ = atoms;
    }
}

/// A postcondition, which speaks of the result by this name.
pub struct Post {
    pub result: Name,
    pub sort: Sort,
    pub assn: Assn,
}

// By hand, so that a crate that lets a postcondition go does not prove the drop of its assertion again.
impl Drop for Post {
    fn drop(self) {
        let Post {
            result,
            sort: _,
            assn,
        } = self;
        let _ = result;
        let _ = assn;
    }
}

impl State {
    /// What is known before the first command of main: nothing.
    pub fn new(alloc: Global) -> State
        ensures { context_of result ≡ no_context }
    {
        State {
            scope: BTreeMap::new(alloc),
            hyps: Items::new(alloc),
            atoms: BTreeMap::new(alloc),
            made: 0,
        }
    }

    /// An equal state. At want of memory nothing is left of it.
    pub fn copy(&self, alloc: Global) -> Result<State, Memory>
        ensures { IfOk result (λ s. context_of s ≡ context_of self.now) }
    {
        let scope = self.scope.clone()?;
        let hyps = copy_hyps(alloc, self.hyps.as_slice())?;
        let atoms = copy_atoms(alloc, &self.atoms)?;
        Ok(State {
            scope,
            hyps,
            atoms,
            made: self.made,
        })
    }
}

// Equal hypotheses.
fn copy_hyps(alloc: Global, hyps: &[Hyp]) -> Result<Items<Hyp>, Memory>
    ensures { IfOk result (λ h. h ≡ hyps.now) }
{
    let mut copies = Items::new(alloc);
    for hyp in hyps {
        copies.push(copy_hyp(alloc, hyp)?)?;
    }
    Ok(copies)
}

fn copy_hyp(alloc: Global, hyp: &Hyp) -> Result<Hyp, Memory>
    ensures { IfOk result (λ h. h ≡ hyp.now) }
{
    Ok(Hyp {
        name: hyp.name.copy()?,
        formula: hyp.formula.copy(alloc)?,
    })
}

// Equal atoms, with the same numbers.
fn copy_atoms(alloc: Global, atoms: &BTreeMap<u32, Assn>) -> Result<BTreeMap<u32, Assn>, Memory>
    ensures { IfOk result (λ m. m.entries ≡ atoms.now.entries) }
{
    let mut copies = BTreeMap::new(alloc);
    for (number, atom) in atoms.iter() {
        add_copy(alloc, &mut copies, *number, atom)?;
    }
    Ok(copies)
}

fn add_copy(
    alloc: Global,
    copies: &mut BTreeMap<u32, Assn>,
    number: u32,
    atom: &Assn,
) -> Result<(), Memory>
    ensures { OnOk result (copies.new.entries ≡ insert_entry nat_cmp copies.old.entries number atom.now) }
{
    let atom = atom.copy(alloc)?;
    match copies.insert(number, atom) {
        Ok(_shadowed) => Ok(()),
        Err(_failed) => Err(Memory),
    }
}
