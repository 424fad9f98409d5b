// The atoms that a give has consumed.
ghost use Rattle.std.specs.Prelude.{◌≡◌, ◌<◌, ◌^◌, None, Some, OnOk, OnSome, IfErr, MatchOption};
ghost use Rattle.tht_tree.specs.Rules.Context.{context_of, atom_at, without_atom};
ghost use Rattle.tht_logic.specs.Rules.Gives.{Atoms as AtomList};
ghost use Rattle.pure_proofs.specs.Said.{known_in};
ghost use Rattle.heap_rules.specs.ConsumedAtoms.{left_of, older_left_in, IsNew, IsNext, IsCounted};

use crate::atoms::{ascend, take_older};
use pure_proofs::{Known, Refusal};
use std::alloc::Global;
use std::collections::BTreeSet;
use tht_tree::assn::Assn;

/// The atoms that a give has consumed so far: their numbers, and how many nodes they have. The state still has them.
#[derive(Drop)]
pub(crate) struct Consumed {
    pub numbers: BTreeSet<u32>,
    pub nodes: u64,
}

impl Consumed {
    /// No atom.
    #[tactic(auto, unfolding(crate::specs::ConsumedAtoms::left_of, crate::specs::ConsumedAtoms::IsCounted))]
    pub(crate) fn new(alloc: Global) -> Consumed
        ensures none { (atoms : AtomList) → left_of result atoms ≡ atoms }
        ensures counted { (atoms : AtomList) → IsCounted result atoms }
    {
        Consumed {
            numbers: BTreeSet::new(alloc),
            nodes: 0,
        }
    }

    /// The atom with this number, where that was not consumed.
    pub(crate) fn at_hand<'a>(&self, known: &'a Known, number: u64) -> Option<&'a Assn>
        ensures atom { MatchOption result (atom_at number (left_of self.now (known_in known.now.state).atoms) ≡ None) (λ a. atom_at number (left_of self.now (known_in known.now.state).atoms) ≡ Some a.now) }
        ensures new { OnSome result (IsNew number self.now) }
        ensures numbered { OnSome result (number < 2 ^ 32) }
    {
        if number > u64::from(known.state.made) {
            return None;
        }
        ascend(&known.state);
        let key = number as u32;
        if self.numbers.contains(&key) {
            return None;
        }
        known.state.atoms.get(&key)
    }

    /// Consumes the atom with this number, which has so many nodes: at most 2^64 - 1, where the count stays.
    pub(crate) fn add(&mut self, number: u64, nodes: u64) -> Result<(), Refusal>
        requires numbered { number < 2 ^ 32 }
        requires new { IsNew number self.old }
        ensures left { OnOk result ((atoms : AtomList) → left_of self.new atoms ≡ without_atom number (left_of self.old atoms)) }
        ensures counted { (atoms : AtomList) → IsNext number nodes self.old atoms → IsCounted self.old atoms → IsCounted self.new atoms }
        ensures memory { IfErr result (λ e. e ≡ Refusal.Memory) }
    {
        let key = number as u32;
        self.numbers.insert(key)?;
        self.nodes = self.nodes.saturating_add(nodes);
        Ok(())
    }

    /// Takes the atoms out of the state, as far as they are among the first `made`.
    pub(crate) fn take_out(self, known: &mut Known, made: u32)
        ensures { context_of known.new.state ≡ older_left_in made self (context_of known.old.state) }
    {
        let mut numbers = self.numbers;
        while let Some(number) = numbers.pop_first() {
            take_older(known, made, u64::from(number));
        }
    }
}
