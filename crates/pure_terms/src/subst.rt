// Names, each with the term that is put in for it.
ghost use Rattle.std.specs.Prelude.{◌≡◌, ◌-◌, ◌^◌, ℕ, List, [], ◌∷◌, ◌++◌, map, min, OnOk, OnErr, MatchOption};
ghost use Rattle.tht_tree.specs.declared.term.Term.TheVariants.{Var};
ghost use Rattle.tht_tree.specs.Rules.Sizes.{nodes as nodes_of, levels as levels_of};
ghost use Rattle.tht_tree.specs.Normal.Putting.{put_name};
ghost use Rattle.pure_terms.specs.Zeros.{zeros_in};

use crate::zeros::{term_zeros, zeros_of};
use sqlite_items::Items;
use std::alloc::Global;
use std::marker::Model;
use tht_tree::plain::{Memory, Name};
use tht_tree::term::{Term, term_levels, term_size};

/// A name with the term that is put in for it, how many nodes and levels that has (at most 2^64 - 1, where the counts stay), and
/// how long the longest name of zeros in it is.
#[derive(Drop)]
pub(crate) struct Entry {
    pub name: Name,
    pub term: Term,
    pub nodes: u64,
    pub levels: u64,
    pub zeros: usize,
    ghost counted: { nodes ≡ min (nodes_of term) (2 ^ 64 - 1) },
    ghost measured: { levels ≡ min (levels_of term) (2 ^ 64 - 1) },
    ghost named: { zeros ≡ zeros_in term },
}

/// Names, each with the term that is put in for it. Contracts see them as a list of pairs, in the order in which they were
/// added; the first of a name counts. They are few, as the parameters of a procedure: a name is looked up one after the other.
#[derive(Drop)]
pub struct Subst {
    entries: Items<Entry>,
}

impl Model for Subst {
    ghost use Rattle.std.specs.Prelude.{map};
    ghost use Rattle.std.specs.Coded.{codes};
    ghost use Rattle.tht_tree.specs.contracts.term.Term as term;
    ghost use Rattle.tht_tree.specs.Normal.Putting.{Puts};

    ghost Value = { Puts };

    ghost coded = { Prim.hlevel (codes, term.the_row.coded) };

    ghost view = { λ s. map (λ e. (e.name, e.term)) s.entries };
}

impl Subst {
    pub fn new(alloc: Global) -> Subst
        ensures { result ≡ [] }
    {
        Subst {
            entries: Items::new(alloc),
        }
    }

    /// A name more, with the term that is put in for it. It changes nothing that is put in where the name was added before. At
    /// want of memory all stays as it was.
    pub fn add(&mut self, name: Name, term: Term) -> Result<(), Memory>
        ensures ok { OnOk result (self.new ≡ self.old ++ (name, term) ∷ []) }
        ensures err { OnErr result (self.new ≡ self.old) }
    {
        let (nodes, levels, zeros) = (term_size(&term), term_levels(&term), term_zeros(&term));
        self.entries.push(Entry {
            name,
            term,
            nodes,
            levels,
            zeros,
        })?;
        Ok(())
    }

    pub(crate) fn find(&self, name: &Name) -> Option<&Entry>
        ensures { MatchOption result (put_name self.now name.now ≡ Var name.now) (λ e. put_name self.now name.now ≡ e.now.term) }
    {
        find_in(self.entries.as_slice(), name)
    }

    /// How many nodes what stands for a name has: at most 2^64 - 1, where the count stays.
    pub(crate) fn nodes(&self, name: &Name) -> u64
        ensures { result ≡ min (nodes_of (put_name self.now name.now)) (2 ^ 64 - 1) }
    {
        match self.find(name) {
            Some(entry) => entry.nodes,
            None => 1,
        }
    }

    /// How many levels what stands for a name has: at most 2^64 - 1, where the count stays.
    pub(crate) fn levels(&self, name: &Name) -> u64
        ensures { result ≡ min (levels_of (put_name self.now name.now)) (2 ^ 64 - 1) }
    {
        match self.find(name) {
            Some(entry) => entry.levels,
            None => 1,
        }
    }

    /// How long the longest name of zeros in what stands for a name is.
    pub(crate) fn zeros(&self, name: &Name) -> usize
        ensures { result ≡ zeros_in (put_name self.now name.now) }
    {
        match self.find(name) {
            Some(entry) => entry.zeros,
            None => zeros_of(name),
        }
    }
}

fn find_in<'a>(entries: &'a [Entry], name: &Name) -> Option<&'a Entry>
    ensures { let pairs = map (λ e. (e.name, e.term)) entries.now in
        MatchOption result (put_name pairs name.now ≡ Var name.now) (λ e. put_name pairs name.now ≡ e.now.term) }
{
    for entry in entries {
        if entry.name.same(name) {
            return Some(entry);
        }
    }
    None
}
