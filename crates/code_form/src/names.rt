// The names of the procs of a file, with their numbers.
ghost use Rattle.std.specs.Prelude.{◌≡◌, [], map, OnOk};
ghost use Rattle.std.specs.String.{string_bytes};
ghost use Rattle.code_form.specs.Files.{with_name};
ghost use Rattle.code_form.specs.Lowering.{number_in};

use indexmap::IndexSet;
use std::alloc::Global;
use std::marker::Model;
use tht_tree::plain::{Memory, Name};

/// The names of the procs of a file, each once, which contracts see as a list. The number of a proc is its place there.
#[derive(Drop)]
pub(crate) struct ProcNames {
    names: IndexSet<String>,
}

impl Model for ProcNames {
    ghost use Rattle.std.specs.Prelude.{List, ℕ, map};
    ghost use Rattle.std.specs.String.{string_bytes};

    ghost Value = { List (List ℕ) };

    ghost view = { λ p. map string_bytes p.names.keys };
}

impl ProcNames {
    pub fn new(alloc: Global) -> ProcNames
        ensures { result ≡ [] }
    {
        ProcNames {
            names: IndexSet::new(alloc),
        }
    }

    /// Adds a name behind the others, unless it is there.
    pub fn add(&mut self, name: &Name) -> Result<(), Memory>
        ensures { OnOk result (self.new ≡ with_name self.old name.now) }
    {
        let text = name.copy_text()?;
        match self.names.insert(text) {
            Ok(_new) => Ok(()),
            Err(_failed) => Err(Memory),
        }
    }

    /// The number of the proc with this name, or how many there are if none has it.
    pub fn number_of(&self, name: &Name) -> usize
        ensures { result ≡ number_in self.now name.now }
    {
        match self.names.get_index_of(name.as_str()) {
            Some(number) => number,
            None => self.names.len(),
        }
    }

    /// The texts of the names, in the order of their numbers.
    pub fn texts(&self) -> &[String]
        ensures { map string_bytes result.now ≡ self.now }
    {
        self.names.as_slice()
    }
}
