// The plain types: spots, sorts, names, places and values.
ghost use Rattle.std.specs.Prelude.{◌≡◌, ◌↔◌, IfOk, IsTrue, string_bytes};

use std::alloc::{AllocError, Global};
use std::marker::Model;

/// Want of memory.
#[derive(Clone, Copy, Debug, PartialEq, Eq)]
pub struct Memory;

impl From<AllocError> for Memory {
    fn from(_error: AllocError) -> Memory {
        Memory
    }
}

/// A place in a source: the line and the byte of that line, both from 1.
#[derive(Clone, Copy, Debug, PartialEq, Eq)]
pub struct Spot {
    pub line: u32,
    pub column: u32,
}

/// The sort of a value. `Seq`, a finite sequence of numbers, is of the logic alone.
#[derive(Clone, Copy, Debug, PartialEq, Eq)]
pub enum Sort {
    Nat,
    Bool,
    Loc,
    Unit,
    Seq,
}

/// A place of the heap: nothing, a root by its number from 0, or a cell by the branch that made it and its index there.
#[derive(Clone, Copy, Debug, PartialEq, Eq)]
pub enum Place {
    Null,
    Root(u32),
    Cell { arena: u32, index: u64 },
}

/// A value that a cell can hold.
#[derive(Clone, Copy, Debug, PartialEq, Eq)]
pub enum Value {
    Nat(u128),
    Bool(bool),
    Loc(Place),
    Unit,
}

/// A name of a source, which contracts see as its bytes.
#[derive(Drop)]
pub struct Name {
    text: String,
}

impl Model for Name {
    ghost use Rattle.std.specs.Prelude.{List, ℕ, string_bytes};

    ghost Value = { List ℕ };

    ghost view = { λ n. string_bytes n.text };
}

impl Name {
    /// The name with this text.
    pub fn new(text: String) -> Name
        ensures { result ≡ string_bytes text }
    {
        Name { text }
    }

    pub fn as_str(&self) -> &str
        ensures { result.now ≡ self.now }
    {
        self.text.as_str()
    }

    /// Whether the two have one text.
    pub fn same(&self, other: &Name) -> bool
        ensures { IsTrue result ↔ (self.now ≡ other.now) }
    {
        self.text.as_str() == other.text.as_str()
    }

    /// The text of the name, once more.
    pub fn copy_text(&self) -> Result<String, AllocError>
        ensures { IfOk result (λ text. string_bytes text ≡ self.now) }
    {
        self.text.clone()
    }

    /// An equal name.
    pub fn copy(&self) -> Result<Name, AllocError>
        ensures { IfOk result (λ n. n ≡ self.now) }
    {
        let text = self.text.clone()?;
        Ok(Name { text })
    }
}
