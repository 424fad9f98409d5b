//! The names and sorts of terms, and of what is made of them: assertions, proofs, gives and proof steps.
//!
//! `scope` says what each name stands for. `sorts` and `kinds` find the sort of a term and which cells an assertion speaks of.
//! The other modules say what is refused: `findings` and `terms` in the terms of a construct, `params` in the parameters of a
//! declaration, and `assns`, `proofs`, `gives` and `steps` in a tree. A code is one of the table of `WalkCode`; of several at one
//! construct the first in that table counts, and of several constructs the first in the text. Each answer equals what the
//! definitions in `tht_tree/specs/Walk` say of the same tree in the same scope. An `Err` is want of memory.
#![tactic(auto)]

pub mod assns;
pub mod codes;
pub mod findings;
pub mod gives;
pub mod kinds;
pub mod params;
pub mod proofs;
pub mod scope;
pub mod sorts;
pub mod steps;
pub mod terms;
