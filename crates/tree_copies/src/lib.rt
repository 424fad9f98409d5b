//! Copies of whole trees, and their comparison but for spots.
//!
//! They stand in a crate of their own, since no crate of the checker or the runner needs them: what checks and runs a file moves its trees
//! or lends them.
#![tactic(auto)]

mod body;
mod decl;
mod file;
mod give;
mod proof;
mod step;

pub use file::{copy_file, same_tree};
