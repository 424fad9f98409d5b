//! The trees of a source file, what a run of it is, and the definitions that speak of them.
//!
//! The trees and plain types stand in `src/`, a file for each family. The definitions that the contracts of all crates
//! cite stand in `specs/`; `docs/DEFINITIONS.md` reads through them in order.
#![tactic(auto)]

pub mod assn;
pub mod body;
pub mod command;
pub mod decl;
pub mod file;
pub mod form;
pub mod give;
pub mod plain;
pub mod proof;
pub mod rule;
pub mod run;
pub mod state;
pub mod status;
pub mod step;
pub mod term;
pub mod text_fault;
pub mod token;
pub mod walk;
