//! Whether the names and sorts of a file are in order, and the first refusal where they are not.
//!
//! `files::well_sorted` is the way in. The file is walked in the order of its text; a construct's own names, terms and assertions
//! come before the constructs inside it. `decls` has the declarations, with predicates, lemmas and commands in modules of their
//! own; `bodies` has the bodies, with the statements in `stmts` and where each may stand in `placing`. Terms, assertions, proofs
//! and gives are walked by `term_walk`.
#![tactic(auto)]

mod bodies;
mod commands;
mod decls;
pub mod files;
mod heads;
mod lemmas;
mod placing;
mod predicates;
mod stmts;
