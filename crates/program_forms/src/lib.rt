//! Whether two bodies are one program, once all that only their proofs need is dropped and their variables have no names.
//!
//! Each body is written in a row: its program from left to right, a piece for each form. A variable that the body binds stands
//! there by its position. Two bodies are one program where their rows are one.
#![tactic(auto)]

mod binders;
mod bodies;
mod levels;
mod row;
mod sameness;
mod terms;

pub use sameness::same_program;
