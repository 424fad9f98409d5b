//! The rules of commands: what the checker knows after a statement, and the first that is refused in a body.
#![tactic(auto)]

mod allocs;
mod atoms;
mod blocks;
mod bodies;
mod branches;
mod built;
mod built_bodies;
mod built_proofs;
mod calls;
mod cells;
mod commands;
mod laws;
mod names;
mod outcomes;
mod returns;
mod sizes;
mod steps;

pub use bodies::{body_holds, take_command};
pub use built::is_built;
pub use heap_rules::Predicates;
pub use laws::{accepted_is_sound, keeps_fewer, ordered_is_plain, sequence_and_frame};
pub use pure_proofs::Refusal;
