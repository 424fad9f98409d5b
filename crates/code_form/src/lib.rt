//! Numbered code, and one branch of a run of it.
//!
//! `lower` makes code of a file. A `BranchState` is one branch of a run: `ask` says what stands in front of it, `tell` goes past
//! that, and `fork` makes the children of a fork. What a node and a branch stand for is said by the machine's programs, in `specs/`.
#![tactic(auto)]

mod ask;
mod bodies;
mod branch;
mod code;
mod eval;
mod expr;
mod files;
mod frames;
mod names;
mod terms;
mod under_way;
mod values;
mod walk;
mod ways;

pub use ask::Ask;
pub use branch::{BranchState, Forked};
pub use code::Code;
pub use files::lower;
pub use values::Values;
pub use ways::{Joined, Told};
