//! Whether a whole file is accepted.
//!
//! `check` walks over the names and sorts of a file first. Then it follows the rules through the declarations, in their order, where
//! the body of a procedure is checked from the atoms of its precondition, and through the body of main. A file that is accepted is
//! sound, and `Vetted` keeps that of it.
#![tactic(auto)]

mod checking;
mod end;
mod heads;
mod rules;
mod vetted;

pub use checking::check;
pub use end::CheckEnd;
pub use vetted::Vetted;
