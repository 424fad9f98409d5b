//! Assertions: their atoms, whether two are one up to bound names, terms put in for names, and what instances of predicates are
//! defined as.
#![tactic(auto)]

mod atoms;
mod binders;
mod definition_end;
mod instances;
mod putting;
mod sameness;
mod sizes;
mod zeros;

pub use atoms::flatten;
pub use definition_end::DefinitionEnd;
pub use instances::{add_arguments, definition};
pub use putting::put_in_assn;
pub use sameness::alike;
