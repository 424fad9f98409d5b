//! From bytes to the tree of the file that they spell.
#![tactic(auto)]

mod arguments;
mod assns;
mod bodies;
mod cursor;
mod decls;
mod end;
mod file;
mod forms;
mod gives;
mod lemmas;
mod lists;
mod names;
mod nesting;
mod operators;
mod parser;
mod proofs;
mod statements;
mod steps;
mod stop;
mod terms;

pub use end::ParseEnd;
pub use parser::parse;
