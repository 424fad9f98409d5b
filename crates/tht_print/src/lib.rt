//! Prints a source file in its layout.
//!
//! The chains of a tree lean to the left and may be thousands of operators long, so its tokens are found from the last to the
//! first: a loop goes down the left operands of a chain, and only right operands and parentheses are recursions. The tokens
//! wait on a stack, from whose top the text is written.
#![tactic(auto)]

mod assn;
mod body;
mod decl;
mod file;
mod give;
mod laws;
mod names;
mod proof;
mod step;
mod term;
mod text;
mod tokens;
mod words;

pub use file::print;
pub use laws::layout_spells;

#[cfg(test)]
mod tests;
