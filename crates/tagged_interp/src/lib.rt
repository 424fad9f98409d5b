//! The machine over numbered code.
//!
//! A `Lab` holds the code of a file, its branch 0 and the cells that the branch has made. Each call of `step` is one step of the
//! machine. The states that a `Lab` stands for are said in `specs/`.
#![tactic(auto)]

mod lab;

pub use lab::{Lab, LabSaid};
