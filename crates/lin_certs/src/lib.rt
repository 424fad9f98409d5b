//! Certificates that linear inequalities have no solution in whole numbers.
//!
//! `lin_check` adds up linear forms by multipliers. Where the variables cancel out and a positive constant is left, the
//! inequalities that the forms stand for cannot all hold.
#![tactic(auto)]

mod check;
mod column;
mod form;

pub use check::{LinSaid, lin_check};
pub use form::LinForm;

#[cfg(test)]
mod tests;
