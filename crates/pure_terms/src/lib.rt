//! Terms put in for names, normal forms of terms, and linear readings of comparisons.
#![tactic(auto)]

mod factors;
mod forms;
mod formulas;
mod inside;
mod linear;
mod normalize;
mod order;
mod put;
mod puts;
mod queue;
mod sorts;
mod subst;
mod sums;
mod trees;
mod zeros;

pub use inside::outside;
pub use linear::{coefficient, columns, reading, row};
pub use normalize::normal;
pub use order::compare_terms;
pub use put::{levels_inside, put_in, size_inside, term_inside, zeros_inside};
pub use puts::Inside;
pub use sorts::{Scope, sort_in};
pub use subst::Subst;
