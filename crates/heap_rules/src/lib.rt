//! Gives and proof steps.
#![tactic(auto)]

mod added;
mod atoms;
mod consumed;
mod folding;
mod gives;
mod names;
mod opening;
mod parts;
mod places;
mod predicates;
mod procs;
mod refusals;
mod rewriting;
mod shapes;
mod sizes;
mod steps;
mod taking;

pub use added::{add_atoms, has_room, replace_atom};
pub use atoms::{ascend, find_atom, forget, nodes_with, nodes_without, set_atom, take_atom};
pub use names::bind;
pub use places::Predicates;
pub use refusals::{put_within, refused};
pub use shapes::{Sides, as_disjunction};
pub use sizes::{
    assn_fits, atoms_count, atoms_size, context_is_within, formula_fits, pair_fits, pair_size,
};
pub use taking::{take_give, take_step};
