//! The rules of proofs: whether a proof proves a formula from what is known.
#![tactic(auto)]

mod certificates;
mod facts;
mod forms;
mod formulas;
mod known;
mod leaves;
mod lin;
mod places;
mod prover;
mod refusal;
mod refute;
mod rows;
mod shapes;
mod sizes;
mod sorts;
mod verdict;

pub use known::Known;
pub use prover::prove;
pub use refusal::Refusal;
pub use sizes::state_size;
