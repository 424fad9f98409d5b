//! The laws of assertions, steps, gives, statements and returns: what the rules accept is true of heaps.
//!
//! The statements stand in `specs/`, and their proofs in `proofs/`. There is no function here.
#![tactic(auto)]
