//! The law of the rules of bodies: what they accept is sound.
//!
//! The statements stand in `specs/`, and their proofs in `proofs/`. There is no function here.
#![tactic(auto)]
