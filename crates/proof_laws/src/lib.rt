//! The rules of proofs are sound.
#![tactic(auto)]
