//! That normal forms, terms put in for names, and linear readings keep what terms mean.
//!
//! There is no function here: the definitions stand in `tht_tree`, and `proofs/` has their laws, with samples that are
//! worked out by hand.
#![tactic(auto)]
