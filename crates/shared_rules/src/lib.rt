//! Rules that inner bodies share: atoms that are dealt.
#![tactic(auto)]

mod dealing;

pub use dealing::deal;
