//! Tests of the walk over names and sorts of terms. They stand in a crate of their own, so that what they test is proved once.
#![tactic(auto)]

#[cfg(test)]
mod tests;
