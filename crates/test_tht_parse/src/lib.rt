//! Tests of the parser, and of copies and comparisons of what it reads. They stand in a crate of their own, so that what they test is proved once.
#![tactic(auto)]

#[cfg(test)]
mod tests;
