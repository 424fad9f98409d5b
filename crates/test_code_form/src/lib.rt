//! Tests of numbered code. They stand in a crate of their own, so that what they test is proved once.
#![tactic(auto)]

#[cfg(test)]
mod machine;
#[cfg(test)]
mod plain;
#[cfg(test)]
mod tests;
