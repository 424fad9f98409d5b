//! What is printed spells the same file.
#![tactic(auto)]
