//! Laws of names and sorts, and small files with what is refused in each.
//!
//! There is no function here: `proofs/` has the walk of each tree by its uppermost level, that the two ways to find the sort of
//! a term agree, and the files.
#![tactic(auto)]
