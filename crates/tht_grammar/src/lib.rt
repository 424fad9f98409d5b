//! How tokens and bytes are read, and that this reads what the grammar says and nothing else.
//!
//! There is no function here: `specs/` has the readers as functions on lists, and `proofs/` that they read what
//! the grammar spells. The parser's private contracts say that its functions are these readers.
#![tactic(auto)]
