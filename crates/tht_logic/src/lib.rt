//! The program logic: the machine and its runs, assertions and what they hold of, the rules of gives, steps, statements and
//! bodies, soundness, and what the program answers.
//!
//! There are definitions here, in `specs/`, and laws, in `proofs/`, and no function. The crates of names, sorts, terms, proofs and
//! texts need none of it.
#![tactic(auto)]
