// Proof steps.
use crate::give::Give;
use crate::plain::{Name, Sort, Spot};
use crate::proof::Proof;
use crate::term::Term;
use sqlite_items::{Boxed, Items};

/// A proof step, at its first token.
#[derive(Drop)]
pub struct Step {
    pub spot: Spot,
    pub kind: StepKind,
}

/// A proof step. The number of an atom is as the source has it, below 2^64.
#[derive(Drop)]
pub enum StepKind {
    /// `have h : t by p`
    Have(Name, Boxed<Term>, Proof),
    /// `open i as x : sort`
    OpenVar(u64, Name, Sort),
    /// `open i as h`
    OpenFact(u64, Name),
    /// `unfold i`
    Unfold(u64),
    /// `fold P(t, ..) by g`
    Fold(Name, Items<Term>, Give),
    /// `rewrite i k to u by p`
    Rewrite(u64, u64, Boxed<Term>, Proof),
    /// `use L(t, ..) by g`
    Use(Name, Items<Term>, Give),
}
