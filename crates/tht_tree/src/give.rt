// Gives.
use crate::plain::Spot;
use crate::proof::Proof;
use crate::term::Term;
use sqlite_items::Boxed;

/// A proof of an assertion from atoms, at its first token.
#[cycle(give)]
#[derive(Drop)]
pub struct Give {
    pub spot: Spot,
    pub kind: GiveKind,
}

/// A give, by the assertion that it proves. Chains of `*` lean to the left. The number of an atom is as the source has it,
/// below 2^64.
#[cycle(give)]
#[derive(Drop)]
pub enum GiveKind {
    Emp,
    /// `@i`
    Atom(u64),
    /// `[p]`
    Fact(Proof),
    Star(Boxed<Give>, Boxed<Give>),
    /// `ex [t] g`
    Ex(Boxed<Term>, Boxed<Give>),
    Left(Boxed<Give>),
    Right(Boxed<Give>),
    Fold(Boxed<Give>),
}
