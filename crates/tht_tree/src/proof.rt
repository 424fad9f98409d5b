// Proofs.
use crate::plain::{Name, Sort, Spot};
use crate::term::Term;
use sqlite_items::{Boxed, Items};

/// A proof of a formula, at its first token.
#[cycle(proof)]
#[derive(Drop)]
pub struct Proof {
    pub spot: Spot,
    pub kind: ProofKind,
}

/// A proof, by its first word; `as` gives `Recast`. The fields are its parts in their order.
#[cycle(proof)]
#[derive(Drop)]
pub enum ProofKind {
    Hyp(Name),
    Refl,
    Calc,
    /// `as [t] p`
    Recast(Boxed<Term>, Boxed<Proof>),
    Sym(Boxed<Proof>),
    Both(Boxed<Proof>, Boxed<Proof>),
    /// `subst (x : sort . t) [a] [b] p q`
    Subst(Name, Sort, Boxed<Term>, Boxed<Term>, Boxed<Term>, Boxed<Proof>, Boxed<Proof>),
    Pair(Boxed<Proof>, Boxed<Proof>),
    Fst(Boxed<Term>, Boxed<Proof>),
    Snd(Boxed<Term>, Boxed<Proof>),
    Inl(Boxed<Proof>),
    Inr(Boxed<Proof>),
    /// `cases [t] p {h . q} {g . r}`
    Cases(Boxed<Term>, Boxed<Proof>, Name, Boxed<Proof>, Name, Boxed<Proof>),
    /// `fun h . p`
    Fun(Name, Boxed<Proof>),
    App(Boxed<Term>, Boxed<Proof>, Boxed<Proof>),
    Neg(Boxed<Term>, Boxed<Proof>, Boxed<Proof>),
    Absurd(Boxed<Proof>),
    /// `em [t] {h . p} {g . q}`
    Em(Boxed<Term>, Name, Boxed<Proof>, Name, Boxed<Proof>),
    /// `lin k { k1 [t1] p1, .. }`
    Lin(u64, Items<LinEntry>),
    Monus(Boxed<Proof>),
    /// `head [s] [u] p`
    Head(Boxed<Term>, Boxed<Term>, Boxed<Proof>),
    /// `tail [x] [y] p`
    Tail(Boxed<Term>, Boxed<Term>, Boxed<Proof>),
    Nocons,
    Apart(u64, u64),
    Nonnull(u64),
    /// `lemma L(t, ..) p`
    Lemma(Name, Items<Term>, Boxed<Proof>),
    Todo,
}

/// One fact of a linear certificate: its multiplier, the fact, and its proof.
#[cycle(proof)]
#[derive(Drop)]
pub struct LinEntry {
    pub multiplier: u64,
    pub fact: Boxed<Term>,
    pub proof: Boxed<Proof>,
}
