//! The forms of proofs that differ in their first word alone.
ghost use Rattle.std.specs.Prelude.{◌≡◌};
ghost use Rattle.tht_parse.specs.Forms.{over_proof, over_proofs, over_term, over_term_and_proofs, over_terms};

use sqlite_items::Boxed;
use tht_tree::proof::{Proof, ProofKind};
use tht_tree::term::Term;

/// A word and a proof.
#[derive(Clone, Copy, Debug)]
pub enum OverProof {
    Sym,
    Inl,
    Inr,
    Absurd,
    Monus,
}

impl OverProof {
    pub fn of(self, proof: Boxed<Proof>) -> ProofKind
        ensures { result ≡ over_proof self proof }
    {
        match self {
            OverProof::Sym => ProofKind::Sym(proof),
            OverProof::Inl => ProofKind::Inl(proof),
            OverProof::Inr => ProofKind::Inr(proof),
            OverProof::Absurd => ProofKind::Absurd(proof),
            OverProof::Monus => ProofKind::Monus(proof),
        }
    }
}

/// A word and two proofs.
#[derive(Clone, Copy, Debug)]
pub enum OverProofs {
    Both,
    Pair,
}

impl OverProofs {
    pub fn of(self, first: Boxed<Proof>, second: Boxed<Proof>) -> ProofKind
        ensures { result ≡ over_proofs self first second }
    {
        match self {
            OverProofs::Both => ProofKind::Both(first, second),
            OverProofs::Pair => ProofKind::Pair(first, second),
        }
    }
}

/// A word, a term in brackets and a proof.
#[derive(Clone, Copy, Debug)]
pub enum OverTerm {
    Recast,
    Fst,
    Snd,
}

impl OverTerm {
    pub fn of(self, term: Boxed<Term>, proof: Boxed<Proof>) -> ProofKind
        ensures { result ≡ over_term self term proof }
    {
        match self {
            OverTerm::Recast => ProofKind::Recast(term, proof),
            OverTerm::Fst => ProofKind::Fst(term, proof),
            OverTerm::Snd => ProofKind::Snd(term, proof),
        }
    }
}

/// A word, a term in brackets and two proofs.
#[derive(Clone, Copy, Debug)]
pub enum OverTermAndProofs {
    App,
    Neg,
}

impl OverTermAndProofs {
    pub fn of(self, term: Boxed<Term>, first: Boxed<Proof>, second: Boxed<Proof>) -> ProofKind
        ensures { result ≡ over_term_and_proofs self term first second }
    {
        match self {
            OverTermAndProofs::App => ProofKind::App(term, first, second),
            OverTermAndProofs::Neg => ProofKind::Neg(term, first, second),
        }
    }
}

/// A word, two terms in brackets and a proof.
#[derive(Clone, Copy, Debug)]
pub enum OverTerms {
    Head,
    Tail,
}

impl OverTerms {
    pub fn of(self, first: Boxed<Term>, second: Boxed<Term>, proof: Boxed<Proof>) -> ProofKind
        ensures { result ≡ over_terms self first second proof }
    {
        match self {
            OverTerms::Head => ProofKind::Head(first, second, proof),
            OverTerms::Tail => ProofKind::Tail(first, second, proof),
        }
    }
}
