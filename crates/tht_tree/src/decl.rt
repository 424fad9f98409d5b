// Declarations.
use crate::assn::Assn;
use crate::body::Body;
use crate::give::Give;
use crate::plain::{Name, Sort, Spot};
use sqlite_items::{Boxed, Items};

/// A name with its sort.
#[derive(Drop)]
pub struct Param {
    pub name: Name,
    pub sort: Sort,
}

/// What a procedure or a transaction asks and gives: its parameters, its logical variables, its precondition, and its
/// postcondition, which speaks of the result by this name.
#[derive(Drop)]
pub struct Head {
    pub name: Name,
    pub params: Items<Param>,
    pub logic: Items<Param>,
    pub pre: Assn,
    pub result: Name,
    pub sort: Sort,
    pub post: Assn,
}

/// The first value of a root.
#[derive(Drop)]
pub enum Initial {
    Num(u64),
    True,
    False,
    Null,
    Unit,
    /// The place of the root with this name.
    Root(Name),
}

/// How a lemma is proved.
#[derive(Drop)]
pub enum LemmaKind {
    Plain(Boxed<Body>),
    /// By cases on a parameter that is a sequence: for `nil`, and for a head and a tail.
    OnSeq(Name, Boxed<Body>, Name, Name, Boxed<Body>),
    /// By cases on a parameter that is a number: for 0, and for one more than a number.
    OnNat(Name, Boxed<Body>, Name, Boxed<Body>),
}

/// A lemma, at its first token.
#[derive(Drop)]
pub struct Lemma {
    pub spot: Spot,
    pub name: Name,
    pub params: Items<Param>,
    pub pre: Assn,
    pub post: Assn,
    pub kind: LemmaKind,
}

/// A declaration, at its first token.
#[derive(Drop)]
pub struct Decl {
    pub spot: Spot,
    pub kind: DeclKind,
}

/// Whether a predicate speaks of shared cells or of private ones.
#[derive(Clone, Copy, Debug, PartialEq, Eq)]
pub enum Access {
    Private,
    Shared,
}

/// A declaration.
#[derive(Drop)]
pub enum DeclKind {
    Root(Name, Sort, Initial),
    Invariant(Assn, Give),
    /// Its access, its name, its parameters and its definition.
    Pred(Access, Name, Items<Param>, Assn),
    /// Its access, its name, its parameters, the one that it is defined by cases on, its definition for `nil`,
    /// the names of a head and a tail, and its definition for these.
    PredOn(Access, Name, Items<Param>, Name, Assn, Name, Name, Assn),
    Lemma(Boxed<Lemma>),
    Txn(Boxed<Head>, Boxed<Body>),
    Proc(Boxed<Head>, Boxed<Body>),
}
