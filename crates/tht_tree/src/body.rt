// Bodies.
ghost use Rattle.std.specs.Prelude.{◌≡◌, ◌↔◌, ◌<◌, ◌≤◌, [], ◌∷◌, ◌++◌, length, IfOk, IsTrue, OnErr, OnOk};

use crate::assn::Assn;
use crate::give::Give;
use crate::plain::{Name, Sort, Spot};
use crate::proof::Proof;
use crate::step::Step;
use crate::term::{Term, copy_terms, same_terms};
use sqlite_items::{Boxed, Items};
use std::alloc::{AllocError, Global};
use std::marker::Model;

/// Statements, and how they end.
#[cycle(body)]
#[derive(Drop)]
pub struct Body {
    pub stmts: Items<Stmt>,
    pub end: End,
}

/// A statement, at its first token.
#[cycle(body)]
#[derive(Drop)]
pub struct Stmt {
    pub spot: Spot,
    pub kind: StmtKind,
}

/// A statement. The number of an atom is as the source has it, below 2^64.
#[cycle(body)]
#[derive(Drop)]
pub enum StmtKind {
    /// `x : sort <- read place at atom as h by proof`
    Read(Name, Sort, Boxed<Term>, u64, Name, Proof),
    /// `write place value at atom by proof`
    Write(Boxed<Term>, Boxed<Term>, u64, Proof),
    /// `x <- alloc (value, ..)`: one to eight cells.
    Alloc(Name, Cells),
    /// `free place at atom by proof`
    Free(Boxed<Term>, u64, Proof),
    /// `publish place at atom by proof`
    Publish(Boxed<Term>, u64, Proof),
    /// `retract place at atom by proof`
    Retract(Boxed<Term>, u64, Proof),
    /// `x <- call f(argument, ..)[logical argument, ..] by give`
    Call(Name, Name, Items<Term>, Items<Term>, Give),
    /// `x : sort <- do (atom, ..) body {box}`
    Do(Name, Sort, Items<u64>, Boxed<Body>, Assn),
    /// `x : sort <- atomic (atom, ..) body {box}`
    Atomic(Name, Sort, Items<u64>, Boxed<Body>, Assn),
    /// `(x : sort, y : sort) <- par (atom, ..) body {box} (atom, ..) body {box}`
    Par(Name, Sort, Name, Sort, Items<u64>, Boxed<Body>, Assn, Items<u64>, Boxed<Body>, Assn),
    Proof(Step),
}

/// What an `alloc` puts into the cells that it makes, in their order: one to eight terms. Contracts see the list.
#[derive(Drop)]
pub struct Cells {
    terms: Items<Term>,
}

impl Model for Cells {
    ghost use Rattle.std.specs.Prelude.{List, ◌≤◌, length};
    ghost use Rattle.std.specs.Coded.{coded_list};
    ghost use Rattle.tht_tree.specs.declared.term.Term.{Term};
    ghost use Rattle.tht_tree.specs.contracts.term.Term as term;

    ghost Value = { List Term };

    ghost coded = { coded_list term.the_row.coded };

    ghost view = { λ c. c.terms };

    ghost invariant = { λ c. (1 ≤ length c.terms) × (length c.terms ≤ 8) };
}

impl Cells {
    /// Cells with these values, of which there are one to eight.
    pub fn new(terms: Items<Term>) -> Cells
        requires at_least_one { 1 ≤ length terms }
        requires at_most_eight { length terms ≤ 8 }
        ensures { result ≡ terms }
    {
        Cells { terms }
    }

    /// One cell with this value.
    pub fn one(alloc: Global, first: Term) -> Result<Cells, AllocError>
        ensures { IfOk result (λ c. c ≡ first ∷ []) }
    {
        let mut terms = Items::new(alloc);
        terms.push(first)?;
        Ok(Cells { terms })
    }

    /// Adds a cell behind the others, of which there may be at most seven.
    pub fn push(&mut self, term: Term) -> Result<(), AllocError>
        requires { length self.old < 8 }
        ensures ok { OnOk result (self.new ≡ self.old ++ term ∷ []) }
        ensures err { OnErr result (self.new ≡ self.old) }
    {
        self.terms.push(term)
    }

    pub fn as_slice(&self) -> &[Term]
        ensures terms { result.now ≡ self.now }
        ensures at_least_one { 1 ≤ length self.now }
        ensures at_most_eight { length self.now ≤ 8 }
    {
        self.terms.as_slice()
    }

    /// Equal cells.
    pub fn copy(&self, alloc: Global) -> Result<Cells, AllocError>
        ensures { IfOk result (λ c. c ≡ self.now) }
    {
        let terms = copy_terms(alloc, &self.terms)?;
        Ok(Cells { terms })
    }

    /// Whether the two hold the same terms.
    pub fn same(&self, other: &Cells) -> bool
        ensures { IsTrue result ↔ (self.now ≡ other.now) }
    {
        same_terms(&self.terms, &other.terms)
    }
}

/// The end of a body, at its first token.
#[cycle(body)]
#[derive(Drop)]
pub struct End {
    pub spot: Spot,
    pub kind: EndKind,
}

#[cycle(body)]
#[derive(Drop)]
pub enum EndKind {
    /// `ret value by give`
    Ret(Boxed<Term>, Give),
    /// `if t as h body else body`
    If(Boxed<Term>, Name, Boxed<Body>, Boxed<Body>),
    /// `case i body body`: an `either` by its atom's number.
    CaseAtom(u64, Boxed<Body>, Boxed<Body>),
    /// `case [t] as h body body`
    CaseBool(Boxed<Term>, Name, Boxed<Body>, Boxed<Body>),
    /// `case seq t as h body x s body`
    CaseSeq(Boxed<Term>, Name, Boxed<Body>, Name, Name, Boxed<Body>),
    /// `dead proof body`
    Dead(Proof, Boxed<Body>),
}
