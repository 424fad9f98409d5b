// Names and sorts: what a name stands for, and what a file is refused for.
use crate::decl::Access;
use crate::plain::{Name, Sort, Spot};
use sqlite_items::Items;

/// Why a construct is refused whose names and sorts are not in order, by the codes that are printed.
#[derive(Clone, Copy, Debug, PartialEq, Eq)]
pub enum WalkCode {
    /// A name that is not in scope.
    N1,
    /// A name that is bound where it is in scope already.
    N2,
    /// A name of another class than wanted.
    N3,
    /// Another number of arguments.
    N4,
    /// A second invariant, a root behind the invariant, or an invariant behind a transaction or a procedure.
    N5,
    /// A root in a file without an invariant.
    N6,
    /// A predicate or a lemma that names itself where it may not.
    N7,
    /// A term of another sort than wanted.
    S1,
    /// A logical variable, or a part of sort `seq`, in a program term.
    S2,
    /// An assertion of a kind that is not allowed there.
    S3,
    /// A statement or an end that is not allowed there.
    S4,
    /// The sort `seq` where a cell, a parameter of a command or a result must be able to hold the value.
    S5,
}

/// What is refused: the construct at this place, for this reason.
#[derive(Clone, Copy, Debug, PartialEq, Eq)]
pub struct WalkRefusal {
    pub spot: Spot,
    pub code: WalkCode,
}

// ---- names

/// The sorts of the parameters, of the logical variables and of the result of a transaction or a procedure.
#[derive(Drop)]
pub struct Signature {
    pub params: Items<Sort>,
    pub logic: Items<Sort>,
    pub result: Sort,
}

/// Where a predicate or a lemma may be named: anywhere, once it is declared; inside its declaration nowhere, or only with
/// this variable as the argument of this number, from 0.
#[derive(Drop)]
pub enum Naming {
    Anywhere,
    Nowhere,
    Only { argument: usize, variable: Name },
}

/// What a name stands for.
#[derive(Drop)]
pub enum Class {
    Root,
    /// Its access, the sorts of its parameters, and where it may be named.
    Predicate(Access, Items<Sort>, Naming),
    /// The sorts of its parameters, and where it may be named.
    Lemma(Items<Sort>, Naming),
    Txn(Signature),
    Proc(Signature),
    /// A variable of the program: a parameter of a transaction or a procedure, or the result of a statement.
    Program(Sort),
    /// A variable of the logic.
    Logic(Sort),
    Hypothesis,
}

// ---- sorts

/// Why a term has no sort.
#[derive(Drop)]
pub enum SortEnd {
    /// A name that is no variable and no root.
    Unknown { name: Name },
    /// A part of another sort than wanted.
    Clash { wanted: Sort, found: Sort },
    /// A logical variable or a part of sort `seq`, where the term is one of the program.
    LogicOnly,
    /// Want of memory.
    Memory,
}

/// What is found in a term of a construct: the first in the table of codes of all that is refused in it, and the sort of
/// what it makes, which a name that stands for no value has not.
#[derive(Clone, Copy, Debug, PartialEq, Eq)]
pub struct Found {
    pub code: Option<WalkCode>,
    pub sort: Option<Sort>,
}

// ---- assertions and bodies

/// Which cells an assertion speaks of: none, and no predicate; private cells and predicates alone; shared ones alone; or both.
#[derive(Clone, Copy, Debug, PartialEq, Eq)]
pub enum Kind {
    Pure,
    Private,
    Shared,
    Mixed,
}

/// Where a statement stands: in a procedure or main; in an atomic block or a transaction; or in a lemma.
#[derive(Clone, Copy, Debug, PartialEq, Eq)]
pub enum Where {
    Outside,
    Inside,
    InLemma,
}

/// Where a body stands, and the sort of what it returns.
#[derive(Clone, Copy, Debug, PartialEq, Eq)]
pub struct Frame {
    pub place: Where,
    pub result: Sort,
}
