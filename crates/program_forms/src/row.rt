// A program in a row.
ghost use Rattle.std.specs.Prelude.{◌≡◌, ◌∷◌, ◌↔◌, [], IsTrue, MatchOption, OnOk};
ghost use Rattle.program_forms.specs.Marks.{Mark, a_word, mark_of, marks_of, same_mark, same_row};

use std::alloc::{AllocError, Global};
use tht_tree::plain::{Name, Sort};

/// What a form of a program or a term begins with, where it has no more to say. The arguments of a call and the values of an
/// `alloc` each stand behind `More`, and `End` ends them.
#[derive(Clone, Copy, PartialEq, Eq)]
pub(crate) enum Word {
    Ret,
    Test,
    Read,
    Write,
    Alloc,
    Free,
    Publish,
    Retract,
    Call,
    Nest,
    Atomic,
    Par,
    More,
    End,
    Len,
    Not,
}

/// An operation on two terms.
#[derive(Clone, Copy, PartialEq, Eq)]
pub(crate) enum Op {
    Mul,
    Add,
    Sub,
    Cons,
    Cat,
    Eq,
    Lt,
    Le,
    And,
    Or,
    Imp,
}

/// A piece of a program in a row.
#[derive(Clone, Copy)]
pub(crate) enum Piece<'a> {
    Word(Word),
    Op(Op),
    Sort(Sort),
    Number(u128),
    True,
    False,
    Null,
    Nil,
    Unit,
    /// A procedure, or a variable that is not bound.
    Name(&'a Name),
    /// A variable by the number of binders between.
    Bound(usize),
    Offset(u8),
}

// Whether the two are one.
fn same_piece(piece: Piece<'_>, other: Piece<'_>) -> bool
    ensures { result ≡ same_mark (mark_of piece.entry) (mark_of other.entry) }
{
    match (piece, other) {
        (Piece::Word(a), Piece::Word(b)) => a == b,
        (Piece::Op(a), Piece::Op(b)) => a == b,
        (Piece::Sort(r), Piece::Sort(s)) => r == s,
        (Piece::Number(m), Piece::Number(n)) => m == n,
        (Piece::True, Piece::True) => true,
        (Piece::False, Piece::False) => true,
        (Piece::Null, Piece::Null) => true,
        (Piece::Nil, Piece::Nil) => true,
        (Piece::Unit, Piece::Unit) => true,
        (Piece::Name(x), Piece::Name(y)) => x.as_str() == y.as_str(),
        (Piece::Bound(k), Piece::Bound(l)) => k == l,
        (Piece::Offset(k), Piece::Offset(l)) => k == l,
        _ => false,
    }
}

/// A program in a row. It is written from its last piece to its first, and read from its first on.
#[derive(Drop)]
pub(crate) struct Row<'a> {
    stack: Vec<Piece<'a>>,
}

#[tactic(auto, unfolding(crate::specs::Marks::marks_of))]
impl<'a> Row<'a> {
    pub fn new(alloc: Global) -> Row<'a>
        ensures { marks_of result ≡ [] }
    {
        Row {
            stack: Vec::new(alloc),
        }
    }

    /// Puts a piece before the others.
    pub fn push(&mut self, piece: Piece<'a>) -> Result<(), AllocError>
        ensures { OnOk result (marks_of self.new ≡ mark_of piece.entry ∷ marks_of self.old) }
    {
        self.stack.push(piece)?;
        Ok(())
    }

    /// Puts a word before the pieces.
    pub fn word(&mut self, word: Word) -> Result<(), AllocError>
        ensures { OnOk result (marks_of self.new ≡ a_word word ∷ marks_of self.old) }
    {
        self.push(Piece::Word(word))
    }

    /// Takes the first piece.
    fn pop(&mut self) -> Option<Piece<'a>>
        ensures { MatchOption result (marks_of self.old ≡ []) (λ piece. marks_of self.old ≡ mark_of piece ∷ marks_of self.new) }
    {
        self.stack.pop()
    }

    fn is_empty(&self) -> bool
        ensures { IsTrue result ↔ (marks_of self.now ≡ []) }
    {
        self.stack.is_empty()
    }
}

/// Whether the two are one row.
pub(crate) fn same_rows(row: Row<'_>, other: Row<'_>) -> bool
    ensures { result ≡ same_row (marks_of row.entry) (marks_of other.entry) }
{
    let (mut left, mut right) = (row, other);
    while let Some(piece) = left.pop() {
        let Some(second) = right.pop() else {
            return false;
        };
        if !same_piece(piece, second) {
            return false;
        }
    }
    right.is_empty()
}
