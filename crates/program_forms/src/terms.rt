// Terms in a row.
ghost use Rattle.std.specs.Prelude.{◌≡◌, ◌∷◌, [], map, OnOk};
ghost use Rattle.tht_tree.specs.Syntax.{trm, named, position};
ghost use Rattle.program_forms.specs.Marks.{an_op, mark_of, marks_of};
ghost use Rattle.program_forms.specs.Names.{names_of};
ghost use Rattle.program_forms.specs.Rows.{trm_row, trms_row};

use crate::binders::Binders;
use crate::row::{Op, Piece, Row, Word};
use std::alloc::AllocError;
use tht_tree::plain::Name;
use tht_tree::term::Term;

/// Puts a term before the pieces.
#[cycle(term)]
pub(crate) fn write_term<'a>(
    term: &'a Term,
    binders: &Binders,
    row: &mut Row<'a>,
) -> Result<(), AllocError>
    ensures { OnOk result (marks_of row.new ≡ trm_row (trm [] (names_of binders.now) term.now) (marks_of row.old)) }
{
    match term {
        Term::Num(n) => row.push(Piece::Number(*n)),
        Term::True => row.push(Piece::True),
        Term::False => row.push(Piece::False),
        Term::Null => row.push(Piece::Null),
        Term::Nil => row.push(Piece::Nil),
        Term::Unit => row.push(Piece::Unit),
        Term::Var(x) => write_name(x, binders, row),
        Term::Len(a) => write_under(a.get(), Piece::Word(Word::Len), binders, row),
        Term::Offset(a, k) => write_under(a.get(), Piece::Offset(*k), binders, row),
        Term::Mul(a, b) => write_both(a.get(), b.get(), Op::Mul, binders, row),
        Term::Add(a, b) => write_both(a.get(), b.get(), Op::Add, binders, row),
        Term::Sub(a, b) => write_both(a.get(), b.get(), Op::Sub, binders, row),
        Term::Cons(a, b) => write_both(a.get(), b.get(), Op::Cons, binders, row),
        Term::Cat(a, b) => write_both(a.get(), b.get(), Op::Cat, binders, row),
        Term::Eq(a, b) => write_both(a.get(), b.get(), Op::Eq, binders, row),
        Term::Lt(a, b) => write_both(a.get(), b.get(), Op::Lt, binders, row),
        Term::Le(a, b) => write_both(a.get(), b.get(), Op::Le, binders, row),
        Term::Not(a) => write_under(a.get(), Piece::Word(Word::Not), binders, row),
        Term::And(a, b) => write_both(a.get(), b.get(), Op::And, binders, row),
        Term::Or(a, b) => write_both(a.get(), b.get(), Op::Or, binders, row),
        Term::Imp(a, b) => write_both(a.get(), b.get(), Op::Imp, binders, row),
    }
}

// A term under an operation.
#[cycle(term)]
fn write_under<'a>(
    term: &'a Term,
    piece: Piece<'a>,
    binders: &Binders,
    row: &mut Row<'a>,
) -> Result<(), AllocError>
    ensures { OnOk result (marks_of row.new ≡ mark_of piece.entry ∷ trm_row (trm [] (names_of binders.now) term.now) (marks_of row.old)) }
{
    write_term(term, binders, row)?;
    row.push(piece)
}

// An operation on two terms.
#[cycle(term)]
fn write_both<'a>(
    left: &'a Term,
    right: &'a Term,
    op: Op,
    binders: &Binders,
    row: &mut Row<'a>,
) -> Result<(), AllocError>
    ensures { OnOk result (marks_of row.new ≡ an_op op ∷ trm_row (trm [] (names_of binders.now) left.now) (trm_row (trm [] (names_of binders.now) right.now) (marks_of row.old))) }
{
    write_term(right, binders, row)?;
    write_term(left, binders, row)?;
    row.push(Piece::Op(op))
}

// A variable, by its position where it is bound.
fn write_name<'a>(name: &'a Name, binders: &Binders, row: &mut Row<'a>) -> Result<(), AllocError>
    ensures { OnOk result (marks_of row.new ≡ trm_row (named [] name.now (position 0 (names_of binders.now) name.now)) (marks_of row.old)) }
{
    match binders.position(name) {
        Some(k) => row.push(Piece::Bound(k)),
        None => row.push(Piece::Name(name)),
    }
}

/// Puts terms before the pieces.
#[tactic(auto, using(crate::proofs::Lists::items_last))]
pub(crate) fn write_terms<'a>(
    terms: &'a [Term],
    binders: &Binders,
    row: &mut Row<'a>,
) -> Result<(), AllocError>
    ensures { OnOk result (marks_of row.new ≡ trms_row (map (trm [] (names_of binders.now)) terms.now) (marks_of row.old)) }
{
    row.word(Word::End)?;
    let mut rest = terms;
    while let Some((term, front)) = rest.split_last() {
        write_term(term, binders, row)?;
        row.word(Word::More)?;
        rest = front;
    }
    Ok(())
}
