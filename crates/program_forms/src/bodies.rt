// Bodies in a row.
ghost use Rattle.std.specs.Prelude.{◌≡◌, ◌∷◌, [], List, ℕ, map, OnOk};
ghost use Rattle.tht_tree.specs.Syntax.{Names, trm};
ghost use Rattle.tht_logic.specs.Programs.{code};
ghost use Rattle.program_forms.specs.declared.row.Word.TheVariants as w;
ghost use Rattle.program_forms.specs.Marks.{a_word, a_sort, a_name, marks_of};
ghost use Rattle.program_forms.specs.Names.{names_of};
ghost use Rattle.program_forms.specs.Outside.{outside};
ghost use Rattle.program_forms.specs.Rows.{trm_row, trms_row, code_row};
ghost use Rattle.program_forms.specs.Statements.{bound_names, binds, unbinds, bound_by, stmt_row, stmts_row, end_row};

use crate::binders::Binders;
use crate::row::{Piece, Row, Word};
use crate::terms::{write_term, write_terms};
use std::alloc::AllocError;
use tht_tree::body::{Body, EndKind, Stmt, StmtKind};
use tht_tree::plain::{Name, Sort};
use tht_tree::term::Term;

/// Puts the program of a body before the pieces. The variables that are bound are so again afterwards.
#[cycle(body)]
pub(crate) fn write_body<'a>(
    body: &'a Body,
    binders: &mut Binders,
    row: &mut Row<'a>,
) -> Result<(), AllocError>
    ensures row { OnOk result (marks_of row.new ≡ code_row (code [] body.now (names_of binders.old)) (marks_of row.old)) }
    ensures names { OnOk result (names_of binders.new ≡ names_of binders.old) }
{
    let stmts = body.stmts.as_slice();
    bind_all(stmts, binders)?;
    write_end(&body.end.kind, binders, row)?;
    write_stmts(stmts, binders, row)?;
    Ok(())
}

// Binds the variables of statements, in their order.
fn bind_all(stmts: &[Stmt], binders: &mut Binders) -> Result<(), AllocError>
    ensures { OnOk result (names_of binders.new ≡ bound_by stmts.now (names_of binders.old)) }
{
    for stmt in stmts {
        bind(&stmt.kind, binders)?;
    }
    Ok(())
}

fn bind(stmt: &StmtKind, binders: &mut Binders) -> Result<(), AllocError>
    ensures { OnOk result (names_of binders.new ≡ binds (bound_names stmt.now) (names_of binders.old)) }
{
    match stmt {
        StmtKind::Read(x, ..) => binders.push(x),
        StmtKind::Alloc(x, ..) => binders.push(x),
        StmtKind::Call(x, ..) => binders.push(x),
        StmtKind::Do(x, ..) => binders.push(x),
        StmtKind::Atomic(x, ..) => binders.push(x),
        StmtKind::Par(x, _, y, ..) => bind_two(x, y, binders),
        _ => Ok(()),
    }
}

fn bind_two(outer: &Name, inner: &Name, binders: &mut Binders) -> Result<(), AllocError>
    ensures { OnOk result (names_of binders.new ≡ inner.now ∷ outer.now ∷ names_of binders.old) }
{
    binders.push(outer)?;
    binders.push(inner)
}

fn unbind(stmt: &StmtKind, binders: &mut Binders) -> Result<(), AllocError>
    ensures { OnOk result (names_of binders.new ≡ unbinds (bound_names stmt.now) (names_of binders.old)) }
{
    match stmt {
        StmtKind::Read(..) => binders.pop(),
        StmtKind::Alloc(..) => binders.pop(),
        StmtKind::Call(..) => binders.pop(),
        StmtKind::Do(..) => binders.pop(),
        StmtKind::Atomic(..) => binders.pop(),
        StmtKind::Par(..) => unbind_two(binders),
        _ => Ok(()),
    }
}

fn unbind_two(binders: &mut Binders) -> Result<(), AllocError>
    ensures { OnOk result (names_of binders.new ≡ outside (outside (names_of binders.old))) }
{
    binders.pop()?;
    binders.pop()
}

// Statements before the pieces of what follows them, from the last on. What they bind is bound before, and no more afterwards.
#[cycle(body)]
#[tactic(auto, using(crate::proofs::Lists::most_last))]
fn write_stmts<'a>(
    stmts: &'a [Stmt],
    binders: &mut Binders,
    row: &mut Row<'a>,
) -> Result<(), AllocError>
    ensures row { OnOk result ((xs : Names) → names_of binders.old ≡ bound_by stmts.now xs → marks_of row.new ≡ stmts_row stmts.now xs (marks_of row.old)) }
    ensures names { OnOk result ((xs : Names) → names_of binders.old ≡ bound_by stmts.now xs → names_of binders.new ≡ xs) }
{
    let mut rest = stmts;
    while let Some((stmt, front)) = rest.split_last() {
        unbind(&stmt.kind, binders)?;
        write_stmt(&stmt.kind, binders, row)?;
        rest = front;
    }
    Ok(())
}

#[cycle(body)]
fn write_stmt<'a>(
    stmt: &'a StmtKind,
    binders: &mut Binders,
    row: &mut Row<'a>,
) -> Result<(), AllocError>
    ensures row { OnOk result (marks_of row.new ≡ stmt_row stmt.now (names_of binders.old) (marks_of row.old)) }
    ensures names { OnOk result (names_of binders.new ≡ names_of binders.old) }
{
    match stmt {
        StmtKind::Read(_, sort, place, ..) => write_read(*sort, place.get(), binders, row),
        StmtKind::Write(place, value, ..) => write_write(place.get(), value.get(), binders, row),
        StmtKind::Alloc(_, cells) => write_alloc(cells.as_slice(), binders, row),
        StmtKind::Free(place, ..) => write_after(Word::Free, place.get(), binders, row),
        StmtKind::Publish(place, ..) => write_after(Word::Publish, place.get(), binders, row),
        StmtKind::Retract(place, ..) => write_after(Word::Retract, place.get(), binders, row),
        StmtKind::Call(_, f, terms, ..) => write_call(f, terms.as_slice(), binders, row),
        StmtKind::Do(_, sort, _, body, _) => {
            write_inner(Word::Nest, *sort, body.get(), binders, row)
        }
        StmtKind::Atomic(_, sort, _, body, _) => {
            write_inner(Word::Atomic, *sort, body.get(), binders, row)
        }
        StmtKind::Par(_, sort, _, other_sort, _, body, _, _, other, _) => {
            write_par(*sort, *other_sort, body.get(), other.get(), binders, row)
        }
        StmtKind::Proof(_) => Ok(()),
    }
}

// A word and a term.
fn write_after<'a>(
    word: Word,
    term: &'a Term,
    binders: &Binders,
    row: &mut Row<'a>,
) -> Result<(), AllocError>
    ensures { OnOk result (marks_of row.new ≡ a_word word ∷ trm_row (trm [] (names_of binders.now) term.now) (marks_of row.old)) }
{
    write_term(term, binders, row)?;
    row.word(word)
}

fn write_read<'a>(
    sort: Sort,
    place: &'a Term,
    binders: &Binders,
    row: &mut Row<'a>,
) -> Result<(), AllocError>
    ensures { OnOk result (marks_of row.new ≡ a_word w.Read ∷ a_sort sort ∷ trm_row (trm [] (names_of binders.now) place.now) (marks_of row.old)) }
{
    write_term(place, binders, row)?;
    row.push(Piece::Sort(sort))?;
    row.word(Word::Read)
}

fn write_write<'a>(
    place: &'a Term,
    value: &'a Term,
    binders: &Binders,
    row: &mut Row<'a>,
) -> Result<(), AllocError>
    ensures { OnOk result (marks_of row.new ≡ a_word w.Write ∷ trm_row (trm [] (names_of binders.now) place.now) (trm_row (trm [] (names_of binders.now) value.now) (marks_of row.old))) }
{
    write_term(value, binders, row)?;
    write_after(Word::Write, place, binders, row)
}

fn write_alloc<'a>(
    values: &'a [Term],
    binders: &Binders,
    row: &mut Row<'a>,
) -> Result<(), AllocError>
    ensures { OnOk result (marks_of row.new ≡ a_word w.Alloc ∷ trms_row (map (trm [] (names_of binders.now)) values.now) (marks_of row.old)) }
{
    write_terms(values, binders, row)?;
    row.word(Word::Alloc)
}

fn write_call<'a>(
    procedure: &'a Name,
    arguments: &'a [Term],
    binders: &Binders,
    row: &mut Row<'a>,
) -> Result<(), AllocError>
    ensures { OnOk result (marks_of row.new ≡ a_word w.Call ∷ a_name procedure.now ∷ trms_row (map (trm [] (names_of binders.now)) arguments.now) (marks_of row.old)) }
{
    write_terms(arguments, binders, row)?;
    row.push(Piece::Name(procedure))?;
    row.word(Word::Call)
}

// A word, a sort and an inner body.
#[cycle(body)]
fn write_inner<'a>(
    word: Word,
    sort: Sort,
    body: &'a Body,
    binders: &mut Binders,
    row: &mut Row<'a>,
) -> Result<(), AllocError>
    ensures row { OnOk result (marks_of row.new ≡ a_word word ∷ a_sort sort ∷ code_row (code [] body.now (names_of binders.old)) (marks_of row.old)) }
    ensures names { OnOk result (names_of binders.new ≡ names_of binders.old) }
{
    write_body(body, binders, row)?;
    row.push(Piece::Sort(sort))?;
    row.word(word)
}

// The two bodies of a fork, with their sorts.
#[cycle(body)]
fn write_par<'a>(
    sort: Sort,
    other_sort: Sort,
    body: &'a Body,
    other: &'a Body,
    binders: &mut Binders,
    row: &mut Row<'a>,
) -> Result<(), AllocError>
    ensures row { OnOk result (marks_of row.new ≡ a_word w.Par ∷ a_sort sort ∷ a_sort other_sort ∷ code_row (code [] body.now (names_of binders.old)) (code_row (code [] other.now (names_of binders.old)) (marks_of row.old))) }
    ensures names { OnOk result (names_of binders.new ≡ names_of binders.old) }
{
    write_bodies(body, other, binders, row)?;
    row.push(Piece::Sort(other_sort))?;
    row.push(Piece::Sort(sort))?;
    row.word(Word::Par)
}

// ---- ends

#[cycle(body)]
fn write_end<'a>(
    end: &'a EndKind,
    binders: &mut Binders,
    row: &mut Row<'a>,
) -> Result<(), AllocError>
    ensures row { OnOk result (marks_of row.new ≡ end_row end.now (names_of binders.old) (marks_of row.old)) }
    ensures names { OnOk result (names_of binders.new ≡ names_of binders.old) }
{
    match end {
        EndKind::Ret(value, _) => write_after(Word::Ret, value.get(), binders, row),
        EndKind::If(t, _, body, other) => {
            write_test(t.get(), body.get(), other.get(), binders, row)
        }
        EndKind::CaseAtom(_, body, _) => write_body(body.get(), binders, row),
        EndKind::CaseBool(_, _, body, _) => write_body(body.get(), binders, row),
        EndKind::CaseSeq(_, _, body, _, _, _) => write_body(body.get(), binders, row),
        EndKind::Dead(_, body) => write_body(body.get(), binders, row),
    }
}

// A test between two bodies.
#[cycle(body)]
fn write_test<'a>(
    test: &'a Term,
    body: &'a Body,
    other: &'a Body,
    binders: &mut Binders,
    row: &mut Row<'a>,
) -> Result<(), AllocError>
    ensures row { OnOk result (marks_of row.new ≡ a_word w.Test ∷ trm_row (trm [] (names_of binders.old) test.now) (code_row (code [] body.now (names_of binders.old)) (code_row (code [] other.now (names_of binders.old)) (marks_of row.old)))) }
    ensures names { OnOk result (names_of binders.new ≡ names_of binders.old) }
{
    write_bodies(body, other, binders, row)?;
    write_after(Word::Test, test, binders, row)
}

#[cycle(body)]
fn write_bodies<'a>(
    body: &'a Body,
    other: &'a Body,
    binders: &mut Binders,
    row: &mut Row<'a>,
) -> Result<(), AllocError>
    ensures row { OnOk result (marks_of row.new ≡ code_row (code [] body.now (names_of binders.old)) (code_row (code [] other.now (names_of binders.old)) (marks_of row.old))) }
    ensures names { OnOk result (names_of binders.new ≡ names_of binders.old) }
{
    write_body(other, binders, row)?;
    write_body(body, binders, row)
}
