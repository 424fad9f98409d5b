// Whether two bodies are one program.
ghost use Rattle.std.specs.Prelude.{◌≡◌, [], IfOk};
ghost use Rattle.tht_logic.specs.Programs.{code};
ghost use Rattle.tht_logic.specs.SamePrograms.{same_program as are_same};
ghost use Rattle.program_forms.specs.Marks.{marks_of};
ghost use Rattle.program_forms.specs.Rows.{code_row};

use crate::binders::Binders;
use crate::bodies::write_body;
use crate::row::{Row, same_rows};
use std::alloc::Global;
use tht_tree::body::Body;
use tht_tree::plain::Memory;

/// Whether the two bodies are one program, once proofs, gives, proof steps, boxes, the numbers of atoms, the names of hypotheses,
/// the arguments of calls in brackets and the names of bound variables are gone, a `case` is its first body and a `dead` its body.
pub fn same_program(alloc: Global, body: &Body, other: &Body) -> Result<bool, Memory>
    ensures { IfOk result (λ same. same ≡ are_same body.now other.now) }
{
    let row = row_of(alloc, body)?;
    let second = row_of(alloc, other)?;
    Ok(same_rows(row, second))
}

// The program of a body in a row.
fn row_of<'a>(alloc: Global, body: &'a Body) -> Result<Row<'a>, Memory>
    ensures { IfOk result (λ row. marks_of row ≡ code_row (code [] body.now []) []) }
{
    let mut binders = Binders::new(alloc);
    let mut row = Row::new(alloc);
    write_body(body, &mut binders, &mut row)?;
    Ok(row)
}
