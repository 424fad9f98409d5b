// The nodes of statements, ends and bodies.
ghost use Rattle.std.specs.Prelude.{◌≡◌, ◌++◌, [], ◌∷◌, ℕ, List, map, reverse, unwrap_or, length, IfOk, OnOk};
ghost use Rattle.tht_tree.specs.Syntax.{Names, trm};
ghost use Rattle.tht_tree.specs.declared.plain.Sort.{Sort as SortOf};
ghost use Rattle.tht_logic.specs.Programs.{test, atomic, par, code, end_code, stmt_kind_code};
ghost use Rattle.code_form.specs.Lowering.{expr_of, number_in, end_node, Emitted, Lowered, StmtLowered, StmtsLowered, Bound, Unbound, bound_by, bound_in};

use crate::code::Node;
use crate::expr::Expr;
use crate::names::ProcNames;
use crate::terms::{lower_all, lower_term};
use crate::values::Row;
use sqlite_items::Items;
use std::alloc::Global;
use tht_tree::body::{Body, Cells, End, EndKind, Stmt, StmtKind};
use tht_tree::plain::{Memory, Name, Sort};
use tht_tree::term::Term;

/// What follows the value of a body: its caller, or, for an inner body, outside of which so many variables are bound, the node
/// with this number.
#[derive(Clone, Copy, Debug)]
pub(crate) enum Behind {
    Caller,
    Inside(usize, usize),
}

/// What is made so far: the names of the procs, the names that are bound here, the innermost last, and the nodes.
#[derive(Drop)]
pub(crate) struct Work {
    pub procs: ProcNames,
    pub bound: Items<Name>,
    pub nodes: Items<Node>,
}

// ---- nodes

fn emit(node: Node, work: &mut Work) -> Result<usize, Memory>
    ensures { IfOk result (λ i. Emitted work.old work.new node i) }
{
    let number = work.nodes.len();
    work.nodes.push(node)?;
    Ok(number)
}

fn emit_read(
    alloc: Global,
    sort: Sort,
    place: &Term,
    next: usize,
    work: &mut Work,
) -> Result<usize, Memory>
    ensures { IfOk result (λ i. Emitted work.old work.new (Node.Read sort (expr_of (reverse work.old.bound) place.now) next) i) }
{
    let place = lower_term(alloc, place, work.bound.as_slice())?;
    emit(Node::Read(sort, place, next), work)
}

fn emit_write(
    alloc: Global,
    place: &Term,
    value: &Term,
    next: usize,
    work: &mut Work,
) -> Result<usize, Memory>
    ensures { IfOk result (λ i. Emitted work.old work.new (Node.Write (expr_of (reverse work.old.bound) place.now) (expr_of (reverse work.old.bound) value.now) next) i) }
{
    let place = lower_term(alloc, place, work.bound.as_slice())?;
    let value = lower_term(alloc, value, work.bound.as_slice())?;
    emit(Node::Write(place, value, next), work)
}

fn emit_alloc(alloc: Global, cells: &Cells, next: usize, work: &mut Work) -> Result<usize, Memory>
    ensures { IfOk result (λ i. Emitted work.old work.new (Node.Alloc (map (expr_of (reverse work.old.bound)) cells.now) next) i) }
{
    let exprs = lower_all(alloc, cells.as_slice(), work.bound.as_slice())?;
    emit(Node::Alloc(Row::new(exprs), next), work)
}

fn emit_free(alloc: Global, place: &Term, next: usize, work: &mut Work) -> Result<usize, Memory>
    ensures { IfOk result (λ i. Emitted work.old work.new (Node.Free (expr_of (reverse work.old.bound) place.now) next) i) }
{
    let place = lower_term(alloc, place, work.bound.as_slice())?;
    emit(Node::Free(place, next), work)
}

fn emit_call(
    alloc: Global,
    callee: &Name,
    arguments: &[Term],
    next: usize,
    work: &mut Work,
) -> Result<usize, Memory>
    ensures { IfOk result (λ i. Emitted work.old work.new (Node.Call (number_in work.old.procs callee.now) (map (expr_of (reverse work.old.bound)) arguments.now) next) i) }
{
    let callee = work.procs.number_of(callee);
    let arguments = lower_all(alloc, arguments, work.bound.as_slice())?;
    emit(Node::Call(callee, arguments, next), work)
}

fn emit_publish(alloc: Global, place: &Term, next: usize, work: &mut Work) -> Result<usize, Memory>
    ensures { IfOk result (λ i. Emitted work.old work.new (Node.Publish (expr_of (reverse work.old.bound) place.now) next) i) }
{
    let place = lower_term(alloc, place, work.bound.as_slice())?;
    emit(Node::Publish(place, next), work)
}

fn emit_retract(alloc: Global, place: &Term, next: usize, work: &mut Work) -> Result<usize, Memory>
    ensures { IfOk result (λ i. Emitted work.old work.new (Node.Retract (expr_of (reverse work.old.bound) place.now) next) i) }
{
    let place = lower_term(alloc, place, work.bound.as_slice())?;
    emit(Node::Retract(place, next), work)
}

fn end_with(value: Expr, behind: Behind, bound: &[Name]) -> Node
    ensures { result ≡ end_node bound.now behind value }
{
    match behind {
        Behind::Caller => Node::Ret(value),
        Behind::Inside(keep, next) => Node::Leave(value, bound.len().saturating_sub(keep), next),
    }
}

fn emit_end(alloc: Global, value: &Term, behind: Behind, work: &mut Work) -> Result<usize, Memory>
    ensures { IfOk result (λ i. Emitted work.old work.new (end_node work.old.bound behind (expr_of (reverse work.old.bound) value.now)) i) }
{
    let value = lower_term(alloc, value, work.bound.as_slice())?;
    let end = end_with(value, behind, work.bound.as_slice());
    emit(end, work)
}

fn emit_if(
    alloc: Global,
    condition: &Term,
    yes: usize,
    no: usize,
    work: &mut Work,
) -> Result<usize, Memory>
    ensures { IfOk result (λ i. Emitted work.old work.new (Node.If (expr_of (reverse work.old.bound) condition.now) yes no) i) }
{
    let condition = lower_term(alloc, condition, work.bound.as_slice())?;
    emit(Node::If(condition, yes, no), work)
}

// ---- names

fn bind_name(name: &Name, work: &mut Work) -> Result<(), Memory>
    ensures { OnOk result (Bound work.old work.new (name.now ∷ [])) }
{
    let name = name.copy()?;
    work.bound.push(name)?;
    Ok(())
}

fn bind_two(outer: &Name, inner: &Name, work: &mut Work) -> Result<(), Memory>
    ensures { OnOk result (Bound work.old work.new (outer.now ∷ inner.now ∷ [])) }
{
    bind_name(outer, work)?;
    bind_name(inner, work)
}

// Binds what a statement binds.
fn bind(kind: &StmtKind, work: &mut Work) -> Result<(), Memory>
    ensures { OnOk result (Bound work.old work.new (bound_by kind.now)) }
{
    match kind {
        StmtKind::Read(x, _, _, _, _, _) => bind_name(x, work),
        StmtKind::Alloc(x, _) => bind_name(x, work),
        StmtKind::Call(x, _, _, _, _) => bind_name(x, work),
        StmtKind::Do(x, _, _, _, _) => bind_name(x, work),
        StmtKind::Atomic(x, _, _, _, _) => bind_name(x, work),
        StmtKind::Par(x, _, y, _, _, _, _, _, _, _) => bind_two(x, y, work),
        _ => Ok(()),
    }
}

fn bind_all(stmts: &[Stmt], work: &mut Work) -> Result<(), Memory>
    ensures { OnOk result (Bound work.old work.new (bound_in stmts.now)) }
{
    for stmt in stmts {
        bind(&stmt.kind, work)?;
    }
    Ok(())
}

// Takes back what a statement binds.
fn unbind(kind: &StmtKind, work: &mut Work)
    ensures { (names : Names) → work.old.bound ≡ names ++ bound_by kind.now → Unbound work.old work.new names }
{
    match kind {
        StmtKind::Read(_, _, _, _, _, _) => unbind_name(work),
        StmtKind::Alloc(_, _) => unbind_name(work),
        StmtKind::Call(_, _, _, _, _) => unbind_name(work),
        StmtKind::Do(_, _, _, _, _) => unbind_name(work),
        StmtKind::Atomic(_, _, _, _, _) => unbind_name(work),
        StmtKind::Par(_, _, _, _, _, _, _, _, _, _) => unbind_two(work),
        _ => {}
    }
}

fn unbind_name(work: &mut Work)
    ensures { (names : Names) (x : List ℕ) → work.old.bound ≡ names ++ x ∷ [] → Unbound work.old work.new names }
{
    let _ = work.bound.pop();
}

fn unbind_two(work: &mut Work)
    ensures { (names : Names) (x y : List ℕ) → work.old.bound ≡ names ++ x ∷ y ∷ [] → Unbound work.old work.new names }
{
    unbind_name(work);
    unbind_name(work);
}

// ---- bodies

/// The nodes of a body.
///
/// It recurses on the body, in which bodies stand at most a hundred deep.
#[cycle(body)]
pub(crate) fn lower_body(
    alloc: Global,
    body: &Body,
    behind: Behind,
    work: &mut Work,
) -> Result<usize, Memory>
    ensures { IfOk result (λ i. Lowered work.old work.new behind (code [] body.now) i) }
{
    let stmts = body.stmts.as_slice();
    bind_all(stmts, work)?;
    let last = lower_end(alloc, &body.end, behind, work)?;
    lower_stmts(alloc, stmts, last, work)
}

// The nodes of statements, from the last one on, each of which takes back what it binds.
#[cycle(body)]
#[tactic(auto, using(crate::proofs::Lists::most_last))]
fn lower_stmts(alloc: Global, stmts: &[Stmt], last: usize, work: &mut Work) -> Result<usize, Memory>
    ensures { IfOk result (λ i. (outer : Names) → work.old.bound ≡ outer ++ bound_in stmts.now → StmtsLowered work.old work.new outer stmts.now last i) }
{
    let mut at = last;
    let mut rest = stmts;
    while let Some((stmt, front)) = rest.split_last() {
        unbind(&stmt.kind, work);
        at = lower_stmt(alloc, &stmt.kind, at, work)?;
        rest = front;
    }
    Ok(at)
}

#[cycle(body)]
fn lower_stmt(alloc: Global, kind: &StmtKind, next: usize, work: &mut Work) -> Result<usize, Memory>
    ensures { IfOk result (λ i. StmtLowered work.old work.new (bound_by kind.now) next (stmt_kind_code [] kind.now) i) }
{
    match kind {
        StmtKind::Read(_, sort, place, _, _, _) => emit_read(alloc, *sort, place.get(), next, work),
        StmtKind::Write(place, value, _, _) => emit_write(
            alloc,
            place.get(),
            value.get(),
            next,
            work,
        ),
        StmtKind::Alloc(_, cells) => emit_alloc(alloc, cells, next, work),
        StmtKind::Free(place, _, _) => emit_free(alloc, place.get(), next, work),
        StmtKind::Call(_, callee, arguments, _, _) => emit_call(
            alloc,
            callee,
            arguments.as_slice(),
            next,
            work,
        ),
        StmtKind::Do(_, _, _, body, _) => lower_inner(alloc, body.get(), next, work),
        StmtKind::Proof(_) => Ok(next),
        StmtKind::Publish(place, _, _) => emit_publish(alloc, place.get(), next, work),
        StmtKind::Retract(place, _, _) => emit_retract(alloc, place.get(), next, work),
        StmtKind::Atomic(_, _, _, body, _) => lower_atomic(alloc, body.get(), next, work),
        StmtKind::Par(_, _, _, _, _, left, _, _, right, _) => {
            lower_par(alloc, left.get(), right.get(), next, work)
        }
    }
}

// The nodes of an inner body, which goes on at a node.
#[cycle(body)]
fn lower_inner(alloc: Global, body: &Body, next: usize, work: &mut Work) -> Result<usize, Memory>
    ensures { IfOk result (λ i. Lowered work.old work.new (Behind.Inside (length work.old.bound) next) (code [] body.now) i) }
{
    let keep = work.bound.len();
    lower_body(alloc, body, Behind::Inside(keep, next), work)
}

// The nodes of an atomic block, whose body ends as one of a call does.
#[cycle(body)]
fn lower_atomic(alloc: Global, body: &Body, next: usize, work: &mut Work) -> Result<usize, Memory>
    ensures { IfOk result (λ i. (x : List ℕ) (sort : SortOf) → StmtLowered work.old work.new (x ∷ []) next (λ rest xs. atomic sort (code [] body.now xs) (rest (x ∷ xs))) i) }
{
    let first = lower_body(alloc, body, Behind::Caller, work)?;
    emit(Node::Atomic(first, next), work)
}

// The nodes of a fork, whose bodies end as one of a call does.
#[cycle(body)]
fn lower_par(
    alloc: Global,
    left: &Body,
    right: &Body,
    next: usize,
    work: &mut Work,
) -> Result<usize, Memory>
    ensures { IfOk result (λ i. (x y : List ℕ) (sort other : SortOf) → StmtLowered work.old work.new (x ∷ y ∷ []) next (λ rest xs. par sort other (code [] left.now xs) (code [] right.now xs) (rest (y ∷ x ∷ xs))) i) }
{
    let one = lower_body(alloc, left, Behind::Caller, work)?;
    let other = lower_body(alloc, right, Behind::Caller, work)?;
    emit(Node::Fork(one, other, next), work)
}

#[cycle(body)]
fn lower_end(alloc: Global, end: &End, behind: Behind, work: &mut Work) -> Result<usize, Memory>
    ensures { IfOk result (λ i. Lowered work.old work.new behind (end_code [] end.now) i) }
{
    match &end.kind {
        EndKind::Ret(value, _) => emit_end(alloc, value.get(), behind, work),
        EndKind::If(condition, _, body, other) => lower_if(
            alloc,
            condition.get(),
            body.get(),
            other.get(),
            behind,
            work,
        ),
        EndKind::CaseAtom(_, body, _) => lower_body(alloc, body.get(), behind, work),
        EndKind::CaseBool(_, _, body, _) => lower_body(alloc, body.get(), behind, work),
        EndKind::CaseSeq(_, _, body, _, _, _) => lower_body(alloc, body.get(), behind, work),
        EndKind::Dead(_, body) => lower_body(alloc, body.get(), behind, work),
    }
}

#[cycle(body)]
fn lower_if(
    alloc: Global,
    condition: &Term,
    body: &Body,
    other: &Body,
    behind: Behind,
    work: &mut Work,
) -> Result<usize, Memory>
    ensures { IfOk result (λ i. Lowered work.old work.new behind (λ xs. test (trm [] xs condition.now) (code [] body.now xs) (code [] other.now xs)) i) }
{
    let yes = lower_body(alloc, body, behind, work)?;
    let no = lower_body(alloc, other, behind, work)?;
    emit_if(alloc, condition, yes, no, work)
}
