// Copies of bodies, and their comparison but for spots.
ghost use Rattle.std.specs.Prelude.{◌≡◌, ◌↔◌, map, IfOk, IsTrue};
ghost use Rattle.tht_tree.specs.WithoutSpots.{bare_proof, bare_body, bare_stmt, bare_end};
ghost use Rattle.tree_copies.specs.Levels.{body_level, stmt_level, end_level, is_par};

use crate::give::{copy_give, same_give};
use crate::proof::{copy_proof, same_proof};
use crate::step::{copy_step, same_step};
use sqlite_items::{Boxed, Items};
use std::alloc::{AllocError, Global};
use tht_tree::assn::{Assn, copy_assn, same_assn};
use tht_tree::body::{
    Body, Cells, End, EndKind, EndKind as Ends, Stmt, StmtKind, StmtKind as Kind,
};
use tht_tree::give::Give;
use tht_tree::plain::{Name, Sort};
use tht_tree::proof::Proof;
use tht_tree::step::Step;
use tht_tree::term::{Term, copy as copy_term, copy_terms, same as same_term, same_terms};

// ---- copies

#[cycle(copy)]
fn copy_body(alloc: Global, body: &Body) -> Result<Body, AllocError>
    ensures { IfOk result (λ b. b ≡ body.now) }
{
    let stmts = copy_stmts(alloc, &body.stmts)?;
    let end = copy_end(alloc, &body.end)?;
    Ok(Body { stmts, end })
}

#[cycle(copy)]
pub(crate) fn copy(alloc: Global, body: &Boxed<Body>) -> Result<Boxed<Body>, AllocError>
    ensures { IfOk result (λ b. b ≡ body.now) }
{
    let inner = copy_body(alloc, body.get())?;
    Boxed::new(alloc, inner)
}

#[cycle(copy)]
fn copy_stmts(alloc: Global, stmts: &Items<Stmt>) -> Result<Items<Stmt>, AllocError>
    ensures { IfOk result (λ ss. ss ≡ stmts.now) }
{
    let mut copies = Items::new(alloc);
    for stmt in stmts.as_slice() {
        copies.push(copy_stmt(alloc, stmt)?)?;
    }
    Ok(copies)
}

#[cycle(copy)]
fn copy_stmt(alloc: Global, stmt: &Stmt) -> Result<Stmt, AllocError>
    ensures { IfOk result (λ s. s ≡ stmt.now) }
{
    let kind = copy_kind(alloc, &stmt.kind)?;
    Ok(Stmt {
        spot: stmt.spot,
        kind,
    })
}

#[cycle(copy)]
fn copy_kind(alloc: Global, kind: &StmtKind) -> Result<StmtKind, AllocError>
    ensures { IfOk result (λ k. k ≡ kind.now) }
{
    match kind {
        Kind::Read(x, sort, t, i, h, p) => copy_read(alloc, x, *sort, t, *i, h, p),
        Kind::Write(t, u, i, p) => copy_write(alloc, t, u, *i, p),
        Kind::Alloc(x, cells) => copy_alloc(alloc, x, cells),
        Kind::Free(t, i, p) => copy_free(alloc, t, *i, p),
        Kind::Publish(t, i, p) => copy_publish(alloc, t, *i, p),
        Kind::Retract(t, i, p) => copy_retract(alloc, t, *i, p),
        Kind::Call(x, f, ts, us, g) => copy_call(alloc, x, f, ts, us, g),
        Kind::Do(x, sort, is, b, q) => copy_do(alloc, b, x, *sort, is, q),
        Kind::Atomic(x, sort, is, b, q) => copy_atomic(alloc, b, x, *sort, is, q),
        Kind::Par(..) => copy_par(alloc, kind),
        Kind::Proof(step) => copy_proof_step(alloc, step),
    }
}

fn copy_read(
    alloc: Global,
    x: &Name,
    sort: Sort,
    place: &Boxed<Term>,
    atom: u64,
    hyp: &Name,
    proof: &Proof,
) -> Result<StmtKind, AllocError>
    ensures { IfOk result (λ k. k ≡ StmtKind.Read x.now sort place.now atom hyp.now proof.now) }
{
    let x = x.copy()?;
    let place = copy_term(alloc, place)?;
    let hyp = hyp.copy()?;
    let proof = copy_proof(alloc, proof)?;
    Ok(Kind::Read(x, sort, place, atom, hyp, proof))
}

fn copy_write(
    alloc: Global,
    place: &Boxed<Term>,
    value: &Boxed<Term>,
    atom: u64,
    proof: &Proof,
) -> Result<StmtKind, AllocError>
    ensures { IfOk result (λ k. k ≡ StmtKind.Write place.now value.now atom proof.now) }
{
    let place = copy_term(alloc, place)?;
    let value = copy_term(alloc, value)?;
    let proof = copy_proof(alloc, proof)?;
    Ok(Kind::Write(place, value, atom, proof))
}

fn copy_alloc(alloc: Global, x: &Name, cells: &Cells) -> Result<StmtKind, AllocError>
    ensures { IfOk result (λ k. k ≡ StmtKind.Alloc x.now cells.now) }
{
    let x = x.copy()?;
    let cells = cells.copy(alloc)?;
    Ok(Kind::Alloc(x, cells))
}

fn copy_free(
    alloc: Global,
    place: &Boxed<Term>,
    atom: u64,
    proof: &Proof,
) -> Result<StmtKind, AllocError>
    ensures { IfOk result (λ k. k ≡ StmtKind.Free place.now atom proof.now) }
{
    let place = copy_term(alloc, place)?;
    let proof = copy_proof(alloc, proof)?;
    Ok(Kind::Free(place, atom, proof))
}

fn copy_publish(
    alloc: Global,
    place: &Boxed<Term>,
    atom: u64,
    proof: &Proof,
) -> Result<StmtKind, AllocError>
    ensures { IfOk result (λ k. k ≡ StmtKind.Publish place.now atom proof.now) }
{
    let place = copy_term(alloc, place)?;
    let proof = copy_proof(alloc, proof)?;
    Ok(Kind::Publish(place, atom, proof))
}

fn copy_retract(
    alloc: Global,
    place: &Boxed<Term>,
    atom: u64,
    proof: &Proof,
) -> Result<StmtKind, AllocError>
    ensures { IfOk result (λ k. k ≡ StmtKind.Retract place.now atom proof.now) }
{
    let place = copy_term(alloc, place)?;
    let proof = copy_proof(alloc, proof)?;
    Ok(Kind::Retract(place, atom, proof))
}

fn copy_call(
    alloc: Global,
    x: &Name,
    callee: &Name,
    arguments: &Items<Term>,
    logical: &Items<Term>,
    give: &Give,
) -> Result<StmtKind, AllocError>
    ensures { IfOk result (λ k. k ≡ StmtKind.Call x.now callee.now arguments.now logical.now give.now) }
{
    let x = x.copy()?;
    let callee = callee.copy()?;
    let arguments = copy_terms(alloc, arguments)?;
    let logical = copy_terms(alloc, logical)?;
    let give = copy_give(alloc, give)?;
    Ok(Kind::Call(x, callee, arguments, logical, give))
}

fn copy_proof_step(alloc: Global, step: &Step) -> Result<StmtKind, AllocError>
    ensures { IfOk result (λ k. k ≡ StmtKind.Proof step.now) }
{
    let step = copy_step(alloc, step)?;
    Ok(Kind::Proof(step))
}

#[cycle(copy)]
fn copy_do(
    alloc: Global,
    body: &Boxed<Body>,
    x: &Name,
    sort: Sort,
    atoms: &Items<u64>,
    assn: &Assn,
) -> Result<StmtKind, AllocError>
    ensures { IfOk result (λ k. k ≡ StmtKind.Do x.now sort atoms.now body.now assn.now) }
{
    let x = x.copy()?;
    let (atoms, body, assn) = copy_inner(alloc, body, atoms, assn)?;
    Ok(Kind::Do(x, sort, atoms, body, assn))
}

#[cycle(copy)]
fn copy_atomic(
    alloc: Global,
    body: &Boxed<Body>,
    x: &Name,
    sort: Sort,
    atoms: &Items<u64>,
    assn: &Assn,
) -> Result<StmtKind, AllocError>
    ensures { IfOk result (λ k. k ≡ StmtKind.Atomic x.now sort atoms.now body.now assn.now) }
{
    let x = x.copy()?;
    let (atoms, body, assn) = copy_inner(alloc, body, atoms, assn)?;
    Ok(Kind::Atomic(x, sort, atoms, body, assn))
}

#[cycle(copy)]
fn copy_par(alloc: Global, kind: &StmtKind) -> Result<StmtKind, AllocError>
    requires { IsTrue (is_par kind.now) }
    ensures { IfOk result (λ k. k ≡ kind.now) }
{
    match kind {
        Kind::Par(x, sort, y, other, is, b, q, js, c, r) => {
            let x = x.copy()?;
            let y = y.copy()?;
            let (is, b, q) = copy_inner(alloc, b, is, q)?;
            let (js, c, r) = copy_inner(alloc, c, js, r)?;
            Ok(Kind::Par(x, *sort, y, *other, is, b, q, js, c, r))
        }
        _ => unreachable!(),
    }
}

/// The atoms that an inner body takes, the body, and its box.
type Inner = (Items<u64>, Boxed<Body>, Assn);

#[cycle(copy)]
fn copy_inner(
    alloc: Global,
    body: &Boxed<Body>,
    atoms: &Items<u64>,
    assn: &Assn,
) -> Result<Inner, AllocError>
    ensures { IfOk result (λ r. (r.0 ≡ atoms.now) × (r.1 ≡ body.now) × (r.2 ≡ assn.now)) }
{
    let atoms = Items::from_slice(alloc, atoms.as_slice())?;
    let body = copy(alloc, body)?;
    let assn = copy_assn(alloc, assn)?;
    Ok((atoms, body, assn))
}

#[cycle(copy)]
fn copy_end(alloc: Global, end: &End) -> Result<End, AllocError>
    ensures { IfOk result (λ e. e ≡ end.now) }
{
    let kind = copy_end_kind(alloc, &end.kind)?;
    Ok(End {
        spot: end.spot,
        kind,
    })
}

#[cycle(copy)]
fn copy_end_kind(alloc: Global, kind: &EndKind) -> Result<EndKind, AllocError>
    ensures { IfOk result (λ k. k ≡ kind.now) }
{
    match kind {
        Ends::Ret(t, g) => Ok(Ends::Ret(copy_term(alloc, t)?, copy_give(alloc, g)?)),
        Ends::If(t, h, b, c) => {
            let (t, h) = (copy_term(alloc, t)?, h.copy()?);
            Ok(Ends::If(t, h, copy(alloc, b)?, copy(alloc, c)?))
        }
        Ends::CaseAtom(i, b, c) => Ok(Ends::CaseAtom(*i, copy(alloc, b)?, copy(alloc, c)?)),
        Ends::CaseBool(t, h, b, c) => {
            let (t, h) = (copy_term(alloc, t)?, h.copy()?);
            Ok(Ends::CaseBool(t, h, copy(alloc, b)?, copy(alloc, c)?))
        }
        Ends::CaseSeq(t, h, b, x, s, c) => {
            let (t, h) = (copy_term(alloc, t)?, h.copy()?);
            let (x, s) = (x.copy()?, s.copy()?);
            Ok(Ends::CaseSeq(t, h, copy(alloc, b)?, x, s, copy(alloc, c)?))
        }
        Ends::Dead(p, b) => Ok(Ends::Dead(copy_proof(alloc, p)?, copy(alloc, b)?)),
    }
}

// ---- sameness but for spots

#[cycle(same)]
fn same_body(body: &Body, other: &Body) -> bool
    ensures { IsTrue result ↔ (body_level body.now ≡ body_level other.now) }
{
    same_stmts(&body.stmts, &other.stmts) && same_end(&body.end, &other.end)
}

#[cycle(same)]
pub(crate) fn same(body: &Boxed<Body>, other: &Boxed<Body>) -> bool
    ensures { IsTrue result ↔ (bare_body body.now ≡ bare_body other.now) }
{
    same_body(body.get(), other.get())
}

#[cycle(same)]
fn same_stmts(stmts: &Items<Stmt>, others: &Items<Stmt>) -> bool
    ensures { IsTrue result ↔ (map bare_stmt stmts.now ≡ map bare_stmt others.now) }
{
    if stmts.len() != others.len() {
        return false;
    }
    for (stmt, other) in stmts.as_slice().iter().zip(others.as_slice().iter()) {
        if !same_stmt(stmt, other) {
            return false;
        }
    }
    true
}

#[cycle(same)]
fn same_stmt(stmt: &Stmt, other: &Stmt) -> bool
    ensures { IsTrue result ↔ (bare_stmt stmt.now ≡ bare_stmt other.now) }
{
    same_kind(&stmt.kind, &other.kind)
}

#[cycle(same)]
fn same_kind(kind: &StmtKind, other: &StmtKind) -> bool
    ensures { IsTrue result ↔ (stmt_level kind.now ≡ stmt_level other.now) }
{
    match (kind, other) {
        (Kind::Read(x, s, t, i, h, p), Kind::Read(y, r, u, j, g, q)) => {
            x.same(y) && s == r && same_term(t, u) && i == j && h.same(g) && same_proof(p, q)
        }
        (Kind::Write(t, u, i, p), Kind::Write(v, w, j, q)) => {
            same_term(t, v) && same_term(u, w) && i == j && same_proof(p, q)
        }
        (Kind::Alloc(x, ts), Kind::Alloc(y, us)) => x.same(y) && ts.same(us),
        (Kind::Free(t, i, p), Kind::Free(u, j, q)) => same_at(t, *i, p, u, *j, q),
        (Kind::Publish(t, i, p), Kind::Publish(u, j, q)) => same_at(t, *i, p, u, *j, q),
        (Kind::Retract(t, i, p), Kind::Retract(u, j, q)) => same_at(t, *i, p, u, *j, q),
        (Kind::Call(x, f, ts, us, g), Kind::Call(y, k, vs, ws, h)) => {
            x.same(y) && f.same(k) && same_terms(ts, vs) && same_terms(us, ws) && same_give(g, h)
        }
        (Kind::Do(x, s, is, b, p), Kind::Do(y, r, js, c, q)) => {
            x.same(y) && s == r && same_numbers(is, js) && same(b, c) && same_assn(p, q)
        }
        (Kind::Atomic(x, s, is, b, p), Kind::Atomic(y, r, js, c, q)) => {
            x.same(y) && s == r && same_numbers(is, js) && same(b, c) && same_assn(p, q)
        }
        (Kind::Par(x, s, y, r, is, a, p, js, b, q), Kind::Par(v, m, w, n, ks, c, k, ls, d, l)) => {
            (x.same(v) && s == m && y.same(w) && r == n)
                && (same_numbers(is, ks) && same(a, c) && same_assn(p, k))
                && (same_numbers(js, ls) && same(b, d) && same_assn(q, l))
        }
        (Kind::Proof(step), Kind::Proof(other)) => same_step(step, other),
        _ => false,
    }
}

// Whether the first place, atom and proof are the second.
fn same_at(
    place: &Boxed<Term>,
    atom: u64,
    proof: &Proof,
    other_place: &Boxed<Term>,
    other_atom: u64,
    other_proof: &Proof,
) -> bool
    ensures { IsTrue result ↔ ((place.now ≡ other_place.now) × (atom ≡ other_atom) × (bare_proof proof.now ≡ bare_proof other_proof.now)) }
{
    same_term(place, other_place) && atom == other_atom && same_proof(proof, other_proof)
}

fn same_numbers(numbers: &Items<u64>, others: &Items<u64>) -> bool
    ensures { IsTrue result ↔ (numbers.now ≡ others.now) }
{
    numbers.as_slice() == others.as_slice()
}

#[cycle(same)]
fn same_end(end: &End, other: &End) -> bool
    ensures { IsTrue result ↔ (bare_end end.now ≡ bare_end other.now) }
{
    same_end_kind(&end.kind, &other.kind)
}

#[cycle(same)]
fn same_end_kind(kind: &EndKind, other: &EndKind) -> bool
    ensures { IsTrue result ↔ (end_level kind.now ≡ end_level other.now) }
{
    match (kind, other) {
        (Ends::Ret(t, g), Ends::Ret(u, h)) => same_term(t, u) && same_give(g, h),
        (Ends::If(t, h, a, b), Ends::If(u, g, c, d)) => {
            same_term(t, u) && h.same(g) && same(a, c) && same(b, d)
        }
        (Ends::CaseAtom(i, a, b), Ends::CaseAtom(j, c, d)) => i == j && same(a, c) && same(b, d),
        (Ends::CaseBool(t, h, a, b), Ends::CaseBool(u, g, c, d)) => {
            same_term(t, u) && h.same(g) && same(a, c) && same(b, d)
        }
        (Ends::CaseSeq(t, h, a, x, s, b), Ends::CaseSeq(u, g, c, y, r, d)) => {
            same_term(t, u) && h.same(g) && same(a, c) && x.same(y) && s.same(r) && same(b, d)
        }
        (Ends::Dead(p, b), Ends::Dead(q, c)) => same_proof(p, q) && same(b, c),
        _ => false,
    }
}
