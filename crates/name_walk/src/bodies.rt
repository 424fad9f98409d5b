// The names and sorts of statements, ends and bodies.
ghost use Rattle.std.specs.Prelude.{◌≡◌, OnOk, IfOk, map};
ghost use Rattle.tht_tree.specs.Walk.Codes.{construct, ◌▸◌};
ghost use Rattle.tht_tree.specs.Walk.Names.{with_hypothesis, with_parts, new_parts as new_parts_code};
ghost use Rattle.tht_tree.specs.Walk.Bodies.{InBody, frame as the_frame, statements, body as the_body, stmt as the_stmt, end as the_end};
ghost use Rattle.term_walk.specs.Scopes.{scope_of, unbound};

use crate::placing::{new_parts, not_in_lemma, returned};
use crate::stmts::{atomic, bind_after, do_block, outcome_of, parallel, walk_plain};
use sqlite_items::Items;
use std::alloc::{AllocError, Global};
use term_walk::codes::{Walked, first, refuse};
use term_walk::proofs::walk_proof;
use term_walk::scope::{Scope, Shadow};
use term_walk::steps::with_give;
use term_walk::terms::{formula, new_name, program_of, term_of};
use tht_tree::body::{Body, End, EndKind, Stmt, StmtKind};
use tht_tree::plain::{Name, Sort, Spot};
use tht_tree::walk::{Class, Frame, WalkCode, Where};

/// What is refused in a body.
#[cycle(body)]
pub(crate) fn walk_body(alloc: Global, body: &Body, frame: Frame, scope: &mut Scope) -> Walked
    ensures ok { IfOk result (λ r. r ≡ the_body body.now frame (scope_of scope.old)) }
    ensures same { OnOk result (scope_of scope.new ≡ scope_of scope.old) }
{
    let mut bound = Items::new(alloc);
    let refusal = walk_parts(alloc, body, frame, scope, &mut bound)?;
    scope.unbind_all(bound)?;
    Ok(refusal)
}

// The statements and the end of a body. The names that it binds stay in scope.
#[cycle(body)]
fn walk_parts(
    alloc: Global,
    body: &Body,
    frame: Frame,
    scope: &mut Scope,
    bound: &mut Items<Shadow>,
) -> Walked
    ensures ok { IfOk result (λ r. r ≡ the_body body.now frame (scope_of scope.old)) }
    ensures outer { OnOk result (unbound (scope_of scope.new) bound.new ≡ unbound (scope_of scope.old) bound.old) }
{
    match walk_stmts(alloc, body.stmts.as_slice(), frame, scope, bound)? {
        Some(refusal) => Ok(Some(refusal)),
        None => walk_end(alloc, &body.end, frame, scope),
    }
}

#[cycle(body)]
fn walk_stmts(
    alloc: Global,
    stmts: &[Stmt],
    frame: Frame,
    scope: &mut Scope,
    bound: &mut Items<Shadow>,
) -> Walked
    ensures ok { IfOk result (λ r. (last : InBody) → statements (map the_stmt stmts.now) last frame (scope_of scope.old) ≡ (r ▸ last frame (scope_of scope.new))) }
    ensures outer { OnOk result (unbound (scope_of scope.new) bound.new ≡ unbound (scope_of scope.old) bound.old) }
{
    for stmt in stmts {
        if let Some(refusal) = walk_stmt(alloc, stmt, frame, scope)? {
            return Ok(Some(refusal));
        }
        bind_after(stmt, scope, bound)?;
    }
    Ok(None)
}

#[cycle(body)]
#[tactic(auto, unfolding(tht_tree::specs::Walk::Bodies::stmt, tht_tree::specs::Walk::Bodies::stmt_kind, tht_tree::specs::Walk::Bodies::body))]
fn walk_stmt(alloc: Global, stmt: &Stmt, frame: Frame, scope: &mut Scope) -> Walked
    ensures ok { IfOk result (λ r. r ≡ (the_stmt stmt.now).walk frame (scope_of scope.old)) }
    ensures same { OnOk result (scope_of scope.new ≡ scope_of scope.old) }
{
    let (spot, place) = (stmt.spot, frame.place);
    match &stmt.kind {
        StmtKind::Do(x, sort, _, body, a) => {
            let own = do_block(scope, &outcome_of(x, *sort, a), place)?;
            one_body(alloc, body.get(), own, in_place(place, *sort), spot, scope)
        }
        StmtKind::Atomic(x, sort, _, body, a) => {
            let own = atomic(scope, &outcome_of(x, *sort, a), place)?;
            let inside = in_place(Where::Inside, *sort);
            one_body(alloc, body.get(), own, inside, spot, scope)
        }
        StmtKind::Par(x, s, y, r, _, body, a, _, other, c) => {
            let (left, right) = (outcome_of(x, *s, a), outcome_of(y, *r, c));
            if let Some(code) = parallel(scope, &left, &right, place)? {
                return refuse(spot, code);
            }
            let (one, two) = (in_place(place, *s), in_place(place, *r));
            two_bodies(alloc, body.get(), other.get(), one, two, scope)
        }
        StmtKind::Read(..) => walk_plain(stmt, frame, scope),
        StmtKind::Write(..) => walk_plain(stmt, frame, scope),
        StmtKind::Alloc(..) => walk_plain(stmt, frame, scope),
        StmtKind::Free(..) => walk_plain(stmt, frame, scope),
        StmtKind::Publish(..) => walk_plain(stmt, frame, scope),
        StmtKind::Retract(..) => walk_plain(stmt, frame, scope),
        StmtKind::Call(..) => walk_plain(stmt, frame, scope),
        StmtKind::Proof(..) => walk_plain(stmt, frame, scope),
    }
}

// Where a body stands, and the sort of what it returns.
fn in_place(place: Where, sort: Sort) -> Frame
    ensures { result ≡ the_frame place sort }
{
    Frame {
        place,
        result: sort,
    }
}

// A body in a construct that is refused itself where there is a code.
#[cycle(body)]
fn one_body(
    alloc: Global,
    body: &Body,
    own: Option<WalkCode>,
    frame: Frame,
    spot: Spot,
    scope: &mut Scope,
) -> Walked
    ensures ok { IfOk result (λ r. r ≡ construct spot own (the_body body.now frame (scope_of scope.old))) }
    ensures same { OnOk result (scope_of scope.new ≡ scope_of scope.old) }
{
    match own {
        Some(code) => refuse(spot, code),
        None => walk_body(alloc, body, frame, scope),
    }
}

// ---- ends

#[cycle(body)]
#[tactic(auto, unfolding(tht_tree::specs::Walk::Bodies::end, tht_tree::specs::Walk::Bodies::end_kind, tht_tree::specs::Walk::Bodies::body))]
fn walk_end(alloc: Global, end: &End, frame: Frame, scope: &mut Scope) -> Walked
    ensures ok { IfOk result (λ r. r ≡ the_end end.now frame (scope_of scope.old)) }
    ensures same { OnOk result (scope_of scope.new ≡ scope_of scope.old) }
{
    let spot = end.spot;
    match &end.kind {
        EndKind::Ret(t, g) => with_give(g, returned(frame, scope, t.get()), spot, scope),
        EndKind::If(t, h, body, other) => {
            let own = first(new_name(scope, h), not_in_lemma(frame.place));
            match first(program_of(scope, Sort::Bool, t.get()), own) {
                Some(code) => refuse(spot, code),
                None => both_known(alloc, body.get(), other.get(), h, frame, scope),
            }
        }
        EndKind::CaseAtom(_, body, other) => {
            two_bodies(alloc, body.get(), other.get(), frame, frame, scope)
        }
        EndKind::CaseBool(t, h, body, other) => {
            match first(formula(scope, t.get()), new_name(scope, h)) {
                Some(code) => refuse(spot, code),
                None => both_known(alloc, body.get(), other.get(), h, frame, scope),
            }
        }
        EndKind::CaseSeq(t, h, body, x, s, other) => {
            let own = first(new_name(scope, h), parts_behind(scope, h, x, s)?);
            if let Some(code) = first(term_of(scope, Sort::Seq, t.get()), own) {
                return refuse(spot, code);
            }
            match known(alloc, body.get(), h, frame, scope)? {
                Some(refusal) => Ok(Some(refusal)),
                None => known_parts(alloc, other.get(), h, x, s, frame, scope),
            }
        }
        EndKind::Dead(p, body) => match walk_proof(p, scope)? {
            Some(refusal) => Ok(Some(refusal)),
            None => walk_body(alloc, body.get(), frame, scope),
        },
    }
}

// The names of the head and the tail of a sequence, behind a hypothesis.
fn parts_behind(
    scope: &mut Scope,
    h: &Name,
    head: &Name,
    tail: &Name,
) -> Result<Option<WalkCode>, AllocError>
    ensures ok { IfOk result (λ c. c ≡ new_parts_code (with_hypothesis (scope_of scope.old) h.now) head.now tail.now) }
    ensures same { OnOk result (scope_of scope.new ≡ scope_of scope.old) }
{
    let shadowed = scope.bind(h, Class::Hypothesis)?;
    let code = new_parts(scope, head, tail);
    scope.unbind(h, shadowed)?;
    Ok(code)
}

#[cycle(body)]
fn two_bodies(
    alloc: Global,
    body: &Body,
    other: &Body,
    frame: Frame,
    second: Frame,
    scope: &mut Scope,
) -> Walked
    ensures ok { IfOk result (λ r. r ≡ (the_body body.now frame (scope_of scope.old) ▸ the_body other.now second (scope_of scope.old))) }
    ensures same { OnOk result (scope_of scope.new ≡ scope_of scope.old) }
{
    match walk_body(alloc, body, frame, scope)? {
        Some(refusal) => Ok(Some(refusal)),
        None => walk_body(alloc, other, second, scope),
    }
}

// A body in which this hypothesis is known.
#[cycle(body)]
fn known(alloc: Global, body: &Body, h: &Name, frame: Frame, scope: &mut Scope) -> Walked
    ensures ok { IfOk result (λ r. r ≡ the_body body.now frame (with_hypothesis (scope_of scope.old) h.now)) }
    ensures same { OnOk result (scope_of scope.new ≡ scope_of scope.old) }
{
    let shadowed = scope.bind(h, Class::Hypothesis)?;
    let refusal = walk_body(alloc, body, frame, scope)?;
    scope.unbind(h, shadowed)?;
    Ok(refusal)
}

// Two bodies in which this hypothesis is known.
#[cycle(body)]
fn both_known(
    alloc: Global,
    body: &Body,
    other: &Body,
    h: &Name,
    frame: Frame,
    scope: &mut Scope,
) -> Walked
    ensures ok { IfOk result (λ r. r ≡ (the_body body.now frame (with_hypothesis (scope_of scope.old) h.now) ▸ the_body other.now frame (with_hypothesis (scope_of scope.old) h.now))) }
    ensures same { OnOk result (scope_of scope.new ≡ scope_of scope.old) }
{
    match known(alloc, body, h, frame, scope)? {
        Some(refusal) => Ok(Some(refusal)),
        None => known(alloc, other, h, frame, scope),
    }
}

// A body in which this hypothesis, and the head and the tail of a sequence, are known.
#[cycle(body)]
fn known_parts(
    alloc: Global,
    body: &Body,
    h: &Name,
    head: &Name,
    tail: &Name,
    frame: Frame,
    scope: &mut Scope,
) -> Walked
    ensures ok { IfOk result (λ r. r ≡ the_body body.now frame (with_parts (with_hypothesis (scope_of scope.old) h.now) head.now tail.now)) }
    ensures same { OnOk result (scope_of scope.new ≡ scope_of scope.old) }
{
    let mut bound = Items::new(alloc);
    scope.bind_in(h, Class::Hypothesis, &mut bound)?;
    scope.bind_in(head, Class::Logic(Sort::Nat), &mut bound)?;
    scope.bind_in(tail, Class::Logic(Sort::Seq), &mut bound)?;
    let refusal = walk_body(alloc, body, frame, scope)?;
    scope.unbind_all(bound)?;
    Ok(refusal)
}
