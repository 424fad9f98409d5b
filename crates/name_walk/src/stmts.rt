// What a statement is refused for itself, and what is known after it.
ghost use Rattle.std.specs.Prelude.{◌≡◌, OnOk, IfOk, IsTrue};
ghost use Rattle.tht_tree.specs.Walk.Codes.{first as first_code};
ghost use Rattle.tht_tree.specs.Walk.Names.{with_result, new_name as new_name_code};
ghost use Rattle.tht_tree.specs.Walk.Terms.{any_program as any_program_code, any_programs as any_programs_code};
ghost use Rattle.tht_tree.specs.Walk.Bodies.{not_in_lemma as not_in_lemma_code, only_inside as only_inside_code, only_outside as only_outside_code, place_term as place_code};
ghost use Rattle.tht_tree.specs.Walk.Bodies.{new_result as new_result_code, private_box as private_box_code, do_box as do_box_code, stmt as the_stmt};
ghost use Rattle.term_walk.specs.Scopes.{scope_of, unbound};
ghost use Rattle.name_walk.specs.Plain.{is_plain};

use crate::heads::Coded;
use crate::placing::{
    call_sort, command, do_box, new_behind, new_result, not_in_lemma, only_inside, only_outside,
    place_term, private_box,
};
use sqlite_items::Items;
use std::alloc::AllocError;
use term_walk::codes::{Walked, at, first};
use term_walk::scope::{Scope, Shadow};
use term_walk::steps::{bind_after_step, walk_step, with_give, with_proof};
use term_walk::terms::{any_program, any_programs, new_name, storable};
use tht_tree::assn::Assn;
use tht_tree::body::{Stmt, StmtKind};
use tht_tree::plain::{Name, Sort};
use tht_tree::term::Term;
use tht_tree::walk::{Class, Frame, WalkCode, Where};

// ---- what it is refused for itself

/// The names that a `read` binds, its place, and where it stands.
pub(crate) fn read(
    scope: &Scope,
    x: &Name,
    sort: Sort,
    h: &Name,
    term: &Term,
    place: Where,
) -> Option<WalkCode>
    ensures { result ≡ first_code (first_code (new_result_code (scope_of scope.now) x.now sort) (new_name_code (with_result (scope_of scope.now) x.now sort) h.now))
        (first_code (place_code (scope_of scope.now) term.now) (not_in_lemma_code place)) }
{
    let names = first(new_result(scope, x, sort), new_behind(scope, x, h));
    first(names, first(place_term(scope, term), not_in_lemma(place)))
}

/// The terms of a `write`, and where it stands.
pub(crate) fn write(scope: &Scope, term: &Term, value: &Term, place: Where) -> Option<WalkCode>
    ensures { result ≡ first_code (place_code (scope_of scope.now) term.now) (first_code (any_program_code (scope_of scope.now) value.now) (not_in_lemma_code place)) }
{
    first(
        place_term(scope, term),
        first(any_program(scope, value), not_in_lemma(place)),
    )
}

/// The name and the terms of an `alloc`, and where it stands.
pub(crate) fn allocate(scope: &Scope, x: &Name, terms: &[Term], place: Where) -> Option<WalkCode>
    ensures { result ≡ first_code (new_name_code (scope_of scope.now) x.now) (first_code (any_programs_code (scope_of scope.now) terms.now) (not_in_lemma_code place)) }
{
    first(
        new_name(scope, x),
        first(any_programs(scope, terms), not_in_lemma(place)),
    )
}

/// The place of a `free`, and where it stands.
fn free(scope: &Scope, term: &Term, place: Where) -> Option<WalkCode>
    ensures { result ≡ first_code (place_code (scope_of scope.now) term.now) (not_in_lemma_code place) }
{
    first(place_term(scope, term), not_in_lemma(place))
}

/// The place of a `publish` or a `retract`, which stand inside.
fn handed(scope: &Scope, term: &Term, place: Where) -> Option<WalkCode>
    ensures { result ≡ first_code (place_code (scope_of scope.now) term.now) (only_inside_code place) }
{
    first(place_term(scope, term), only_inside(place))
}

/// What a `do`, an `atomic` or a branch of a `par` leaves: the name of its result, its sort, and its box.
#[derive(Clone, Copy)]
pub(crate) struct Outcome<'a> {
    pub name: &'a Name,
    pub sort: Sort,
    pub post: &'a Assn,
}

pub(crate) fn outcome_of<'a>(name: &'a Name, sort: Sort, post: &'a Assn) -> Outcome<'a>
    ensures { result ≡ record { name = name.entry; sort = sort; post = post.entry } }
{
    Outcome { name, sort, post }
}

/// The result and the box of a `do`, and where it stands.
pub(crate) fn do_block(scope: &mut Scope, left: &Outcome<'_>, place: Where) -> Coded
    ensures ok { IfOk result (λ c. c ≡ first_code (new_result_code (scope_of scope.old) left.now.name.now left.now.sort)
        (first_code (do_box_code place (scope_of scope.old) left.now.name.now left.now.sort left.now.post.now) (not_in_lemma_code place))) }
    ensures same { OnOk result (scope_of scope.new ≡ scope_of scope.old) }
{
    let name = new_result(scope, left.name, left.sort);
    let code = do_box(place, scope, left.name, left.sort, left.post)?;
    Ok(first(name, first(code, not_in_lemma(place))))
}

/// The result and the box of an `atomic`, and where it stands.
pub(crate) fn atomic(scope: &mut Scope, left: &Outcome<'_>, place: Where) -> Coded
    ensures ok { IfOk result (λ c. c ≡ first_code (new_result_code (scope_of scope.old) left.now.name.now left.now.sort)
        (first_code (private_box_code (scope_of scope.old) left.now.name.now left.now.sort left.now.post.now) (only_outside_code place))) }
    ensures same { OnOk result (scope_of scope.new ≡ scope_of scope.old) }
{
    let name = new_result(scope, left.name, left.sort);
    let code = private_box(scope, left.name, left.sort, left.post)?;
    Ok(first(name, first(code, only_outside(place))))
}

/// The results and the boxes of a `par`, and where it stands.
pub(crate) fn parallel(
    scope: &mut Scope,
    left: &Outcome<'_>,
    right: &Outcome<'_>,
    place: Where,
) -> Coded
    ensures ok { IfOk result (λ c. c ≡ first_code (first_code (new_result_code (scope_of scope.old) left.now.name.now left.now.sort)
        (new_result_code (with_result (scope_of scope.old) left.now.name.now left.now.sort) right.now.name.now right.now.sort))
        (first_code (private_box_code (scope_of scope.old) left.now.name.now left.now.sort left.now.post.now)
        (first_code (private_box_code (scope_of scope.old) right.now.name.now right.now.sort right.now.post.now) (only_outside_code place)))) }
    ensures same { OnOk result (scope_of scope.new ≡ scope_of scope.old) }
{
    let names = results(scope, left, right);
    let first_box = private_box(scope, left.name, left.sort, left.post)?;
    let second_box = private_box(scope, right.name, right.sort, right.post)?;
    let boxes = first(first_box, first(second_box, only_outside(place)));
    Ok(first(names, boxes))
}

// The names and the sorts of the results of a `par`.
fn results(scope: &Scope, left: &Outcome<'_>, right: &Outcome<'_>) -> Option<WalkCode>
    ensures { result ≡ first_code (new_result_code (scope_of scope.now) left.now.name.now left.now.sort)
        (new_result_code (with_result (scope_of scope.now) left.now.name.now left.now.sort) right.now.name.now right.now.sort) }
{
    let second = first(
        new_behind(scope, left.name, right.name),
        storable(right.sort),
    );
    first(new_result(scope, left.name, left.sort), second)
}

// ---- statements with no body in them

/// What is refused in a statement that has no body in it.
#[tactic(auto, unfolding(tht_tree::specs::Walk::Bodies::stmt, tht_tree::specs::Walk::Bodies::stmt_kind))]
pub(crate) fn walk_plain(stmt: &Stmt, frame: Frame, scope: &mut Scope) -> Walked
    requires { IsTrue (is_plain stmt.now.kind) }
    ensures ok { IfOk result (λ r. r ≡ (the_stmt stmt.now).walk frame (scope_of scope.old)) }
    ensures same { OnOk result (scope_of scope.new ≡ scope_of scope.old) }
{
    let (spot, place) = (stmt.spot, frame.place);
    match &stmt.kind {
        StmtKind::Read(x, sort, t, _, h, p) => {
            with_proof(p, read(scope, x, *sort, h, t.get(), place), spot, scope)
        }
        StmtKind::Write(t, u, _, p) => {
            with_proof(p, write(scope, t.get(), u.get(), place), spot, scope)
        }
        StmtKind::Alloc(x, cells) => Ok(at(spot, allocate(scope, x, cells.as_slice(), place))),
        StmtKind::Free(t, _, p) => with_proof(p, free(scope, t.get(), place), spot, scope),
        StmtKind::Publish(t, _, p) => with_proof(p, handed(scope, t.get(), place), spot, scope),
        StmtKind::Retract(t, _, p) => with_proof(p, handed(scope, t.get(), place), spot, scope),
        StmtKind::Call(x, f, ts, us, g) => {
            let called = command(place, scope, f, ts.as_slice(), us.as_slice());
            with_give(g, first(new_name(scope, x), called), spot, scope)
        }
        StmtKind::Proof(step) => walk_step(step, scope),
        _ => unreachable!(),
    }
}

// ---- what is known after it

/// Brings into scope what is known after a statement.
#[tactic(auto, unfolding(tht_tree::specs::Walk::Bodies::stmt, tht_tree::specs::Walk::Bodies::stmt_kind))]
pub(crate) fn bind_after(
    stmt: &Stmt,
    scope: &mut Scope,
    bound: &mut Items<Shadow>,
) -> Result<(), AllocError>
    ensures known { OnOk result (scope_of scope.new ≡ (the_stmt stmt.now).after (scope_of scope.old)) }
    ensures outer { OnOk result (unbound (scope_of scope.new) bound.new ≡ unbound (scope_of scope.old) bound.old) }
{
    match &stmt.kind {
        StmtKind::Read(x, sort, _, _, h, _) => {
            scope.bind_in(x, Class::Program(*sort), bound)?;
            scope.bind_in(h, Class::Hypothesis, bound)
        }
        StmtKind::Write(_, _, _, _) => Ok(()),
        StmtKind::Alloc(x, _) => scope.bind_in(x, Class::Program(Sort::Loc), bound),
        StmtKind::Free(_, _, _) => Ok(()),
        StmtKind::Publish(_, _, _) => Ok(()),
        StmtKind::Retract(_, _, _) => Ok(()),
        StmtKind::Call(x, f, _, _, _) => {
            let sort = call_sort(scope.get(f));
            scope.bind_in(x, Class::Program(sort), bound)
        }
        StmtKind::Do(x, sort, _, _, _) => scope.bind_in(x, Class::Program(*sort), bound),
        StmtKind::Atomic(x, sort, _, _, _) => scope.bind_in(x, Class::Program(*sort), bound),
        StmtKind::Par(x, sort, y, other, _, _, _, _, _, _) => {
            scope.bind_in(x, Class::Program(*sort), bound)?;
            scope.bind_in(y, Class::Program(*other), bound)
        }
        StmtKind::Proof(step) => bind_after_step(&step.kind, scope, bound),
    }
}
