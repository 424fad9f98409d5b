// The rules of statements, ends and bodies, one inside another.
ghost use Rattle.std.specs.Prelude.{◌≡◌, ◌≤◌, [], All, Err, None, Some, OnErr, OnOk};
ghost use Rattle.tht_tree.specs.declared.file.Source1.{Source1};
ghost use Rattle.tht_tree.specs.declared.rule.RuleCode.TheVariants.{R11};
ghost use Rattle.tht_tree.specs.declared.rule.RuleRefusal.{RuleRefusal};
ghost use Rattle.tht_tree.specs.Walk.Names.{Scope as NamesOf};
ghost use Rattle.tht_tree.specs.Rules.Context.{context_of};
ghost use Rattle.tht_tree.specs.Rules.Refusals.{needs, ◌▸◌};
ghost use Rattle.tht_logic.specs.Meanings.{meaning_in};
ghost use Rattle.tht_logic.specs.SamePrograms.{same_program as one_program};
ghost use Rattle.tht_logic.specs.Triples.{BodyKeeps};
ghost use Rattle.tht_logic.specs.Rules.Bodies.{after_stmt, after_stmt_kind, end_refused, end_kind_refused, body_refused, sides as sides_at, by_sides};
ghost use Rattle.tht_logic.specs.Rules.Calls.{after_do};
ghost use Rattle.tht_logic.specs.Rules.Checking.{and_then};
ghost use Rattle.tht_logic.specs.Rules.Formed.{IsFormed};
ghost use Rattle.tht_logic.specs.Rules.Scoped.{instance_fits};
ghost use Rattle.pure_proofs.specs.Verdicts.{IsVerdict};
ghost use Rattle.assn_laws.specs.FileLaws.{IsReady};
ghost use Rattle.hoare_laws.specs.Laws.{IsInOrder};
ghost use Rattle.heap_rules.specs.Declarations.{declared_by};
ghost use Rattle.heap_rules.specs.Following.{Follows};
ghost use Rattle.hoare_rules.specs.Branches.{in_branch, by_branches};
ghost use Rattle.hoare_rules.specs.Cells.{Says, MakesState};

use crate::allocs::allocate;
use crate::blocks::{Block, add_box, block_of, post_of, split_off};
use crate::branches::{
    Branch, Entry, Fork, NamedAtom, copy_of, enter, known_in, sequence, sides_of, truth,
};
use crate::calls::{call_of, check_call};
use crate::commands::{free, named_cell, read, write};
use crate::outcomes::outcome_of;
use crate::returns::{Return, check_dead, check_return};
use crate::steps::check_step;
use heap_rules::{Predicates, refused};
use program_forms::same_program;
use pure_proofs::{Known, Refusal};
use sqlite_items::Boxed;
use std::alloc::Global;
use std::mem;
use tht_tree::body::{Body, End, EndKind, Stmt, StmtKind};
use tht_tree::plain::Spot;
use tht_tree::rule::RuleCode;
use tht_tree::state::{Post, State};

/// Whether the body meets the postcondition from what is known, which must be in order; else the first that the rules refuse.
///
/// Beside the work on proofs, and on the tests that two bodies are one program, the time is at most in proportion to the size of the
/// statements, of the terms and assertions that they add, and for each branch and each inner body of what is known there, times the
/// logarithm of the number of names and atoms.
pub fn body_holds(
    alloc: Global,
    predicates: &Predicates<'_>,
    state: State,
    body: &Body,
    post: &Post,
) -> Result<(), Refusal>
    requires { IsFormed [] (instance_fits (declared_by predicates.now)) (context_of state) }
    ensures ok { OnOk result (body_refused (declared_by predicates.now) body.now post.now (context_of state) ≡ None) }
    ensures refused { (r : RuleRefusal) → result ≡ Err (Refusal.Rule r) → body_refused (declared_by predicates.now) body.now post.now (context_of state) ≡ Some r }

    // Where these are the predicates and procs of a file, and the walk over names and sorts refuses nothing in the body nor in the
    // postcondition: for each number of steps, from each environment and heap that satisfy the context, the body is no fault and leaves the
    // postcondition, where the procs meet their heads for all fewer steps.
    ensures sound { (file : Source1) (names : NamesOf) → IsReady file (declared_by predicates.now) → IsInOrder (declared_by predicates.now) names (context_of state) body.now post.now →
        OnOk result (BodyKeeps (meaning_in file) (declared_by predicates.now).proofs.roots (declared_by predicates.now).procs (context_of state) body.now post.now) }
{
    let known = Known::new(alloc, state)?;
    check_inner(body, alloc, known, predicates, post)
}

/// Takes a statement: what is known then is known in the state. After an `Err` nothing has changed. It takes a copy of what is known,
/// whose atoms must not have numbers above those made.
#[tactic(auto, using(crate::proofs::Following::changes_follow, crate::proofs::Following::refuses_stay))]
pub fn take_command(
    alloc: Global,
    predicates: &Predicates<'_>,
    state: &mut State,
    stmt: &Stmt,
) -> Result<(), Refusal>
    requires { All (λ a. a.0 ≤ (context_of state.old).made) (context_of state.old).atoms }
    ensures follows { Follows result (after_stmt (declared_by predicates.now) stmt.now (context_of state.old)) (context_of state.old) (context_of state.new) }
    ensures kept { OnErr result (context_of state.new ≡ context_of state.old) }
{
    let next = state_after(alloc, predicates, state, stmt)?;
    forget_state(mem::replace(state, next));
    Ok(())
}

// What is known after a statement.
fn state_after(
    alloc: Global,
    predicates: &Predicates<'_>,
    state: &State,
    stmt: &Stmt,
) -> Result<State, Refusal>
    requires { All (λ a. a.0 ≤ state.now.made) state.now.atoms.entries }
    ensures { MakesState result (after_stmt (declared_by predicates.now) stmt.now (context_of state.now)) }
{
    let mut known = known_in(alloc, state)?;
    check_stmt(stmt, alloc, &mut known, predicates)?;
    Ok(known.into_state())
}

fn forget_state(state: State) {
    let _ = state;
}

fn forget(known: Known) {
    let _ = known;
}

// The same from what is known, which is let go.
#[cycle(body)]
fn check_inner(
    body: &Body,
    alloc: Global,
    known: Known,
    predicates: &Predicates<'_>,
    post: &Post,
) -> Result<(), Refusal>
    ensures { IsVerdict result (body_refused (declared_by predicates.now) body.now post.now (context_of known.state)) }
{
    let mut known = known;
    let result = check_body(body, alloc, &mut known, predicates, post);
    forget(known);
    result
}

// Whether the body meets the postcondition from what is known.
#[cycle(body)]
fn check_body(
    body: &Body,
    alloc: Global,
    known: &mut Known,
    predicates: &Predicates<'_>,
    post: &Post,
) -> Result<(), Refusal>
    ensures { IsVerdict result (body_refused (declared_by predicates.now) body.now post.now (context_of known.old.state)) }
{
    for stmt in body.stmts.as_slice() {
        check_stmt(stmt, alloc, known, predicates)?;
    }
    check_end(&body.end, alloc, known, predicates, post)
}

// ---- statements

// Goes on over a statement. After an `Err` what is known is of no use.
#[cycle(body)]
#[tactic(auto, using(crate::proofs::Rules::stmt_says))]
fn check_stmt(
    stmt: &Stmt,
    alloc: Global,
    known: &mut Known,
    predicates: &Predicates<'_>,
) -> Result<(), Refusal>
    ensures { Says result (after_stmt (declared_by predicates.now) stmt.now (context_of known.old.state)) (context_of known.new.state) }
{
    check_kind(&stmt.kind, alloc, known, predicates, stmt.spot)
}

// A statement, by its form.
#[cycle(body)]
#[tactic(auto, using(crate::proofs::Rules::read_is, crate::proofs::Rules::write_is, crate::proofs::Rules::alloc_is, crate::proofs::Rules::free_is, crate::proofs::Rules::publish_is, crate::proofs::Rules::retract_is, crate::proofs::Rules::call_is, crate::proofs::Rules::do_is, crate::proofs::Rules::atomic_is, crate::proofs::Rules::par_is, crate::proofs::Rules::proof_is))]
fn check_kind(
    kind: &StmtKind,
    alloc: Global,
    known: &mut Known,
    predicates: &Predicates<'_>,
    spot: Spot,
) -> Result<(), Refusal>
    ensures { Says result (after_stmt_kind (declared_by predicates.now) kind.now spot (context_of known.old.state)) (context_of known.new.state) }
{
    match kind {
        StmtKind::Read(x, sort, place, number, hyp, proof) => {
            let cell = named_cell(spot, place, *number, proof);
            read(alloc, known, cell, x, *sort, hyp)
        }
        StmtKind::Write(place, value, number, proof) => {
            let cell = named_cell(spot, place, *number, proof);
            write(alloc, known, cell, value.get())
        }
        StmtKind::Alloc(x, cells) => allocate(alloc, known, spot, x, cells.as_slice()),
        StmtKind::Free(place, number, proof) => {
            let cell = named_cell(spot, place, *number, proof);
            free(alloc, known, cell)
        }
        StmtKind::Call(x, proc, arguments, logic, give) => {
            let call = call_of(spot, x, arguments, logic, give);
            check_call(alloc, known, predicates, proc, call)
        }
        StmtKind::Do(x, sort, numbers, body, assn) => {
            let outcome = outcome_of(spot, x, *sort);
            let block = block_of(outcome, numbers.as_slice(), assn);
            check_do(body.get(), alloc, known, predicates, block)
        }
        StmtKind::Proof(step) => check_step(alloc, known, predicates, step),
        StmtKind::Publish(_, _, _) => Err(refused(spot, RuleCode::R5)),
        StmtKind::Retract(_, _, _) => Err(refused(spot, RuleCode::R5)),
        StmtKind::Atomic(_, _, _, _, _) => Err(refused(spot, RuleCode::R5)),
        StmtKind::Par(_, _, _, _, _, _, _, _, _, _) => Err(refused(spot, RuleCode::R5)),
    }
}

// Goes on over an inner body: it is given atoms, and keeps its box.
#[cycle(body)]
#[tactic(auto, using(crate::proofs::InnerBlocks::not_dealt, crate::proofs::InnerBlocks::not_kept, crate::proofs::InnerBlocks::kept))]
fn check_do(
    body: &Body,
    alloc: Global,
    known: &mut Known,
    predicates: &Predicates<'_>,
    block: Block<'_>,
) -> Result<(), Refusal>
    ensures { Says result (after_do block.entry.outcome.spot (context_of known.old.state) block.entry.outcome.name.now block.entry.outcome.sort block.entry.numbers.now (body_refused (declared_by predicates.now) body.now) block.entry.assn.now) (context_of known.new.state) }
{
    let given = split_off(alloc, known, block.outcome.spot, block.numbers)?;
    let post = post_of(alloc, block)?;
    check_inner(body, alloc, given, predicates, &post)?;
    add_box(alloc, known, block)
}

// ---- ends

// What is refused of an end.
#[cycle(body)]
#[tactic(auto, using(crate::proofs::Rules::end_says))]
fn check_end(
    end: &End,
    alloc: Global,
    known: &mut Known,
    predicates: &Predicates<'_>,
    post: &Post,
) -> Result<(), Refusal>
    ensures { IsVerdict result (end_refused (declared_by predicates.now) end.now post.now (context_of known.old.state)) }
{
    check_end_kind(&end.kind, alloc, known, predicates, end.spot, post)
}

// An end, by its form.
#[cycle(body)]
#[tactic(auto, using(crate::proofs::Rules::ret_is, crate::proofs::Rules::if_is, crate::proofs::Rules::case_atom_is, crate::proofs::Rules::case_bool_is, crate::proofs::Rules::case_seq_is, crate::proofs::Rules::dead_is))]
fn check_end_kind(
    kind: &EndKind,
    alloc: Global,
    known: &mut Known,
    predicates: &Predicates<'_>,
    spot: Spot,
    post: &Post,
) -> Result<(), Refusal>
    ensures { IsVerdict result (end_kind_refused (declared_by predicates.now) kind.now spot post.now (context_of known.old.state)) }
{
    match kind {
        EndKind::Ret(value, give) => {
            let end = Return {
                spot,
                value: value.get(),
                give,
            };
            check_return(alloc, known, predicates, end, post)
        }
        EndKind::If(term, hyp, body, other) => {
            let fork = truth(spot, hyp, term);
            check_both(body, other, alloc, known, predicates, fork, post)
        }
        EndKind::CaseAtom(number, body, other) => {
            let named = NamedAtom {
                spot,
                number: *number,
            };
            check_either(body, other, alloc, known, predicates, named, post)
        }
        EndKind::CaseBool(term, hyp, body, other) => {
            let fork = truth(spot, hyp, term);
            check_case(body, other, alloc, known, predicates, fork, post)
        }
        EndKind::CaseSeq(term, hyp, body, head, tail, other) => {
            let fork = sequence(spot, hyp, term, head, tail);
            check_case(body, other, alloc, known, predicates, fork, post)
        }
        EndKind::Dead(proof, _) => check_dead(alloc, known, spot, proof),
    }
}

// ---- branches

// A case by the sides of an atom: it must be an `either`.
#[cycle(body)]
#[tactic(auto, using(crate::proofs::Branching::not_either, crate::proofs::Branching::either_checked))]
fn check_either(
    body: &Boxed<Body>,
    other: &Boxed<Body>,
    alloc: Global,
    known: &mut Known,
    predicates: &Predicates<'_>,
    named: NamedAtom,
    post: &Post,
) -> Result<(), Refusal>
    ensures { let decl = declared_by predicates.now in let c = context_of known.old.state in
        IsVerdict result (and_then (sides_at named.spot c named.number) (λ p. needs named.spot R11 (one_program body.now other.now) ▸ by_sides named.spot c named.number (body_refused decl body.now) (body_refused decl other.now) p post.now)) }
{
    let _sides = sides_of(known, named.spot, named.number)?;
    let fork = Fork {
        spot: named.spot,
        first: Branch::Left(named.number),
        second: Branch::Right(named.number),
    };
    check_case(body, other, alloc, known, predicates, fork, post)
}

// A case that does not run: its bodies must be one program.
#[cycle(body)]
#[tactic(auto, using(crate::proofs::Branching::first_stops, crate::proofs::Branching::then_checked))]
fn check_case(
    body: &Boxed<Body>,
    other: &Boxed<Body>,
    alloc: Global,
    known: &mut Known,
    predicates: &Predicates<'_>,
    fork: Fork<'_>,
    post: &Post,
) -> Result<(), Refusal>
    ensures { let decl = declared_by predicates.now in
        IsVerdict result (needs fork.entry.spot R11 (one_program body.now other.now) ▸ by_branches fork.entry.spot (context_of known.old.state) fork.entry.first fork.entry.second (body_refused decl body.now) (body_refused decl other.now) post.now) }
{
    need_one_program(alloc, fork.spot, body.get(), other.get())?;
    check_both(body, other, alloc, known, predicates, fork, post)
}

fn need_one_program(alloc: Global, spot: Spot, body: &Body, other: &Body) -> Result<(), Refusal>
    ensures { IsVerdict result (needs spot R11 (one_program body.now other.now)) }
{
    if same_program(alloc, body, other)? {
        Ok(())
    } else {
        Err(refused(spot, RuleCode::R11))
    }
}

// A body for each of two branches.
#[cycle(body)]
#[tactic(auto, using(crate::proofs::Branching::first_stops, crate::proofs::Branching::then_checked))]
fn check_both(
    body: &Boxed<Body>,
    other: &Boxed<Body>,
    alloc: Global,
    known: &mut Known,
    predicates: &Predicates<'_>,
    fork: Fork<'_>,
    post: &Post,
) -> Result<(), Refusal>
    ensures { let decl = declared_by predicates.now in
        IsVerdict result (by_branches fork.entry.spot (context_of known.old.state) fork.entry.first fork.entry.second (body_refused decl body.now) (body_refused decl other.now) post.now) }
{
    let first = Entry {
        spot: fork.spot,
        branch: fork.first,
    };
    let second = Entry {
        spot: fork.spot,
        branch: fork.second,
    };
    check_copied(body.get(), alloc, known, predicates, first, post)?;
    check_branch(other.get(), alloc, known, predicates, second, post)
}

// The body of a branch. What is known stays as it was.
#[cycle(body)]
fn check_copied(
    body: &Body,
    alloc: Global,
    known: &Known,
    predicates: &Predicates<'_>,
    entry: Entry<'_>,
    post: &Post,
) -> Result<(), Refusal>
    ensures { IsVerdict result (in_branch entry.entry.spot (context_of known.now.state) entry.entry.branch (body_refused (declared_by predicates.now) body.now) post.now) }
{
    let copy = copy_of(alloc, known)?;
    check_owned(body, alloc, copy, predicates, entry, post)
}

// The same from what is known, which is let go.
#[cycle(body)]
fn check_owned(
    body: &Body,
    alloc: Global,
    known: Known,
    predicates: &Predicates<'_>,
    entry: Entry<'_>,
    post: &Post,
) -> Result<(), Refusal>
    ensures { IsVerdict result (in_branch entry.entry.spot (context_of known.state) entry.entry.branch (body_refused (declared_by predicates.now) body.now) post.now) }
{
    let mut known = known;
    let result = check_branch(body, alloc, &mut known, predicates, entry, post);
    forget(known);
    result
}

// The body of a branch, from what is known at its start.
#[cycle(body)]
#[tactic(auto, using(crate::proofs::Branching::not_entered, crate::proofs::Branching::entered_checked))]
fn check_branch(
    body: &Body,
    alloc: Global,
    known: &mut Known,
    predicates: &Predicates<'_>,
    entry: Entry<'_>,
    post: &Post,
) -> Result<(), Refusal>
    ensures { IsVerdict result (in_branch entry.entry.spot (context_of known.old.state) entry.entry.branch (body_refused (declared_by predicates.now) body.now) post.now) }
{
    enter(alloc, known, entry)?;
    check_body(body, alloc, known, predicates, post)
}
