// Runs of one branch, step by step, worked out by hand.
ghost use Rattle.std.specs.Prelude.{◌≡◌, true, IfOk, IfSome, OnOk};
ghost use Rattle.tht_tree.specs.Walk.Files.{WellSorted};
ghost use Rattle.tht_logic.specs.Built.{is_built as built_file};
ghost use Rattle.code_form.specs.Branches.{IsOf, Standing, Takes, ask_of, is_inside};

use crate::plain::is_plain;
use code_form::{Ask, BranchState, Code, Forked, Joined, Told, lower};
use hoare_rules::is_built;
use name_walk::files::well_sorted;
use std::alloc::{AllocError, Global};
use std::process::Abort;
use std::test::Fail;
use tht_parse::parse;
use tht_tree::file::Source1;
use tht_tree::plain::{Memory, Place, Sort, Value};

/// What a branch asks for, and what it is told.
#[derive(Clone, Copy, Debug)]
enum Turn {
    Reads(Place, Sort, Value),
    Writes(Place, Value),
    Makes(&'static [Value]),
    Frees(Place),
    Publishes(Place),
    Retracts(Place),
    Calls,
    /// Into an atomic block, and out of it.
    Enters,
    Leaves,
    /// On with the values of the children.
    Joins(Value, Value),
}

/// How a branch ends.
#[derive(Clone, Copy, Debug, PartialEq, Eq)]
enum Stop {
    Value(Value),
    FrontBig,
    TermBig,
}

const FIRST: Place = Place::Cell { arena: 0, index: 0 };

const SECOND: Place = Place::Cell { arena: 0, index: 1 };

/// The code of a source whose names and sorts are in order.
fn code_of(rt: &impl Abort, alloc: Global, source: &str) -> Result<Code, Memory> {
    let bytes = source.as_bytes();
    assert!(rt; bytes.len() <= 1_048_576);
    let Ok(file) = parse(alloc, bytes) else {
        return Err(Memory);
    };
    if !is_built(&file) {
        return Err(Memory);
    }
    match well_sorted(alloc, &file) {
        Ok(()) => code_of_file(alloc, &file),
        Err(_) => Err(Memory),
    }
}

#[tactic(auto, using(hoare_laws::proofs::PlainFiles::plain_files))]
fn code_of_file(alloc: Global, file: &Source1) -> Result<Code, Memory>
    requires built { built_file file.now ≡ true }
    requires sorted { WellSorted file.now }
{
    lower(alloc, file)
}

/// The code of a source without declarations that is plain.
fn plain_code(rt: &impl Abort, alloc: Global, source: &str) -> Result<Code, Memory> {
    let bytes = source.as_bytes();
    assert!(rt; bytes.len() <= 1_048_576);
    let Ok(file) = parse(alloc, bytes) else {
        return Err(Memory);
    };
    if is_plain(&file) {
        lower(alloc, &file)
    } else {
        Err(Memory)
    }
}

/// What a branch that asks for this can be told, if it asks for a statement: of a read this value, and of two children these.
#[tactic(auto, using(code_form::proofs::Telling::takes_read, code_form::proofs::Telling::takes_write, code_form::proofs::Telling::takes_alloc, code_form::proofs::Telling::takes_free, code_form::proofs::Telling::takes_publish, code_form::proofs::Telling::takes_retract, code_form::proofs::Telling::takes_call, code_form::proofs::Telling::takes_atomic, code_form::proofs::Telling::takes_block_end, code_form::proofs::Telling::takes_waiting))]
fn told_of(ask: &Ask, in_block: bool, read: Value, ends: Joined) -> Option<Told>
    ensures { (s : Standing) → ask.now ≡ ask_of s → in_block ≡ is_inside s → IfSome result (Takes s) }
{
    match ask {
        Ask::Read { .. } => Some(Told::Got(read)),
        Ask::Write { .. } => Some(Told::Went),
        Ask::Alloc { .. } => Some(Told::Went),
        Ask::Free { .. } => Some(Told::Went),
        Ask::Publish { .. } => Some(Told::Went),
        Ask::Retract { .. } => Some(Told::Went),
        Ask::Call => Some(Told::Went),
        Ask::Atomic if !in_block => Some(Told::Went),
        Ask::BlockEnd => Some(Told::Went),
        Ask::Waiting { .. } => Some(Told::Joined(ends)),
        _ => None,
    }
}

/// Whether this is what stands in the turn.
fn is_asked(ask: &Ask, turn: Turn) -> bool {
    match (ask, turn) {
        (Ask::Read { place, sort }, Turn::Reads(p, s, _)) => *place == p && *sort == s,
        (Ask::Write { place, value }, Turn::Writes(p, v)) => *place == p && *value == v,
        (Ask::Alloc { values }, Turn::Makes(vs)) => values.as_slice() == vs,
        (Ask::Free { place }, Turn::Frees(p)) => *place == p,
        (Ask::Publish { place }, Turn::Publishes(p)) => *place == p,
        (Ask::Retract { place }, Turn::Retracts(p)) => *place == p,
        (Ask::Call, Turn::Calls) => true,
        (Ask::Atomic, Turn::Enters) => true,
        (Ask::BlockEnd, Turn::Leaves) => true,
        (Ask::Waiting { left, right }, Turn::Joins(_, _)) => *left == 1 && *right == 2,
        _ => false,
    }
}

fn value_read(turn: Turn) -> Value {
    match turn {
        Turn::Reads(_, _, v) => v,
        _ => Value::Unit,
    }
}

fn values_joined(turn: Turn) -> Joined {
    match turn {
        Turn::Joins(x, y) => Joined { x, y },
        _ => Joined {
            x: Value::Unit,
            y: Value::Unit,
        },
    }
}

/// Takes one turn, and answers whether the branch asked for it.
fn takes(branch: &mut BranchState, code: &Code, turn: Turn) -> Result<bool, Memory>
    requires { IsOf code.now branch.old }
    ensures { OnOk result (IsOf code.now branch.new) }
{
    let ask = branch.ask(code);
    if !is_asked(&ask, turn) || branch.next_index() > 1000 {
        return Ok(false);
    }
    let in_block = branch.is_inside();
    let Some(told) = told_of(&ask, in_block, value_read(turn), values_joined(turn)) else {
        return Ok(false);
    };
    branch.tell(code, told)?;
    Ok(true)
}

fn stop_of(ask: &Ask) -> Option<Stop> {
    match ask {
        Ask::Value(v) => Some(Stop::Value(*v)),
        Ask::FrontBig => Some(Stop::FrontBig),
        Ask::TermBig => Some(Stop::TermBig),
        _ => None,
    }
}

/// Takes these turns from the start, and answers how the branch stops then. `None` says that it asked for something else.
fn stops(code: &Code, alloc: Global, turns: &[Turn]) -> Result<Option<Stop>, Memory> {
    let mut branch = BranchState::first(alloc, code)?;
    goes(&mut branch, code, turns)
}

/// Takes these turns from here on.
fn goes(branch: &mut BranchState, code: &Code, turns: &[Turn]) -> Result<Option<Stop>, Memory>
    requires { IsOf code.now branch.old }
    ensures { OnOk result (IsOf code.now branch.new) }
{
    for turn in turns {
        if !takes(branch, code, *turn)? {
            return Ok(None);
        }
    }
    Ok(stop_of(&branch.ask(code)))
}

const CELLS: &str = "tht 1
main r : nat { emp } {
  x <- alloc (3, 4);
  a : nat <- read x at 1 as h by refl;
  write x.1 (a + 4) at 2 by refl;
  free x at 1 by refl;
  ret a * 2 by emp
}";

const INNER: &str = "tht 1
main r : nat { emp } {
  x : nat <- do () {
    y <- alloc (1);
    z : nat <- read y at 1 as h by refl;
    if z = 1 as k { ret z + 1 by emp } else { ret 0 by emp }
  } { emp };
  ret x + x by emp
}";

const CALLS: &str = "tht 1
proc less (m : nat, n : nat) [] { emp } r : nat { emp } {
  if m <= n as k {
    ret 0 by emp
  } else {
    p <- call less(m - 1, n)[] by emp;
    ret p + 1 by emp
  }
}
main r : nat { emp } {
  a <- call less(5, 3)[] by emp;
  b <- call less(a, 7)[] by emp;
  ret a * 10 + b by emp
}";

const BIG: &str = "tht 1
main r : unit { emp } {
  x <- alloc (0);
  write x (18446744073709551615 + 1) at 1 by refl;
  ret () by emp
}";

const BIG_FRONT: &str = "tht 1
main r : unit { emp } {
  if 18446744073709551615 + 1 = 0 as k { ret () by emp } else { ret () by emp }
}";

// The place that is read is the last one of an arena. It is its own place 0, and there is none behind it.
const LAST: &str = "tht 1
main r : unit { emp } {
  x <- alloc (null);
  y : loc <- read x at 1 as h by refl;
  write x (y.0) at 1 by refl;
  ret () by emp
}";

const BEHIND_LAST: &str = "tht 1
main r : unit { emp } {
  x <- alloc (null);
  y : loc <- read x at 1 as h by refl;
  write x (y.1) at 1 by refl;
  ret () by emp
}";

const THE_LAST: Place = Place::Cell {
    arena: 0,
    index: 18_446_744_073_709_551_615,
};

/// A source, the turns that its run takes, and how it stops behind them.
struct Case(&'static str, &'static [Turn], Stop);

const CASES: &[Case] = &[
    Case(
        CELLS,
        &[
            Turn::Makes(&[Value::Nat(3), Value::Nat(4)]),
            Turn::Reads(FIRST, Sort::Nat, Value::Nat(3)),
            Turn::Writes(SECOND, Value::Nat(7)),
            Turn::Frees(FIRST),
        ],
        Stop::Value(Value::Nat(6)),
    ),
    // What the inner body binds is gone behind it.
    Case(
        INNER,
        &[
            Turn::Makes(&[Value::Nat(1)]),
            Turn::Reads(FIRST, Sort::Nat, Value::Nat(1)),
        ],
        Stop::Value(Value::Nat(4)),
    ),
    // less(5, 3) is 2, by three calls, and less(2, 7) is 0.
    Case(
        CALLS,
        &[Turn::Calls, Turn::Calls, Turn::Calls, Turn::Calls],
        Stop::Value(Value::Nat(20)),
    ),
    Case(BIG, &[Turn::Makes(&[Value::Nat(0)])], Stop::TermBig),
    Case(BIG_FRONT, &[], Stop::FrontBig),
    Case(
        LAST,
        &[
            Turn::Makes(&[Value::Loc(Place::Null)]),
            Turn::Reads(FIRST, Sort::Loc, Value::Loc(THE_LAST)),
            Turn::Writes(FIRST, Value::Loc(THE_LAST)),
        ],
        Stop::Value(Value::Unit),
    ),
    Case(
        BEHIND_LAST,
        &[
            Turn::Makes(&[Value::Loc(Place::Null)]),
            Turn::Reads(FIRST, Sort::Loc, Value::Loc(THE_LAST)),
        ],
        Stop::TermBig,
    ),
];

fn holds(rt: &impl Abort, alloc: Global, case: &Case) -> Result<bool, Memory> {
    let code = code_of(rt, alloc, case.0)?;
    Ok(stops(&code, alloc, case.1)? == Some(case.2))
}

#[test]
fn each_source_asks_and_stops(rt: HostRuntime) -> Result<(), Fail> {
    let alloc = rt.alloc();
    for case in CASES {
        assert!(rt; holds(&rt, alloc, case).map_err(no_memory)?);
    }
    Ok(())
}

// A copy of a branch, which is of the same code.
fn copied(branch: &BranchState, _code: &Code) -> Result<BranchState, Memory>
    requires { IsOf _code.now branch.now }
    ensures { IfOk result (λ s. IsOf _code.now s) }
{
    branch.copy()
}

// A copy goes on by itself, and each branch counts its own steps.
#[test]
fn a_copy_goes_on_alone(rt: HostRuntime) -> Result<(), Fail> {
    let alloc = rt.alloc();
    let code = code_of(&rt, alloc, CELLS).map_err(no_memory)?;
    let mut branch = BranchState::first(alloc, &code).map_err(no_memory)?;
    let copy = copied(&branch, &code).map_err(no_memory)?;
    let two = Turn::Makes(&[Value::Nat(3), Value::Nat(4)]);
    assert!(rt; takes(&mut branch, &code, two).map_err(no_memory)?);
    assert!(rt; branch.steps() < 10);
    branch.count_step();
    assert_eq!(rt; (branch.next_index(), branch.steps()), (2, 1));
    assert_eq!(rt; (copy.next_index(), copy.steps()), (0, 0));
    assert!(rt; is_asked(&copy.ask(&code), two));
    Ok(())
}

// Both bodies are in scope of what was bound before, and the second result is the innermost one behind the fork.
const BLOCKS: &str = "tht 1
main r : nat { emp } {
  x <- alloc (3);
  publish x at 1 by refl;
  y : nat <- atomic () {
    a : nat <- read x at 1 as h by refl;
    b : nat <- do () { ret a + 1 by emp } { emp };
    write x b at 1 by refl;
    if b = 4 as k { ret b * 10 by emp } else { ret 0 by emp }
  } { emp };
  (p : nat, q : nat) <- par () {
    c <- alloc (y);
    ret y + 1 by emp
  } { emp } () {
    retract x at 1 by refl;
    ret y + 2 by emp
  } { emp };
  ret p * 1000 + q by emp
}";

const BEFORE_THE_FORK: &[Turn] = &[
    Turn::Makes(&[Value::Nat(3)]),
    Turn::Publishes(FIRST),
    Turn::Enters,
    Turn::Reads(FIRST, Sort::Nat, Value::Nat(3)),
    Turn::Writes(FIRST, Value::Nat(4)),
    Turn::Leaves,
];

/// Whether the branch has a fork in front, whose children stop so, and then goes on from the join to this end.
#[tactic(auto, using(code_form::proofs::Telling::can_fork))]
fn forks_and_joins(branch: &BranchState, code: &Code) -> Result<bool, Memory>
    requires { IsOf code.now branch.now }
{
    match branch.ask(code) {
        Ask::Fork => {
            if branch.is_inside() {
                return Ok(false);
            }
            let forked = branch.fork(code)?;
            join_of(forked, code)
        }
        _ => Ok(false),
    }
}

fn join_of(forked: Forked, code: &Code) -> Result<bool, Memory>
    requires parent { IsOf code.now forked.parent }
    requires left { IsOf code.now forked.left }
    requires right { IsOf code.now forked.right }
{
    let Forked {
        parent,
        left,
        right,
    } = forked.number(1, 2);
    let mut parent = parent;
    let mut left = left;
    let mut right = right;
    let made = Turn::Makes(&[Value::Nat(40)]);
    let retracted = Turn::Retracts(FIRST);
    let joined = Turn::Joins(Value::Nat(41), Value::Nat(42));
    let one = goes(&mut left, code, &[made])? == Some(Stop::Value(Value::Nat(41)));
    let other = goes(&mut right, code, &[retracted])? == Some(Stop::Value(Value::Nat(42)));
    let end = goes(&mut parent, code, &[joined])? == Some(Stop::Value(Value::Nat(41_042)));
    let numbers = left.number() == 1 && right.number() == 2;
    Ok(one && other && end && numbers && left.next_index() == 1 && right.next_index() == 0)
}

fn block_and_fork(code: &Code, alloc: Global) -> Result<bool, Memory> {
    let mut branch = BranchState::first(alloc, code)?;
    let stop = goes(&mut branch, code, BEFORE_THE_FORK)?;
    Ok(stop.is_none() && forks_and_joins(&branch, code)?)
}

#[test]
fn blocks_and_forks_go_on(rt: HostRuntime) -> Result<(), Fail> {
    let alloc = rt.alloc();
    let code = plain_code(&rt, alloc, BLOCKS).map_err(no_memory)?;
    assert!(rt; block_and_fork(&code, alloc).map_err(no_memory)?);
    Ok(())
}

fn no_memory(_error: Memory) -> AllocError {
    AllocError
}
