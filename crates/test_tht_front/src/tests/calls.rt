// Calls: texts that are accepted, with what their runs return, and others with the place and the code of what is refused first. Each was
// worked out by hand.
use super::{ends_so, joined, runs_so};
use std::alloc::{AllocError, Global};
use std::test::Fail;
use tht_tree::status::Status;

// Each text stands behind these procs and main's head, from line 10 on.
const PROCS: &str = "tht 1
pred some (p : loc) = exists v : nat . p -> v;
proc same (n : nat) [] { emp } r : nat { [r = n] } { ret n by [refl] }
proc less (m : nat, n : nat) [] { emp } r : nat { [r = m - n] } { ret m - n by [refl] }
proc gap (m : nat, n : nat) [] { [m <= n] } r : nat { [r + m = n] } { open 1 as h; ret n - m by [monus hyp h] }
proc make (n : nat) [] { emp } r : loc { r -> n } { x <- alloc (n); ret x by @1 }
proc bump (p : loc) [v : nat] { p -> v } r : nat { p -> (v + 1) * [r = v] } { a : nat <- read p at 1 as h by refl; write p (a + 1) at 1 by refl; rewrite 1 2 to v + 1 by lin 1 { 1 [a = v] hyp h }; ret a by @1 * [hyp h] }
proc drop (p : loc) [] { some(p) } r : unit { emp } { unfold 1; open 2 as v : nat; free p at 3 by refl; ret () by emp }
main r : nat { emp } {
";

// Texts, what they return, and the events: one for a call, and those of the body that is called.
const RETURNED: &[(&str, &str, &str)] = &[
    (
        "z <- call same(7)[] by emp;\nopen 1 as h;\nret z by emp",
        "7",
        "1",
    ),
    // the postcondition has the result's name and the arguments in it, in their order
    (
        "z <- call less(7, 2)[] by emp;\nopen 1 as h;\nhave k : z = 7 - 2 by hyp h;\nret z by emp",
        "5",
        "1",
    ),
    (
        "z <- call less(2, 7)[] by emp;\nopen 1 as h;\nhave k : z = 2 - 7 by hyp h;\nret z by emp",
        "0",
        "1",
    ),
    // atoms are numbered on from call to call
    (
        "a <- call same(7)[] by emp;\nb <- call same(a + 1)[] by emp;\nopen 2 as k;\nhave m : b = a + 1 by hyp k;\nopen 1 as h;\nret a * b by emp",
        "56",
        "2",
    ),
    // a precondition that is proved
    (
        "z <- call gap(2, 7)[] by [calc];\nopen 1 as h;\nhave k : z + 2 = 7 by hyp h;\nret z by emp",
        "5",
        "1",
    ),
    (
        "z <- call gap(2, 7)[] by [lin 1 {}];\nopen 1 as h;\nret z by emp",
        "5",
        "1",
    ),
    // arguments with the parameters' names, the other way round: they are put in at once
    (
        "m <- call same(3)[] by emp;\nn <- call same(8)[] by emp;\nz <- call less(n, m)[] by emp;\nopen 3 as h;\nhave k : z = n - m by hyp h;\nopen 1 as f;\nopen 2 as g;\nret z by emp",
        "5",
        "3",
    ),
    // an argument, and a result, with the name of the result in the proc
    (
        "r <- call same(9)[] by emp;\nz <- call less(r, 4)[] by emp;\nopen 2 as h;\nhave k : z = r - 4 by hyp h;\nopen 1 as g;\nret z by emp",
        "5",
        "2",
    ),
    (
        "r <- call less(9, 4)[] by emp;\nopen 1 as h;\nhave k : r = 9 - 4 by hyp h;\nret r by emp",
        "5",
        "1",
    ),
];

// The same with cells: those that a call does not consume stay, and keep their numbers.
const CELLS: &[(&str, &str, &str)] = &[
    // two calls make cells, one event each beside that of the call
    (
        "x <- call make(3)[] by emp;\ny <- call make(4)[] by emp;\na : nat <- read x at 1 as h by refl;\nb : nat <- read y at 2 as k by refl;\nfree y at 2 by refl;\nfree x at 1 by refl;\nret 10 * a + b by emp",
        "34",
        "8",
    ),
    // 3 and 4 are the cell and the equation of the postcondition
    (
        "x <- alloc (3);\ny <- alloc (9);\na <- call bump(x)[3] by @1;\nopen 4 as h;\nb : nat <- read x at 3 as k by refl;\nhave m : b = 3 + 1 by hyp k;\nwrite y a at 2 by refl;\nfree x at 3 by refl;\nfree y at 2 by refl;\nret 10 * a + b by emp",
        "34",
        "9",
    ),
    // the numbers that the body called gives to atoms are its own
    (
        "x <- alloc (3);\nu <- call drop(x)[] by fold ex [3] @1;\ny <- alloc (4);\na : nat <- read y at 2 as h by refl;\nfree y at 2 by refl;\nret a by emp",
        "4",
        "6",
    ),
    // a place behind another
    (
        "x <- alloc (3, 4);\na <- call bump(x.1)[4] by @2;\nopen 4 as h;\nfree x at 1 by refl;\nfree x.1 at 3 by refl;\nret a by emp",
        "4",
        "6",
    ),
    // in brackets a variable that was opened
    (
        "x <- alloc (3);\nfold some(x) by ex [3] @1;\nunfold 2;\nopen 3 as v : nat;\na <- call bump(x)[v] by @4;\nopen 6 as h;\nhave k : a = v by hyp h;\nfree x at 5 by refl;\nret a by emp",
        "3",
        "5",
    ),
    // one cell in two calls: 2 and 3 behind the first, 4 and 5 behind the second
    (
        "x <- alloc (3);\na <- call bump(x)[3] by @1;\nb <- call bump(x)[3 + 1] by @2;\nopen 3 as h;\nopen 5 as k;\nfree x at 4 by refl;\nret 10 * a + b by emp",
        "34",
        "8",
    ),
    // a place that was read, and is known to be that of the cell
    (
        "x <- call make(3)[] by emp;\ny <- alloc (x);\nz : loc <- read y at 2 as h by refl;\nrewrite 1 1 to z by sym hyp h;\na <- call bump(z)[3] by @1;\nopen 4 as k;\nfree z at 3 by refl;\nfree y at 2 by refl;\nret a by emp",
        "3",
        "9",
    ),
];

// Texts with the place and the code of what is refused first: in the give of a precondition.
const NOT_GIVEN: &[(&str, &str)] = &[
    // no such atom, which comes before its shape
    (
        "u <- call drop(null)[] by\n@1;\nret 0 by emp",
        "rule 11:1 R1\n",
    ),
    // another shape: a cell for an instance, a formula for nothing, one atom and two
    (
        "x <- alloc (3);\nu <- call drop(x)[] by\n@1;\nret 0 by emp",
        "rule 12:1 R4\n",
    ),
    (
        "z <- call same(7)[] by\n[calc];\nret z by emp",
        "rule 11:1 R4\n",
    ),
    (
        "x <- alloc (3);\na <- call bump(x)[3] by\n@1 * emp;\nret a by emp",
        "rule 12:1 R4\n",
    ),
    // another value, in the give and in brackets
    (
        "x <- alloc (3);\nu <- call drop(x)[] by fold ex [4]\n@1;\nret 0 by emp",
        "rule 12:1 R4\n",
    ),
    (
        "x <- alloc (3);\na <- call bump(x)[2] by\n@1;\nret a by emp",
        "rule 12:1 R4\n",
    ),
    // another place, though it holds the same, and though it is known to be equal
    (
        "x <- alloc (3);\ny <- alloc (3);\na <- call bump(y)[3] by\n@1;\nret a by emp",
        "rule 13:1 R4\n",
    ),
    (
        "x <- call make(3)[] by emp;\ny <- alloc (x);\nz : loc <- read y at 2 as h by refl;\na <- call bump(z)[3] by\n@1;\nret a by emp",
        "rule 14:1 R4\n",
    ),
    // proofs
    (
        "z <- call gap(7, 2)[] by [\ncalc];\nret z by emp",
        "rule 11:1 R8\n",
    ),
    (
        "z <- call gap(7, 2)[] by [\nlin 1 {}];\nret z by emp",
        "rule 11:1 R6\n",
    ),
    (
        "z <- call gap(18446744073709551615 * 9223372036854775809, 0)[] by [\nlin 1 {}];\nret z by emp",
        "rule 11:1 R7\n",
    ),
    (
        "z <- call gap(2, 7)[] by [\nrefl];\nret z by emp",
        "rule 11:1 R5\n",
    ),
    (
        "z <- call gap(2, 7)[] by [\ntodo];\nret z by emp",
        "rule 11:1 R9\n",
    ),
];

// The same behind a call.
const REFUSED_BEHIND: &[(&str, &str)] = &[
    // the postcondition's atom is left, or one that the call does not consume
    (
        "z <- call same(7)[] by emp;\nret z by emp",
        "rule 11:1 R3\n",
    ),
    (
        "x <- alloc (3);\ny <- alloc (9);\na <- call bump(x)[3] by @1;\nopen 4 as h;\nfree x at 3 by refl;\nret a by emp",
        "rule 15:1 R3\n",
    ),
    // what was consumed is gone
    (
        "x <- alloc (3);\na <- call bump(x)[3] by @1;\nfree x at 1 by refl;\nret a by emp",
        "rule 12:1 R1\n",
    ),
    (
        "x <- alloc (3);\na <- call bump(x)[3] by @1;\nb <- call bump(x)[3] by\n@1;\nret a by emp",
        "rule 13:1 R1\n",
    ),
    // one atom was made, which is a cell; and here one that is a formula
    (
        "x <- call make(3)[] by emp;\nfree x at 2 by refl;\nret 0 by emp",
        "rule 11:1 R1\n",
    ),
    (
        "x <- call make(3)[] by emp;\nopen 1 as h;\nret 0 by emp",
        "rule 11:1 R2\n",
    ),
    (
        "z <- call same(7)[] by emp;\nopen 1 as v : nat;\nret z by emp",
        "rule 11:1 R2\n",
    ),
    // the postcondition says no more than it says
    (
        "z <- call less(7, 2)[] by emp;\nopen 1 as h;\nhave k : z = 2 - 7 by\nhyp h;\nret z by emp",
        "rule 13:1 R5\n",
    ),
    (
        "x <- alloc (3);\na <- call bump(x)[3] by @1;\nb : nat <- read x at 2 as k by refl;\nhave m : b = 3 by\nhyp k;\nret b by emp",
        "rule 14:1 R5\n",
    ),
    (
        "z <- call same(7)[] by emp;\nhave k : z = 7 by\nrefl;\nret z by emp",
        "rule 12:1 R5\n",
    ),
];

// Texts whose names or sorts are not in order.
const OUT_OF_ORDER: &[(&str, &str)] = &[
    // what is called, which comes before the number of arguments and their sorts
    (
        "z <- call other(1)[] by emp;\nret z by emp",
        "names 10:1 N1\n",
    ),
    (
        "z <- call other(true + 1)[] by emp;\nret z by emp",
        "names 10:1 N1\n",
    ),
    (
        "z <- call some(null)[] by emp;\nret 0 by emp",
        "names 10:1 N3\n",
    ),
    (
        "z <- call some(true + 1)[] by emp;\nret 0 by emp",
        "names 10:1 N3\n",
    ),
    (
        "x <- alloc (1);\nz <- call x()[] by emp;\nret z by emp",
        "names 11:1 N3\n",
    ),
    // how many arguments
    (
        "z <- call same()[] by emp;\nret z by emp",
        "names 10:1 N4\n",
    ),
    (
        "z <- call same(1, 2)[] by emp;\nret z by emp",
        "names 10:1 N4\n",
    ),
    (
        "z <- call same(1)[2] by emp;\nret z by emp",
        "names 10:1 N4\n",
    ),
    (
        "z <- call bump(null)[] by emp;\nret z by emp",
        "names 10:1 N4\n",
    ),
    (
        "z <- call same(true, 1)[] by emp;\nret z by emp",
        "names 10:1 N4\n",
    ),
    // their sorts
    (
        "z <- call same(true)[] by emp;\nret z by emp",
        "sorts 10:1 S1\n",
    ),
    (
        "z <- call less(1, null)[] by emp;\nret z by emp",
        "sorts 10:1 S1\n",
    ),
    (
        "z <- call bump(null)[null] by emp;\nret z by emp",
        "sorts 10:1 S1\n",
    ),
    (
        "z <- call same(len nil)[] by emp;\nret z by emp",
        "sorts 10:1 S2\n",
    ),
    (
        "x <- alloc (3);\nfold some(x) by ex [3] @1;\nunfold 2;\nopen 3 as v : nat;\nz <- call same(v)[] by emp;\nret z by emp",
        "sorts 14:1 S2\n",
    ),
];

// The same of the names that a call binds, and of its give.
const NAMES_OUT_OF_ORDER: &[(&str, &str)] = &[
    // the result is not known in the call
    (
        "z <- call same(z)[] by emp;\nret z by emp",
        "names 10:1 N1\n",
    ),
    (
        "z <- call bump(null)[z] by emp;\nret z by emp",
        "names 10:1 N1\n",
    ),
    (
        "z <- call gap(2, 7)[] by [\nhyp z];\nret z by emp",
        "names 11:1 N1\n",
    ),
    // a name that is in scope
    (
        "same <- call same(1)[] by emp;\nret 0 by emp",
        "names 10:1 N2\n",
    ),
    (
        "some <- call some(1)[] by emp;\nret 0 by emp",
        "names 10:1 N2\n",
    ),
    (
        "z <- call make(3)[] by emp;\nz <- call make(4)[] by emp;\nret 0 by emp",
        "names 11:1 N2\n",
    ),
    // a hypothesis is no argument
    (
        "have h : true by calc;\nz <- call same(h)[] by emp;\nret z by emp",
        "names 11:1 N3\n",
    ),
    // the call itself comes before its give
    (
        "z <- call same(1)[] by [\nhyp g];\nret z by emp",
        "names 11:1 N1\n",
    ),
    (
        "z <- call same(true)[] by [\nhyp g];\nret z by emp",
        "sorts 10:1 S1\n",
    ),
    // what the body called binds is not known, and the result has the sort that the proc says
    (
        "z <- call make(3)[] by emp;\nfree x at 1 by refl;\nret 0 by emp",
        "names 11:1 N1\n",
    ),
    (
        "z <- call make(3)[] by emp;\nret z by @1",
        "sorts 11:1 S1\n",
    ),
    (
        "x <- call make(3)[] by emp;\nz <- call make(x)[] by emp;\nret 0 by emp",
        "sorts 11:1 S1\n",
    ),
];

fn around(alloc: Global, text: &str) -> Result<String, AllocError> {
    joined(alloc, &[PROCS, text, "\n}\n"])
}

fn returns(alloc: Global, row: (&str, &str, &str)) -> Result<bool, AllocError> {
    let (text, value, events) = row;
    let source = around(alloc, text)?;
    let end = joined(alloc, &["done\nresult ", value])?;
    ends_so(alloc, source.as_str(), Status::Done, end.as_str(), events)
}

fn is_refused(alloc: Global, row: (&str, &str), status: Status) -> Result<bool, AllocError> {
    let (text, line) = row;
    let source = around(alloc, text)?;
    runs_so(alloc, source.as_str(), status, line)
}

#[test]
fn calls_have_results(rt: HostRuntime) -> Result<(), Fail> {
    let alloc = rt.alloc();
    for row in RETURNED {
        assert!(rt; returns(alloc, *row)?, "{}", row.0);
    }
    Ok(())
}

#[test]
fn calls_take_cells_and_leave_others(rt: HostRuntime) -> Result<(), Fail> {
    let alloc = rt.alloc();
    for row in CELLS {
        assert!(rt; returns(alloc, *row)?, "{}", row.0);
    }
    Ok(())
}

#[test]
fn preconditions_are_given(rt: HostRuntime) -> Result<(), Fail> {
    let alloc = rt.alloc();
    for row in NOT_GIVEN {
        assert!(rt; is_refused(alloc, *row, Status::Rule)?, "{}", row.0);
    }
    Ok(())
}

#[test]
fn postconditions_are_known_behind_calls(rt: HostRuntime) -> Result<(), Fail> {
    let alloc = rt.alloc();
    for row in REFUSED_BEHIND {
        assert!(rt; is_refused(alloc, *row, Status::Rule)?, "{}", row.0);
    }
    Ok(())
}

#[test]
fn calls_have_their_arguments(rt: HostRuntime) -> Result<(), Fail> {
    let alloc = rt.alloc();
    for row in OUT_OF_ORDER {
        assert!(rt; is_refused(alloc, *row, Status::NamesOrSorts)?, "{}", row.0);
    }
    Ok(())
}

#[test]
fn calls_bind_their_results(rt: HostRuntime) -> Result<(), Fail> {
    let alloc = rt.alloc();
    for row in NAMES_OUT_OF_ORDER {
        assert!(rt; is_refused(alloc, *row, Status::NamesOrSorts)?, "{}", row.0);
    }
    Ok(())
}

// Calls that do not fit the machine: an argument, before the call, and what the body called returns, behind it.
const BIG_ARGUMENT: &str =
    "x <- alloc (3);\nz <- call less(1, 18446744073709551615 + 1)[] by emp;\nopen 2 as h;\nfree x at 1 by refl;\nret z by emp";

const BIG_RESULT: &str = "tht 1
proc up (n : nat) [] { emp } r : nat { emp } { ret n + 1 by emp }
main r : nat { emp } {
  a <- call up(18446744073709551614)[] by emp;
  b <- call up(a)[] by emp;
  ret 0 by emp
}
";

#[test]
fn arguments_and_results_fit_the_machine(rt: HostRuntime) -> Result<(), Fail> {
    let alloc = rt.alloc();
    let source = around(alloc, BIG_ARGUMENT)?;
    assert!(rt; ends_so(alloc, source.as_str(), Status::Big, "big 0", "1")?);
    assert!(rt; ends_so(alloc, BIG_RESULT, Status::Big, "big 0", "2")?);
    Ok(())
}
