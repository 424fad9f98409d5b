// Procs: their names and sorts, and their bodies by the rules. What is expected was worked out by hand.
use super::{ends_so, joined, runs_so};
use std::alloc::{AllocError, Global};
use std::test::Fail;
use tht_tree::status::Status;

// Declarations stand from line 2 on, before a main that returns 0.
const MAIN: &str = "\nmain r : nat { emp } { ret 0 by emp }\n";

fn declared(alloc: Global, decls: &str) -> Result<String, AllocError> {
    joined(alloc, &["tht 1\n", decls, MAIN])
}

fn is_taken(alloc: Global, decls: &str) -> Result<bool, AllocError> {
    let source = declared(alloc, decls)?;
    ends_so(alloc, source.as_str(), Status::Done, "done\nresult 0", "0")
}

fn is_refused(alloc: Global, row: (&str, &str), status: Status) -> Result<bool, AllocError> {
    let (decls, line) = row;
    let source = declared(alloc, decls)?;
    runs_so(alloc, source.as_str(), status, line)
}

// Procs that are accepted.
const TAKEN: &[&str] = &[
    // nothing is asked for, and parameters of all sorts that a cell can hold
    "proc f (n : nat, b : bool, p : loc, u : unit) [] { emp } r : unit { [r = u] } { ret u by [refl] }",
    // variables of the logic of all sorts
    "proc f () [n : nat, b : bool, p : loc, u : unit, s : seq] { [b] * p -> n * [len s = n] } r : nat { p -> n * [b] } { open 1 as f1; open 3 as f3; ret 0 by @2 * [hyp f1] }",
    // the result is known in the postcondition alone, so its name is free in the body and in the precondition
    "proc f () [] { emp } r : nat { emp } { r <- alloc (7); free r at 1 by refl; ret 0 by emp }",
    "proc f () [] { exists r : nat . [r = 0] } r : nat { [r = 0] } { open 1 as r : nat; open 2 as h; ret 0 by [refl] }",
    // a name of a body is free behind it, and in another proc
    "proc f (x : nat) [] { emp } r : nat { emp } { y <- alloc (x); free y at 1 by refl; ret x by emp }\nproc y (x : nat) [f1 : nat] { emp } r : nat { emp } { ret x by emp }",
    // an earlier proc, and the proc itself
    "proc f () [] { emp } r : nat { emp } { ret 0 by emp }\nproc g () [] { emp } r : nat { emp } { z <- call f()[] by emp; ret z by emp }",
    "proc f (n : nat) [] { emp } r : nat { emp } { z <- call f(n)[] by emp; ret z by emp }",
    // predicates before it
    "pred one (n : nat) = [n = 1];\nproc f (n : nat) [] { one(n) } r : nat { one(r) } { ret n by @1 }",
];

// Declarations whose names or sorts are not in order: what a head binds.
const HEADS_OUT_OF_ORDER: &[(&str, &str)] = &[
    // two of one name, among parameters, variables of the logic, the result and the proc itself
    (
        "proc f (x : nat, x : nat) [] { emp } r : nat { emp } { ret x by emp }",
        "names 2:1 N2\n",
    ),
    (
        "proc f (x : nat) [x : nat] { emp } r : nat { emp } { ret x by emp }",
        "names 2:1 N2\n",
    ),
    (
        "proc f () [x : nat, x : seq] { emp } r : nat { emp } { ret 0 by emp }",
        "names 2:1 N2\n",
    ),
    (
        "proc f (r : nat) [] { emp } r : nat { emp } { ret r by emp }",
        "names 2:1 N2\n",
    ),
    (
        "proc f () [r : nat] { emp } r : nat { emp } { ret 0 by emp }",
        "names 2:1 N2\n",
    ),
    (
        "proc f (f : nat) [] { emp } r : nat { emp } { ret 0 by emp }",
        "names 2:1 N2\n",
    ),
    (
        "proc f () [] { emp } f : nat { emp } { ret 0 by emp }",
        "names 2:1 N2\n",
    ),
    // what is declared before
    (
        "pred f () = emp;\nproc f () [] { emp } r : nat { emp } { ret 0 by emp }",
        "names 3:1 N2\n",
    ),
    (
        "proc f () [] { emp } r : nat { emp } { ret 0 by emp }\nproc f () [] { emp } r : nat { emp } { ret 0 by emp }",
        "names 3:1 N2\n",
    ),
    (
        "proc f () [] { emp } r : nat { emp } { ret 0 by emp }\nproc g (f : nat) [] { emp } r : nat { emp } { ret 0 by emp }",
        "names 3:1 N2\n",
    ),
    // no parameter and no result is a sequence; a clash of sorts comes first
    (
        "proc f (s : seq) [] { emp } r : nat { emp } { ret 0 by emp }",
        "sorts 2:1 S5\n",
    ),
    (
        "proc f () [] { emp } r : seq { emp } {\nret 0 by emp }",
        "sorts 2:1 S5\n",
    ),
    (
        "proc f (s : seq) [] { [s = 0] } r : nat { emp } { ret 0 by emp }",
        "sorts 2:1 S1\n",
    ),
];

// The same of what a head says.
const BOXES_OUT_OF_ORDER: &[(&str, &str)] = &[
    (
        "proc f () [] { [x = 0] } r : nat { emp } { ret 0 by emp }",
        "names 2:1 N1\n",
    ),
    (
        "proc f () [] { emp } r : nat { [x = r] } { ret 0 by emp }",
        "names 2:1 N1\n",
    ),
    // the result is not known in the precondition
    (
        "proc f () [] { [r = 0] } r : nat { emp } { ret 0 by emp }",
        "names 2:1 N1\n",
    ),
    // a predicate that is declared behind it, and one with another number of arguments
    (
        "proc f () [] { p() } r : nat { emp } { ret 0 by emp }\npred p () = emp;",
        "names 2:1 N1\n",
    ),
    (
        "pred p (n : nat) = emp;\nproc f () [] { p() } r : nat { emp } { ret 0 by emp }",
        "names 3:1 N4\n",
    ),
    // a name that is bound once more
    (
        "proc f (x : nat) [] { exists x : nat . emp } r : nat { emp } { ret 0 by emp }",
        "names 2:1 N2\n",
    ),
    (
        "proc f () [] { emp } r : nat { exists r : nat . emp } { ret 0 by emp }",
        "names 2:1 N2\n",
    ),
    // a proc is no predicate, and no value
    (
        "proc f () [] { f() } r : nat { emp } { ret 0 by emp }",
        "names 2:1 N3\n",
    ),
    (
        "proc f () [] { [f = 0] } r : nat { emp } { ret 0 by emp }",
        "names 2:1 N3\n",
    ),
    (
        "proc f (n : nat) [] { [n] } r : nat { emp } { ret 0 by emp }",
        "sorts 2:1 S1\n",
    ),
    (
        "proc f () [] { emp } r : nat { [r] } { ret 0 by emp }",
        "sorts 2:1 S1\n",
    ),
    (
        "proc f () [s : seq] { null -> s } r : nat { emp } { ret 0 by emp }",
        "sorts 2:1 S5\n",
    ),
];

// The same of bodies.
const BODIES_OUT_OF_ORDER: &[(&str, &str)] = &[
    (
        "proc f () [] { emp } r : nat { emp } {\nret r by emp }",
        "names 3:1 N1\n",
    ),
    (
        "proc f () [] { emp } r : nat { emp } {\nret f by emp }",
        "names 3:1 N3\n",
    ),
    (
        "proc f () [y : nat] { emp } r : nat { emp } {\nret y by emp }",
        "sorts 3:1 S2\n",
    ),
    (
        "proc f () [] { emp } r : nat { emp } {\nret true by emp }",
        "sorts 3:1 S1\n",
    ),
    (
        "proc f (x : nat) [] { emp } r : nat { emp } {\nx <- alloc (0);\nret 0 by emp }",
        "names 3:1 N2\n",
    ),
    (
        "proc f () [y : nat] { emp } r : nat { emp } {\ny <- alloc (0);\nret 0 by emp }",
        "names 3:1 N2\n",
    ),
    // a proc that is declared behind it
    (
        "proc f () [] { emp } r : nat { emp } {\nz <- call g()[] by emp;\nret z by emp }\nproc g () [] { emp } r : nat { emp } { ret 0 by emp }",
        "names 3:1 N1\n",
    ),
    (
        "proc f () [] { emp } r : nat { emp } {\nz <- call f(1)[] by emp;\nret z by emp }",
        "names 3:1 N4\n",
    ),
    // a parameter of another proc
    (
        "proc f (x : nat) [] { emp } r : nat { emp } { ret x by emp }\nproc g () [] { emp } r : nat { emp } {\nret x by emp }",
        "names 4:1 N1\n",
    ),
    // the first in the text, and before what a rule refuses
    (
        "proc f () [] { emp } r : nat { emp } {\nret x by emp }\nproc f () [] { emp } r : nat { emp } { ret 0 by emp }",
        "names 3:1 N1\n",
    ),
    (
        "proc f () [] { emp } r : nat { emp } {\nret 0 by @1 }\nproc g () [] { emp } r : nat { emp } {\nret x by emp }",
        "names 5:1 N1\n",
    ),
];

// Declarations with the place and the code of what a rule refuses first.
const REFUSED: &[(&str, &str)] = &[
    // what the postcondition says, with what is returned for the result
    (
        "proc f () [] { emp } r : nat { [r = 1] } {\nret 0 by [\ncalc] }",
        "rule 4:1 R8\n",
    ),
    (
        "proc f (n : nat) [] { emp } r : nat { [r = n] } {\nret n + 0 by [\nrefl] }",
        "rule 4:1 R5\n",
    ),
    (
        "proc f (p : loc) [] { p -> 1 } r : nat { p -> 2 } {\nret 0 by\n@1 }",
        "rule 4:1 R4\n",
    ),
    // an atom that is left: of the precondition, and made in the body
    (
        "proc f (p : loc) [] { p -> 1 } r : nat { emp } {\nret 0 by emp }",
        "rule 3:1 R3\n",
    ),
    (
        "proc f () [] { emp } r : nat { emp } {\nx <- alloc (1);\nret 0 by emp }",
        "rule 4:1 R3\n",
    ),
    // the atoms of the precondition are numbered from 1, in their order and without `emp`
    (
        "proc f (p : loc) [v : nat] { emp * (p -> v * emp) * [v = 1] } r : nat { emp } {\nfree p at 2 by refl;\nret 0 by emp }",
        "rule 3:1 R2\n",
    ),
    (
        "proc f (p : loc) [v : nat] { emp * (p -> v * emp) * [v = 1] } r : nat { emp } {\nfree p at 3 by refl;\nret 0 by emp }",
        "rule 3:1 R1\n",
    ),
    (
        "proc f (p : loc) [v : nat] { emp * (p -> v * emp) * [v = 1] } r : nat { emp } {\nfree p at 1 by refl;\nret 0 by emp }",
        "rule 4:1 R3\n",
    ),
    // a variable of the logic says nothing that the precondition does not say
    (
        "proc f (p : loc) [v : nat] { p -> v } r : nat { emp } {\na : nat <- read p at 1 as h by refl;\nhave k : a = 0 by\nhyp h;\nfree p at 1 by refl;\nret 0 by emp }",
        "rule 5:1 R5\n",
    ),
    // its own precondition, where it calls itself
    (
        "proc f (n : nat) [] { [n = 0] } r : nat { emp } {\nopen 1 as h;\nz <- call f(n + 1)[] by [\nhyp h];\nret z by emp }",
        "rule 5:1 R5\n",
    ),
    // the first in the text: of two procs, and in one body
    (
        "proc f () [] { emp } r : nat { emp } {\nret 0 by\n@1 }\nproc g () [] { emp } r : nat { emp } {\nret 0 by\n[calc] }",
        "rule 4:1 R1\n",
    ),
    (
        "proc f () [] { emp } r : nat { emp } { ret 0 by emp }\npred p () = emp;\nproc g () [] { emp } r : nat { emp } {\nz <- call f()[] by\n[calc];\nret 0 by\n@1 }",
        "rule 6:1 R4\n",
    ),
];

#[test]
fn procs_are_taken(rt: HostRuntime) -> Result<(), Fail> {
    let alloc = rt.alloc();
    for decls in TAKEN {
        assert!(rt; is_taken(alloc, *decls)?, "{}", *decls);
    }
    Ok(())
}

#[test]
fn heads_bind_new_names(rt: HostRuntime) -> Result<(), Fail> {
    let alloc = rt.alloc();
    for row in HEADS_OUT_OF_ORDER {
        assert!(rt; is_refused(alloc, *row, Status::NamesOrSorts)?, "{}", row.0);
    }
    Ok(())
}

#[test]
fn heads_speak_of_what_is_known(rt: HostRuntime) -> Result<(), Fail> {
    let alloc = rt.alloc();
    for row in BOXES_OUT_OF_ORDER {
        assert!(rt; is_refused(alloc, *row, Status::NamesOrSorts)?, "{}", row.0);
    }
    Ok(())
}

#[test]
fn bodies_of_procs_have_their_names(rt: HostRuntime) -> Result<(), Fail> {
    let alloc = rt.alloc();
    for row in BODIES_OUT_OF_ORDER {
        assert!(rt; is_refused(alloc, *row, Status::NamesOrSorts)?, "{}", row.0);
    }
    Ok(())
}

#[test]
fn bodies_of_procs_are_checked(rt: HostRuntime) -> Result<(), Fail> {
    let alloc = rt.alloc();
    for row in REFUSED {
        assert!(rt; is_refused(alloc, *row, Status::Rule)?, "{}", row.0);
    }
    Ok(())
}

// ---- whole files

// A proc comes before main, and names and sorts come before rules.
const PROC_AND_MAIN: &str = "tht 1
proc f () [] { emp } r : nat { emp } {
  ret 0 by @1
}
main r : nat { emp } {
  ret 0 by @1
}
";

const MAIN_ALONE: &str = "tht 1
proc f () [] { emp } r : nat { emp } {
  ret 0 by emp
}
main r : nat { emp } {
  z <- call f()[] by emp;
  ret z by @1
}
";

const MAIN_UNSORTED: &str = "tht 1
proc f () [] { emp } r : nat { emp } {
  ret 0 by @1
}
main f : nat { emp } {
  ret 0 by emp
}
";

#[test]
fn procs_come_before_main(rt: HostRuntime) -> Result<(), Fail> {
    let alloc = rt.alloc();
    assert!(rt; runs_so(alloc, PROC_AND_MAIN, Status::Rule, "rule 3:12 R1\n")?);
    assert!(rt; runs_so(alloc, MAIN_ALONE, Status::Rule, "rule 7:12 R1\n")?);
    assert!(rt; runs_so(alloc, MAIN_UNSORTED, Status::NamesOrSorts, "names 5:1 N2\n")?);
    Ok(())
}
