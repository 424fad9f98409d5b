// Inner bodies: texts that are accepted, with what their runs return, and others with the place and the code of what is refused first. Each
// was worked out by hand.
use super::{ends_so, joined, runs_so};
use std::alloc::{AllocError, Global};
use std::test::Fail;
use tht_tree::status::Status;

// Each text stands behind these statements, from line 7 on. Atom 1 is the cell of x, which holds 3, atom 2 that behind it, which holds 4;
// h says that a is 3. Two events.
const BEFORE: &str = "tht 1
pred some (p : loc) = exists v : nat . p -> v;
proc up (n : nat) [] { emp } r : nat { [r = n + 1] } { ret n + 1 by [refl] }
main r : nat { emp } {
  x <- alloc (3, 4);
  a : nat <- read x at 1 as h by refl;
";

// Texts, what they return, and their events, of which a `do` is none.
const TAKEN: &[(&str, &str, &str)] = &[
    (
        "z : nat <- do () { ret a + 1 by emp } { emp };\nfree x at 1 by refl;\nfree x.1 at 2 by refl;\nret z by emp",
        "4",
        "4",
    ),
    // an atom that is dealt comes back with the next number, and the other one keeps its own
    (
        "z : nat <- do (1) { ret a by @1 } { x -> 3 };\nfree x at 3 by refl;\nfree x.1 at 2 by refl;\nret z by emp",
        "3",
        "4",
    ),
    // it does not come back
    (
        "z : nat <- do (2) { b : nat <- read x.1 at 2 as k by refl; free x.1 at 2 by refl; ret b by emp } { emp };\nfree x at 1 by refl;\nret z by emp",
        "4",
        "5",
    ),
    // the atoms that the body makes have the next numbers there, and the box has the same ones behind it
    (
        "z : nat <- do (1) { y <- alloc (7, 8); free y at 3 by refl; free y.1 at 4 by refl; ret a by @1 } { x -> 3 };\nfree x at 3 by refl;\nfree x.1 at 2 by refl;\nret z by emp",
        "3",
        "7",
    ),
    (
        "z : nat <- do () { y <- alloc (7); free y at 3 by refl; ret a by emp } { emp };\ny <- alloc (8);\nfree y at 3 by refl;\nfree x at 1 by refl;\nfree x.1 at 2 by refl;\nret z by emp",
        "3",
        "8",
    ),
    // two atoms in any order, and no number comes again
    (
        "z : nat <- do (2, 1) { ret a by @1 * @2 } { x -> 3 * x.1 -> 4 };\nfree x at 3 by refl;\nfree x.1 at 4 by refl;\nret z by emp",
        "3",
        "4",
    ),
    (
        "y : nat <- do (1) { ret a by @1 } { x -> 3 };\nz : nat <- do (3, 2) { ret y + 1 by @2 * @3 } { x.1 -> 4 * x -> 3 };\nfree x at 5 by refl;\nfree x.1 at 4 by refl;\nret z by emp",
        "4",
        "4",
    ),
    // a cell that is written
    (
        "z : nat <- do (1) { write x 5 at 1 by refl; ret 0 by @1 } { x -> 5 };\nb : nat <- read x at 3 as k by refl;\nhave m : b = 5 by hyp k;\nfree x at 3 by refl;\nfree x.1 at 2 by refl;\nret b by emp",
        "5",
        "6",
    ),
    // an instance
    (
        "u : unit <- do (1) { write x 5 at 1 by refl; ret () by fold ex [5] @1 } { some(x) };\nunfold 3;\nopen 4 as v : nat;\nb : nat <- read x at 5 as k by refl;\nfree x at 5 by refl;\nfree x.1 at 2 by refl;\nret b by emp",
        "5",
        "6",
    ),
    (
        "fold some(x) by ex [3] @1;\nz : nat <- do (3) { unfold 3; open 4 as v : nat; b : nat <- read x at 5 as k by refl; ret b by fold ex [v] @5 } { some(x) };\nunfold 4;\nopen 5 as v : nat;\nfree x at 6 by refl;\nfree x.1 at 2 by refl;\nret z by emp",
        "3",
        "5",
    ),
];

// The same with what is known: all hypotheses go in, and the box comes out, with what is returned for the result.
const KNOWN: &[(&str, &str, &str)] = &[
    (
        "z : nat <- do () { ret a + 1 by [lin 1 { 1 [a = 3] hyp h }] } { [z = 4] };\nopen 3 as k;\nhave m : z = 4 by hyp k;\nfree x at 1 by refl;\nfree x.1 at 2 by refl;\nret z by emp",
        "4",
        "4",
    ),
    // names of the body are free behind it, that of the result is free in it
    (
        "z : nat <- do () { z <- alloc (1); free z at 3 by refl; ret 6 by emp } { emp };\nfree x at 1 by refl;\nfree x.1 at 2 by refl;\nret z by emp",
        "6",
        "6",
    ),
    (
        "z : nat <- do () { y <- call up(a)[] by emp; open 3 as k; ret y by [hyp k] } { [z = a + 1] };\nopen 3 as k;\nhave y : z = a + 1 by hyp k;\nfree x at 1 by refl;\nfree x.1 at 2 by refl;\nret z by emp",
        "4",
        "5",
    ),
    (
        "z : nat <- do () { z : nat <- do () { ret 7 by emp } { emp }; ret z by emp } { emp };\nfree x at 1 by refl;\nfree x.1 at 2 by refl;\nret z by emp",
        "7",
        "4",
    ),
    // results of other sorts: a place with its cell, and a truth value
    (
        "y : loc <- do () { y <- alloc (9); ret y by @3 } { y -> 9 };\nb : nat <- read y at 3 as k by refl;\nfree y at 3 by refl;\nfree x at 1 by refl;\nfree x.1 at 2 by refl;\nret b by emp",
        "9",
        "7",
    ),
    (
        "b : bool <- do () { ret a = 3 by [refl] } { [b = (a = 3)] };\nopen 3 as k;\nif b as c { free x at 1 by refl; free x.1 at 2 by refl; ret 1 by emp } else { free x at 1 by refl; free x.1 at 2 by refl; ret 2 by emp }",
        "1",
        "4",
    ),
    // one in another
    (
        "z : nat <- do (1) { y : nat <- do () { ret a by emp } { emp }; ret y by @1 } { x -> 3 };\nfree x at 3 by refl;\nfree x.1 at 2 by refl;\nret z by emp",
        "3",
        "4",
    ),
    (
        "z : nat <- do (1, 2) { y : nat <- do (2) { ret 5 by @2 } { x.1 -> 4 }; free x at 1 by refl; free x.1 at 3 by refl; ret y by emp } { emp };\nret z by emp",
        "5",
        "4",
    ),
    // what stands behind an inner body sees its own variables and the result alone
    (
        "z : nat <- do () { b <- call up(4)[] by emp; c <- call up(b)[] by emp; open 3 as i; open 4 as j; ret c by emp } { emp };\nw : nat <- do () { d : nat <- do () { e <- call up(z)[] by emp; open 3 as i; ret e by emp } { emp }; ret d + z by emp } { emp };\nfree x at 1 by refl;\nfree x.1 at 2 by refl;\nret 100 * a + 10 * z + w by emp",
        "373",
        "7",
    ),
    // two ends
    (
        "z : nat <- do (1) { if a = 3 as k { ret 1 by @1 } else { free x at 1 by refl; y <- alloc (3); dead neg [a = 3] hyp k hyp h { ret 2 by emp } } } { x -> 3 };\nfree x at 3 by refl;\nfree x.1 at 2 by refl;\nret z by emp",
        "1",
        "4",
    ),
    (
        "z : nat <- do () { if a = 4 as k { ret 1 by emp } else { y <- alloc (6); b : nat <- read y at 3 as m by refl; free y at 3 by refl; ret b by emp } } { emp };\nfree x at 1 by refl;\nfree x.1 at 2 by refl;\nret z by emp",
        "6",
        "7",
    ),
];

// Texts with the place and the code of what is refused first: atoms that are dealt or not.
const NOT_DEALT: &[(&str, &str)] = &[
    // no atom has the number, which comes before the body
    (
        "z : nat <- do (3) {\nret a by @9 } { emp };\nret z by emp",
        "rule 7:1 R1\n",
    ),
    (
        "z : nat <- do (0) {\nret a by @9 } { emp };\nret z by emp",
        "rule 7:1 R1\n",
    ),
    (
        "z : nat <- do (4294967297) {\nret a by emp } { emp };\nret z by emp",
        "rule 7:1 R1\n",
    ),
    (
        "z : nat <- do (2, 18446744073709551615) {\nret a by emp } { emp };\nret z by emp",
        "rule 7:1 R1\n",
    ),
    // it was dealt before: in the list, and in another list
    (
        "z : nat <- do (1, 1) {\nret a by @1 } { x -> 3 };\nret z by emp",
        "rule 7:1 R1\n",
    ),
    (
        "z : nat <- do (1) { ret a by @1 } { x -> 3 };\ny : nat <- do (1) {\nret a by @1 } { x -> 3 };\nret z by emp",
        "rule 8:1 R1\n",
    ),
    (
        "z : nat <- do (1) { ret a by @1 } { x -> 3 };\nfree x at 1 by refl;\nret z by emp",
        "rule 8:1 R1\n",
    ),
    // the body sees no others, in a statement, in a proof and in an inner body
    (
        "z : nat <- do (2) {\nfree x at 1 by refl;\nret a by @2 } { x.1 -> 4 };\nret z by emp",
        "rule 8:1 R1\n",
    ),
    (
        "z : nat <- do (2) { have g : not (x = null) by\nnonnull 1;\nret a by @2 } { x.1 -> 4 };\nret z by emp",
        "rule 8:1 R1\n",
    ),
    (
        "z : nat <- do (1) {\ny : nat <- do (2) { ret a by @2 } { x.1 -> 4 };\nret y by @1 } { x -> 3 };\nret z by emp",
        "rule 8:1 R1\n",
    ),
    // the numbers of atoms that are made: 3 in the body, and 3 again behind it
    (
        "z : nat <- do (1) { y <- alloc (7);\nfree y at 4 by refl;\nret a by @1 } { x -> 3 };\nret z by emp",
        "rule 8:1 R1\n",
    ),
    (
        "z : nat <- do () { y <- alloc (7); free y at 3 by refl; ret a by emp } { emp };\ny <- alloc (8);\nfree y at 4 by refl;\nret z by emp",
        "rule 9:1 R1\n",
    ),
];

// The same of boxes, and of what stands behind them.
const NOT_KEPT: &[(&str, &str)] = &[
    // atoms are left: one that was dealt, one that was made, and that of the box
    (
        "z : nat <- do (1) {\nret a by emp } { emp };\nret z by emp",
        "rule 8:1 R3\n",
    ),
    (
        "z : nat <- do () { y <- alloc (1);\nret a by emp } { emp };\nret z by emp",
        "rule 8:1 R3\n",
    ),
    (
        "z : nat <- do (1, 2) { free x at 1 by refl; ret a by @2 } { x.1 -> 4 };\nret z by emp",
        "rule 8:1 R3\n",
    ),
    // the box is not what is given
    (
        "z : nat <- do (1) { ret a by\n@1 } { x -> 4 };\nret z by emp",
        "rule 8:1 R4\n",
    ),
    (
        "z : nat <- do (1) { ret a by\nemp } { x -> 3 };\nret z by emp",
        "rule 8:1 R4\n",
    ),
    (
        "z : nat <- do () { ret a + 1 by [\ncalc] } { [z = 4] };\nret z by emp",
        "rule 8:1 R8\n",
    ),
    (
        "z : nat <- do () { ret a by [\nhyp h] } { [z = 4] };\nret z by emp",
        "rule 8:1 R5\n",
    ),
    (
        "z : nat <- do () { ret a by [\ntodo] } { [z = 3] };\nret z by emp",
        "rule 8:1 R9\n",
    ),
    // what is known behind it is the box alone: no value of the result, and an atom as the box has it
    (
        "z : nat <- do () { ret 5 by emp } { emp };\nhave m : z = 5 by\nrefl;\nret z by emp",
        "rule 9:1 R5\n",
    ),
    (
        "z : nat <- do (1) { ret a by fold ex [3] @1 } { some(x) };\nfree x at 3 by refl;\nret z by emp",
        "rule 8:1 R2\n",
    ),
    (
        "z : nat <- do (1) { ret a by @1 } { x -> 3 };\nb : nat <- read x at 2 as k by\nrefl;\nret z by emp",
        "rule 9:1 R5\n",
    ),
    // the first of two in the text
    (
        "z : nat <- do (1) { ret a by\n@2 } { x -> 3 };\nfree x at 9 by refl;\nret z by emp",
        "rule 8:1 R1\n",
    ),
];

// Texts whose names or sorts are not in order.
const OUT_OF_ORDER: &[(&str, &str)] = &[
    // what the body binds is not known behind it and in its box, nor is the result in the body
    (
        "z : nat <- do () { y <- alloc (0); free y at 3 by refl; ret 0 by emp } { emp };\nret y by emp",
        "names 8:1 N1\n",
    ),
    (
        "z : nat <- do () { have g : a = 3 by hyp h; ret 0 by emp } { emp };\nhave k : a = 3 by\nhyp g;\nret 0 by emp",
        "names 9:1 N1\n",
    ),
    (
        "z : nat <- do () { y <- alloc (0); free y at 3 by refl; ret 0 by emp } { [y = y] };\nret 0 by emp",
        "names 7:1 N1\n",
    ),
    (
        "z : nat <- do () {\nret z by emp } { emp };\nret 0 by emp",
        "names 8:1 N1\n",
    ),
    (
        "z : nat <- do () {\nz : nat <- do () {\nret z by emp } { emp };\nret z by emp } { emp };\nret 0 by emp",
        "names 9:1 N1\n",
    ),
    // the box comes before the body
    (
        "z : nat <- do () {\nret b by emp } { [y = 0] };\nret 0 by emp",
        "names 7:1 N1\n",
    ),
    // names that are in scope
    (
        "a : nat <- do () { ret 0 by emp } { emp };\nret 0 by emp",
        "names 7:1 N2\n",
    ),
    (
        "h : nat <- do () { ret 0 by emp } { emp };\nret 0 by emp",
        "names 7:1 N2\n",
    ),
    (
        "up : nat <- do () { ret 0 by emp } { emp };\nret 0 by emp",
        "names 7:1 N2\n",
    ),
    (
        "z : nat <- do () {\na <- alloc (0);\nret 0 by emp } { emp };\nret 0 by emp",
        "names 8:1 N2\n",
    ),
    (
        "z : nat <- do () { ret 0 by emp } { exists z : nat . x -> z };\nret 0 by emp",
        "names 7:1 N2\n",
    ),
    // what a box names
    (
        "z : nat <- do () { ret 0 by emp } { up(1) };\nret 0 by emp",
        "names 7:1 N3\n",
    ),
    (
        "z : nat <- do () { ret 0 by emp } { some() };\nret 0 by emp",
        "names 7:1 N4\n",
    ),
    // sorts
    (
        "z : nat <- do () { ret 0 by emp } { [z] };\nret 0 by emp",
        "sorts 7:1 S1\n",
    ),
    (
        "z : nat <- do () {\nret true by emp } { emp };\nret 0 by emp",
        "sorts 8:1 S1\n",
    ),
    (
        "z : loc <- do () { ret null by emp } { emp };\nret z by emp",
        "sorts 8:1 S1\n",
    ),
    (
        "z : seq <- do () {\nret 0 by emp } { emp };\nret 0 by emp",
        "sorts 7:1 S5\n",
    ),
];

fn around(alloc: Global, text: &str) -> Result<String, AllocError> {
    joined(alloc, &[BEFORE, text, "\n}\n"])
}

fn returns(alloc: Global, row: (&str, &str, &str)) -> Result<bool, AllocError> {
    let (text, value, events) = row;
    let source = around(alloc, text)?;
    let end = joined(alloc, &["done\nresult ", value])?;
    ends_so(alloc, source.as_str(), Status::Done, end.as_str(), events)
}

fn is_refused(alloc: Global, row: (&str, &str), status: Status) -> Result<bool, AllocError> {
    let (text, line) = row;
    let source = around(alloc, text)?;
    runs_so(alloc, source.as_str(), status, line)
}

#[test]
fn inner_bodies_take_atoms_and_give_them_back(rt: HostRuntime) -> Result<(), Fail> {
    let alloc = rt.alloc();
    for row in TAKEN {
        assert!(rt; returns(alloc, *row)?, "{}", row.0);
    }
    Ok(())
}

#[test]
fn inner_bodies_have_results(rt: HostRuntime) -> Result<(), Fail> {
    let alloc = rt.alloc();
    for row in KNOWN {
        assert!(rt; returns(alloc, *row)?, "{}", row.0);
    }
    Ok(())
}

#[test]
fn inner_bodies_see_the_atoms_dealt(rt: HostRuntime) -> Result<(), Fail> {
    let alloc = rt.alloc();
    for row in NOT_DEALT {
        assert!(rt; is_refused(alloc, *row, Status::Rule)?, "{}", row.0);
    }
    Ok(())
}

#[test]
fn inner_bodies_keep_their_boxes(rt: HostRuntime) -> Result<(), Fail> {
    let alloc = rt.alloc();
    for row in NOT_KEPT {
        assert!(rt; is_refused(alloc, *row, Status::Rule)?, "{}", row.0);
    }
    Ok(())
}

#[test]
fn inner_bodies_have_names_of_their_own(rt: HostRuntime) -> Result<(), Fail> {
    let alloc = rt.alloc();
    for row in OUT_OF_ORDER {
        assert!(rt; is_refused(alloc, *row, Status::NamesOrSorts)?, "{}", row.0);
    }
    Ok(())
}

// What is returned does not fit the machine.
#[test]
fn a_result_fits_the_machine(rt: HostRuntime) -> Result<(), Fail> {
    let alloc = rt.alloc();
    let text =
        "z : nat <- do () { ret 18446744073709551615 + 1 by emp } { emp };\nfree x at 1 by refl;\nfree x.1 at 2 by refl;\nret 0 by emp";
    let source = around(alloc, text)?;
    assert!(rt; ends_so(alloc, source.as_str(), Status::Big, "big 0", "2")?);
    Ok(())
}
