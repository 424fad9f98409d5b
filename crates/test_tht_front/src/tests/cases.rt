// The three forms of `case`: texts that are accepted, with what their runs return, and others with the place and the code of what is refused
// first. Each was worked out by hand.
use super::{ends_so, joined, runs_so};
use std::alloc::{AllocError, Global};
use std::test::Fail;
use tht_tree::status::Status;

// Each text stands behind these statements, from line 14 on. No atom is left, one was numbered, and h says that a is 3. Three events.
const BEFORE: &str = "tht 1
pred none () = emp;
pred any () = either emp or emp;
pred some (p : loc) = exists v : nat . p -> v;
pred one (n : nat) = either [n = 3] or [n = 4];
pred cell (p : loc) = either (exists v : nat . p -> v) or (p -> 3 * [p = p]);
pred many (p : loc) = either ([p = p] * either p -> 3 or [not (p = p)]) or exists v : nat . p -> v;
proc up (n : nat) [k : nat] { emp } r : nat { emp } { ret n + 1 by emp }
proc down (n : nat) [k : nat] { emp } r : nat { emp } { ret n - 1 by emp }
main r : nat { emp } {
  x <- alloc (3);
  a : nat <- read x at 1 as h by refl;
  free x at 1 by refl;
";

fn is_done(alloc: Global, source: &str, value: &str, events: &str) -> Result<bool, AllocError> {
    let end = joined(alloc, &["done\nresult ", value])?;
    ends_so(alloc, source, Status::Done, end.as_str(), events)
}

// ---- two bodies in each of the three forms

// A `case` up to its first body, on line 15, and what stands between the two. Three atoms were numbered then. The second body of the last
// form knows q and s.
const FORMS: &[(&str, &str)] = &[
    ("fold any() by left emp; unfold 2;\ncase 3 ", " "),
    (
        "fold none() by emp; unfold 2; fold none() by emp; unfold 3;\ncase [a = 3] as k ",
        " ",
    ),
    (
        "fold none() by emp; unfold 2; fold none() by emp; unfold 3;\ncase seq nil as k ",
        " q s ",
    ),
];

// Two bodies that are one program, what they return, and the events.
const ONE_PROGRAM: &[(&str, &str, &str, &str)] = &[
    ("{ ret 1 by emp }", "{ ret 1 by emp }", "1", "3"),
    (
        "{ ret a + 1 by emp }",
        "{ ret ((a) + 001) by emp }",
        "4",
        "3",
    ),
    // names of variables and hypotheses
    (
        "{ y <- alloc (7); b : nat <- read y at 4 as m by refl; free y at 4 by refl; ret b by emp }",
        "{ z <- alloc (7); c : nat <- read z at 4 as n by refl; free z at 4 by refl; ret c by emp }",
        "7",
        "6",
    ),
    (
        "{ y <- alloc (1); z <- alloc (2); free y at 4 by refl; free z at 5 by refl; ret 1 by emp }",
        "{ z <- alloc (1); y <- alloc (2); free z at 4 by refl; free y at 5 by refl; ret 1 by emp }",
        "1",
        "7",
    ),
    (
        "{ if a = 3 as m { ret 1 by emp } else { ret 2 by emp } }",
        "{ if a = 3 as n { ret 1 by emp } else { ret 2 by emp } }",
        "1",
        "3",
    ),
    // proofs, proof steps and the numbers of atoms
    (
        "{ y <- alloc (7); free y.0 at 4 by calc; ret 1 by emp }",
        "{ y <- alloc (7); free y.0 at 4 by sym calc; ret 1 by emp }",
        "1",
        "5",
    ),
    (
        "{ have m : a = 3 by hyp h; have n : 3 = a by sym hyp m; ret a by emp }",
        "{ ret a by emp }",
        "3",
        "3",
    ),
    (
        "{ y <- alloc (7); fold some(y) by ex [7] @4; unfold 5; open 6 as v : nat; free y at 7 by refl; ret 1 by emp }",
        "{ y <- alloc (7); rewrite 4 2 to 6 + 1 by calc; free y at 4 by refl; ret 1 by emp }",
        "1",
        "5",
    ),
    // boxes, and the atoms that are dealt
    (
        "{ y <- alloc (7); b : unit <- do (4) { ret () by @4 } { y -> 7 }; free y at 5 by refl; ret 1 by emp }",
        "{ y <- alloc (7); b : unit <- do () { ret () by [hyp h] } { [a = 3] }; open 5 as m; free y at 4 by refl; ret 1 by emp }",
        "1",
        "5",
    ),
    (
        "{ b : nat <- do () { y <- alloc (7); free y at 4 by refl; ret 5 by emp } { emp }; ret b by emp }",
        "{ c : nat <- do () { c <- alloc (7); free c at 4 by refl; ret 5 by emp } { emp }; ret c by emp }",
        "5",
        "5",
    ),
    // the arguments of a call in brackets
    (
        "{ b <- call up(a)[0] by emp; ret b by emp }",
        "{ c <- call up(a)[a + 1] by emp; ret c by emp }",
        "4",
        "4",
    ),
    // a case is its first body
    (
        "{ case [a = 4] as m { ret 1 by emp } { ret 1 by emp } }",
        "{ ret 1 by emp }",
        "1",
        "3",
    ),
    (
        "{ case seq nil as m { ret 1 by emp } n t { ret 1 by emp } }",
        "{ case [a = 4] as m { case [a = 5] as n { ret 1 by emp } { ret 1 by emp } } { ret 1 by emp } }",
        "1",
        "3",
    ),
];

// Two bodies that are not one program, most of them in one part alone.
const TWO_PROGRAMS: &[(&str, &str)] = &[
    // what is returned, by its tree and not by its value
    ("{ ret 1 by emp }", "{ ret 2 by emp }"),
    ("{ ret a by emp }", "{ ret 3 by emp }"),
    ("{ ret a + 1 by emp }", "{ ret 1 + a by emp }"),
    // a value, another number of cells, and a place
    (
        "{ y <- alloc (7); free y at 4 by refl; ret 1 by emp }",
        "{ y <- alloc (8); free y at 4 by refl; ret 1 by emp }",
    ),
    (
        "{ y <- alloc (7); free y at 4 by refl; ret 1 by emp }",
        "{ y <- alloc (7, 7); free y at 4 by refl; ret 1 by emp }",
    ),
    (
        "{ y <- alloc (7); free y at 4 by refl; ret 1 by emp }",
        "{ y <- alloc (7); free y.0 at 4 by calc; ret 1 by emp }",
    ),
    (
        "{ y <- alloc (7); free y at 4 by refl; ret 1 by emp }",
        "{ y <- alloc (7); free x at 4 by refl; ret 1 by emp }",
    ),
    // the sort, and the place, of a read
    (
        "{ y <- alloc (7); b : nat <- read y at 4 as m by refl; free y at 4 by refl; ret 1 by emp }",
        "{ y <- alloc (7); b : bool <- read y at 4 as m by refl; free y at 4 by refl; ret 1 by emp }",
    ),
    (
        "{ y <- alloc (7); b : nat <- read y at 4 as m by refl; free y at 4 by refl; ret 1 by emp }",
        "{ y <- alloc (7); b : nat <- read y.0 at 4 as m by calc; free y at 4 by refl; ret 1 by emp }",
    ),
    // the value, and the place, of a write
    (
        "{ y <- alloc (7); write y 1 at 4 by refl; free y at 4 by refl; ret 1 by emp }",
        "{ y <- alloc (7); write y 2 at 4 by refl; free y at 4 by refl; ret 1 by emp }",
    ),
    (
        "{ y <- alloc (7); write y 1 at 4 by refl; free y at 4 by refl; ret 1 by emp }",
        "{ y <- alloc (7); write y.0 1 at 4 by calc; free y at 4 by refl; ret 1 by emp }",
    ),
    // the proc of a call, and an argument
    (
        "{ b <- call up(a)[0] by emp; ret 1 by emp }",
        "{ b <- call down(a)[0] by emp; ret 1 by emp }",
    ),
    (
        "{ b <- call up(a)[0] by emp; ret 1 by emp }",
        "{ b <- call up(3)[0] by emp; ret 1 by emp }",
    ),
];

// The same of how statements and bodies stand.
const OTHER_SHAPES: &[(&str, &str)] = &[
    // one statement more, and two in another order
    (
        "{ ret 1 by emp }",
        "{ y <- alloc (7); free y at 4 by refl; ret 1 by emp }",
    ),
    (
        "{ y <- alloc (1); z <- alloc (1); free y at 4 by refl; free z at 5 by refl; ret 1 by emp }",
        "{ y <- alloc (1); z <- alloc (1); free z at 5 by refl; free y at 4 by refl; ret 1 by emp }",
    ),
    // the same names, bound the other way round
    (
        "{ y <- alloc (1); z <- alloc (1); free y at 4 by refl; free z at 5 by refl; ret 1 by emp }",
        "{ z <- alloc (1); y <- alloc (1); free y at 5 by refl; free z at 4 by refl; ret 1 by emp }",
    ),
    // an inner body, what stands behind it, and its sort
    (
        "{ b : nat <- do () { ret 1 by emp } { emp }; ret 1 by emp }",
        "{ b : nat <- do () { ret 2 by emp } { emp }; ret 1 by emp }",
    ),
    (
        "{ b : nat <- do () { ret 1 by emp } { emp }; ret b by emp }",
        "{ b : nat <- do () { ret 1 by emp } { emp }; ret 1 by emp }",
    ),
    (
        "{ b : nat <- do () { ret 1 by emp } { emp }; ret 1 by emp }",
        "{ b : bool <- do () { ret true by emp } { emp }; ret 1 by emp }",
    ),
    (
        "{ b : nat <- do () { ret 1 by emp } { emp }; ret b by emp }",
        "{ ret 1 by emp }",
    ),
    // a condition, and each of its bodies
    (
        "{ if a = 3 as m { ret 1 by emp } else { ret 2 by emp } }",
        "{ if 3 = a as m { ret 1 by emp } else { ret 2 by emp } }",
    ),
    (
        "{ if a = 3 as m { ret 1 by emp } else { ret 2 by emp } }",
        "{ if a = 3 as m { ret 3 by emp } else { ret 2 by emp } }",
    ),
    (
        "{ if a = 3 as m { ret 1 by emp } else { ret 2 by emp } }",
        "{ if a = 3 as m { ret 1 by emp } else { ret 3 by emp } }",
    ),
    (
        "{ if a = 3 as m { ret 1 by emp } else { ret 1 by emp } }",
        "{ ret 1 by emp }",
    ),
    // `dead` is its body, and a case its first one
    ("{ ret 1 by emp }", "{ dead todo { ret 2 by emp } }"),
    (
        "{ ret 1 by emp }",
        "{ case [a = 4] as m { ret 2 by emp } { ret 1 by emp } }",
    ),
    // it comes before what else is refused in them
    ("{ ret 1 by @9 }", "{ ret 2 by @9 }"),
];

// Two bodies that are one program, with the place and the code of what is refused first in them.
const REFUSED_IN: &[(&str, &str, &str)] = &[
    ("{ ret 1 by\n@9 }", "{ ret 1 by emp }", "rule 16:1 R1\n"),
    ("{ ret 1 by emp }", "{ ret 1 by\n@9 }", "rule 16:1 R1\n"),
    ("{ ret 1 by\n@9 }", "{ ret 1 by\n[calc] }", "rule 16:1 R1\n"),
    // what is left in one of the two
    (
        "{ y <- alloc (7);\nret 1 by emp }",
        "{ y <- alloc (7); ret 1 by emp }",
        "rule 16:1 R3\n",
    ),
    // both start from the same number of atoms
    (
        "{ y <- alloc (7); free y at 4 by refl; ret 1 by emp }",
        "{ y <- alloc (7);\nfree y at 5 by refl; ret 1 by emp }",
        "rule 16:1 R1\n",
    ),
    // a box
    (
        "{ b : nat <- do () { ret 1 by [refl] } { [b = 1] }; open 4 as m; ret 1 by emp }",
        "{ b : nat <- do () { ret 1 by [\nrefl] } { [b = 2] }; open 4 as m; ret 1 by emp }",
        "rule 16:1 R5\n",
    ),
    // a `dead` that is not, and a case whose second body is another program
    (
        "{ ret 1 by emp }",
        "{ dead\ntodo { ret 1 by emp } }",
        "rule 16:1 R9\n",
    ),
    (
        "{ dead\nhyp h { ret 1 by emp } }",
        "{ ret 1 by emp }",
        "rule 16:1 R5\n",
    ),
    (
        "{ ret 1 by emp }",
        "{\ncase [a = 4] as m { ret 1 by emp } { ret 2 by emp } }",
        "rule 16:1 R11\n",
    ),
    (
        "{\ncase seq nil as m { ret 1 by emp } n t { ret 2 by emp } }",
        "{ ret 1 by @9 }",
        "rule 16:1 R11\n",
    ),
];

fn in_form(
    alloc: Global,
    form: (&str, &str),
    first: &str,
    second: &str,
) -> Result<String, AllocError> {
    let (before, between) = form;
    joined(alloc, &[BEFORE, before, first, between, second, "\n}\n"])
}

// Whether this line is said of the two bodies in each of the three forms.
fn are_refused(alloc: Global, first: &str, second: &str, line: &str) -> Result<bool, AllocError> {
    for form in FORMS {
        let source = in_form(alloc, *form, first, second)?;
        if !runs_so(alloc, source.as_str(), Status::Rule, line)? {
            return Ok(false);
        }
    }
    Ok(true)
}

fn are_taken(alloc: Global, row: (&str, &str, &str, &str)) -> Result<bool, AllocError> {
    let (first, second, value, events) = row;
    for form in FORMS {
        let source = in_form(alloc, *form, first, second)?;
        if !is_done(alloc, source.as_str(), value, events)? {
            return Ok(false);
        }
    }
    Ok(true)
}

#[test]
fn bodies_of_one_program_are_taken(rt: HostRuntime) -> Result<(), Fail> {
    let alloc = rt.alloc();
    for row in ONE_PROGRAM {
        assert!(rt; are_taken(alloc, *row)?, "{} {}", row.0, row.1);
    }
    Ok(())
}

#[test]
fn bodies_that_differ_in_a_part_are_refused(rt: HostRuntime) -> Result<(), Fail> {
    let alloc = rt.alloc();
    for row in TWO_PROGRAMS {
        assert!(rt;
            are_refused(alloc, row.0, row.1, "rule 15:1 R11\n")?,
            "{} {}",
            row.0,
            row.1
        );
    }
    Ok(())
}

#[test]
fn bodies_of_other_shapes_are_refused(rt: HostRuntime) -> Result<(), Fail> {
    let alloc = rt.alloc();
    for row in OTHER_SHAPES {
        assert!(rt;
            are_refused(alloc, row.0, row.1, "rule 15:1 R11\n")?,
            "{} {}",
            row.0,
            row.1
        );
    }
    Ok(())
}

#[test]
fn both_bodies_of_a_case_are_checked(rt: HostRuntime) -> Result<(), Fail> {
    let alloc = rt.alloc();
    for row in REFUSED_IN {
        assert!(rt;
            are_refused(alloc, row.0, row.1, row.2)?,
            "{} {}",
            row.0,
            row.1
        );
    }
    Ok(())
}

// ---- each form by itself

// Texts, what they return, and the events.
const TAKEN: &[(&str, &str, &str)] = &[
    // an `either`: the atoms of its sides have the next numbers
    (
        "fold one(a) by left [hyp h]; unfold 2;\ncase 3 { open 4 as k; have g : a = 3 by hyp k; ret 1 by emp } { open 4 as m; have g : a = 4 by hyp m; ret 1 by emp }",
        "1",
        "3",
    ),
    (
        "fold one(a) by left [hyp h]; unfold 2;\ncase 3 { open 4 as k; ret 1 by emp } { open 4 as k; dead lin 0 { 1 [4 = a] sym hyp k, 1 [a = 3] hyp h } { ret 1 by emp } }",
        "1",
        "3",
    ),
    (
        "y <- alloc (3);\nfold cell(y) by left ex [3] @2; unfold 3;\ncase 4 { open 5 as v : nat; free y at 6 by refl; ret 1 by emp } { free y at 5 by refl; open 6 as k; ret 1 by emp }",
        "1",
        "5",
    ),
    // the side that was given is no matter
    (
        "y <- alloc (3);\nfold cell(y) by right (@2 * [refl]); unfold 3;\ncase 4 { open 5 as v : nat; free y at 6 by refl; ret 1 by emp } { free y at 5 by refl; open 6 as k; ret 1 by emp }",
        "1",
        "5",
    ),
    // one `either` in another
    (
        "y <- alloc (3);\nfold many(y) by left ([refl] * left @2); unfold 3;\ncase 4 { open 5 as k; case 6 { free y at 7 by refl; ret 1 by emp } { open 7 as m; dead neg [y = y] hyp m refl { free y at 9 by todo; ret 1 by emp } } } { open 5 as v : nat; free y at 6 by refl; ret 1 by emp }",
        "1",
        "5",
    ),
    // a formula: true in the first body, and not in the second
    (
        "case [a <= 2] as k { have g : a <= 2 by hyp k; ret 1 by emp } { have g : not (a <= 2) by hyp k; ret 1 by emp }",
        "1",
        "3",
    ),
    (
        "case [a = 4] as k { dead lin 0 { 1 [4 = a] sym hyp k, 1 [a = 3] hyp h } { ret 1 by emp } } { ret 1 by emp }",
        "1",
        "3",
    ),
    // a formula of the logic
    (
        "y <- alloc (3);\nfold some(y) by ex [3] @2; unfold 3; open 4 as v : nat;\ncase [len (v :: nil) = v] as k { free y at 5 by refl; ret 1 by emp } { free y at 5 by refl; ret 1 by emp }",
        "1",
        "5",
    ),
    // a sequence: nil in the first body, and a head before a tail in the second, whose names the first does not know
    (
        "case seq nil as k { have g : nil = nil by hyp k; q <- alloc (1); free q at 2 by refl; ret 1 by emp } q s { have g : nil = q :: s by hyp k; y <- alloc (1); free y at 2 by refl; ret 1 by emp }",
        "1",
        "5",
    ),
    (
        "case seq nil as k { ret 1 by emp } q s { dead neg [nil = q :: s] nocons hyp k { ret 1 by emp } }",
        "1",
        "3",
    ),
    (
        "case seq a :: nil as k { dead neg [nil = a :: nil] nocons sym hyp k { ret 1 by emp } } q s { have g : a = q by head [nil] [s] hyp k; have m : nil = s by tail [a] [q] hyp k; ret 1 by emp }",
        "1",
        "3",
    ),
];

// Texts with the place and the code of what is refused first.
const REFUSED: &[(&str, &str)] = &[
    // the atom, which comes before the two programs: none there, and one of another shape
    ("case 9 { ret 1 by emp } { ret 2 by emp }", "rule 14:1 R1\n"),
    ("case 0 { ret 1 by emp } { ret 2 by emp }", "rule 14:1 R1\n"),
    (
        "fold one(a) by left [hyp h]; unfold 2;\ncase 4294967299 { ret 1 by emp } { ret 2 by emp }",
        "rule 15:1 R1\n",
    ),
    (
        "y <- alloc (1);\ncase 2 { ret 1 by emp } { ret 2 by emp }",
        "rule 15:1 R2\n",
    ),
    (
        "fold one(a) by left [hyp h];\ncase 2 { ret 1 by emp } { ret 2 by emp }",
        "rule 15:1 R2\n",
    ),
    (
        "fold one(a) by left [hyp h]; unfold 2;\ncase 2 { ret 1 by emp } { ret 2 by emp }",
        "rule 15:1 R1\n",
    ),
    // it is gone in both bodies, and there are the atoms of its sides
    (
        "fold one(a) by left [hyp h]; unfold 2;\ncase 3 {\ncase 3 { ret 1 by emp } { ret 1 by emp } } { open 4 as k; ret 1 by emp }",
        "rule 16:1 R1\n",
    ),
    (
        "fold one(a) by left [hyp h]; unfold 2;\ncase 3 {\nret 1 by emp } { open 4 as k; ret 1 by emp }",
        "rule 16:1 R3\n",
    ),
    (
        "fold one(a) by left [hyp h]; unfold 2;\ncase 3 { open 4 as k; ret 1 by emp } {\nopen 5 as k; ret 1 by emp }",
        "rule 16:1 R1\n",
    ),
    (
        "fold one(a) by left [hyp h]; unfold 2;\ncase 3 { open 4 as k; have g : a = 4 by\nhyp k; ret 1 by emp } { open 4 as k; ret 1 by emp }",
        "rule 16:1 R5\n",
    ),
    (
        "fold one(a) by left [hyp h]; unfold 2;\ncase 3 { open 4 as k; ret 1 by emp } { open 4 as k; have g : a = 3 by\nhyp k; ret 1 by emp }",
        "rule 16:1 R5\n",
    ),
    // what is known of a formula and of a sequence
    (
        "case [a = 3] as k { ret 1 by emp } { have g : a = 3 by\nhyp k; ret 1 by emp }",
        "rule 15:1 R5\n",
    ),
    (
        "case seq nil as k { have g : nil = a :: nil by\nhyp k; ret 1 by emp } q s { ret 1 by emp }",
        "rule 15:1 R5\n",
    ),
    (
        "case seq nil as k { ret 1 by emp } q s { have g : nil = nil by\nhyp k; ret 1 by emp }",
        "rule 15:1 R5\n",
    ),
];

// Texts whose names or sorts are not in order.
const OUT_OF_ORDER: &[(&str, &str)] = &[
    // formulas, before the bodies
    (
        "case [b] as k {\nret c by emp } { ret 1 by emp }",
        "names 14:1 N1\n",
    ),
    (
        "case [a] as k { ret 1 by emp } { ret 1 by emp }",
        "sorts 14:1 S1\n",
    ),
    (
        "case [true] as h { ret 1 by emp } { ret 1 by emp }",
        "names 14:1 N2\n",
    ),
    (
        "case [k] as k { ret 1 by emp } { ret 1 by emp }",
        "names 14:1 N1\n",
    ),
    (
        "case [true] as k {\nret k by emp } { ret 1 by emp }",
        "names 15:1 N3\n",
    ),
    (
        "case [true] as k { ret 1 by emp } {\nk <- alloc (1); ret 1 by emp }",
        "names 15:1 N2\n",
    ),
    // sequences
    (
        "case seq a as k { ret 1 by emp } q s { ret 1 by emp }",
        "sorts 14:1 S1\n",
    ),
    (
        "case seq q as k { ret 1 by emp } q s { ret 1 by emp }",
        "names 14:1 N1\n",
    ),
    (
        "case seq nil as h { ret 1 by emp } q s { ret 1 by emp }",
        "names 14:1 N2\n",
    ),
    (
        "case seq nil as k { ret 1 by emp } q q { ret 1 by emp }",
        "names 14:1 N2\n",
    ),
    (
        "case seq nil as k { ret 1 by emp } q k { ret 1 by emp }",
        "names 14:1 N2\n",
    ),
    (
        "case seq nil as k { ret 1 by emp } a s { ret 1 by emp }",
        "names 14:1 N2\n",
    ),
    (
        "case seq nil as k {\nret q by emp } q s { ret 1 by emp }",
        "names 15:1 N1\n",
    ),
    (
        "case seq nil as k { ret 1 by emp } q s {\nret q by emp }",
        "sorts 15:1 S2\n",
    ),
    // atoms, which have no names: what is not in order comes before an atom that is not there
    (
        "case 9 {\nret c by emp } {\nret true by emp }",
        "names 15:1 N1\n",
    ),
    (
        "case 9 { ret 1 by emp } {\nret true by emp }",
        "sorts 15:1 S1\n",
    ),
];

fn around(alloc: Global, text: &str) -> Result<String, AllocError> {
    joined(alloc, &[BEFORE, text, "\n}\n"])
}

fn returns(alloc: Global, row: (&str, &str, &str)) -> Result<bool, AllocError> {
    let (text, value, events) = row;
    let source = around(alloc, text)?;
    is_done(alloc, source.as_str(), value, events)
}

fn is_refused(alloc: Global, row: (&str, &str), status: Status) -> Result<bool, AllocError> {
    let (text, line) = row;
    let source = around(alloc, text)?;
    runs_so(alloc, source.as_str(), status, line)
}

#[test]
fn cases_are_taken(rt: HostRuntime) -> Result<(), Fail> {
    let alloc = rt.alloc();
    for row in TAKEN {
        assert!(rt; returns(alloc, *row)?, "{}", row.0);
    }
    Ok(())
}

#[test]
fn cases_are_refused_at_their_places(rt: HostRuntime) -> Result<(), Fail> {
    let alloc = rt.alloc();
    for row in REFUSED {
        assert!(rt; is_refused(alloc, *row, Status::Rule)?, "{}", row.0);
    }
    Ok(())
}

#[test]
fn cases_have_their_names(rt: HostRuntime) -> Result<(), Fail> {
    let alloc = rt.alloc();
    for row in OUT_OF_ORDER {
        assert!(rt; is_refused(alloc, *row, Status::NamesOrSorts)?, "{}", row.0);
    }
    Ok(())
}
