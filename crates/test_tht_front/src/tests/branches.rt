// The ends `if` and `dead`: texts that are accepted, with what their runs return, and others with the place and the code of what is refused
// first. Each was worked out by hand.
use super::{ends_so, joined, runs_so};
use std::alloc::{AllocError, Global};
use std::test::Fail;
use tht_tree::status::Status;

// Each text stands behind these statements, from line 7 on. No atom is left, one was numbered, and h says that a is 3. Three events.
const BEFORE: &str = "tht 1
proc up (n : nat) [] { emp } r : nat { [r = n + 1] } { ret n + 1 by [refl] }
main r : nat { emp } {
  x <- alloc (3);
  a : nat <- read x at 1 as h by refl;
  free x at 1 by refl;
";

// Texts, what they return, and their events, of which an `if` is none.
const TAKEN: &[(&str, &str, &str)] = &[
    (
        "if a = 3 as k { ret 1 by emp } else { ret 2 by emp }",
        "1",
        "3",
    ),
    (
        "if a = 4 as k { ret 1 by emp } else { ret 2 by emp }",
        "2",
        "3",
    ),
    (
        "if x = null as k { ret 1 by emp } else { ret 2 by emp }",
        "2",
        "3",
    ),
    // false or (false and true) is false, and so it implies false
    (
        "if not (a = 3) or a + a < 6 and true imp false as k { ret 1 by emp } else { ret 2 by emp }",
        "1",
        "3",
    ),
    // the atoms that a body makes have the next numbers in each of the two
    (
        "if a < 3 as k { y <- alloc (1); free y at 2 by refl; ret 1 by emp } else { y <- alloc (5, 6); b : nat <- read y.1 at 3 as m by refl; free y at 2 by refl; free y.1 at 3 by refl; ret b by emp }",
        "6",
        "7",
    ),
    (
        "if a = 3 as k { y <- alloc (1); free y at 2 by refl; ret 1 by emp } else { y <- alloc (5, 6); free y at 2 by refl; free y.1 at 3 by refl; ret 2 by emp }",
        "1",
        "5",
    ),
    // both bodies are given the atoms before the end
    (
        "y <- alloc (8);\nif a = 4 as k { free y at 2 by refl; ret 1 by emp } else { b : nat <- read y at 2 as m by refl; free y at 2 by refl; ret b by emp }",
        "8",
        "6",
    ),
    // what the hypothesis says
    (
        "if a <= 2 as k { have g : a <= 2 by hyp k; ret 1 by emp } else { have g : not (a <= 2) by hyp k; ret 2 by emp }",
        "2",
        "3",
    ),
    (
        "if a <= 2 as k { ret 1 by emp } else { have g : 3 <= a by lin 1 { 1 [not (a <= 2)] hyp k }; ret 2 by emp }",
        "2",
        "3",
    ),
    // one in another
    (
        "if a = 4 as k { ret 1 by emp } else { if a = 3 as m { have g : not (a = 4) by hyp k; ret 2 by emp } else { ret 3 by emp } }",
        "2",
        "3",
    ),
    (
        "if a = 3 as k { case [a = 4] as m { ret 1 by emp } { ret 1 by emp } } else { ret 2 by emp }",
        "1",
        "3",
    ),
    // behind a call
    (
        "b <- call up(a)[] by emp;\nopen 2 as m;\nif b = a + 1 as k { ret b by emp } else { dead neg [b = a + 1] hyp k hyp m { ret 2 by emp } }",
        "4",
        "4",
    ),
];

// The same with ends that are not reached: what stands in them has its names, and is not checked further.
const DEAD: &[(&str, &str, &str)] = &[
    (
        "if a = 3 as k { ret 1 by emp } else { dead neg [a = 3] hyp k hyp h { ret 2 by emp } }",
        "1",
        "3",
    ),
    (
        "if a = 4 as k { dead lin 0 { 1 [4 = a] sym hyp k, 1 [a = 3] hyp h } { ret 1 by @9 } } else { ret 2 by emp }",
        "2",
        "3",
    ),
    (
        "if a = 3 as k { ret 1 by emp } else { y <- alloc (1); dead absurd neg [a = 3] hyp k hyp h { free y at 9 by todo; z : nat <- do (9) { ret 1 by [calc] } { y -> 2 }; ret 2 by emp } }",
        "1",
        "3",
    ),
    // a cell that is there is not at null
    (
        "y <- alloc (1);\nif y = null as k { dead neg [y = null] (nonnull 2) hyp k { ret 1 by emp } } else { free y at 2 by refl; ret 2 by emp }",
        "2",
        "5",
    ),
    // one in another
    (
        "if a = 3 as k { ret 1 by emp } else { dead neg [a = 3] hyp k hyp h { dead todo { ret 2 by @9 } } }",
        "1",
        "3",
    ),
    (
        "if a = 3 as k { ret 1 by emp } else { dead neg [a = 3] hyp k hyp h { case 9 { ret 2 by emp } { ret 3 by emp } } }",
        "1",
        "3",
    ),
];

// Texts with the place and the code of what is refused first.
const REFUSED: &[(&str, &str)] = &[
    // each body has its own hypothesis
    (
        "if a = 3 as k { have g : not (a = 3) by\nhyp k; ret 1 by emp } else { ret 2 by emp }",
        "rule 8:1 R5\n",
    ),
    (
        "if a = 3 as k { ret 1 by emp } else { have g : a = 3 by\nhyp k; ret 2 by emp }",
        "rule 8:1 R5\n",
    ),
    // and its own atoms: what the first makes is not there in the second, and what the first takes is there
    (
        "if a = 3 as k { y <- alloc (1); free y at 2 by refl; ret 1 by emp } else {\nfree x at 2 by refl; ret 2 by emp }",
        "rule 8:1 R1\n",
    ),
    (
        "y <- alloc (1);\nif a = 3 as k { free y at 2 by refl; ret 1 by emp } else {\nret 2 by emp }",
        "rule 9:1 R3\n",
    ),
    // atoms are left in the first, in the second, and the first of two refusals
    (
        "if a = 3 as k { y <- alloc (1);\nret 1 by emp } else { ret 2 by emp }",
        "rule 8:1 R3\n",
    ),
    (
        "if a = 3 as k { ret 1 by emp } else { y <- alloc (1);\nret 2 by emp }",
        "rule 8:1 R3\n",
    ),
    (
        "if a = 3 as k { y <- alloc (1);\nret 1 by emp } else {\nret 2 by @1 }",
        "rule 8:1 R3\n",
    ),
    (
        "if a = 3 as k { ret 1 by\n[calc] } else {\nret 2 by @1 }",
        "rule 8:1 R4\n",
    ),
    // a body that no run comes to is checked
    (
        "if a = 4 as k { ret 1 by\n@1 } else { ret 2 by emp }",
        "rule 8:1 R1\n",
    ),
    (
        "if a = 4 as k { if a = 3 as m { ret 1 by emp } else { ret 2 by\n@1 } } else { ret 3 by emp }",
        "rule 8:1 R1\n",
    ),
];

// The same of `dead`: its proof of `false`.
const NOT_DEAD: &[(&str, &str)] = &[
    (
        "if a = 4 as k { dead\nhyp k { ret 1 by emp } } else { ret 2 by emp }",
        "rule 8:1 R5\n",
    ),
    (
        "if a = 4 as k { dead\ntodo { ret 1 by emp } } else { ret 2 by emp }",
        "rule 8:1 R9\n",
    ),
    (
        "if a = 4 as k { dead\ncalc { ret 1 by emp } } else { ret 2 by emp }",
        "rule 8:1 R8\n",
    ),
    (
        "if a = 4 as k { dead\nrefl { ret 1 by emp } } else { ret 2 by emp }",
        "rule 8:1 R5\n",
    ),
    (
        "if a = 4 as k { dead\nlin 0 { 1 [4 = a] sym hyp k } { ret 1 by emp } } else { ret 2 by emp }",
        "rule 8:1 R6\n",
    ),
    (
        "if a = 4 as k { dead\nlin 0 { 1 [0 <= 18446744073709551615 * 9223372036854775809] calc } { ret 1 by emp } } else { ret 2 by emp }",
        "rule 8:1 R7\n",
    ),
    // what is denied, and then what denies it
    (
        "if a = 4 as k { dead neg [a = 4]\nhyp k hyp h { ret 1 by emp } } else { ret 2 by emp }",
        "rule 8:1 R5\n",
    ),
    (
        "if a = 3 as k { ret 1 by emp } else { dead neg [a = 3] hyp k\nhyp k { ret 2 by emp } }",
        "rule 8:1 R5\n",
    ),
    // the cell is gone
    (
        "if x = null as k { dead neg [x = null] (\nnonnull 1) hyp k { ret 1 by emp } } else { ret 2 by emp }",
        "rule 8:1 R1\n",
    ),
    // a main that is dead all through
    ("dead\nhyp h { ret a by emp }", "rule 8:1 R5\n"),
];

// Texts whose names or sorts are not in order.
const OUT_OF_ORDER: &[(&str, &str)] = &[
    (
        "if a as k { ret 1 by emp } else { ret 2 by emp }",
        "sorts 7:1 S1\n",
    ),
    (
        "if len nil = 0 as k { ret 1 by emp } else { ret 2 by emp }",
        "sorts 7:1 S2\n",
    ),
    (
        "if b = 3 as k {\nret c by emp } else { ret 2 by emp }",
        "names 7:1 N1\n",
    ),
    (
        "if h as k { ret 1 by emp } else { ret 2 by emp }",
        "names 7:1 N3\n",
    ),
    (
        "if a = 3 as h { ret 1 by emp } else { ret 2 by emp }",
        "names 7:1 N2\n",
    ),
    (
        "if a = 3 as a { ret 1 by emp } else { ret 2 by emp }",
        "names 7:1 N2\n",
    ),
    (
        "if a = true as up { ret 1 by emp } else { ret 2 by emp }",
        "names 7:1 N2\n",
    ),
    // the hypothesis is not known in its formula, is no value, and is known in both bodies
    (
        "if k as k { ret 1 by emp } else { ret 2 by emp }",
        "names 7:1 N1\n",
    ),
    (
        "if a = 3 as k {\nret k by emp } else { ret 2 by emp }",
        "names 8:1 N3\n",
    ),
    (
        "if a = 3 as k { ret 1 by emp } else {\nk <- alloc (1); ret 2 by emp }",
        "names 8:1 N2\n",
    ),
    // what one body binds the other does not know
    (
        "if a = 3 as k { y <- alloc (1); free y at 2 by refl; ret 1 by emp } else {\nret y by emp }",
        "names 8:1 N1\n",
    ),
    (
        "if a = 3 as k { ret 1 by emp } else {\nret true by emp }",
        "sorts 8:1 S1\n",
    ),
    (
        "if a = 3 as k {\nret true by emp } else {\nret c by emp }",
        "sorts 8:1 S1\n",
    ),
    // a body behind `dead`, and its proof before it
    (
        "if a = 3 as k { ret 1 by emp } else { dead todo {\nret c by emp } }",
        "names 8:1 N1\n",
    ),
    (
        "if a = 3 as k { ret 1 by emp } else { dead\nhyp c {\nret d by emp } }",
        "names 8:1 N1\n",
    ),
    (
        "if a = 3 as k { ret 1 by emp } else { dead todo {\nret true by emp } }",
        "sorts 8:1 S1\n",
    ),
];

fn around(alloc: Global, text: &str) -> Result<String, AllocError> {
    joined(alloc, &[BEFORE, text, "\n}\n"])
}

fn returns(alloc: Global, row: (&str, &str, &str)) -> Result<bool, AllocError> {
    let (text, value, events) = row;
    let source = around(alloc, text)?;
    let end = joined(alloc, &["done\nresult ", value])?;
    ends_so(alloc, source.as_str(), Status::Done, end.as_str(), events)
}

fn is_refused(alloc: Global, row: (&str, &str), status: Status) -> Result<bool, AllocError> {
    let (text, line) = row;
    let source = around(alloc, text)?;
    runs_so(alloc, source.as_str(), status, line)
}

#[test]
fn one_of_two_bodies_runs(rt: HostRuntime) -> Result<(), Fail> {
    let alloc = rt.alloc();
    for row in TAKEN {
        assert!(rt; returns(alloc, *row)?, "{}", row.0);
    }
    Ok(())
}

#[test]
fn dead_ends_are_taken(rt: HostRuntime) -> Result<(), Fail> {
    let alloc = rt.alloc();
    for row in DEAD {
        assert!(rt; returns(alloc, *row)?, "{}", row.0);
    }
    Ok(())
}

#[test]
fn both_bodies_are_checked(rt: HostRuntime) -> Result<(), Fail> {
    let alloc = rt.alloc();
    for row in REFUSED {
        assert!(rt; is_refused(alloc, *row, Status::Rule)?, "{}", row.0);
    }
    Ok(())
}

#[test]
fn dead_ends_are_proved(rt: HostRuntime) -> Result<(), Fail> {
    let alloc = rt.alloc();
    for row in NOT_DEAD {
        assert!(rt; is_refused(alloc, *row, Status::Rule)?, "{}", row.0);
    }
    Ok(())
}

#[test]
fn both_bodies_have_their_names(rt: HostRuntime) -> Result<(), Fail> {
    let alloc = rt.alloc();
    for row in OUT_OF_ORDER {
        assert!(rt; is_refused(alloc, *row, Status::NamesOrSorts)?, "{}", row.0);
    }
    Ok(())
}

// Conditions that do not fit the machine, though one side would do.
const BIG: &[&str] = &[
    "if 18446744073709551615 + 1 = 0 as k { ret 1 by emp } else { ret 2 by emp }",
    "if a = 3 or 18446744073709551615 + 1 = 0 as k { ret 1 by emp } else { ret 2 by emp }",
    "if a = 3 as k { ret 18446744073709551615 + 1 by emp } else { ret 2 by emp }",
];

fn is_big(alloc: Global, text: &str) -> Result<bool, AllocError> {
    let source = around(alloc, text)?;
    ends_so(alloc, source.as_str(), Status::Big, "big 0", "3")
}

#[test]
fn conditions_fit_the_machine(rt: HostRuntime) -> Result<(), Fail> {
    let alloc = rt.alloc();
    for text in BIG {
        assert!(rt; is_big(alloc, *text)?, "{}", *text);
    }
    Ok(())
}
