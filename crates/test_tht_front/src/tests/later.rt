// Sources that have a form that is not built yet, wherever it stands: every command but `print` says so, before names, sorts and rules.
use super::{answers_so, joined};
use std::alloc::{AllocError, Global};
use std::test::Fail;
use tht_tree::status::Status;

// Bodies of main, from its first statement on.
const STATEMENTS: &[&str] = &[
    "u : unit <- atomic () { ret () by emp } { emp }; ret 0 by emp",
    "(x : nat, y : nat) <- par () { ret 0 by emp } { emp } () { ret 0 by emp } { emp }; ret 0 by emp",
    "x <- alloc (0); publish x at 1 by refl; ret 0 by emp",
    "x <- alloc (0); retract x at 1 by refl; ret 0 by emp",
    "use l() by emp; ret 0 by emp",
    // in inner bodies, and in their boxes
    "x : nat <- do () { u : unit <- atomic () { ret () by emp } { emp }; ret 0 by emp } { emp }; ret 0 by emp",
    "x : nat <- do () { y : nat <- do () { use l() by emp; ret 0 by emp } { emp }; ret 0 by emp } { emp }; ret 0 by emp",
    "x : nat <- do () { ret 0 by emp } { exists n : nat . emp * null => n }; ret 0 by emp",
    "x : nat <- do () { y : nat <- do () { ret 0 by emp } { either emp or null => 0 }; ret 0 by emp } { emp }; ret 0 by emp",
    // behind a statement that a rule refuses
    "x <- alloc (true + 1); free x at 9 by todo; publish x at 1 by refl; ret 0 by emp",
];

// The same of the two bodies of each end.
const ENDS: &[&str] = &[
    "if true as h { publish null at 1 by refl; ret 0 by emp } else { ret 0 by emp }",
    "if true as h { ret 0 by emp } else { publish null at 1 by refl; ret 0 by emp }",
    "case 1 { publish null at 1 by refl; ret 0 by emp } { ret 0 by emp }",
    "case 1 { ret 0 by emp } { publish null at 1 by refl; ret 0 by emp }",
    "case [true] as h { publish null at 1 by refl; ret 0 by emp } { ret 0 by emp }",
    "case [true] as h { ret 0 by emp } { publish null at 1 by refl; ret 0 by emp }",
    "case seq nil as h { publish null at 1 by refl; ret 0 by emp } n t { ret 0 by emp }",
    "case seq nil as h { ret 0 by emp } n t { publish null at 1 by refl; ret 0 by emp }",
    "dead todo { publish null at 1 by refl; ret 0 by emp }",
    "dead lemma l() calc { ret 0 by emp }",
    "if true as h { if true as k { ret 0 by emp } else { dead todo { use l() by emp; ret 0 by emp } } } else { ret 0 by emp }",
];

// The same of a lemma's proof.
const PROOFS: &[&str] = &[
    "have h : true by lemma l() calc; ret 0 by emp",
    "have h : true by fun k . pair calc (sym lemma l() calc); ret 0 by emp",
    "have h : true by lin 1 { 1 [true] calc, 1 [true] lemma l() calc }; ret 0 by emp",
    "x : nat <- read null at 1 as h by lemma l() calc; ret 0 by emp",
    "write null 0 at 1 by lemma l() calc; ret 0 by emp",
    "free null at 1 by lemma l() calc; ret 0 by emp",
    "rewrite 1 1 to 0 by lemma l() calc; ret 0 by emp",
    "fold p() by emp * [lemma l() calc]; ret 0 by emp",
    "x <- call f()[] by ex [0] left [lemma l() calc]; ret 0 by emp",
    "x : nat <- do () { ret 0 by right fold [lemma l() calc] } { emp }; ret 0 by emp",
    "ret 0 by @1 * [lemma l() calc]",
];

// Declarations.
const DECLS: &[&str] = &[
    "root a : nat := 0;",
    "invariant { emp } by emp;",
    "lemma l () { emp } { emp } { ret () by emp }",
    "txn t () [] { emp } r : nat { emp } { ret 0 by emp }",
    "shared pred p () = emp;",
    "pred p (s : seq) on s nil = emp cons n t = emp;",
    "pred p () = exists n : nat . null => n;",
    "proc f () [] { null => 0 } r : nat { emp } { ret 0 by emp }",
    "proc f () [] { emp } r : nat { null => 0 } { ret 0 by emp }",
    "proc f () [] { emp } r : nat { emp } { u : unit <- atomic () { ret () by emp } { emp }; ret 0 by emp }",
    "proc f () [] { emp } r : nat { emp } { if true as h { ret 0 by emp } else { ret 0 by [lemma l() calc] } }",
    // behind declarations whose names are not in order, and that a rule refuses
    "proc f (x : nat, x : nat) [] { y() } r : nat { emp } { ret 0 by @1 }\nlemma l () { emp } { emp } { ret () by emp }",
];

fn is_later(alloc: Global, parts: &[&str]) -> Result<bool, AllocError> {
    let source = joined(alloc, parts)?;
    let source = source.as_str();
    let line = "text later\n";
    Ok(
        answers_so(
            alloc,
            &["run", "--workers", "1"],
            source,
            Status::Text,
            line,
        )? && answers_so(alloc, &["check"], source, Status::Text, line)?,
    )
}

fn is_later_in_main(alloc: Global, body: &str) -> Result<bool, AllocError> {
    is_later(alloc, &["tht 1\nmain r : nat { emp } {\n", body, "\n}\n"])
}

fn is_later_before_main(alloc: Global, decls: &str) -> Result<bool, AllocError> {
    is_later(
        alloc,
        &[
            "tht 1\n",
            decls,
            "\nmain r : nat { emp } { ret 0 by emp }\n",
        ],
    )
}

#[test]
fn statements_that_are_not_built_are_later(rt: HostRuntime) -> Result<(), Fail> {
    let alloc = rt.alloc();
    for body in STATEMENTS {
        assert!(rt; is_later_in_main(alloc, *body)?, "{}", *body);
    }
    Ok(())
}

#[test]
fn bodies_of_ends_that_are_not_built_are_later(rt: HostRuntime) -> Result<(), Fail> {
    let alloc = rt.alloc();
    for body in ENDS {
        assert!(rt; is_later_in_main(alloc, *body)?, "{}", *body);
    }
    Ok(())
}

#[test]
fn proofs_that_are_not_built_are_later(rt: HostRuntime) -> Result<(), Fail> {
    let alloc = rt.alloc();
    for body in PROOFS {
        assert!(rt; is_later_in_main(alloc, *body)?, "{}", *body);
    }
    Ok(())
}

#[test]
fn declarations_that_are_not_built_are_later(rt: HostRuntime) -> Result<(), Fail> {
    let alloc = rt.alloc();
    for decls in DECLS {
        assert!(rt; is_later_before_main(alloc, *decls)?, "{}", *decls);
    }
    Ok(())
}

// A fault of the text comes before a form that is not built.
const FAULTY: &[(&str, &str)] = &[
    (
        "tht 1\nmain r : nat { emp } {\npublish null at 1 by refl;\nret 0 by emp",
        "text 4:13 unexpected\n",
    ),
    (
        "tht 1\nlemma l () { emp } { emp } { ret () by emp }\nmain r : nat { emp } { ret 18446744073709551616 by emp }\n",
        "text 3:28 bignumber\n",
    ),
    ("tht 2\ninvariant { emp } by emp;\n", "text 1:5 version\n"),
];

fn is_faulty(alloc: Global, row: (&str, &str)) -> Result<bool, AllocError> {
    let (source, line) = row;
    Ok(
        answers_so(
            alloc,
            &["run", "--workers", "1"],
            source,
            Status::Text,
            line,
        )? && answers_so(alloc, &["check"], source, Status::Text, line)?,
    )
}

#[test]
fn faults_of_the_text_come_before_forms_that_are_not_built(rt: HostRuntime) -> Result<(), Fail> {
    let alloc = rt.alloc();
    for row in FAULTY {
        assert!(rt; is_faulty(alloc, *row)?, "{}", row.0);
    }
    Ok(())
}
