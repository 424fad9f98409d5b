// Bodies of main: whether the rules take them, or what they refuse first. What is expected was worked out by hand.
use super::sources::{Refused, no_memory, parsed, refused};
use hoare_rules::{Predicates, body_holds};
use std::alloc::{AllocError, Global};
use std::test::Fail;
use tht_tree::file::{Main, Source1};
use tht_tree::rule::RuleCode;
use tht_tree::state::{Post, State};

// The body stands on line 7, from column 1 on.
const BEFORE: &str = "tht 1
pred cell (x : loc, v : nat) = x -> v;
pred items (x : loc, v : seq) on v nil = emp cons n s = x -> n;
pred some (x : loc, v : nat) = exists n : nat . x -> n;
pred sure (x : loc, v : nat) = x -> v * [1 = 1];
main ";

/// Main's result with its postcondition, the body, and the column on line 7 of what is refused, with the reason.
struct Case {
    head: &'static str,
    body: &'static str,
    refused: Option<(u32, RuleCode)>,
}

fn source_of(alloc: Global, head: &str, body: &str) -> Result<Source1, AllocError> {
    let mut text = String::from_str(alloc, BEFORE)?;
    text.push_str(head)?;
    text.push_str(" {\n")?;
    text.push_str(body)?;
    text.push_str("\n}\n")?;
    parsed(alloc, text.as_str())
}

fn post_of(alloc: Global, main: &Main) -> Result<Post, AllocError> {
    Ok(Post {
        result: main.result.copy().map_err(no_memory)?,
        sort: main.sort,
        assn: main.post.copy(alloc).map_err(no_memory)?,
    })
}

// What is refused of main, if anything.
fn said_of(alloc: Global, file: &Source1) -> Result<Option<Refused>, AllocError> {
    let predicates = Predicates::new(alloc, file.decls.as_slice()).map_err(no_memory)?;
    let post = post_of(alloc, &file.main)?;
    let body = file.main.body.get();
    refused(body_holds(alloc, &predicates, State::new(alloc), body, &post))
}

fn holds(alloc: Global, case: &Case) -> Result<bool, AllocError> {
    let file = source_of(alloc, case.head, case.body)?;
    let said = said_of(alloc, &file)?;
    Ok(match case.refused {
        Some((column, code)) => said == Some((7, column, code)),
        None => said == None,
    })
}

/// Statements on cells.
const STATEMENTS: &[Case] = &[
    Case {
        head: "r : nat { emp }",
        body: "x <- alloc (5); y : nat <- read x at 1 as h by refl; write x (y + 1) at 1 by refl; free x at 1 by refl; ret 0 by emp",
        refused: None,
    },
    // the cell of atom 1 is left
    Case {
        head: "r : nat { emp }",
        body: "x <- alloc (5); ret 0 by emp",
        refused: Some((17, RuleCode::R3)),
    },
    // one atom was made, so there is none with number 2
    Case {
        head: "r : nat { emp }",
        body: "x <- alloc (5); free x at 2 by refl; ret 0 by emp",
        refused: Some((17, RuleCode::R1)),
    },
    Case {
        head: "r : nat { emp }",
        body: "x <- alloc (5); free x at 1 by refl; free x at 1 by refl; ret 0 by emp",
        refused: Some((38, RuleCode::R1)),
    },
    // atom 1 is the cell at x, and holds a number
    Case {
        head: "r : nat { emp }",
        body: "x <- alloc (5); z <- alloc (6); free z at 1 by refl; ret 0 by emp",
        refused: Some((48, RuleCode::R5)),
    },
    Case {
        head: "r : nat { emp }",
        body: "x <- alloc (5); y : unit <- read x at 1 as h by refl; ret 0 by emp",
        refused: Some((17, RuleCode::R2)),
    },
    // atom 2 is an instance, and atom 1 is gone
    Case {
        head: "r : nat { emp }",
        body: "x <- alloc (5); fold cell(x, 5) by @1; free x at 2 by refl; ret 0 by emp",
        refused: Some((40, RuleCode::R2)),
    },
    // eight cells have the numbers 1 to 8, and the next one has the number 9
    Case {
        head: "r : nat { emp }",
        body: "x <- alloc (5, 5, 5, 5, 5, 5, 5, 5); z <- alloc (6); free z at 9 by refl; free x at 1 by refl; free x.3 at 4 by refl; free x.1 at 2 by refl; free x.2 at 3 by refl; free x.4 at 5 by refl; free x.5 at 6 by refl; free x.6 at 7 by refl; free x.7 at 8 by refl; ret 0 by emp",
        refused: None,
    },
    Case {
        head: "r : nat { emp }",
        body: "x <- alloc (5, 5, 5, 5, 5, 5, 5, 5); free x.3 at 5 by refl; ret 0 by emp",
        refused: Some((55, RuleCode::R5)),
    },
];

/// Proof steps. A cell that is freed behind a step pins the numbers of the atoms that the step makes.
const STEPS: &[Case] = &[
    Case {
        head: "r : nat { emp }",
        body: "have h : 1 = 1 by refl; ret 0 by emp",
        refused: None,
    },
    Case {
        head: "r : nat { emp }",
        body: "have h : 1 = 2 by refl; ret 0 by emp",
        refused: Some((19, RuleCode::R5)),
    },
    // `cell(x, 5)` is atom 2, and the cell that it is defined as atom 3
    Case {
        head: "r : nat { emp }",
        body: "x <- alloc (5); fold cell(x, 5) by @1; unfold 2; free x at 3 by refl; ret 0 by emp",
        refused: None,
    },
    Case {
        head: "r : nat { emp }",
        body: "x <- alloc (5); fold cell(x, 5) by @1; unfold 1; ret 0 by emp",
        refused: Some((40, RuleCode::R1)),
    },
    Case {
        head: "r : nat { emp }",
        body: "x <- alloc (5); unfold 1; ret 0 by emp",
        refused: Some((17, RuleCode::R2)),
    },
    // `items` has a case for `7 :: nil`, and none for `nil ++ (7 :: nil)`
    Case {
        head: "r : nat { emp }",
        body: "x <- alloc (7); fold items(x, 7 :: nil) by @1; unfold 2; free x at 3 by refl; ret 0 by emp",
        refused: None,
    },
    Case {
        head: "r : nat { emp }",
        body: "x <- alloc (7); fold items(x, 7 :: nil) by @1; rewrite 2 2 to nil ++ (7 :: nil) by calc; unfold 2; ret 0 by emp",
        refused: Some((90, RuleCode::R13)),
    },
    // what is folded is left at the end
    Case {
        head: "r : nat { emp }",
        body: "x <- alloc (5); fold cell(x, 5) by @1; ret 0 by emp",
        refused: Some((40, RuleCode::R3)),
    },
    Case {
        head: "r : nat { emp }",
        body: "x <- alloc (5); fold cell(x, 6) by @1; ret 0 by emp",
        refused: Some((36, RuleCode::R4)),
    },
    Case {
        head: "r : nat { emp }",
        body: "x <- alloc (5); fold cell(x, 5) by @2; ret 0 by emp",
        refused: Some((36, RuleCode::R1)),
    },
    Case {
        head: "r : nat { emp }",
        body: "x <- alloc (5); fold items(x, s) by @1; ret 0 by emp",
        refused: Some((17, RuleCode::R13)),
    },
    // `exists n : nat . x -> n` is atom 3, and `x -> z` is atom 4
    Case {
        head: "r : nat { emp }",
        body: "x <- alloc (5); fold some(x, 5) by ex [5] @1; unfold 2; open 3 as z : nat; free x at 4 by refl; ret 0 by emp",
        refused: None,
    },
    Case {
        head: "r : nat { emp }",
        body: "x <- alloc (5); fold some(x, 5) by ex [5] @1; unfold 2; open 3 as z : bool; ret 0 by emp",
        refused: Some((57, RuleCode::R2)),
    },
    Case {
        head: "r : nat { emp }",
        body: "x <- alloc (5); fold some(x, 5) by ex [5] @1; unfold 2; open 2 as z : nat; ret 0 by emp",
        refused: Some((57, RuleCode::R1)),
    },
    Case {
        head: "r : nat { emp }",
        body: "x <- alloc (5); open 1 as z : nat; ret 0 by emp",
        refused: Some((17, RuleCode::R2)),
    },
    // `x -> 5` is atom 3, and `[1 = 1]` is atom 4
    Case {
        head: "r : nat { emp }",
        body: "x <- alloc (5); fold sure(x, 5) by @1 * [refl]; unfold 2; open 4 as g; free x at 3 by refl; ret 0 by emp",
        refused: None,
    },
    Case {
        head: "r : nat { emp }",
        body: "x <- alloc (5); fold sure(x, 5) by @1 * [refl]; unfold 2; open 3 as g; ret 0 by emp",
        refused: Some((59, RuleCode::R2)),
    },
    Case {
        head: "r : nat { emp }",
        body: "x <- alloc (5); fold sure(x, 5) by @1 * [refl]; unfold 2; open 5 as g; ret 0 by emp",
        refused: Some((59, RuleCode::R1)),
    },
    // an atom that is rewritten keeps its number
    Case {
        head: "r : nat { emp }",
        body: "x <- alloc (5); rewrite 1 2 to 5 by refl; free x at 1 by refl; ret 0 by emp",
        refused: None,
    },
    Case {
        head: "r : nat { emp }",
        body: "x <- alloc (5); rewrite 1 1 to x by refl; free x at 1 by refl; ret 0 by emp",
        refused: None,
    },
    Case {
        head: "r : nat { emp }",
        body: "x <- alloc (5); rewrite 2 2 to 5 by refl; ret 0 by emp",
        refused: Some((17, RuleCode::R1)),
    },
    Case {
        head: "r : nat { emp }",
        body: "x <- alloc (5); rewrite 1 3 to 5 by refl; ret 0 by emp",
        refused: Some((17, RuleCode::R2)),
    },
    Case {
        head: "r : nat { emp }",
        body: "x <- alloc (5); rewrite 1 2 to () by refl; ret 0 by emp",
        refused: Some((17, RuleCode::R2)),
    },
    Case {
        head: "r : nat { emp }",
        body: "x <- alloc (5); rewrite 1 2 to 6 by refl; ret 0 by emp",
        refused: Some((37, RuleCode::R5)),
    },
];

/// Gives, at the end of a body that makes one cell with the value 5: atom 1.
const GIVES: &[Case] = &[
    Case {
        head: "r : loc { emp }",
        body: "x <- alloc (5); ret x by emp",
        refused: Some((17, RuleCode::R3)),
    },
    Case {
        head: "r : loc { r -> 5 }",
        body: "x <- alloc (5); ret x by emp",
        refused: Some((26, RuleCode::R4)),
    },
    Case {
        head: "r : loc { r -> 5 }",
        body: "x <- alloc (5); ret x by @1",
        refused: None,
    },
    Case {
        head: "r : loc { r -> 6 }",
        body: "x <- alloc (5); ret x by @1",
        refused: Some((26, RuleCode::R4)),
    },
    Case {
        head: "r : loc { r -> 5 }",
        body: "x <- alloc (5); ret x by @2",
        refused: Some((26, RuleCode::R1)),
    },
    Case {
        head: "r : loc { r -> 5 * r -> 5 }",
        body: "x <- alloc (5); ret x by @1 * @1",
        refused: Some((31, RuleCode::R1)),
    },
    Case {
        head: "r : loc { r -> 5 }",
        body: "x <- alloc (5); ret x by @1 * [refl]",
        refused: Some((26, RuleCode::R4)),
    },
    Case {
        head: "r : loc { r -> 5 * [1 = 1] }",
        body: "x <- alloc (5); ret x by @1 * [refl]",
        refused: None,
    },
    Case {
        head: "r : loc { r -> 5 * [1 = 2] }",
        body: "x <- alloc (5); ret x by @1 * [refl]",
        refused: Some((32, RuleCode::R5)),
    },
    Case {
        head: "r : loc { r -> 5 }",
        body: "x <- alloc (5); ret x by [refl]",
        refused: Some((26, RuleCode::R4)),
    },
    Case {
        head: "r : loc { exists n : nat . r -> n }",
        body: "x <- alloc (5); ret x by ex [5] @1",
        refused: None,
    },
    Case {
        head: "r : loc { exists n : nat . r -> n }",
        body: "x <- alloc (5); ret x by ex [6] @1",
        refused: Some((33, RuleCode::R4)),
    },
    Case {
        head: "r : loc { exists n : nat . r -> n }",
        body: "x <- alloc (5); ret x by ex [()] @1",
        refused: Some((26, RuleCode::R4)),
    },
    Case {
        head: "r : loc { r -> 5 }",
        body: "x <- alloc (5); ret x by ex [5] @1",
        refused: Some((26, RuleCode::R4)),
    },
    Case {
        head: "r : loc { either r -> 5 or emp }",
        body: "x <- alloc (5); ret x by left @1",
        refused: None,
    },
    Case {
        head: "r : loc { either r -> 5 or emp }",
        body: "x <- alloc (5); ret x by right emp",
        refused: Some((17, RuleCode::R3)),
    },
    Case {
        head: "r : loc { either r -> 5 or emp }",
        body: "x <- alloc (5); ret x by right @1",
        refused: Some((32, RuleCode::R4)),
    },
    Case {
        head: "r : loc { r -> 5 }",
        body: "x <- alloc (5); ret x by left @1",
        refused: Some((26, RuleCode::R4)),
    },
    Case {
        head: "r : loc { cell(r, 5) }",
        body: "x <- alloc (5); ret x by fold @1",
        refused: None,
    },
    Case {
        head: "r : loc { items(r, 5 :: nil) }",
        body: "x <- alloc (5); ret x by fold @1",
        refused: None,
    },
    Case {
        head: "r : loc { r -> 5 }",
        body: "x <- alloc (5); ret x by fold @1",
        refused: Some((26, RuleCode::R4)),
    },
    // `items` has no case for `()`
    Case {
        head: "r : loc { items(r, ()) }",
        body: "x <- alloc (5); ret x by fold @1",
        refused: Some((26, RuleCode::R13)),
    },
];

#[test]
fn statements_are_taken_or_refused(rt: HostRuntime) -> Result<(), Fail> {
    for case in STATEMENTS {
        assert!(rt; holds(rt.alloc(), case)?, "{}", case.body);
    }
    Ok(())
}

#[test]
fn steps_are_taken_or_refused(rt: HostRuntime) -> Result<(), Fail> {
    for case in STEPS {
        assert!(rt; holds(rt.alloc(), case)?, "{}", case.body);
    }
    Ok(())
}

#[test]
fn gives_are_taken_or_refused(rt: HostRuntime) -> Result<(), Fail> {
    for case in GIVES {
        assert!(rt; holds(rt.alloc(), case)?, "{}: {}", case.head, case.body);
    }
    Ok(())
}

// ---- what is too large

/// A body in which large terms stand, and what is refused of it.
struct Large {
    head: &'static str,
    before: &'static str,
    /// How often the term stands there, and how many levels it has.
    count: u32,
    levels: u32,
    behind: &'static str,
    refused: Refused,
}

// A term of 16 levels has 65,535 nodes, and an atom or an equation of it 65,537. Eight cells of terms of 15 levels have 262,159 nodes, and
// seven have 229,389.
const LARGE: &[Large] = &[
    Large {
        head: "r : nat { emp }",
        before: "x <- alloc (",
        count: 1,
        levels: 16,
        behind: "); ret 0 by emp",
        refused: (7, 1, RuleCode::R10),
    },
    Large {
        head: "r : nat { emp }",
        before: "x <- alloc (",
        count: 8,
        levels: 15,
        behind: "); ret 0 by emp",
        refused: (7, 1, RuleCode::R10),
    },
    Large {
        head: "r : nat { emp }",
        before: "x <- alloc (",
        count: 7,
        levels: 15,
        behind: ");\nret 0 by emp",
        refused: (8, 1, RuleCode::R3),
    },
    Large {
        head: "r : nat { emp }",
        before: "have h : 1 = ",
        count: 1,
        levels: 16,
        behind: " by refl; ret 0 by emp",
        refused: (7, 1, RuleCode::R10),
    },
    Large {
        head: "r : nat { emp }",
        before: "x <- alloc (5); fold cell(x, ",
        count: 1,
        levels: 16,
        behind: ") by @1; ret 0 by emp",
        refused: (7, 17, RuleCode::R10),
    },
    Large {
        head: "r : nat { emp }",
        before: "x <- alloc (5); rewrite 1 2 to ",
        count: 1,
        levels: 16,
        behind: " by refl; ret 0 by emp",
        refused: (7, 17, RuleCode::R10),
    },
    Large {
        head: "r : loc { exists n : nat . r -> n }",
        before: "x <- alloc (5); ret x by ex [",
        count: 1,
        levels: 16,
        behind: "] @1",
        refused: (7, 26, RuleCode::R10),
    },
];

// Two of these, added.
fn doubled(alloc: Global, term: &str) -> Result<String, AllocError> {
    let mut text = String::from_str(alloc, "(")?;
    text.push_str(term)?;
    text.push_str(" + ")?;
    text.push_str(term)?;
    text.push_str(")")?;
    Ok(text)
}

// A term of so many levels, all of them full.
fn full(alloc: Global, levels: u32) -> Result<String, AllocError> {
    let mut text = String::from_str(alloc, "1")?;
    for _ in 1..levels {
        text = doubled(alloc, text.as_str())?;
    }
    Ok(text)
}

fn push_each(text: &mut String, term: &str, count: u32) -> Result<(), AllocError> {
    text.push_str(term)?;
    for _ in 1..count {
        text.push_str(", ")?;
        text.push_str(term)?;
    }
    Ok(())
}

fn body_of(alloc: Global, case: &Large) -> Result<String, AllocError> {
    let term = full(alloc, case.levels)?;
    let mut text = String::from_str(alloc, case.before)?;
    push_each(&mut text, term.as_str(), case.count)?;
    text.push_str(case.behind)?;
    Ok(text)
}

fn said_of_large(alloc: Global, case: &Large) -> Result<Option<Refused>, AllocError> {
    let body = body_of(alloc, case)?;
    let file = source_of(alloc, case.head, body.as_str())?;
    said_of(alloc, &file)
}

#[test]
fn what_is_too_large_is_refused(rt: HostRuntime) -> Result<(), Fail> {
    for case in LARGE {
        assert_eq!(rt;
            said_of_large(rt.alloc(), case)?,
            Some(case.refused),
            "{}",
            case.before
        );
    }
    Ok(())
}
