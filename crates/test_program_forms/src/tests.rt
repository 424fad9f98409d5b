// Pairs of bodies that are one program, and pairs that differ, worked out by hand. The parser reads them as the two bodies of an `if`.
use program_forms::same_program;
use std::alloc::{AllocError, Global};
use std::test::Fail;
use tht_parse::parse;
use tht_tree::body::EndKind;
use tht_tree::file::Source1;

const BEFORE: &str = "tht 1
proc f (n : nat) [m : nat] { emp } r : nat { emp } { ret n by emp }
proc g (n : nat) [m : nat] { emp } r : nat { emp } { ret n by emp }
main r : nat { emp } { if true as t ";

/// Two bodies, and whether they are one program.
struct Pair(&'static str, &'static str, bool);

const PAIRS: &[Pair] = &[
    Pair("{ ret 1 by emp }", "{ ret 1 by [calc] }", true),
    Pair("{ ret 1 by emp }", "{ ret 2 by emp }", false),
    Pair(
        "{ x <- alloc (1, 2); a : nat <- read x at 1 as h by refl; ret a by emp }",
        "{ y <- alloc (1, 2); have k : 1 = 1 by refl; b : nat <- read y at 2 as j by sym refl; ret b by @1 }",
        true,
    ),
    Pair(
        "{ x <- alloc (1, 2); ret 1 by emp }",
        "{ x <- alloc (1, 3); ret 1 by emp }",
        false,
    ),
    Pair(
        "{ x <- alloc (1); y <- alloc (1); free x at 1 by refl; ret 1 by emp }",
        "{ x <- alloc (1); y <- alloc (1); free y at 1 by refl; ret 1 by emp }",
        false,
    ),
    Pair(
        "{ x <- call f(1)[2] by emp; ret x by emp }",
        "{ z <- call f(1)[3] by @1; ret z by emp }",
        true,
    ),
    Pair(
        "{ x <- call f(1)[2] by emp; ret x by emp }",
        "{ x <- call g(1)[2] by emp; ret x by emp }",
        false,
    ),
    Pair(
        "{ x : nat <- do (1) { ret 1 by emp } { emp }; ret x by emp }",
        "{ y : nat <- do () { ret 1 by @2 } { [1 = 1] }; ret y by emp }",
        true,
    ),
    Pair(
        "{ x : nat <- do () { ret 1 by emp } { emp }; ret x by emp }",
        "{ ret 1 by emp }",
        false,
    ),
    Pair(
        "{ case 1 { ret 1 by emp } { ret 2 by emp } }",
        "{ ret 1 by emp }",
        true,
    ),
    Pair(
        "{ if true as h { ret 1 by emp } else { ret 2 by emp } }",
        "{ if true as k { ret 1 by emp } else { ret 2 by emp } }",
        true,
    ),
    Pair(
        "{ if true as h { ret 1 by emp } else { ret 2 by emp } }",
        "{ if true as h { ret 2 by emp } else { ret 1 by emp } }",
        false,
    ),
    Pair("{ dead refl { ret 1 by emp } }", "{ ret 1 by emp }", true),
    Pair(
        "{ x <- alloc (1); publish x at 1 by refl; ret 1 by emp }",
        "{ y <- alloc (1); publish y at 2 by sym refl; ret 1 by emp }",
        true,
    ),
    Pair(
        "{ x <- alloc (1); publish x at 1 by refl; ret 1 by emp }",
        "{ x <- alloc (1); retract x at 1 by refl; ret 1 by emp }",
        false,
    ),
    Pair(
        "{ x <- alloc (1); publish x at 1 by refl; ret 1 by emp }",
        "{ x <- alloc (1); free x at 1 by refl; ret 1 by emp }",
        false,
    ),
    Pair(
        "{ x : nat <- atomic (1) { ret 1 by emp } { emp }; ret x by emp }",
        "{ y : nat <- atomic () { ret 1 by @2 } { [1 = 1] }; ret y by emp }",
        true,
    ),
    Pair(
        "{ x : nat <- atomic () { ret 1 by emp } { emp }; ret x by emp }",
        "{ x : nat <- do () { ret 1 by emp } { emp }; ret x by emp }",
        false,
    ),
    // Both results of a fork are bound, the second inside of the first.
    Pair(
        "{ (x : nat, y : bool) <- par () { ret 1 by emp } { emp } () { ret true by emp } { emp }; ret x by emp }",
        "{ (a : nat, b : bool) <- par (1) { ret 1 by @2 } { emp } () { ret true by emp } { [1 = 1] }; ret a by emp }",
        true,
    ),
    Pair(
        "{ (x : nat, y : nat) <- par () { ret 1 by emp } { emp } () { ret 1 by emp } { emp }; ret x by emp }",
        "{ (x : nat, y : nat) <- par () { ret 1 by emp } { emp } () { ret 1 by emp } { emp }; ret y by emp }",
        false,
    ),
    Pair(
        "{ (x : nat, y : nat) <- par () { ret 1 by emp } { emp } () { ret 2 by emp } { emp }; ret x by emp }",
        "{ (x : nat, y : nat) <- par () { ret 2 by emp } { emp } () { ret 1 by emp } { emp }; ret x by emp }",
        false,
    ),
];

fn no_memory<E: Drop>(_: E) -> AllocError {
    AllocError
}

fn text_of(alloc: Global, pair: &Pair) -> Result<String, AllocError> {
    let mut text = String::from_str(alloc, BEFORE)?;
    text.push_str(pair.0)?;
    text.push_str(" else ")?;
    text.push_str(pair.1)?;
    text.push_str(" }")?;
    Ok(text)
}

fn file_of(alloc: Global, pair: &Pair) -> Result<Source1, AllocError> {
    let text = text_of(alloc, pair)?;
    let bytes = text.as_bytes();
    if bytes.len() > 1_048_576 {
        return Err(AllocError);
    }
    parse(alloc, bytes).map_err(no_memory)
}

// Whether the two bodies of main's end are one program; none where main ends in another form.
fn are_one(alloc: Global, file: &Source1) -> Result<Option<bool>, AllocError> {
    match &file.main.body.get().end.kind {
        EndKind::If(_, _, body, other) => {
            let same = same_program(alloc, body.get(), other.get()).map_err(no_memory)?;
            Ok(Some(same))
        }
        _ => Ok(None),
    }
}

fn holds(alloc: Global, pair: &Pair) -> Result<bool, AllocError> {
    let file = file_of(alloc, pair)?;
    Ok(are_one(alloc, &file)? == Some(pair.2))
}

#[test]
fn bodies_are_one_program_or_not(rt: HostRuntime) -> Result<(), Fail> {
    let alloc = rt.alloc();
    for pair in PAIRS {
        assert!(rt; holds(alloc, pair)?);
    }
    Ok(())
}
