// Limits of lengths and of nesting, worked out by hand, and the deepest term that is read.
use super::{
    AFTER_TERM, ASSN, BEFORE_TERM, DECL, END, Frame, GIVE, PROOF, STMT, TERM, end_of, repeated,
};
use std::alloc::{AllocError, Global};
use std::test::Fail;
use tht_parse::{ParseEnd, parse};
use tht_tree::file::Source1;
use tht_tree::plain::{Memory, Spot};
use tree_copies::{copy_file, same_tree};

/// A part that may be repeated so often at most, between two others, and the spot of what is then one too many.
struct Length(
    Frame,
    &'static str,
    &'static str,
    usize,
    &'static str,
    u32,
    u32,
);

const LENGTHS: &[Length] = &[
    // A chain has 64 operators.
    Length(TERM, "1", "\n+ 1", 64, "", 67, 1),
    Length(TERM, "1", "\n- 1", 64, "", 67, 1),
    Length(TERM, "1 + 2", "\n- 1", 63, "", 66, 1),
    Length(TERM, "1", "\n* 1", 64, "", 67, 1),
    Length(TERM, "x", "\n. 7", 64, "", 67, 1),
    Length(TERM, "true", "\nand true", 64, "", 67, 1),
    Length(TERM, "true", "\nor true", 64, "", 67, 1),
    Length(ASSN, "emp", "\n* emp", 64, "", 67, 1),
    Length(ASSN, "x", "\n. 0", 64, " -> 1", 67, 1),
    Length(ASSN, "null", "\n. 0", 64, " -> 1", 67, 1),
    Length(GIVE, "emp", "\n* emp", 64, "", 67, 1),
    // A list has 64 entries.
    Length(ASSN, "P ( 1", "\n, 1", 63, ")", 66, 3),
    Length(STMT, "x <- call f ( 1", "\n, 1", 63, ") [ ] by emp", 66, 3),
    Length(STMT, "x <- call f ( ) [ 1", "\n, 1", 63, "] by emp", 66, 3),
    Length(STMT, "fold P ( 1", "\n, 1", 63, ") by emp", 66, 3),
    Length(STMT, "use L ( 1", "\n, 1", 63, ") by emp", 66, 3),
    Length(
        STMT,
        "x : nat <- do ( 1",
        "\n, 1",
        63,
        ") { ret 0 by emp } { emp }",
        66,
        3,
    ),
    Length(PROOF, "lemma L ( 1", "\n, 1", 63, ") refl", 66, 3),
    Length(
        PROOF,
        "lin 1 { 1 [ true ] refl",
        "\n, 1 [ true ] refl",
        63,
        "}",
        66,
        3,
    ),
    // A new place has 8 cells.
    Length(STMT, "x <- alloc ( 1", "\n, 1", 7, ")", 10, 3),
    // A declaration has 16 parameters and 16 logical variables.
    Length(
        DECL,
        "pred p ( a : nat",
        "\n, a : nat",
        15,
        ") = emp ;",
        18,
        3,
    ),
    Length(
        DECL,
        "lemma l ( a : nat",
        "\n, a : nat",
        15,
        ") { emp } { emp } { ret ( ) by emp }",
        18,
        3,
    ),
    Length(
        DECL,
        "proc f ( a : nat",
        "\n, a : nat",
        15,
        ") [ ] { emp } r : nat { emp } { ret 0 by emp }",
        18,
        3,
    ),
    Length(
        DECL,
        "txn f ( ) [ a : nat",
        "\n, a : nat",
        15,
        "] { emp } r : nat { emp } { ret 0 by emp }",
        18,
        3,
    ),
    // A file has 256 roots and 2,000 declarations.
    Length(DECL, "", "root a : nat := 0 ;\n", 256, "", 258, 1),
    Length(DECL, "", "shared pred p ( ) = emp ;\n", 2000, "", 2002, 1),
    Length(
        DECL,
        "root a : nat := 0 ;",
        "\npred p ( ) = emp ;",
        1999,
        "",
        2002,
        1,
    ),
];

#[test]
fn lengths_have_their_limits(rt: HostRuntime) -> Result<(), Fail> {
    for Length(frame, before, part, most, after, line, column) in LENGTHS {
        for (count, is_read) in [(*most, true), (most.saturating_add(1), false)] {
            let parts = [
                (frame.0, 1),
                (before, 1),
                (part, count),
                (after, 1),
                (frame.1, 1),
            ];
            let text = repeated(rt.alloc(), &parts)?;
            let spot = Spot {
                line: *line,
                column: *column,
            };
            let end = if is_read {
                None
            } else {
                Some(ParseEnd::Many { spot })
            };
            assert_eq!(rt; end_of(&rt, rt.alloc(), &text), end, "{text}");
        }
    }
    Ok(())
}

/// What may be opened so often at most round a part, what closes it, and the spot of what is then opened too deep.
struct Depth(
    Frame,
    &'static str,
    usize,
    &'static str,
    &'static str,
    u32,
    u32,
);

const DEPTHS: &[Depth] = &[
    // The assertion and the term are open, and 98 more terms may be.
    Depth(TERM, "(", 98, "1", ")", 2, 100),
    Depth(TERM, "not ", 98, "true", "", 2, 397),
    Depth(TERM, "true imp ", 98, "true", "", 2, 892),
    Depth(TERM, "1 :: ", 98, "nil", "", 2, 496),
    Depth(TERM, "nil ++ ", 98, "nil", "", 2, 694),
    Depth(TERM, "len ", 98, "s", "", 2, 397),
    // The assertion is open.
    Depth(ASSN, "(", 99, "emp", ")", 2, 101),
    Depth(ASSN, "exists x : nat . ", 99, "emp", "", 2, 1701),
    Depth(ASSN, "either ", 99, "emp", " or emp", 2, 701),
    Depth(ASSN, "either emp or ", 99, "emp", "", 2, 1394),
    // The body and the proof are open.
    Depth(PROOF, "(", 98, "refl", ")", 2, 100),
    Depth(PROOF, "sym ", 98, "refl", "", 2, 397),
    Depth(PROOF, "fun h . ", 98, "refl", "", 2, 793),
    // The body and the give are open. The term of the 99th `ex` is too deep.
    Depth(GIVE, "(", 98, "emp", ")", 2, 100),
    Depth(GIVE, "left ", 98, "emp", "", 2, 496),
    Depth(GIVE, "right ", 98, "emp", "", 2, 595),
    Depth(GIVE, "fold ", 98, "emp", "", 2, 496),
    Depth(GIVE, "ex [ 1 ] ", 98, "emp", "", 2, 888),
    // The body is open. The term of the last `ret` stands in the innermost body.
    Depth(
        END,
        "if true as h {\n",
        98,
        "ret 0 by emp",
        "\n} else { ret 0 by emp }",
        101,
        5,
    ),
    Depth(
        END,
        "case 1 {\n",
        98,
        "ret 0 by emp",
        "\n} { ret 0 by emp }",
        101,
        5,
    ),
    Depth(
        END,
        "x : nat <- do ( ) {\n",
        98,
        "ret 0 by emp",
        "\n} { emp } ; ret 0 by emp",
        101,
        5,
    ),
];

#[test]
fn nesting_has_its_limit(rt: HostRuntime) -> Result<(), Fail> {
    for Depth(frame, open, most, part, close, line, column) in DEPTHS {
        for (count, is_read) in [(*most, true), (most.saturating_add(1), false)] {
            let parts = [
                (frame.0, 1),
                (open, count),
                (part, 1),
                (close, count),
                (frame.1, 1),
            ];
            let text = repeated(rt.alloc(), &parts)?;
            let spot = Spot {
                line: *line,
                column: *column,
            };
            let end = if is_read {
                None
            } else {
                Some(ParseEnd::Deep { spot })
            };
            assert_eq!(rt; end_of(&rt, rt.alloc(), &text), end, "{text}");
        }
    }
    Ok(())
}

/// A chain of 64 operators at each level of precedence that leans to the left, tightest first.
const CHAINS: &[(&str, usize)] = &[
    (" . 0", 64),
    (" * 1", 64),
    (" + 1", 64),
    (" and true", 64),
    (" or true", 64),
];

/// A file with a term of 98 parentheses and all chains behind each: 31,681 levels.
fn deepest(alloc: Global) -> Result<String, AllocError> {
    let mut text = repeated(alloc, &[(BEFORE_TERM, 1), ("(", 98), ("1", 1)])?;
    let chains = repeated(alloc, CHAINS)?;
    for _level in 0..98 {
        text.push_str(&chains)?;
        text.push_str(")")?;
    }
    text.push_str(&chains)?;
    text.push_str(AFTER_TERM)?;
    Ok(text)
}

fn no_memory(_: Memory) -> AllocError {
    AllocError
}

fn is_same_as_its_copy(alloc: Global, file: &Source1) -> Result<bool, AllocError> {
    let copy = copy_file(alloc, file).map_err(no_memory)?;
    Ok(same_tree(file, &copy))
}

/// Whether the text, which is no longer than a source, is read, copied and equal to its copy.
fn is_copied(alloc: Global, text: &str) -> Result<bool, AllocError> {
    let bytes = text.as_bytes();
    if bytes.len() > 1_048_576 {
        return Ok(false);
    }
    match parse(alloc, bytes) {
        Ok(file) => is_same_as_its_copy(alloc, &file),
        Err(_) => Ok(false),
    }
}

#[test]
fn the_deepest_term_is_copied_and_compared(rt: HostRuntime) -> Result<(), Fail> {
    let text = deepest(rt.alloc())?;
    assert!(rt; is_copied(rt.alloc(), &text)?);
    Ok(())
}

/// A file with a give of 98 parentheses and a chain of 64 operators behind each.
fn deepest_give(alloc: Global) -> Result<String, AllocError> {
    let mut text = repeated(alloc, &[(GIVE.0, 1), ("(", 98), ("emp", 1)])?;
    for _level in 0..98 {
        text.push_str(&repeated(alloc, &[(" * emp", 64), (")", 1)])?)?;
    }
    text.push_str(&repeated(alloc, &[(" * emp", 64), (GIVE.1, 1)])?)?;
    Ok(text)
}

#[test]
fn the_deepest_give_is_copied_and_compared(rt: HostRuntime) -> Result<(), Fail> {
    let text = deepest_give(rt.alloc())?;
    assert!(rt; is_copied(rt.alloc(), &text)?);
    Ok(())
}
