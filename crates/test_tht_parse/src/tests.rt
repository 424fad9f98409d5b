// Sources that are read and first faults of others, worked out by hand.
mod copies;
mod limits;

use std::alloc::{AllocError, Global};
use std::process::Abort;
use std::test::Fail;
use tht_parse::{ParseEnd, parse};
use tht_tree::plain::Spot;
use tht_tree::token::TokenKind;

/// What stands before and after a part of a file. The part begins in line 2, and what follows it stands in a new line.
#[derive(Clone, Copy)]
struct Frame(&'static str, &'static str);

const WHOLE: Frame = Frame("", "");

const DECL: Frame = Frame("tht 1\n", "\nmain r : nat { emp } { ret 0 by emp }");

const ASSN: Frame = Frame(BEFORE_ASSN, AFTER_ASSN);

const TERM: Frame = Frame(BEFORE_TERM, AFTER_TERM);

const STMT: Frame = Frame("tht 1 main r : nat { emp } {\n", "\n; ret 0 by emp }");

const PROOF: Frame = Frame(
    "tht 1 main r : nat { emp } { have h : true by\n",
    "\n; ret 0 by emp }",
);

const GIVE: Frame = Frame("tht 1 main r : nat { emp } { ret 0 by\n", "\n}");

const END: Frame = Frame(BEFORE_END, "\n}");

const BEFORE_ASSN: &str = "tht 1 main r : nat {\n";

const AFTER_ASSN: &str = "\n} { ret 0 by emp }";

const BEFORE_TERM: &str = "tht 1 main r : nat { [\n";

const AFTER_TERM: &str = "\n] } { ret 0 by emp }";

const BEFORE_END: &str = "tht 1 main r : nat { emp } {\n";

fn push_times(text: &mut String, part: &str, count: usize) -> Result<(), AllocError> {
    for _turn in 0..count {
        text.push_str(part)?;
    }
    Ok(())
}

/// Each part so many times, one after the other.
fn repeated(alloc: Global, parts: &[(&str, usize)]) -> Result<String, AllocError> {
    let mut text = String::new(alloc);
    for (part, count) in parts {
        push_times(&mut text, part, *count)?;
    }
    Ok(text)
}

/// Why the text is not read, if it is not.
fn end_of(rt: &impl Abort, alloc: Global, text: &str) -> Option<ParseEnd> {
    let bytes = text.as_bytes();
    assert!(rt; bytes.len() <= 1_048_576);
    match parse(alloc, bytes) {
        Ok(_) => None,
        Err(end) => Some(end),
    }
}

/// Each form of the grammar once, and forms at the edge.
const READ: &[(Frame, &[&str])] = &[
    (
        WHOLE,
        &[
            "tht 1 main r : nat { emp } { ret 0 by emp }",
            "\t# a comment \n tht 0001 main r:nat{emp}{ret 0 by emp}\r\n# the end",
        ],
    ),
    (
        DECL,
        &[
            "root a : nat := 18446744073709551615 ;",
            "root a : bool := true ; root b : bool := false ;",
            "root a : loc := null ; root b : loc := a ; root c : unit := ( ) ; root d : seq := 0 ;",
            "invariant { emp } by emp ;",
            "pred p ( ) = emp ;",
            "shared pred p ( a : nat , b : bool , c : loc , d : unit , e : seq ) = emp * [ true ] ;",
            "pred p ( s : seq ) on s nil = emp cons x t = p ( t ) ;",
            "shared pred p ( s : seq ) on s nil = emp cons x t = p ( t ) ;",
            "lemma l ( a : nat ) { emp } { emp } { ret ( ) by emp }",
            "lemma l ( s : seq ) on s { emp } { emp } nil { ret ( ) by emp } cons x t { ret ( ) by emp }",
            "lemma l ( n : nat ) on n { emp } { emp } zero { ret ( ) by emp } next m { ret ( ) by emp }",
            "txn f ( a : nat ) [ b : nat , c : nat ] { emp } r : nat { emp } { ret a by emp }",
            "proc f ( ) [ ] { emp } r : unit { emp } { ret ( ) by emp }",
        ],
    ),
    (
        ASSN,
        &[
            "emp",
            "[ true ]",
            "( emp )",
            "( emp * emp ) * emp",
            "x -> 1",
            "x . 0 . 7 => y . 1",
            "null -> ( 1 + 1 )",
            "null . 3 => null",
            "P ( )",
            "P ( 1 , x )",
            "exists x : nat . emp * [ x = x ]",
            "either emp or emp * emp",
            "either either emp or emp or ( emp * emp )",
        ],
    ),
    (
        TERM,
        &[
            "1",
            "true",
            "false",
            "null",
            "nil",
            "x",
            "( )",
            "( 1 )",
            "len nil",
            "len len x . 1",
            "x . 7",
            "1 * 2 * 3",
            "1 + 2 - 3",
            "1 :: 2 :: nil ++ s",
            "1 = 2",
            "1 < 2",
            "1 <= 2",
            "not not 1 = 1",
            "true and not true and true",
            "true or true and true or true",
            "true imp true or true imp false",
        ],
    ),
    (
        STMT,
        &[
            "x : nat <- read a . 1 at 2 as h by refl",
            "write a . 1 ( 1 + 1 ) at 2 by refl",
            "x <- alloc ( 1 )",
            "x <- alloc ( 1 , 2 , 3 , 4 , 5 , 6 , 7 , 8 )",
            "free a at 2 by refl",
            "publish a + 1 at 2 by refl",
            "retract a at 2 by refl",
            "x <- call f ( ) [ ] by emp",
            "x <- call f ( 1 , 2 ) [ 3 , 4 ] by emp",
            "x : unit <- do ( ) { ret ( ) by emp } { emp }",
            "x : nat <- atomic ( 1 , 2 ) { ret 0 by emp } { emp }",
            "( x : nat , y : nat ) <- par ( 1 ) { ret 0 by emp } { emp } ( 2 ) { ret 0 by emp } { emp }",
            "have h : true by refl",
            "open 1 as x : nat",
            "open 1 as h",
            "unfold 1",
            "fold P ( 1 , x ) by emp",
            "rewrite 1 2 to x by refl",
            "use L ( ) by emp",
        ],
    ),
    (
        PROOF,
        &[
            "hyp h",
            "refl",
            "calc",
            "as [ true ] refl",
            "sym refl",
            "both refl refl",
            "subst ( x : nat . x = x ) [ 1 ] [ 2 ] refl refl",
            "pair refl refl",
            "fst [ true ] refl",
            "snd [ true ] refl",
            "inl refl",
            "inr refl",
            "cases [ true or true ] refl { h . refl } { g . refl }",
            "fun h . refl",
            "app [ true ] refl refl",
            "neg [ true ] refl refl",
            "absurd refl",
            "em [ true ] { h . refl } { g . refl }",
            "lin 1 { }",
            "lin 1 { 2 [ 1 <= 2 ] calc , 3 [ 2 <= 3 ] calc }",
            "monus refl",
            "head [ s ] [ u ] refl",
            "tail [ x ] [ y ] refl",
            "nocons",
            "apart 1 2",
            "nonnull 1",
            "lemma L ( 1 , 2 ) refl",
            "todo",
            "( refl )",
        ],
    ),
    (
        GIVE,
        &[
            "emp",
            "@ 1",
            "[ refl ]",
            "( emp )",
            "@ 1 * ( @ 2 * @ 3 ) * emp",
            "ex [ 1 ] emp",
            "left emp * right emp",
            "fold @ 1",
        ],
    ),
    (
        END,
        &[
            "ret 0 by emp",
            "if true as h { ret 0 by emp } else { ret 1 by emp }",
            "case 1 { ret 0 by emp } { ret 0 by emp }",
            "case [ true ] as h { ret 0 by emp } { ret 0 by emp }",
            "case seq s as h { ret 0 by emp } x t { ret 0 by emp }",
            "dead refl { ret 0 by emp }",
        ],
    ),
];

#[test]
fn each_form_is_read(rt: HostRuntime) -> Result<(), Fail> {
    for (frame, parts) in READ {
        for part in *parts {
            let text = repeated(rt.alloc(), &[(frame.0, 1), (part, 1), (frame.1, 1)])?;
            assert_eq!(rt; end_of(&rt, rt.alloc(), &text), None, "{text}");
        }
    }
    Ok(())
}

/// A part with a token that cannot stand there: its line and column, and its kind, if the input does not end there.
struct Wrong(Frame, &'static str, u32, u32, Option<TokenKind>);

const WRONG: &[Wrong] = &[
    // The end of the input is the spot behind the last byte.
    Wrong(WHOLE, "", 1, 1, None),
    Wrong(WHOLE, "\n# tht 1\n  ", 3, 3, None),
    Wrong(WHOLE, "tht", 1, 4, None),
    Wrong(WHOLE, "tht 1", 1, 6, None),
    Wrong(
        WHOLE,
        "tht 1\nmain r : nat { emp } { ret 0 by emp\n",
        3,
        1,
        None,
    ),
    // A file begins with its version and ends with its last brace.
    Wrong(WHOLE, "main", 1, 1, Some(TokenKind::Main)),
    Wrong(WHOLE, "tht x", 1, 5, Some(TokenKind::Name)),
    Wrong(
        WHOLE,
        "tht 1\nmain r : nat { emp } { ret 0 by emp }\n x",
        3,
        2,
        Some(TokenKind::Name),
    ),
    Wrong(
        WHOLE,
        "tht 1\nmain r : nat { emp } { ret 0 by emp } }",
        2,
        39,
        Some(TokenKind::RBrace),
    ),
    Wrong(
        WHOLE,
        "tht 1\nmain r : nat { emp } { ret 0 by emp }\nroot a : nat := 0 ;",
        3,
        1,
        Some(TokenKind::Root),
    ),
    // Declarations. A reserved word is no name.
    Wrong(DECL, "x", 2, 1, Some(TokenKind::Name)),
    Wrong(DECL, "root tht : nat := 0 ;", 2, 6, Some(TokenKind::Tht)),
    Wrong(DECL, "root a : x := 0 ;", 2, 10, Some(TokenKind::Name)),
    Wrong(DECL, "root a : nat = 0 ;", 2, 14, Some(TokenKind::Equal)),
    Wrong(DECL, "root a : nat := ( 0 ;", 2, 19, Some(TokenKind::Num)),
    Wrong(DECL, "root a : nat := 0", 3, 1, Some(TokenKind::Main)),
    Wrong(
        DECL,
        "invariant { emp } by refl ;",
        2,
        22,
        Some(TokenKind::Refl),
    ),
    Wrong(DECL, "shared lemma", 2, 8, Some(TokenKind::Lemma)),
    Wrong(
        DECL,
        "pred p ( a : nat , ) = emp ;",
        2,
        20,
        Some(TokenKind::RParen),
    ),
    Wrong(
        DECL,
        "pred p ( ) on s nil = emp ;",
        2,
        27,
        Some(TokenKind::Semicolon),
    ),
    Wrong(
        DECL,
        "lemma l ( ) on s { emp } { emp } cons",
        2,
        34,
        Some(TokenKind::Cons),
    ),
    Wrong(
        DECL,
        "proc f ( ) { emp } r : nat { emp }",
        2,
        12,
        Some(TokenKind::LBrace),
    ),
    // Assertions.
    Wrong(ASSN, "", 3, 1, Some(TokenKind::RBrace)),
    Wrong(ASSN, "x", 3, 1, Some(TokenKind::RBrace)),
    Wrong(ASSN, "1 -> 1", 2, 1, Some(TokenKind::Num)),
    Wrong(ASSN, "x -> 1 + 1", 2, 8, Some(TokenKind::Plus)),
    Wrong(ASSN, "P ( 1 , )", 2, 9, Some(TokenKind::RParen)),
    Wrong(ASSN, "exists x . emp", 2, 10, Some(TokenKind::Dot)),
    Wrong(
        ASSN,
        "either emp * emp or emp",
        2,
        12,
        Some(TokenKind::Star),
    ),
    Wrong(ASSN, "either emp", 3, 1, Some(TokenKind::RBrace)),
    // Terms. A comparison stands alone, and an offset is at most 7.
    Wrong(TERM, "", 3, 1, Some(TokenKind::RBracket)),
    Wrong(TERM, "1 +", 3, 1, Some(TokenKind::RBracket)),
    Wrong(TERM, "( 1", 3, 1, Some(TokenKind::RBracket)),
    Wrong(TERM, "1 = 2 = 3", 2, 7, Some(TokenKind::Equal)),
    Wrong(TERM, "1 < 2 <= 3", 2, 7, Some(TokenKind::LessEqual)),
    Wrong(TERM, "1 + not true", 2, 5, Some(TokenKind::Not)),
    Wrong(TERM, "x . 8", 2, 5, Some(TokenKind::Num)),
    Wrong(TERM, "x . 18446744073709551615", 2, 5, Some(TokenKind::Num)),
    Wrong(TERM, "x . x", 2, 5, Some(TokenKind::Name)),
    // Statements.
    Wrong(STMT, "", 3, 1, Some(TokenKind::Semicolon)),
    Wrong(STMT, "ret 0 by emp", 3, 1, Some(TokenKind::Semicolon)),
    Wrong(STMT, "x <- alloc ( )", 2, 14, Some(TokenKind::RParen)),
    Wrong(
        STMT,
        "x <- read a at 1 as h by refl",
        2,
        6,
        Some(TokenKind::Read),
    ),
    Wrong(
        STMT,
        "x : nat <- alloc ( 1 )",
        2,
        12,
        Some(TokenKind::Alloc),
    ),
    Wrong(STMT, "write x at", 2, 9, Some(TokenKind::At)),
    Wrong(STMT, "free x by refl", 2, 8, Some(TokenKind::By)),
    Wrong(STMT, "have h true by refl", 2, 8, Some(TokenKind::True)),
    Wrong(STMT, "open 1 as 2", 2, 11, Some(TokenKind::Num)),
    Wrong(STMT, "rewrite 1 to x by refl", 2, 11, Some(TokenKind::To)),
    // Proofs.
    Wrong(PROOF, "emp", 2, 1, Some(TokenKind::Emp)),
    Wrong(PROOF, "hyp", 3, 1, Some(TokenKind::Semicolon)),
    Wrong(PROOF, "both refl", 3, 1, Some(TokenKind::Semicolon)),
    Wrong(
        PROOF,
        "cases [ true ] refl { h . refl }",
        3,
        1,
        Some(TokenKind::Semicolon),
    ),
    Wrong(
        PROOF,
        "subst ( x : nat . true ) [ 1 ] refl",
        2,
        32,
        Some(TokenKind::Refl),
    ),
    Wrong(PROOF, "lin { }", 2, 5, Some(TokenKind::LBrace)),
    Wrong(PROOF, "lin 1 { 1 refl }", 2, 11, Some(TokenKind::Refl)),
    // Gives.
    Wrong(GIVE, "hyp h", 2, 1, Some(TokenKind::Hyp)),
    Wrong(GIVE, "@ x", 2, 3, Some(TokenKind::Name)),
    Wrong(GIVE, "emp *", 3, 1, Some(TokenKind::RBrace)),
    Wrong(GIVE, "ex [ true ]", 3, 1, Some(TokenKind::RBrace)),
    // Ends.
    Wrong(END, "", 3, 1, Some(TokenKind::RBrace)),
    Wrong(END, "ret 0", 3, 1, Some(TokenKind::RBrace)),
    Wrong(
        END,
        "if true as h { ret 0 by emp }",
        3,
        1,
        Some(TokenKind::RBrace),
    ),
    Wrong(END, "case true", 2, 6, Some(TokenKind::True)),
    Wrong(
        END,
        "case seq s as h { ret 0 by emp } x {",
        2,
        36,
        Some(TokenKind::LBrace),
    ),
    Wrong(END, "dead { ret 0 by emp }", 2, 6, Some(TokenKind::LBrace)),
];

#[test]
fn wrong_tokens_are_told(rt: HostRuntime) -> Result<(), Fail> {
    for Wrong(frame, part, line, column, found) in WRONG {
        let text = repeated(rt.alloc(), &[(frame.0, 1), (part, 1), (frame.1, 1)])?;
        let spot = Spot {
            line: *line,
            column: *column,
        };
        let found = *found;
        assert_eq!(rt;
            end_of(&rt, rt.alloc(), &text),
            Some(ParseEnd::Unexpected { spot, found }),
            "{text}"
        );
    }
    Ok(())
}

/// Parts, each so many times, and why the text is not read, if it is not.
struct Other(&'static [(&'static str, usize)], Option<ParseEnd>);

const OTHERS: &[Other] = &[
    // The version is 1.
    Other(
        &[("tht 2", 1)],
        Some(ParseEnd::Version {
            spot: Spot { line: 1, column: 5 },
        }),
    ),
    Other(
        &[("tht 0 main", 1)],
        Some(ParseEnd::Version {
            spot: Spot { line: 1, column: 5 },
        }),
    ),
    // A name has 64 bytes, and a number is below 2^64.
    Other(&[(BEFORE_TERM, 1), ("x", 64), (AFTER_TERM, 1)], None),
    Other(
        &[(BEFORE_TERM, 1), ("x", 65), (AFTER_TERM, 1)],
        Some(ParseEnd::LongName {
            spot: Spot { line: 2, column: 1 },
        }),
    ),
    Other(
        &[
            (BEFORE_TERM, 1),
            ("0", 99),
            ("18446744073709551615", 1),
            (AFTER_TERM, 1),
        ],
        None,
    ),
    Other(
        &[(
            "tht 1\nmain r : nat { emp } { ret 18446744073709551616 by emp }",
            1,
        )],
        Some(ParseEnd::BigNumber {
            spot: Spot {
                line: 2,
                column: 28,
            },
        }),
    ),
    // Faults of the tokens come before faults of the grammar and of the limits.
    Other(
        &[("tht 2 !", 1)],
        Some(ParseEnd::BadByte {
            spot: Spot { line: 1, column: 7 },
        }),
    ),
    Other(
        &[(BEFORE_TERM, 1), ("x . 18446744073709551616", 1)],
        Some(ParseEnd::BigNumber {
            spot: Spot { line: 2, column: 5 },
        }),
    ),
    Other(
        &[(BEFORE_TERM, 1), ("(", 99), ("1 !", 1)],
        Some(ParseEnd::BadByte {
            spot: Spot {
                line: 2,
                column: 102,
            },
        }),
    ),
    // Too deep is only what could stand there, and `()` opens nothing.
    Other(
        &[(BEFORE_TERM, 1), ("(", 99), (")", 99), (AFTER_TERM, 1)],
        None,
    ),
    Other(
        &[(BEFORE_TERM, 1), ("(", 99), (AFTER_TERM, 1)],
        Some(ParseEnd::Unexpected {
            spot: Spot { line: 3, column: 1 },
            found: Some(TokenKind::RBracket),
        }),
    ),
    Other(
        &[(BEFORE_TERM, 1), ("(", 100), (")", 100), (AFTER_TERM, 1)],
        Some(ParseEnd::Deep {
            spot: Spot {
                line: 2,
                column: 100,
            },
        }),
    ),
    Other(
        &[(BEFORE_END, 1), ("case 1 {\n", 100)],
        Some(ParseEnd::Deep {
            spot: Spot {
                line: 101,
                column: 8,
            },
        }),
    ),
    // One too many is only what could stand there.
    Other(
        &[
            (BEFORE_ASSN, 1),
            ("P ( 1", 1),
            (" , 1", 63),
            (" , )", 1),
            (AFTER_ASSN, 1),
        ],
        Some(ParseEnd::Unexpected {
            spot: Spot {
                line: 2,
                column: 261,
            },
            found: Some(TokenKind::RParen),
        }),
    ),
];

#[test]
fn other_faults_are_told(rt: HostRuntime) -> Result<(), Fail> {
    for Other(parts, end) in OTHERS {
        let text = repeated(rt.alloc(), parts)?;
        assert_eq!(rt; end_of(&rt, rt.alloc(), &text), *end, "{text}");
    }
    Ok(())
}
