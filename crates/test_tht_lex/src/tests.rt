// Sources with their tokens and faults, worked out by hand.
ghost use Rattle.std.specs.Prelude.{All, IfOk};
ghost use Rattle.tht_lex.specs.Tokens.{IsTokenOf};

use std::alloc::{AllocError, Global};
use std::process::Abort;
use std::test::Fail;
use tht_lex::{LexEnd, Token, lex};
use tht_tree::plain::Spot;
use tht_tree::token::TokenKind;

/// The reserved words and the symbols.
const FIXED: &[(&str, TokenKind)] = &[
    ("tht", TokenKind::Tht),
    ("root", TokenKind::Root),
    ("invariant", TokenKind::Invariant),
    ("shared", TokenKind::Shared),
    ("pred", TokenKind::Pred),
    ("lemma", TokenKind::Lemma),
    ("txn", TokenKind::Txn),
    ("proc", TokenKind::Proc),
    ("main", TokenKind::Main),
    ("on", TokenKind::On),
    ("nil", TokenKind::Nil),
    ("cons", TokenKind::Cons),
    ("zero", TokenKind::Zero),
    ("next", TokenKind::Next),
    ("nat", TokenKind::Nat),
    ("bool", TokenKind::Bool),
    ("loc", TokenKind::Loc),
    ("unit", TokenKind::Unit),
    ("seq", TokenKind::Seq),
    ("true", TokenKind::True),
    ("false", TokenKind::False),
    ("null", TokenKind::Null),
    ("not", TokenKind::Not),
    ("and", TokenKind::And),
    ("or", TokenKind::Or),
    ("imp", TokenKind::Imp),
    ("len", TokenKind::Len),
    ("emp", TokenKind::Emp),
    ("exists", TokenKind::Exists),
    ("either", TokenKind::Either),
    ("read", TokenKind::Read),
    ("write", TokenKind::Write),
    ("alloc", TokenKind::Alloc),
    ("free", TokenKind::Free),
    ("call", TokenKind::Call),
    ("do", TokenKind::Do),
    ("atomic", TokenKind::Atomic),
    ("par", TokenKind::Par),
    ("publish", TokenKind::Publish),
    ("retract", TokenKind::Retract),
    ("have", TokenKind::Have),
    ("open", TokenKind::Open),
    ("unfold", TokenKind::Unfold),
    ("fold", TokenKind::Fold),
    ("rewrite", TokenKind::Rewrite),
    ("use", TokenKind::Use),
    ("ret", TokenKind::Ret),
    ("if", TokenKind::If),
    ("else", TokenKind::Else),
    ("case", TokenKind::Case),
    ("dead", TokenKind::Dead),
    ("at", TokenKind::At),
    ("as", TokenKind::As),
    ("by", TokenKind::By),
    ("to", TokenKind::To),
    ("hyp", TokenKind::Hyp),
    ("refl", TokenKind::Refl),
    ("calc", TokenKind::Calc),
    ("todo", TokenKind::Todo),
    ("sym", TokenKind::Sym),
    ("both", TokenKind::Both),
    ("subst", TokenKind::Subst),
    ("pair", TokenKind::Pair),
    ("fst", TokenKind::Fst),
    ("snd", TokenKind::Snd),
    ("inl", TokenKind::Inl),
    ("inr", TokenKind::Inr),
    ("cases", TokenKind::Cases),
    ("fun", TokenKind::Fun),
    ("app", TokenKind::App),
    ("neg", TokenKind::Neg),
    ("absurd", TokenKind::Absurd),
    ("em", TokenKind::Em),
    ("lin", TokenKind::Lin),
    ("monus", TokenKind::Monus),
    ("head", TokenKind::Head),
    ("tail", TokenKind::Tail),
    ("nocons", TokenKind::Nocons),
    ("apart", TokenKind::Apart),
    ("nonnull", TokenKind::Nonnull),
    ("ex", TokenKind::Ex),
    ("left", TokenKind::Left),
    ("right", TokenKind::Right),
    (":=", TokenKind::Assign),
    ("<-", TokenKind::LeftArrow),
    ("->", TokenKind::Arrow),
    ("=>", TokenKind::FatArrow),
    ("<=", TokenKind::LessEqual),
    ("::", TokenKind::Link),
    ("++", TokenKind::Join),
    ("(", TokenKind::LParen),
    (")", TokenKind::RParen),
    ("{", TokenKind::LBrace),
    ("}", TokenKind::RBrace),
    ("[", TokenKind::LBracket),
    ("]", TokenKind::RBracket),
    (",", TokenKind::Comma),
    (";", TokenKind::Semicolon),
    (":", TokenKind::Colon),
    (".", TokenKind::Dot),
    ("@", TokenKind::AtSign),
    ("*", TokenKind::Star),
    ("+", TokenKind::Plus),
    ("-", TokenKind::Minus),
    ("=", TokenKind::Equal),
    ("<", TokenKind::Less),
];

/// The tokens of a short source.
fn lexed(rt: &impl Abort, alloc: Global, bytes: &[u8]) -> Result<Vec<Token>, LexEnd>
    ensures { IfOk result (λ ts. All (IsTokenOf bytes.now) ts.items) }
{
    assert!(rt; bytes.len() <= 1_048_576);
    lex(alloc, bytes)
}

/// Whether the text is one token of this kind, with no value.
fn is_one_token(
    rt: &impl Abort,
    alloc: Global,
    text: &str,
    kind: TokenKind,
) -> Result<bool, LexEnd> {
    let bytes = text.as_bytes();
    let tokens = lexed(rt, alloc, bytes)?;
    match tokens.as_slice() {
        [token] => {
            Ok(token.kind == kind && token.text(bytes) == text && token.value(bytes) == 0)
        }
        _ => Ok(false),
    }
}

#[test]
fn each_word_and_symbol_has_its_kind(rt: HostRuntime) -> Result<(), Fail> {
    assert_eq!(rt; FIXED.len(), 83 + 23);
    for (text, kind) in FIXED {
        assert!(rt; is_one_token(&rt, rt.alloc(), text, *kind)?, "{text}");
    }
    Ok(())
}

/// A token that is wanted: its kind, range, spot and value.
#[derive(Clone, Copy)]
struct Wanted(TokenKind, u32, u32, u32, u32, u64);

fn is_wanted(token: Token, bytes: &[u8], wanted: Wanted) -> bool
    requires { IsTokenOf bytes.now token }
{
    let Wanted(kind, from, to, line, column, value) = wanted;
    token.kind == kind
        && token.from == from
        && token.to == to
        && token.spot == Spot { line, column }
        && token.value(bytes) == value
}

/// Whether these are the tokens of the bytes.
fn has_tokens(
    rt: &impl Abort,
    alloc: Global,
    bytes: &[u8],
    wanted: &[Wanted],
) -> Result<bool, LexEnd> {
    let tokens = lexed(rt, alloc, bytes)?;
    let mut same = tokens.len() == wanted.len();
    for (at, token) in tokens.iter().enumerate() {
        same = same && at < wanted.len() && is_wanted(*token, bytes, wanted[at]);
    }
    Ok(same)
}

#[test]
fn tokens_have_their_ranges_spots_and_values(rt: HostRuntime) -> Result<(), Fail> {
    let name = TokenKind::Name;
    let number = TokenKind::Num;
    for (bytes, wanted) in [
        (b"".as_slice(), [].as_slice()),
        (b" \t\r\n#".as_slice(), [].as_slice()),
        // A comment holds any bytes and ends before the line feed; a column is a byte.
        (
            b"x\t#\xff\x80\r y\n\r\n\t007 ::=",
            [
                Wanted(name, 0, 1, 1, 1, 0),
                Wanted(number, 12, 15, 3, 2, 7),
                Wanted(TokenKind::Link, 16, 18, 3, 6, 0),
                Wanted(TokenKind::Equal, 18, 19, 3, 8, 0),
            ]
            .as_slice(),
        ),
        // What goes on is the same word; a word in capitals is a name.
        (
            b"tht1 Tht _ x1_Z",
            [
                Wanted(name, 0, 4, 1, 1, 0),
                Wanted(name, 5, 8, 1, 6, 0),
                Wanted(name, 9, 10, 1, 10, 0),
                Wanted(name, 11, 15, 1, 12, 0),
            ]
            .as_slice(),
        ),
        (
            b"1x#2\n18446744073709551615",
            [
                Wanted(number, 0, 1, 1, 1, 1),
                Wanted(name, 1, 2, 1, 2, 0),
                Wanted(number, 5, 25, 2, 1, 18446744073709551615),
            ]
            .as_slice(),
        ),
        // The longest symbol counts.
        (
            b"<--:::==>+++",
            [
                Wanted(TokenKind::LeftArrow, 0, 2, 1, 1, 0),
                Wanted(TokenKind::Minus, 2, 3, 1, 3, 0),
                Wanted(TokenKind::Link, 3, 5, 1, 4, 0),
                Wanted(TokenKind::Assign, 5, 7, 1, 6, 0),
                Wanted(TokenKind::FatArrow, 7, 9, 1, 8, 0),
                Wanted(TokenKind::Join, 9, 11, 1, 10, 0),
                Wanted(TokenKind::Plus, 11, 12, 1, 12, 0),
            ]
            .as_slice(),
        ),
    ] {
        assert!(rt; has_tokens(&rt, rt.alloc(), bytes, wanted)?, "{bytes:?}");
    }
    Ok(())
}

/// A source, `before`, `part` so many times and `after`, with the number of its tokens or its first fault.
#[derive(Clone, Copy)]
struct Case {
    before: &'static str,
    part: &'static str,
    count: usize,
    after: &'static str,
    answer: Result<usize, LexEnd>,
}

const fn repeated(
    before: &'static str,
    part: &'static str,
    count: usize,
    after: &'static str,
    answer: Result<usize, LexEnd>,
) -> Case {
    Case {
        before,
        part,
        count,
        after,
        answer,
    }
}

const fn bad_byte(line: u32, column: u32) -> Result<usize, LexEnd> {
    Err(LexEnd::BadByte {
        spot: Spot { line, column },
    })
}

const fn long_name(line: u32, column: u32) -> Result<usize, LexEnd> {
    Err(LexEnd::LongName {
        spot: Spot { line, column },
    })
}

const fn big_number(line: u32, column: u32) -> Result<usize, LexEnd> {
    Err(LexEnd::BigNumber {
        spot: Spot { line, column },
    })
}

fn source_of(alloc: Global, case: &Case) -> Result<String, AllocError> {
    let mut text = String::from_str(alloc, case.before)?;
    for _turn in 0..case.count {
        text.push_str(case.part)?;
    }
    text.push_str(case.after)?;
    Ok(text)
}

#[test]
fn limits_and_faults(rt: HostRuntime) -> Result<(), Fail> {
    for case in [
        repeated("", "x", 64, " y", Ok(2)),
        repeated("", "x", 65, "", long_name(1, 1)),
        repeated("\n ", "x", 65, "", long_name(2, 2)),
        repeated("# ", "x", 65, "", Ok(0)),
        repeated("", "0", 99, "18446744073709551615", Ok(1)),
        repeated("", "0", 99, "18446744073709551616", big_number(1, 1)),
        repeated("", "1", 20, "", Ok(1)),
        repeated("a ", "9", 20, "", big_number(1, 3)),
        repeated("a > b", "", 0, "", bad_byte(1, 3)),
        repeated("->>", "", 0, "", bad_byte(1, 3)),
        repeated("\ta\0", "", 0, "", bad_byte(1, 3)),
        // The first fault counts.
        repeated("a\n  !", "x", 65, "", bad_byte(2, 3)),
        repeated("", "x", 65, " !", long_name(1, 1)),
        repeated("a !", "9", 20, "", bad_byte(1, 3)),
    ] {
        let text = source_of(rt.alloc(), &case)?;
        let answer = match lexed(&rt, rt.alloc(), text.as_bytes()) {
            Ok(tokens) => Ok(tokens.len()),
            Err(end) => Err(end),
        };
        assert_eq!(rt; answer, case.answer, "{text}");
    }
    Ok(())
}

#[test]
fn other_bytes_are_bad(rt: HostRuntime) -> Result<(), Fail> {
    for byte in 0..=255u8 {
        let is_good = byte.is_ascii_alphanumeric() || b"_ \t\r\n#(){}[],;:.@*+-=<".contains(&byte);
        let is_lexed = match lexed(&rt, rt.alloc(), &[byte]) {
            Ok(_) => true,
            Err(end) => {
                assert_eq!(rt;
                    end,
                    LexEnd::BadByte {
                        spot: Spot { line: 1, column: 1 }
                    }
                );
                false
            }
        };
        assert_eq!(rt; is_lexed, is_good, "{byte}");
    }
    Ok(())
}
