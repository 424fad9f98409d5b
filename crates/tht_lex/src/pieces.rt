//! The piece at the front of some bytes: a blank, a comment or a token.
ghost use Rattle.std.specs.Prelude.{◌≡◌, ◌<◌, ◌≤◌, ◌^◌, suc, nat_le, nat_lt, take, length};
ghost use Rattle.std.specs.List.{prefix_len};
ghost use Rattle.tht_tree.specs.Values.{number_limit};
ghost use Rattle.tht_tree.specs.Splitting as spec;
ghost use Rattle.tht_grammar.specs.Pieces as grammar;
ghost use Rattle.tht_lex.specs.Pieces as view;

use crate::end::LexEnd;
use crate::numbers::number_of;
use crate::words::{pair, single, word_kind};
use tht_tree::plain::Spot;
use tht_tree::token::TokenKind;

/// What a byte can begin.
#[derive(Clone, Copy, Debug)]
enum Class {
    Blank,
    Hash,
    Letter,
    Digit,
    Other,
}

#[tactic(auto, unfolding(tht_tree::specs::Splitting::class_of))]
fn class_of(byte: u8) -> Class
    ensures { view.class result ≡ spec.class_of byte }
{
    match byte {
        b' ' | b'\t' | b'\r' | b'\n' => Class::Blank,
        b'#' => Class::Hash,
        b'A'..=b'Z' | b'a'..=b'z' | b'_' => Class::Letter,
        b'0'..=b'9' => Class::Digit,
        _ => Class::Other,
    }
}

/// What goes on as long as its bytes do.
#[derive(Clone, Copy, Debug)]
enum Run {
    Word,
    Number,
    Comment,
}

#[tactic(auto, unfolding(tht_tree::specs::Splitting::in_word, tht_tree::specs::Splitting::in_number, tht_tree::specs::Splitting::in_comment))]
fn goes_on(run: Run, byte: u8) -> bool
    ensures { result ≡ view.goes_on run byte }
{
    match run {
        Run::Word => matches!(class_of(byte), Class::Letter | Class::Digit),
        Run::Number => matches!(class_of(byte), Class::Digit),
        Run::Comment => byte != b'\n',
    }
}

/// How many bytes at the front belong to the run.
fn run_length(run: Run, bytes: &[u8]) -> usize
    ensures value { result ≡ prefix_len (view.goes_on run) bytes.now }
    ensures within { result ≤ length bytes.now }
{
    let mut end = 0;
    while end < bytes.len() && goes_on(run, bytes[end]) {
        end += 1;
    }
    end
}

/// How many bytes a name may have.
const MAX_WORD: usize = 64;

/// What stands at the front of some bytes: a blank or a comment, or a token. The count is of the bytes after the first.
#[derive(Clone, Copy, Debug)]
pub enum Piece {
    Gap(usize),
    Token(TokenKind, usize),
}

impl Piece {
    /// How many bytes it takes.
    pub fn len(self) -> usize
        requires { view.size_of self < 2 ^ 64 }
        ensures { result ≡ view.size_of self }
    {
        match self {
            Piece::Gap(more) => more + 1,
            Piece::Token(_, more) => more + 1,
        }
    }
}

/// The word of so many further bytes at the front, if it is not too long.
fn word(bytes: &[u8], more: usize, spot: Spot) -> Result<Piece, LexEnd>
    requires { more < length bytes.now }
    ensures { let kind = spec.word_kind (take (suc more) bytes.now) in
        result ≡ view.answer_of (grammar.word_by kind more (nat_le (suc more) 64)) spot }
{
    if MAX_WORD <= more {
        return Err(LexEnd::LongName { spot });
    }
    Ok(Piece::Token(word_kind(&bytes[..more + 1]), more))
}

/// The number of so many further bytes at the front, if it is not too big.
fn number(bytes: &[u8], more: usize, spot: Spot) -> Result<Piece, LexEnd>
    requires { more < length bytes.now }
    ensures { let value = spec.number_of (take (suc more) bytes.now) in
        result ≡ view.answer_of (grammar.number_by value more (nat_lt value number_limit)) spot }
{
    match number_of(&bytes[..more + 1]) {
        Some(_) => Ok(Piece::Token(TokenKind::Num, more)),
        None => Err(LexEnd::BigNumber { spot }),
    }
}

/// The longest symbol that the byte begins before the rest.
fn symbol(first: u8, rest: &[u8], spot: Spot) -> Result<Piece, LexEnd>
    ensures { result ≡ view.answer_of (grammar.symbol_by (spec.pair_at first rest.now) (spec.single_of first)) spot }
{
    if let [second, ..] = rest {
        if let Some(kind) = pair(&[first, *second]) {
            return Ok(Piece::Token(kind, 1));
        }
    }
    match single(&[first]) {
        Some(kind) => Ok(Piece::Token(kind, 0)),
        None => Err(LexEnd::BadByte { spot }),
    }
}

/// The piece at the front of some bytes, which stand at a spot, or the fault there.
#[tactic(auto, unfolding(tht_grammar::specs::Pieces::piece, tht_grammar::specs::Pieces::word_run, tht_grammar::specs::Pieces::number_run, tht_grammar::specs::Pieces::comment_run))]
pub fn first_piece(bytes: &[u8], spot: Spot) -> Result<Piece, LexEnd>
    ensures { result ≡ view.answer_of (grammar.piece bytes.now) spot }
{
    let [first, rest @ ..] = bytes else {
        return Ok(Piece::Gap(0));
    };
    match class_of(*first) {
        Class::Blank => Ok(Piece::Gap(0)),
        Class::Hash => Ok(Piece::Gap(run_length(Run::Comment, rest))),
        Class::Letter => word(bytes, run_length(Run::Word, rest), spot),
        Class::Digit => number(bytes, run_length(Run::Number, rest), spot),
        Class::Other => symbol(*first, rest, spot),
    }
}
