//! From bytes to tokens.
ghost use Rattle.std.specs.Prelude.{◌≡◌, ◌<◌, ◌≤◌, ◌+◌, ◌^◌, ◌++◌, length, map, All, OnOk, IfOk, IfErr, Ok};
ghost use Rattle.std.specs.List.{AllPairs};
ghost use Rattle.tht_tree.specs.Splitting.{start_spot, Splits};
ghost use Rattle.tht_grammar.specs.Pieces.{after_all};
ghost use Rattle.tht_lex.specs.Tokens.{seen, IsTokenOf, Precedes, IsFirstFault};
ghost use Rattle.tht_lex.specs.Pieces.{size_of, tokens_at};

use crate::end::LexEnd;
use crate::pieces::{Piece, first_piece};
use crate::token::Token;
use std::alloc::{AllocError, Global};
use tht_tree::plain::Spot;

/// The spot after some bytes that begin at this spot: a line feed begins a new line, any other byte is one column.
#[tactic(auto, unfolding(tht_grammar::specs::Pieces::after_all))]
pub fn spot_after(spot: Spot, text: &[u8]) -> Spot
    requires lines_fit { spot.line + length text.now < 2 ^ 32 }
    requires columns_fit { spot.column + length text.now < 2 ^ 32 }
    ensures value { result ≡ after_all spot text.now }
    ensures line { result.line ≤ spot.line + length text.now }
    ensures column { result.column ≤ spot.column + length text.now }
{
    let mut after = spot;
    for byte in text {
        after = if *byte == b'\n' {
            Spot {
                line: after.line + 1,
                column: 1,
            }
        } else {
            Spot {
                line: after.line,
                column: after.column + 1,
            }
        };
    }
    after
}

/// Adds the token that the piece is, if it is one.
fn keep(tokens: &mut Vec<Token>, piece: Piece, from: usize, spot: Spot) -> Result<(), AllocError>
    requires { from + size_of piece < 2 ^ 32 }
    ensures { OnOk result (tokens.new.items ≡ tokens.old.items ++ tokens_at from spot piece) }
{
    if let Piece::Token(kind, _) = piece {
        tokens.push(Token {
            kind,
            from: from as u32,
            to: (from + piece.len()) as u32,
            spot,
        })?;
    }
    Ok(())
}

/// The tokens of a source of at most 1,048,576 bytes, up to its end, or its first fault.
///
/// `Err(BadByte)`, `Err(LongName)` and `Err(BigNumber)` come exactly where that is the first fault, unless memory runs out.
pub fn lex(alloc: Global, bytes: &[u8]) -> Result<Vec<Token>, LexEnd>
    requires { length bytes.now ≤ 1048576 }
    // The bytes split into these tokens.
    ensures tokens { IfOk result (λ ts. Splits start_spot bytes.now (Ok (map (seen bytes.now) ts.items))) }
    // Each token is a range of the bytes,
    ensures ranges { IfOk result (λ ts. All (IsTokenOf bytes.now) ts.items) }
    // and each later one lies behind it.
    ensures in_order { IfOk result (λ ts. AllPairs Precedes ts.items) }
    // An error is the first fault of the bytes, unless memory ran out.
    ensures fault { IfErr result (IsFirstFault bytes.now) }
{
    let mut tokens = Vec::new(alloc);
    let mut spot = Spot { line: 1, column: 1 };
    let mut at = 0;
    while at < bytes.len() {
        let left = &bytes[at..];
        let piece = first_piece(left, spot)?;
        let taken = piece.len();
        keep(&mut tokens, piece, at, spot)?;
        spot = spot_after(spot, &left[..taken]);
        at += taken;
    }
    Ok(tokens)
}
