//! Tokens: ranges of the bytes that they were read from.
ghost use Rattle.std.specs.Prelude.{◌≡◌};
ghost use Rattle.std.specs.Str.{IsAscii};
ghost use Rattle.tht_lex.specs.Tokens.{text_of, value_of, IsTokenOf};

use crate::numbers::number_of;
use tht_tree::plain::Spot;
use tht_tree::token::TokenKind;

/// Bytes below 128 as a text.
fn as_text(bytes: &[u8]) -> &str
    requires { IsAscii bytes.now }
    ensures { result.now ≡ bytes.now }
{
    match str::from_utf8(bytes) {
        Ok(text) => text,
        Err(_) => unreachable!(),
    }
}

/// A token: its kind, the range `from..to` of the bytes that it was read from, and the spot of its first byte.
#[derive(Clone, Copy, Debug)]
pub struct Token {
    pub kind: TokenKind,
    pub from: u32,
    pub to: u32,
    pub spot: Spot,
}

impl Token {
    /// The text of a token of these bytes.
    pub fn text(self, bytes: &[u8]) -> &str
        requires { IsTokenOf bytes.now self }
        ensures { result.now ≡ text_of bytes.now self }
    {
        as_text(&bytes[self.from as usize..self.to as usize])
    }

    /// The number that a token of these bytes writes, or 0 where it is no number.
    pub fn value(self, bytes: &[u8]) -> u64
        requires { IsTokenOf bytes.now self }
        ensures { result ≡ value_of self.kind (text_of bytes.now self) }
    {
        match self.kind {
            TokenKind::Num => match number_of(&bytes[self.from as usize..self.to as usize]) {
                Some(value) => value,
                None => unreachable!(),
            },
            _ => 0,
        }
    }
}
