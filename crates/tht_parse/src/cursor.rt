//! A cursor over the tokens of a source.
ghost use Rattle.std.specs.Prelude.{◌≡◌, length, map, All};
ghost use Rattle.tht_tree.specs.Tokens.{first_kind};
ghost use Rattle.tht_lex.specs.Tokens.{seen, IsTokenOf};
ghost use Rattle.tht_grammar.specs.Steps.{same_kind, is, rest, first_spot, first_text, first_value, expect};
ghost use Rattle.tht_parse.specs.Readings.{Reads};

use crate::stop::{Fault, Stop};
use std::marker::Model;
use tht_lex::Token;
use tht_tree::plain::Spot;
use tht_tree::token::TokenKind;

/// The tokens that are not read yet, which contracts see as the grammar does.
#[derive(Drop)]
pub struct Tokens<'a> {
    bytes: &'a [u8],
    left: &'a [Token],
}

impl<'a> Model for Tokens<'a> {
    ghost use Rattle.std.specs.Prelude.{List, map, All};
    ghost use Rattle.tht_tree.specs.Tokens.{Tok};
    ghost use Rattle.tht_lex.specs.Tokens.{seen, IsTokenOf};

    ghost Value = { List Tok };

    ghost view = { λ t. map (seen t.bytes.now) t.left.now };

    ghost invariant = { λ t. All (IsTokenOf t.bytes.now) t.left.now };
}

#[tactic(auto, unfolding(tht_grammar::specs::Steps::same_kind))]
fn is_kind(found: TokenKind, kind: TokenKind) -> bool
    ensures { result ≡ same_kind found kind }
{
    found == kind
}

impl<'a> Tokens<'a> {
    /// A cursor before the first of these tokens of the bytes.
    pub fn new(bytes: &'a [u8], tokens: &'a [Token]) -> Tokens<'a>
        requires { All (IsTokenOf bytes.now) tokens.now }
        ensures { result ≡ map (seen bytes.now) tokens.now }
    {
        Tokens {
            bytes,
            left: tokens,
        }
    }

    /// How many tokens are left.
    pub fn len(&self) -> usize
        ensures { result ≡ length self.now }
    {
        self.left.len()
    }

    /// The kind of the next token.
    pub fn peek(&self) -> Option<TokenKind>
        ensures { result ≡ first_kind self.now }
    {
        match self.left {
            [] => None,
            [token, ..] => Some(token.kind),
        }
    }

    /// Whether the next token is of this kind.
    pub fn sees(&self, kind: TokenKind) -> bool
        ensures { result ≡ is kind (first_kind self.now) }
    {
        match self.peek() {
            None => false,
            Some(found) => is_kind(found, kind),
        }
    }

    /// The spot of the next token, or line 0 at the end.
    #[tactic(auto, unfolding(tht_grammar::specs::Steps::first_spot))]
    pub fn spot(&self) -> Spot
        ensures { result ≡ first_spot self.now }
    {
        match self.left {
            [] => Spot { line: 0, column: 0 },
            [token, ..] => token.spot,
        }
    }

    /// The text of the next token, or nothing at the end.
    #[tactic(auto, unfolding(tht_grammar::specs::Steps::first_text))]
    pub fn text(&self) -> &'a str
        ensures { result.now ≡ first_text self.now }
    {
        match self.left {
            [] => "",
            [token, ..] => token.text(self.bytes),
        }
    }

    /// The value of the next token, or 0 at the end.
    #[tactic(auto, unfolding(tht_grammar::specs::Steps::first_value))]
    pub fn value(&self) -> u64
        ensures { result ≡ first_value self.now }
    {
        match self.left {
            [] => 0,
            [token, ..] => token.value(self.bytes),
        }
    }

    /// Goes past the next token, if there is one.
    #[tactic(auto, unfolding(tht_grammar::specs::Steps::rest))]
    pub fn advance(&mut self)
        ensures { self.new ≡ rest self.old }
    {
        if let [_, left @ ..] = self.left {
            self.left = left;
        }
    }

    /// Goes past the next token, which is to be of this kind.
    #[tactic(auto, unfolding(tht_grammar::specs::Steps::expect))]
    pub fn expect(&mut self, kind: TokenKind) -> Result<(), Stop>
        ensures { Reads (expect kind self.old) result self.new }
    {
        if !self.sees(kind) {
            return Err(Stop::Fault(Fault::Unexpected));
        }
        self.advance();
        Ok(())
    }
}
