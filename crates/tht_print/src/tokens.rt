// The tokens that are to be printed.
ghost use Rattle.std.specs.Prelude.{◌≡◌, ◌∷◌, ◌↔◌, [], IsTrue, MatchOption, OnOk};
ghost use Rattle.tht_tree.specs.Layout.{word, name, number, starts_with_star};
ghost use Rattle.tht_print.specs.Tokens.{shape_of, tokens_of};

use std::alloc::{AllocError, Global};
use tht_tree::plain::Name;
use tht_tree::token::TokenKind;

/// A token: a reserved word or a symbol, a name, or a number.
#[derive(Clone, Copy)]
pub enum Token<'a> {
    Word(TokenKind),
    Name(&'a Name),
    Number(u128),
}

/// A stack of tokens, of which the top is printed first.
#[derive(Drop)]
pub struct Tokens<'a> {
    stack: Vec<Token<'a>>,
}

#[tactic(auto, unfolding(crate::specs::Tokens::tokens_of))]
impl<'a> Tokens<'a> {
    pub fn new(alloc: Global) -> Tokens<'a>
        ensures { tokens_of result ≡ [] }
    {
        Tokens {
            stack: Vec::new(alloc),
        }
    }

    /// Puts a token before the others.
    fn push(&mut self, token: Token<'a>) -> Result<(), AllocError>
        ensures { OnOk result (tokens_of self.new ≡ shape_of token.entry ∷ tokens_of self.old) }
    {
        self.stack.push(token)?;
        Ok(())
    }

    /// Puts a reserved word or a symbol before the others.
    pub fn word(&mut self, kind: TokenKind) -> Result<(), AllocError>
        ensures { OnOk result (tokens_of self.new ≡ word kind ∷ tokens_of self.old) }
    {
        self.push(Token::Word(kind))
    }

    /// Puts a name before the others.
    pub fn name(&mut self, text: &'a Name) -> Result<(), AllocError>
        ensures { OnOk result (tokens_of self.new ≡ name text.now ∷ tokens_of self.old) }
    {
        self.push(Token::Name(text))
    }

    /// Puts a number before the others.
    pub fn number(&mut self, value: u128) -> Result<(), AllocError>
        ensures { OnOk result (tokens_of self.new ≡ number value ∷ tokens_of self.old) }
    {
        self.push(Token::Number(value))
    }

    /// Takes the first token.
    pub fn pop(&mut self) -> Option<Token<'a>>
        ensures { MatchOption result (tokens_of self.old ≡ []) (λ token. tokens_of self.old ≡ shape_of token ∷ tokens_of self.new) }
    {
        self.stack.pop()
    }

    pub fn is_empty(&self) -> bool
        ensures { IsTrue result ↔ (tokens_of self.now ≡ []) }
    {
        self.stack.is_empty()
    }

    /// Whether a `*` comes first.
    pub fn starts_with_star(&self) -> bool
        ensures { result ≡ starts_with_star (tokens_of self.now) }
    {
        match self.stack.last() {
            Some(Token::Word(kind)) => *kind == TokenKind::Star,
            _ => false,
        }
    }
}
