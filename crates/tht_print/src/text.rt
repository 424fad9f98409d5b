// The text of tokens.
ghost use Rattle.std.specs.Prelude.{◌≡◌, ◌++◌, ◌∷◌, [], string_bytes, OnOk};
ghost use Rattle.tht_tree.specs.Layout as layout;
ghost use Rattle.tht_print.specs.Tokens.{shape_of, tokens_of};

use crate::tokens::{Token, Tokens};
use crate::words::word_text;
use std::alloc::AllocError;
use tht_tree::token::TokenKind;

// Writes a token without what separates it from the next.
fn write_token(token: Token<'_>, text: &mut String) -> Result<(), AllocError>
    ensures { OnOk result (string_bytes text.new ≡ string_bytes text.old ++ layout.shape_text (shape_of token.entry)) }
{
    match token {
        Token::Word(kind) => text.push_str(word_text(kind)),
        Token::Name(name) => text.push_str(name.as_str()),
        Token::Number(value) => write!(text, "{value}"),
    }
}

// What stands behind a token inside a line or at its end.
fn gap_after(token: Token<'_>) -> &'static str
    ensures { result.now ≡ layout.gap (shape_of token.entry) ∷ [] }
{
    match token {
        Token::Word(TokenKind::Semicolon) => "\n",
        _ => " ",
    }
}

/// Writes the tokens on lines of their own.
pub fn write_lines(tokens: Tokens<'_>, text: &mut String) -> Result<(), AllocError>
    ensures { OnOk result (string_bytes text.new ≡ string_bytes text.old ++ layout.lines (tokens_of tokens.entry)) }
{
    let mut left = tokens;
    while let Some(token) = left.pop() {
        write_token(token, text)?;
        if left.is_empty() {
            return text.push_str("\n");
        }
        text.push_str(gap_after(token))?;
    }
    Ok(())
}
