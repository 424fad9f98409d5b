//! From bytes to tokens.
//!
//! `lex` splits a source into its tokens. A token is a range of the bytes with its kind and its spot; `Token::text` and
//! `Token::value` read it back from the same bytes.
#![tactic(auto)]

mod end;
mod laws;
mod lexer;
mod numbers;
mod pieces;
mod token;
mod words;

pub use end::LexEnd;
pub use laws::one_split;
pub use lexer::{lex, spot_after};
pub use token::Token;
