// The tokens of names with their sorts, and of numbers.
ghost use Rattle.std.specs.Prelude.{◌≡◌, ◌∷◌, map, OnOk};
ghost use Rattle.tht_tree.specs.Layout as layout;
ghost use Rattle.tht_tree.specs.Layout.{name, number};
ghost use Rattle.tht_print.specs.Tokens.{tokens_of};

use crate::tokens::Tokens;
use std::alloc::AllocError;
use tht_tree::decl::Param;
use tht_tree::plain::{Name, Sort};
use tht_tree::token::TokenKind;

fn sort_word(sort: Sort) -> TokenKind
    ensures { result ≡ layout.sort_word sort }
{
    match sort {
        Sort::Nat => TokenKind::Nat,
        Sort::Bool => TokenKind::Bool,
        Sort::Loc => TokenKind::Loc,
        Sort::Unit => TokenKind::Unit,
        Sort::Seq => TokenKind::Seq,
    }
}

/// Puts a name with its sort before the tokens.
pub fn sorted<'a>(name: &'a Name, sort: Sort, out: &mut Tokens<'a>) -> Result<(), AllocError>
    ensures { OnOk result (tokens_of out.new ≡ layout.sorted name.now sort (tokens_of out.old)) }
{
    out.word(sort_word(sort))?;
    out.word(TokenKind::Colon)?;
    out.name(name)
}

/// Puts a word and a name before the tokens.
pub fn named<'a>(word: TokenKind, name: &'a Name, out: &mut Tokens<'a>) -> Result<(), AllocError>
    ensures { OnOk result (tokens_of out.new ≡ layout.◌▹◌ word (layout.name name.now ∷ tokens_of out.old)) }
{
    out.name(name)?;
    out.word(word)
}

/// Puts a word and a number before the tokens.
pub fn numbered<'a>(word: TokenKind, value: u64, out: &mut Tokens<'a>) -> Result<(), AllocError>
    ensures { OnOk result (tokens_of out.new ≡ layout.◌▹◌ word (number value ∷ tokens_of out.old)) }
{
    out.number(u128::from(value))?;
    out.word(word)
}

/// Puts parameters with commas between them before the tokens.
#[tactic(auto, using(crate::proofs::Lists::commas_last))]
pub fn listed<'a>(params: &'a [Param], out: &mut Tokens<'a>) -> Result<(), AllocError>
    ensures { OnOk result (tokens_of out.new ≡ layout.commas (map layout.param params.now) (tokens_of out.old)) }
{
    let mut rest = params;
    while let Some((param, front)) = rest.split_last() {
        sorted(&param.name, param.sort, out)?;
        if !front.is_empty() {
            out.word(TokenKind::Comma)?;
        }
        rest = front;
    }
    Ok(())
}

/// Puts parameters in parentheses before the tokens.
pub fn params<'a>(params: &'a [Param], out: &mut Tokens<'a>) -> Result<(), AllocError>
    ensures { OnOk result (tokens_of out.new ≡ layout.params params.now (tokens_of out.old)) }
{
    out.word(TokenKind::RParen)?;
    listed(params, out)?;
    out.word(TokenKind::LParen)
}

/// Puts numbers in parentheses before the tokens.
#[tactic(auto, using(crate::proofs::Lists::commas_last))]
pub fn numbers<'a>(values: &'a [u64], out: &mut Tokens<'a>) -> Result<(), AllocError>
    ensures { OnOk result (tokens_of out.new ≡ layout.numbers values.now (tokens_of out.old)) }
{
    out.word(TokenKind::RParen)?;
    let mut rest = values;
    while let Some((value, front)) = rest.split_last() {
        out.number(u128::from(*value))?;
        if !front.is_empty() {
            out.word(TokenKind::Comma)?;
        }
        rest = front;
    }
    out.word(TokenKind::LParen)
}
