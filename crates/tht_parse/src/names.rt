//! Names, numbers and sorts.
ghost use Rattle.std.specs.Prelude.{◌≡◌, ◌<◌, ◌≤◌};
ghost use Rattle.tht_grammar.specs.Reading as spec;
ghost use Rattle.tht_parse.specs.Readings.{Reads};

use crate::cursor::Tokens;
use crate::stop::{Fault, Stop};
use std::alloc::Global;
use tht_tree::plain::{Name, Sort};
use tht_tree::token::TokenKind;

/// The largest offset.
const MAX_OFFSET: u64 = 7;

/// A name.
#[tactic(auto, unfolding(tht_grammar::specs::Reading::name))]
pub fn name(alloc: Global, tokens: &mut Tokens<'_>) -> Result<Name, Stop>
    ensures { Reads (spec.name tokens.old) result tokens.new }
{
    if !tokens.sees(TokenKind::Name) {
        return Err(Stop::Fault(Fault::Unexpected));
    }
    let text = String::from_str(alloc, tokens.text())?;
    tokens.advance();
    Ok(Name::new(text))
}

/// A number.
#[tactic(auto, unfolding(tht_grammar::specs::Reading::number))]
pub fn number(tokens: &mut Tokens<'_>) -> Result<u64, Stop>
    ensures { Reads (spec.number tokens.old) result tokens.new }
{
    if !tokens.sees(TokenKind::Num) {
        return Err(Stop::Fault(Fault::Unexpected));
    }
    let value = tokens.value();
    tokens.advance();
    Ok(value)
}

/// A number up to 7.
#[tactic(auto, unfolding(tht_grammar::specs::Reading::offset, tht_grammar::specs::Reading::number))]
pub fn offset(tokens: &mut Tokens<'_>) -> Result<u8, Stop>
    ensures { Reads (spec.offset tokens.old) result tokens.new }
{
    let value = tokens.value();
    if MAX_OFFSET < value {
        return Err(Stop::Fault(Fault::Unexpected));
    }
    number(tokens)?;
    Ok(value as u8)
}

fn sort_of(kind: Option<TokenKind>) -> Option<Sort>
    ensures { result ≡ spec.sort_kind kind }
{
    match kind {
        Some(TokenKind::Nat) => Some(Sort::Nat),
        Some(TokenKind::Bool) => Some(Sort::Bool),
        Some(TokenKind::Loc) => Some(Sort::Loc),
        Some(TokenKind::Unit) => Some(Sort::Unit),
        Some(TokenKind::Seq) => Some(Sort::Seq),
        _ => None,
    }
}

/// A sort.
#[tactic(auto, unfolding(tht_grammar::specs::Reading::sort))]
pub fn sort(tokens: &mut Tokens<'_>) -> Result<Sort, Stop>
    ensures { Reads (spec.sort tokens.old) result tokens.new }
{
    let Some(found) = sort_of(tokens.peek()) else {
        return Err(Stop::Fault(Fault::Unexpected));
    };
    tokens.advance();
    Ok(found)
}
