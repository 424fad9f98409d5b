//! From bytes to a file.
ghost use Rattle.std.specs.Prelude.{◌≡◌, ◌≤◌, length, IfOk, IfErr};
ghost use Rattle.tht_tree.specs.declared.file.Source1.{Source1};
ghost use Rattle.tht_tree.specs.Faults.{spot_in};
ghost use Rattle.tht_tree.specs.Spelling.{IsSpelled};
ghost use Rattle.tht_parse.specs.Ends.{IsFirstFault, IsOkOrMemory};
ghost use Rattle.tht_parse.specs.Stopping.{end_of};

use crate::cursor::Tokens;
use crate::end::ParseEnd;
use crate::file::whole;
use crate::stop::{Fault, Stop};
use std::alloc::Global;
use tht_lex::{lex, spot_after};
use tht_tree::file::Source1;
use tht_tree::plain::Spot;

/// The spot of the next token, or the one behind the last byte.
#[tactic(auto, unfolding(tht_grammar::specs::Steps::first_spot, tht_grammar::specs::Pieces::after_all))]
fn spot_of(bytes: &[u8], tokens: &Tokens<'_>) -> Spot
    requires { length bytes.now ≤ 1048576 }
    ensures { result ≡ spot_in bytes.now tokens.now }
{
    match tokens.peek() {
        Some(_) => tokens.spot(),
        None => spot_after(Spot { line: 1, column: 1 }, bytes),
    }
}

/// The end of parsing that stopped before these tokens of the bytes.
fn stopped(bytes: &[u8], tokens: &Tokens<'_>, stop: Stop) -> ParseEnd
    requires { length bytes.now ≤ 1048576 }
    ensures { result ≡ end_of bytes.now tokens.now stop }
{
    let spot = spot_of(bytes, tokens);
    match stop {
        Stop::Fault(Fault::Unexpected) => ParseEnd::Unexpected {
            spot,
            found: tokens.peek(),
        },
        Stop::Fault(Fault::Deep) => ParseEnd::Deep { spot },
        Stop::Fault(Fault::Many) => ParseEnd::Many { spot },
        Stop::Fault(Fault::Version) => ParseEnd::Version { spot },
        Stop::Memory => ParseEnd::Memory,
    }
}

/// The file that at most 1,048,576 bytes spell.
///
/// `Err` tells their first fault and where it stands: a fault of a token before any fault of the grammar. It comes exactly
/// where the bytes spell no file, or as `Memory`.
pub fn parse(alloc: Global, bytes: &[u8]) -> Result<Source1, ParseEnd>
    requires { length bytes.now ≤ 1048576 }
    // What is read is spelled by the bytes.
    ensures ok { IfOk result (λ file. IsSpelled file bytes.now) }
    // What the bytes spell is read, unless memory runs out.
    ensures only { (file : Source1) → IsSpelled file bytes.now → IsOkOrMemory result file }
    // An error is the first fault of the bytes, unless memory ran out.
    ensures fault { IfErr result (IsFirstFault bytes.now) }
{
    let found = lex(alloc, bytes)?;
    let mut tokens = Tokens::new(bytes, &found);
    match whole(alloc, &mut tokens) {
        Ok(file) => Ok(file.into_inner()),
        Err(stop) => Err(stopped(bytes, &tokens, stop)),
    }
}
