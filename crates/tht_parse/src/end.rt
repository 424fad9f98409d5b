//! Why bytes were not read.
use thiserror::Error;
use tht_lex::LexEnd;
use tht_tree::plain::Spot;
use tht_tree::token::TokenKind;

/// Why bytes were not read: their first fault and its spot, or want of memory.
///
/// A bad byte, a long name and a big number are faults of the tokens and come before all others. A token is unexpected where the
/// tokens before it begin a file and with it do not; at the end of the input there is none, and the spot is the one behind the
/// last byte. Deep is the first token of a construct that is the 101st open one; many is an operator, an entry or a declaration
/// that is one too many; version is one that is not 1.
#[derive(Clone, Copy, Debug, PartialEq, Eq, Error)]
pub enum ParseEnd {
    #[error("a byte begins no token")]
    BadByte {
        spot: Spot,
    },
    #[error("a name has more than 64 bytes")]
    LongName {
        spot: Spot,
    },
    #[error("a number is 2^64 or more")]
    BigNumber {
        spot: Spot,
    },
    #[error("a token is unexpected")]
    Unexpected {
        spot: Spot,
        found: Option<TokenKind>,
    },
    #[error("too many constructs are open")]
    Deep {
        spot: Spot,
    },
    #[error("there is one too many")]
    Many {
        spot: Spot,
    },
    #[error("the version is unknown")]
    Version {
        spot: Spot,
    },
    #[error("memory ran out")]
    Memory,
}

impl From<LexEnd> for ParseEnd {
    ghost use Rattle.std.specs.Prelude.{◌≡◌};
    ghost use Rattle.tht_parse.specs.Lexed.{lexed};

    ghost from_gives = { λ end e. e ≡ lexed end };

    fn from(end: LexEnd) -> ParseEnd {
        match end {
            LexEnd::BadByte { spot } => ParseEnd::BadByte { spot },
            LexEnd::LongName { spot } => ParseEnd::LongName { spot },
            LexEnd::BigNumber { spot } => ParseEnd::BigNumber { spot },
            LexEnd::Memory => ParseEnd::Memory,
        }
    }
}
