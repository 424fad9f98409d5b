//! Why bytes have no tokens.

use std::alloc::AllocError;
use tht_tree::plain::Spot;

/// Why bytes have no tokens: their first fault and the spot where it stands, or want of memory.
///
/// A bad byte begins no token and stands in no comment; a long name is a word of more than 64 bytes, and a big number is
/// 2^64 at least. The spot of these two is that of their first byte.
#[derive(Clone, Copy, Debug, PartialEq, Eq)]
pub enum LexEnd {
    BadByte { spot: Spot },
    LongName { spot: Spot },
    BigNumber { spot: Spot },
    Memory,
}

impl From<AllocError> for LexEnd {
    ghost use Rattle.std.specs.Prelude.{◌≡◌};
    ghost use Rattle.tht_lex.specs.declared.end.LexEnd.TheVariants.{Memory};

    ghost from_gives = { λ _ e. e ≡ Memory };

    fn from(_error: AllocError) -> LexEnd {
        LexEnd::Memory
    }
}
