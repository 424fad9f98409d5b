// Why a proof was not accepted.
ghost use Rattle.std.specs.Prelude.{◌≡◌};
ghost use Rattle.pure_proofs.specs.declared.refusal.Refusal.TheVariants.{Memory as OutOfMemory};

use std::alloc::{AllocError, AllocFailed};
use tht_tree::plain::Memory;
use tht_tree::rule::RuleRefusal;

/// Why a proof was not accepted.
#[derive(Clone, Copy, Debug, PartialEq, Eq)]
pub enum Refusal {
    /// A rule refuses it.
    Rule(RuleRefusal),
    /// Want of memory.
    Memory,
}

impl From<AllocError> for Refusal {
    ghost from_gives = { λ _ e. e ≡ OutOfMemory };

    fn from(_e: AllocError) -> Refusal {
        Refusal::Memory
    }
}

impl<T: Drop> From<AllocFailed<T>> for Refusal {
    ghost from_gives = { λ _ e. e ≡ OutOfMemory };

    fn from(_e: AllocFailed<T>) -> Refusal {
        Refusal::Memory
    }
}

impl From<Memory> for Refusal {
    ghost from_gives = { λ _ e. e ≡ OutOfMemory };

    fn from(_e: Memory) -> Refusal {
        Refusal::Memory
    }
}
