//! What the program reads and writes through. Code over these traits cannot raise a count of
//! faults by itself.

ghost use Rattle.std.specs.Prelude.{◌↔◌, List, ℕ, IsTrue, Contains};
ghost use Rattle.std.specs.declared.option.Option.{Option};
ghost use Rattle.std.specs.Io.{ReadsAtMost};
ghost use Rattle.std.specs.Io.KnownBytes.{ReadConsumes, WriteAppends};
ghost use Rattle.tht_ports.specs.Causes.{GivesNoneAtEnd, HasCause, TakesSome};

use thiserror::Error;

/// A read or a write that did not come about.
#[derive(Clone, Copy, Debug, PartialEq, Eq, Error)]
#[error("a read or a write failed")]
pub struct Failed;

/// Where bytes come from.
pub trait Source {
    /// The bytes that are left, where they are told.
    ghost left: { Self → Option (List ℕ) };

    /// How often a pull has failed.
    ghost faults: { Self → ℕ };

    /// Moves the first bytes that are left to the front of `into`, and returns how many, at most
    /// `into.len()`.
    ///
    /// It returns 0 at a slice that is not empty exactly where nothing is left. It fails only with
    /// a fault that it counts, and then all that was left is left still.
    fn pull(&mut self, into: &mut [u8]) -> Result<usize, Failed>
        ensures bound { ReadsAtMost result into.new }
        ensures bytes { ReadConsumes (left self.old) (left self.new) result into.new }
        ensures end { GivesNoneAtEnd (left self.old) result into.new }
        ensures cause { HasCause (faults self.old) (faults self.new) result };
}

/// Where bytes go.
pub trait Sink {
    /// The bytes that were written, where they are told.
    ghost written: { Self → Option (List ℕ) };

    /// How often a push has failed.
    ghost faults: { Self → ℕ };

    /// Appends the first bytes of `piece`, and returns how many, at most `piece.len()`, and at
    /// least 1 of a piece that is not empty.
    ///
    /// It fails only with a fault that it counts, and then it has appended none.
    fn push(&mut self, piece: &[u8]) -> Result<usize, Failed>
        ensures bound { TakesSome result piece.now }
        ensures bytes { WriteAppends (written self.old) (written self.new) result piece.now }
        ensures cause { HasCause (faults self.old) (faults self.new) result };
}

/// Whether a call with this number is to fail.
pub(crate) fn stands_in(number: u64, fails: &[u32]) -> bool
    ensures { IsTrue result ↔ Contains fails.now number }
{
    fails.iter().any(|fail| u64::from(*fail) == number)
}
