//! A source over bytes in memory, whose pulls fail by a list.

ghost use Rattle.std.specs.Prelude.{◌≡◌, ◌≤◌, ◌↔◌, length, drop, take, min, Contains, IsErr, IfOk, MatchResult, Some};
ghost use Rattle.std.specs.Io.{ReadsAtMost};
ghost use Rattle.std.specs.Io.KnownBytes.{ReadConsumes};
ghost use Rattle.tht_ports.specs.Causes.{GivesNoneAtEnd, HasCause, next_count};
ghost use Rattle.tht_ports.specs.Memory.{MemoryInput, new_input};

use crate::ports::stands_in;
use crate::{Failed, Source};
use std::marker::Model;

/// Bytes in memory, which tells what is left of them.
#[derive(Debug, Drop)]
pub struct MemSource {
    bytes: Vec<u8>,
    at: usize,
    fails: Vec<u32>,
    pulls: u64,
    faults: u64,
    most: usize,
}

impl Model for MemSource {
    ghost Value = { MemoryInput };

    ghost view = { λ s. record {
      left = drop s.at s.bytes.items;
      fails = s.fails.items;
      pulls = s.pulls;
      faults = s.faults;
      most = s.most;
    } };

    ghost invariant = { λ s. (s.at ≤ length s.bytes.items) × (1 ≤ s.most) };
}

impl MemSource {
    /// A source of these bytes, in which the pulls with the numbers in `fails` fail. The first
    /// pull has number 1.
    pub fn new(bytes: Vec<u8>, fails: Vec<u32>) -> Self
        ensures { result ≡ new_input bytes.items fails.items usize.MAX }
    {
        MemSource::drip(bytes, fails, usize::MAX)
    }

    /// The same, where a pull moves at most `most` bytes, which is at least 1.
    pub fn drip(bytes: Vec<u8>, fails: Vec<u32>, most: usize) -> Self
        requires { 1 ≤ most }
        ensures { result ≡ new_input bytes.items fails.items most }
    {
        MemSource {
            bytes,
            at: 0,
            fails,
            pulls: 0,
            faults: 0,
            most,
        }
    }
}

impl Source for MemSource {
    ghost left = { λ s. Some s.left };

    ghost faults = { λ s. s.faults };

    fn pull(&mut self, into: &mut [u8]) -> Result<usize, Failed>
        // What every source does.
        ensures bound { ReadsAtMost result into.new }
        ensures bytes { ReadConsumes (Some self.old.left) (Some self.new.left) result into.new }
        ensures end { GivesNoneAtEnd (Some self.old.left) result into.new }
        ensures cause { HasCause self.old.faults self.new.faults result }

        // It fails exactly where its number stands in the list, and otherwise moves all that it may.
        ensures fails { IsErr result ↔ Contains self.old.fails (next_count self.old.pulls) }
        ensures count { IfOk result (λ n.
            n ≡ min self.old.most (min (length into.new) (length self.old.left))) }

        // What it changes, in the slice and in the source.
        ensures slice { MatchResult result
            (λ n. drop n into.new ≡ drop n into.old)
            (λ _. into.new ≡ into.old) }
        ensures after { MatchResult result
            (λ n. self.new ≡ record self.old {
              left = drop n self.old.left;
              pulls = next_count self.old.pulls;
            })
            (λ _. self.new ≡ record self.old {
              pulls = next_count self.old.pulls;
              faults = next_count self.old.faults;
            }) }
    {
        self.pulls = self.pulls.saturating_add(1);
        if stands_in(self.pulls, &self.fails) {
            self.faults = self.faults.saturating_add(1);
            return Err(Failed);
        }
        let count = move_front(&self.bytes[self.at..], into, self.most);
        self.at += count;
        Ok(count)
    }
}

/// Moves at most `most` bytes to the front of `into`, and returns how many.
fn move_front(bytes: &[u8], into: &mut [u8], most: usize) -> usize
    ensures count { result ≡ min most (min (length into.new) (length bytes.now)) }
    ensures front { take result into.new ≡ take result bytes.now }
    ensures rest { drop result into.new ≡ drop result into.old }
{
    let count = most.min(into.len().min(bytes.len()));
    into[..count].copy_from_slice(&bytes[..count]);
    count
}
