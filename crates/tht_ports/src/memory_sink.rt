//! A sink into memory, whose pushes fail by a list and where its room is used up.

ghost use Rattle.std.specs.Prelude.{◌≡◌, ◌≤◌, ◌<◌, ◌↔◌, ◌⊎◌, ◌-◌, ◌++◌, length, take, min, Contains, IsErr, IfOk, MatchResult, vec_capacity, Some};
ghost use Rattle.std.specs.Io.KnownBytes.{WriteAppends};
ghost use Rattle.tht_ports.specs.Causes.{HasCause, TakesSome, next_count};
ghost use Rattle.tht_ports.specs.Memory.{MemoryOutput, new_output};

use crate::ports::stands_in;
use crate::{Failed, Memory, Sink};
use std::alloc::Global;
use std::marker::Model;

/// Room in memory, which tells what was written to it. It takes the room when it is made, and no
/// memory later.
#[derive(Debug, Drop)]
pub struct MemSink {
    bytes: Vec<u8>,
    room: usize,
    fails: Vec<u32>,
    pushes: u64,
    faults: u64,
    most: usize,
}

impl Model for MemSink {
    ghost Value = { MemoryOutput };

    ghost view = { λ s. record {
      written = s.bytes.items;
      room = s.room;
      fails = s.fails.items;
      pushes = s.pushes;
      faults = s.faults;
      most = s.most;
    } };

    ghost invariant = { λ s.
        (length s.bytes.items ≤ s.room) × (s.room ≤ vec_capacity s.bytes) × (1 ≤ s.most) };
}

impl MemSink {
    /// An empty sink with room for `room` bytes, in which the pushes with the numbers in `fails`
    /// fail. The first push has number 1. It fails only for want of memory.
    pub fn new(alloc: Global, room: usize, fails: Vec<u32>) -> Result<Self, Memory>
        ensures { IfOk result (λ sink. sink ≡ new_output room fails.items usize.MAX) }
    {
        MemSink::drip(alloc, room, fails, usize::MAX)
    }

    /// The same, where a push takes at most `most` bytes, which is at least 1.
    pub fn drip(alloc: Global, room: usize, fails: Vec<u32>, most: usize) -> Result<Self, Memory>
        requires { 1 ≤ most }
        ensures { IfOk result (λ sink. sink ≡ new_output room fails.items most) }
    {
        let bytes = Vec::with_capacity(alloc, room).map_err(|_| Memory)?;
        Ok(MemSink {
            bytes,
            room,
            fails,
            pushes: 0,
            faults: 0,
            most,
        })
    }

    /// The bytes that were written.
    pub fn bytes(&self) -> &[u8]
        ensures { result.now ≡ self.now.written }
    {
        &self.bytes
    }
}

impl Sink for MemSink {
    ghost written = { λ s. Some s.written };

    ghost faults = { λ s. s.faults };

    fn push(&mut self, piece: &[u8]) -> Result<usize, Failed>
        // What every sink does.
        ensures bound { TakesSome result piece.now }
        ensures bytes { WriteAppends (Some self.old.written) (Some self.new.written) result piece.now }
        ensures cause { HasCause self.old.faults self.new.faults result }

        // It fails exactly where its number stands in the list, or where the piece has bytes and
        // no room is left. Otherwise it takes all that it may.
        ensures fails { IsErr result ↔ (Contains self.old.fails (next_count self.old.pushes)
            ⊎ ((0 < length piece.now) × (self.old.room ≤ length self.old.written))) }
        ensures count { IfOk result (λ n. n ≡ min self.old.most
            (min (length piece.now) (self.old.room - length self.old.written))) }

        // What it changes in the sink.
        ensures after { MatchResult result
            (λ n. self.new ≡ record self.old {
              written = self.old.written ++ take n piece.now;
              pushes = next_count self.old.pushes;
            })
            (λ _. self.new ≡ record self.old {
              pushes = next_count self.old.pushes;
              faults = next_count self.old.faults;
            }) }
    {
        self.pushes = self.pushes.saturating_add(1);
        let free = self.room - self.bytes.len();
        if stands_in(self.pushes, &self.fails) || (!piece.is_empty() && free == 0) {
            self.faults = self.faults.saturating_add(1);
            return Err(Failed);
        }
        let count = self.most.min(piece.len().min(free));
        self.bytes.extend_from_slice(&piece[..count]).unwrap();
        Ok(count)
    }
}
