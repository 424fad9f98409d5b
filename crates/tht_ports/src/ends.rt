//! Whole reads and writes.

ghost use Rattle.std.specs.Prelude.{◌≡◌, ◌≤◌, ◌<◌, length, take, IfOk, IfErr, IfSome, IsErr, OnOk, IsErrOf};
ghost use Rattle.std.specs.Io.KnownBytes.{Appends, IsAtEnd};
ghost use Rattle.tht_ports.specs.Causes.{HasCause};
ghost use Rattle.tht_ports.specs.Ends.{LosesFront, ReadCause, sent_before};

use crate::{Failed, Sink, Source};
use std::alloc::Global;
use thiserror::Error;

/// Want of memory.
#[derive(Clone, Copy, Debug, PartialEq, Eq, Error)]
#[error("out of memory")]
pub struct Memory;

/// Why a whole read ended without its bytes.
#[derive(Debug, Drop, Error)]
pub enum ReadEnd {
    /// A pull failed.
    #[error("a read failed")]
    Fault,
    /// More bytes came than the limit allows.
    #[error("the input is too long")]
    TooLong,
    /// There was no memory for the bytes.
    #[error("out of memory")]
    Memory,
}

/// Why a whole write ended before its last byte.
#[derive(Debug, Drop, Error)]
pub enum WriteEnd {
    /// A push failed, after the first `sent` bytes had been appended.
    #[error("a write failed after {sent} bytes")]
    Fault {
        /// How many bytes were appended, fewer than there were to write.
        sent: usize,
    },
}

/// Reads all that is left, where that is at most `limit` bytes.
#[tactic(auto, using(crate::proofs::Moves::loses_more))]
pub fn read_all<S: Source>(alloc: Global, source: &mut S, limit: usize) -> Result<Vec<u8>, ReadEnd>
    // At `Ok` the bytes are all that was left, and nothing is left. An error has taken some of
    // the first bytes from the source.
    ensures bytes { IfOk result (λ bytes. IfSome (S.left source.old) (λ all. bytes.items ≡ all)) }
    ensures end { OnOk result (IsAtEnd (S.left source.new)) }
    ensures rest { LosesFront (S.left source.old) (S.left source.new) }

    // `TooLong` comes only for more than `limit` bytes, and more than `limit` bytes are never `Ok`.
    ensures fits { IfOk result (λ bytes. length bytes.items ≤ limit) }
    ensures too_long { IsErrOf result ReadEnd.TooLong →
        IfSome (S.left source.old) (λ all. limit < length all) }
    ensures long { IfSome (S.left source.old) (λ all. limit < length all → IsErr result) }

    // `Fault` comes only from the source.
    ensures cause { ReadCause (S.faults source.old) (S.faults source.new) result }
{
    let mut bytes = Vec::new(alloc);
    let mut chunk = [0; 4096];
    loop {
        let count = source.pull(&mut chunk).map_err(|_| ReadEnd::Fault)?;
        if count == 0 {
            return Ok(bytes);
        }
        if limit - bytes.len() < count {
            return Err(ReadEnd::TooLong);
        }
        bytes
            .extend_from_slice(&chunk[..count])
            .map_err(|_| ReadEnd::Memory)?;
    }
}

/// Writes all the bytes.
pub fn write_all<T: Sink>(sink: &mut T, bytes: &[u8]) -> Result<(), WriteEnd>
    // At `Ok` all the bytes were appended, and at a fault the first ones, fewer than all.
    ensures written { OnOk result (Appends (T.written sink.old) (T.written sink.new) bytes.now) }
    ensures sent { IfErr result (λ end.
        Appends (T.written sink.old) (T.written sink.new) (take (sent_before end) bytes.now)) }
    ensures part { IfErr result (λ end. sent_before end < length bytes.now) }

    // A fault comes only from the sink.
    ensures cause { HasCause (T.faults sink.old) (T.faults sink.new) result }
{
    let mut sent = 0;
    while sent < bytes.len() {
        match sink.push(&bytes[sent..]) {
            Ok(count) => sent += count,
            Err(Failed) => return Err(WriteEnd::Fault { sent }),
        }
    }
    Ok(())
}
