//! Any reader and writer of std as a source and a sink, standard input and output among them.
//!
//! What these hold is told where the reader and the writer tell it, and so never of standard input
//! and standard output. Each error of theirs is a fault, one that an interrupt caused too, and so
//! is a write that takes no byte of a piece that is not empty.

ghost use Rattle.std.specs.Prelude.{◌≡◌, MatchResult};
ghost use Rattle.std.specs.Io.{ReadsAtMost};
ghost use Rattle.std.specs.Io.KnownBytes.{ReadConsumes, WriteAppends};
ghost use Rattle.tht_ports.specs.Causes.{GivesNoneAtEnd, HasCause, TakesSome, next_count};
ghost use Rattle.tht_ports.specs.Streams.{Counted};

use crate::{Failed, Sink, Source};
use std::io::{Read, Write};
use std::marker::Model;

/// A reader as a source, as of standard input.
#[derive(Debug, Drop)]
pub struct StdinSource<R: Read + Drop> {
    reader: R,
    faults: u64,
}

impl<R: Read + Drop> Model for StdinSource<R> {
    ghost Value = { Counted R };

    ghost view = { λ s. record { stream = s.reader; faults = s.faults } };
}

impl<R: Read + Drop> StdinSource<R> {
    /// This reader, none of whose reads has failed yet.
    pub fn new(reader: R) -> Self
        ensures { result ≡ record { stream = reader; faults = 0 } }
    {
        StdinSource { reader, faults: 0 }
    }
}

impl<R: Read + Drop> Source for StdinSource<R> {
    ghost left = { λ s. R.remaining s.stream };

    ghost faults = { λ s. s.faults };

    fn pull(&mut self, into: &mut [u8]) -> Result<usize, Failed> {
        match self.reader.read(into) {
            Ok(count) => Ok(count),
            Err(_) => {
                self.faults = self.faults.saturating_add(1);
                Err(Failed)
            }
        }
    }
}

/// A writer as a sink, as of standard output.
#[derive(Debug, Drop)]
pub struct StdoutSink<W: Write + Drop> {
    writer: W,
    faults: u64,
}

impl<W: Write + Drop> Model for StdoutSink<W> {
    ghost Value = { Counted W };

    ghost view = { λ s. record { stream = s.writer; faults = s.faults } };
}

impl<W: Write + Drop> StdoutSink<W> {
    /// This writer, none of whose writes has failed yet.
    pub fn new(writer: W) -> Self
        ensures { result ≡ record { stream = writer; faults = 0 } }
    {
        StdoutSink { writer, faults: 0 }
    }
}

impl<W: Write + Drop> Sink for StdoutSink<W> {
    ghost written = { λ s. W.contents s.stream };

    ghost faults = { λ s. s.faults };

    fn push(&mut self, piece: &[u8]) -> Result<usize, Failed> {
        match self.writer.write(piece) {
            Ok(count) if count > 0 || piece.is_empty() => Ok(count),
            _ => {
                self.faults = self.faults.saturating_add(1);
                Err(Failed)
            }
        }
    }
}
