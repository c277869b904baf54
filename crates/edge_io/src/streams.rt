//! A source over any reader and a sink over any writer.

ghost use Rattle.std.specs.Prelude.{◌≡◌, ◌+◌, ◌≤◌, ◌<◌, ℕ, List, Option, None};

use crate::traits::{Failed, Sink, Source};
use std::io::{Read, Write};

/// A source that counts the reads that failed.
#[derive(Drop)]
pub struct Reading<R> {
    inner: R,
    faults: u64,
}

impl<R> Reading<R> {
    ghost use Rattle.edge_io.specs.Streams.{reader, read_faults};

    /// A source of what the reader gives.
    pub fn new(inner: R) -> Reading<R>
        ensures within { reader result ≡ inner }
        ensures faults { read_faults result ≡ 0 }
    {
        Reading { inner, faults: 0 }
    }
}

impl<R: Read> Source for Reading<R> {
    ghost use Rattle.edge_io.specs.Streams.{reader, read_faults};

    ghost left = { λ s. R.remaining (reader s) };

    ghost faults = { λ s. read_faults s };

    fn read(&mut self, buf: &mut [u8]) -> Result<usize, Failed> {
        match self.inner.read(buf) {
            Ok(count) => Ok(count),
            Err(_) => {
                self.faults = self.faults.saturating_add(1);
                Err(Failed)
            }
        }
    }
}

/// A sink that counts the writes that failed. A write that takes nothing of a piece that isn't empty is one of them.
#[derive(Drop)]
pub struct Writing<W> {
    inner: W,
    faults: u64,
}

impl<W> Writing<W> {
    ghost use Rattle.edge_io.specs.Streams.{writer, write_faults};

    /// A sink that the writer takes.
    pub fn new(inner: W) -> Writing<W>
        ensures within { writer result ≡ inner }
        ensures faults { write_faults result ≡ 0 }
    {
        Writing { inner, faults: 0 }
    }
}

impl<W: Write> Sink for Writing<W> {
    ghost use Rattle.edge_io.specs.Streams.{writer, write_faults};

    ghost taken = { λ s. W.contents (writer s) };

    ghost faults = { λ s. write_faults s };

    fn write(&mut self, piece: &[u8]) -> Result<usize, Failed> {
        match self.inner.write(piece) {
            Ok(count) if count > 0 || piece.is_empty() => Ok(count),
            _ => {
                self.faults = self.faults.saturating_add(1);
                Err(Failed)
            }
        }
    }
}
