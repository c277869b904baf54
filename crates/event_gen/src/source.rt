//! The text of a seed as a source.

ghost use Rattle.std.specs.Prelude.{◌≡◌, ◌++◌, ◌≤◌, ◌<◌, [], Some, length, take, OnOk};
ghost use Rattle.std.specs.Io.{ReadsAtMost};
ghost use Rattle.std.specs.Io.KnownBytes.{ReadConsumes};
ghost use Rattle.edge_io.specs.Causes.{HasCause};
ghost use Rattle.event_gen.specs.Lines.{text};

use crate::generator::Generator;
use addr4::Memory;
use edge_io::{Failed, Source, SureSource};
use std::alloc::Global;
use std::marker::Model;

/// So many bytes are made ready at a time, and the rest of a line more.
const BLOCK: usize = 16384;

/// Gives the text of a seed, of which some lines are ready at a time. Want of memory for them is a fault.
#[derive(Drop)]
pub struct GeneratedSource {
    alloc: Global,
    generator: Generator,
    /// The lines that are ready.
    ready: SureSource,
    faults: u64,
}

impl Model for GeneratedSource {
    ghost use Rattle.std.specs.Prelude.{◌++◌};
    ghost use Rattle.event_gen.specs.Lines.{Supply};

    ghost Value = { Supply };

    ghost view = { λ s. record { left = s.ready ++ s.generator; faults = s.faults } };
}

/// Writes lines until a block is full or the text is over.
fn write_block(generator: &mut Generator, out: &mut Vec<u8>) -> Result<(), Memory>
    ensures whole { out.new.items ++ generator.new ≡ out.old.items ++ generator.old }
    ensures over { OnOk result (out.new.items ≡ [] → generator.new ≡ []) }
{
    'lines: while out.len() < BLOCK {
        if !generator.write_next(out)? {
            return Ok(());
        }
    }
    Ok(())
}

/// Reads of what is ready.
fn read_ready(ready: &mut SureSource, buf: &mut [u8]) -> usize
    ensures bound { result ≤ length buf.new }
    ensures bytes { ready.old ≡ take result buf.new ++ ready.new }
    ensures end { result ≡ 0 → 0 < length buf.new → ready.new ≡ [] }
{
    ready.read(buf).unwrap()
}

impl GeneratedSource {
    /// The text of a seed with so many events. Takes no memory.
    pub fn new(alloc: Global, seed: u64, count: u32) -> GeneratedSource
        ensures { result ≡ record { left = text seed count; faults = 0 } }
    {
        GeneratedSource {
            alloc,
            generator: Generator::new(alloc, seed, count),
            ready: SureSource::new(Vec::new(alloc)),
            faults: 0,
        }
    }
}

impl Source for GeneratedSource {
    ghost left = { λ s. Some s.left };

    ghost faults = { λ s. s.faults };

    /// Fails for want of memory alone.
    fn read(&mut self, buf: &mut [u8]) -> Result<usize, Failed>
        ensures bound { ReadsAtMost result buf.new }
        ensures bytes { ReadConsumes (Some self.old.left) (Some self.new.left) result buf.new }
        ensures cause { HasCause self.old.faults self.new.faults result }
    {
        let count = read_ready(&mut self.ready, buf);
        if count > 0 || buf.is_empty() {
            return Ok(count);
        }
        let mut lines = Vec::new(self.alloc);
        let made = write_block(&mut self.generator, &mut lines);
        self.ready = SureSource::new(lines);
        if made.is_err() {
            self.faults = self.faults.saturating_add(1);
            return Err(Failed);
        }
        Ok(read_ready(&mut self.ready, buf))
    }
}
