//! Records on their way to a sink.

ghost use Rattle.std.specs.Prelude.{◌≡◌, ◌≢◌, ◌++◌, ◌≤◌, [], List, ℕ, IfOk, OnOk, OnErr};
ghost use Rattle.std.specs.Io.KnownBytes.{Appends};
ghost use Rattle.edge_io.specs.Causes.{Rose, HasCause};
ghost use Rattle.mrt_reader.specs.Sessions.{nothing_written};
ghost use Rattle.mrt_reader.specs.Sources.{Gives, ReadsNone};
ghost use Rattle.check_run.specs.Runs.{Writes, IsFrontOf};
ghost use Rattle.capture_run.specs.Answers.{HasEnded};
ghost use Rattle.capture_run.specs.Progress.{Flushes, Finishes};

use crate::ending::Ending;
use check_run::write_all;
use edge_io::{Failed, Sink, Source};
use mrt_reader::{Next, Reader, Stop};
use std::alloc::Global;

/// The records of one source, whose lines go to one sink.
#[derive(Drop)]
pub(crate) struct Conversion {
    reader: Reader,
    /// The lines of the record that was read last.
    lines: Vec<u8>,
    /// The lines that aren't written yet.
    unwritten: Vec<u8>,
}

impl Conversion {
    /// Nothing was read. Takes no memory.
    pub(crate) fn new(alloc: Global, as4: bool) -> Conversion
        ensures reader { result.reader ≡ record { as4 = as4; number = 0; written = nothing_written; unread = [] } }
        ensures unwritten { result.unwritten.items ≡ [] }
    {
        Conversion {
            reader: Reader::new(alloc, as4),
            lines: Vec::new(alloc),
            unwritten: Vec::new(alloc),
        }
    }

    /// Writes the lines that aren't written yet.
    fn flush<K: Sink>(&mut self, sink: &mut K) -> Result<(), Failed>
        ensures all { OnOk result (Appends (K.taken sink.old) (K.taken sink.new) self.old.unwritten.items) }
        ensures none { OnOk result (self.new.unwritten.items ≡ []) }
        ensures reader { self.new.reader ≡ self.old.reader }
        ensures front { OnErr result (Writes (K.taken sink.old) (K.taken sink.new) (IsFrontOf self.old.unwritten.items)) }
        ensures cause { HasCause (K.faults sink.old) (K.faults sink.new) result }
    {
        write_all(sink, self.unwritten.as_slice())?;
        self.unwritten.clear();
        Ok(())
    }

    /// Writes them where the next record asks for a read, which may wait.
    fn make_way<K: Sink>(&mut self, sink: &mut K) -> Result<(), Failed>
        ensures flushes { OnOk result (Flushes (K.taken sink.old) (K.taken sink.new) self.old.unwritten.items self.new.unwritten.items) }
        ensures reader { self.new.reader ≡ self.old.reader }
        ensures front { OnErr result (Writes (K.taken sink.old) (K.taken sink.new) (IsFrontOf self.old.unwritten.items)) }
        ensures cause { HasCause (K.faults sink.old) (K.faults sink.new) result }
    {
        if self.reader.holds_record() {
            return Ok(());
        }
        self.flush(sink)
    }

    /// Reads the next record.
    fn read<S: Source>(&mut self, source: &mut S) -> Result<Next, Stop>
        ensures gives { IfOk result (λ next. (text : List ℕ) × (self.new.unwritten.items ≡ self.old.unwritten.items ++ text) × Gives self.old.reader (S.left source.old) next text self.new.reader (S.left source.new)) }
        ensures read_fault { result ≡ Err Stop.ReadFault → ReadsNone self.old.reader (S.left source.old) self.new.reader (S.left source.new) }
        ensures same { result ≡ Err Stop.ReadFault → self.new.unwritten.items ≡ self.old.unwritten.items }
        ensures cause { result ≡ Err Stop.ReadFault → Rose (S.faults source.old) (S.faults source.new) }
        ensures later { S.faults source.old ≤ S.faults source.new }
    {
        let next = self.reader.next(source, &mut self.lines)?;
        self.unwritten.extend_from_slice(self.lines.as_slice())?;
        Ok(next)
    }

    /// Writes what is left, and ends so, unless that fails.
    fn finish<K: Sink>(&mut self, sink: &mut K, ending: Ending) -> Ending
        ensures finishes { Finishes (K.taken sink.old) (K.taken sink.new) self.old.unwritten.items ending result }
        ensures cause { ending ≢ Ending.WriteFault → result ≡ Ending.WriteFault → Rose (K.faults sink.old) (K.faults sink.new) }
        ensures later { K.faults sink.old ≤ K.faults sink.new }
    {
        match self.flush(sink) {
            Ok(()) => ending,
            Err(_) => Ending::WriteFault,
        }
    }

    /// Reads all records, and writes their lines.
    pub(crate) fn run<S: Source, K: Sink>(&mut self, source: &mut S, sink: &mut K) -> Ending
        requires reader { (self.old.reader.number ≡ 0) × (self.old.reader.written ≡ nothing_written) × (self.old.reader.unread ≡ []) }
        requires unwritten { self.old.unwritten.items ≡ [] }
        ensures ended { HasEnded self.old.reader.as4 (S.left source.old) (S.left source.new) (K.taken sink.old) (K.taken sink.new) result }
        ensures read_fault { result ≡ Ending.ReadFault → Rose (S.faults source.old) (S.faults source.new) }
        ensures write_fault { result ≡ Ending.WriteFault → Rose (K.faults sink.old) (K.faults sink.new) }
    {
        'records: loop {
            let Ok(()) = self.make_way(sink) else {
                return Ending::WriteFault;
            };
            match self.read(source) {
                Ok(Next::Record) => {}
                Ok(Next::End) => return self.finish(sink, Ending::Done),
                Ok(Next::Refused(_, _)) => return self.finish(sink, Ending::Refused),
                Err(Stop::ReadFault) => return self.finish(sink, Ending::ReadFault),
                Err(Stop::Memory) => return Ending::Memory,
            }
        }
    }
}
