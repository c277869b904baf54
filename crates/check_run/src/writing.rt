//! Writing to a sink.

ghost use Rattle.std.specs.Prelude.{OnOk, OnErr};
ghost use Rattle.std.specs.Io.KnownBytes.{Appends};
ghost use Rattle.edge_io.specs.Causes.{HasCause};
ghost use Rattle.check_run.specs.Runs.{Writes, IsFrontOf};

use edge_io::{Failed, Sink};
use journal_text::Journal;

/// So much of a journal's text is made at once.
const ROOM: usize = 32768;

/// Writes all of a text. Where that fails, the sink took a front of it.
pub fn write_all<K: Sink>(sink: &mut K, text: &[u8]) -> Result<(), Failed>
    ensures all { OnOk result (Appends (K.taken sink.old) (K.taken sink.new) text.now) }
    ensures front { OnErr result (Writes (K.taken sink.old) (K.taken sink.new) (IsFrontOf text.now)) }
    ensures cause { HasCause (K.faults sink.old) (K.faults sink.new) result }
{
    let mut at = 0;
    while at < text.len() {
        at += sink.write(&text[at..])?;
    }
    Ok(())
}

/// Writes all of a journal's text, and takes no memory. Where that fails, the sink took a front of it.
pub fn write_text<K: Sink>(sink: &mut K, journal: &Journal) -> Result<(), Failed>
    ensures all { OnOk result (Appends (K.taken sink.old) (K.taken sink.new) journal.now.text) }
    ensures front { OnErr result (Writes (K.taken sink.old) (K.taken sink.new) (IsFrontOf journal.now.text)) }
    ensures cause { HasCause (K.faults sink.old) (K.faults sink.new) result }
{
    let mut room = [0u8; ROOM];
    let mut text = journal.reader();
    'writing: loop {
        let count = text.read(&mut room);
        if count == 0 {
            return Ok(());
        }
        write_all(sink, &room[..count])?;
    }
}
