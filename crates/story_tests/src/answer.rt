//! The program's answer to a text.

ghost use Rattle.std.specs.Prelude.{◌<◌, Some};

use edge_io::{Failed, MemorySink, MemorySource, Source};
use replay::{Status, replay};
use std::alloc::{AllocError, Global};

/// How much of a text one read gives.
#[derive(Clone, Copy)]
pub enum Pace {
    /// All that there is room for.
    Whole,
    /// One byte.
    Bytes,
    /// One line.
    Lines,
}

/// A source that gives so much a read.
#[derive(Drop)]
struct Paced {
    pace: Pace,
    /// The whole input, for the ends of its lines.
    text: Vec<u8>,
    /// How much of it was asked for.
    place: usize,
    /// How many reads there were.
    reads: u64,
    inner: MemorySource,
}

/// How many bytes the first line has, with its end.
fn line_length(text: &[u8]) -> usize {
    match text.iter().position(|byte| *byte == b'\n') {
        Some(at) if at < text.len() => at + 1,
        _ => text.len(),
    }
}

/// How many bytes a read gives at most: at least one.
fn room(pace: Pace, rest: &[u8]) -> usize
    ensures { 0 < result }
{
    match pace {
        Pace::Whole => usize::MAX,
        Pace::Bytes => 1,
        Pace::Lines => line_length(rest).max(1),
    }
}

impl Source for Paced {
    ghost left = { λ s. Some s.inner.left };

    ghost faults = { λ s. s.inner.faults };

    fn read(&mut self, buf: &mut [u8]) -> Result<usize, Failed> {
        let rest = self.text.get(self.place..).unwrap_or(&[]);
        let count = room(self.pace, rest).min(buf.len());
        self.place = self.place.saturating_add(count);
        self.reads = self.reads.saturating_add(1);
        self.inner.read(&mut buf[..count])
    }
}

/// A source of an input, whose read with this number fails; number 0 is none.
fn source_of(alloc: Global, pace: Pace, input: &[u8], read: u64) -> Result<Paced, AllocError> {
    let reads = vec![in alloc; read]?;
    let inner = MemorySource::new(Vec::from_slice(alloc, input)?, reads);
    Ok(Paced {
        pace,
        text: Vec::from_slice(alloc, input)?,
        place: 0,
        reads: 0,
        inner,
    })
}

/// The words of a command line.
fn words_of(alloc: Global, command: &str) -> Result<Vec<String>, AllocError> {
    let mut words = Vec::new(alloc);
    for word in command.split(' ') {
        words.push(String::from_str(alloc, word)?)?;
    }
    Ok(words)
}

/// What the program answered, what it wrote, and how many reads it made.
#[derive(Drop)]
pub struct Answer {
    pub status: Status,
    pub output: Vec<u8>,
    pub reads: u64,
}

/// What the program answers to a source.
fn answer_of(
    alloc: Global,
    words: &[String],
    source: &mut Paced,
    sink: &mut MemorySink,
) -> Result<Answer, AllocError> {
    let status = replay(alloc, words, source, sink);
    Ok(Answer {
        status,
        output: Vec::from_slice(alloc, sink.bytes())?,
        reads: source.reads,
    })
}

/// The answer of a command to an input.
pub fn answer_to(
    alloc: Global,
    command: &str,
    pace: Pace,
    input: &[u8],
) -> Result<Answer, AllocError> {
    answer_failing(alloc, command, pace, input, 0, 0)
}

/// The answer to an input, where the read and the write with these numbers fail; number 0 is none.
pub fn answer_failing(
    alloc: Global,
    command: &str,
    pace: Pace,
    input: &[u8],
    read: u64,
    write: u64,
) -> Result<Answer, AllocError> {
    let mut sink = MemorySink::new(Vec::new(alloc), vec![in alloc; write]?);
    let mut source = source_of(alloc, pace, input, read)?;
    let words = words_of(alloc, command)?;
    answer_of(alloc, words.as_slice(), &mut source, &mut sink)
}
