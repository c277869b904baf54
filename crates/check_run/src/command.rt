//! The command `check`.

ghost use Rattle.std.specs.Prelude.{◌≡◌, ◌⊎◌, IfSome};
ghost use Rattle.std.specs.Io.KnownBytes.{IsAtEnd};
ghost use Rattle.edge_io.specs.Causes.{Rose};
ghost use Rattle.check_run.specs.Runs.{Took};
ghost use Rattle.check_run.specs.Answers.{IsAnswer, Judges, Ends, IsFrontOfAnswer};

use crate::answer::answer;
use crate::ending::Ending;
use crate::judging::{Stop, judge};
use edge_io::{Sink, Source};
use std::alloc::Global;

/// Judges the journal in the text of the source, and writes one line that says what is to be said of it.
///
/// An LF ends a line, and so does CR LF; no line follows a last LF, and a last line without an LF keeps its CR. Nothing is
/// read behind a line that isn't lawful. A line of which 65,538 bytes hold no LF is none of a journal, however it goes on.
pub fn check<S: Source, K: Sink>(alloc: Global, source: &mut S, sink: &mut K) -> Ending
    ensures answer { IsAnswer result → Took (S.left source.old) (K.taken sink.old) (K.taken sink.new) (λ text bytes. Judges text bytes result) }
    ensures by_text { IsAnswer result → IfSome (S.left source.old) (λ text. Ends text result) }
    ensures all_read { result ≡ Ending.Lawful → IsAtEnd (S.left source.new) }
    ensures read_fault { result ≡ Ending.ReadFault → Rose (S.faults source.old) (S.faults source.new) }
    ensures nothing { (result ≡ Ending.ReadFault) ⊎ (result ≡ Ending.Memory) → K.taken sink.new ≡ K.taken sink.old }
    ensures write_fault { result ≡ Ending.WriteFault → Rose (K.faults sink.old) (K.faults sink.new) }
    ensures front { result ≡ Ending.WriteFault → Took (S.left source.old) (K.taken sink.old) (K.taken sink.new) IsFrontOfAnswer }
    ensures by_cause { (Rose (S.faults source.old) (S.faults source.new) → ⊥) → (Rose (K.faults sink.old) (K.faults sink.new) → ⊥) → IsAnswer result ⊎ (result ≡ Ending.Memory) }
{
    match judge(alloc, source) {
        Ok(checked) => answer(alloc, checked, sink),
        Err(Stop::ReadFault) => Ending::ReadFault,
        Err(Stop::Memory) => Ending::Memory,
    }
}
