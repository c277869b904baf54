//! The command `mrt`.

ghost use Rattle.std.specs.Prelude.{◌≡◌, ◌≢◌, ◌⊎◌, Some};
ghost use Rattle.std.specs.Io.KnownBytes.{IsAtEnd};
ghost use Rattle.edge_io.specs.Causes.{Rose};
ghost use Rattle.command_line.specs.declared.words.Command.TheVariants as commands;
ghost use Rattle.replay.specs.Answers.{HasDone, HasRefused, HasSoFar, HasFirst, HasFront, IsByText};

use crate::status::Status;
use capture_run::{Ending, convert};
use edge_io::{Sink, Source};
use std::alloc::Global;

/// Writes the event file that the MRT file gives which the source is.
pub fn convert_capture<S: Source, K: Sink>(
    alloc: Global,
    as4: bool,
    source: &mut S,
    sink: &mut K,
) -> Status
    ensures ok { result ≡ Status.Ok → HasDone (Some (commands.Mrt as4)) (S.left source.old) (K.taken sink.old) (K.taken sink.new) }
    ensures all_read { result ≡ Status.Ok → IsAtEnd (S.left source.new) }
    ensures refused { result ≡ Status.Refused → HasRefused (Some (commands.Mrt as4)) (S.left source.old) (K.taken sink.old) (K.taken sink.new) }
    ensures by_text { (result ≡ Status.Ok) ⊎ (result ≡ Status.Refused) → IsByText (Some (commands.Mrt as4)) (S.left source.old) result }
    ensures so_far { result ≡ Status.ReadFault → HasSoFar (Some (commands.Mrt as4)) (S.left source.old) (S.left source.new) (K.taken sink.old) (K.taken sink.new) }
    ensures memory { result ≡ Status.Memory → HasFirst (Some (commands.Mrt as4)) (S.left source.old) (K.taken sink.old) (K.taken sink.new) }
    ensures front { result ≡ Status.WriteFault → HasFront (Some (commands.Mrt as4)) (S.left source.old) (K.taken sink.old) (K.taken sink.new) }
    ensures read_fault { result ≡ Status.ReadFault → Rose (S.faults source.old) (S.faults source.new) }
    ensures write_fault { result ≡ Status.WriteFault → Rose (K.faults sink.old) (K.faults sink.new) }
    ensures no_other { (result ≢ Status.Broken) × (result ≢ Status.Usage) }
{
    match convert(alloc, as4, source, sink) {
        Ending::Done => Status::Ok,
        Ending::Refused => Status::Refused,
        Ending::ReadFault => Status::ReadFault,
        Ending::WriteFault => Status::WriteFault,
        Ending::Memory => Status::Memory,
    }
}
