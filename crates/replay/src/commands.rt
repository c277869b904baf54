//! The commands.

ghost use Rattle.std.specs.Prelude.{◌≡◌, ◌≢◌, ◌≤◌, ◌⊎◌, ℕ, List, Option, Some, None, false};
ghost use Rattle.std.specs.Io.KnownBytes.{Appends, IsAtEnd};
ghost use Rattle.edge_io.specs.Causes.{Rose};
ghost use Rattle.replay.specs.Commands.{reads_source, usage_line};
ghost use Rattle.replay.specs.Answers.{HasDone, HasRead, HasRefused, HasBroken, HasSoFar, HasFirst, HasFront, IsByText, IsUnfailing};
ghost use Rattle.command_line.specs.declared.words.Command.TheVariants as commands;

use crate::captured::convert_capture;
use crate::generated::run_generated;
use crate::run::run_events;
use crate::status::Status;
use check_run::{Ending, check, write_all};
use command_line::Command;
use edge_io::{Sink, Source};
use std::alloc::Global;

/// Writes the usage line.
fn show_usage<K: Sink>(sink: &mut K) -> Status
    ensures usage { result ≡ Status.Usage → Appends (K.taken sink.old) (K.taken sink.new) usage_line }
    ensures front { result ≡ Status.WriteFault → HasFront None None (K.taken sink.old) (K.taken sink.new) }
    ensures write_fault { result ≡ Status.WriteFault → Rose (K.faults sink.old) (K.faults sink.new) }
    ensures others { (result ≡ Status.Usage) ⊎ (result ≡ Status.WriteFault) }
{
    match write_all(
        sink,
        b"usage: replay run [--quiet] / replay gen SEED COUNT [--quiet] / replay check / replay mrt [--as4]\n",
    ) {
        Ok(()) => Status::Usage,
        Err(_) => Status::WriteFault,
    }
}

/// Judges the journal that the source is.
fn check_journal<S: Source, K: Sink>(alloc: Global, source: &mut S, sink: &mut K) -> Status
    ensures ok { result ≡ Status.Ok → HasDone (Some commands.Check) (S.left source.old) (K.taken sink.old) (K.taken sink.new) }
    ensures all_read { result ≡ Status.Ok → IsAtEnd (S.left source.new) }
    ensures refused { result ≡ Status.Refused → HasRefused (Some commands.Check) (S.left source.old) (K.taken sink.old) (K.taken sink.new) }
    ensures broken { result ≡ Status.Broken → HasBroken (Some commands.Check) (S.left source.old) (K.taken sink.old) (K.taken sink.new) }
    ensures by_text { (result ≡ Status.Ok) ⊎ (result ≡ Status.Broken) ⊎ (result ≡ Status.Refused) → IsByText (Some commands.Check) (S.left source.old) result }
    ensures so_far { result ≡ Status.ReadFault → K.taken sink.new ≡ K.taken sink.old }
    ensures memory { result ≡ Status.Memory → K.taken sink.new ≡ K.taken sink.old }
    ensures front { result ≡ Status.WriteFault → HasFront (Some commands.Check) (S.left source.old) (K.taken sink.old) (K.taken sink.new) }
    ensures read_fault { result ≡ Status.ReadFault → Rose (S.faults source.old) (S.faults source.new) }
    ensures write_fault { result ≡ Status.WriteFault → Rose (K.faults sink.old) (K.faults sink.new) }
    ensures no_usage { result ≢ Status.Usage }
{
    match check(alloc, source, sink) {
        Ending::Lawful => Status::Ok,
        Ending::Broken => Status::Broken,
        Ending::Refused => Status::Refused,
        Ending::ReadFault => Status::ReadFault,
        Ending::WriteFault => Status::WriteFault,
        Ending::Memory => Status::Memory,
    }
}

/// Does what the words ask for.
pub fn obey<S: Source, K: Sink>(
    alloc: Global,
    command: Option<Command>,
    source: &mut S,
    sink: &mut K,
) -> Status
    ensures ok { result ≡ Status.Ok → HasDone command (S.left source.old) (K.taken sink.old) (K.taken sink.new) }
    ensures all_read { result ≡ Status.Ok → HasRead command (S.left source.new) }
    ensures refused { result ≡ Status.Refused → HasRefused command (S.left source.old) (K.taken sink.old) (K.taken sink.new) }
    ensures broken { result ≡ Status.Broken → HasBroken command (S.left source.old) (K.taken sink.old) (K.taken sink.new) }
    ensures by_text { (result ≡ Status.Ok) ⊎ (result ≡ Status.Broken) ⊎ (result ≡ Status.Refused) → IsByText command (S.left source.old) result }
    ensures complete { ¬ Rose (S.faults source.old) (S.faults source.new) → ¬ Rose (K.faults sink.old) (K.faults sink.new) → IsUnfailing command (S.left source.old) result }
    ensures so_far { result ≡ Status.ReadFault → HasSoFar command (S.left source.old) (S.left source.new) (K.taken sink.old) (K.taken sink.new) }
    ensures memory { result ≡ Status.Memory → HasFirst command (S.left source.old) (K.taken sink.old) (K.taken sink.new) }
    ensures front { result ≡ Status.WriteFault → HasFront command (S.left source.old) (K.taken sink.old) (K.taken sink.new) }
    ensures read_fault { result ≡ Status.ReadFault → Rose (S.faults source.old) (S.faults source.new) }
    ensures write_fault { result ≡ Status.WriteFault → Rose (K.faults sink.old) (K.faults sink.new) }
    ensures usage { result ≡ Status.Usage → Appends (K.taken sink.old) (K.taken sink.new) usage_line }
    ensures command { command ≢ None → result ≢ Status.Usage }
    ensures by_check { result ≡ Status.Broken → command ≡ Some commands.Check }
    ensures no_command { command ≡ None → (result ≡ Status.Usage) ⊎ (result ≡ Status.WriteFault) }
    ensures unread { reads_source command ≡ false → source.new ≡ source.old }
{
    match command {
        Some(Command::Run(quiet)) => run_events(alloc, quiet, false, source, sink),
        Some(Command::Gen(seed, count, quiet)) => run_generated(alloc, seed, count, quiet, sink),
        Some(Command::Check) => check_journal(alloc, source, sink),
        Some(Command::Mrt(as4)) => convert_capture(alloc, as4, source, sink),
        None => show_usage(sink),
    }
}
