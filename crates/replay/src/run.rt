//! Running the events of a source.

ghost use Rattle.std.specs.Prelude.{◌≡◌, ◌≢◌, ◌≤◌, ◌+◌, ◌⊎◌, ℕ, List, [], IfSome};
ghost use Rattle.std.specs.Io.KnownBytes.{IsAtEnd};
ghost use Rattle.edge_io.specs.Causes.{Rose};
ghost use Rattle.check_run.specs.Lines.{lines_of};
ghost use Rattle.replay.specs.Judging.{verdict, status_of};
ghost use Rattle.router.specs.Networks.{networks_of};
ghost use Rattle.replay.specs.Output.{IsOutputTo, IsRefusedOutput, IsOutputOfFront, IsOutputOfEnded, IsFrontOfOutput};
ghost use Rattle.replay.specs.Totals.{IsWholeOutput, IsFrontOfWhole};
ghost use Rattle.check_run.specs.Runs.{Took, ReadsAndWrites};
ghost use Rattle.replay.specs.Stream.{HasStepped, IsReady};

use crate::output::{finish, turn};
use crate::status::Status;
use crate::stream::Stream;
use crate::totals::write_totals;
use edge_io::{Sink, Source};
use router::Journals;
use std::alloc::Global;

/// How many bytes are read at once.
pub const READ_SIZE: usize = 65536;

/// Steps the events of the source in a stream and a journal that have none yet.
fn run_stream<S: Source, K: Sink>(
    stream: &mut Stream,
    journal: &mut Journals,
    source: &mut S,
    sink: &mut K,
) -> Status
    requires stepped { HasStepped journal.old.quiet [] stream.old.number (networks_of stream.old.router) stream.old.turns stream.old.pending.items [] }
    requires ready { IsReady stream.old.number stream.old.router }
    requires empty { journal.old.pending ≡ [] }
    ensures ok { result ≡ Status.Ok → Took (S.left source.old) (K.taken sink.old) (K.taken sink.new) (λ text bytes. IsOutputTo journal.old.quiet (lines_of text) bytes (networks_of stream.new.router) stream.new.turns) }
    ensures all_read { result ≡ Status.Ok → IsAtEnd (S.left source.new) }
    ensures refused { result ≡ Status.Refused → Took (S.left source.old) (K.taken sink.old) (K.taken sink.new) (IsRefusedOutput journal.old.quiet) }
    ensures so_far { result ≡ Status.ReadFault → ReadsAndWrites (S.left source.old) (S.left source.new) (K.taken sink.old) (K.taken sink.new) (IsOutputOfEnded journal.old.quiet) }
    ensures memory { result ≡ Status.Memory → Took (S.left source.old) (K.taken sink.old) (K.taken sink.new) (IsOutputOfFront journal.old.quiet) }
    ensures front { result ≡ Status.WriteFault → Took (S.left source.old) (K.taken sink.old) (K.taken sink.new) (IsFrontOfOutput journal.old.quiet) }
    ensures read_fault { result ≡ Status.ReadFault → Rose (S.faults source.old) (S.faults source.new) }
    ensures write_fault { result ≡ Status.WriteFault → Rose (K.faults sink.old) (K.faults sink.new) }
    ensures by_text { (result ≡ Status.Ok) ⊎ (result ≡ Status.Refused) → IfSome (S.left source.old) (λ text. result ≡ status_of (verdict text)) }
    ensures later { K.faults sink.old ≤ K.faults sink.new }
    ensures no_other { (result ≢ Status.Broken) × (result ≢ Status.Usage) }
{
    let mut buf = [0u8; READ_SIZE];
    'reading: loop {
        let Ok(count) = source.read(&mut buf) else {
            return Status::ReadFault;
        };
        if count == 0 {
            return finish(stream, journal, sink);
        }
        if let Some(status) = turn(stream, &buf[..count], journal, sink) {
            return status;
        }
    }
}

/// The same, and writes the totals behind all of it where they are asked for.
fn run_whole<S: Source, K: Sink>(
    alloc: Global,
    totalled: bool,
    stream: &mut Stream,
    journal: &mut Journals,
    source: &mut S,
    sink: &mut K,
) -> Status
    requires stepped { HasStepped journal.old.quiet [] stream.old.number (networks_of stream.old.router) stream.old.turns stream.old.pending.items [] }
    requires ready { IsReady stream.old.number stream.old.router }
    requires empty { journal.old.pending ≡ [] }
    ensures ok { result ≡ Status.Ok → Took (S.left source.old) (K.taken sink.old) (K.taken sink.new) (IsWholeOutput totalled journal.old.quiet) }
    ensures all_read { result ≡ Status.Ok → IsAtEnd (S.left source.new) }
    ensures refused { result ≡ Status.Refused → Took (S.left source.old) (K.taken sink.old) (K.taken sink.new) (IsRefusedOutput journal.old.quiet) }
    ensures so_far { result ≡ Status.ReadFault → ReadsAndWrites (S.left source.old) (S.left source.new) (K.taken sink.old) (K.taken sink.new) (IsOutputOfEnded journal.old.quiet) }
    ensures memory { result ≡ Status.Memory → Took (S.left source.old) (K.taken sink.old) (K.taken sink.new) (IsOutputOfFront journal.old.quiet) }
    ensures front { result ≡ Status.WriteFault → Took (S.left source.old) (K.taken sink.old) (K.taken sink.new) (IsFrontOfWhole totalled journal.old.quiet) }
    ensures read_fault { result ≡ Status.ReadFault → Rose (S.faults source.old) (S.faults source.new) }
    ensures write_fault { result ≡ Status.WriteFault → Rose (K.faults sink.old) (K.faults sink.new) }
    ensures by_text { (result ≡ Status.Ok) ⊎ (result ≡ Status.Refused) → IfSome (S.left source.old) (λ text. result ≡ status_of (verdict text)) }
    ensures no_other { (result ≢ Status.Broken) × (result ≢ Status.Usage) }
{
    let status = run_stream(stream, journal, source, sink);
    if !totalled {
        return status;
    }
    match status {
        Status::Ok => write_totals(alloc, stream, sink),
        other => other,
    }
}

/// Steps the events of the source, and writes their output, and the totals behind all of it where they are asked for. Where it is quiet,
/// the journal's own lines aren't written.
pub fn run_events<S: Source, K: Sink>(
    alloc: Global,
    quiet: bool,
    totalled: bool,
    source: &mut S,
    sink: &mut K,
) -> Status
    ensures ok { result ≡ Status.Ok → Took (S.left source.old) (K.taken sink.old) (K.taken sink.new) (IsWholeOutput totalled quiet) }
    ensures all_read { result ≡ Status.Ok → IsAtEnd (S.left source.new) }
    ensures refused { result ≡ Status.Refused → Took (S.left source.old) (K.taken sink.old) (K.taken sink.new) (IsRefusedOutput quiet) }
    ensures so_far { result ≡ Status.ReadFault → ReadsAndWrites (S.left source.old) (S.left source.new) (K.taken sink.old) (K.taken sink.new) (IsOutputOfEnded quiet) }
    ensures memory { result ≡ Status.Memory → Took (S.left source.old) (K.taken sink.old) (K.taken sink.new) (IsOutputOfFront quiet) }
    ensures front { result ≡ Status.WriteFault → Took (S.left source.old) (K.taken sink.old) (K.taken sink.new) (IsFrontOfWhole totalled quiet) }
    ensures read_fault { result ≡ Status.ReadFault → Rose (S.faults source.old) (S.faults source.new) }
    ensures write_fault { result ≡ Status.WriteFault → Rose (K.faults sink.old) (K.faults sink.new) }
    ensures by_text { (result ≡ Status.Ok) ⊎ (result ≡ Status.Refused) → IfSome (S.left source.old) (λ text. result ≡ status_of (verdict text)) }
    ensures no_other { (result ≢ Status.Broken) × (result ≢ Status.Usage) }
{
    let mut stream = Stream::new(alloc, quiet);
    let mut journal = Journals::new(alloc, quiet);
    let status = run_whole(alloc, totalled, &mut stream, &mut journal, source, sink);
    drop(stream);
    drop(journal);
    status
}
