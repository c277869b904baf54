//! The command `gen`.

ghost use Rattle.std.specs.Prelude.{◌≡◌, ◌≢◌, ◌⊎◌};
ghost use Rattle.edge_io.specs.Causes.{Rose};
ghost use Rattle.event_gen.specs.Lines.{text};
ghost use Rattle.check_run.specs.Runs.{Writes};
ghost use Rattle.replay.specs.Judging.{verdict, status_of};
ghost use Rattle.replay.specs.Output.{IsRefusedOutput, IsOutputOfFront};
ghost use Rattle.replay.specs.Totals.{IsTotalledOutput, IsFrontOfTotalled};

use crate::run::run_events;
use crate::status::Status;
use edge_io::Sink;
use event_gen::GeneratedSource;
use std::alloc::Global;

/// Steps the events of a source, writes their output, and then the totals. The source fails for want of memory alone.
fn run_source<K: Sink>(
    alloc: Global,
    quiet: bool,
    source: &mut GeneratedSource,
    sink: &mut K,
) -> Status
    ensures ok { result ≡ Status.Ok → Writes (K.taken sink.old) (K.taken sink.new) (IsTotalledOutput quiet source.old.left) }
    ensures refused { result ≡ Status.Refused → Writes (K.taken sink.old) (K.taken sink.new) (IsRefusedOutput quiet source.old.left) }
    ensures memory { result ≡ Status.Memory → Writes (K.taken sink.old) (K.taken sink.new) (IsOutputOfFront quiet source.old.left) }
    ensures front { result ≡ Status.WriteFault → Writes (K.taken sink.old) (K.taken sink.new) (IsFrontOfTotalled quiet source.old.left) }
    ensures write_fault { result ≡ Status.WriteFault → Rose (K.faults sink.old) (K.faults sink.new) }
    ensures by_text { (result ≡ Status.Ok) ⊎ (result ≡ Status.Refused) → result ≡ status_of (verdict source.old.left) }
    ensures no_other { (result ≢ Status.Broken) × (result ≢ Status.Usage) × (result ≢ Status.ReadFault) }
{
    match run_events(alloc, quiet, true, source, sink) {
        Status::ReadFault => Status::Memory,
        status => status,
    }
}

/// Steps the events of a seed, writes their output, and then the totals.
pub fn run_generated<K: Sink>(
    alloc: Global,
    seed: u64,
    count: u32,
    quiet: bool,
    sink: &mut K,
) -> Status
    ensures ok { result ≡ Status.Ok → Writes (K.taken sink.old) (K.taken sink.new) (IsTotalledOutput quiet (text seed count)) }
    ensures refused { result ≡ Status.Refused → Writes (K.taken sink.old) (K.taken sink.new) (IsRefusedOutput quiet (text seed count)) }
    ensures memory { result ≡ Status.Memory → Writes (K.taken sink.old) (K.taken sink.new) (IsOutputOfFront quiet (text seed count)) }
    ensures front { result ≡ Status.WriteFault → Writes (K.taken sink.old) (K.taken sink.new) (IsFrontOfTotalled quiet (text seed count)) }
    ensures write_fault { result ≡ Status.WriteFault → Rose (K.faults sink.old) (K.faults sink.new) }
    ensures by_text { (result ≡ Status.Ok) ⊎ (result ≡ Status.Refused) → result ≡ status_of (verdict (text seed count)) }
    ensures no_other { (result ≢ Status.Broken) × (result ≢ Status.Usage) × (result ≢ Status.ReadFault) }
{
    let mut source = GeneratedSource::new(alloc, seed, count);
    let status = run_source(alloc, quiet, &mut source, sink);
    drop(source);
    status
}
