//! Writing what a stream gives.

ghost use Rattle.std.specs.Prelude.{◌≡◌, ◌++◌, ◌≤◌, ◌<◌, ℕ, ◌≢◌, List, [], OnOk, OnErr, IfOk, true, false, Option, Some, None, length};
ghost use Rattle.edge_io.specs.Causes.{Rose};
ghost use Rattle.replay.specs.Stream.{HasStepped, GoesOn, IsRefusedAt, IsFrontAt, IsNearer, IsReady};
ghost use Rattle.replay.specs.Streams.{state};
ghost use Rattle.check_run.specs.Lines.{lines_of};
ghost use Rattle.router.specs.Networks.{networks_of};
ghost use Rattle.replay.specs.Output.{IsOutputTo, IsRefusedOutput, IsFrontOfOutput};
ghost use Rattle.check_run.specs.Runs.{Writes, IsFrontOf};

use crate::status::Status;
use crate::stream::Stream;
use addr4::Memory;
use check_run::write_text;
use edge_io::Sink;
use router::Journals;

/// Steps a piece of the text: the journal then has the text of its output alone. Answers whether the text so far is
/// accepted.
fn step_piece(stream: &mut Stream, piece: &[u8], journal: &mut Journals) -> Result<bool, Memory>
    requires ready { IsReady stream.old.number stream.old.router }
    requires empty { journal.old.pending ≡ [] }
    ensures goes_on { IfOk result (λ accepted. GoesOn journal.old.quiet accepted (state stream.old) piece.now [] journal.new.text (state stream.new)) }
    ensures progress { IfOk result (λ accepted. accepted ≡ true → IsNearer (length piece.now) (state stream.old) (state stream.new)) }
    ensures ready { IfOk result (λ accepted. accepted ≡ true → IsReady stream.new.number stream.new.router) }
    ensures empty { OnOk result (journal.new.pending ≡ []) }
    ensures quiet { OnOk result (journal.new.quiet ≡ journal.old.quiet) }
{
    journal.clear();
    let accepted = stream.take_piece(piece, journal)?;
    journal.flush()?;
    Ok(accepted)
}

/// Steps the last line: the journal then has the text of its output alone. Answers whether the text is accepted.
fn step_last(stream: &mut Stream, journal: &mut Journals) -> Result<bool, Memory>
    requires ready { IsReady stream.old.number stream.old.router }
    requires empty { journal.old.pending ≡ [] }
    ensures accepted { IfOk result (λ accepted. accepted ≡ true → (read written : List ℕ) →
        HasStepped journal.old.quiet read stream.old.number (networks_of stream.old.router) stream.old.turns stream.old.pending.items written → IsOutputTo journal.old.quiet (lines_of read) (written ++ journal.new.text) (networks_of stream.new.router) stream.new.turns) }
    ensures refused { IfOk result (λ accepted. accepted ≡ false → (read written : List ℕ) →
        HasStepped journal.old.quiet read stream.old.number (networks_of stream.old.router) stream.old.turns stream.old.pending.items written → IsRefusedOutput journal.old.quiet read (written ++ journal.new.text)) }
{
    journal.clear();
    let accepted = stream.finish(journal)?;
    journal.flush()?;
    Ok(accepted)
}

/// Steps a piece of the text, and writes the output of its lines. None means that the run goes on.
pub fn turn<K: Sink>(
    stream: &mut Stream,
    piece: &[u8],
    journal: &mut Journals,
    sink: &mut K,
) -> Option<Status>
    requires ready { IsReady stream.old.number stream.old.router }
    requires empty { journal.old.pending ≡ [] }
    ensures goes_on { result ≡ None → (read written : List ℕ) → HasStepped journal.old.quiet read stream.old.number (networks_of stream.old.router) stream.old.turns stream.old.pending.items written →
        Writes (K.taken sink.old) (K.taken sink.new) (λ more. HasStepped journal.old.quiet (read ++ piece.now) stream.new.number (networks_of stream.new.router) stream.new.turns stream.new.pending.items (written ++ more)) }
    ensures nearer { result ≡ None → IsNearer (length piece.now) (state stream.old) (state stream.new) }
    ensures ready { result ≡ None → IsReady stream.new.number stream.new.router }
    ensures empty { result ≡ None → journal.new.pending ≡ [] }
    ensures quiet { result ≡ None → journal.new.quiet ≡ journal.old.quiet }
    ensures refused { result ≡ Some Status.Refused → (read written : List ℕ) → HasStepped journal.old.quiet read stream.old.number (networks_of stream.old.router) stream.old.turns stream.old.pending.items written →
        Writes (K.taken sink.old) (K.taken sink.new) (λ more. IsRefusedAt journal.old.quiet (read ++ piece.now) (written ++ more)) }
    ensures memory { result ≡ Some Status.Memory → K.taken sink.new ≡ K.taken sink.old }
    ensures front { result ≡ Some Status.WriteFault → (read written : List ℕ) → HasStepped journal.old.quiet read stream.old.number (networks_of stream.old.router) stream.old.turns stream.old.pending.items written →
        Writes (K.taken sink.old) (K.taken sink.new) (λ more. IsFrontAt journal.old.quiet (read ++ piece.now) (written ++ more)) }
    ensures write_fault { result ≡ Some Status.WriteFault → Rose (K.faults sink.old) (K.faults sink.new) }
    ensures later { K.faults sink.old ≤ K.faults sink.new }
    ensures no_other { (result ≢ Some Status.Ok) × (result ≢ Some Status.Broken) × (result ≢ Some Status.Usage) × (result ≢ Some Status.ReadFault) }
{
    let Ok(accepted) = step_piece(stream, piece, journal) else {
        return Some(Status::Memory);
    };
    if write_text(sink, journal.first()).is_err() {
        return Some(Status::WriteFault);
    }
    if accepted {
        None
    } else {
        Some(Status::Refused)
    }
}

/// Steps the last line, and writes its output.
pub fn finish<K: Sink>(stream: &mut Stream, journal: &mut Journals, sink: &mut K) -> Status
    requires ready { IsReady stream.old.number stream.old.router }
    requires empty { journal.old.pending ≡ [] }
    ensures ok { result ≡ Status.Ok → (read written : List ℕ) → HasStepped journal.old.quiet read stream.old.number (networks_of stream.old.router) stream.old.turns stream.old.pending.items written →
        Writes (K.taken sink.old) (K.taken sink.new) (λ more. IsOutputTo journal.old.quiet (lines_of read) (written ++ more) (networks_of stream.new.router) stream.new.turns) }
    ensures refused { result ≡ Status.Refused → (read written : List ℕ) → HasStepped journal.old.quiet read stream.old.number (networks_of stream.old.router) stream.old.turns stream.old.pending.items written →
        Writes (K.taken sink.old) (K.taken sink.new) (λ more. IsRefusedOutput journal.old.quiet read (written ++ more)) }
    ensures memory { result ≡ Status.Memory → K.taken sink.new ≡ K.taken sink.old }
    ensures front { result ≡ Status.WriteFault → (read written : List ℕ) → HasStepped journal.old.quiet read stream.old.number (networks_of stream.old.router) stream.old.turns stream.old.pending.items written →
        Writes (K.taken sink.old) (K.taken sink.new) (λ more. IsFrontOfOutput journal.old.quiet read (written ++ more)) }
    ensures write_fault { result ≡ Status.WriteFault → Rose (K.faults sink.old) (K.faults sink.new) }
    ensures later { K.faults sink.old ≤ K.faults sink.new }
    ensures no_other { (result ≢ Status.Broken) × (result ≢ Status.Usage) × (result ≢ Status.ReadFault) }
{
    let Ok(accepted) = step_last(stream, journal) else {
        return Status::Memory;
    };
    if write_text(sink, journal.first()).is_err() {
        return Status::WriteFault;
    }
    if accepted {
        Status::Ok
    } else {
        Status::Refused
    }
}
