//! The command `mrt`.

ghost use Rattle.std.specs.Prelude.{◌≡◌, ◌⊎◌, IfSome, None};
ghost use Rattle.std.specs.Io.KnownBytes.{IsAtEnd};
ghost use Rattle.edge_io.specs.Causes.{Rose};
ghost use Rattle.mrt_reader.specs.Files.{IsTextOf};
ghost use Rattle.check_run.specs.Runs.{Took, ReadsAndWrites};
ghost use Rattle.capture_run.specs.Answers.{IsAnswer, IsRefusedText, IsTextOfFirst, IsTextOfWhole, IsFrontOfText, Ends};

use crate::conversion::Conversion;
use crate::ending::Ending;
use edge_io::{Sink, Source};
use std::alloc::Global;

/// Reads the MRT file that the source is, and writes the event file that it gives: the lines of its records, and where the file is
/// refused `refused RECORD CODE` behind those of the records before. With `as4` the records of use are those whose AS numbers have
/// four octets.
///
/// The lines of all whole records that were read are written before the next read.
pub fn convert<S: Source, K: Sink>(alloc: Global, as4: bool, source: &mut S, sink: &mut K) -> Ending
    // All of the file was read, and the sink took exactly the text of all its records.
    ensures done { result ≡ Ending.Done → Took (S.left source.old) (K.taken sink.old) (K.taken sink.new) (λ file bytes. IsTextOf as4 file bytes None) }
    ensures all_read { result ≡ Ending.Done → IsAtEnd (S.left source.new) }

    // A record is refused, and the sink took the lines of those before it, and then that it is refused.
    ensures refused { result ≡ Ending.Refused → Took (S.left source.old) (K.taken sink.old) (K.taken sink.new) (IsRefusedText as4) }

    // Which of the two it is the file alone decides.
    ensures by_text { IsAnswer result → IfSome (S.left source.old) (λ file. Ends as4 file result) }

    // A read failed, and the sink took the lines of the whole records that were read.
    ensures so_far { result ≡ Ending.ReadFault → ReadsAndWrites (S.left source.old) (S.left source.new) (K.taken sink.old) (K.taken sink.new) (IsTextOfWhole as4) }
    ensures read_fault { result ≡ Ending.ReadFault → Rose (S.faults source.old) (S.faults source.new) }

    // A write failed, and the sink took a front of what may be written.
    ensures front { result ≡ Ending.WriteFault → Took (S.left source.old) (K.taken sink.old) (K.taken sink.new) (IsFrontOfText as4) }
    ensures write_fault { result ≡ Ending.WriteFault → Rose (K.faults sink.old) (K.faults sink.new) }

    // There was no memory, and the sink took the lines of some first records.
    ensures memory { result ≡ Ending.Memory → Took (S.left source.old) (K.taken sink.old) (K.taken sink.new) (IsTextOfFirst as4) }

    // Where no read and no write failed, the file was read to its end, or to a record where it is refused, or there was no memory.
    ensures by_cause { (Rose (S.faults source.old) (S.faults source.new) → ⊥) → (Rose (K.faults sink.old) (K.faults sink.new) → ⊥) → IsAnswer result ⊎ (result ≡ Ending.Memory) }
{
    let mut conversion = Conversion::new(alloc, as4);
    let ending = conversion.run(source, sink);
    drop(conversion);
    ending
}
