//! The line that `check` writes.

ghost use Rattle.std.specs.Prelude.{◌≡◌, ◌≢◌, ◌++◌, OnOk, IfOk};
ghost use Rattle.std.specs.Io.KnownBytes.{Appends};
ghost use Rattle.edge_io.specs.Causes.{Rose};
ghost use Rattle.check_run.specs.Runs.{Writes, IsFrontOf};
ghost use Rattle.check_run.specs.Answers.{IsAnswer, answer_text, broken_text, refused_text, ending_of};

use crate::ending::Ending;
use crate::writing::write_all;
use addr4::{Memory, push_number};
use edge_io::Sink;
use journal_check::Checked;
use std::alloc::Global;

fn push_broken(out: &mut Vec<u8>, number: u64, rule: u8) -> Result<(), Memory>
    ensures { OnOk result (out.new.items ≡ out.old.items ++ broken_text number rule) }
{
    out.extend_from_slice(b"broken ")?;
    push_number(out, number)?;
    out.push(b' ')?;
    push_number(out, u64::from(rule))?;
    out.push(b'\n')?;
    Ok(())
}

fn push_refused(out: &mut Vec<u8>, number: u64) -> Result<(), Memory>
    ensures { OnOk result (out.new.items ≡ out.old.items ++ refused_text number) }
{
    out.extend_from_slice(b"refused ")?;
    push_number(out, number)?;
    out.extend_from_slice(b" J1\n")?;
    Ok(())
}

fn push_answer(out: &mut Vec<u8>, checked: Checked) -> Result<(), Memory>
    ensures { OnOk result (out.new.items ≡ out.old.items ++ answer_text checked) }
{
    match checked {
        Checked::Lawful => {
            out.extend_from_slice(b"lawful\n")?;
            Ok(())
        }
        Checked::Broken(number, rule) => push_broken(out, number, rule),
        Checked::NotAJournal(number) => push_refused(out, number),
    }
}

/// Writes the line that says what is known of the whole text.
pub(crate) fn answer<K: Sink>(alloc: Global, checked: Checked, sink: &mut K) -> Ending
    ensures answer { IsAnswer result → (result ≡ ending_of checked) × Appends (K.taken sink.old) (K.taken sink.new) (answer_text checked) }
    ensures front { result ≡ Ending.WriteFault → Writes (K.taken sink.old) (K.taken sink.new) (IsFrontOf (answer_text checked)) }
    ensures write_fault { result ≡ Ending.WriteFault → Rose (K.faults sink.old) (K.faults sink.new) }
    ensures memory { result ≡ Ending.Memory → K.taken sink.new ≡ K.taken sink.old }
    ensures no_other { result ≢ Ending.ReadFault }
{
    let mut text = Vec::new(alloc);
    if push_answer(&mut text, checked).is_err() {
        return Ending::Memory;
    }
    if write_all(sink, text.as_slice()).is_err() {
        return Ending::WriteFault;
    }
    Ending::of(checked)
}
