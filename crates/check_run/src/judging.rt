//! Judging the journal in the text of a source.

ghost use Rattle.std.specs.Prelude.{◌≡◌, IfOk};
ghost use Rattle.std.specs.Io.KnownBytes.{IsAtEnd};
ghost use Rattle.edge_io.specs.Causes.{Rose};
ghost use Rattle.journal_check.specs.Judged.{IsChecked};
ghost use Rattle.journal_check.specs.declared.checked.Checked.{Checked};
ghost use Rattle.check_run.specs.Lines.{lines_of};
ghost use Rattle.check_run.specs.Runs.{OfText};

use crate::checking::Checking;
use edge_io::Source;
use journal_check::Checked;
use std::alloc::Global;

/// How many bytes are read at once.
const READ_SIZE: usize = 65536;

/// Why nothing is said of a text.
#[derive(Clone, Copy)]
pub(crate) enum Stop {
    /// A read failed.
    ReadFault,
    /// There was no memory.
    Memory,
}

/// Reads the text of a source up to the line that decides, and says what is to be said of all its lines.
pub(crate) fn judge<S: Source>(alloc: Global, source: &mut S) -> Result<Checked, Stop>
    ensures judged { IfOk result (λ checked. OfText (S.left source.old) (λ text. IsChecked (lines_of text) checked)) }
    ensures all_read { IfOk result (λ checked. checked ≡ Checked.Lawful → IsAtEnd (S.left source.new)) }
    ensures read_fault { result ≡ Err Stop.ReadFault → Rose (S.faults source.old) (S.faults source.new) }
{
    let mut checking = Checking::new(alloc);
    let mut buf = [0u8; READ_SIZE];
    'reading: loop {
        let Ok(count) = source.read(&mut buf) else {
            return Err(Stop::ReadFault);
        };
        if count == 0 {
            let Ok(checked) = checking.finish() else {
                return Err(Stop::Memory);
            };
            return Ok(checked);
        }
        let Ok(checked) = checking.take(&buf[..count]) else {
            return Err(Stop::Memory);
        };
        match checked {
            Checked::Lawful => {}
            stopped => return Ok(stopped),
        }
    }
}
