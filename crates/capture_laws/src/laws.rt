//! The laws.

ghost use Rattle.capture_laws.specs.Readings.{LinesAreAccepted};

use mrt_reader::{files_are_opened, lines_are_in_order};

/// Each line of the file that records of bytes give is read as the event that it is, and may stand there.
pub fn lines_are_accepted()
    ensures { LinesAreAccepted }
{
    files_are_opened();
    lines_are_in_order();
}
