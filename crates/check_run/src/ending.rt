//! How a run of `check` ends.

ghost use Rattle.std.specs.Prelude.{◌≡◌};
ghost use Rattle.check_run.specs.Answers.{ending_of};

use journal_check::Checked;

/// How a run of `check` ended.
#[derive(Clone, Copy, PartialEq, Eq)]
pub enum Ending {
    /// All lines are a journal's and break no rule, and the line that says so was written.
    Lawful,
    /// A line breaks a rule, and the line that says so was written.
    Broken,
    /// A line isn't a line of a journal, and the line that says so was written.
    Refused,
    /// A read failed. Nothing was written.
    ReadFault,
    /// A write failed.
    WriteFault,
    /// There was no memory. Nothing was written.
    Memory,
}

impl Ending {
    /// The ending where this was said.
    pub(crate) fn of(checked: Checked) -> Ending
        ensures { result ≡ ending_of checked }
    {
        match checked {
            Checked::Lawful => Ending::Lawful,
            Checked::Broken(_, _) => Ending::Broken,
            Checked::NotAJournal(_) => Ending::Refused,
        }
    }
}
