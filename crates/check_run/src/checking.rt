//! A journal that comes in pieces, walked line by line.

ghost use Rattle.std.specs.Prelude.{◌≡◌, ◌++◌, ◌∷◌, [], ◌+◌, List, ℕ, IfOk, length};
ghost use Rattle.journal_check.specs.Judged.{IsChecked};
ghost use Rattle.journal_check.specs.declared.checked.Checked.{Checked};
ghost use Rattle.check_run.specs.Lines.{IsPart, lines_of};
ghost use Rattle.check_run.specs.Walking.{GoesOn, IsNearer, HasWalked, IsReady};
ghost use Rattle.check_run.specs.Stages.{stage};

use crate::lines::{first_line, without_return};
use addr4::Memory;
use journal_check::{Checked, Walk};
use std::alloc::Global;

/// So many bytes without an LF may be part of a line of a journal, which may end with CR LF; with one more they aren't.
const LONGEST_PART: usize = 65537;

/// Takes a text in pieces, and walks each line as soon as it is whole.
#[derive(Drop)]
pub(crate) struct Checking {
    walk: Walk,
    /// What was read of the line that has begun.
    pending: Vec<u8>,
}

impl Checking {
    /// Nothing was read. Takes no memory.
    pub(crate) fn new(alloc: Global) -> Checking
        ensures { HasWalked [] (stage result) }
    {
        Checking {
            walk: Walk::new(alloc),
            pending: Vec::new(alloc),
        }
    }

    /// Takes more of the line that has begun, which doesn't end yet.
    fn begin(&mut self, part: &[u8]) -> Result<Checked, Memory>
        requires part { IsPart part.now }
        requires ready { IsReady (stage self.old) }
        ensures goes_on { IfOk result (λ checked. GoesOn checked (stage self.old) part.now (stage self.new)) }
        ensures nearer { IfOk result (λ checked. checked ≡ Checked.Lawful → IsNearer (length part.now) (stage self.old) (stage self.new)) }
    {
        self.pending.extend_from_slice(part)?;
        if self.pending.len() > LONGEST_PART {
            let checked = self.walk.check(self.pending.as_slice())?;
            return Ok(checked);
        }
        Ok(Checked::Lawful)
    }

    /// Takes the last part of the line that has begun, behind which stands an LF.
    fn end(&mut self, part: &[u8]) -> Result<Checked, Memory>
        requires part { IsPart part.now }
        requires ready { IsReady (stage self.old) }
        ensures goes_on { IfOk result (λ checked. GoesOn checked (stage self.old) (part.now ++ 10 ∷ []) (stage self.new)) }
        ensures nearer { IfOk result (λ checked. checked ≡ Checked.Lawful → IsNearer (length part.now + 1) (stage self.old) (stage self.new)) }
    {
        self.pending.extend_from_slice(part)?;
        let checked = self.walk.check(without_return(self.pending.as_slice()))?;
        self.pending.clear();
        Ok(checked)
    }

    /// Takes a piece of the text, and says what is known of the journal. Nothing is taken after a line that isn't lawful.
    pub(crate) fn take(&mut self, piece: &[u8]) -> Result<Checked, Memory>
        requires { IsReady (stage self.old) }
        ensures goes_on { IfOk result (λ checked. GoesOn checked (stage self.old) piece.now (stage self.new)) }
        ensures nearer { IfOk result (λ checked. checked ≡ Checked.Lawful → IsNearer (length piece.now) (stage self.old) (stage self.new)) }
    {
        let mut rest = piece;
        loop {
            let (part, next) = first_line(rest);
            let Some(next) = next else {
                let checked = self.begin(part)?;
                return Ok(checked);
            };
            let ended = self.end(part)?;
            match ended {
                Checked::Lawful => rest = next,
                stopped => return Ok(stopped),
            }
        }
    }

    /// Takes the end of the text, and says what is to be said of it. A last line without an LF keeps its CR.
    pub(crate) fn finish(&mut self) -> Result<Checked, Memory>
        ensures { IfOk result (λ checked. (read : List ℕ) → HasWalked read (stage self.old) → IsChecked (lines_of read) checked) }
    {
        if self.pending.is_empty() {
            return Ok(Checked::Lawful);
        }
        let checked = self.walk.check(self.pending.as_slice())?;
        Ok(checked)
    }
}
