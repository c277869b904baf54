//! The walk through a printed journal.

ghost use Rattle.std.specs.Prelude.{◌≡◌, ◌+◌, ◌<◌, ℕ, List, [], ◌∷◌, ◌++◌, OnOk, IfOk};
ghost use Rattle.journal_check.specs.Judged.{rule_of};
ghost use Rattle.journal_check.specs.Walked.{Follows, IsAfter, Judges, Steps};
ghost use Rattle.journal_check.specs.declared.checked.Checked.TheVariants as states;

use crate::checked::Checked;
use crate::entries::FamilyEntry;
use crate::links::LiveLinks;
use crate::reading::{Reading, read_line};
use crate::text::Text;
use addr4::{Memory, Prefix};
use addr6::V6;
use journal_text::Entry;
use std::alloc::Global;
use std::marker::Model;

// The number of the line that is none of a journal, whatever it holds.
const LAST_LINE: u64 = 4_294_967_296;

/// A walk through a journal, line by line, with the rows of each live link: those of both networks, of which each entry
/// speaks of one.
#[derive(Drop)]
pub struct Walk {
    alloc: Global,
    // How many lines were read while all was lawful.
    number: u32,
    state: Checked,
    // The live links of the first network, and of the second.
    first: LiveLinks,
    second: LiveLinks,
}

impl Model for Walk {
    ghost use Rattle.journal_check.specs.Walked.{Walked, walked_code};
    ghost use Rattle.journal_check.specs.contracts.checked.Checked as checked_row;

    ghost Value = { Walked };

    ghost coded = { walked_code checked_row.the_row.coded };

    ghost view = { λ w. record { number = w.number; state = w.state; first = w.first; second = w.second } };
}

// The rule that an entry can break.
fn rule_of(entry: &Entry<Text, Prefix<V6>>) -> u8
    ensures { result ≡ rule_of entry.now }
{
    match entry {
        Entry::Begin(_) => 3,
        Entry::Inherit(_, _) => 3,
        Entry::Add(_, _, _) => 1,
        Entry::Delete(_, _, _) => 1,
        Entry::Replace(_, _, _, _) => 1,
        Entry::Asked(_, _, _) => 2,
        Entry::Weld(_, _) => 3,
        Entry::End(_) => 3,
    }
}

impl Walk {
    /// Before the first line. Takes no memory.
    pub fn new(alloc: Global) -> Walk
        ensures { IsAfter [] result }
    {
        Walk {
            alloc,
            number: 0,
            state: Checked::Lawful,
            first: LiveLinks::new(alloc),
            second: LiveLinks::new(alloc),
        }
    }

    /// Takes the next line, without its LF, and says what is known of the journal up to it. Once a line isn't a journal's
    /// or breaks a rule, the answer stays. For want of memory alone there is none; the walk may then only be dropped.
    pub fn check(&mut self, line: &[u8]) -> Result<Checked, Memory>
        ensures after { OnOk result ((lines : List (List ℕ)) → IsAfter lines self.old → IsAfter (lines ++ line.now ∷ []) self.new) }
        ensures state { IfOk result (λ checked. checked ≡ self.new.state) }
    {
        match self.state {
            Checked::Lawful => self.step(line)?,
            Checked::Broken(_, _) => {}
            Checked::NotAJournal(_) => {}
        }
        Ok(self.state)
    }

    /// What is known of the journal so far.
    pub fn state(&self) -> Checked
        ensures { result ≡ self.now.state }
    {
        self.state
    }

    // One more line of a journal that was lawful so far.
    fn step(&mut self, line: &[u8]) -> Result<(), Memory>
        ensures { OnOk result (Steps line.now self.old self.new) }
    {
        let number = u64::from(self.number) + 1;
        if number == LAST_LINE {
            self.state = Checked::NotAJournal(number);
            return Ok(());
        }
        match read_line(self.alloc, line)? {
            Reading::NotALine => self.state = Checked::NotAJournal(number),
            Reading::Skipped => self.number += 1,
            Reading::Read(entry) => self.judge(entry)?,
        }
        Ok(())
    }

    // One more entry, for the links of its network, which admit it or not.
    fn admit(&mut self, read: FamilyEntry) -> Result<bool, Memory>
        ensures { IfOk result (λ admitted. Follows admitted read self.old self.new) }
    {
        if read.v6 {
            self.second.admit(read.entry)
        } else {
            self.first.admit(read.entry)
        }
    }

    // One more entry.
    fn judge(&mut self, read: FamilyEntry) -> Result<(), Memory>
        requires { self.old.number + 1 < 4294967296 }
        ensures { OnOk result (Judges read self.old self.new) }
    {
        let rule = rule_of(&read.entry);
        let admitted = self.admit(read)?;
        if admitted {
            self.number += 1;
        } else {
            self.state = Checked::Broken(u64::from(self.number) + 1, rule);
        }
        Ok(())
    }
}
