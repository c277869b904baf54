//! What is said of a link: the answer at one prefix, all rows, and how many.

ghost use Rattle.std.specs.Prelude.{◌≡◌, ◌≤◌, ◌<◌, ◌^◌, OnOk, IfOk, IsSome, Some};
ghost use Rattle.journal_text.specs.Journals.{with_lines};
ghost use Rattle.router_moments.specs.Moments.{router_links};
ghost use Rattle.router_moments.specs.Stands.{HaveReaders};
ghost use Rattle.router_moments.specs.Blocks.{answer_lines, Shows};
ghost use Rattle.router_moments.specs.Lookups.{Counts, ShowsRow, IsCountOf};
ghost use Rattle.router_moments.specs.Works.{Pushes};
ghost use Rattle.router_network.specs.Informed.{Informed};

use crate::network::{Network, plus};
use addr4::{Memory, Place, Prefix};
use decision::Contests;
use journal_text::{Entry, Journal, Line, Link};
use peer_out::Writes;

impl<F: Writes> Network<F> {
    /// Appends the answer of a lookup: the row at the prefix or none, or `absent` where the link isn't live.
    pub(crate) fn ask(
        &self,
        link: Link,
        p: Prefix<F>,
        contests: &Contests<F>,
        journal: &mut Journal<F>,
    ) -> Result<(), Memory>
        requires readers { HaveReaders self.now }
        requires informed { Informed contests.now self.now }
        ensures { OnOk result (journal.new ≡ with_lines journal.old (answer_lines link p (router_links self.now link))) }
    {
        if !self.live(link) {
            return journal.push_line(Line::Absent);
        }
        let row = self.asked(link, p, contests)?;
        journal.push_line(Line::Journal(Entry::Asked(link, p, row)))
    }

    /// Appends all rows of a link by prefix, and their number; or `absent` where the link isn't live.
    pub(crate) fn show(
        &self,
        link: Link,
        contests: &Contests<F>,
        journal: &mut Journal<F>,
    ) -> Result<(), Memory>
        requires readers { HaveReaders self.now }
        requires informed { Informed contests.now self.now }
        ensures { OnOk result (Pushes (Shows link (router_links self.now link)) journal.old journal.new) }
    {
        if !self.live(link) {
            return journal.push_line(Line::Absent);
        }
        self.show_rows(link, contests, journal)
    }

    /// All rows of a live link, and their number.
    fn show_rows(
        &self,
        link: Link,
        contests: &Contests<F>,
        journal: &mut Journal<F>,
    ) -> Result<(), Memory>
        requires readers { HaveReaders self.now }
        requires live { IsSome (router_links self.now link) }
        requires informed { Informed contests.now self.now }
        ensures { OnOk result (Pushes (Shows link (router_links self.now link)) journal.old journal.new) }
    {
        let mut count: u128 = 0;
        let mut place = Place::Before;
        'rows: while let Some(p) = self.next_candidate(link, place, contests) {
            p.known();
            let shown = self.show_row(link, p, contests, journal)?;
            count = plus(count, shown)?;
            place = Place::At(p);
        }
        count_known(count);
        journal.push_line(Line::Rows(link, count))
    }

    /// The row at a prefix, if there is one; answers how many there are.
    fn show_row(
        &self,
        link: Link,
        p: Prefix<F>,
        contests: &Contests<F>,
        journal: &mut Journal<F>,
    ) -> Result<u128, Memory>
        requires readers { HaveReaders self.now }
        requires live { IsSome (router_links self.now link) }
        requires informed { Informed contests.now self.now }
        ensures shows { IfOk result (ShowsRow (router_links self.now) link p journal.old journal.new) }
        ensures few { IfOk result (λ count. count ≤ 1) }
    {
        match self.asked(link, p, contests)? {
            None => Ok(0),
            Some(value) => {
                journal.push_line(Line::Row(link, p, value))?;
                Ok(1)
            }
        }
    }

    /// How many rows a link has; None where it isn't live.
    pub fn count(&self, link: Link, contests: &Contests<F>) -> Result<Option<u128>, Memory>
        requires readers { HaveReaders self.now }
        requires informed { Informed contests.now self.now }
        ensures { IfOk result (IsCountOf (router_links self.now link)) }
    {
        if !self.live(link) {
            return Ok(None);
        }
        Ok(Some(self.count_rows(link, contests)?))
    }

    /// How many rows a live link has.
    fn count_rows(&self, link: Link, contests: &Contests<F>) -> Result<u128, Memory>
        requires readers { HaveReaders self.now }
        requires live { IsSome (router_links self.now link) }
        requires informed { Informed contests.now self.now }
        ensures { IfOk result (λ count. IsCountOf (router_links self.now link) (Some count)) }
    {
        let mut count: u128 = 0;
        let mut place = Place::Before;
        'rows: while let Some(p) = self.next_candidate(link, place, contests) {
            p.known();
            let held = self.count_row(link, p, contests)?;
            count = plus(count, held)?;
            place = Place::At(p);
        }
        Ok(count)
    }

    /// How many rows stand at a prefix: one or none.
    fn count_row(&self, link: Link, p: Prefix<F>, contests: &Contests<F>) -> Result<u128, Memory>
        requires readers { HaveReaders self.now }
        requires live { IsSome (router_links self.now link) }
        requires informed { Informed contests.now self.now }
        ensures counts { IfOk result (Counts (router_links self.now) link p) }
        ensures few { IfOk result (λ count. count ≤ 1) }
    {
        match self.asked(link, p, contests)? {
            None => Ok(0),
            Some(_) => Ok(1),
        }
    }
}

/// A count is below 2^128, as its type says.
fn count_known(count: u128)
    ensures { count < 2 ^ 128 }
{}
