//! Lookups of a queue's entries, and the index that they are prepared by.

ghost use Rattle.std.specs.Prelude.{◌≡◌, ◌≤◌, ◌-◌, OnOk, length, drop, option_map};
ghost use Rattle.std.specs.Option.{option_copied};
ghost use Rattle.addr4.specs.Places.{key_of};
ghost use Rattle.fanout_queue.specs.Entries.{changes_of, first_before, IsNextBeside};

use crate::entries::{Entries, Entry};
use crate::index;
use addr4::{Family, Memory, Place, Prefix, Row};
use link_change::Change;
use std::collections::VecDeque;

// The first change at a prefix, of those from an index on.
fn first_among<R, F: Family>(
    kept: &VecDeque<Entry<R, Prefix<F>>>,
    from: usize,
    prefix: Prefix<F>,
) -> Option<&Change<R, Prefix<F>>>
    ensures { option_map (λ change. change.before) (option_copied result) ≡ first_before prefix (drop from (changes_of kept.now.items)) }
{
    let mut at = from;
    'entries: while at < kept.len() {
        let entry = &kept[at];
        if entry.change.prefix == prefix {
            return Some(&entry.change);
        }
        at += 1;
    }
    None
}

// The least of another prefix and of those of the changes from an index on that lie beyond a place.
fn least_among<R, F: Family>(
    kept: &VecDeque<Entry<R, Prefix<F>>>,
    from: usize,
    after: &Place<Prefix<F>>,
    other: Option<Prefix<F>>,
) -> Option<Prefix<F>>
    requires { from ≤ length kept.now.items }
    ensures { IsNextBeside (drop from (changes_of kept.now.items)) (key_of after.now) other result }
{
    let mut least = other;
    let mut at = kept.len();
    'entries: while at > from {
        at -= 1;
        least = index::lesser(after, kept[at].change.prefix, least);
    }
    least
}

impl<R: Row, F: Family> Entries<R, F> {
    ghost use Rattle.fanout_queue.specs.Entries.{IsPlace, unread_at, unindexed, Indexes};

    /// Drops the index, where the last change that it has was dropped.
    pub(crate) fn trim_index(&mut self)
        ensures { self.new ≡ self.old }
    {
        if self.indexed == self.first {
            self.index.clear();
        }
    }

    // The index begins anew, where more than half of what it has is kept no more.
    fn renew_index(&mut self)
        ensures { Indexes self.old self.new }
    {
        let current = self.indexed.saturating_sub(self.first);
        if self.index.len() as u64 / 2 > current {
            self.index.clear();
            self.indexed = self.first;
        }
    }

    // The index gets the first change that is kept and that it doesn't have, if there is one.
    fn index_next(&mut self) -> Result<(), Memory>
        ensures same { Indexes self.old self.new }
        ensures ok { OnOk result (unindexed self.new ≡ unindexed self.old - 1) }
    {
        let number = self.indexed.max(self.first);
        if number == self.end() {
            return Ok(());
        }
        let prefix = self.kept[(number - self.first) as usize].change.prefix;
        index::put_key(&mut self.index, prefix, number)?;
        self.indexed = number + 1;
        Ok(())
    }

    /// The index gets all changes that are kept. For want of memory it gets only some of them.
    pub(crate) fn prepare(&mut self) -> Result<(), Memory>
        ensures same { Indexes self.old self.new }
        ensures full { OnOk result (unindexed self.new ≡ 0) }
    {
        self.renew_index();
        for number in self.indexed.max(self.first)..self.end() {
            self.index_next()?;
        }
        Ok(())
    }

    /// The first change at a prefix, from a place on.
    pub(crate) fn first_at(&self, place: u64, prefix: Prefix<F>) -> Option<&Change<R, Prefix<F>>>
        requires { IsPlace self.now place }
        ensures { option_map (λ change. change.before) (option_copied result) ≡ first_before prefix (unread_at self.now place) }
    {
        match index::first_number(&self.index, prefix, place) {
            Some(number) => Some(&self.kept[(number - self.first) as usize].change),
            None => {
                let from = (place.max(self.indexed) - self.first) as usize;
                first_among(&self.kept, from, prefix)
            }
        }
    }

    /// The least prefix beyond a place that others have, or that has a change from a reader's place on. This is the least that
    /// others have.
    pub(crate) fn next_beside(
        &self,
        place: u64,
        after: &Place<Prefix<F>>,
        other: Option<Prefix<F>>,
    ) -> Option<Prefix<F>>
        requires { IsPlace self.now place }
        ensures { IsNextBeside (unread_at self.now place) (key_of after.now) other result }
    {
        let from = (place.max(self.indexed) - self.first) as usize;
        let least = least_among(&self.kept, from, after, other);
        if self.indexed <= place {
            return least;
        }
        match index::first_stop(&self.index, place, after, &least) {
            None => least,
            Some(key) => {
                if index::is_reached(&least, key.0) {
                    least
                } else {
                    Some(key.0)
                }
            }
        }
    }
}
