//! What an entry demands of the live links, and what it makes of them.

ghost use Rattle.std.specs.Prelude.{◌≡◌, ◌↔◌, ◌≢◌, List, ℕ, IsTrue, None, IfOk, OnOk};
ghost use Rattle.journal_text.specs.Walk.{Demands, HaveSameRows, after, with_link};
ghost use Rattle.journal_check.specs.Maps.{links_of};
ghost use Rattle.journal_check.specs.Walked.{Admits};

use crate::links::LiveLinks;
use crate::text::Text;
use addr4::{Memory, Prefix, Row};
use addr6::V6;
use journal_text::{Entry, Link};

impl LiveLinks {
    /// Follows the entry where the links keep what it demands of them, and answers whether they do.
    pub(crate) fn admit(&mut self, entry: Entry<Text, Prefix<V6>>) -> Result<bool, Memory>
        ensures { IfOk result (λ admitted. Admits admitted entry (links_of self.old) (links_of self.new)) }
    {
        if !self.allows(&entry) {
            drop(entry);
            return Ok(false);
        }
        self.follow(entry)?;
        Ok(true)
    }

    /// Whether the links keep what the entry demands of them.
    fn allows(&self, entry: &Entry<Text, Prefix<V6>>) -> bool
        ensures { IsTrue result ↔ Demands (links_of self.now) entry.now }
    {
        match entry {
            Entry::Begin(link) => self.is_free(*link),
            Entry::Inherit(link, from) => self.is_free(*link) && self.is_live(*from),
            Entry::Add(link, p, _) => self.has_row(*link, *p, None),
            Entry::Delete(link, p, old) => self.has_row(*link, *p, Some(old)),
            Entry::Replace(link, p, old, new) => {
                self.has_row(*link, *p, Some(old)) && !old.same(new)
            }
            Entry::Asked(link, p, row) => self.has_row(*link, *p, row.as_ref()),
            Entry::Weld(upper, lower) => self.may_weld(*upper, *lower),
            Entry::End(link) => self.is_live(*link),
        }
    }

    // Whether these are two links with the same rows.
    fn may_weld(&self, upper: Link, lower: Link) -> bool
        ensures { IsTrue result ↔ ((upper ≢ lower) × HaveSameRows (links_of self.now) upper lower) }
    {
        !upper.is(lower) && self.have_same_rows(upper, lower)
    }

    /// The links after the entry.
    fn follow(&mut self, entry: Entry<Text, Prefix<V6>>) -> Result<(), Memory>
        ensures { OnOk result (links_of self.new ≡ after (links_of self.old) entry) }
    {
        match entry {
            Entry::Begin(link) => self.begin(link),
            Entry::Inherit(link, from) => self.inherit(link, from),
            Entry::Add(link, p, new) => self.set_row(link, p, new),
            Entry::Delete(link, p, _old) => {
                self.drop_row(link, p);
                Ok(())
            }
            Entry::Replace(link, p, _old, new) => self.set_row(link, p, new),
            Entry::Asked(_link, _p, _row) => Ok(()),
            Entry::Weld(upper, _lower) => {
                self.end(upper);
                Ok(())
            }
            Entry::End(link) => {
                self.end(link);
                Ok(())
            }
        }
    }

    // The link isn't live any more.
    fn end(&mut self, link: Link)
        ensures { links_of self.new ≡ with_link (links_of self.old) link None }
    {
        self.take(link);
    }

    // The link has the rows that another has now.
    fn inherit(&mut self, link: Link, from: Link) -> Result<(), Memory>
        ensures { OnOk result (links_of self.new ≡ with_link (links_of self.old) link (links_of self.old from)) }
    {
        let Some(rows) = self.get(from) else {
            self.take(link);
            return Ok(());
        };
        let rows = rows.copy()?;
        self.put(link, rows)?;
        Ok(())
    }
}
