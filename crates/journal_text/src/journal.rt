//! The output, line by line.

ghost use Rattle.std.specs.Prelude.{◌≡◌, ◌++◌, ◌∷◌, [], OnOk, OnErr};
ghost use Rattle.journal_text.specs.Lines.{Line};
ghost use Rattle.journal_text.specs.declared.line.Line.TheVariants as lines;
ghost use Rattle.journal_text.specs.Walk.{change_entries};
ghost use Rattle.journal_text.specs.Journals.{with_lines, with_entries, with_text, flushed};
ghost use Rattle.journal_text.specs.Values.{valued_change, sent_entries};

use crate::entry::Entry;
use crate::kept::Text;
use crate::line::Line;
use crate::lines::is_entry;
use crate::link::Link;
use crate::reader::{TextReader, read_spans};
use crate::value::{Value, copy_of};
use crate::valued::{Valued, values_of};
use addr4::{Addr, Memory, Prefix, Texts, V4};
use bgp_attr::SharedAttrs;
use link_change::Change;
use std::alloc::Global;
use std::marker::Model;

/// The text of the lines that the router gives, as it is made; of the octets in `out` and `note` the hex digits when it is
/// read. Where the output is quiet, the journal's own lines give no text, and nothing is kept of them.
#[derive(Drop)]
pub struct Journal<F: Texts = V4> {
    alloc: Global,
    text: Text,
    // The lines whose text isn't made yet; none of the journal's own where it is quiet.
    pending: Vec<Line<SharedAttrs<F>, Addr<F>, Prefix<F>>>,
    quiet: bool,
}

impl<F: Texts> Model for Journal<F> {
    ghost use Rattle.journal_text.specs.Journals.{Journaled, journaled_code};
    ghost use Rattle.journal_text.specs.Kept.{IsWhole, chars};
    ghost use Rattle.journal_text.specs.Texts.{text_of};

    ghost Value = { Journaled };

    ghost coded = { journaled_code };

    ghost view = { λ j. record { text = chars j.text; pending = text_of F.V6 j.quiet j.pending.items; quiet = j.quiet; v6 = F.V6 } };

    ghost invariant = { λ j. IsWhole j.text };
}

impl<F: Texts> Journal<F> {
    /// No line yet; takes no memory.
    pub fn new(alloc: Global, quiet: bool) -> Journal<F>
        ensures { result ≡ record { text = []; pending = []; quiet = quiet; v6 = F.V6 } }
    {
        Journal {
            alloc,
            text: Text::new(alloc),
            pending: Vec::new(alloc),
            quiet,
        }
    }

    /// Appends a line.
    pub fn push_line(
        &mut self,
        line: Line<SharedAttrs<F>, Addr<F>, Prefix<F>>,
    ) -> Result<(), Memory>
        ensures { OnOk result (self.new ≡ with_lines self.old (line ∷ [])) }
    {
        if self.quiet && is_entry(&line) {
            return Ok(());
        }
        self.pending.push(line)?;
        Ok(())
    }

    /// Appends an entry of the journal.
    pub fn push_entry(
        &mut self,
        entry: Entry<Value<SharedAttrs<F>, Addr<F>>, Prefix<F>>,
    ) -> Result<(), Memory>
        ensures { OnOk result (self.new ≡ with_entries self.old (entry ∷ [])) }
    {
        self.push_line(Line::Journal(entry))
    }

    /// Appends the entry of a change of rows on a link: an add, a delete or a replacement; none where no row was or is.
    pub fn push_change<R: Valued<F>>(
        &mut self,
        link: Link,
        change: &Change<R, Prefix<F>>,
    ) -> Result<(), Memory>
        ensures { OnOk result (self.new ≡ with_entries self.old (valued_change R.value link change.now)) }
    {
        if self.quiet {
            return Ok(());
        }
        let (before, after) = values_of(change)?;
        self.push_values(link, change.prefix, before, after)
    }

    /// Appends the entries of one change of rows on two links, first on the one and then on the other. The values are made once.
    pub fn push_change_on_both<R: Valued<F>>(
        &mut self,
        first: Link,
        second: Link,
        change: &Change<R, Prefix<F>>,
    ) -> Result<(), Memory>
        ensures { OnOk result (self.new ≡ with_entries self.old (valued_change R.value first change.now ++ valued_change R.value second change.now)) }
    {
        if self.quiet {
            return Ok(());
        }
        let (before, after) = values_of(change)?;
        self.push_values(first, change.prefix, copy_of(&before)?, copy_of(&after)?)?;
        self.push_values(second, change.prefix, before, after)
    }

    /// Appends the entry of what a stage sends on a link, if it sends something.
    pub fn push_sent<R: Valued<F>>(
        &mut self,
        link: Link,
        sent: &Option<Change<R, Prefix<F>>>,
    ) -> Result<(), Memory>
        ensures { OnOk result (self.new ≡ with_entries self.old (sent_entries R.value link sent.now)) }
    {
        match sent {
            Some(change) => self.push_change(link, change),
            None => Ok(()),
        }
    }

    // Appends the entry of a change of values.
    fn push_values(
        &mut self,
        link: Link,
        prefix: Prefix<F>,
        before: Option<Value<SharedAttrs<F>, Addr<F>>>,
        after: Option<Value<SharedAttrs<F>, Addr<F>>>,
    ) -> Result<(), Memory>
        ensures { OnOk result (self.new ≡ with_entries self.old (change_entries link prefix before after)) }
    {
        match (before, after) {
            (None, Some(new)) => self.push_entry(Entry::Add(link, prefix, new)),
            (Some(old), None) => self.push_entry(Entry::Delete(link, prefix, old)),
            (Some(old), Some(new)) => self.push_entry(Entry::Replace(link, prefix, old, new)),
            (None, None) => Ok(()),
        }
    }

    /// Makes the text of the lines that have none yet. For want of memory there is no text any
    /// more, and all of these lines stay.
    pub fn flush(&mut self) -> Result<(), Memory>
        ensures ok { OnOk result (self.new ≡ flushed self.old) }
        ensures memory { OnErr result ((self.new.pending ≡ self.old.pending) × (self.new.quiet ≡ self.old.quiet) × (self.new.v6 ≡ self.old.v6)) }
    {
        let made = self.text.push_lines(self.alloc, self.quiet, &self.pending);
        match made {
            Ok(()) => {
                self.pending.clear();
                Ok(())
            }
            Err(memory) => {
                self.text.clear();
                Err(memory)
            }
        }
    }

    /// Reads the text of the lines that were flushed; those pushed since the last [`flush`](Journal::flush) aren't in it.
    pub fn reader(&self) -> TextReader<'_>
        ensures { result ≡ self.now.text }
    {
        read_spans(self.text.content.as_slice(), self.text.spans.as_slice())
    }

    /// Drops the text, and keeps its memory for the next one. Lines that weren't flushed stay.
    pub fn clear(&mut self)
        ensures { self.new ≡ with_text self.old [] }
    {
        self.text.clear();
    }

    /// Exchanges the texts that are ready, and their memory, with the journal of the other network; lines that weren't flushed stay
    /// where they are. So the lines of both stand in one text, in the order in which they were flushed.
    pub fn exchange_texts<G: Texts>(&mut self, other: &mut Journal<G>)
        ensures own { self.new ≡ with_text self.old other.old.text }
        ensures other { other.new ≡ with_text other.old self.old.text }
    {
        std::mem::swap(&mut self.text, &mut other.text);
    }

    /// A journal's lines are those of its family.
    pub fn known(&self)
        ensures { self.now.v6 ≡ F.V6 }
    {
        let _quiet = self.quiet;
    }
}
