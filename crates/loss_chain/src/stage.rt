//! Stages in boxes, each holding the stage above.
//!
//! A stage isn't told its place: whoever calls it names the owner, and the link `out` of the stage.

ghost use Rattle.std.specs.Prelude.{◌≡◌, ◌<◌, ◌≤◌, IfOk, OnOk, OnErr, IfSome, length};
ghost use Rattle.std.specs.List.{AllByRecursion};
ghost use Rattle.link_change.specs.Changes.{IsSent};
ghost use Rattle.journal_text.specs.Links.{rank_of};
ghost use Rattle.journal_text.specs.Journals.{Adds, with_entries};
ghost use Rattle.loss_chain.specs.Tables.{NoneEmpty};
ghost use Rattle.loss_chain.specs.Falls.{way_down};
ghost use Rattle.loss_chain.specs.Steps.{fed_tables, lost_tables, loss_entries, weld_entries};
ghost use Rattle.loss_chain.specs.Stages.{tables_of, deletions_of, rows_of};
ghost use Rattle.loss_chain.specs.Parts.{IsSound, FallsOver, LeadsOver, IsTakenOver, filled_once};

use crate::deletion::Deletion;
use crate::live::Live;
use crate::owner::Owner;
use crate::splice::{feed_top, fresh_top, pass_on, splice_in, splice_out, sweep};
use addr4::{Memory, Prefix, Texts, V4};
use journal_text::{Entry, Journal, Link, Valued};
use link_change::{Change, Turn};
use std::alloc::Global;

/// A stage with all that is above it.
#[derive(Drop)]
pub enum Stage<R, F: Texts = V4> {
    /// The live rows.
    Top(Live<R, F>),
    /// The rows of a loss whose deletes weren't sent yet, and the stage above.
    Deletion(Deletion<R, F>, Box<Stage<R, F>>),
}

impl<F: Texts, R: Valued<F>> Stage<R, F> {
    /// A row is set or taken away at the top.
    pub(crate) fn feed(
        &mut self,
        owner: Owner,
        out: Link,
        p: Prefix<F>,
        new: Option<R>,
        journal: &mut Journal<F>,
    ) -> Result<Option<Change<R, Prefix<F>>>, Memory>
        requires { IsSound out (tables_of self.old) }
        ensures sent { IfOk result (IsSent (rows_of self.old) (rows_of self.new) p) }
        ensures after { OnOk result (tables_of self.new ≡ fed_tables (tables_of self.old) p new) }
        ensures new_row { IfOk result (λ sent. IfSome sent (λ change. change.after ≡ new)) }
        ensures lines { IfOk result (λ sent. Adds (FallsOver R.value owner out (tables_of self.old) (tables_of self.new) p (way_down owner out (deletions_of self.old)) sent) journal.old journal.new) }
        ensures sound { OnOk result (IsSound out (tables_of self.new)) }
        ensures count { length (deletions_of self.new) ≡ length (deletions_of self.old) }
    {
        match self {
            Stage::Top(live) => {
                let sent = feed_top(live, out, p, new, journal)?;
                Ok(sent)
            }
            Stage::Deletion(deletion, upper) => {
                let link = owner.lost(deletion.number());
                let Some(change) = upper.feed(owner, link, p, new, journal)? else {
                    return Ok(None);
                };
                let sent = pass_on(deletion, out, change, journal)?;
                Ok(sent)
            }
        }
    }

    /// The rows are lost: they go to a deletion stage directly below the top, which begins anew.
    pub(crate) fn lose(
        &mut self,
        alloc: Global,
        owner: Owner,
        out: Link,
        number: u32,
        journal: &mut Journal<F>,
    ) -> Result<(), Memory>
        requires sound { IsSound out (tables_of self.old) }
        requires above { rank_of out ≤ number }
        requires later { AllByRecursion (λ d. d.number < number) (deletions_of self.old) }
        ensures after { OnOk result (tables_of self.new ≡ lost_tables number (tables_of self.old)) }
        ensures lines { OnOk result (journal.new ≡ with_entries journal.old (loss_entries owner number (tables_of self.old))) }
        ensures leads { OnOk result (LeadsOver R.value owner out (tables_of self.old) (loss_entries owner number (tables_of self.old)) (tables_of self.new)) }
        ensures rows { OnOk result (rows_of self.new ≡ rows_of self.old) }
        ensures sound { OnOk result (IsSound out (tables_of self.new)) }
        ensures memory { OnErr result (deletions_of self.new ≡ deletions_of self.old) }
    {
        match self {
            Stage::Top(live) => {
                if live.is_empty() {
                    return Ok(());
                }
                let fresh = fresh_top(alloc, owner.lost(number), journal)?;
                let table = live.lose();
                splice_in(self, Deletion::new(number, table), fresh);
                Ok(())
            }
            Stage::Deletion(deletion, upper) => {
                let link = owner.lost(deletion.number());
                upper.lose(alloc, owner, link, number, journal)
            }
        }
    }

    /// Takes the deletion stage out that stands empty, if there is one.
    pub(crate) fn weld(
        &mut self,
        alloc: Global,
        owner: Owner,
        out: Link,
        journal: &mut Journal<F>,
    ) -> Result<(), Memory>
        requires sound { IsSound out (tables_of self.old) }
        ensures after { OnOk result (tables_of self.new ≡ filled_once (tables_of self.old)) }
        ensures lines { OnOk result (journal.new ≡ with_entries journal.old (weld_entries owner out (deletions_of self.old))) }
        ensures leads { OnOk result (LeadsOver R.value owner out (tables_of self.old) (weld_entries owner out (deletions_of self.old)) (tables_of self.new)) }
        ensures rows { OnOk result (rows_of self.new ≡ rows_of self.old) }
        ensures sound { OnOk result (IsSound out (tables_of self.new)) }
        ensures count { length (deletions_of self.new) ≤ length (deletions_of self.old) }
    {
        match self {
            Stage::Top(_) => Ok(()),
            Stage::Deletion(deletion, upper) => {
                let link = owner.lost(deletion.number());
                if !deletion.is_empty() {
                    upper.weld(alloc, owner, link, journal)?;
                    return Ok(());
                }
                journal.push_entry(Entry::Weld(link, out))?;
                splice_out(self, alloc);
                Ok(())
            }
        }
    }

    /// One turn of the deletion stage of a loss: its least row goes, by a delete.
    pub(crate) fn unit(
        &mut self,
        owner: Owner,
        out: Link,
        number: u32,
        journal: &mut Journal<F>,
    ) -> Result<Turn<R, Prefix<F>>, Memory>
        requires sound { IsSound out (tables_of self.old) }
        requires full { NoneEmpty (deletions_of self.old) }
        ensures taken { IfOk result (IsTakenOver R.value owner out (tables_of self.old) (tables_of self.new) number journal.old journal.new) }
        ensures sound { OnOk result (IsSound out (tables_of self.new)) }
        ensures count { length (deletions_of self.new) ≡ length (deletions_of self.old) }
    {
        match self {
            Stage::Top(_) => Ok(Turn::Nothing),
            Stage::Deletion(deletion, upper) => {
                if deletion.number() == number {
                    let change = sweep(deletion, out, journal)?;
                    return Ok(Turn::Sent(change));
                }
                let link = owner.lost(deletion.number());
                match upper.unit(owner, link, number, journal)? {
                    Turn::Nothing => Ok(Turn::Nothing),
                    Turn::Quiet => Ok(Turn::Quiet),
                    Turn::Sent(change) => {
                        let sent = pass_on(deletion, out, change, journal)?;
                        Ok(Turn::taken(sent))
                    }
                }
            }
        }
    }
}
