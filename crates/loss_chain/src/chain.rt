//! A chain of stages, as the crates above see it.

ghost use Rattle.std.specs.Prelude.{◌≡◌, ◌<◌, ◌≤◌, IfOk, OnOk, is_some, None, slice_get};
ghost use Rattle.std.specs.Option.{option_copied, option_map};
ghost use Rattle.std.specs.List.{AllByRecursion};
ghost use Rattle.std.specs.FinMap as map;
ghost use Rattle.link_change.specs.Rows.{is_empty_map};
ghost use Rattle.link_change.specs.Changes.{IsSent};
ghost use Rattle.journal_text.specs.Lines.{Value};
ghost use Rattle.journal_text.specs.Journals.{Adds, with_entries};
ghost use Rattle.loss_chain.specs.Owners.{lowest_link};
ghost use Rattle.loss_chain.specs.Tables.{lowest_rows, IsLossChain, NoneEmpty, OneEmptyAtMost};
ghost use Rattle.loss_chain.specs.Stages.{tables_of, chain_candidates};
ghost use Rattle.loss_chain.specs.Falls.{FallsTables, LeadsTables, way_down};
ghost use Rattle.loss_chain.specs.Steps.{no_tables, fed_tables, lost_tables, loss_entries, table_of, welded_tables, weld_entries, oldest_of, overdue_of, IsTakenTables};

use crate::deletion::Deletion;
use crate::live::Live;
use crate::owner::Owner;
use crate::stage::Stage;
use addr4::{Memory, Place, Prefix, Row, Texts, V4};
use journal_text::{Journal, Task, Value, Valued};
use link_change::{Change, Turn, Upstream};
use std::alloc::Global;
use std::marker::Model;

/// The live rows of a source, and a deletion stage for each of its losses. Contracts see the live rows and the lost tables.
/// Each call is told whose chain it is.
#[derive(Drop)]
pub struct LossChain<R, F: Texts = V4> {
    alloc: Global,
    pub(crate) lowest: Stage<R, F>,
}

impl<R, F: Texts> Model for LossChain<R, F> {
    ghost use Rattle.std.specs.Prelude.{◌≤◌, length};
    ghost use Rattle.loss_chain.specs.Tables.{Tables, tables_code};
    ghost use Rattle.loss_chain.specs.Stages.{tables_of, deletions_of};

    ghost Value = { Tables R };

    ghost coded = { tables_code R.code };

    ghost view = { λ c. tables_of c.lowest };

    ghost invariant = { λ c. length (deletions_of c.lowest) ≤ 16 };
}

impl<F: Texts, R: Valued<F>> LossChain<R, F> {
    /// A chain without rows and without deletion stages. Takes no memory; what the stages hold later comes from `alloc`.
    pub fn new(alloc: Global) -> LossChain<R, F>
        ensures { result ≡ no_tables }
    {
        LossChain {
            alloc,
            lowest: Stage::Top(Live::new(alloc)),
        }
    }

    /// The lowest stage, which holds all others: a deletion stage holds the stage above it in its box, up to the live rows.
    pub fn lowest(&self) -> &Stage<R, F>
        ensures { tables_of result.now ≡ self.now }
    {
        &self.lowest
    }

    /// A row is set at a prefix (`new` is some), or taken away. Answers the change on the lowest link: None exactly where its
    /// map stays the same. A row that is set takes its prefix out of the lost tables, and may so empty one: weld then. Memory
    /// comes only for want of memory.
    pub fn feed(
        &mut self,
        owner: Owner,
        p: Prefix<F>,
        new: Option<R>,
        journal: &mut Journal<F>,
    ) -> Result<Option<Change<R, Prefix<F>>>, Memory>
        requires chain { IsLossChain self.old }
        requires full { NoneEmpty self.old.deletions }
        ensures sent { IfOk result (IsSent (lowest_rows self.old) (lowest_rows self.new) p) }
        ensures after { OnOk result (self.new ≡ fed_tables self.old p new) }
        ensures lines { IfOk result (λ sent. Adds (FallsTables R.value owner self.old self.new p (way_down owner (lowest_link owner) self.old.deletions) sent) journal.old journal.new) }
        ensures chain { OnOk result (IsLossChain self.new) }
        ensures one_empty { OnOk result (OneEmptyAtMost self.new.deletions) }
    {
        let link = owner.lowest();
        let sent = self.lowest.feed(owner, link, p, new, journal)?;
        Ok(sent)
    }

    /// The row at a prefix of the lowest link, lent.
    pub fn row(&self, p: Prefix<F>) -> Option<&R>
        ensures { option_copied result ≡ lowest_rows self.now p }
    {
        self.lowest.row(p)
    }

    /// The deletion stage of a loss, if it stands.
    pub fn deletion(&self, number: u32) -> Option<&Deletion<R, F>>
        ensures { option_map (λ d. d.rows) (option_copied result) ≡ table_of number self.now.deletions }
    {
        self.lowest.deletion(number)
    }

    /// The number of a loss whose stage stands, by the place of the stage, the longest standing first.
    pub fn loss_at(&self, place: u32) -> Option<u32>
        ensures { result ≡ option_map (λ d. d.number) (slice_get self.now.deletions place) }
    {
        self.lowest.loss_at(place)
    }

    /// Whether a row is live at the prefix.
    pub fn has(&self, p: Prefix<F>) -> bool
        ensures { result ≡ is_some (map.get self.now.live p) }
    {
        self.lowest.has(p)
    }

    /// The task that has to run to its end before the source may be lost: that of the stage that stands longest, where 16
    /// stand and a row is live. So no chain has more than 16 deletion stages.
    pub fn overdue(&self, owner: Owner) -> Option<Task>
        ensures { result ≡ overdue_of owner self.now }
    {
        if self.lowest.stands_below(16) || self.lowest.has_no_live() {
            return None;
        }
        self.oldest(owner)
    }

    /// The task of the deletion stage that stands longest, the lowest; None where none stands.
    pub fn oldest(&self, owner: Owner) -> Option<Task>
        ensures { result ≡ oldest_of owner self.now.deletions }
    {
        match &self.lowest {
            Stage::Top(_) => None,
            Stage::Deletion(deletion, _) => Some(owner.task(deletion.number())),
        }
    }

    /// Whether no row is live, so that a loss makes no stage.
    pub fn has_no_live(&self) -> bool
        ensures { result ≡ is_empty_map self.now.live }
    {
        self.lowest.has_no_live()
    }

    /// The source is lost, and this is the number of the loss: its rows, if there are any, go to a deletion stage directly
    /// below the top, and the link above it begins. The map of the lowest link stays the same.
    pub fn lose(
        &mut self,
        owner: Owner,
        number: u32,
        journal: &mut Journal<F>,
    ) -> Result<(), Memory>
        requires chain { IsLossChain self.old }
        requires full { NoneEmpty self.old.deletions }
        requires room { overdue_of owner self.old ≡ None }
        requires later { AllByRecursion (λ d. d.number < number) self.old.deletions }
        ensures after { OnOk result (self.new ≡ lost_tables number self.old) }
        ensures lines { OnOk result (journal.new ≡ with_entries journal.old (loss_entries owner number self.old)) }
        ensures leads { OnOk result (LeadsTables R.value owner self.old (loss_entries owner number self.old) self.new) }
        ensures rows { OnOk result (lowest_rows self.new ≡ lowest_rows self.old) }
        ensures chain { OnOk result (IsLossChain self.new) }
        ensures full { OnOk result (NoneEmpty self.new.deletions) }
    {
        let link = owner.lowest();
        self.lowest.lose(self.alloc, owner, link, number, journal)?;
        Ok(())
    }

    /// Takes out the stage that a feed or a turn emptied, if there is one: the link above it is welded into the one below.
    pub fn weld(&mut self, owner: Owner, journal: &mut Journal<F>) -> Result<(), Memory>
        requires chain { IsLossChain self.old }
        requires one_empty { OneEmptyAtMost self.old.deletions }
        ensures after { OnOk result (self.new ≡ welded_tables self.old) }
        ensures lines { OnOk result (journal.new ≡ with_entries journal.old (weld_entries owner (lowest_link owner) self.old.deletions)) }
        ensures leads { OnOk result (LeadsTables R.value owner self.old (weld_entries owner (lowest_link owner) self.old.deletions) self.new) }
        ensures rows { OnOk result (lowest_rows self.new ≡ lowest_rows self.old) }
        ensures chain { OnOk result (IsLossChain self.new) }
        ensures full { OnOk result (NoneEmpty self.new.deletions) }
    {
        let link = owner.lowest();
        self.lowest.weld(self.alloc, owner, link, journal)?;
        Ok(())
    }

    /// One turn of the deletion stage of a loss: its least row, by address and then length, goes, and its delete goes down.
    /// Nothing exactly where no such stage stands; Quiet where no change comes out on the lowest link. A turn may empty the
    /// stage: weld then.
    pub fn unit(
        &mut self,
        owner: Owner,
        number: u32,
        journal: &mut Journal<F>,
    ) -> Result<Turn<R, Prefix<F>>, Memory>
        requires chain { IsLossChain self.old }
        requires full { NoneEmpty self.old.deletions }
        ensures taken { IfOk result (IsTakenTables R.value owner self.old self.new number journal.old journal.new) }
        ensures chain { OnOk result (IsLossChain self.new) }
        ensures one_empty { OnOk result (OneEmptyAtMost self.new.deletions) }
    {
        let link = owner.lowest();
        let turn = self.lowest.unit(owner, link, number, journal)?;
        Ok(turn)
    }
}

impl<R: Row, F: Texts> Upstream<F> for LossChain<R, F> {
    type Row = R;

    ghost rows = { lowest_rows };

    ghost candidates = { chain_candidates };

    fn asked(&self, p: &Prefix<F>) -> Result<Option<R>, Memory> {
        self.lowest.asked(*p)
    }

    fn next_candidate(&self, after: &Place<Prefix<F>>) -> Option<Prefix<F>> {
        self.lowest.next_candidate(after)
    }
}
