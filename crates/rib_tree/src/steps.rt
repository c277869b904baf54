//! What each call does to the branch of its protocol.

ghost use Rattle.std.specs.Prelude.{◌≡◌, ◌<◌, IfOk, OnOk, IfSome, None};
ghost use Rattle.link_change.specs.Changes.{IsSent};
ghost use Rattle.journal_text.specs.declared.link.Link.TheVariants as names;
ghost use Rattle.loss_chain.specs.declared.owner.Owner.TheVariants as owners;
ghost use Rattle.journal_text.specs.Journals.{Adds, with_entries};
ghost use Rattle.rib_tree.specs.Branches.{org_rows, IsBranch};
ghost use Rattle.loss_chain.specs.Tables.{NoneEmpty, OneEmptyAtMost};
ghost use Rattle.rib_tree.specs.Branches.{FallsBranch, LeadsBranch};
ghost use Rattle.loss_chain.specs.Falls.{way_down};
ghost use Rattle.rib_tree.specs.BranchSteps.{fed_branch, lost_branch, loss_entries, with_tables, welded_branch, weld_entries, overdue_of, IsTakenBranch};
ghost use Rattle.rib_tree.specs.Trees.{branch_of};
ghost use Rattle.rib_tree.specs.Merges.{DifferAt};

use crate::tree::Tree;
use addr4::{Addr, Memory, Prefix, Texts};
use journal_text::Journal;
use link_change::{Change, Turn};
use rib_route::{Interior, Proto};

impl<F: Texts> Tree<F> {
    /// A route of a protocol is set or taken away. Answers the change on `org.PROTO`.
    pub(crate) fn feed_branch(
        &mut self,
        proto: Proto,
        p: Prefix<F>,
        new: Option<Interior<Addr<F>>>,
        journal: &mut Journal<F>,
    ) -> Result<Option<Change<Interior<Addr<F>>, Prefix<F>>>, Memory>
        requires branch { IsBranch (branch_of proto self.old) }
        requires full { NoneEmpty (branch_of proto self.old).tables.deletions }
        requires own { IfSome new (λ row. row.proto ≡ (branch_of proto self.old).proto) }
        ensures others { DifferAt proto self.old self.new }
        ensures sent { IfOk result (IsSent (org_rows (branch_of proto self.old)) (org_rows (branch_of proto self.new)) p) }
        ensures after { OnOk result (branch_of proto self.new ≡ fed_branch (branch_of proto self.old) p new) }
        ensures lines { IfOk result (λ sent. let b = branch_of proto self.old in Adds (FallsBranch b (branch_of proto self.new) p (way_down (owners.Origin b.proto) (names.Org b.proto) b.tables.deletions) sent) journal.old journal.new) }
        ensures branch { OnOk result (IsBranch (branch_of proto self.new)) }
        ensures one_empty { OnOk result (OneEmptyAtMost (branch_of proto self.new).tables.deletions) }
    {
        match proto {
            Proto::Connected => self.connected.feed(p, new, journal),
            Proto::Static => self.statics.feed(p, new, journal),
            Proto::Ospf => self.ospf.feed(p, new, journal),
            Proto::Rip => self.rip.feed(p, new, journal),
        }
    }

    /// A protocol's routes are lost.
    pub(crate) fn lose_branch(
        &mut self,
        proto: Proto,
        journal: &mut Journal<F>,
    ) -> Result<(), Memory>
        requires branch { IsBranch (branch_of proto self.old) }
        requires full { NoneEmpty (branch_of proto self.old).tables.deletions }
        requires room { overdue_of (branch_of proto self.old) ≡ None }
        requires few { (branch_of proto self.old).losses < 4294967295 }
        ensures others { DifferAt proto self.old self.new }
        ensures after { OnOk result (branch_of proto self.new ≡ lost_branch (branch_of proto self.old)) }
        ensures lines { OnOk result (journal.new ≡ with_entries journal.old (loss_entries (branch_of proto self.old))) }
        ensures leads { OnOk result (LeadsBranch (branch_of proto self.old) (loss_entries (branch_of proto self.old)) (branch_of proto self.new)) }
        ensures rows { OnOk result (org_rows (branch_of proto self.new) ≡ org_rows (branch_of proto self.old)) }
        ensures branch { OnOk result (IsBranch (branch_of proto self.new)) }
        ensures full { OnOk result (NoneEmpty (branch_of proto self.new).tables.deletions) }
    {
        match proto {
            Proto::Connected => self.connected.lose(journal),
            Proto::Static => self.statics.lose(journal),
            Proto::Ospf => self.ospf.lose(journal),
            Proto::Rip => self.rip.lose(journal),
        }
    }

    /// The stage of a protocol that stands empty goes.
    pub(crate) fn weld_branch(
        &mut self,
        proto: Proto,
        journal: &mut Journal<F>,
    ) -> Result<(), Memory>
        requires branch { IsBranch (branch_of proto self.old) }
        requires one_empty { OneEmptyAtMost (branch_of proto self.old).tables.deletions }
        ensures others { DifferAt proto self.old self.new }
        ensures after { OnOk result (branch_of proto self.new ≡ welded_branch (branch_of proto self.old)) }
        ensures lines { OnOk result (journal.new ≡ with_entries journal.old (weld_entries (branch_of proto self.old))) }
        ensures leads { OnOk result (LeadsBranch (branch_of proto self.old) (weld_entries (branch_of proto self.old)) (branch_of proto self.new)) }
        ensures rows { OnOk result (org_rows (branch_of proto self.new) ≡ org_rows (branch_of proto self.old)) }
        ensures branch { OnOk result (IsBranch (branch_of proto self.new)) }
        ensures full { OnOk result (NoneEmpty (branch_of proto self.new).tables.deletions) }
    {
        match proto {
            Proto::Connected => self.connected.weld(journal),
            Proto::Static => self.statics.weld(journal),
            Proto::Ospf => self.ospf.weld(journal),
            Proto::Rip => self.rip.weld(journal),
        }
    }

    /// One turn of the stage of a protocol's loss.
    pub(crate) fn sweep_branch(
        &mut self,
        proto: Proto,
        loss: u32,
        journal: &mut Journal<F>,
    ) -> Result<Turn<Interior<Addr<F>>, Prefix<F>>, Memory>
        requires branch { IsBranch (branch_of proto self.old) }
        requires full { NoneEmpty (branch_of proto self.old).tables.deletions }
        ensures others { DifferAt proto self.old self.new }
        ensures kept { branch_of proto self.new ≡ with_tables (branch_of proto self.old) (branch_of proto self.new).tables }
        ensures taken { IfOk result (IsTakenBranch (branch_of proto self.old) (branch_of proto self.new) loss journal.old journal.new) }
        ensures branch { OnOk result (IsBranch (branch_of proto self.new)) }
        ensures one_empty { OnOk result (OneEmptyAtMost (branch_of proto self.new).tables.deletions) }
    {
        match proto {
            Proto::Connected => self.connected.unit(loss, journal),
            Proto::Static => self.statics.unit(loss, journal),
            Proto::Ospf => self.ospf.unit(loss, journal),
            Proto::Rip => self.rip.unit(loss, journal),
        }
    }
}
