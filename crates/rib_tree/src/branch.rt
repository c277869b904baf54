//! The branch of one interior protocol.

ghost use Rattle.std.specs.Prelude.{◌≡◌, ◌<◌, ◌≤◌, ◌+◌, ◌*◌, cond, IfOk, OnOk, IfSome, is_some, IsSome, Option, Some, None};
ghost use Rattle.std.specs.FinMap as map;
ghost use Rattle.addr4.specs.Places.{key_of};
ghost use Rattle.link_change.specs.Rows.{Rows, IsNextCandidate, with_rows};
ghost use Rattle.link_change.specs.Changes.{IsSent};
ghost use Rattle.journal_text.specs.declared.link.Link.TheVariants as names;
ghost use Rattle.journal_text.specs.declared.link.Task.TheVariants as tasks;
ghost use Rattle.journal_text.specs.Lines.{Value as Valuation};
ghost use Rattle.journal_text.specs.Walk.{HasRow};
ghost use Rattle.journal_text.specs.Journals.{Adds, with_entries};
ghost use Rattle.loss_chain.specs.declared.owner.Owner.TheVariants as owners;
ghost use Rattle.loss_chain.specs.Tables.{NoneEmpty, OneEmptyAtMost};
ghost use Rattle.loss_chain.specs.Falls.{way_down};
ghost use Rattle.loss_chain.specs.Stages.{tables_of};
ghost use Rattle.loss_chain.specs.Steps.{oldest_of};
ghost use Rattle.rib_tree.specs.Branches.{branch_links, org_rows, branch_candidates, IsBranch, branch_count, LeadsBranch, FallsBranch};
ghost use Rattle.rib_tree.specs.BranchSteps.{new_branch, fed_branch, lost_branch, loss_entries, with_tables, welded_branch, weld_entries, overdue_of, IsTakenBranch};

use addr4::{Addr, Memory, Place, Prefix, Texts, V4};
use bgp_attr::SharedAttrs;
use journal_text::{Journal, Link, Task, Value};
use link_change::{Change, Turn, Upstream};
use loss_chain::{LossChain, Owner, Stage};
use rib_route::{Interior, Proto};
use std::alloc::Global;
use std::marker::Model;

/// The stages of one interior protocol, down to `org.PROTO`. Contracts see the protocol, how many of its losses made a stage,
/// its live routes and the lost tables.
#[derive(Drop)]
pub struct Branch<F: Texts = V4> {
    proto: Proto,
    losses: u32,
    stages: LossChain<Interior<Addr<F>>, F>,
}

impl<F: Texts> Model for Branch<F> {
    ghost use Rattle.rib_tree.specs.Branches.{Branch, branch_code};
    ghost use Rattle.rib_route.specs.contracts.Proto as proto_row;
    ghost use Rattle.rib_route.specs.contracts.rows.Interior as interior_row;
    ghost use Rattle.std.specs.Borrow.{u32 as word};

    ghost Value = { Branch };

    ghost coded = { branch_code proto_row.the_row.coded (interior_row.the_row word).coded };

    ghost view = { λ b. record { proto = b.proto; losses = b.losses; tables = b.stages } };
}

// The losses after one more; one of no routes makes no stage, and isn't counted.
fn counted(losses: u32, none: bool) -> u32
    requires { losses < 4294967295 }
    ensures { result ≡ cond none losses (losses + 1) }
{
    if none { losses } else { losses + 1 }
}

impl<F: Texts> Branch<F> {
    /// A branch without routes and without deletion stages, which lost none yet. Takes no memory; what the stages hold later
    /// comes from `alloc`.
    pub fn new(alloc: Global, proto: Proto) -> Branch<F>
        ensures fresh { result ≡ new_branch proto }
        ensures chain { IsBranch result }
    {
        Branch {
            proto,
            losses: 0,
            stages: LossChain::new(alloc),
        }
    }

    /// The protocol.
    pub fn proto(&self) -> Proto
        ensures { result ≡ self.now.proto }
    {
        self.proto
    }

    /// The lowest of the protocol's stages, the one above `org.PROTO`. A deletion stage holds the stage above it in its box,
    /// up to the live routes.
    pub fn lowest(&self) -> &Stage<Interior<Addr<F>>, F>
        ensures { tables_of result.now ≡ self.now.tables }
    {
        self.stages.lowest()
    }

    /// A route of the protocol is set at a prefix (`new` is some), or taken away. Answers the change on `org.PROTO`: None
    /// exactly where its map stays the same. A route that is set takes its prefix out of the lost tables, and may so empty
    /// one: weld then. Memory comes only for want of memory.
    pub fn feed(
        &mut self,
        p: Prefix<F>,
        new: Option<Interior<Addr<F>>>,
        journal: &mut Journal<F>,
    ) -> Result<Option<Change<Interior<Addr<F>>, Prefix<F>>>, Memory>
        requires chain { IsBranch self.old }
        requires full { NoneEmpty self.old.tables.deletions }
        requires own { IfSome new (λ row. row.proto ≡ self.old.proto) }
        ensures sent { IfOk result (IsSent (org_rows self.old) (org_rows self.new) p) }
        ensures after { OnOk result (self.new ≡ fed_branch self.old p new) }
        ensures lines { IfOk result (λ sent. Adds (FallsBranch self.old self.new p (way_down (owners.Origin self.old.proto) (names.Org self.old.proto) self.old.tables.deletions) sent) journal.old journal.new) }
        ensures chain { OnOk result (IsBranch self.new) }
        ensures one_empty { OnOk result (OneEmptyAtMost self.new.tables.deletions) }
    {
        let owner = Owner::Origin(self.proto);
        let sent = self.stages.feed(owner, p, new, journal)?;
        Ok(sent)
    }

    /// The row of `org.PROTO` at a prefix. Takes no memory.
    pub fn row(&self, p: Prefix<F>) -> Option<Interior<Addr<F>>>
        ensures { result ≡ org_rows self.now p }
    {
        self.stages.row(p).copied()
    }

    /// Whether a route of the protocol is live at the prefix.
    pub fn has(&self, p: Prefix<F>) -> bool
        ensures { result ≡ is_some (map.get self.now.tables.live p) }
    {
        self.stages.has(p)
    }

    /// The task that has to run to its end before the protocol's routes may be lost: that of the stage that stands longest,
    /// where 16 stand and a route is live.
    pub fn overdue(&self) -> Option<Task>
        ensures { result ≡ overdue_of self.now }
    {
        self.stages.overdue(Owner::Origin(self.proto))
    }

    /// The task of the deletion stage that stands longest, the lowest; None where none stands.
    pub fn oldest(&self) -> Option<Task>
        ensures { result ≡ oldest_of (owners.Origin self.now.proto) self.now.tables.deletions }
    {
        self.stages.oldest(Owner::Origin(self.proto))
    }

    /// The protocol's routes are lost: if there are any, they go to a deletion stage directly below the top, whose number is
    /// one more than that of the loss before, and the link `org.PROTO.N` above it begins. The map of `org.PROTO` stays the
    /// same.
    pub fn lose(&mut self, journal: &mut Journal<F>) -> Result<(), Memory>
        requires chain { IsBranch self.old }
        requires full { NoneEmpty self.old.tables.deletions }
        requires room { overdue_of self.old ≡ None }
        requires few { self.old.losses < 4294967295 }
        ensures after { OnOk result (self.new ≡ lost_branch self.old) }
        ensures lines { OnOk result (journal.new ≡ with_entries journal.old (loss_entries self.old)) }
        ensures leads { OnOk result (LeadsBranch self.old (loss_entries self.old) self.new) }
        ensures rows { OnOk result (org_rows self.new ≡ org_rows self.old) }
        ensures chain { OnOk result (IsBranch self.new) }
        ensures full { OnOk result (NoneEmpty self.new.tables.deletions) }
    {
        let losses = counted(self.losses, self.stages.has_no_live());
        self.stages
            .lose(Owner::Origin(self.proto), self.losses + 1, journal)?;
        self.losses = losses;
        Ok(())
    }

    /// Takes out the stage that a feed or a turn emptied, if there is one: the link above it is welded into the one below.
    pub fn weld(&mut self, journal: &mut Journal<F>) -> Result<(), Memory>
        requires chain { IsBranch self.old }
        requires one_empty { OneEmptyAtMost self.old.tables.deletions }
        ensures after { OnOk result (self.new ≡ welded_branch self.old) }
        ensures lines { OnOk result (journal.new ≡ with_entries journal.old (weld_entries self.old)) }
        ensures leads { OnOk result (LeadsBranch self.old (weld_entries self.old) self.new) }
        ensures rows { OnOk result (org_rows self.new ≡ org_rows self.old) }
        ensures chain { OnOk result (IsBranch self.new) }
        ensures full { OnOk result (NoneEmpty self.new.tables.deletions) }
    {
        self.stages.weld(Owner::Origin(self.proto), journal)?;
        Ok(())
    }

    /// One turn of the deletion stage of a loss: its least row, by address and then length, goes, and its delete goes down.
    /// Nothing exactly where no such stage stands; Quiet where no change comes out on `org.PROTO`. A turn may empty the
    /// stage: weld then.
    pub fn unit(
        &mut self,
        loss: u32,
        journal: &mut Journal<F>,
    ) -> Result<Turn<Interior<Addr<F>>, Prefix<F>>, Memory>
        requires chain { IsBranch self.old }
        requires full { NoneEmpty self.old.tables.deletions }
        ensures kept { self.new ≡ with_tables self.old self.new.tables }
        ensures taken { IfOk result (IsTakenBranch self.old self.new loss journal.old journal.new) }
        ensures chain { OnOk result (IsBranch self.new) }
        ensures one_empty { OnOk result (OneEmptyAtMost self.new.tables.deletions) }
    {
        let turn = self.stages.unit(Owner::Origin(self.proto), loss, journal)?;
        Ok(turn)
    }

    /// Whether the link is one of the branch's: `org.PROTO`, or `org.PROTO.N` above the deletion stage of the Nth loss.
    pub fn live(&self, link: Link) -> bool
        ensures { result ≡ is_some (branch_links self.now link) }
    {
        self.stages.live(Owner::Origin(self.proto), link)
    }

    /// The row at a prefix of a link of the branch; None where it has none.
    pub fn asked(
        &self,
        link: Link,
        p: Prefix<F>,
    ) -> Result<Option<Value<SharedAttrs<F>, Addr<F>>>, Memory>
        requires { IsSome (branch_links self.now link) }
        ensures { IfOk result (HasRow (branch_links self.now) link p) }
    {
        self.stages.asked(Owner::Origin(self.proto), link, p)
    }

    /// The least prefix beyond a place that has a row on a link of the branch.
    pub fn next_candidate(&self, link: Link, after: Place<Prefix<F>>) -> Option<Prefix<F>>
        requires { IsSome (branch_links self.now link) }
        ensures { (rows : Rows Valuation) → branch_links self.now link ≡ Some rows → IsNextCandidate (with_rows rows) (key_of after) result }
    {
        self.stages
            .next_candidate(Owner::Origin(self.proto), link, after)
    }

    /// How many rows `org.PROTO` has.
    pub fn rows(&self) -> u128
        ensures rows { result ≡ branch_count self.now }
        ensures bound { result ≤ 17 * 18446744073709551616 }
    {
        self.stages.rows()
    }
}

impl<F: Texts> Upstream<F> for Branch<F> {
    type Row = Interior<Addr<F>>;

    ghost rows = { org_rows };

    ghost candidates = { branch_candidates };

    fn asked(&self, p: &Prefix<F>) -> Result<Option<Interior<Addr<F>>>, Memory> {
        Upstream::asked(&self.stages, p)
    }

    fn next_candidate(&self, after: &Place<Prefix<F>>) -> Option<Prefix<F>> {
        Upstream::next_candidate(&self.stages, after)
    }
}
