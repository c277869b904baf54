//! The tree, as the crates above see it.

ghost use Rattle.std.specs.Prelude.{◌≡◌, ◌<◌, ◌≤◌, ◌*◌, IfOk, OnOk, IfSome, is_some, None};
ghost use Rattle.std.specs.FinMap as map;
ghost use Rattle.link_change.specs.Changes.{IsSent};
ghost use Rattle.journal_text.specs.declared.link.Task.TheVariants as tasks;
ghost use Rattle.journal_text.specs.Journals.{Adds, with_entries};
ghost use Rattle.loss_chain.specs.Steps.{first_task};
ghost use Rattle.rib_tree.specs.Trees.{branch_of, int_rows, IsTree, IsFull, IsFullBut, tree_count, tree_tasks};
ghost use Rattle.rib_tree.specs.Falls.{FallsTree, LeadsTree, way_of_route};
ghost use Rattle.rib_tree.specs.Steps.{new_tree, fed_tree, lost_tree, tree_loss_entries, welded_tree, tree_weld_entries, tree_overdue, IsTakenTree, IsFullAfter};

use crate::branch::Branch;
use addr4::{Addr, Memory, Prefix, Texts, V4};
use journal_text::{Journal, Task};
use link_change::{Change, Turn};
use rib_route::{Interior, Proto};
use std::alloc::Global;
use std::marker::Model;

/// The interior routes of all protocols. Contracts see the branch of each.
#[derive(Drop)]
pub struct Tree<F: Texts = V4> {
    pub(crate) connected: Branch<F>,
    pub(crate) statics: Branch<F>,
    pub(crate) ospf: Branch<F>,
    pub(crate) rip: Branch<F>,
}

impl<F: Texts> Model for Tree<F> {
    ghost use Rattle.rib_tree.specs.Branches.{branch_code};
    ghost use Rattle.rib_route.specs.contracts.Proto as proto_row;
    ghost use Rattle.rib_route.specs.contracts.rows.Interior as interior_row;
    ghost use Rattle.rib_tree.specs.Trees.{Treed, treed_code};
    ghost use Rattle.std.specs.Borrow.{u32 as word};

    ghost Value = { Treed };

    ghost coded = { treed_code (branch_code proto_row.the_row.coded (interior_row.the_row word).coded) };

    ghost view = { λ t. record { connected = t.connected; statics = t.statics; ospf = t.ospf; rip = t.rip } };
}

impl<F: Texts> Tree<F> {
    /// A tree without routes, whose protocols lost none yet. Takes no memory; what the branches hold later comes from
    /// `alloc`.
    pub fn new(alloc: Global) -> Tree<F>
        ensures { result ≡ new_tree }
    {
        Tree {
            connected: Branch::new(alloc, Proto::Connected),
            statics: Branch::new(alloc, Proto::Static),
            ospf: Branch::new(alloc, Proto::Ospf),
            rip: Branch::new(alloc, Proto::Rip),
        }
    }

    /// The branch of a protocol.
    pub fn branch(&self, proto: Proto) -> &Branch<F>
        ensures { result.now ≡ branch_of proto self.now }
    {
        match proto {
            Proto::Connected => &self.connected,
            Proto::Static => &self.statics,
            Proto::Ospf => &self.ospf,
            Proto::Rip => &self.rip,
        }
    }

    /// Whether a route of a protocol is live at the prefix.
    pub fn has(&self, proto: Proto, p: Prefix<F>) -> bool
        ensures { result ≡ is_some (map.get (branch_of proto self.now).tables.live p) }
    {
        self.branch(proto).has(p)
    }

    /// A route of a protocol is set at a prefix (`new` is some), or taken away. Answers the change on `int`: None exactly
    /// where its map stays the same. A route that is set takes its prefix out of the protocol's lost tables, and may so
    /// empty one: weld then. Memory comes only for want of memory.
    pub fn feed(
        &mut self,
        proto: Proto,
        p: Prefix<F>,
        new: Option<Interior<Addr<F>>>,
        journal: &mut Journal<F>,
    ) -> Result<Option<Change<Interior<Addr<F>>, Prefix<F>>>, Memory>
        requires tree { IsTree self.old }
        requires full { IsFull self.old }
        requires own { IfSome new (λ row. row.proto ≡ proto) }
        ensures sent { IfOk result (IsSent (int_rows self.old) (int_rows self.new) p) }
        ensures after { OnOk result (self.new ≡ fed_tree self.old proto p new) }
        ensures lines { IfOk result (λ sent. Adds (FallsTree self.old self.new p (way_of_route proto self.old) sent) journal.old journal.new) }
        ensures tree { OnOk result (IsTree self.new) }
        ensures full { OnOk result (IsFullBut proto self.new) }
    {
        let Some(change) = self.feed_branch(proto, p, new, journal)? else {
            return Ok(None);
        };
        let sent = self.pass_down(proto, change, journal)?;
        Ok(sent)
    }

    /// The task that has to run to its end before a protocol's routes may be lost: that of its stage that stands longest,
    /// where 16 stand and a route is live.
    pub fn overdue(&self, proto: Proto) -> Option<Task>
        ensures { result ≡ tree_overdue proto self.now }
    {
        self.branch(proto).overdue()
    }

    /// The first task of the deletion stages, by protocol (connected, static, ospf, rip), the earliest loss first; None
    /// where no stage stands.
    pub fn oldest(&self) -> Option<Task>
        ensures { result ≡ first_task (tree_tasks self.now) }
    {
        let connected = self.connected.oldest();
        let statics = self.statics.oldest();
        let ospf = self.ospf.oldest();
        connected.or(statics).or(ospf).or(self.rip.oldest())
    }

    /// A protocol's routes are lost: if there are any, they go to a deletion stage directly below its live routes, and the
    /// link `org.PROTO.N` above it begins. The maps of `org.PROTO`, and of the links below it, stay the same.
    pub fn lose(&mut self, proto: Proto, journal: &mut Journal<F>) -> Result<(), Memory>
        requires tree { IsTree self.old }
        requires full { IsFull self.old }
        requires room { tree_overdue proto self.old ≡ None }
        requires few { (branch_of proto self.old).losses < 4294967295 }
        ensures after { OnOk result (self.new ≡ lost_tree proto self.old) }
        ensures lines { OnOk result (journal.new ≡ with_entries journal.old (tree_loss_entries proto self.old)) }
        ensures leads { OnOk result (LeadsTree self.old (tree_loss_entries proto self.old) self.new) }
        ensures rows { OnOk result (int_rows self.new ≡ int_rows self.old) }
        ensures tree { OnOk result (IsTree self.new) }
        ensures full { OnOk result (IsFull self.new) }
    {
        self.lose_branch(proto, journal)?;
        Ok(())
    }

    /// Takes out the stage of a protocol that a feed or a turn emptied, if there is one: the link above it is welded into
    /// the one below.
    pub fn weld(&mut self, proto: Proto, journal: &mut Journal<F>) -> Result<(), Memory>
        requires tree { IsTree self.old }
        requires full { IsFullBut proto self.old }
        ensures after { OnOk result (self.new ≡ welded_tree proto self.old) }
        ensures lines { OnOk result (journal.new ≡ with_entries journal.old (tree_weld_entries proto self.old)) }
        ensures leads { OnOk result (LeadsTree self.old (tree_weld_entries proto self.old) self.new) }
        ensures rows { OnOk result (int_rows self.new ≡ int_rows self.old) }
        ensures tree { OnOk result (IsTree self.new) }
        ensures full { OnOk result (IsFull self.new) }
    {
        self.weld_branch(proto, journal)?;
        Ok(())
    }

    /// One turn of a task. Of `rdel.PROTO.N`: the least row of that stage, by address and then length, goes, and its delete
    /// goes down; a turn may empty the stage: weld then. Nothing exactly where the task isn't one of the tree's or has no
    /// work; Quiet where no change comes out on `int`.
    pub fn unit(
        &mut self,
        task: Task,
        journal: &mut Journal<F>,
    ) -> Result<Turn<Interior<Addr<F>>, Prefix<F>>, Memory>
        requires tree { IsTree self.old }
        requires full { IsFull self.old }
        ensures taken { IfOk result (IsTakenTree self.old self.new task journal.old journal.new) }
        ensures tree { OnOk result (IsTree self.new) }
        ensures full { OnOk result (IsFullAfter task self.new) }
    {
        match task {
            Task::Rdel(proto, loss) => self.sweep(proto, loss, journal),
            _ => Ok(Turn::Nothing),
        }
    }

    // One turn of the stage of a protocol's loss.
    fn sweep(
        &mut self,
        proto: Proto,
        loss: u32,
        journal: &mut Journal<F>,
    ) -> Result<Turn<Interior<Addr<F>>, Prefix<F>>, Memory>
        requires tree { IsTree self.old }
        requires full { IsFull self.old }
        ensures taken { IfOk result (IsTakenTree self.old self.new (tasks.Rdel proto loss) journal.old journal.new) }
        ensures tree { OnOk result (IsTree self.new) }
        ensures full { OnOk result (IsFullBut proto self.new) }
    {
        match self.sweep_branch(proto, loss, journal)? {
            Turn::Nothing => Ok(Turn::Nothing),
            Turn::Quiet => Ok(Turn::Quiet),
            Turn::Sent(change) => {
                let sent = self.pass_down(proto, change, journal)?;
                Ok(Turn::taken(sent))
            }
        }
    }

    /// How many rows all `org.PROTO` have together.
    pub fn rows(&self) -> u128
        ensures rows { result ≡ tree_count self.now }
        ensures bound { result ≤ 68 * 18446744073709551616 }
    {
        let low = self.connected.rows() + self.statics.rows();
        let dynamic = self.ospf.rows() + self.rip.rows();
        low + dynamic
    }
}
