//! Turns of the tasks of a chain.

ghost use Rattle.std.specs.Prelude.{◌≡◌, IfOk, OnOk};
ghost use Rattle.journal_text.specs.declared.link.Task.TheVariants as tasks;
ghost use Rattle.loss_chain.specs.Tables.{NoneEmpty, OneEmptyAtMost};
ghost use Rattle.in_chain.specs.Chains.{IsChain};
ghost use Rattle.in_chain.specs.Steps.{IsTaken};

use crate::chain::Chain;
use addr4::{Memory, Prefix, Texts};
use bgp_attr::{Route, SharedAttrs};
use journal_text::{Journal, Link, Task};
use link_change::Turn;
use loss_chain::Owner;

impl<F: Texts> Chain<F> {
    /// One turn of a task. Of `del.K.S`: the least row of that stage, by address and then length, goes, and its delete goes
    /// down; a turn may empty the stage: weld then. Of `fin.K`: the walk of the filter goes to the next prefix of `in.K`, or
    /// ends. Nothing exactly where the task isn't one of the chain's or has no work; Quiet where no change comes out on
    /// `filt.K`.
    pub fn unit(
        &mut self,
        task: Task,
        journal: &mut Journal<F>,
    ) -> Result<Turn<Route<SharedAttrs<F>>, Prefix<F>>, Memory>
        requires chain { IsChain self.old }
        requires full { NoneEmpty self.old.incoming.tables.deletions }
        ensures taken { IfOk result (IsTaken self.old self.new task journal.old journal.new) }
        ensures chain { OnOk result (IsChain self.new) }
        ensures one_empty { OnOk result (OneEmptyAtMost self.new.incoming.tables.deletions) }
    {
        match task {
            Task::Del(number, session) => {
                if number != self.number {
                    return Ok(Turn::Nothing);
                }
                self.sweep(session, journal)
            }
            Task::Fin(number) => {
                if number != self.number {
                    return Ok(Turn::Nothing);
                }
                self.walk(journal)
            }
            _ => Ok(Turn::Nothing),
        }
    }

    // One turn of the stage of a session.
    fn sweep(
        &mut self,
        session: u32,
        journal: &mut Journal<F>,
    ) -> Result<Turn<Route<SharedAttrs<F>>, Prefix<F>>, Memory>
        requires chain { IsChain self.old }
        requires full { NoneEmpty self.old.incoming.tables.deletions }
        ensures taken { IfOk result (IsTaken self.old self.new (tasks.Del self.old.incoming.number session) journal.old journal.new) }
        ensures chain { OnOk result (IsChain self.new) }
        ensures one_empty { OnOk result (OneEmptyAtMost self.new.incoming.tables.deletions) }
    {
        match self
            .stages
            .unit(Owner::Peer(self.number), session, journal)?
        {
            Turn::Nothing => Ok(Turn::Nothing),
            Turn::Quiet => Ok(Turn::Quiet),
            Turn::Sent(change) => {
                let sent = self.filter.take_in(change, &self.me, &self.peer);
                journal.push_sent(Link::Filt(self.number), &sent)?;
                Ok(Turn::taken(sent))
            }
        }
    }

    // One turn of the filter's walk.
    fn walk(
        &mut self,
        journal: &mut Journal<F>,
    ) -> Result<Turn<Route<SharedAttrs<F>>, Prefix<F>>, Memory>
        requires chain { IsChain self.old }
        requires full { NoneEmpty self.old.incoming.tables.deletions }
        ensures taken { IfOk result (IsTaken self.old self.new (tasks.Fin self.old.incoming.number) journal.old journal.new) }
        ensures incoming { OnOk result (self.new.incoming ≡ self.old.incoming) }
    {
        match self.filter.unit(&self.stages, &self.me, &self.peer)? {
            Turn::Nothing => Ok(Turn::Nothing),
            Turn::Quiet => Ok(Turn::Quiet),
            Turn::Sent(change) => {
                journal.push_change(Link::Filt(self.number), &change)?;
                Ok(Turn::Sent(change))
            }
        }
    }
}
