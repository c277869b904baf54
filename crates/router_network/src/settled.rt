//! Whether a prefix is settled: whether no work may keep its rows from what the live state alone asks for (NSDI 2005, sections
//! 5.1.1 and 5.1.2). Nothing here takes memory but what prepares the queue of changes for the questions of an event, and nothing
//! goes over the rows of a table: a phase without work is passed over, and each task of another is asked once, which looks at the
//! one prefix, and a lost table of interior routes also at those that hold a next hop.

ghost use Rattle.std.specs.Prelude.{◌≡◌, ℕ, ◌<◌, ◌≤◌, IfOk, None, length};
ghost use Rattle.event_text.specs.declared.event.Event.TheVariants as events;
ghost use Rattle.event_text.specs.declared.event.Question.TheVariants as questions;
ghost use Rattle.peer_side.specs.Peers.{chain_at};
ghost use Rattle.router_moments.specs.declared.tasks.Phase.TheVariants as phases;
ghost use Rattle.router_moments.specs.Moments.{Gives};
ghost use Rattle.router_moments.specs.Stands.{Stands, AllHaveExits};
ghost use Rattle.router_moments.specs.Holding.{held_in, first_held};
ghost use Rattle.router_moments.specs.Works.{HasStepped};
ghost use Rattle.router_network.specs.Informed.{Informed};

use crate::network::Network;
use crate::turns::{exit_of, phases, task_of};
use addr4::{Addr, Memory, Prefix, V4};
use addr6::V6;
use decision::Contests;
use hop_side::Named;
use journal_text::{Journal, Line, Task};
use peer_out::Writes;
use router_moments::{Phase, only_work_holds_up, the_first_task_tells};

/// A family whose lost tables are asked. The next hops that are asked for stand in an array, and each family has room for its own.
pub trait AsksLosses: Writes {
    /// The first deletion stage: one whose table has the prefix, or one that holds the next hop of a peer's row of `filt.K` there.
    fn loss_held(network: &Network<Self>, p: &Prefix<Self>) -> Option<Task>
        requires { Stands network.now }
        ensures { result ≡ held_in phases.Rdel network.now p.now };
}

impl AsksLosses for V4 {
    fn loss_held(network: &Network, p: &Prefix) -> Option<Task> {
        let mut room = [Addr::unspecified(); 65];
        network.loss_over(*p, &mut room)
    }
}

impl AsksLosses for V6 {
    fn loss_held(network: &Network<V6>, p: &Prefix<V6>) -> Option<Task> {
        let mut room = [Addr::unspecified(); 65];
        network.loss_over(*p, &mut room)
    }
}

impl<F: AsksLosses> Network<F> {
    /// `settled`: whether a prefix is, or the first task that holds it up.
    pub fn settled(
        &mut self,
        p: Prefix<F>,
        contests: &Contests<F>,
        journal: &mut Journal<F>,
    ) -> Result<u128, Memory>
        requires stands { Stands self.old }
        requires exits { AllHaveExits self.old }
        requires informed { Informed contests.now self.old }
        ensures { IfOk result (λ turns. Gives (HasStepped self.old (events.Query (questions.Settled p)) turns self.new) journal.old journal.new) }
    {
        the_first_task_tells();
        self.prepare()?;
        let held = self.first_held(p, contests);
        journal.push_line(Line::Settled(p, held))?;
        journal.flush()?;
        Ok(0)
    }

    /// The first task, in the order of an idle, that holds up a prefix.
    pub fn first_held(&self, p: Prefix<F>, contests: &Contests<F>) -> Option<Task>
        requires stands { Stands self.now }
        requires informed { Informed contests.now self.now }
        ensures { result ≡ first_held self.now p }
    {
        let phases = phases();
        for i in 0..phases.len() {
            if let Some(task) = self.held_in(phases[i], p, contests) {
                return Some(task);
            }
        }
        None
    }

    /// The first one of a phase; none of a phase without work.
    fn held_in(&self, phase: Phase, p: Prefix<F>, contests: &Contests<F>) -> Option<Task>
        requires stands { Stands self.now }
        requires informed { Informed contests.now self.now }
        ensures { result ≡ held_in phase self.now p }
    {
        only_work_holds_up();
        self.next(phase)?;
        match phase {
            Phase::Rdel => F::loss_held(self, &p),
            Phase::Red => self.own_held(p),
            Phase::Del => self.above.chains.first_loss_at(p),
            Phase::Fin => self.above.chains.first_walk_at(p),
            Phase::Nh => task_of(self.above.hops.first_held(&self.above, p)),
            Phase::ReadRib => self.reader_held(p),
            Phase::Out => self.exit_held(p, contests),
            Phase::Ext => self.external_held(p, contests),
            Phase::Ref => None,
        }
    }
}

impl<F: Writes> Network<F> {
    /// The first deletion stage that holds up a prefix. The room takes the next hops of the peers' rows there, whatever it held.
    fn loss_over(&self, p: Prefix<F>, room: &mut [Addr<F>]) -> Option<Task>
        requires stands { Stands self.now }
        requires room { length room.old ≡ 65 }
        ensures { result ≡ held_in phases.Rdel self.now p }
    {
        let mut count: usize = 0;
        for number in 0..self.numbers() {
            if let Some(hop) = self.above.next_hop(number, &p) {
                room[count] = hop;
                count += 1;
            }
        }
        self.above.tree.first_loss_at(p, &room[..count])
    }

    /// Below which all peers have their numbers, at most 65.
    fn numbers(&self) -> u32
        ensures few { result ≤ 65 }
        ensures all { (k : ℕ) → k < 65 → result ≤ k → chain_at k self.now.chains ≡ None }
    {
        let last = self.above.chains.last();
        if last < 65 { last + 1 } else { 65 }
    }

    /// The walk of redistribution, where it holds up a prefix.
    fn own_held(&self, p: Prefix<F>) -> Option<Task>
        ensures { result ≡ held_in phases.Red self.now p }
    {
        if self.above.tree.row(p).is_some() && self.above.redist.holds_up(p) {
            return Some(Task::Red);
        }
        None
    }

    /// The forwarding side, where it hasn't read a change at a prefix.
    fn reader_held(&self, p: Prefix<F>) -> Option<Task>
        requires { Stands self.now }
        ensures { result ≡ held_in phases.ReadRib self.now p }
    {
        let reader = self.readers.reader.as_ref()?;
        if self.readers.exits.unread(reader, p) {
            return Some(Task::ReadRib);
        }
        None
    }

    /// The first peer's exit that holds up a prefix.
    fn exit_held(&self, p: Prefix<F>, contests: &Contests<F>) -> Option<Task>
        requires stands { Stands self.now }
        requires informed { Informed contests.now self.now }
        ensures { result ≡ held_in phases.Out self.now p }
    {
        let there = self.has_best(p, contests);
        exit_of(self.readers.exits.first_held(there, p))
    }

    /// The next hops of external routes, where they hold up a prefix.
    fn external_held(&self, p: Prefix<F>, contests: &Contests<F>) -> Option<Task>
        requires stands { Stands self.now }
        requires informed { Informed contests.now self.now }
        ensures { result ≡ held_in phases.Ext self.now p }
    {
        if self.readers.rib.holds_up(self.external_hop(p, contests), p) {
            return Some(Task::Ext);
        }
        None
    }
}
