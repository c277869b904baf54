//! What the forwarding side reads of `best`, from the queue of its changes, and what becomes of it down to `fib` (NSDI 2005,
//! section 5.2).

ghost use Rattle.std.specs.Prelude.{◌≡◌, None, IfOk, OnOk, IsSome, option_map};
ghost use Rattle.std.specs.Option.{option_copied};
ghost use Rattle.addr4.specs.Places.{key_of};
ghost use Rattle.journal_text.specs.Journals.{Adds};
ghost use Rattle.journal_text.specs.Walk.{HasRow};
ghost use Rattle.journal_text.specs.declared.link.Link.TheVariants as links;
ghost use Rattle.journal_text.specs.declared.link.Task.TheVariants as tasks;
ghost use Rattle.router_moments.specs.declared.tasks.Phase.TheVariants as phases;
ghost use Rattle.nexthop_resolver.specs.Kept.{external_hop};
ghost use Rattle.rib_exit.specs.Exits.{IsExit, AgreesWith, ext_rows, exit_links as external_links};
ghost use Rattle.rib_tree.specs.Trees.{int_rows};
ghost use Rattle.router_moments.specs.Moments.{best_of, read_links};
ghost use Rattle.router_moments.specs.Stands.{Stands, HaveReaders};
ghost use Rattle.router_moments.specs.Lookups.{IsNextPlace};
ghost use Rattle.router_moments.specs.Turns.{has_work, next_task};
ghost use Rattle.router_moments.specs.Works.{TakesTurn, Forwards, BeginsReading};
ghost use Rattle.router_network.specs.Informed.{Informed};

use crate::above::Above;
use crate::exits::rested;
use crate::network::Network;
use crate::reads::{ReadRoutes, over_best};
use addr4::{Addr, Memory, Place, Prefix};
use bgp_attr::{Route, SharedAttrs};
use decision::{Best, Contests};
use exit_side::laws::a_stranger_reads;
use journal_text::{Entry, Journal, Link, Task, Value};
use link_change::Change;
use peer_out::Writes;
use rib_exit::Reading;
use router_moments::Done;

impl<F: Writes> Network<F> {
    /// With `local` the forwarding side begins to read: `read.rib` inherits `best`.
    pub(crate) fn begin_reading(&mut self, journal: &mut Journal<F>) -> Result<(), Memory>
        ensures { OnOk result (Adds (BeginsReading self.old self.new) journal.old journal.new) }
    {
        let reader = self.readers.exits.join()?;
        self.readers.reader = Some(reader);
        journal.push_entry(Entry::Inherit(Link::ReadRib, Link::Best))?;
        Ok(())
    }

    /// One turn of the forwarding side: the first change that it hasn't read comes on `read.rib`, and goes down through the RIB's
    /// exit to `fib`.
    #[inline(never)]
    pub(crate) fn turn_reader(&mut self, journal: &mut Journal<F>) -> Result<Done, Memory>
        requires { Stands self.old }
        ensures { IfOk result (TakesTurn tasks.ReadRib self.old self.new journal.old journal.new) }
    {
        let Some(reader) = &mut self.readers.reader else {
            return Ok(Done::Nothing);
        };
        a_stranger_reads();
        let Some(change) = self.readers.exits.take(reader)? else {
            return Ok(Done::Nothing);
        };
        let forwarded = self.forward(&change, journal);
        drop(change);
        forwarded?;
        journal.flush()?;
        Ok(Done::Taken)
    }

    /// A change that the forwarding side has read comes on `read.rib`, and goes down through the RIB's exit to `fib`.
    fn forward(
        &mut self,
        change: &Change<Route<SharedAttrs<F>>, Prefix<F>>,
        journal: &mut Journal<F>,
    ) -> Result<(), Memory>
        requires sound { IsExit self.old.rib }
        requires agree { AgreesWith self.old.rib self.old.registry }
        ensures { OnOk result (Adds (Forwards change.now self.old self.new) journal.old journal.new) }
    {
        journal.push_change(Link::ReadRib, change)?;
        // By cases: rattle's borrow checker can't plan a `?` on a value that holds a forwarding row.
        match self
            .readers
            .rib
            .take_external(change, &self.above.tree, &mut self.registry, journal)
        {
            Ok(_) => Ok(()),
            Err(error) => Err(error),
        }
    }

    /// One turn of the next hops of external routes. What the forwarding side hasn't read is prepared for the questions of a walk.
    #[inline(never)]
    pub(crate) fn turn_external(
        &mut self,
        contests: &Contests<F>,
        journal: &mut Journal<F>,
    ) -> Result<Done, Memory>
        requires stands { Stands self.old }
        requires informed { Informed contests.now self.old }
        ensures { IfOk result (TakesTurn tasks.Ext self.old self.new journal.old journal.new) }
    {
        self.readers.exits.prepare()?;
        let above = &self.above;
        let best = contests.best(above);
        let read = over_best(&self.readers.exits, self.readers.reader.as_ref(), &best);
        let turn = self
            .readers
            .rib
            .turn(&above.tree, &read, &mut self.registry, journal)?;
        if rested(turn) {
            return Ok(Done::Nothing);
        }
        journal.flush()?;
        Ok(Done::Taken)
    }

    /// The task of the external routes' next hops, where it has work.
    pub(crate) fn next_external(&self) -> Option<Task>
        ensures { result ≡ next_task phases.Ext self.now }
    {
        if self.readers.rib.busy() {
            return Some(Task::Ext);
        }
        None
    }

    /// Whether the forwarding side has something to read.
    pub(crate) fn reads(&self) -> bool
        requires { Stands self.now }
        ensures { result ≡ has_work tasks.ReadRib self.now }
    {
        match &self.readers.reader {
            Some(reader) => self.readers.exits.waiting(reader) > 0,
            None => false,
        }
    }

    /// The task of the forwarding side, where it has something to read.
    pub(crate) fn next_reader(&self) -> Option<Task>
        requires { Stands self.now }
        ensures { result ≡ next_task phases.ReadRib self.now }
    {
        if self.reads() {
            return Some(Task::ReadRib);
        }
        None
    }

    /// The row at a prefix of `read.rib`.
    pub(crate) fn read(
        &self,
        p: Prefix<F>,
        contests: &Contests<F>,
    ) -> Result<Option<Value<SharedAttrs<F>, Addr<F>>>, Memory>
        requires readers { HaveReaders self.now }
        requires live { IsSome (read_links self.now.exits.queue self.now.reader (best_of self.now) links.ReadRib) }
        requires informed { Informed contests.now self.now }
        ensures { IfOk result (HasRow (read_links self.now.exits.queue self.now.reader (best_of self.now)) links.ReadRib p) }
    {
        let Some(reader) = &self.readers.reader else {
            return Ok(None);
        };
        let best = contests.best(&self.above);
        match self.readers.exits.read(reader, &best, p)? {
            Some(route) => Ok(Some(Value::Route(route))),
            None => Ok(None),
        }
    }

    /// The routes that the forwarding side has, over the best ones.
    pub(crate) fn read_routes<'a>(
        &'a self,
        best: &'a Best<'a, Above<F>, F>,
    ) -> ReadRoutes<'a, Above<F>, F>
        requires { HaveReaders self.now }
        ensures exits { result.exits.now ≡ self.now.exits }
        ensures reader { option_copied result.reader ≡ self.now.reader }
        ensures best { result.best.now ≡ best.now }
    {
        over_best(&self.readers.exits, self.readers.reader.as_ref(), best)
    }

    /// The row at a prefix of a link of the RIB's exit.
    pub(crate) fn forwarded(
        &self,
        link: Link,
        p: Prefix<F>,
        contests: &Contests<F>,
    ) -> Result<Option<Value<SharedAttrs<F>, Addr<F>>>, Memory>
        requires readers { HaveReaders self.now }
        requires live { IsSome (external_links self.now.rib (int_rows self.now.tree) link) }
        requires informed { Informed contests.now self.now }
        ensures { IfOk result (HasRow (external_links self.now.rib (int_rows self.now.tree)) link p) }
    {
        let best = contests.best(&self.above);
        let read = self.read_routes(&best);
        self.readers.rib.asked(link, &self.above.tree, &read, p)
    }

    /// Where the next row of a link of the RIB's exit may stand, beyond a place.
    pub(crate) fn next_forwarded(
        &self,
        link: Link,
        after: Place<Prefix<F>>,
        contests: &Contests<F>,
    ) -> Option<Prefix<F>>
        requires readers { HaveReaders self.now }
        requires live { IsSome (external_links self.now.rib (int_rows self.now.tree) link) }
        requires informed { Informed contests.now self.now }
        ensures { IsNextPlace (external_links self.now.rib (int_rows self.now.tree) link) (key_of after) result }
    {
        let best = contests.best(&self.above);
        let read = self.read_routes(&best);
        self.readers
            .rib
            .next_candidate(link, &self.above.tree, &read, after)
    }

    /// The next hop of the row of `ext` at a prefix. Takes no memory.
    pub(crate) fn external_hop(&self, p: Prefix<F>, contests: &Contests<F>) -> Option<Addr<F>>
        requires readers { HaveReaders self.now }
        requires informed { Informed contests.now self.now }
        ensures { result ≡ option_map external_hop (ext_rows self.now.rib p) }
    {
        let best = contests.best(&self.above);
        let row = self.read_routes(&best).external(&p)?;
        Some(row.next_hop)
    }

    /// Where the next row of `read.rib` may stand, beyond a place.
    pub(crate) fn next_read(
        &self,
        after: Place<Prefix<F>>,
        contests: &Contests<F>,
    ) -> Option<Prefix<F>>
        requires readers { HaveReaders self.now }
        requires live { IsSome (read_links self.now.exits.queue self.now.reader (best_of self.now) links.ReadRib) }
        requires informed { Informed contests.now self.now }
        ensures { IsNextPlace (read_links self.now.exits.queue self.now.reader (best_of self.now) links.ReadRib) (key_of after) result }
    {
        let Some(reader) = &self.readers.reader else {
            return None;
        };
        let best = contests.best(&self.above);
        self.readers.exits.next_read(reader, &best, after)
    }
}
