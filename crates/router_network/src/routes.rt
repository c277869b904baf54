//! Interior routes: they come and go, and what follows a change of `int`; and the register's answers.

ghost use Rattle.std.specs.Prelude.{◌≡◌, OnOk, IfOk, IfSome, IsSome, Some, None};
ghost use Rattle.event_text.specs.declared.event.Event.TheVariants as events;
ghost use Rattle.event_text.specs.declared.event.Question.TheVariants as questions;
ghost use Rattle.event_text.specs.Declarations.{refusal};
ghost use Rattle.register_interest.specs.Covers.{matched};
ghost use Rattle.register_interest.specs.Matches.{lent_match};
ghost use Rattle.rib_tree.specs.Trees.{IsTree, IsFullBut};
ghost use Rattle.hop_side.specs.Resolvers.{IsHops};
ghost use Rattle.rib_exit.specs.Exits.{IsExit};
ghost use Rattle.journal_text.specs.Journals.{Adds};
ghost use Rattle.router_moments.specs.Moments.{Gives};
ghost use Rattle.router_moments.specs.Stands.{Stands, HaveReaders};
ghost use Rattle.router_moments.specs.Turns.{Registers};
ghost use Rattle.router_moments.specs.Works.{Informs, MayFollow, Follows, Settles, SetsRoute, HasStepped, Pushes};
ghost use Rattle.router_network.specs.Informed.{Informed, InformedOver};
ghost use Rattle.router_network.specs.Reads.{TakesInto};

use crate::network::Network;
use crate::steps::ignored;
use addr4::{Addr, Family, Memory, Prefix};
use decision::Contests;
use journal_text::{Journal, Line};
use link_change::Change;
use peer_out::Writes;
use register_interest::{Interest, Register};
use rib_route::{Interior, Proto};
use std::alloc::Global;

impl<F: Writes> Network<F> {
    /// `route add`: the protocol's route at the prefix is this one from now on.
    pub fn route_add(
        &mut self,
        p: Prefix<F>,
        row: Interior<Addr<F>>,
        contests: &mut Contests<F>,
        journal: &mut Journal<F>,
    ) -> Result<u128, Memory>
        requires admitted { refusal self.old.declared (events.RouteAdd p row) ≡ None }
        requires stands { Stands self.old }
        requires informed { Informed contests.old self.old }
        ensures steps { IfOk result (λ turns. Gives (HasStepped self.old (events.RouteAdd p row) turns self.new) journal.old journal.new) }
        ensures informed { OnOk result (Informed contests.new self.new) }
    {
        self.route(row.proto, p, Some(row), contests, journal)?;
        journal.flush()?;
        Ok(0)
    }

    /// `route del`: the protocol's route at the prefix goes; `ignored` where it has none.
    pub fn route_del(
        &mut self,
        proto: Proto,
        p: Prefix<F>,
        contests: &mut Contests<F>,
        journal: &mut Journal<F>,
    ) -> Result<u128, Memory>
        requires admitted { refusal self.old.declared (events.RouteDel proto p) ≡ None }
        requires stands { Stands self.old }
        requires informed { Informed contests.old self.old }
        ensures steps { IfOk result (λ turns. Gives (HasStepped self.old (events.RouteDel proto p) turns self.new) journal.old journal.new) }
        ensures informed { OnOk result (Informed contests.new self.new) }
    {
        if !self.above.tree.has(proto, p) {
            return ignored(journal);
        }
        self.route(proto, p, None, contests, journal)?;
        journal.flush()?;
        Ok(0)
    }

    /// `cover`: the longest interior route that holds an address, and the largest subnet with that answer (NSDI 2005, section
    /// 5.2.1).
    pub fn cover(&mut self, address: Addr<F>, journal: &mut Journal<F>) -> Result<u128, Memory>
        requires { Stands self.old }
        ensures { IfOk result (λ turns. Gives (HasStepped self.old (events.Query (questions.Cover address)) turns self.new) journal.old journal.new) }
    {
        let (found, subnet) = self.registry.peek(address);
        journal.push_line(Line::Cover(address, prefix_of(&found), subnet))?;
        journal.flush()?;
        Ok(0)
    }

    /// A protocol's route at a prefix is this one from now on, or gone.
    fn route(
        &mut self,
        proto: Proto,
        p: Prefix<F>,
        new: Option<Interior<Addr<F>>>,
        contests: &mut Contests<F>,
        journal: &mut Journal<F>,
    ) -> Result<(), Memory>
        requires stands { Stands self.old }
        requires own { IfSome new (λ row. row.proto ≡ proto) }
        requires since { IsSome self.old.declared.speaker }
        requires informed { Informed contests.old self.old }
        ensures sets { OnOk result (Pushes (λ said. SetsRoute self.old proto p new said self.new) journal.old journal.new) }
        ensures informed { OnOk result (Informed contests.new self.new) }
    {
        // By cases: the prover asks for a route in sight where one is passed on.
        match new {
            None => {
                let sent = self.above.tree.feed(proto, p, None, journal)?;
                self.settle(proto, sent, contests, journal)
            }
            Some(row) => {
                let sent = self.above.tree.feed(proto, p, Some(row), journal)?;
                self.settle(proto, sent, contests, journal)
            }
        }
    }

    /// What follows a change in a protocol's branch, by what came out on `int`; behind it the stage that it emptied goes.
    pub(crate) fn settle(
        &mut self,
        proto: Proto,
        sent: Option<Change<Interior<Addr<F>>, Prefix<F>>>,
        contests: &mut Contests<F>,
        journal: &mut Journal<F>,
    ) -> Result<(), Memory>
        requires tree { IsTree self.old.tree }
        requires full { IsFullBut proto self.old.tree }
        requires follow { MayFollow self.old }
        requires informed { InformedOver sent contests.old self.old }
        ensures settles { OnOk result (Adds (Settles proto sent self.old self.new) journal.old journal.new) }
        ensures informed { OnOk result (Informed contests.new self.new) }
    {
        self.follow(sent, contests, journal)?;
        self.above.tree.weld(proto, journal)?;
        Ok(())
    }

    /// What follows a change of `int`, if one came out: the register takes it over, and each client hears of its interests that
    /// were given up, the resolvers and the RIB's exit; then redistribution and all that it causes follow, and then `fib`.
    fn follow(
        &mut self,
        sent: Option<Change<Interior<Addr<F>>, Prefix<F>>>,
        contests: &mut Contests<F>,
        journal: &mut Journal<F>,
    ) -> Result<(), Memory>
        requires follow { MayFollow self.old }
        requires informed { InformedOver sent contests.old self.old }
        ensures follows { OnOk result (Adds (Follows sent self.old self.new) journal.old journal.new) }
        ensures informed { OnOk result (Informed contests.new self.new) }
    {
        match sent {
            None => Ok(()),
            Some(change) => self.pass_on(&change, contests, journal),
        }
    }

    /// What follows a change that came out on `int`, in its order.
    fn pass_on(
        &mut self,
        change: &Change<Interior<Addr<F>>, Prefix<F>>,
        contests: &mut Contests<F>,
        journal: &mut Journal<F>,
    ) -> Result<(), Memory>
        requires follow { MayFollow self.old }
        requires informed { InformedOver (Some change.now) contests.old self.old }
        ensures follows { OnOk result (Adds (Follows (Some change.now) self.old self.new) journal.old journal.new) }
        ensures informed { OnOk result (Informed contests.new self.new) }
    {
        self.inform(change)?;
        self.redistribute(change, contests, journal)?;
        self.prepare()?;
        self.take_interior(change, contests, journal)
    }

    /// A change of the interior routes comes out on `fib`, beside the row of `ext` at its prefix.
    fn take_interior(
        &self,
        change: &Change<Interior<Addr<F>>, Prefix<F>>,
        contests: &Contests<F>,
        journal: &mut Journal<F>,
    ) -> Result<(), Memory>
        requires readers { HaveReaders self.now }
        requires informed { Informed contests.now self.now }
        ensures { OnOk result (TakesInto change.now self.now journal.old journal.new) }
    {
        let best = contests.best(&self.above);
        let read = self.read_routes(&best);
        // By cases: rattle's borrow checker can't plan a `?` on a value that holds a forwarding row.
        match self.readers.rib.take_interior(change, &read, journal) {
            Ok(_) => Ok(()),
            Err(error) => Err(error),
        }
    }

    /// The register takes a change of `int` over, and each client hears of its interests that were given up. Nothing is said.
    fn inform(&mut self, change: &Change<Interior<Addr<F>>, Prefix<F>>) -> Result<(), Memory>
        requires hops { IsHops self.old.hops }
        requires rib { IsExit self.old.rib }
        ensures { OnOk result (Informs change.now self.old self.new) }
    {
        let reached = register(&mut self.registry, self.alloc, change)?;
        self.above.hops.reach(reached.as_slice())?;
        self.readers.rib.reach(reached.as_slice())?;
        Ok(())
    }
}

/// The prefix of a match.
fn prefix_of<F: Family>(found: &Option<(Prefix<F>, &Interior<Addr<F>>)>) -> Option<Prefix<F>>
    ensures { result ≡ matched (lent_match found.now) }
{
    match found {
        None => None,
        Some(found) => Some(found.0),
    }
}

/// The register takes a change over, and gives up the interests that it reaches.
fn register<F: Family>(
    registry: &mut Register<Interior<Addr<F>>, F>,
    alloc: Global,
    change: &Change<Interior<Addr<F>>, Prefix<F>>,
) -> Result<Vec<Interest<Prefix<F>>>, Memory>
    ensures { IfOk result (λ reached. Registers change.now reached.items registry.old registry.new) }
{
    match change.after {
        None => registry.changed(alloc, change.prefix, None),
        Some(row) => registry.changed(alloc, change.prefix, Some(row)),
    }
}
