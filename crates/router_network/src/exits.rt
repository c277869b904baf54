//! What peers are sent: each session reads the queue of the changes of `best` (NSDI 2005, section 5.1).

ghost use Rattle.std.specs.Prelude.{◌≡◌, ◌≢◌, [], None, IfOk, OnOk, IsSome, MatchBool};
ghost use Rattle.std.specs.FinMap as map;
ghost use Rattle.addr4.specs.Places.{key_of};
ghost use Rattle.link_change.specs.declared.turn.Turn.TheVariants as turns;
ghost use Rattle.journal_text.specs.Journals.{Adds};
ghost use Rattle.journal_text.specs.Walk.{HasRow};
ghost use Rattle.journal_text.specs.declared.link.Link.TheVariants as links;
ghost use Rattle.journal_text.specs.declared.link.Task.TheVariants as tasks;
ghost use Rattle.event_text.specs.declared.event.Event.TheVariants as events;
ghost use Rattle.event_text.specs.Declarations.{peer_at, refusal};
ghost use Rattle.exit_side.specs.Exits.{IsExits, exit_links, chain_at as exit_at};
ghost use Rattle.router_moments.specs.Moments.{best_of, rules_to};
ghost use Rattle.router_moments.specs.Stands.{Stands, HaveReaders};
ghost use Rattle.router_moments.specs.Lookups.{IsNextPlace};
ghost use Rattle.router_moments.specs.Blocks.{refreshed};
ghost use Rattle.router_moments.specs.Works.{TakesTurn, HasStepped, JoinsQueue, BeginsSession, SendsAs};
ghost use Rattle.router_network.specs.Informed.{Informed};

use crate::network::Network;
use addr4::{Addr, Family, Memory, Place, Prefix, V4};
use bgp_attr::{Route, SharedAttrs};
use bgp_wire::RouteRefresh;
use decision::{Best, Contests};
use exit_side::Exits;
use journal_text::{Journal, Link, Value};
use link_change::{Change, Turn};
use peer_out::Writes;
use policy_rules::Rules;
use router_moments::Done;
use std::alloc::Global;
use std::collections::BTreeMap;
use std::marker::Model;

/// The latest rules of each peer's outgoing filter, whether it is up or not.
#[derive(Drop)]
pub(crate) struct Policies<F: Family = V4> {
    rules: BTreeMap<u32, Rules<F>>,
}

impl<F: Family> Model for Policies<F> {
    ghost use Rattle.std.specs.Coded.{coded_ℕ};
    ghost use Rattle.std.specs.FinMap as map;
    ghost use Rattle.addr4.specs.contracts.family.V4 as family_row;
    ghost use Rattle.policy_rules.specs.contracts.rule.Rules as rules_row;
    ghost use Rattle.router_moments.specs.Moments.{Policies};

    ghost Value = { Policies };

    ghost coded = { map.code coded_ℕ (rules_row.the_row family_row.the_row ⟦<V4 as Family>⟧).coded };

    ghost view = { λ p. map.from_entries p.rules.entries };
}

impl<F: Family> Policies<F> {
    pub(crate) fn new(alloc: Global) -> Policies<F>
        ensures { result ≡ map.empty }
    {
        Policies {
            rules: BTreeMap::new(alloc),
        }
    }

    fn set(&mut self, number: u32, rules: Rules<F>) -> Result<(), Memory>
        ensures { OnOk result (self.new ≡ map.insert self.old number rules) }
    {
        self.rules.insert(number, rules)?;
        Ok(())
    }

    /// The rules of a peer's filter; none where it was never edited.
    fn rules(&self, alloc: Global, number: u32) -> Result<Rules<F>, Memory>
        ensures { IfOk result (λ rules. rules ≡ rules_to number self.now) }
    {
        match self.rules.get(&number) {
            Some(rules) => rules.copy(alloc),
            None => Ok(Rules::new(alloc)),
        }
    }
}

// Whether a task had no work.
pub(crate) fn rested<R: Drop, F: Family>(turn: Turn<R, Prefix<F>>) -> bool
    ensures { MatchBool result (turn ≡ turns.Nothing) (turn ≢ turns.Nothing) }
{
    match turn {
        Turn::Nothing => true,
        Turn::Quiet | Turn::Sent(_) => false,
    }
}

impl<F: Writes> Network<F> {
    /// A session of a peer begins: its three links begin.
    pub(crate) fn begin_exit(&mut self, number: u32, journal: &mut Journal<F>) -> Result<(), Memory>
        requires sound { IsExits self.old.exits }
        requires sender { SendsAs self.old.declared.speaker self.old.exits.profile }
        requires there { IsSome (peer_at number self.old.declared.peers) }
        requires absent { exit_at number self.old.exits ≡ None }
        ensures { OnOk result (Adds (BeginsSession number self.old self.new) journal.old journal.new) }
    {
        let Some(me) = self.above.declared.speaker() else {
            unreachable!()
        };
        let Some(peer) = self.above.declared.peer(number) else {
            unreachable!()
        };
        let rules = self.readers.outgoing.rules(self.alloc, number)?;
        self.readers
            .exits
            .begin(&me, &peer.words, peer.session, rules, journal)?;
        Ok(())
    }

    /// A peer's outgoing filter has new rules, in its session or from its next one on.
    pub(crate) fn edit_outgoing(&mut self, number: u32, rules: Rules<F>) -> Result<(), Memory>
        requires admitted { refusal self.old.declared (events.FilterOut number rules) ≡ None }
        requires stands { Stands self.old }
        ensures { OnOk result (HasStepped self.old (events.FilterOut number rules) 0 self.new []) }
    {
        self.readers.exits.edit(number, rules.copy(self.alloc)?);
        self.readers.outgoing.set(number, rules)
    }

    /// A refresh from a peer that is up: where it is served, the walk over what the peer was sent begins anew. Takes no memory.
    pub fn refresh(&mut self, number: u32, refresh: RouteRefresh)
        ensures { self.new ≡ refreshed number refresh self.old }
    {
        self.above.declared.known();
        if refresh.is_served::<F>() {
            self.readers.exits.refresh(number);
        }
    }

    /// The queue of changes is prepared for the questions of an event (`Exits::prepare`), which changes nothing that contracts see.
    pub(crate) fn prepare(&mut self) -> Result<(), Memory>
        ensures { self.new ≡ self.old }
    {
        self.readers.exits.prepare()
    }

    /// What follows a change of `best`, if one came: its entry is pushed, and it joins the queue.
    pub(crate) fn queue(
        &mut self,
        sent: Option<Change<Route<SharedAttrs<F>>, Prefix<F>>>,
        journal: &mut Journal<F>,
    ) -> Result<(), Memory>
        requires { IsExits self.old.exits }
        ensures { OnOk result (Adds (JoinsQueue sent self.old self.new) journal.old journal.new) }
    {
        match sent {
            Some(change) => {
                journal.push_change(Link::Best, &change)?;
                self.readers.exits.put(change)
            }
            None => Ok(()),
        }
    }

    /// One turn of a peer's exit, and the text of its lines.
    #[inline(never)]
    pub(crate) fn turn_exit(
        &mut self,
        number: u32,
        contests: &Contests<F>,
        journal: &mut Journal<F>,
    ) -> Result<Done, Memory>
        requires stands { Stands self.old }
        requires informed { Informed contests.now self.old }
        ensures { IfOk result (TakesTurn (tasks.Out number) self.old self.new journal.old journal.new) }
    {
        let best = contests.best(&self.above);
        let turn = self.readers.exits.turn(number, &best, journal)?;
        if rested(turn) {
            return Ok(Done::Nothing);
        }
        journal.flush()?;
        Ok(Done::Taken)
    }

    /// One turn of a peer's refresh, and the text of its line: the next row that the peer was sent is said to it again. No link changes.
    #[inline(never)]
    pub(crate) fn turn_refresh(
        &mut self,
        number: u32,
        journal: &mut Journal<F>,
    ) -> Result<Done, Memory>
        requires { Stands self.old }
        ensures { IfOk result (TakesTurn (tasks.Ref number) self.old self.new journal.old journal.new) }
    {
        let again = self.readers.exits.resend(number, journal)?;
        if !again {
            return Ok(Done::Nothing);
        }
        journal.flush()?;
        Ok(Done::Taken)
    }

    /// The row at a prefix of a link of a peer's exit.
    pub(crate) fn sent(
        &self,
        link: Link,
        p: Prefix<F>,
        contests: &Contests<F>,
    ) -> Result<Option<Value<SharedAttrs<F>, Addr<F>>>, Memory>
        requires readers { HaveReaders self.now }
        requires live { IsSome (exit_links self.now.exits (best_of self.now) link) }
        requires informed { Informed contests.now self.now }
        ensures { IfOk result (HasRow (exit_links self.now.exits (best_of self.now)) link p) }
    {
        let best = contests.best(&self.above);
        self.readers.exits.asked(link, &best, p)
    }

    /// Where the next row of a link of a peer's exit may stand, beyond a place.
    pub(crate) fn next_sent(
        &self,
        link: Link,
        after: Place<Prefix<F>>,
        contests: &Contests<F>,
    ) -> Option<Prefix<F>>
        requires readers { HaveReaders self.now }
        requires live { IsSome (exit_links self.now.exits (best_of self.now) link) }
        requires informed { Informed contests.now self.now }
        ensures { IsNextPlace (exit_links self.now.exits (best_of self.now) link) (key_of after) result }
    {
        let best = contests.best(&self.above);
        self.readers.exits.next_candidate(link, &best, after)
    }
}
