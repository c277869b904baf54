//! What follows a change in a peer's chain: its resolver takes the change in. And turns of chains and resolvers.

ghost use Rattle.std.specs.Prelude.{◌≡◌, IfOk, OnOk, IsSome, Some};
ghost use Rattle.journal_text.specs.declared.link.Task.TheVariants as tasks;
ghost use Rattle.journal_text.specs.Journals.{Adds};
ghost use Rattle.hop_side.specs.Resolvers.{resolver_at, IsHops, AllAgree};
ghost use Rattle.router_moments.specs.Moments.{with_hops};
ghost use Rattle.router_moments.specs.Stands.{Stands};
ghost use Rattle.router_moments.specs.Turns.{IsOfPeers, ResolvesOn, sent_of};
ghost use Rattle.router_moments.specs.Works.{TakesTurn, MaySettle, SettlesPeer};
ghost use Rattle.decision.specs.Contests.{Knows};
ghost use Rattle.in_chain.specs.Chains.{Chained};
ghost use Rattle.in_chain.specs.Steps.{FindsNextLost};
ghost use Rattle.peer_side.specs.Peers.{chain_at, peer_of};
ghost use Rattle.router_network.specs.Informed.{Informed, KnowsAbove, KeepsCounts, branch_rows};

use crate::candidates::forget;
use crate::network::Network;
use addr4::{Family, Memory, Prefix};
use bgp_attr::{Route, SharedAttrs};
use decision::Contests;
use journal_text::{Journal, Task};
use link_change::{Change, Turn};
use peer_out::Writes;
use peer_side::peer_of;
use router_moments::Done;

impl<F: Writes> Network<F> {
    /// What follows a change in a peer's chain, by what came out on `filt.K`: its resolver takes that in, the best route is
    /// decided anew where `res.K` changes, and behind it the stage goes that the change emptied.
    pub(crate) fn settle_peer(
        &mut self,
        number: u32,
        sent: Option<Change<Route<SharedAttrs<F>>, Prefix<F>>>,
        contests: &mut Contests<F>,
        journal: &mut Journal<F>,
    ) -> Result<(), Memory>
        requires may { MaySettle number self.old }
        requires above { KnowsAbove number sent contests.old self.old }
        ensures settles { OnOk result (Adds (SettlesPeer number sent self.old self.new) journal.old journal.new) }
        ensures known { OnOk result (Knows contests.new (branch_rows self.new)) }
        ensures counts { OnOk result (KeepsCounts contests.old contests.new) }
    {
        let passed = self.resolve(number, sent, journal)?;
        self.decide(number, passed, contests, journal)?;
        self.above.chains.weld(number, journal)
    }

    /// What follows a change on `filt.K`, if one came out. Answers the change on `res.K`, if there is one.
    fn resolve(
        &mut self,
        number: u32,
        sent: Option<Change<Route<SharedAttrs<F>>, Prefix<F>>>,
        journal: &mut Journal<F>,
    ) -> Result<Option<Change<Route<SharedAttrs<F>>, Prefix<F>>>, Memory>
        requires hops { IsHops self.old.hops }
        requires resolver { IsSome (resolver_at number self.old.hops) }
        requires agree { AllAgree self.old.hops self.old.registry }
        ensures resolves { IfOk result (λ passed. Adds (ResolvesOn number sent passed self.old.registry self.new.registry self.old.hops self.new.hops) journal.old journal.new) }
        ensures after { OnOk result (self.new ≡ with_hops self.old self.new.registry self.new.hops) }
    {
        self.registry.known();
        let Some(change) = sent else {
            return Ok(None);
        };
        self.above
            .hops
            .take_in(number, change, &mut self.registry, journal)
    }

    /// The prefix whose row of `in.K` the next turn of a peer's task takes; None where it takes none. Takes no memory.
    fn next_lost(&self, task: Task) -> Option<Prefix<F>>
        ensures { (chain : Chained) → chain_at (peer_of task) self.now.chains ≡ Some chain → FindsNextLost chain task result }
    {
        match self.above.chains.chain(peer_of(task)) {
            Some(chain) => chain.next_lost(task),
            None => None,
        }
    }

    /// One turn of a task of a peer's chain, and the text of its lines.
    #[inline(never)]
    pub(crate) fn turn_peer(
        &mut self,
        task: Task,
        contests: &mut Contests<F>,
        journal: &mut Journal<F>,
    ) -> Result<Done, Memory>
        requires stands { Stands self.old }
        requires peers { IsOfPeers task }
        requires informed { Informed contests.old self.old }
        ensures taken { IfOk result (TakesTurn task self.old self.new journal.old journal.new) }
        ensures informed { OnOk result (Informed contests.new self.new) }
    {
        let lost = self.next_lost(task);
        let turn = self.above.chains.turn(task, journal)?;
        if let Turn::Nothing = turn {
            return Ok(Done::Nothing);
        }
        self.settle_peer(peer_of(task), sent_of(turn), contests, journal)?;
        forget(contests, lost)?;
        journal.flush()?;
        Ok(Done::Taken)
    }

    /// One turn of the next hops of a peer, and the text of its lines.
    #[inline(never)]
    pub(crate) fn turn_hops(
        &mut self,
        number: u32,
        contests: &mut Contests<F>,
        journal: &mut Journal<F>,
    ) -> Result<Done, Memory>
        requires stands { Stands self.old }
        requires informed { Informed contests.old self.old }
        ensures taken { IfOk result (TakesTurn (tasks.Nh number) self.old self.new journal.old journal.new) }
        ensures informed { OnOk result (Informed contests.new self.new) }
    {
        let Some(chain) = self.above.chains.chain(number) else {
            return Ok(Done::Nothing);
        };
        let turn = self
            .above
            .hops
            .turn(number, chain, &mut self.registry, journal)?;
        if let Turn::Nothing = turn {
            return Ok(Done::Nothing);
        }
        self.decide(number, sent_of(turn), contests, journal)?;
        journal.flush()?;
        Ok(Done::Taken)
    }
}

/// The change that a turn sent, if it sent one.
pub(crate) fn sent_of<F: Family>(
    turn: Turn<Route<SharedAttrs<F>>, Prefix<F>>,
) -> Option<Change<Route<SharedAttrs<F>>, Prefix<F>>>
    ensures { result ≡ sent_of turn }
{
    match turn {
        Turn::Sent(change) => Some(change),
        _ => None,
    }
}
