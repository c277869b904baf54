//! What follows a change of `res.K` or `red`: the best route at its prefix, over all peers and this speaker's own (RFC 4271, section 9.1.2).

ghost use Rattle.std.specs.Prelude.{◌≡◌, ◌≤◌, Some, IfOk, OnOk, is_some};
ghost use Rattle.addr4.specs.Places.{key_of};
ghost use Rattle.journal_text.specs.Journals.{Adds};
ghost use Rattle.link_change.specs.Rows.{IsNextCandidate, CoversRows};
ghost use Rattle.exit_side.specs.Exits.{IsExits};
ghost use Rattle.router_moments.specs.Works.{Decides};
ghost use Rattle.router_moments.specs.Bests.{candidates_by};
ghost use Rattle.peer_side.specs.Peers.{chain_at};
ghost use Rattle.router_moments.specs.Moments.{best_of, candidates_of};
ghost use Rattle.decision.specs.Contests.{Knows};
ghost use Rattle.router_network.specs.Informed.{Informed, KnowsBut, KeepsCounts, branch_rows};

use crate::network::Network;
use addr4::{Memory, Place, Prefix};
use bgp_attr::{Route, SharedAttrs};
use decision::Contests;
use journal_text::Journal;
use link_change::{Change, Upstream};
use peer_out::Writes;

impl<F: Writes> Network<F> {
    /// Whether a peer has a candidate at a prefix: a row of its `in.K`. Takes no memory.
    pub(crate) fn has_candidate(&self, number: u32, p: Prefix<F>) -> bool
        ensures { result ≡ candidates_by (chain_at number self.now.chains) p }
    {
        match self.above.chains.chain(number) {
            Some(chain) => chain.has(p),
            None => false,
        }
    }

    /// What follows a change of `res.K` of a peer, or of `red` (number 0), if one came: the change of `best`, if there is one.
    pub(crate) fn decide(
        &mut self,
        number: u32,
        sent: Option<Change<Route<SharedAttrs<F>>, Prefix<F>>>,
        contests: &mut Contests<F>,
        journal: &mut Journal<F>,
    ) -> Result<(), Memory>
        requires small { number ≤ 64 }
        requires exits { IsExits self.old.exits }
        requires known { KnowsBut number sent contests.old self.old }
        ensures decides { OnOk result (Adds (Decides number sent self.old self.new) journal.old journal.new) }
        ensures known { OnOk result (Knows contests.new (branch_rows self.new)) }
        ensures counts { OnOk result (KeepsCounts contests.old contests.new) }
    {
        match sent {
            None => Ok(()),
            Some(change) => self.decide_change(number, change, contests, journal),
        }
    }

    /// The same of a change that came.
    #[inline(never)]
    pub(crate) fn decide_change(
        &mut self,
        number: u32,
        change: Change<Route<SharedAttrs<F>>, Prefix<F>>,
        contests: &mut Contests<F>,
        journal: &mut Journal<F>,
    ) -> Result<(), Memory>
        requires small { number ≤ 64 }
        requires exits { IsExits self.old.exits }
        requires known { KnowsBut number (Some change) contests.old self.old }
        ensures decides { OnOk result (Adds (Decides number (Some change) self.old self.new) journal.old journal.new) }
        ensures known { OnOk result (Knows contests.new (branch_rows self.new)) }
        ensures counts { OnOk result (KeepsCounts contests.old contests.new) }
    {
        let best = contests.take_in(number as u8, change, &self.above)?;
        self.queue(best, journal)
    }

    /// The best route at a prefix; None where neither a peer nor this speaker has one.
    pub(crate) fn best(
        &self,
        p: Prefix<F>,
        contests: &Contests<F>,
    ) -> Result<Option<Route<SharedAttrs<F>>>, Memory>
        requires informed { Informed contests.now self.now }
        ensures { IfOk result (λ row. row ≡ best_of self.now p) }
    {
        contests.asked(&self.above, &p)
    }

    /// Whether there is a best route at a prefix. Takes no memory.
    pub(crate) fn has_best(&self, p: Prefix<F>, contests: &Contests<F>) -> bool
        requires informed { Informed contests.now self.now }
        ensures { result ≡ is_some (best_of self.now p) }
    {
        contests.has(&self.above, &p)
    }

    /// Where the next best route may stand, beyond a place.
    pub(crate) fn next_best(
        &self,
        after: Place<Prefix<F>>,
        contests: &Contests<F>,
    ) -> Option<Prefix<F>>
        requires informed { Informed contests.now self.now }
        ensures next { IsNextCandidate (candidates_of self.now) (key_of after) result }
        ensures covers { CoversRows (candidates_of self.now) (best_of self.now) }
    {
        let best = contests.best(&self.above);
        best.next_candidate(&after)
    }
}
