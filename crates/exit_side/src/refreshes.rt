//! Peers that ask for all rows again (RFC 2918): the walks over what they were sent.

ghost use Rattle.std.specs.Prelude.{◌≡◌, IfOk, IfNone};
ghost use Rattle.std.specs.List.{find};
ghost use Rattle.std.specs.Ordering.{nat_cmp};
ghost use Rattle.std.specs.FinMap as map;
ghost use Rattle.std.specs.BTreeMap.{IsOrdered};
ghost use Rattle.exit_side.specs.Exits.{AreOutChains, has_refresh, refreshes_left, refreshed_exits};
ghost use Rattle.exit_side.specs.Steps.{ComesAgain};
ghost use Rattle.exit_side.specs.Tasks.{first_refreshing};

use crate::exits::Exits;
use addr4::Memory;
use journal_text::Journal;
use out_chain::OutChain;
use peer_out::Writes;
use std::collections::BTreeMap;

impl<F: Writes> Exits<F> {
    /// A peer asks for all rows again: a walk over what it was sent begins before all prefixes,
    /// whether or not one was on. Nothing changes where the peer isn't up, and no walk begins where
    /// nothing was sent. Takes no memory.
    pub fn refresh(&mut self, number: u32)
        ensures { self.new ≡ refreshed_exits number self.old }
    {
        let Some(chain) = self.chains.get_mut(&number) else {
            return;
        };
        chain.refresh();
    }

    /// One turn of the task `ref.J` (`OutChain::resend`): the least row beyond the place of the walk
    /// is announced once more, and the place moves there. No row changes on any link. False exactly
    /// where no walk of the peer is on; then nothing changes.
    pub fn resend(&mut self, number: u32, journal: &mut Journal<F>) -> Result<bool, Memory>
        requires chains { AreOutChains self.old }
        ensures { IfOk result (ComesAgain number self.old self.new journal.old journal.new) }
    {
        let Some(chain) = self.chains.get_mut(&number) else {
            return Ok(false);
        };
        chain.resend(journal)
    }

    /// Whether the walk of a refresh of a peer is on.
    pub fn has_refresh(&self, number: u32) -> bool
        ensures { result ≡ has_refresh self.now number }
    {
        match self.chains.get(&number) {
            Some(chain) => chain.refreshing(),
            None => false,
        }
    }

    /// The first peer, by number, of whom the walk of a refresh is on. None exactly where no turn
    /// of such a walk is left.
    pub fn first_refresh(&self) -> Option<u32>
        ensures first { result ≡ find (has_refresh self.now) (map.keys self.now.chains) }
        ensures none { IfNone result (refreshes_left self.now ≡ 0) }
    {
        first_refreshing(&self.chains)
    }
}

/// The first peer of whom the walk of a refresh is on.
fn first_refreshing<F: Writes>(chains: &BTreeMap<u32, OutChain<F>>) -> Option<u32>
    ensures first { result ≡ first_refreshing chains.now.entries }
    ensures ordered { IsOrdered nat_cmp chains.now }
{
    for (number, chain) in chains {
        if chain.refreshing() {
            return Some(*number);
        }
    }
    None
}
