//! Whose exit has work first, and how far the slowest reader is behind.

ghost use Rattle.std.specs.Prelude.{◌≡◌, ℕ, IfNone, IsSome, is_some, Option};
ghost use Rattle.std.specs.List.{find};
ghost use Rattle.std.specs.Ordering.{nat_cmp};
ghost use Rattle.std.specs.FinMap as map;
ghost use Rattle.std.specs.BTreeMap.{IsOrdered};
ghost use Rattle.addr4.specs.Prefixes.{AddressPrefix};
ghost use Rattle.bgp_attr.specs.Routes.{Route as Routed};
ghost use Rattle.link_change.specs.Rows.{Rows};
ghost use Rattle.link_change.specs.InOrder.{changed_in};
ghost use Rattle.fanout_queue.specs.Queues.{IsMostUnread};
ghost use Rattle.fanout_queue.specs.Readers.{unread_by};
ghost use Rattle.exit_side.specs.Exits.{has_exit_work, exit_holds_up, left_in, IsExits};
ghost use Rattle.exit_side.specs.Tasks.{first_of, first_lagging, HaveReaders};

use crate::exits::Exits;
use addr4::Prefix;
use bgp_attr::{Route, SharedAttrs};
use fanout_queue::{Queue, Reader};
use out_chain::{OutChain, the_best_row_tells};
use peer_out::Writes;
use std::collections::BTreeMap;

impl<F: Writes> Exits<F> {
    /// Whether the task of a peer's exit has work: its reader hasn't taken all, or the walk of its
    /// filter is on.
    pub fn has_work(&self, number: u32) -> bool
        requires sound { IsExits self.now }
        ensures { result ≡ has_exit_work self.now number }
    {
        match self.chains.get(&number) {
            Some(chain) => chain.busy(&self.queue),
            None => false,
        }
    }

    /// The first peer, by number, whose exit has work. None exactly where no turn is left.
    pub fn first_busy(&self) -> Option<u32>
        requires sound { IsExits self.now }
        ensures first { result ≡ find (has_exit_work self.now) (map.keys self.now.chains) }
        ensures none { IfNone result ((beyond : Option AddressPrefix → ℕ) → left_in beyond self.now ≡ 0) }
    {
        first_of(&self.queue, &self.chains)
    }

    /// The first peer, by number, whose task holds up a prefix: its reader hasn't taken a change
    /// there, or the walk of its filter has yet to come to the row that it has there, or other
    /// rules wait for the end of the walk. None exactly where no peer's does. Whether `best` has a
    /// row there is lent. Takes no memory.
    pub fn first_held(&self, has_best: bool, p: Prefix<F>) -> Option<u32>
        requires sound { IsExits self.now }
        ensures { (best : Rows Routed) → has_best ≡ is_some (best p) → result ≡ find (λ j. exit_holds_up self.now best j p) (map.keys self.now.chains) }
    {
        the_best_row_tells();
        first_lagging(&self.queue, &self.chains, has_best, p)
    }

    /// Whether a reader of the queue hasn't taken a change at a prefix.
    pub fn unread(&self, reader: &Reader, p: Prefix<F>) -> bool
        requires { IsSome (map.get self.now.queue reader.now) }
        ensures { result ≡ changed_in (unread_by self.now.queue reader.now) p }
    {
        self.queue.unread(reader, p)
    }

    /// The most changes that a reader of the queue hasn't taken.
    pub fn most_unread(&self) -> u128
        ensures { IsMostUnread self.now.queue result }
    {
        self.queue.kept() as u128
    }
}

/// The first peer whose chain has work.
fn first_of<F: Writes>(
    queue: &Queue<Route<SharedAttrs<F>>, F>,
    chains: &BTreeMap<u32, OutChain<F>>,
) -> Option<u32>
    requires live { HaveReaders queue.now chains.now }
    ensures first { result ≡ first_of queue.now chains.now.entries }
    ensures ordered { IsOrdered nat_cmp chains.now }
{
    for (number, chain) in chains {
        if chain.busy(queue) {
            return Some(*number);
        }
    }
    None
}

/// The first peer whose chain holds up a prefix, where this tells whether `best` has a row there.
fn first_lagging<F: Writes>(
    queue: &Queue<Route<SharedAttrs<F>>, F>,
    chains: &BTreeMap<u32, OutChain<F>>,
    has_best: bool,
    p: Prefix<F>,
) -> Option<u32>
    requires live { HaveReaders queue.now chains.now }
    ensures first { result ≡ first_lagging queue.now has_best p chains.now.entries }
    ensures ordered { IsOrdered nat_cmp chains.now }
{
    for (number, chain) in chains {
        if chain.holds_up(queue, has_best, p) {
            return Some(*number);
        }
    }
    None
}
