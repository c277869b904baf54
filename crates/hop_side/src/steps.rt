//! What comes from above, and from the register; and turns of background work.

ghost use Rattle.std.specs.Prelude.{◌≡◌, IfOk, OnOk, OnErr, IsSome};
ghost use Rattle.nexthop_resolver.specs.Registered.{KeepsOthers};
ghost use Rattle.journal_text.specs.Journals.{Adds};
ghost use Rattle.hop_side.specs.Resolvers.{resolver_at, IsHops, AllAgree};
ghost use Rattle.hop_side.specs.Steps.{TakesBelow, ComesBelow, ReachesOne, ReachesBelow, HaveSamePeers};

use crate::hops::NextHops;
use addr4::{Addr, Memory, Prefix, Texts};
use bgp_attr::{Route, SharedAttrs};
use journal_text::{Journal, Link};
use link_change::{Change, Turn, Upstream};
use register_interest::{Interest, Register};
use rib_route::Interior;

impl<F: Texts> NextHops<F> {
    /// A change on `filt.K`, as it goes on below. A next hop that comes is asked for at once, and one that no row names any more
    /// is forgotten. Answers the change on `res.K`: None exactly where its map stays the same.
    pub fn take_in(
        &mut self,
        number: u32,
        change: Change<Route<SharedAttrs<F>>, Prefix<F>>,
        register: &mut Register<Interior<Addr<F>>, F>,
        journal: &mut Journal<F>,
    ) -> Result<Option<Change<Route<SharedAttrs<F>>, Prefix<F>>>, Memory>
        requires sound { IsHops self.old }
        requires there { IsSome (resolver_at number self.old) }
        requires agree { AllAgree self.old register.old }
        ensures taken { IfOk result (λ sent. Adds (TakesBelow number change sent register.old register.new self.old self.new) journal.old journal.new) }
        ensures memory { OnErr result (KeepsOthers number register.old register.new) }
    {
        let Some(resolver) = self.resolvers.get_mut(&number) else {
            unreachable!()
        };
        let sent = resolver.take_in(change, register)?;
        resolver.are_named();
        register.known();
        journal.push_sent(Link::Res(number), &sent)?;
        Ok(sent)
    }

    /// The register gave up these interests with a change of the interior routes: the answers that came with them are stale. No
    /// row changes, and nothing is said. For want of memory only some of them are stale, and the same peers have resolvers.
    pub fn reach(&mut self, reached: &[Interest<Prefix<F>>]) -> Result<(), Memory>
        requires sound { IsHops self.old }
        ensures stale { OnOk result (ReachesBelow reached.now self.old self.new) }
        ensures memory { OnErr result (HaveSamePeers self.old self.new) }
    {
        for interest in reached {
            self.reach_one(*interest)?;
        }
        Ok(())
    }

    // The answers that came with one interest are stale.
    fn reach_one(&mut self, interest: Interest<Prefix<F>>) -> Result<(), Memory>
        ensures stale { OnOk result (ReachesOne interest self.old self.new) }
        ensures memory { OnErr result (HaveSamePeers self.old self.new) }
    {
        let number = u32::from(interest.client);
        let Some(resolver) = self.resolvers.get_mut(&number) else {
            return Ok(());
        };
        resolver.invalidate(interest.subnet)
    }

    /// One turn of the next hops of a peer, over its link `filt.K` (`Resolver::unit`): a walk goes to the next candidate, or
    /// ends; the least stale next hop is asked for again; a walk begins. Nothing exactly where there is no work; Quiet where no
    /// change comes out on `res.K`.
    pub fn turn<U: Upstream<F, Row = Route<SharedAttrs<F>>>>(
        &mut self,
        number: u32,
        upper: &U,
        register: &mut Register<Interior<Addr<F>>, F>,
        journal: &mut Journal<F>,
    ) -> Result<Turn<Route<SharedAttrs<F>>, Prefix<F>>, Memory>
        requires sound { IsHops self.old }
        requires agree { AllAgree self.old register.old }
        ensures taken { IfOk result (ComesBelow number (U.candidates upper.now) (U.rows upper.now) register.old register.new self.old self.new journal.old journal.new) }
        ensures memory { OnErr result (KeepsOthers number register.old register.new) }
    {
        let Some(resolver) = self.resolvers.get_mut(&number) else {
            return Ok(Turn::Nothing);
        };
        let turn = resolver.unit(upper, register)?;
        resolver.are_named();
        register.known();
        match turn {
            Turn::Nothing => Ok(Turn::Nothing),
            Turn::Quiet => Ok(Turn::Quiet),
            Turn::Sent(change) => {
                journal.push_change(Link::Res(number), &change)?;
                Ok(Turn::Sent(change))
            }
        }
    }
}
