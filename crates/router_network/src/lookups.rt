//! Lookups, by the region of the link: whether it is live, its row at a prefix, and where the next one may stand.

ghost use Rattle.std.specs.Prelude.{◌≡◌, IfOk, IsSome, is_some};
ghost use Rattle.addr4.specs.Places.{key_of};
ghost use Rattle.journal_text.specs.Walk.{HasRow};
ghost use Rattle.hop_side.specs.Resolvers.{hop_links};
ghost use Rattle.peer_side.specs.Peers.{filt_at};
ghost use Rattle.rib_tree.specs.Trees.{int_rows};
ghost use Rattle.router_moments.specs.Bests.{own_links, best_links};
ghost use Rattle.router_moments.specs.Moments.{own_of, best_of, tree_by, forward_by, router_links};
ghost use Rattle.router_moments.specs.Stands.{HaveReaders};
ghost use Rattle.router_moments.specs.Lookups.{IsNextPlace};
ghost use Rattle.router_network.specs.Informed.{Informed};

use crate::network::Network;
use addr4::{Addr, Memory, Place, Prefix};
use bgp_attr::SharedAttrs;
use decision::Contests;
use journal_text::{Link, Value};
use link_region::{Region, region_of};
use peer_out::Writes;

impl<F: Writes> Network<F> {
    /// Whether a link is live.
    pub(crate) fn live(&self, link: Link) -> bool
        ensures { result ≡ is_some (router_links self.now link) }
    {
        match region_of(link) {
            Region::Inward => self.above.chains.live(link),
            Region::Resolved => self.above.hops.live(link),
            Region::Decided => self.best_live(link),
            Region::InteriorRoutes => self.tree_live(link),
            Region::Redistributed => self.own_live(link),
            Region::External => self.readers.reader.is_some(),
            Region::Forward => self.forward_live(link),
            Region::Outward => self.readers.exits.live(link),
        }
    }

    /// Whether a link of the interior routes is live.
    fn tree_live(&self, link: Link) -> bool
        ensures { result ≡ is_some (tree_by self.now.declared.speaker self.now.tree link) }
    {
        match self.above.declared.speaker() {
            Some(_) => self.above.tree.live(link),
            None => false,
        }
    }

    /// Whether a link of the external routes, or `fib`, is live.
    fn forward_live(&self, link: Link) -> bool
        ensures { result ≡ is_some (forward_by self.now.declared.speaker self.now.rib (int_rows self.now.tree) link) }
    {
        match self.above.declared.speaker() {
            Some(_) => self.readers.rib.live(link),
            None => false,
        }
    }

    /// Whether `red` is live.
    fn own_live(&self, link: Link) -> bool
        ensures { result ≡ is_some (own_links self.now.declared.speaker (own_of self.now) link) }
    {
        match link {
            Link::Red => self.above.declared.speaker().is_some(),
            _ => false,
        }
    }

    /// The row at a prefix of a live link; None where it has none.
    pub(crate) fn asked(
        &self,
        link: Link,
        p: Prefix<F>,
        contests: &Contests<F>,
    ) -> Result<Option<Value<SharedAttrs<F>, Addr<F>>>, Memory>
        requires readers { HaveReaders self.now }
        requires live { IsSome (router_links self.now link) }
        requires informed { Informed contests.now self.now }
        ensures { IfOk result (HasRow (router_links self.now) link p) }
    {
        match region_of(link) {
            Region::Inward => self.above.chains.asked(link, p),
            Region::Resolved => self.resolved(link, p),
            Region::Decided => self.decided(link, p, contests),
            Region::InteriorRoutes => self.above.tree.asked(link, p),
            Region::Redistributed => self.own(link, p),
            Region::External => self.read(p, contests),
            Region::Forward => self.forwarded(link, p, contests),
            Region::Outward => self.sent(link, p, contests),
        }
    }

    /// Where the next row of a live link may stand, beyond a place.
    pub(crate) fn next_candidate(
        &self,
        link: Link,
        after: Place<Prefix<F>>,
        contests: &Contests<F>,
    ) -> Option<Prefix<F>>
        requires readers { HaveReaders self.now }
        requires live { IsSome (router_links self.now link) }
        requires informed { Informed contests.now self.now }
        ensures { IsNextPlace (router_links self.now link) (key_of after) result }
    {
        match region_of(link) {
            Region::Inward => self.above.chains.next_candidate(link, after),
            Region::Resolved => self.next_resolved(link, after),
            Region::Decided => self.next_best(after, contests),
            Region::InteriorRoutes => self.above.tree.next_candidate(link, after),
            Region::Redistributed => self.above.redist.next_candidate(&self.above.tree, after),
            Region::External => self.next_read(after, contests),
            Region::Forward => self.next_forwarded(link, after, contests),
            Region::Outward => self.next_sent(link, after, contests),
        }
    }

    /// The row at a prefix of `res.K`; None where it has none.
    fn resolved(
        &self,
        link: Link,
        p: Prefix<F>,
    ) -> Result<Option<Value<SharedAttrs<F>, Addr<F>>>, Memory>
        requires { IsSome (hop_links self.now.hops (filt_at self.now.chains) link) }
        ensures { IfOk result (HasRow (hop_links self.now.hops (filt_at self.now.chains)) link p) }
    {
        let Link::Res(number) = link else {
            unreachable!()
        };
        let Some(chain) = self.above.chains.chain(number) else {
            return Ok(None);
        };
        match self.above.hops.asked(number, chain, p)? {
            Some(route) => Ok(Some(Value::Route(route))),
            None => Ok(None),
        }
    }

    /// Whether `best` is live.
    fn best_live(&self, link: Link) -> bool
        ensures { result ≡ is_some (best_links self.now.declared.speaker (best_of self.now) link) }
    {
        match link {
            Link::Best => self.above.declared.speaker().is_some(),
            _ => false,
        }
    }

    /// The row at a prefix of `best`; None where it has none.
    fn decided(
        &self,
        link: Link,
        p: Prefix<F>,
        contests: &Contests<F>,
    ) -> Result<Option<Value<SharedAttrs<F>, Addr<F>>>, Memory>
        requires live { IsSome (best_links self.now.declared.speaker (best_of self.now) link) }
        requires informed { Informed contests.now self.now }
        ensures { IfOk result (HasRow (best_links self.now.declared.speaker (best_of self.now)) link p) }
    {
        match self.best(p, contests)? {
            Some(route) => Ok(Some(Value::Route(route))),
            None => Ok(None),
        }
    }

    /// The row at a prefix of `red`; None where it has none.
    fn own(
        &self,
        link: Link,
        p: Prefix<F>,
    ) -> Result<Option<Value<SharedAttrs<F>, Addr<F>>>, Memory>
        requires { IsSome (own_links self.now.declared.speaker (own_of self.now) link) }
        ensures { IfOk result (HasRow (own_links self.now.declared.speaker (own_of self.now)) link p) }
    {
        match self.above.own(&p)? {
            Some(route) => Ok(Some(Value::Route(route))),
            None => Ok(None),
        }
    }

    /// Where the next row of `res.K` may stand, beyond a place: at the candidates of `filt.K`.
    fn next_resolved(&self, link: Link, after: Place<Prefix<F>>) -> Option<Prefix<F>>
        requires { IsSome (hop_links self.now.hops (filt_at self.now.chains) link) }
        ensures { IsNextPlace (hop_links self.now.hops (filt_at self.now.chains) link) (key_of after) result }
    {
        let Link::Res(number) = link else {
            unreachable!()
        };
        let Some(chain) = self.above.chains.chain(number) else {
            return None;
        };
        self.above.hops.next_candidate(number, chain, after)
    }
}
