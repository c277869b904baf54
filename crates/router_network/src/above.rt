//! What the best routes are decided from: the links `res.K` of all peers, and as branch 0 the link `red` (RFC 4271, section 9.1.2).

ghost use Rattle.std.specs.Prelude.{◌≡◌, IfOk, is_some};
ghost use Rattle.std.specs.Option.{option_copied};
ghost use Rattle.router_moments.specs.Bests.{lent_chain, lent_resolved};
ghost use Rattle.rib_split.specs.Splitting.{external_row};
ghost use Rattle.router_network.specs.Informed.{own_above, rows_above};

use addr4::{Addr, Memory, Place, Prefix, Texts, V4};
use bgp_attr::{Route, SharedAttrs};
use decision::Branches;
use event_text::Declared;
use hop_side::{Named, NextHops};
use in_chain::Chain;
use link_change::Upstream;
use peer_side::Peers;
use redist::Redist;
use rib_route::External;
use rib_split::external_of;
use rib_tree::Tree;

/// At most how many branches there are.
const MOST: u8 = 65;

/// What was declared, the interior routes and their redistribution, the peers' chains and their next hops: all that stands above
/// `best`. The decision is lent it as the rows of its branches.
#[derive(Drop)]
pub(crate) struct Above<F: Texts = V4> {
    pub(crate) declared: Declared<F>,
    pub(crate) tree: Tree<F>,
    pub(crate) redist: Redist<F>,
    pub(crate) chains: Peers<F>,
    pub(crate) hops: NextHops<F>,
}

impl<F: Texts> Above<F> {
    /// The chain of a branch, if there is one.
    fn chain(&self, branch: u8) -> Option<&Chain<F>>
        ensures { option_copied result ≡ lent_chain self.now.chains branch }
    {
        if branch < MOST {
            return self.chains.chain(u32::from(branch));
        }
        None
    }

    /// The row of `red` at a prefix; none before `local`.
    pub(crate) fn own(&self, p: &Prefix<F>) -> Result<Option<Route<SharedAttrs<F>>>, Memory>
        ensures { IfOk result (λ row. row ≡ own_above self.now p.now) }
    {
        match self.declared.speaker() {
            Some(me) => self.redist.asked(&self.tree, *p, &me),
            None => Ok(None),
        }
    }

    /// The row of `res.K` of a peer at a prefix.
    fn resolved(&self, branch: u8, p: &Prefix<F>) -> Result<Option<Route<SharedAttrs<F>>>, Memory>
        ensures { IfOk result (λ row. row ≡ lent_resolved self.now.chains self.now.hops branch p.now) }
    {
        let Some(chain) = self.chain(branch) else {
            return Ok(None);
        };
        self.hops.asked(u32::from(branch), chain, *p)
    }

    /// What forwarding needs of the row of a branch at a prefix, if a peer sent it: no route of this speaker's own does. No row is
    /// made. Takes no memory.
    pub(crate) fn external(&self, branch: u8, p: &Prefix<F>) -> Option<External<Addr<F>>>
        ensures { result ≡ external_row (rows_above self.now branch p.now) }
    {
        if branch == 0 {
            return None;
        }
        let chain = self.chain(branch)?;
        let next_hop = chain.next_hop(*p)?;
        if !self.hops.has(u32::from(branch), Some(next_hop), *p) {
            return None;
        }
        external_of(Some(*chain.peer()), next_hop)
    }

    /// Whether `red` has a row at a prefix. Takes no memory.
    fn has_own(&self, p: &Prefix<F>) -> bool
        ensures { result ≡ is_some (own_above self.now p.now) }
    {
        match self.declared.speaker() {
            Some(_) => self.redist.has(&self.tree.row(*p), *p),
            None => false,
        }
    }

    /// Whether `res.K` of a peer has a row at a prefix. Takes no memory.
    fn has_resolved(&self, branch: u8, p: &Prefix<F>) -> bool
        ensures { result ≡ is_some (lent_resolved self.now.chains self.now.hops branch p.now) }
    {
        let Some(chain) = self.chain(branch) else {
            return false;
        };
        self.hops.has(u32::from(branch), chain.next_hop(*p), *p)
    }
}

impl<F: Texts> Branches<F> for Above<F> {
    ghost use Rattle.rib_tree.specs.Trees.{int_candidates};
    ghost use Rattle.router_network.specs.Informed.{rows_above, counted_above};

    ghost rows = { λ a. rows_above a };

    ghost candidates = { λ a. counted_above a };

    ghost beside = { λ a. int_candidates a.tree };

    fn asked(&self, branch: u8, p: &Prefix<F>) -> Result<Option<Route<SharedAttrs<F>>>, Memory> {
        if branch == 0 {
            return self.own(p);
        }
        self.resolved(branch, p)
    }

    fn has(&self, branch: u8, p: &Prefix<F>) -> bool {
        if branch == 0 {
            return self.has_own(p);
        }
        self.has_resolved(branch, p)
    }

    fn next_beside(&self, after: &Place<Prefix<F>>) -> Option<Prefix<F>> {
        Upstream::next_candidate(&self.tree, after)
    }

    fn is_from(&self, branch: u8, number: u8) -> bool {
        if branch == 0 {
            return false;
        }
        match self.chain(branch) {
            Some(chain) => chain.peer().number == number,
            None => false,
        }
    }
}

impl<F: Texts> Named<F> for Above<F> {
    ghost use Rattle.peer_side.specs.Peers.{filt_at};

    ghost rows = { λ a. filt_at a.chains };

    fn next_hop(&self, number: u32, p: &Prefix<F>) -> Option<Addr<F>> {
        self.chains.chain(number)?.next_hop(*p)
    }
}
