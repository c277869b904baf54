//! What the decision compares of a route.

ghost use Rattle.std.specs.Prelude.{◌≡◌};
ghost use Rattle.best_path.specs.Keys.{neighbour_as, origin_rank, candidate_of};

use addr4::{Addr, Family, RouterId};
use bgp_attr::{Origin, Route, SharedAttrs};
use std::mem::size_of;

/// What the decision compares of a route; made of one by [`Candidate::of`]. That a route is local decides alone: of a local
/// one the rest counts nowhere.
#[derive(Clone, Copy, PartialEq, Eq)]
pub struct Candidate {
    /// How many clusters the route went through (RFC 4456, section 9).
    pub(crate) clusters: u64,
    /// How many AS numbers the path has, an AS_SET counting 1 (section 9.1.2.2 a).
    pub(crate) hops: u32,
    /// The degree of preference (RFC 4271, section 9.1.1).
    pub(crate) pref: u32,
    /// The AS within which MULTI_EXIT_DISC is compared (section 9.1.2.2 c).
    pub(crate) neighbour_as: u32,
    /// MULTI_EXIT_DISC, 0 where there is none.
    pub(crate) med: u32,
    /// The interior metric of the next hop, 0 where it isn't known.
    pub(crate) igp: u32,
    /// ORIGINATOR_ID, or the peer's BGP identifier where there is none (RFC 4456, section 9).
    pub(crate) id: RouterId,
    /// The peer's address.
    pub(crate) addr: Addr,
    pub(crate) origin: Origin,
    /// Whether this speaker made the route: it came from no peer.
    pub(crate) local: bool,
    /// Whether an internal peer sent the route.
    pub(crate) internal: bool,
}

// Lines of candidates are kept, so none is to grow.
const _: () = prove!(size_of::<Candidate>() <= 40);

impl Candidate {
    /// The candidate that a route is.
    pub fn of<F: Family>(route: &Route<SharedAttrs<F>>) -> Candidate
        ensures { result ≡ candidate_of route.now }
    {
        let attrs = route.attrs.attrs();
        let mut candidate = Candidate {
            local: true,
            pref: route.pref,
            hops: attrs.path.hops() as u32,
            origin: attrs.origin,
            neighbour_as: neighbour_as(route),
            med: route.med.unwrap_or(0),
            internal: false,
            igp: route.igp.unwrap_or(0),
            id: RouterId::new(0),
            clusters: attrs.reflection.clusters().len() as u64,
            addr: Addr::unspecified(),
        };
        if let Some(peer) = route.from {
            candidate.local = false;
            candidate.internal = peer.internal;
            candidate.id = attrs.reflection.originator().unwrap_or(peer.id);
            candidate.addr = peer.addr;
        }
        candidate
    }

    /// The place of ORIGIN in its order (RFC 4271, section 9.1.2.2 b).
    pub(crate) fn origin_rank(&self) -> u8
        ensures { result ≡ origin_rank self.now.origin }
    {
        match self.origin {
            Origin::Igp => 0,
            Origin::Egp => 1,
            Origin::Incomplete => 2,
        }
    }
}

// The neighbour AS of a route; 0 of a local one.
fn neighbour_as<F: Family>(route: &Route<SharedAttrs<F>>) -> u32
    ensures { result ≡ neighbour_as route.now }
{
    match route.from {
        None => 0,
        Some(peer) => {
            if peer.internal {
                route.attrs.attrs().path.first().unwrap_or(peer.asn)
            } else {
                peer.asn
            }
        }
    }
}
