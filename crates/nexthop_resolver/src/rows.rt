//! Rows that name a next hop, and what is kept of the answers about it.

ghost use Rattle.std.specs.Prelude.{◌≡◌, ℕ, Option};
ghost use Rattle.addr4.specs.Prefixes.{AddressPrefix};
ghost use Rattle.rib_route.specs.Rows.{Interior as Inner};
ghost use Rattle.register_interest.specs.Matches.{match_of};
ghost use Rattle.nexthop_resolver.specs.Kept.{first_router};

use addr4::{Addr, Family, Prefix, Row};
use bgp_attr::{Route, SharedAttrs};
use nexthop_known::Answer;
use register_interest::Match;
use rib_route::{External, FibRow, Iface, Interior};

/// What is kept of the register's answer about a next hop.
pub trait FromMatch<F: Family>: Answer {
    /// What is kept of the longest interior route that holds the next hop, or of none.
    ghost kept_of: { Option (AddressPrefix × Inner) → Self };

    /// What is kept of an answer.
    fn from_match(found: &Option<Match<Interior<Addr<F>>, Prefix<F>>>) -> Self
        ensures { result ≡ kept_of (match_of found.now) };
}

/// A row that names a next hop.
pub trait Via<F: Family>: Row {
    /// What is kept of the answer about the next hop.
    type Kept: FromMatch<F>;

    /// What the row goes on as.
    type Lower: Row;

    /// The next hop.
    ghost hop: { Self → ℕ };

    /// What the row goes on as by an answer, or none where it doesn't go on.
    ghost made: { Self → Self.Kept → Option Self.Lower };

    /// The next hop that the row names.
    fn next_hop(&self) -> Addr<F>
        ensures { result ≡ hop self.now };

    /// The row as it goes on by an answer; none where it doesn't.
    fn resolved(self, kept: Self::Kept) -> Option<Self::Lower>
        ensures { result ≡ made self kept };
}

/// Of an answer to a peer's resolver: the interior metric, or none where no route holds the next hop.
#[derive(Clone, Copy, PartialEq, Eq)]
pub struct Metric {
    pub igp: Option<u32>,
}

impl Answer for Metric {
    fn same(&self, other: &Metric) -> bool {
        self.igp == other.igp
    }
}

impl<F: Family> FromMatch<F> for Metric {
    ghost use Rattle.nexthop_resolver.specs.Kept.{metric_of};

    ghost kept_of = { metric_of };

    fn from_match(found: &Option<Match<Interior<Addr<F>>, Prefix<F>>>) -> Metric {
        match found {
            None => Metric { igp: None },
            Some(found) => Metric {
                igp: Some(found.row.metric),
            },
        }
    }
}

impl<F: Family> Via<F> for Route<SharedAttrs<F>> {
    ghost use Rattle.nexthop_resolver.specs.Kept.{route_hop, with_metric};

    type Kept = Metric;

    type Lower = Route<SharedAttrs<F>>;

    ghost hop = { route_hop };

    ghost made = { with_metric };

    fn next_hop(&self) -> Addr<F> {
        self.attrs.attrs().next_hop
    }

    fn resolved(self, kept: Metric) -> Option<Route<SharedAttrs<F>>> {
        match kept.igp {
            None => None,
            Some(igp) => {
                let mut route = self;
                route.igp = Some(igp);
                Some(route)
            }
        }
    }
}

/// How packets leave towards a next hop.
#[derive(Clone, Copy, PartialEq, Eq)]
pub struct Outlet<A = Addr> {
    /// The router that they are sent to first; none where the next hop is on a subnet of this router.
    pub gateway: Option<A>,
    pub iface: Iface,
}

/// Of an answer for the forwarding table: the outlet, or none where no route holds the next hop.
#[derive(Clone, Copy, PartialEq, Eq)]
pub struct Way<A = Addr> {
    pub outlet: Option<Outlet<A>>,
}

impl<F: Family> Answer for Way<Addr<F>> {
    fn same(&self, other: &Way<Addr<F>>) -> bool {
        self == other
    }
}

impl<F: Family> FromMatch<F> for Way<Addr<F>> {
    ghost use Rattle.nexthop_resolver.specs.Kept.{way_of};

    ghost kept_of = { way_of };

    fn from_match(found: &Option<Match<Interior<Addr<F>>, Prefix<F>>>) -> Way<Addr<F>> {
        match found {
            None => Way { outlet: None },
            Some(found) => Way {
                outlet: Some(Outlet {
                    gateway: found.row.gateway,
                    iface: found.row.iface,
                }),
            },
        }
    }
}

/// Whom packets are sent to: the gateway, or else the next hop itself.
fn first_router<F: Family>(gateway: Option<Addr<F>>, next_hop: Addr<F>) -> Addr<F>
    ensures { result ≡ first_router gateway next_hop }
{
    match gateway {
        None => next_hop,
        Some(gateway) => gateway,
    }
}

impl<F: Family> Via<F> for External<Addr<F>> {
    ghost use Rattle.nexthop_resolver.specs.Kept.{external_hop, over};

    type Kept = Way<Addr<F>>;

    type Lower = FibRow<Addr<F>>;

    ghost hop = { external_hop };

    ghost made = { over };

    fn next_hop(&self) -> Addr<F> {
        self.next_hop
    }

    fn resolved(self, kept: Way<Addr<F>>) -> Option<FibRow<Addr<F>>> {
        match kept.outlet {
            None => None,
            Some(outlet) => Some(FibRow {
                proto: self.fib_proto(),
                gateway: Some(first_router(outlet.gateway, self.next_hop)),
                iface: outlet.iface,
            }),
        }
    }
}
