//! A link `best` of IPv6 that can't tell of whom its routes came.

use addr4::{Memory, Place, Prefix};
use addr6::V6;
use bgp_attr::{Route, SharedAttrs};
use cache_stage::Cache;
use filter_bank::RouteUpstream;
use link_change::Upstream;

/// The rows of `best`.
pub(crate) type Best = Cache<Route<SharedAttrs<V6>>, V6>;

/// The link `best`, which can't tell of whom its routes came.
#[derive(Drop)]
pub(crate) struct Untold<'a> {
    pub(crate) best: &'a Best,
}

impl<'a> Upstream<V6> for Untold<'a> {
    type Row = Route<SharedAttrs<V6>>;

    ghost use Rattle.std.specs.FinMap as map;
    ghost use Rattle.link_change.specs.Rows.{with_rows};

    ghost rows = { λ s. map.get s.best.now };

    ghost candidates = { λ s. with_rows (map.get s.best.now) };

    fn asked(&self, p: &Prefix<V6>) -> Result<Option<Route<SharedAttrs<V6>>>, Memory> {
        self.best.asked(p)
    }

    fn next_candidate(&self, after: &Place<Prefix<V6>>) -> Option<Prefix<V6>> {
        self.best.next_candidate(after)
    }
}

impl<'a> RouteUpstream<V6> for Untold<'a> {
    fn is_from(&self, _number: u8, _p: &Prefix<V6>) -> bool {
        false
    }
}
