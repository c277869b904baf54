//! The best routes that the reader of the forwarding side has, as they are lent to the RIB's exit.

ghost use Rattle.std.specs.Prelude.{◌≡◌};
ghost use Rattle.addr4.specs.Places.{key_of};
ghost use Rattle.bgp_attr.specs.Routes.{Route};
ghost use Rattle.link_change.specs.Rows.{Rows, IsNextCandidate, with_rows};
ghost use Rattle.rib_split.specs.Splitting.{external_row};

use addr4::{Addr, Family, Place, Prefix};
use rib_route::External;

/// The best routes that the reader of the forwarding side has, as they are lent to the RIB's exit: of each only what forwarding
/// needs.
pub trait Reading<F: Family> {
    /// The routes that the reader has.
    ghost rows: { Self → Rows Route };

    /// What forwarding needs of the route at a prefix, if a peer sent it. Takes no memory.
    fn external(&self, p: &Prefix<F>) -> Option<External<Addr<F>>>
        ensures { result ≡ external_row (rows self.now p.now) };

    /// The least prefix beyond a place where there is such a route.
    fn next_external(&self, after: &Place<Prefix<F>>) -> Option<Prefix<F>>
        ensures { IsNextCandidate (with_rows (λ q. external_row (rows self.now q))) (key_of after.now) result };
}
