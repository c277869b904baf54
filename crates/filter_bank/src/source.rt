//! A link of routes that tells who sent one, without making it.

ghost use Rattle.std.specs.Prelude.{◌≡◌, IfOk, true};
ghost use Rattle.filter_bank.specs.Outgoing.{ComesFrom, IsRowFor};

use addr4::{Family, Memory, Prefix};
use bgp_attr::{Route, SharedAttrs};
use link_change::Upstream;

/// A link of routes that tells of whom the route at a prefix came, without making it.
pub trait RouteUpstream<F: Family>: Upstream<F, Row = Route<SharedAttrs<F>>> {
    /// Whether what stands at a prefix is a route of the peer of that number: true only where nothing else does, and false
    /// also where the link can't tell. Takes no memory.
    fn is_from(&self, number: u8, p: &Prefix<F>) -> bool
        ensures { result ≡ true → ComesFrom number (Self.rows self.now p.now) };
}

/// The row at a prefix, as far as the peer of that number may get it: a route that came from this peer, which doesn't go back
/// (RFC 4271, section 9.2), isn't asked for. Memory only for want of memory.
pub(crate) fn asked_for<F: Family, U: RouteUpstream<F>>(
    upper: &U,
    number: u8,
    prefix: &Prefix<F>,
) -> Result<Option<Route<SharedAttrs<F>>>, Memory>
    ensures { IfOk result (IsRowFor number (U.rows upper.now prefix.now)) }
{
    if upper.is_from(number, prefix) {
        return Ok(None);
    }
    upper.asked(prefix)
}
