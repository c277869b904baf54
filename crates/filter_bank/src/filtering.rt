//! What the filter makes of one route.

ghost use Rattle.std.specs.Prelude.{◌≡◌, Some, option_map};
ghost use Rattle.filter_bank.specs.Filtered.{filtered, first_pref, first_route, has_been_here, is_own, route_hop};

use addr4::{Addr, Family, Prefix};
use bgp_attr::{Attrs, Neighbour, Route, SharedAttrs, Speaker};
use policy_rules::{Rules, accepts, judge};

/// The degree of preference before any rule.
fn first_pref(internal: bool, local_pref: Option<u32>) -> u32
    ensures { result ≡ first_pref internal local_pref }
{
    match local_pref {
        Some(pref) if internal => pref,
        _ => 100,
    }
}

/// The route before any rule.
fn first_route<F: Family>(peer: &Neighbour, attrs: SharedAttrs<F>) -> Route<SharedAttrs<F>>
    ensures { result ≡ first_route peer.now attrs }
{
    let pref = first_pref(peer.internal, attrs.attrs().local_pref);
    let med = attrs.attrs().med;
    Route {
        attrs,
        pref,
        med,
        prepend: 0,
        igp: None,
        from: Some(*peer),
    }
}

/// Whether the local AS is in the path (RFC 4271, section 9.1.2), or reflectors say that the route has been here (RFC 4456,
/// section 8).
fn has_been_here<F: Family>(me: &Speaker<Addr<F>>, attrs: &Attrs<Addr<F>>) -> bool
    ensures { result ≡ has_been_here me.now attrs.now }
{
    attrs.path.has(me.asn) || attrs.reflection.has_been_at(me.id)
}

/// Whether the route has been here, or the next hop is the local address.
fn is_own<F: Family>(me: &Speaker<Addr<F>>, attrs: &Attrs<Addr<F>>) -> bool
    ensures { result ≡ is_own me.now attrs.now }
{
    has_been_here(me, attrs) || attrs.next_hop == me.addr
}

/// The next hop of what the rules make of a row above; none where they let none through. Takes no memory.
pub fn filtered_hop<F: Family>(
    me: &Speaker<Addr<F>>,
    peer: &Neighbour,
    rules: &Rules<F>,
    prefix: Prefix<F>,
    row: &SharedAttrs<F>,
) -> Option<Addr<F>>
    ensures { result ≡ option_map route_hop (filtered me.now peer.now rules.now prefix (Some row.now)) }
{
    let attrs = row.attrs();
    if is_own(me, attrs) {
        return None;
    }
    if accepts(rules, prefix, attrs) {
        return Some(attrs.next_hop);
    }
    None
}

/// What the rules make of a row above.
pub fn filtered<F: Family>(
    me: &Speaker<Addr<F>>,
    peer: &Neighbour,
    rules: &Rules<F>,
    prefix: Prefix<F>,
    row: Option<SharedAttrs<F>>,
) -> Option<Route<SharedAttrs<F>>>
    ensures { result ≡ filtered me.now peer.now rules.now prefix row }
{
    match row {
        None => None,
        Some(attrs) => {
            if is_own(me, attrs.attrs()) {
                return None;
            }
            judge(rules, prefix, first_route(peer, attrs))
        }
    }
}
