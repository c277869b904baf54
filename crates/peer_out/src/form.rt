//! The form in which a route is sent.

ghost use Rattle.std.specs.Prelude.{◌≡◌, IfOk};
ghost use Rattle.peer_out.specs.Forms.{as_sent};

use crate::sent_route::SentRoute;
use crate::writes::Writes;
use addr4::{Addr, Memory, Prefix};
use bgp_attr::{Profile, Route, SharedAttrs, Speaker};
use bgp_wire::{announcement_fits, attributes_length};
use std::alloc::Global;

/// A route as a peer is sent it, which is external or internal to this speaker. None exactly where the announcement of the prefix
/// would have more than 4,096 octets. Takes no memory: the attributes are shared.
pub(crate) fn sent_route<F: Writes>(
    alloc: Global,
    profile: Profile,
    me: &Speaker<Addr<F>>,
    prefix: Prefix<F>,
    row: &Route<SharedAttrs<F>>,
    external: bool,
) -> Result<Option<SentRoute<F>>, Memory>
    requires { profile.second ≡ F.V6 }
    ensures { IfOk result (λ sent. sent ≡ as_sent profile me.now external prefix row.now) }
{
    let route = SentRoute::new(alloc, profile, me, external, row)?;
    let size = attributes_length(profile, &route.lent());
    if announcement_fits(prefix, size) {
        Ok(Some(route))
    } else {
        Ok(None)
    }
}

/// The attributes of a route as a peer gets them, which is external or internal to this speaker. None exactly where the
/// announcement of the prefix with them would have more than 4,096 octets. Memory only for want of memory.
pub fn as_sent<F: Writes>(
    alloc: Global,
    profile: Profile,
    me: &Speaker<Addr<F>>,
    prefix: Prefix<F>,
    row: &Route<SharedAttrs<F>>,
    external: bool,
) -> Result<Option<SharedAttrs<F>>, Memory>
    requires { profile.second ≡ F.V6 }
    ensures { IfOk result (λ sent. sent ≡ as_sent profile me.now external prefix row.now) }
{
    match sent_route(alloc, profile, me, prefix, row, external)? {
        Some(route) => Ok(Some(route.form()?)),
        None => Ok(None),
    }
}
