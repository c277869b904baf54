//! Routes that are announced to an external peer, one message each.

ghost use Rattle.std.specs.Prelude.{◌≡◌, IfOk, OnOk};
ghost use Rattle.peer_out.specs.Changes.{IsSender, MayBeHeard};

use crate::exits::prefix_at;
use crate::measured::Measured;
use addr4::{Addr, Memory, RouterId};
use bgp_attr::{
    AsPath, Attrs, Origin, Profile, Reflection, Route, SharedAttrs, Speaker, UnrecognizedAttrs,
};
use link_change::Change;
use peer_out::{PeerOut, local_routes_may_be_heard};
use std::alloc::Global;

/// AS numbers of two octets, errors by RFC 4271.
const PROFILE: Profile = Profile {
    as4: false,
    revised: false,
    reflect: false,
    v6: false,
    second: false,
};

fn speaker() -> Speaker
    ensures { IsSender PROFILE result }
{
    Speaker {
        asn: 65000,
        id: RouterId::new(0xc000_02fe),
        addr: Addr::new(0xc000_02fe),
    }
}

/// A route of this speaker's own.
fn own(alloc: Global) -> Result<Route, Memory>
    ensures { IfOk result (λ row. MayBeHeard PROFILE row.attrs) }
{
    local_routes_may_be_heard();
    let attrs = Attrs {
        origin: Origin::Igp,
        path: AsPath::new(alloc),
        next_hop: Addr::new(0xc000_0201),
        med: None,
        local_pref: None,
        atomic: false,
        aggregator: None,
        reflection: Reflection::none(),
        unrecognized: UnrecognizedAttrs::none(),
    };
    Ok(Route {
        attrs: SharedAttrs::new(alloc, attrs)?,
        pref: 100,
        med: None,
        prepend: 0,
        igp: Some(0),
        from: None,
    })
}

/// The message that announces a route.
fn announce(exit: &PeerOut, row: &Route, index: u64, measured: &mut Measured) -> Result<(), Memory>
    requires sender { IsSender exit.now.profile exit.now.me }
    requires heard { MayBeHeard exit.now.profile row.now.attrs }
{
    let Some(prefix) = prefix_at(index) else {
        return Ok(());
    };
    let Some(sent) = exit.sent(prefix, row)? else {
        return Ok(());
    };
    let change = Change {
        prefix,
        before: None,
        after: Some(sent),
    };
    let octets = exit.message(&change)?;
    measured.add(octets.len() as u64);
    Ok(())
}

/// So many routes, of which five after one another have the same attributes, as those of one message.
fn announce_all(exit: &PeerOut, row: &mut Route, routes: u64) -> Result<Measured, Memory>
    requires sender { IsSender exit.now.profile exit.now.me }
    requires heard { MayBeHeard exit.now.profile row.old.attrs }
{
    let mut measured = Measured { count: 0, sum: 0 };
    for index in 0..routes {
        row.med = Some((index / 5 % 1000) as u32);
        row.prepend = (index / 5 % 4) as u8;
        announce(exit, row, index, &mut measured)?;
    }
    Ok(measured)
}

/// So many routes are announced.
pub(crate) fn run(alloc: Global, routes: u64) -> Result<Measured, Memory> {
    let mut row = own(alloc)?;
    let exit = PeerOut::new(alloc, PROFILE, speaker(), true);
    announce_all(&exit, &mut row, routes)
}
