//! A route of this speaker's own, as an external peer gets it and as an internal one does.

use addr4::{Addr, Memory, Prefix, RouterId};
use bgp_attr::{
    AsPath, Attrs, Origin, Profile, Reflection, Route, SharedAttrs, Speaker, UnrecognizedAttrs,
};
use peer_out::as_sent;
use std::alloc::Global;
use std::test::Fail;

/// 192.0.2.254.
fn local() -> Addr {
    Addr::new(0xc000_02fe)
}

/// Origin incomplete, no AS, the local address as the next hop; preference 100, a metric, and the local AS twice more in front.
fn own(alloc: Global) -> Result<Route, Memory> {
    let attrs = Attrs {
        origin: Origin::Incomplete,
        path: AsPath::new(alloc),
        next_hop: local(),
        med: None,
        local_pref: None,
        atomic: false,
        aggregator: None,
        reflection: Reflection::none(),
        unrecognized: UnrecognizedAttrs::none(),
    };
    Ok(Route {
        attrs: SharedAttrs::new(alloc, attrs)?,
        pref: 100,
        med: Some(5),
        prepend: 2,
        igp: Some(0),
        from: None,
    })
}

/// How many ASes are in front, MULTI_EXIT_DISC and LOCAL_PREF of what is sent.
type Sent = (u128, Option<u32>, Option<u32>);

fn told_of(attrs: &SharedAttrs) -> Sent {
    let attrs = attrs.attrs();
    (attrs.path.hops(), attrs.med, attrs.local_pref)
}

/// What a peer of this speaker gets of the route at 10.1.0.0/16.
fn told(alloc: Global, row: &Route, external: bool) -> Result<Option<Sent>, Memory> {
    let plain = Profile {
        as4: false,
        revised: false,
        reflect: false,
        v6: false,
        second: false,
    };
    let me = Speaker {
        asn: 65000,
        id: RouterId::new(0xc000_02fe),
        addr: local(),
    };
    let at = Prefix::new(Addr::new(0x0a01_0000), 16).unwrap();
    let sent = as_sent(alloc, plain, &me, at, row, external)?;
    Ok(sent.as_ref().map(told_of))
}

fn own_told(alloc: Global, external: bool) -> Result<Option<Sent>, Memory> {
    let row = own(alloc)?;
    let sent = told(alloc, &row, external);
    drop(row);
    sent
}

#[test]
fn an_own_route_is_sent_to_each_kind_of_peer(rt: HostRuntime) -> Result<(), Fail> {
    let external = own_told(rt.alloc(), true)?;
    let internal = own_told(rt.alloc(), false)?;
    assert!(rt; external == Some((3, Some(5), None)) && internal == Some((0, Some(5), Some(100))));
    Ok(())
}
