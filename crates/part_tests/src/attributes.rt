//! Attributes that are copied whole.

use addr4::{Addr, Memory, RouterId, Row};
use bgp_attr::{
    AsPath, Attrs, ClusterList, Octets, Origin, Reflection, Unrecognized, UnrecognizedAttrs,
};
use std::alloc::Global;
use std::test::Fail;

/// 192.0.2.1, which sent the route to the reflector.
fn sender() -> RouterId {
    RouterId::new(0xc000_0201)
}

/// 192.0.2.254, the reflector's cluster.
fn cluster() -> RouterId {
    RouterId::new(0xc000_02fe)
}

/// An attribute of this kind that isn't recognized.
fn unrecognized(alloc: Global, kind: u8) -> Result<Unrecognized, Memory> {
    Ok(Unrecognized {
        kind,
        value: Octets::from_vec(Vec::from_slice(alloc, &[7, 8])?),
    })
}

/// The path (65001), attributes of these kinds that aren't recognized, and what one reflector added.
fn attrs(alloc: Global, kinds: &[u8]) -> Result<Attrs, Memory> {
    let mut items = Vec::new(alloc);
    for kind in kinds {
        items.push(unrecognized(alloc, *kind)?)?;
    }
    let unrecognized = UnrecognizedAttrs::from_vec(alloc, items)?;
    let reflection = Reflection::none().reflected(alloc, sender(), cluster())?;
    Ok(Attrs {
        origin: Origin::Igp,
        path: AsPath::new(alloc).prepended(65001, 0)?,
        next_hop: Addr::new(0xc000_0201),
        med: None,
        local_pref: None,
        atomic: false,
        aggregator: None,
        reflection,
        unrecognized,
    })
}

/// Whether a copy of them is the same, and has as many that aren't recognized.
fn is_same(alloc: Global, kinds: &[u8]) -> Result<bool, Memory> {
    let attrs = attrs(alloc, kinds)?;
    let copy = attrs.copy()?;
    Ok(copy.same(&attrs) && copy.unrecognized.as_slice().len() == kinds.len())
}

#[test]
fn a_copy_is_the_same(rt: HostRuntime) -> Result<(), Fail> {
    assert!(rt; is_same(rt.alloc(), &[])?);
    assert!(rt; is_same(rt.alloc(), &[99])?);
    assert!(rt; is_same(rt.alloc(), &[99, 100])?);
    Ok(())
}

/// Whether a route that was reflected twice has its first sender, and the clusters from the latest on.
fn is_marked(alloc: Global) -> Result<bool, Memory> {
    let once = Reflection::none().reflected(alloc, sender(), cluster())?;
    let twice = once.reflected(alloc, cluster(), sender())?;
    let clusters = ClusterList::from_vec(vec![in alloc; sender(), cluster()]?);
    let wanted = Reflection::new(alloc, Some(sender()), clusters)?;
    Ok(twice.same(&wanted) && !once.same(&twice))
}

#[test]
fn a_reflected_route_is_marked(rt: HostRuntime) -> Result<(), Fail> {
    assert!(rt; is_marked(rt.alloc())?);
    Ok(())
}
