//! The attributes of the routes of an UPDATE: one set for both families, but for the next hop.

ghost use Rattle.std.specs.Prelude.{◌≡◌, ℕ, IfOk, Option};
ghost use Rattle.bgp_wire.specs.Found.{attrs_from, attrs_for, joined};

use crate::found::Found;
use addr4::{Addr, Family, Memory, Prefix, Row};
use addr6::V6;
use bgp_attr::{Attrs, Reflection};
use std::alloc::Global;

/// All but the next hop, where ORIGIN and AS_PATH were found.
fn into_common(alloc: Global, found: Found, external: bool) -> Result<Option<Attrs<()>>, Memory>
    ensures { IfOk result (λ common. (hop : Option ℕ) → joined common hop ≡ attrs_from external found hop) }
{
    let Found {
        origin,
        path,
        next_hop: _,
        med,
        local_pref,
        atomic,
        aggregator,
        originator,
        clusters,
        reach: _,
        unreach: _,
        unrecognized,
    } = found;
    let (Some(origin), Some(path)) = (origin, path) else {
        return Ok(None);
    };
    Ok(Some(Attrs {
        origin,
        path,
        next_hop: (),
        med,
        local_pref: if external { None } else { local_pref },
        atomic,
        aggregator,
        reflection: Reflection::new(alloc, originator, clusters)?,
        unrecognized: unrecognized.into_attrs(alloc)?,
    }))
}

/// These with a next hop, if both are there.
fn with_hop<F: Family>(common: Option<Attrs<()>>, hop: Option<Addr<F>>) -> Option<Attrs<Addr<F>>>
    ensures { result ≡ joined common hop }
{
    let (Some(common), Some(next_hop)) = (common, hop) else {
        return None;
    };
    Some(Attrs {
        origin: common.origin,
        path: common.path,
        next_hop,
        med: common.med,
        local_pref: common.local_pref,
        atomic: common.atomic,
        aggregator: common.aggregator,
        reflection: common.reflection,
        unrecognized: common.unrecognized,
    })
}

fn copy_of(common: &Option<Attrs<()>>) -> Result<Option<Attrs<()>>, Memory>
    ensures { IfOk result (λ copy. copy ≡ common.now) }
{
    let Some(common) = common else {
        return Ok(None);
    };
    Ok(Some(Attrs {
        origin: common.origin,
        path: common.path.copy()?,
        next_hop: (),
        med: common.med,
        local_pref: common.local_pref,
        atomic: common.atomic,
        aggregator: common.aggregator,
        reflection: common.reflection.copy()?,
        unrecognized: common.unrecognized.copy()?,
    }))
}

/// The attributes of the prefixes of IPv4 that are announced, and of those of IPv6; none of a family that announces nothing.
pub(crate) fn attrs_of(
    alloc: Global,
    external: bool,
    found: Found,
    first: &[Prefix],
    second_hop: Option<Addr<V6>>,
    second: &[Prefix<V6>],
) -> Result<(Option<Attrs>, Option<Attrs<Addr<V6>>>), Memory>
    ensures first { IfOk result (λ attrs. attrs.0 ≡ attrs_for external found found.next_hop first.now) }
    ensures second { IfOk result (λ attrs. attrs.1 ≡ attrs_for external found second_hop second.now) }
{
    let hop = found.next_hop;
    if first.is_empty() && second.is_empty() {
        return Ok((None, None));
    }
    let common = into_common(alloc, found, external)?;
    if first.is_empty() {
        return Ok((None, with_hop(common, second_hop)));
    }
    if second.is_empty() {
        return Ok((with_hop(common, hop), None));
    }
    let again = copy_of(&common)?;
    Ok((with_hop(common, hop), with_hop(again, second_hop)))
}
