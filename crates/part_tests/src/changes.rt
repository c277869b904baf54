//! What a map holds after changes.

use crate::prefixes::prefix;
use addr4::{Memory, Prefix};
use link_change::{Change, apply};
use std::alloc::Global;
use std::collections::BTreeMap;
use std::test::Fail;

/// Whether the map holds the new row at a prefix after a change there.
fn is_applied(
    map: &mut BTreeMap<Prefix, u32>,
    prefix: Prefix,
    before: Option<u32>,
    after: Option<u32>,
) -> Result<bool, Memory> {
    let change = Change {
        prefix,
        before,
        after,
    };
    apply(map, change)?;
    Ok(map.get(&prefix).copied() == after)
}

/// Whether the map follows an add, a replace and a delete, and keeps its row at another prefix.
fn follows(map: &mut BTreeMap<Prefix, u32>) -> Result<bool, Memory> {
    let at = prefix(0x0a01_0000, 16);
    let other = prefix(0x0a00_0000, 8);
    map.insert(other, 7)?;
    let added = is_applied(map, at, None, Some(1))?;
    let replaced = is_applied(map, at, Some(1), Some(2))?;
    let deleted = is_applied(map, at, Some(2), None)?;
    Ok(added && replaced && deleted && map.get(&other).copied() == Some(7))
}

fn new_follows(alloc: Global) -> Result<bool, Memory> {
    let mut map = BTreeMap::new(alloc);
    let right = follows(&mut map);
    drop(map);
    right
}

#[test]
fn changes_add_replace_and_delete(rt: HostRuntime) -> Result<(), Fail> {
    assert!(rt; new_follows(rt.alloc())?);
    Ok(())
}
