//! An iterator that stands on a row which goes.

use crate::prefixes::{prefix, prefix6};
use addr4::{Family, Memory, Prefix};
use safe_table::Table;
use std::alloc::Global;
use std::test::Fail;

/// Whether a node stands at the prefix.
fn has_node<F: Family>(table: &Table<u32, F>, prefix: Prefix<F>) -> bool {
    let mut found = false;
    for (_, node) in table.nodes() {
        if node.prefix == prefix {
            found = true;
        }
    }
    found
}

/// Whether a row that is removed under an iterator still has its node: at once, and after the next step.
fn nodes_left<F: Family>(
    table: &mut Table<u32, F>,
    at: [Prefix<F>; 2],
) -> Result<[bool; 2], Memory> {
    let [first, second] = at;
    table.insert(first, 1)?;
    table.insert(second, 2)?;
    let mut it = table.iter_begin()?;
    let _ = table.iter_next(&mut it);
    let _ = table.remove(first);
    let at_once = has_node(table, first);
    let _ = table.iter_next(&mut it);
    let later = has_node(table, first);
    table.iter_end(it);
    Ok([at_once, later])
}

fn nodes_left_in_new<F: Family>(alloc: Global, at: [Prefix<F>; 2]) -> Result<[bool; 2], Memory> {
    let mut table = Table::new(alloc);
    let left = nodes_left(&mut table, at);
    drop(table);
    left
}

#[test]
fn a_removed_row_keeps_its_node_for_its_iterator(rt: HostRuntime) -> Result<(), Fail> {
    let at = [prefix(0x0a01_0000, 16), prefix(0x0a02_0000, 16)];
    assert!(rt; nodes_left_in_new(rt.alloc(), at)? == [true, false]);
    Ok(())
}

#[test]
fn a_removed_row_of_ipv6_keeps_its_node_for_its_iterator(rt: HostRuntime) -> Result<(), Fail> {
    let at = [prefix6(1, 64), prefix6(1, 128)];
    assert!(rt; nodes_left_in_new(rt.alloc(), at)? == [true, false]);
    Ok(())
}
