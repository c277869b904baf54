//! Tables and lookups of the second family, IPv6, whose prefixes have up to 128 bits.

use crate::prefixes::{address6, prefix6};
use addr4::{Addr, Memory, Place, Prefix};
use addr6::V6;
use nibble_trie::Trie;
use register_interest::Register;
use rib_route::External;
use safe_table::Table;
use std::alloc::Global;
use std::test::Fail;

/// The prefix of all 128 bits of an address.
fn host(front: u64, back: u64) -> Prefix<V6> {
    Prefix::new(address6(front, back), 128).unwrap()
}

/// 2001:db8::, in which documents have their addresses.
const FRONT: u64 = 0x2001_0db8_0000_0000;

/// Rows at nested prefixes, put in another order than theirs.
fn fill(table: &mut Table<u32, V6>) -> Result<(), Memory> {
    table.insert(host(u64::MAX, u64::MAX), 6)?;
    table.insert(prefix6(FRONT + 1, 64), 4)?;
    table.insert(host(FRONT, 1), 3)?;
    table.insert(prefix6(FRONT, 48), 2)?;
    table.insert(prefix6(0, 0), 0)?;
    table.insert(prefix6(FRONT, 32), 1)?;
    table.insert(host(FRONT + 1, 0), 5)?;
    Ok(())
}

/// The row behind a place, and its prefix; the place stays where there is none.
fn step(table: &Table<u32, V6>, place: &mut Place<Prefix<V6>>) -> Option<u32> {
    let next = table.next_after(*place)?;
    *place = Place::At(next);
    table.get(next).copied()
}

/// The first eight rows of a table in the order of their prefixes.
fn rows(table: &Table<u32, V6>) -> [Option<u32>; 8] {
    let mut place = Place::Before;
    let mut rows = [None; 8];
    for row in rows.iter_mut() {
        *row = step(table, &mut place);
    }
    rows
}

fn rows_of_new(alloc: Global) -> Result<[[Option<u32>; 8]; 2], Memory> {
    let mut table = Table::new(alloc);
    let filled = fill(&mut table);
    let all = rows(&table);
    let _ = table.remove(prefix6(FRONT, 48));
    let _ = table.remove(host(u64::MAX, u64::MAX));
    let fewer = rows(&table);
    drop(table);
    filled?;
    Ok([all, fewer])
}

#[test]
fn rows_of_ipv6_stand_in_order(rt: HostRuntime) -> Result<(), Fail> {
    let [all, fewer] = rows_of_new(rt.alloc())?;
    assert!(rt;
        all == [
            Some(0),
            Some(1),
            Some(2),
            Some(3),
            Some(4),
            Some(5),
            Some(6),
            None
        ]
    );
    assert!(rt;
        fewer
            == [
                Some(0),
                Some(1),
                Some(3),
                Some(4),
                Some(5),
                None,
                None,
                None
            ]
    );
    Ok(())
}

/// A row by the number of its next hop.
fn row(number: u64) -> External<Addr<V6>> {
    External {
        internal: false,
        next_hop: address6(0, number),
    }
}

/// The prefix of the longest row that holds an address, and the largest subnet with that answer.
fn found(
    register: &Register<External<Addr<V6>>, V6>,
    address: Addr<V6>,
) -> (Option<Prefix<V6>>, Prefix<V6>) {
    match register.peek(address) {
        (None, subnet) => (None, subnet),
        (Some((prefix, _)), subnet) => (Some(prefix), subnet),
    }
}

/// Whether the longest rows are found, and the largest subnets in which they stay the answer.
fn finds(alloc: Global, register: &mut Register<External<Addr<V6>>, V6>) -> Result<bool, Memory> {
    let none = found(register, address6(FRONT, 1)) == (None, prefix6(0, 0));
    drop(register.changed(alloc, prefix6(FRONT, 32), Some(row(1)))?);
    drop(register.changed(alloc, host(FRONT, 1), Some(row(2)))?);
    let long = found(register, address6(FRONT, 1)) == (Some(host(FRONT, 1)), host(FRONT, 1));
    let beside = found(register, address6(FRONT, 0)) == (Some(prefix6(FRONT, 32)), host(FRONT, 0));
    let far = found(register, address6(FRONT + (1 << 31), 0))
        == (Some(prefix6(FRONT, 32)), prefix6(FRONT + (1 << 31), 33));
    let other = found(register, address6(0, 0)) == (None, prefix6(0, 3));
    Ok(none && long && beside && far && other)
}

fn finds_in_new(alloc: Global) -> Result<bool, Memory> {
    let mut register = Register::new(alloc);
    let found = finds(alloc, &mut register);
    drop(register);
    found
}

#[test]
fn the_longest_row_of_ipv6_is_found(rt: HostRuntime) -> Result<(), Fail> {
    assert!(rt; finds_in_new(rt.alloc())?);
    Ok(())
}

/// Puts a value at a prefix of a trie.
fn put(trie: &mut Trie<u32, V6>, at: Prefix<V6>, value: u32) -> Result<Option<u32>, Memory> {
    match trie.insert(at, value) {
        Ok(before) => Ok(before),
        Err(_) => Err(Memory),
    }
}

/// The row of a trie behind a prefix, found by a descent and from the prefix's own leaf.
fn next(trie: &Trie<u32, V6>, at: Prefix<V6>) -> [Option<(Prefix<V6>, u32)>; 2] {
    let near = match trie.find(at) {
        Some((_, key)) => key,
        None => 0,
    };
    let found = match trie.next_row(Place::At(at)) {
        Some((prefix, value)) => Some((prefix, *value)),
        None => None,
    };
    match trie.next_near(near, Place::At(at)) {
        Some((prefix, value, _)) => [found, Some((prefix, *value))],
        None => [found, None],
    }
}

/// Whether a trie finds rows at nested prefixes, changes one and takes one out.
fn keeps(trie: &mut Trie<u32, V6>) -> Result<bool, Memory> {
    let subnet = prefix6(FRONT, 32);
    let own = host(FRONT, 1);
    put(trie, own, 2)?;
    put(trie, subnet, 1)?;
    let replaced = put(trie, own, 3)? == Some(2);
    if let Some(value) = trie.get_mut(subnet) {
        *value = 4;
    }
    let there = trie.get(subnet).copied() == Some(4) && trie.get(prefix6(FRONT, 33)).is_none();
    let behind = next(trie, subnet) == [Some((own, 3)), Some((own, 3))];
    let taken = trie.remove(own) == Some(3);
    Ok(replaced && there && behind && taken && next(trie, subnet) == [None, None])
}

fn keeps_in_new(alloc: Global) -> Result<bool, Memory> {
    let mut trie = Trie::new(alloc);
    let kept = keeps(&mut trie);
    drop(trie);
    kept
}

#[test]
fn a_trie_of_ipv6_keeps_rows(rt: HostRuntime) -> Result<(), Fail> {
    assert!(rt; keeps_in_new(rt.alloc())?);
    Ok(())
}
