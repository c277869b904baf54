//! Measures the tables: the same work on a table and on an ordered map.
//!
//! `table` or `map`, a number of prefixes, and how many of the steps are done: 1 puts, 2 gets, 3 longest matches (of a table:
//! gets again), 4 a walk over all rows during which others are removed, before and behind, 5 removals.

mod stores;

use crate::measured::mixed;
use addr4::{Addr, Memory, Prefix};
use safe_table::Table;
use std::alloc::Global;
use std::collections::BTreeMap;
use stores::Store;

// The prefix at an index, of a length from 8 to 24.
fn prefix_at(index: u64) -> Option<Prefix> {
    let number = mixed(index);
    Prefix::new(Addr::new((number >> 32) as u32), 8 + (number % 17) as u8)
}

fn put_all<S: Store>(store: &mut S, count: u64) -> Result<(), Memory> {
    for index in 0..count {
        if let Some(prefix) = prefix_at(index) {
            store.put(prefix, index)?;
        }
    }
    Ok(())
}

fn get_all<S: Store>(store: &S, count: u64) -> u64 {
    let mut sum = 0u64;
    for index in 0..count {
        if let Some(prefix) = prefix_at(index) {
            sum = sum.wrapping_add(store.at(prefix));
        }
    }
    sum
}

fn match_all<S: Store>(store: &S, count: u64) -> u64 {
    let mut sum = 0u64;
    for index in 0..count {
        let number = mixed(index.wrapping_add(count));
        sum = sum.wrapping_add(store.matched(Addr::new((number >> 32) as u32)));
    }
    sum
}

fn take_all<S: Store>(store: &mut S, count: u64) -> u64 {
    let mut sum = 0u64;
    for index in 0..count {
        if let Some(prefix) = prefix_at(index) {
            sum = sum.wrapping_add(store.take(prefix));
        }
    }
    sum
}

fn run<S: Store>(store: &mut S, count: u64, steps: u64) -> Result<u64, Memory> {
    put_all(store, count)?;
    let mut sum = 0u64;
    if steps >= 2 {
        sum = sum.wrapping_add(get_all(store, count));
    }
    if steps >= 3 {
        sum = sum.wrapping_add(match_all(store, count));
    }
    if steps >= 4 {
        sum = sum.wrapping_add(store.walk(count)?);
    }
    if steps >= 5 {
        sum = sum.wrapping_add(take_all(store, count));
    }
    Ok(sum)
}

fn sum_in_table(alloc: Global, count: u64, steps: u64) -> Result<u64, Memory> {
    let mut table = Table::new(alloc);
    run(&mut table, count, steps)
}

fn sum_in_map(alloc: Global, count: u64, steps: u64) -> Result<u64, Memory> {
    let mut map = BTreeMap::new(alloc);
    run(&mut map, count, steps)
}

pub(crate) fn sum_in(alloc: Global, kind: &str, count: u64, steps: u64) -> Result<u64, Memory> {
    match kind {
        "table" => sum_in_table(alloc, count, steps),
        _ => sum_in_map(alloc, count, steps),
    }
}
