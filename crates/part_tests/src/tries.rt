//! Values that are put into a trie where nothing stands.

use crate::prefixes::prefix;
use addr4::{Memory, Prefix};
use nibble_trie::Trie;
use std::alloc::Global;
use std::test::Fail;

/// The value that stands, where its leaf lies at a key.
fn standing(trie: &Trie<u32>, at: Prefix, key: usize) -> Option<u32> {
    let (value, leaf) = trie.find(at)?;
    if leaf == key { Some(*value) } else { None }
}

/// The value that stood and the one that was handed back; none where the value was put.
fn enter(
    trie: &mut Trie<u32>,
    at: Prefix,
    value: u32,
) -> Result<Option<(Option<u32>, u32)>, Memory> {
    match trie.enter(at, value) {
        Err(_) => Err(Memory),
        Ok(None) => Ok(None),
        Ok(Some((key, back))) => Ok(Some((standing(trie, at, key), back))),
    }
}

/// Whether values are put into an empty trie, behind a shorter prefix of an address and before the longer ones, and none where
/// one stands.
fn enters_nested(trie: &mut Trie<u32>) -> Result<bool, Memory> {
    let short = prefix(0x0a00_0000, 8);
    let middle = prefix(0x0a00_0000, 16);
    let long = prefix(0x0a00_0000, 24);
    let first = enter(trie, middle, 2)?.is_none();
    let again = enter(trie, middle, 7)? == Some((Some(2), 7));
    let behind = enter(trie, long, 3)?.is_none();
    let before = enter(trie, short, 1)?.is_none();
    let there = enter(trie, long, 8)? == Some((Some(3), 8))
        && enter(trie, short, 9)? == Some((Some(1), 9));
    let kept = trie.get(short).copied() == Some(1)
        && trie.get(middle).copied() == Some(2)
        && trie.get(long).copied() == Some(3);
    Ok(first && again && behind && before && there && kept && trie.nodes().len() == 3)
}

fn enters_nested_in_new(alloc: Global) -> Result<bool, Memory> {
    let mut trie = Trie::new(alloc);
    let entered = enters_nested(&mut trie);
    drop(trie);
    entered
}

#[test]
fn a_value_is_put_where_nothing_stands(rt: HostRuntime) -> Result<(), Fail> {
    assert!(rt; enters_nested_in_new(rt.alloc())?);
    Ok(())
}

/// One of a hundred prefixes: ten addresses with ten lengths each.
fn numbered(number: u32) -> Prefix {
    prefix((number / 10) << 24, 8 + (number % 10) as u8)
}

/// How many of a hundred prefixes a value is put at, and at how many the one of their number stands and the other comes back.
fn counts(trie: &mut Trie<u32>) -> Result<(u32, u32), Memory> {
    let mut put: u32 = 0;
    let mut found: u32 = 0;
    for number in 0..200u32 {
        match enter(trie, numbered(number % 100), number)? {
            None => put = put.wrapping_add(1),
            Some(both) => {
                if both == (Some(number % 100), number) {
                    found = found.wrapping_add(1);
                }
            }
        }
    }
    Ok((put, found))
}

fn counts_in_new(alloc: Global) -> Result<(u32, u32), Memory> {
    let mut trie = Trie::new(alloc);
    let counted = counts(&mut trie);
    drop(trie);
    counted
}

#[test]
fn a_hundred_prefixes_are_entered_once(rt: HostRuntime) -> Result<(), Fail> {
    assert!(rt; counts_in_new(rt.alloc())? == (100, 100));
    Ok(())
}
