//! What is measured: rows by prefix.

use crate::tables::prefix_at;
use addr4::{Addr, Memory, Prefix};
use safe_table::Table;
use std::collections::BTreeMap;
use std::ops::Bound;

pub trait Store {
    fn put(&mut self, prefix: Prefix, row: u64) -> Result<(), Memory>;

    /// The row at a prefix, or 0.
    fn at(&self, prefix: Prefix) -> u64;

    /// The row of the longest match, or 0.
    fn matched(&self, address: Addr) -> u64;

    /// Takes out the row at a prefix, or 0.
    fn take(&mut self, prefix: Prefix) -> u64;

    /// Goes over all rows in order, of which there are so many at most, and removes one at each step.
    fn walk(&mut self, count: u64) -> Result<u64, Memory>;
}

// What a step of a walk removes: at each second step the row where it stands, else another one, before or behind.
fn removed_at(step: u64, here: Prefix) -> Prefix {
    if step % 2 == 0 {
        return here;
    }
    match prefix_at(step) {
        None => here,
        Some(other) => other,
    }
}

impl Store for Table<u64> {
    fn put(&mut self, prefix: Prefix, row: u64) -> Result<(), Memory> {
        self.insert(prefix, row)?;
        Ok(())
    }

    fn at(&self, prefix: Prefix) -> u64 {
        self.get(prefix).copied().unwrap_or(0)
    }

    fn matched(&self, address: Addr) -> u64 {
        match Prefix::new(address, 24) {
            None => 0,
            Some(prefix) => self.at(prefix),
        }
    }

    fn take(&mut self, prefix: Prefix) -> u64 {
        self.remove(prefix).unwrap_or(0)
    }

    fn walk(&mut self, count: u64) -> Result<u64, Memory> {
        let mut it = self.iter_begin()?;
        let mut sum = 0u64;
        for step in 0..count {
            let Some(here) = self.iter_next(&mut it) else {
                break;
            };
            sum = sum.wrapping_add(self.remove(removed_at(step, here)).unwrap_or(0));
        }
        self.iter_end(it);
        Ok(sum)
    }
}

// The last row at or before a prefix.
fn last_to(map: &BTreeMap<Prefix, u64>, bound: Prefix) -> Option<(Prefix, u64)> {
    let mut range = map.range((Bound::Unbounded, Bound::Included(bound)));
    let (prefix, row) = range.next_back()?;
    Some((*prefix, *row))
}

impl Store for BTreeMap<Prefix, u64> {
    fn put(&mut self, prefix: Prefix, row: u64) -> Result<(), Memory> {
        self.insert(prefix, row)?;
        Ok(())
    }

    fn at(&self, prefix: Prefix) -> u64 {
        self.get(&prefix).copied().unwrap_or(0)
    }

    // As in the register: by the last row at or before the prefix of the address with so many bits.
    fn matched(&self, address: Addr) -> u64 {
        let mut length = 32;
        for _ in 0..33 {
            let Some(bound) = Prefix::new(address, length) else {
                break;
            };
            let Some(row) = last_to(self, bound) else {
                break;
            };
            if row.0.holds(address) {
                return row.1;
            }
            let differing = row.0.address().number() ^ address.number();
            length = differing.leading_zeros() as u8;
        }
        0
    }

    fn take(&mut self, prefix: Prefix) -> u64 {
        self.remove(&prefix).unwrap_or(0)
    }

    fn walk(&mut self, count: u64) -> Result<u64, Memory> {
        let mut sum = 0u64;
        let mut next = self.first_key_value().map(|row| *row.0);
        for step in 0..count {
            let Some(here) = next else {
                break;
            };
            sum = sum.wrapping_add(self.take(removed_at(step, here)));
            let beyond = (Bound::Excluded(here), Bound::Unbounded);
            next = self.range(beyond).next().map(|row| *row.0);
        }
        Ok(sum)
    }
}
