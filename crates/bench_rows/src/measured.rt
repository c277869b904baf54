//! What was measured, and the words that say what is to be done.

use anyhow::Context;
use std::env;

/// What was done, and a checksum of it.
#[derive(Clone, Copy)]
pub(crate) struct Measured {
    pub(crate) count: u64,
    pub(crate) sum: u64,
}

impl Measured {
    pub(crate) fn add(&mut self, number: u64) {
        self.count = self.count.wrapping_add(1);
        self.sum = self.sum.wrapping_mul(31).wrapping_add(number);
    }
}

/// The number at an index of a fixed sequence without a pattern.
pub(crate) fn mixed(index: u64) -> u64 {
    let spread = index.wrapping_add(1).wrapping_mul(0x9e37_79b9_7f4a_7c15);
    let folded = (spread ^ (spread >> 30)).wrapping_mul(0xbf58_476d_1ce4_e5b9);
    folded ^ (folded >> 27)
}

/// The number that a word of the command line says.
pub(crate) fn number_of(rt: &HostRuntime, place: usize) -> anyhow::Result<u64> {
    let word = env::args(rt)?.nth(place).context("a word is missing")?;
    Ok(word.parse::<u64>()?)
}
