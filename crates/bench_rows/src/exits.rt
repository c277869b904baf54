//! Measures what leaves the router: the queue of changes with its readers, and the octets that a peer is sent.
//!
//! `queue`: so many changes, which 64 readers take at eight speeds, and in the end all that is left; `octets`: so many routes
//! that are announced to an external peer, one message each. What is measured are the changes that were taken, or the messages.

mod announcing;
mod reading;

use crate::measured::Measured;
use addr4::{Addr, Memory, Prefix};
use std::alloc::Global;

/// The prefix of length 24 at an index.
fn prefix_at(index: u64) -> Option<Prefix> {
    let number = (index % 0x100_0000) as u32;
    Prefix::new(Addr::new(number.wrapping_mul(256)), 24)
}

pub(crate) fn measured(alloc: Global, kind: &str, count: u64) -> Result<Measured, Memory> {
    match kind {
        "queue" => reading::run(alloc, count),
        _ => announcing::run(alloc, count),
    }
}
