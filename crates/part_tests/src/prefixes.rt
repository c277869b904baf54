//! Prefixes of numbers.

use addr4::{Addr, Prefix};
use addr6::V6;

/// The prefix of this length, at most 32, that the address lies in.
pub(crate) fn prefix(address: u32, length: u8) -> Prefix {
    Prefix::new(Addr::new(address), length % 33).unwrap()
}

/// The address of IPv6 whose first and last 64 bits these are.
pub(crate) fn address6(front: u64, back: u64) -> Addr<V6> {
    Addr::from_bits(V6(u128::from(front) << 64 | u128::from(back)))
}

/// The prefix of this length, at most 128, in which the address of these first 64 bits lies.
pub(crate) fn prefix6(front: u64, length: u8) -> Prefix<V6> {
    Prefix::new(address6(front, 0), length % 129).unwrap()
}
