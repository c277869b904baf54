//! The family of 128 bits: IPv6 (RFC 4291), and the texts of its addresses and prefixes.
#![tactic(auto)]

ghost use Rattle.std.specs.Prelude.{◌≡◌, ℕ, ◌+◌, ◌-◌, ◌*◌, ◌/◌, ◌%◌, ◌^◌, ◌<◌, ◌≤◌, refl, true};

mod laws;
#[cfg(test)]
mod tests;
mod texts;

use addr4::Family;
pub use laws::{
    addresses_are_hex_and_colons, printed_addresses_are_read_back, printed_prefixes_are_read_back,
};
use std::cmp::Ordering;

/// The bits of an address of IPv6.
#[derive(Clone, Copy, PartialEq, Eq)]
pub struct V6(pub u128);

impl Family for V6 {
    ghost V6 = { true };

    const V6: bool = true;

    const WIDTH: u8 = 128;

    ghost WIDTH = { 128 };

    ghost width_is = { refl };

    ghost number = { λ b. b.0 };

    ghost bits = { λ n. record { 0 = n } };

    ghost bits_of_number = { λ b. refl };

    fn unspecified() -> V6 {
        V6(0)
    }

    fn known(self) {}

    fn is_host(self) -> bool {
        1 < self.0 && self.0 < 0xff << 120
    }

    fn is_before_groups(self) -> bool {
        self.0 < 0xff << 120
    }

    fn compare(self, other: V6) -> Ordering {
        self.0.cmp(&other.0)
    }

    fn masked(self, length: u8) -> V6 {
        if length == 0 {
            return V6(0);
        }
        V6(self.0 - self.0 % (1u128 << (128 - length)))
    }

    fn bit(self, i: u8) -> bool {
        self.0 >> (127 - i) & 1 == 1
    }

    fn last(self, length: u8) -> V6 {
        if length == 0 {
            return V6(u128::MAX);
        }
        V6(self.0 + ((1u128 << (128 - length)) - 1))
    }

    fn shared_bits(self, other: V6) -> u8 {
        (self.0 ^ other.0).leading_zeros() as u8
    }

    fn digit(self, level: u32) -> usize {
        ((self.0 >> (4 * level)) % 16) as usize
    }
}
