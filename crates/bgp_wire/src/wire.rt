//! Families of addresses that stand in messages.

ghost use Rattle.std.specs.Prelude.{◌≡◌, ◌≤◌, length, slice_index};
ghost use Rattle.addr4.specs.Blocks.{width, masked_to};
ghost use Rattle.addr4.specs.Families.{bits_of};

use addr4::{Family, V4};
use addr6::V6;

/// A family whose addresses stand in messages, where they are the first octets of 16.
pub trait Wire: Family {
    /// The address that begins a number of 128 bits.
    fn from_number(bits: u128) -> Self
        ensures { Self.number result ≡ masked_to width bits Self.WIDTH };

    /// The address with zeros behind it.
    fn to_number(self) -> u128
        ensures { result ≡ Self.number self };
}

impl Wire for V4 {
    fn from_number(bits: u128) -> V4 {
        V4((bits >> 96) as u32)
    }

    fn to_number(self) -> u128 {
        u128::from(self.0) << 96
    }
}

impl Wire for V6 {
    fn from_number(bits: u128) -> V6 {
        V6(bits)
    }

    fn to_number(self) -> u128 {
        self.0
    }
}

/// How many bits an address of the family has.
pub(crate) fn most_bits<F: Family>() -> u8
    ensures value { result ≡ bits_of F.V6 }
    ensures same { result ≡ F.WIDTH }
{
    F::WIDTH
}
