//! The families of addresses.
ghost use Rattle.std.specs.Prelude.{◌≡◌, ◌≢◌, ℕ, ◌+◌, ◌-◌, ◌*◌, ◌/◌, ◌%◌, ◌^◌, ◌<◌, ◌≤◌, ◌↔◌, Bool, IsTrue, false, nat_lt, refl};
ghost use Rattle.std.specs.Ordering.{nat_cmp};
ghost use Rattle.addr4.specs.Blocks.{width, size_of_length, masked_to, digit_at, Shared};
ghost use Rattle.addr4.specs.Families.{bits_of, in_front, in_front_back, IsAddress};
ghost use Rattle.addr4.specs.Hosts.{beyond_hosts, is_host};

use std::cmp::Ordering;

/// A family of addresses: the bits of one. Contracts see an address of any family as a number of 128 bits, which begins
/// with the address's own; where texts, octets or hosts are spoken of, they also name the family.
pub trait Family: Copy {
    /// Whether it is IPv6.
    ghost V6: { Bool };

    const V6: bool;

    /// How many bits an address has.
    ghost WIDTH: { ℕ };

    const WIDTH: u8;

    ghost width_is: { WIDTH ≡ bits_of V6 };

    /// The number that the bits are.
    ghost number: { Self → ℕ };

    /// The bits of a number.
    ghost bits: { ℕ → Self };

    ghost bits_of_number: { (b : Self) → bits (number b) ≡ b };

    /// The bits that are all 0.
    fn unspecified() -> Self
        ensures { number result ≡ 0 };

    /// Bits are a number below two to the 128th, and behind them stand zeros.
    fn known(self)
        ensures fits { number self < 2 ^ width }
        ensures rest { number self % 2 ^ (width - Self.WIDTH) ≡ 0 }
        ensures narrow { Self.WIDTH ≤ width }
        ensures address { IsAddress Self.V6 (number self) };

    /// Whether a host may have the address.
    fn is_host(self) -> bool
        ensures { result ≡ is_host Self.V6 (number self) };

    /// Whether the address stands before those at the end of the family that are no hosts'.
    fn is_before_groups(self) -> bool
        ensures { result ≡ nat_lt (number self) (beyond_hosts Self.V6) };

    fn compare(self, other: Self) -> Ordering
        ensures { result ≡ nat_cmp (number self) (number other) };

    /// The bits with those beyond a length masked away.
    fn masked(self, length: u8) -> Self
        requires { length ≤ Self.WIDTH }
        ensures { number result ≡ masked_to width (number self) length };

    /// The bit behind so many others.
    fn bit(self, i: u8) -> bool
        requires { i < Self.WIDTH }
        ensures { IsTrue result ↔ (number self / 2 ^ (width - 1 - i) % 2 ≡ 1) };

    /// The last address of the prefix of so many bits that begins here.
    fn last(self, length: u8) -> Self
        requires short { length ≤ Self.WIDTH }
        requires masked { number self % size_of_length width length ≡ 0 }
        ensures { number result + 2 ^ (width - Self.WIDTH) ≡ number self + size_of_length width length };

    /// How many of their first bits two different addresses share.
    fn shared_bits(self, other: Self) -> u8
        requires { number self ≢ number other }
        ensures shared { Shared width (number self) (number other) result }
        ensures short { result < Self.WIDTH };

    /// The digit of four bits that so many others follow, of the 32 that 128 bits are.
    fn digit(self, level: u32) -> usize
        requires { level < 32 }
        ensures digit { result ≡ digit_at level (number self) }
        ensures small { result < 16 };
}

/// The family of 32 bits.
#[derive(Clone, Copy, PartialEq, Eq)]
pub struct V4(pub u32);

impl Family for V4 {
    ghost V6 = { false };

    const V6: bool = false;

    const WIDTH: u8 = 32;

    ghost WIDTH = { 32 };

    ghost width_is = { refl };

    ghost number = { λ b. in_front b.0 };

    ghost bits = { λ n. record { 0 = n / 2 ^ 96 } };

    ghost bits_of_number = { λ b i. record { 0 = in_front_back b.0 i } };

    fn unspecified() -> V4 {
        V4(0)
    }

    fn known(self) {}

    fn is_host(self) -> bool {
        let first = self.0 >> 24;
        1 <= first && first <= 223 && first != 127
    }

    fn is_before_groups(self) -> bool {
        self.0 < 224 << 24
    }

    fn compare(self, other: V4) -> Ordering {
        self.0.cmp(&other.0)
    }

    fn masked(self, length: u8) -> V4 {
        V4(self.0 - (u64::from(self.0) % (1u64 << (32 - length))) as u32)
    }

    fn bit(self, i: u8) -> bool {
        self.0 >> (31 - i) & 1 == 1
    }

    fn last(self, length: u8) -> V4 {
        let size = 1u64 << (32 - length);
        V4((u64::from(self.0) + (size - 1)) as u32)
    }

    fn shared_bits(self, other: V4) -> u8 {
        (self.0 ^ other.0).leading_zeros() as u8
    }

    fn digit(self, level: u32) -> usize {
        if level < 24 {
            return 0;
        }
        ((self.0 >> (4 * (level - 24))) % 16) as usize
    }
}
