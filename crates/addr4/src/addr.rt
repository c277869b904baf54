//! Addresses.

ghost use Rattle.std.specs.Prelude.{◌≡◌, ◌≢◌, ◌-◌, ◌%◌, ◌^◌, ◌<◌, ◌≤◌};
ghost use Rattle.std.proofs.Common.{rules};
ghost use Rattle.std.specs.Cmp.{partial_order_from_own_ties};
ghost use Rattle.std.specs.Cmp.Rules.{comparing};
ghost use Rattle.std.specs.Ordering.{as_partial_cmp, nat_cmp};
ghost use Rattle.addr4.specs.Blocks.{width, digit_at, Shared};
ghost use Rattle.addr4.specs.Families.{in_front, IsAddress};
ghost use Rattle.addr4.specs.Hosts.{is_host};

use crate::family::{Family, V4};
use std::alloc::AllocError;
use std::cmp::Ordering;
use std::marker::Model;

/// An address.
#[derive(Drop)]
pub struct Addr<F: Family = V4> {
    bits: F,
}

impl<F: Family> Model for Addr<F> {
    ghost use Rattle.std.proofs.Common.{ap};
    ghost use Rattle.std.specs.Prelude.{ℕ, ◌<◌, ◌^◌};

    ghost Value = { ℕ };

    ghost view = { λ a. F.number a.bits };

    ghost use Rattle.addr4.specs.Blocks.{width};

    ghost invariant = { λ a. F.number a.bits < 2 ^ width };

    ghost inverse = { λ n. record { bits = F.bits n } };

    ghost inverse_ok = { λ a h. ap (λ b. record { bits = b }) (F.bits_of_number a.bits) };
}

impl<F: Family> Clone for Addr<F> {
    fn clone(&self) -> Result<Addr<F>, AllocError> {
        Ok(*self)
    }
}

impl<F: Family> Copy for Addr<F> {}

impl<F: Family> PartialEq for Addr<F> {
    ghost use Rattle.std.specs.Prelude.{◌==◌};

    ghost eq = { ◌==◌ };

    ghost laws = { Prim.search (comparing, rules) };

    fn eq(&self, other: &Addr<F>) -> bool {
        self.bits.compare(other.bits).is_eq()
    }
}

impl<F: Family> Eq for Addr<F> {
    ghost laws = { Prim.search (comparing, rules) };
}

impl<F: Family> PartialOrd for Addr<F> {
    ghost partial_cmp = { as_partial_cmp nat_cmp };

    ghost laws = { partial_order_from_own_ties (Prim.search (comparing, rules)) (Prim.search (comparing, rules)) };

    fn partial_cmp(&self, other: &Addr<F>) -> Option<Ordering> {
        Some(self.cmp(other))
    }
}

impl<F: Family> Ord for Addr<F> {
    ghost cmp = { nat_cmp };

    ghost total = { Prim.search (comparing, rules) };

    ghost matches_partial_cmp = { Prim.search (comparing, rules) };

    ghost matches_eq = { Prim.search (comparing, rules) };

    fn cmp(&self, other: &Addr<F>) -> Ordering {
        self.bits.compare(other.bits)
    }
}

impl<F: Family> Addr<F> {
    pub fn from_bits(bits: F) -> Addr<F>
        ensures { result ≡ F.number bits }
    {
        bits.known();
        Addr { bits }
    }

    /// The address whose bits are all 0.
    pub fn unspecified() -> Addr<F>
        ensures { result ≡ 0 }
    {
        Addr::from_bits(F::unspecified())
    }

    pub fn bits(self) -> F
        ensures { F.number result ≡ self }
    {
        self.bits
    }

    /// Whether a host may have it.
    pub fn is_host(self) -> bool
        ensures { result ≡ is_host F.V6 self }
    {
        self.bits.is_host()
    }

    /// An address of the family, below two to the width.
    pub fn known(self)
        ensures fits { self < 2 ^ width }
        ensures rest { self % 2 ^ (width - F.WIDTH) ≡ 0 }
        ensures narrow { F.WIDTH ≤ width }
        ensures address { IsAddress F.V6 self }
    {
        self.bits.known();
    }

    /// How many of their first bits two different addresses share.
    pub fn shared_bits(self, other: Addr<F>) -> u8
        requires { self ≢ other }
        ensures shared { Shared width self other result }
        ensures short { result < F.WIDTH }
    {
        self.bits.shared_bits(other.bits)
    }

    /// The digit of four bits that so many others follow.
    pub fn digit(self, level: u32) -> usize
        requires { level < 32 }
        ensures digit { result ≡ digit_at level self }
        ensures small { result < 16 }
    {
        self.bits.digit(level)
    }
}

impl Addr {
    pub fn new(number: u32) -> Addr
        ensures { result ≡ in_front number }
    {
        Addr::from_bits(V4(number))
    }

    pub fn number(self) -> u32
        ensures { in_front result ≡ self }
    {
        self.bits.0
    }
}
