//! Prefixes of addresses.
ghost use Rattle.std.specs.Prelude.{◌≡◌, ◌+◌, ◌-◌, ◌/◌, ◌%◌, ◌^◌, ◌<◌, ◌≤◌, ◌↔◌, ◌==◌, IsTrue, MatchOption};
ghost use Rattle.std.proofs.Common.{rules};
ghost use Rattle.std.specs.Cmp.{partial_order_from_own_ties};
ghost use Rattle.std.specs.Cmp.Rules.{comparing};
ghost use Rattle.std.specs.Ordering.{as_partial_cmp};
ghost use Rattle.addr4.specs.Blocks.{width, masked_to};
ghost use Rattle.addr4.specs.Families.{IsPrefixOf};
ghost use Rattle.addr4.specs.Hosts.{is_host_prefix};
ghost use Rattle.addr4.specs.Prefixes.{prefix_cmp, same_prefix};

use crate::addr::Addr;
use crate::family::{Family, V4};
use std::alloc::AllocError;
use std::cmp::Ordering;
use std::marker::Model;

/// An address with zero bits beyond a length.
#[derive(Drop)]
pub struct Prefix<F: Family = V4> {
    address: Addr<F>,
    length: u8,
}

impl<F: Family> Model for Prefix<F> {
    ghost use Rattle.addr4.specs.Prefixes.{AddressPrefix, address_prefix_code, IsMasked};

    ghost Value = { AddressPrefix };

    ghost coded = { address_prefix_code };

    ghost view = { λ p. record { address = p.address; length = p.length } };

    ghost use Rattle.std.specs.Prelude.{◌≤◌};
    ghost use Rattle.addr4.specs.Blocks.{width};

    ghost invariant = { λ p. IsMasked width (record { address = p.address; length = p.length }) × (p.length ≤ F.WIDTH) };

    ghost inverse = { λ p. record { address = p.address; length = p.length } };
}

impl<F: Family> Clone for Prefix<F> {
    fn clone(&self) -> Result<Prefix<F>, AllocError> {
        Ok(*self)
    }
}

impl<F: Family> Copy for Prefix<F> {}

impl<F: Family> PartialEq for Prefix<F> {
    ghost eq = { same_prefix };

    ghost laws = { Prim.search (comparing, rules) };

    fn eq(&self, other: &Prefix<F>) -> bool {
        self.address.bits().compare(other.address.bits()).is_eq() && self.length == other.length
    }
}

impl<F: Family> Eq for Prefix<F> {
    ghost laws = { Prim.search (comparing, rules) };
}

impl<F: Family> PartialOrd for Prefix<F> {
    ghost partial_cmp = { as_partial_cmp prefix_cmp };

    ghost laws = { partial_order_from_own_ties (Prim.search (comparing, rules)) (Prim.search (comparing, rules)) };

    fn partial_cmp(&self, other: &Prefix<F>) -> Option<Ordering> {
        Some(self.cmp(other))
    }
}

impl<F: Family> Ord for Prefix<F> {
    ghost cmp = { prefix_cmp };

    ghost total = { Prim.search (comparing, rules) };

    ghost matches_partial_cmp = { Prim.search (comparing, rules) };

    ghost matches_eq = { Prim.search (comparing, rules) };

    fn cmp(&self, other: &Prefix<F>) -> Ordering {
        self.address
            .bits()
            .compare(other.address.bits())
            .then(self.length.cmp(&other.length))
    }
}

impl<F: Family> Prefix<F> {
    ghost use Rattle.addr4.specs.Prefixes.{AddressPrefix, IsMasked, Covers, Overlaps, Holds, IsBitOf, behind};

    /// Masks the address. There is no prefix exactly above the family's width.
    pub fn new(address: Addr<F>, length: u8) -> Option<Prefix<F>>
        ensures { MatchOption result (F.WIDTH < length) (λ p. (length ≤ F.WIDTH) × (p ≡ record { address = masked_to width address length; length = length })) }
    {
        if length > F::WIDTH {
            return None;
        }
        address.known();
        Some(Prefix {
            address: Addr::from_bits(address.bits().masked(length)),
            length,
        })
    }

    pub fn address(self) -> Addr<F>
        ensures { result ≡ self.address }
    {
        self.address
    }

    pub fn length(self) -> u8
        ensures value { result ≡ self.length }
        ensures valid { IsMasked width self }
        ensures short { self.length ≤ F.WIDTH }
    {
        self.length
    }

    /// The address is masked to the length, which isn't above the family's width, and below two to the 128th.
    pub fn known(self)
        ensures masked { IsMasked width self }
        ensures fits { self.address < 2 ^ width }
        ensures short { self.length ≤ F.WIDTH }
        ensures of { IsPrefixOf F.V6 self }
    {
        let _length = self.length;
        self.address.known();
    }

    /// Whether it is none of those of multicast and of class E, which 224.0.0.0/3 or ff00::/8 covers.
    pub fn is_of_hosts(self) -> bool
        ensures { result ≡ is_host_prefix F.V6 self }
    {
        self.address.bits().is_before_groups()
    }

    /// The last address.
    pub fn last(self) -> Addr<F>
        ensures { result + 2 ^ (width - F.WIDTH) ≡ behind width self }
    {
        let length = self.length;
        self.address.known();
        Addr::from_bits(self.address.bits().last(length))
    }

    /// Whether each address of the other is one of this one.
    pub fn covers(self, other: Prefix<F>) -> bool
        ensures { IsTrue result ↔ Covers width self other }
    {
        self.length <= other.length && self.holds(other.address)
    }

    /// Whether one covers the other.
    pub fn overlaps(self, other: Prefix<F>) -> bool
        ensures { IsTrue result ↔ Overlaps width self other }
    {
        self.covers(other) || other.covers(self)
    }

    /// Whether the address is one of this prefix.
    pub fn holds(self, address: Addr<F>) -> bool
        ensures { IsTrue result ↔ Holds width self address }
    {
        address
            .bits()
            .masked(self.length)
            .compare(self.address.bits())
            .is_eq()
    }

    /// The bit of the address behind so many others.
    pub fn bit(self, i: u8) -> bool
        requires { i < F.WIDTH }
        ensures { IsTrue result ↔ IsBitOf width self i }
    {
        self.address.bits().bit(i)
    }
}
