//! Identifiers of routers.

ghost use Rattle.std.specs.Prelude.{◌≡◌, ◌^◌, ◌<◌};
ghost use Rattle.std.proofs.Common.{rules};
ghost use Rattle.std.specs.Cmp.{partial_order_from_own_ties};
ghost use Rattle.std.specs.Cmp.Rules.{comparing};
ghost use Rattle.std.specs.Ordering.{as_partial_cmp, nat_cmp};

use std::alloc::AllocError;
use std::cmp::Ordering;
use std::marker::Model;

/// The identifier of a router or of a cluster: four octets, whatever the families of its addresses (RFC 4271, section 4.2; RFC
/// 4456, section 7). Contracts see a number below 2^32.
#[derive(Drop)]
pub struct RouterId {
    number: u32,
}

impl Model for RouterId {
    ghost use Rattle.std.specs.Prelude.{ℕ, ◌<◌, ◌^◌};

    ghost Value = { ℕ };

    ghost view = { λ i. i.number };

    ghost invariant = { λ i. i.number < 2 ^ 32 };

    ghost inverse = { λ n. record { number = n } };
}

impl Clone for RouterId {
    fn clone(&self) -> Result<RouterId, AllocError> {
        Ok(*self)
    }
}

impl Copy for RouterId {}

impl PartialEq for RouterId {
    ghost use Rattle.std.specs.Prelude.{◌==◌};

    ghost eq = { ◌==◌ };

    ghost laws = { Prim.search (comparing, rules) };

    fn eq(&self, other: &RouterId) -> bool {
        self.number == other.number
    }
}

impl Eq for RouterId {
    ghost laws = { Prim.search (comparing, rules) };
}

impl PartialOrd for RouterId {
    ghost partial_cmp = { as_partial_cmp nat_cmp };

    ghost laws = { partial_order_from_own_ties (Prim.search (comparing, rules)) (Prim.search (comparing, rules)) };

    fn partial_cmp(&self, other: &RouterId) -> Option<Ordering> {
        Some(self.cmp(other))
    }
}

impl Ord for RouterId {
    ghost cmp = { nat_cmp };

    ghost total = { Prim.search (comparing, rules) };

    ghost matches_partial_cmp = { Prim.search (comparing, rules) };

    ghost matches_eq = { Prim.search (comparing, rules) };

    fn cmp(&self, other: &RouterId) -> Ordering {
        self.number.cmp(&other.number)
    }
}

impl RouterId {
    pub fn new(number: u32) -> RouterId
        ensures { result ≡ number }
    {
        RouterId { number }
    }

    pub fn number(self) -> u32
        ensures { result ≡ self }
    {
        self.number
    }

    /// Below two to the 32nd.
    pub fn known(self)
        ensures { self < 2 ^ 32 }
    {
        let _number = self.number;
    }
}
