//! Octets in a row.

ghost use Rattle.std.specs.Prelude.{◌≡◌, []};

use addr4::{Memory, Row};
use std::alloc::Global;
use std::marker::Model;

/// Octets in a row.
#[derive(Drop)]
pub struct Octets {
    items: Vec<u8>,
}

impl Model for Octets {
    ghost use Rattle.std.specs.Prelude.{List, ℕ};

    ghost Value = { List ℕ };

    ghost view = { λ o. o.items.items };
}

impl Octets {
    /// No octet; takes no memory.
    pub fn new(alloc: Global) -> Octets
        ensures { result ≡ [] }
    {
        Octets {
            items: Vec::new(alloc),
        }
    }

    /// Takes no memory.
    pub fn from_vec(items: Vec<u8>) -> Octets
        ensures { result ≡ items.items }
    {
        Octets { items }
    }

    pub fn as_slice(&self) -> &[u8]
        ensures { result.now ≡ self.now }
    {
        self.items.as_slice()
    }
}

impl Row for Octets {
    fn copy(&self) -> Result<Octets, Memory> {
        let items = Vec::from_slice(*self.items.allocator(), self.items.as_slice())?;
        Ok(Octets { items })
    }

    fn same(&self, other: &Octets) -> bool {
        self.items.as_slice() == other.items.as_slice()
    }
}
