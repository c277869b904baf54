//! The clusters that a route went through.

ghost use Rattle.std.specs.Prelude.{◌≡◌, []};

use addr4::{Memory, RouterId, Row};
use std::alloc::Global;
use std::marker::Model;

/// The clusters that a route went through, by their identifiers, the latest one first (RFC 4456, section 8).
#[derive(Drop)]
pub struct ClusterList {
    items: Vec<RouterId>,
}

impl Model for ClusterList {
    ghost use Rattle.std.specs.Prelude.{List, ℕ};

    ghost Value = { List ℕ };

    ghost view = { λ c. c.items.items };
}

impl ClusterList {
    /// No cluster; takes no memory.
    pub fn new(alloc: Global) -> ClusterList
        ensures { result ≡ [] }
    {
        ClusterList {
            items: Vec::new(alloc),
        }
    }

    /// Takes no memory.
    pub fn from_vec(items: Vec<RouterId>) -> ClusterList
        ensures { result ≡ items.items }
    {
        ClusterList { items }
    }

    pub fn as_slice(&self) -> &[RouterId]
        ensures { result.now ≡ self.now }
    {
        self.items.as_slice()
    }
}

impl Row for ClusterList {
    fn copy(&self) -> Result<ClusterList, Memory> {
        let items = Vec::from_slice(*self.items.allocator(), self.items.as_slice())?;
        Ok(ClusterList { items })
    }

    fn same(&self, other: &ClusterList) -> bool {
        self.items.as_slice() == other.items.as_slice()
    }
}
