//! Leaves of a trie.

ghost use Rattle.std.specs.Prelude.{◌≡◌};
ghost use Rattle.std.specs.Borrow.{Lends, sem};

use crate::link::Link;
use addr4::Prefix;
use std::mem::size_of;

/// A leaf of a trie: a key, its value, and the leaf of the next longer key of the same address.
#[derive(Drop)]
pub struct Node<V, P = Prefix> {
    /// The key.
    pub prefix: P,
    pub(crate) longer: Link,
    pub(crate) value: V,
}

// 8 octets of prefix and 8 of link: 16 beside a value of whole words.
const _: () = prove!(size_of::<Node<u64>>() == 16 + size_of::<u64>());

impl<V, P> Node<V, P> {
    ghost use Rattle.nibble_trie.specs.contracts.node.Node.{the_row};

    // Lends the value.
    pub(crate) fn value_mut(&mut self) -> &mut V
        ensures* lends { sem 𝓛 (Lends (the_row V.row P.row) V.row self.entry result (λ v. record self.entry.now { value = v })) }
        ensures value { self.old.value ≡ result.now }
    {
        &mut self.value
    }
}
