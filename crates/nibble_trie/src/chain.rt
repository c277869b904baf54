//! The leaves of one address, by length.

ghost use Rattle.std.specs.Prelude.{◌≡◌, ◌≤◌, ◌<◌, ℕ, Some};
ghost use Rattle.addr4.specs.Prefixes.{AddressPrefix};
ghost use Rattle.slab.specs.Slab.{ContainsKey};
ghost use Rattle.nibble_trie.specs.Keys.{prefix_in, longer_in, IsNextOf, IsChained, HasNext, IsLastBelow, IsLeafOf, IsFirstOf, IsOfAddressFrom};

use crate::node::Node;
use addr4::{Addr, Family, Prefix};
use slab::Slab;

// The first leaf of an address from a length on, under a link to the first from a lesser one.
pub(crate) fn seek<V, F: Family>(
    leaves: &Slab<Node<V, Prefix<F>>>,
    link: Option<usize>,
    length: u8,
) -> Option<usize>
    requires chained { IsChained (prefix_in leaves.now) (longer_in leaves.now) }
    requires next { HasNext (prefix_in leaves.now) link length }
    ensures { (a from : ℕ) → from ≤ length → IsNextOf (prefix_in leaves.now) a from link → IsNextOf (prefix_in leaves.now) a length result }
{
    let key = match link {
        None => return None,
        Some(key) => key,
    };
    let node = &leaves[key];
    if length <= node.prefix.length() {
        return Some(key);
    }
    seek(leaves, node.longer.key(), length)
}

// The first leaf of an address from another address and a length on, under the key of the address's first.
pub(crate) fn first_from<V, F: Family>(
    leaves: &Slab<Node<V, Prefix<F>>>,
    key: usize,
    from: Addr<F>,
    least: u8,
) -> Option<usize>
    requires chained { IsChained (prefix_in leaves.now) (longer_in leaves.now) }
    requires next { HasNext (prefix_in leaves.now) (Some key) 0 }
    ensures { (a : ℕ) → IsNextOf (prefix_in leaves.now) a 0 (Some key) → IsFirstOf (prefix_in leaves.now) (IsOfAddressFrom a from least) result }
{
    let node = &leaves[key];
    let address = node.prefix.address();
    if address < from {
        return None;
    }
    if address == from {
        return seek(leaves, Some(key), least);
    }
    Some(key)
}

// The leaf of an address and a length, if that is what a link to the first from the length on leads to.
pub(crate) fn exact<V, F: Family>(
    leaves: &Slab<Node<V, Prefix<F>>>,
    link: Option<usize>,
    length: u8,
) -> Option<usize>
    requires { HasNext (prefix_in leaves.now) link length }
    ensures { (a : ℕ) → IsNextOf (prefix_in leaves.now) a length link → IsLeafOf (prefix_in leaves.now) (record { address = a; length = length }) result }
{
    let key = match link {
        None => return None,
        Some(key) => key,
    };
    let node = &leaves[key];
    if node.prefix.length() == length {
        Some(key)
    } else {
        None
    }
}

// The leaf of an address and a length, under the link to the address's first. Most addresses have that one alone, so it is looked at
// before any search.
pub(crate) fn find<V, F: Family>(
    leaves: &Slab<Node<V, Prefix<F>>>,
    link: Option<usize>,
    length: u8,
) -> Option<usize>
    requires chained { IsChained (prefix_in leaves.now) (longer_in leaves.now) }
    requires next { HasNext (prefix_in leaves.now) link 0 }
    ensures { (a : ℕ) → IsNextOf (prefix_in leaves.now) a 0 link → IsLeafOf (prefix_in leaves.now) (record { address = a; length = length }) result }
{
    let first = match link {
        None => return None,
        Some(first) => first,
    };
    let node = &leaves[first];
    if node.prefix.length() == length {
        return Some(first);
    }
    exact(leaves, seek(leaves, link, length), length)
}

// The last leaf of an address below a length: the first one given is below it.
pub(crate) fn last_below<V, F: Family>(
    leaves: &Slab<Node<V, Prefix<F>>>,
    key: usize,
    length: u8,
) -> usize
    requires chained { IsChained (prefix_in leaves.now) (longer_in leaves.now) }
    requires has { ContainsKey leaves.now key }
    requires below { (p : AddressPrefix) → prefix_in leaves.now key ≡ Some p → p.length < length }
    ensures { (p : AddressPrefix) → prefix_in leaves.now key ≡ Some p → IsLastBelow (prefix_in leaves.now) (longer_in leaves.now) p.address length result }
{
    let node = &leaves[key];
    let next = match node.longer.key() {
        None => return key,
        Some(next) => next,
    };
    let behind = &leaves[next];
    if length <= behind.prefix.length() {
        return key;
    }
    last_below(leaves, next, length)
}

// Where a prefix stands among the leaves of its address, of which the first one is shorter: the last one below it, and its
// own.
pub(crate) fn place_behind<V, F: Family>(
    leaves: &Slab<Node<V, Prefix<F>>>,
    first: usize,
    prefix: Prefix<F>,
) -> (usize, Option<usize>)
    requires chained { IsChained (prefix_in leaves.now) (longer_in leaves.now) }
    requires has { ContainsKey leaves.now first }
    requires below { (p : AddressPrefix) → prefix_in leaves.now first ≡ Some p → (p.address ≡ prefix.address) × (p.length < prefix.length) }
    ensures last { IsLastBelow (prefix_in leaves.now) (longer_in leaves.now) prefix.address prefix.length result.0 }
    ensures leaf { IsLeafOf (prefix_in leaves.now) prefix result.1 }
{
    let before = last_below(leaves, first, prefix.length());
    let node = &leaves[before];
    let leaf = exact(leaves, node.longer.key(), prefix.length());
    (before, leaf)
}
