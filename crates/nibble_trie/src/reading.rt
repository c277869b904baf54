//! The descents to a key, and to the next one in order.

ghost use Rattle.std.specs.Prelude.{◌≡◌, ◌↔◌, ℕ, IsTrue, Option, Some, IfOk, OnErr, IfErr};
ghost use Rattle.addr4.specs.Places.{key_of};
ghost use Rattle.nibble_trie.specs.declared.link.Target.TheVariants.{Inner};
ghost use Rattle.nibble_trie.specs.Links.{leads, IsCell};
ghost use Rattle.nibble_trie.specs.Keys.{prefix_in, longer_in, IsNextOf, IsChained, IsLeafOf, IsFirstOf, IsFrom, IsNextLeaf};
ghost use Rattle.nibble_trie.specs.Index.{Layout, IsSpotOf, spot_at};
ghost use Rattle.nibble_trie.specs.Next.{FromAt, Starts, CanStart};
ghost use Rattle.nibble_trie.specs.View.{IsWhole, IsGapOf};

use crate::branch::digit_of;
use crate::chain;
use crate::index::{End, Index};
use crate::link::{Link, Target};
use crate::node::Node;
use addr4::{Addr, Family, Place, Prefix};
use slab::Slab;
use std::cell::Cell;

/// Where a new leaf is put: behind another one of its address, or before the first one, where the way of the address ends.
#[derive(Clone, Copy)]
pub(crate) enum Gap {
    Behind(usize),
    First(End, Option<usize>),
}

// Where the way of a prefix's address ends in the index, and the first leaf of that address.
pub(crate) fn first_leaf<V, F: Family>(
    index: &Index,
    leaves: &Slab<Node<V, Prefix<F>>>,
    prefix: Prefix<F>,
) -> (End, Option<usize>)
    requires { IsWhole leaves.now index.now }
    ensures way { IsSpotOf index.now prefix.address (spot_at result.0 prefix.address) }
    ensures cell { IsCell (leads result.0.link) }
    ensures head { IsNextOf (prefix_in leaves.now) prefix.address 0 result.1 }
{
    let address = prefix.address();
    let end = index.end_of(address);
    let head = index.head(leaves, end, address);
    (end, head)
}

// The leaf of a prefix, or else where a new one is put.
pub(crate) fn search<V, F: Family>(
    index: &Index,
    leaves: &Slab<Node<V, Prefix<F>>>,
    prefix: Prefix<F>,
) -> Result<usize, Gap>
    requires { IsWhole leaves.now index.now }
    ensures found { IfOk result (λ key. prefix_in leaves.now key ≡ Some prefix) }
    ensures absent { OnErr result ((k : ℕ) → prefix_in leaves.now k ≡ Some prefix → ⊥) }
    ensures gap { IfErr result (IsGapOf leaves.now index.now prefix) }
{
    let entry = first_leaf(index, leaves, prefix);
    let first = match entry.1 {
        None => return Err(Gap::First(entry.0, None)),
        Some(first) => first,
    };
    let node = &leaves[first];
    let length = node.prefix.length();
    if length < prefix.length() {
        let place = chain::place_behind(leaves, first, prefix);
        return match place.1 {
            None => Err(Gap::Behind(place.0)),
            Some(key) => Ok(key),
        };
    }
    if length == prefix.length() {
        return Ok(first);
    }
    Err(Gap::First(entry.0, Some(first)))
}

// The leaf of a prefix.
pub(crate) fn find<V, F: Family>(
    index: &Index,
    leaves: &Slab<Node<V, Prefix<F>>>,
    prefix: Prefix<F>,
) -> Option<usize>
    requires { IsWhole leaves.now index.now }
    ensures { IsLeafOf (prefix_in leaves.now) prefix result }
{
    let entry = first_leaf(index, leaves, prefix);
    chain::find(leaves, entry.1, prefix.length())
}

// Whether the leaf of a prefix lies at a key.
fn is_at<V, F: Family>(leaves: &Slab<Node<V, Prefix<F>>>, key: usize, prefix: Prefix<F>) -> bool
    ensures { IsTrue result ↔ (prefix_in leaves.now key ≡ Some prefix) }
{
    let node = match leaves.get(key) {
        None => return false,
        Some(node) => node,
    };
    if node.prefix.length() != prefix.length() {
        return false;
    }
    if node.prefix.address() != prefix.address() {
        return false;
    }
    true
}

// The leaf of a prefix, which may lie at a key.
pub(crate) fn find_near<V, F: Family>(
    index: &Index,
    leaves: &Slab<Node<V, Prefix<F>>>,
    near: usize,
    prefix: Prefix<F>,
) -> Option<usize>
    requires { IsWhole leaves.now index.now }
    ensures { IsLeafOf (prefix_in leaves.now) prefix result }
{
    if is_at(leaves, near, prefix) {
        return Some(near);
    }
    find(index, leaves, prefix)
}

// The leaf of a prefix, which may be the one that was found last; it is found last from now on.
pub(crate) fn find_last<V, F: Family>(
    index: &Index,
    leaves: &Slab<Node<V, Prefix<F>>>,
    last: &Cell<usize>,
    prefix: Prefix<F>,
) -> Option<usize>
    requires { IsWhole leaves.now index.now }
    ensures { IsLeafOf (prefix_in leaves.now) prefix result }
{
    let found = find_near(index, leaves, last.get(), prefix);
    if let Some(key) = found {
        last.set(key);
    }
    found
}

// The leaf of the first key from an address and a length on, among the addresses of a link.
#[cycle(next)]
fn first_at<V, F: Family>(
    index: &Index,
    leaves: &Slab<Node<V, Prefix<F>>>,
    link: Link,
    level: u32,
    from: Addr<F>,
    least: u8,
) -> Option<usize>
    requires chained { IsChained (prefix_in leaves.now) (longer_in leaves.now) }
    requires start { CanStart (prefix_in leaves.now) index.now (leads link) level from least }
    ensures { (heads : ℕ → Option ℕ) (layout : Layout) (at : Option (ℕ × ℕ)) → Starts (prefix_in leaves.now) index.now heads layout at (leads link) level from least → IsFirstOf (prefix_in leaves.now) (FromAt layout at from least) result }
{
    match link.target() {
        Target::Nothing => None,
        Target::Leaf(key) => chain::first_from(leaves, key, from, least),
        Target::Inner(branch) => first_in(index, leaves, branch, level, from, least),
    }
}

// The same among the addresses of a link that leads to a branch: of the first digit from there on, of the others the first
// of all. Links that lead to nothing are passed by without a call.
#[cycle(next)]
fn first_in<V, F: Family>(
    index: &Index,
    leaves: &Slab<Node<V, Prefix<F>>>,
    branch: usize,
    level: u32,
    mut from: Addr<F>,
    mut least: u8,
) -> Option<usize>
    requires chained { IsChained (prefix_in leaves.now) (longer_in leaves.now) }
    requires start { CanStart (prefix_in leaves.now) index.now (Inner branch) level from least }
    ensures { (heads : ℕ → Option ℕ) (layout : Layout) (at : Option (ℕ × ℕ)) → Starts (prefix_in leaves.now) index.now heads layout at (Inner branch) level from least → IsFirstOf (prefix_in leaves.now) (FromAt layout at from least) result }
{
    let below = level - 1;
    let links = &index.branches[branch];
    'digits: for digit in digit_of(from, below)..16 {
        let link = links.link(digit);
        if link.number() != 0 {
            let found = first_at(index, leaves, link, below, from, least);
            if found.is_some() {
                return found;
            }
        }
        from = Addr::unspecified();
        least = 0;
    }
    None
}

// The leaf of the first key from an address and a length on.
fn first_from<V, F: Family>(
    index: &Index,
    leaves: &Slab<Node<V, Prefix<F>>>,
    from: Addr<F>,
    least: u8,
) -> Option<usize>
    requires { IsWhole leaves.now index.now }
    ensures { IsFirstOf (prefix_in leaves.now) (IsFrom from least) result }
{
    from.known();
    first_at(index, leaves, index.root, 32, from, least)
}

// The leaf of the first key beyond a prefix, whose own leaf may lie at a key.
fn next_behind<V, F: Family>(
    index: &Index,
    leaves: &Slab<Node<V, Prefix<F>>>,
    near: usize,
    prefix: Prefix<F>,
) -> Option<usize>
    requires { IsWhole leaves.now index.now }
    ensures { IsNextLeaf (prefix_in leaves.now) (Some prefix) result }
{
    if is_at(leaves, near, prefix) {
        let node = &leaves[near];
        let longer = node.longer.key();
        if longer.is_some() {
            return longer;
        }
    }
    first_from(index, leaves, prefix.address(), prefix.length() + 1)
}

// The leaf of the first key beyond a place, at which a leaf may lie at a key.
pub(crate) fn next_leaf<V, F: Family>(
    index: &Index,
    leaves: &Slab<Node<V, Prefix<F>>>,
    near: usize,
    after: Place<Prefix<F>>,
) -> Option<usize>
    requires { IsWhole leaves.now index.now }
    ensures { IsNextLeaf (prefix_in leaves.now) (key_of after) result }
{
    match after {
        Place::Before => first_from(index, leaves, Addr::unspecified(), 0),
        Place::At(prefix) => next_behind(index, leaves, near, prefix),
    }
}
