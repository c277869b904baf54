//! The calls that take out of a trie.

ghost use Rattle.std.specs.Prelude.{◌≡◌, ℕ, ◌<◌, Option, Some, None};
ghost use Rattle.std.specs.FinMap as map;
ghost use Rattle.slab.specs.Slab.{ContainsKey};
ghost use Rattle.addr4.specs.Prefixes.{AddressPrefix};
ghost use Rattle.nibble_trie.specs.Links.{leads, IsCell};
ghost use Rattle.nibble_trie.specs.Keys.{prefix_in, longer_in, IsNextOf, IsChained, IsLastBelow};
ghost use Rattle.nibble_trie.specs.Index.{Layout, IsLaid, Indexes, with_head, IsAlone, OnWay, IsSpotOf, spot_at, HasLoneWay};
ghost use Rattle.nibble_trie.specs.View.{rows_of, IsWhole, Joins};

use crate::index::{End, Index, Spot};
use crate::node::Node;
use crate::writing::{set_longer, take};
use crate::{chain, reading};
use addr4::{Addr, Family, Prefix};
use slab::Slab;

// The leaf behind the first one of an address becomes the first.
fn drop_head<V, F: Family>(
    leaves: &Slab<Node<V, Prefix<F>>>,
    index: &mut Index,
    spot: Spot,
    address: Addr<F>,
    first: usize,
)
    requires way { HasLoneWay index.old address spot }
    requires cell { IsCell spot.target }
    requires has { ContainsKey leaves.now first }
    ensures { (heads : ℕ → Option ℕ) (layout : Layout) → IsLaid index.old heads layout → OnWay index.old layout address spot → IsAlone heads layout spot.at address → Indexes index.new (with_head heads address (longer_in leaves.now first)) }
{
    let node = &leaves[first];
    match node.longer.key() {
        None => index.clear(spot, address),
        Some(next) => index.point(spot, address, next),
    }
}

// Takes the first leaf of an address out, and answers its value.
fn take_first<V, F: Family>(
    leaves: &mut Slab<Node<V, Prefix<F>>>,
    index: &mut Index,
    end: End,
    prefix: Prefix<F>,
    first: usize,
) -> V
    requires whole { IsWhole leaves.old index.old }
    requires way { IsSpotOf index.old prefix.address (spot_at end prefix.address) }
    requires cell { IsCell (leads end.link) }
    requires head { IsNextOf (prefix_in leaves.old) prefix.address 0 (Some first) }
    requires found { prefix_in leaves.old first ≡ Some prefix }
    ensures whole { IsWhole leaves.new index.new }
    ensures before { Some result ≡ map.get (rows_of leaves.old) prefix }
    ensures rows { rows_of leaves.new ≡ map.remove (rows_of leaves.old) prefix }
{
    let address = prefix.address();
    drop_head(leaves, index, end.spot(address), address, first);
    take(leaves, first)
}

// Takes a leaf out that stands behind another one, and answers its value.
fn unlink<V, F: Family>(
    leaves: &mut Slab<Node<V, Prefix<F>>>,
    before: usize,
    key: usize,
    prefix: Prefix<F>,
) -> V
    requires chained { IsChained (prefix_in leaves.old) (longer_in leaves.old) }
    requires last { IsLastBelow (prefix_in leaves.old) (longer_in leaves.old) prefix.address prefix.length before }
    requires behind { longer_in leaves.old before ≡ Some key }
    requires found { prefix_in leaves.old key ≡ Some prefix }
    ensures joins { Joins leaves.old leaves.new prefix None }
    ensures before { Some result ≡ map.get (rows_of leaves.old) prefix }
{
    let node = &leaves[key];
    let longer = node.longer;
    set_longer(leaves, before, longer);
    take(leaves, key)
}

// Takes out what stands at a prefix whose address has a shorter one.
fn take_behind<V, F: Family>(
    leaves: &mut Slab<Node<V, Prefix<F>>>,
    first: usize,
    prefix: Prefix<F>,
) -> Option<V>
    requires chained { IsChained (prefix_in leaves.old) (longer_in leaves.old) }
    requires has { ContainsKey leaves.old first }
    requires below { (p : AddressPrefix) → prefix_in leaves.old first ≡ Some p → (p.address ≡ prefix.address) × (p.length < prefix.length) }
    ensures joins { Joins leaves.old leaves.new prefix None }
    ensures before { result ≡ map.get (rows_of leaves.old) prefix }
{
    let place = chain::place_behind(leaves, first, prefix);
    match place.1 {
        Some(key) => Some(unlink(leaves, place.0, key, prefix)),
        None => None,
    }
}

// Takes out what stands at a prefix.
pub(crate) fn remove<V, F: Family>(
    leaves: &mut Slab<Node<V, Prefix<F>>>,
    index: &mut Index,
    prefix: Prefix<F>,
) -> Option<V>
    requires { IsWhole leaves.old index.old }
    ensures whole { IsWhole leaves.new index.new }
    ensures before { result ≡ map.get (rows_of leaves.old) prefix }
    ensures rows { rows_of leaves.new ≡ map.remove (rows_of leaves.old) prefix }
{
    prefix.known();
    let entry = reading::first_leaf(index, leaves, prefix);
    let first = match entry.1 {
        None => return None,
        Some(first) => first,
    };
    let node = &leaves[first];
    let length = node.prefix.length();
    if length < prefix.length() {
        return take_behind(leaves, first, prefix);
    }
    if length == prefix.length() {
        return Some(take_first(leaves, index, entry.0, prefix, first));
    }
    None
}
