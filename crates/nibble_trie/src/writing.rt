//! The calls that change a trie.

ghost use Rattle.std.specs.Prelude.{◌≡◌, ℕ, ◌<◌, ◌≤◌, ◌^◌, Some, None, true};
ghost use Rattle.std.specs.FinMap as map;
ghost use Rattle.slab.specs.Slab.{get, ContainsKey, Updates, HasRoomFor};
ghost use Rattle.nibble_trie.specs.Leaves.{Node as Noded};
ghost use Rattle.nibble_trie.specs.Links.{leads, IsCell};
ghost use Rattle.nibble_trie.specs.Keys.{prefix_in, longer_in, IsChained, IsLastBelow, IsHeadOf};
ghost use Rattle.nibble_trie.specs.Index.{IsSpotOf, spot_at};
ghost use Rattle.nibble_trie.specs.View.{rows_of, IsWhole, Joins, IsGapOf};

use crate::branch::Branch;
use crate::index::{End, Index};
use crate::link::Link;
use crate::node::Node;
use crate::reading;
use crate::reading::Gap;
use addr4::{Family, Prefix};
use slab::Slab;
use std::mem;

// Room for one leaf more, and for the branches above it; the keys of both fit a link.
pub(crate) fn make_room<V, F: Family>(
    leaves: &mut Slab<Node<V, Prefix<F>>>,
    branches: &mut Slab<Branch>,
) -> bool
    ensures leaves { leaves.new ≡ record leaves.old { capacity = leaves.new.capacity } }
    ensures branches { branches.new ≡ record branches.old { capacity = branches.new.capacity } }
    ensures room { result ≡ true → HasRoomFor leaves.new 1 }
    ensures small { result ≡ true → leaves.new.capacity < 2 ^ 31 }
    ensures branch_room { result ≡ true → HasRoomFor branches.new 32 }
    ensures branch_small { result ≡ true → branches.new.capacity ≤ 2 ^ 31 }
{
    if leaves.reserve(1).is_err() {
        return false;
    }
    if branches.reserve(32).is_err() {
        return false;
    }
    leaves.capacity() < 2147483648 && branches.capacity() <= 2147483648
}

// Puts another value in the place of one.
fn replace<V, F: Family>(leaves: &mut Slab<Node<V, Prefix<F>>>, key: usize, value: V) -> V
    requires { ContainsKey leaves.old key }
    ensures before { (n : Noded V) → get leaves.old key ≡ Some n → result ≡ n.value }
    ensures updates { (n : Noded V) → get leaves.old key ≡ Some n → Updates leaves.old leaves.new key (Some (record n { value = value })) }
{
    mem::replace(&mut leaves[key].value, value)
}

/// Makes a leaf the one behind another.
pub(crate) fn set_longer<V, F: Family>(
    leaves: &mut Slab<Node<V, Prefix<F>>>,
    key: usize,
    link: Link,
)
    requires { ContainsKey leaves.old key }
    ensures { (n : Noded V) → get leaves.old key ≡ Some n → Updates leaves.old leaves.new key (Some (record n { longer = link })) }
{
    leaves[key].longer = link;
}

/// Takes a leaf out, and answers its value.
pub(crate) fn take<V, F: Family>(leaves: &mut Slab<Node<V, Prefix<F>>>, key: usize) -> V
    requires { ContainsKey leaves.old key }
    ensures before { (n : Noded V) → get leaves.old key ≡ Some n → result ≡ n.value }
    ensures updates { Updates leaves.old leaves.new key None }
{
    let Node {
        prefix: _,
        longer: _,
        value,
    } = leaves.remove(key);
    value
}

// A new leaf before the first of its address, if there is one.
fn add_first<V, F: Family>(
    leaves: &mut Slab<Node<V, Prefix<F>>>,
    index: &mut Index,
    end: End,
    head: Option<usize>,
    prefix: Prefix<F>,
    value: V,
)
    requires whole { IsWhole leaves.old index.old }
    requires room { HasRoomFor leaves.old 1 }
    requires small { leaves.old.capacity < 2 ^ 31 }
    requires branch_room { HasRoomFor index.old.branches end.level }
    requires branch_small { index.old.branches.capacity ≤ 2 ^ 31 }
    requires way { IsSpotOf index.old prefix.address (spot_at end prefix.address) }
    requires cell { IsCell (leads end.link) }
    requires head { IsHeadOf (prefix_in leaves.old) prefix head }
    requires absent { (k : ℕ) → prefix_in leaves.old k ≡ Some prefix → ⊥ }
    ensures whole { IsWhole leaves.new index.new }
    ensures rows { rows_of leaves.new ≡ map.insert (rows_of leaves.old) prefix value }
{
    prefix.known();
    let _capacity = leaves.capacity();
    let key = leaves.insert_reserved(Node {
        prefix,
        longer: Link::to(head),
        value,
    });
    let address = prefix.address();
    index.put(leaves, end.spot(address), address, key);
}

// A new leaf behind the last one below it.
fn add_behind<V, F: Family>(
    leaves: &mut Slab<Node<V, Prefix<F>>>,
    before: usize,
    prefix: Prefix<F>,
    value: V,
)
    requires room { HasRoomFor leaves.old 1 }
    requires small { leaves.old.capacity < 2 ^ 31 }
    requires chained { IsChained (prefix_in leaves.old) (longer_in leaves.old) }
    requires last { IsLastBelow (prefix_in leaves.old) (longer_in leaves.old) prefix.address prefix.length before }
    requires absent { (k : ℕ) → prefix_in leaves.old k ≡ Some prefix → ⊥ }
    ensures { Joins leaves.old leaves.new prefix (Some value) }
{
    let node = &leaves[before];
    let longer = node.longer;
    let key = leaves.insert_reserved(Node {
        prefix,
        longer,
        value,
    });
    set_longer(leaves, before, Link::leaf(key));
}

// A new leaf in its gap.
pub(crate) fn add<V, F: Family>(
    leaves: &mut Slab<Node<V, Prefix<F>>>,
    index: &mut Index,
    gap: Gap,
    prefix: Prefix<F>,
    value: V,
)
    requires whole { IsWhole leaves.old index.old }
    requires room { HasRoomFor leaves.old 1 }
    requires small { leaves.old.capacity < 2 ^ 31 }
    requires branch_room { HasRoomFor index.old.branches 32 }
    requires branch_small { index.old.branches.capacity ≤ 2 ^ 31 }
    requires absent { (k : ℕ) → prefix_in leaves.old k ≡ Some prefix → ⊥ }
    requires gap { IsGapOf leaves.old index.old prefix gap }
    ensures whole { IsWhole leaves.new index.new }
    ensures rows { rows_of leaves.new ≡ map.insert (rows_of leaves.old) prefix value }
{
    prefix.known();
    match gap {
        Gap::Behind(before) => add_behind(leaves, before, prefix, value),
        Gap::First(end, head) => add_first(leaves, index, end, head, prefix, value),
    }
}

// Puts a value at a prefix, and answers the one that stood there.
pub(crate) fn put<V, F: Family>(
    leaves: &mut Slab<Node<V, Prefix<F>>>,
    index: &mut Index,
    prefix: Prefix<F>,
    value: V,
) -> Option<V>
    requires whole { IsWhole leaves.old index.old }
    requires room { HasRoomFor leaves.old 1 }
    requires small { leaves.old.capacity < 2 ^ 31 }
    requires branch_room { HasRoomFor index.old.branches 32 }
    requires branch_small { index.old.branches.capacity ≤ 2 ^ 31 }
    ensures whole { IsWhole leaves.new index.new }
    ensures before { result ≡ map.get (rows_of leaves.old) prefix }
    ensures rows { rows_of leaves.new ≡ map.insert (rows_of leaves.old) prefix value }
{
    match reading::search(index, leaves, prefix) {
        Ok(key) => Some(replace(leaves, key, value)),
        Err(gap) => {
            add(leaves, index, gap, prefix, value);
            None
        }
    }
}
