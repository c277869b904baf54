//! Iterators of a table, and the places where they stand.

ghost use Rattle.std.specs.Prelude.{◌≡◌, Some, true};
ghost use Rattle.slab.specs.Slab.{get};
ghost use Rattle.safe_table.specs.Fields.{stands_at, standing};

use addr4::{Family, Place, Prefix};
use slab::Slab;
use std::marker::Model;

/// An iterator over a table, which keeps its place. Contracts see the number that the table knows it by.
///
/// An iterator that is dropped and not ended keeps its place, and what was removed under it, as long as the table lives.
#[derive(Drop)]
pub struct Iter {
    pub(crate) id: usize,
    // Where the leaf of its place may lie in the trie. A wrong key costs a descent, and changes no step.
    pub(crate) leaf: usize,
}

impl Model for Iter {
    ghost use Rattle.std.specs.Prelude.{ℕ};

    ghost Value = { ℕ };

    ghost view = { λ it. it.id };
}

// Whether a place is at a prefix.
fn is_at<F: Family>(place: Place<Prefix<F>>, prefix: Prefix<F>) -> bool
    ensures { result ≡ stands_at prefix (Some place) }
{
    let other = match place {
        Place::Before => return false,
        Place::At(other) => other,
    };
    if other.length() != prefix.length() {
        return false;
    }
    if other.address() != prefix.address() {
        return false;
    }
    true
}

// Whether the iterator of a number stands at a prefix.
fn stands<F: Family>(places: &Slab<Place<Prefix<F>>>, id: usize, prefix: Prefix<F>) -> bool
    ensures { result ≡ stands_at prefix (get places.now id) }
{
    match places.get(id) {
        None => false,
        Some(place) => is_at(*place, prefix),
    }
}

// Whether it is clear at a glance that no iterator stands at a prefix. Where there may be more than four, only if there is
// none at all.
pub(crate) fn nobody_at<F: Family>(places: &Slab<Place<Prefix<F>>>, prefix: Prefix<F>) -> bool
    ensures { result ≡ true → standing prefix places.now.slots ≡ 0 }
{
    if places.is_empty() {
        return true;
    }
    if places.capacity() > 4 {
        return false;
    }
    for id in 0..4usize {
        if stands(places, id, prefix) {
            return false;
        }
    }
    true
}
