//! Keys of a queue's entries: by prefix and then number.

ghost use Rattle.std.specs.Prelude.{◌≡◌, ◌<◌, ◌^◌, ℕ, OnOk, OnErr, true};
ghost use Rattle.std.specs.List.{find};
ghost use Rattle.std.specs.BTreeSet.{Updates, contains, IsOrdered};
ghost use Rattle.addr4.specs.Places.{key_of};
ghost use Rattle.addr4.specs.Prefixes.{AddressPrefix};
ghost use Rattle.fanout_queue.specs.Index.{key_cmp, IsFirstKey, IsFirstNumber, IsFirstStop, is_beyond, is_reached, lesser, stops, behind, keys_from};

use addr4::{Family, Memory, Place, Prefix};
use std::collections::BTreeSet;
use std::ops::Bound;

/// Puts the key of an entry. For want of memory nothing changes.
pub(crate) fn put_key<F: Family>(
    index: &mut BTreeSet<(Prefix<F>, u64)>,
    prefix: Prefix<F>,
    number: u64,
) -> Result<(), Memory>
    ensures ok { OnOk result (Updates key_cmp index.old index.new (prefix, number) true) }
    ensures memory { OnErr result (index.new.keys ≡ index.old.keys) }
{
    index.insert((prefix, number))?;
    Ok(())
}

// The first key at or beyond this one.
fn first_from<F: Family>(
    index: &BTreeSet<(Prefix<F>, u64)>,
    prefix: Prefix<F>,
    number: u64,
) -> Option<(Prefix<F>, u64)>
    ensures { IsFirstKey index.now (prefix, number) result }
{
    match index.range((prefix, number)..).next() {
        None => None,
        Some(key) => Some((key.0, key.1)),
    }
}

/// The least number from this one on that the index has at a prefix.
pub(crate) fn first_number<F: Family>(
    index: &BTreeSet<(Prefix<F>, u64)>,
    prefix: Prefix<F>,
    from: u64,
) -> Option<u64>
    ensures { IsFirstNumber index.now prefix from result }
{
    match first_from(index, prefix, from) {
        None => None,
        Some(key) => { if key.0 == prefix { Some(key.1) } else { None } }
    }
}

/// Whether the prefix isn't before the other one.
pub(crate) fn is_reached<F: Family>(other: &Option<Prefix<F>>, prefix: Prefix<F>) -> bool
    ensures { result ≡ is_reached other.now prefix }
{
    match other {
        None => false,
        Some(other) => *other <= prefix,
    }
}

/// The lesser of another prefix and of this one, if this lies beyond a place.
pub(crate) fn lesser<F: Family>(
    after: &Place<Prefix<F>>,
    prefix: Prefix<F>,
    other: Option<Prefix<F>>,
) -> Option<Prefix<F>>
    ensures { result ≡ lesser (key_of after.now) prefix other }
{
    if is_beyond(after, prefix) && !is_reached(&other, prefix) {
        Some(prefix)
    } else {
        other
    }
}

// Whether a prefix lies beyond a place.
fn is_beyond<F: Family>(after: &Place<Prefix<F>>, prefix: Prefix<F>) -> bool
    ensures { result ≡ is_beyond (key_of after.now) prefix }
{
    match after {
        Place::Before => true,
        Place::At(place) => *place < prefix,
    }
}

// The keys of the prefixes beyond a place begin behind this.
fn behind<F: Family>(after: &Place<Prefix<F>>) -> Bound<(Prefix<F>, u64)>
    ensures { result ≡ behind (key_of after.now) }
{
    match after {
        Place::Before => Bound::Unbounded,
        Place::At(prefix) => Bound::Excluded((*prefix, u64::MAX)),
    }
}

// The first key from a bound on at which the search stops.
fn find_stop<F: Family>(
    index: &BTreeSet<(Prefix<F>, u64)>,
    from: Bound<(Prefix<F>, u64)>,
    place: u64,
    other: &Option<Prefix<F>>,
) -> Option<(Prefix<F>, u64)>
    ensures found { result ≡ find (stops place other.now) (keys_from from index.now) }
    ensures ordered { IsOrdered key_cmp index.now }
{
    index
        .range((from, Bound::Unbounded))
        .find(|key| place <= key.1 || is_reached(other, key.0))
        .copied()
}

/// The first key beyond a place whose number is from this one on, or whose prefix isn't before the other one.
pub(crate) fn first_stop<F: Family>(
    index: &BTreeSet<(Prefix<F>, u64)>,
    place: u64,
    after: &Place<Prefix<F>>,
    other: &Option<Prefix<F>>,
) -> Option<(Prefix<F>, u64)>
    requires { (p : AddressPrefix) (n : ℕ) → contains key_cmp index.now (p, n) ≡ true → n < 2 ^ 64 }
    ensures { IsFirstStop index.now (stops place other.now) (key_of after.now) result }
{
    find_stop(index, behind(after), place, other)
}
