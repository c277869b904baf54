//! How many octets are written, without writing them.

ghost use Rattle.std.specs.Prelude.{◌≡◌, ◌+◌, ◌*◌, ◌<◌, ◌≤◌, ◌^◌, length, map, nat_le, Bool, ℕ, if◌then◌else◌, [], ◌∷◌};
ghost use Rattle.byteorder.specs.Endian.{big_bytes};
ghost use Rattle.bgp_attr.specs.Attributes.{Attrs as Route};
ghost use Rattle.bgp_wire.specs.Paths.{width_of};
ghost use Rattle.bgp_wire.specs.Lengths.{spelled_length, attributes_length, announcement_length};
ghost use Rattle.bgp_wire.specs.Spelling.{segment_octets, path_octets, prefix_octets, listed, prefixes_octets, spelled, optional, aggregator_value, aggregator_flags, unrecognized_attribute, hop_attributes, own_octets, reach_attributes, unreach_octets, mandatory_attributes, further_attributes, clusters_attributes, reflection_attributes, octets_of};

use crate::header::LONGEST;
use crate::numbers::width;
use crate::prefixes::octets_for;
use addr4::{Family, Prefix, RouterId};
use bgp_attr::{
    Aggregator, LentAttrs, LentPath, LentReflection, LentSegment, Profile, Unrecognized,
};

/// The octets of an attribute whose value has so many.
pub(crate) fn spelled_length(size: u128) -> u128
    requires { size ≤ 2 ^ 127 }
    ensures { result ≡ spelled_length size }
{
    if size > 255 { size + 4 } else { size + 3 }
}

fn segment_length(as4: bool, segment: &LentSegment<'_>) -> u128
    ensures value { result ≡ length (segment_octets (width_of as4) segment.now) }
    ensures small { result < 2 ^ 64 }
{
    let numbers = segment.numbers.as_slice();
    2 + (u128::from(segment.times) + numbers.len() as u128) * width(as4) as u128
}

/// The octets of the segments of a path.
pub(crate) fn path_length(as4: bool, path: &LentPath<'_>) -> u128
    ensures value { result ≡ length (path_octets (width_of as4) path.now) }
    ensures small { result ≤ 2 ^ 127 }
{
    let mut total: u128 = 0;
    let mut rest = path.lent();
    'segments: while let Some((segment, others)) = rest.split_first() {
        total += segment_length(as4, &segment);
        rest = others;
    }
    total
}

fn number_length(number: Option<u32>) -> u128
    ensures value { (flags kind : ℕ) → result ≡ length (octets_of (optional (λ n. spelled flags kind (big_bytes 4 n)) number)) }
    ensures small { result ≤ 7 }
{
    if number.is_some() { 7 } else { 0 }
}

fn atomic_length(atomic: bool) -> u128
    ensures value { result ≡ length (octets_of (if atomic then spelled 64 6 [] ∷ [] else [])) }
    ensures small { result ≤ 3 }
{
    if atomic { 3 } else { 0 }
}

fn aggregator_length(as4: bool, aggregator: Option<Aggregator>) -> u128
    ensures value { result ≡ length (octets_of (optional (λ g. spelled (aggregator_flags g.partial) 7 (aggregator_value as4 g)) aggregator)) }
    ensures small { result ≤ 11 }
{
    if aggregator.is_some() {
        7 + width(as4) as u128
    } else {
        0
    }
}

fn originator_length(originator: Option<RouterId>) -> u128
    ensures value { result ≡ length (octets_of (optional (λ n. spelled 128 9 (big_bytes 4 n)) originator)) }
    ensures small { result ≤ 7 }
{
    if originator.is_some() { 7 } else { 0 }
}

/// The octets of the clusters, the one in front among them.
pub(crate) fn clusters_size(reflection: &LentReflection<'_>) -> u128
    ensures value { result ≡ 4 * length reflection.now.clusters }
    ensures small { result < 2 ^ 69 }
{
    let size = 4 * reflection.others.len() as u128;
    if reflection.front.is_some() {
        4 + size
    } else {
        size
    }
}

fn clusters_length(reflection: &LentReflection<'_>) -> u128
    ensures value { result ≡ length (octets_of (clusters_attributes reflection.now.clusters)) }
    ensures small { result < 2 ^ 70 }
{
    match clusters_size(reflection) {
        0 => 0,
        size => spelled_length(size),
    }
}

/// The octets of ORIGINATOR_ID and CLUSTER_LIST, of those that are there.
fn reflection_length(reflection: &LentReflection<'_>) -> u128
    ensures value { result ≡ length (octets_of (reflection_attributes reflection.now)) }
    ensures small { result < 2 ^ 71 }
{
    originator_length(reflection.originator) + clusters_length(reflection)
}

/// The octets of the unrecognized attributes, wherever they stand.
fn unrecognized_length(items: &[Unrecognized]) -> u128
    ensures value { result ≡ length (octets_of (map unrecognized_attribute items.now)) }
    ensures small { result < 2 ^ 126 + 2 ^ 66 }
{
    let mut total: u128 = 0;
    for item in items {
        total += spelled_length(item.value.as_slice().len() as u128);
    }
    total
}

/// The octets of NEXT_HOP, or of MP_REACH_NLRI without its prefixes.
fn hop_length<F: Family>() -> u128
    ensures value { (hop : ℕ) → result ≡ length (octets_of (hop_attributes F.V6 hop)) + length (octets_of (reach_attributes F.V6 hop [])) }
    ensures small { result ≤ 24 }
{
    if F::V6 { 24 } else { 7 }
}

/// The octets of ORIGIN, AS_PATH and what has the next hop.
fn mandatory_length<F: Family>(as4: bool, attrs: &LentAttrs<'_, F>) -> u128
    ensures value { result ≡ length (octets_of (mandatory_attributes F.V6 as4 attrs.now)) + length (octets_of (reach_attributes F.V6 attrs.now.next_hop [])) }
    ensures small { result < 2 ^ 127 + 2 ^ 10 }
{
    4 + spelled_length(path_length(as4, &attrs.path)) + hop_length::<F>()
}

/// The octets of MULTI_EXIT_DISC, LOCAL_PREF, ATOMIC_AGGREGATE and AGGREGATOR, of those that are there.
fn further_length<F: Family>(as4: bool, attrs: &LentAttrs<'_, F>) -> u128
    ensures value { result ≡ length (octets_of (further_attributes as4 attrs.now)) }
    ensures small { result ≤ 28 }
{
    number_length(attrs.med)
        + number_length(attrs.local_pref)
        + atomic_length(attrs.atomic)
        + aggregator_length(as4, attrs.aggregator)
}

fn prefix_length<F: Family>(prefix: Prefix<F>) -> usize
    ensures value { result ≡ length (prefix_octets prefix) }
    ensures small { result ≤ 17 }
{
    1 + octets_for(prefix.length())
}

/// The octets of a prefix, if it is there.
pub(crate) fn listed_length<F: Family>(prefix: Option<Prefix<F>>) -> usize
    ensures value { result ≡ length (prefixes_octets (listed prefix)) }
    ensures small { result ≤ 17 }
{
    match prefix {
        None => 0,
        Some(prefix) => prefix_length(prefix),
    }
}

/// The octets of one in a field of its own.
pub(crate) fn own_length<F: Family>(prefix: Option<Prefix<F>>) -> usize
    ensures value { result ≡ length (own_octets F.V6 (listed prefix)) }
    ensures small { result ≤ 17 }
{
    if F::V6 { 0 } else { listed_length(prefix) }
}

/// The octets of MP_UNREACH_NLRI, where prefixes of IPv6 are withdrawn.
pub(crate) fn unreach_length<F: Family>(prefix: Option<Prefix<F>>) -> usize
    ensures value { result ≡ length (unreach_octets F.V6 (listed prefix)) }
    ensures small { result ≤ 23 }
{
    if !F::V6 || prefix.is_none() {
        0
    } else {
        6 + listed_length(prefix)
    }
}

/// The octets of the prefixes in MP_REACH_NLRI.
pub(crate) fn reach_length<F: Family>(prefix: Option<Prefix<F>>) -> usize
    ensures value { (hop : ℕ) → result + length (octets_of (reach_attributes F.V6 hop [])) ≡ length (octets_of (reach_attributes F.V6 hop (listed prefix))) }
    ensures small { result ≤ 17 }
{
    if F::V6 { listed_length(prefix) } else { 0 }
}

/// How many octets a route's attributes have when they are written, but for the prefixes in MP_REACH_NLRI.
#[tactic(auto, unfolding(crate::specs::Lengths::attributes_length))]
pub fn attributes_length<F: Family>(profile: Profile, attrs: &LentAttrs<'_, F>) -> u128
    ensures value { result ≡ attributes_length F.V6 profile.as4 attrs.now }
    ensures small { result + 64 < 2 ^ 128 }
{
    unrecognized_length(attrs.unrecognized)
        + mandatory_length(profile.as4, attrs)
        + further_length(profile.as4, attrs)
        + reflection_length(&attrs.reflection)
}

/// How many octets the UPDATE has that announces one prefix with these attributes, whether or not it fits into a message.
pub fn announcement_length<F: Family>(
    profile: Profile,
    prefix: Prefix<F>,
    attrs: &LentAttrs<'_, F>,
) -> u128
    ensures { result ≡ announcement_length F.V6 profile.as4 prefix attrs.now }
{
    23 + prefix_length(prefix) as u128 + attributes_length(profile, attrs)
}

/// Whether an announcement of the prefix with attributes of so many octets ([`attributes_length`]) fits into a message, which
/// has at most 4,096 octets (RFC 4271, section 4.1).
pub fn announcement_fits<F: Family>(prefix: Prefix<F>, attributes: u128) -> bool
    ensures room { result ≡ nat_le (23 + length (prefix_octets prefix) + attributes) 4096 }
    ensures fits { (as4 : Bool) (a : Route) → attributes_length F.V6 as4 a ≡ attributes → result ≡ nat_le (announcement_length F.V6 as4 prefix a) 4096 }
{
    attributes <= (LONGEST - 23 - prefix_length(prefix)) as u128
}
