//! Reading MP_REACH_NLRI and MP_UNREACH_NLRI: routes of IPv6 unicast (RFC 4760; the next hop by RFC 2545).

ghost use Rattle.std.specs.Prelude.{◌≡◌, ◌≤◌, ◌==◌, ◌&&◌, length};
ghost use Rattle.byteorder.specs.Endian.{big_number};
ghost use Rattle.bgp_wire.specs.Faults.{Gives, Refuses};
ghost use Rattle.bgp_wire.specs.Multiprotocol.{bad_value, is_hop_length, reach_behind, reach_at, unreach_at};

use crate::message::Prefixes;
use crate::notice::{FaultKind, Refusal, refused};
use crate::numbers::sixteen_octets;
use crate::prefixes::read_prefixes;
use addr4::Addr;
use addr6::V6;
use std::alloc::Global;

/// The routes of IPv6 unicast that an UPDATE announces.
#[derive(Drop)]
pub(crate) struct Reach {
    pub(crate) next_hop: Addr<V6>,
    pub(crate) announced: Prefixes<V6>,
}

/// The fault of a value, by the octets of its attribute.
fn bad_value(alloc: Global, octets: &[u8]) -> Refusal
    ensures { Refuses result (bad_value octets.now) }
{
    refused(alloc, FaultKind::BadOptional, octets)
}

/// The address family 2, IPv6, and the subsequent one 1, unicast.
fn is_ipv6_unicast(high: u8, low: u8, subsequent: u8) -> bool
    ensures { result ≡ (high == 0 && (low == 2 && subsequent == 1)) }
{
    high == 0 && low == 2 && subsequent == 1
}

/// Whether a next hop may have so many octets: those of an address, or of two, of which the second is link-local.
fn is_hop_length(size: u8) -> bool
    ensures { result ≡ is_hop_length size }
{
    size == 16 || size == 32
}

fn hop_at(octets: &[u8]) -> Addr<V6>
    ensures { result ≡ big_number 16 octets.now }
{
    Addr::from_bits(V6(sixteen_octets(octets)))
}

/// What stands behind the families of MP_REACH_NLRI: the next hop behind its length, a reserved octet, and prefixes.
#[tactic(auto, unfolding(crate::specs::Multiprotocol::reach_behind))]
fn read_reach_behind(alloc: Global, octets: &[u8], behind: &[u8]) -> Result<Reach, Refusal>
    ensures { Gives (λ r. r) result (reach_behind (bad_value octets.now) behind.now) }
{
    let Some((first, rest)) = behind.split_first() else {
        return Err(bad_value(alloc, octets));
    };
    let size = usize::from(*first);
    if !is_hop_length(*first) || rest.len() < size + 1 {
        return Err(bad_value(alloc, octets));
    }
    let next_hop = hop_at(rest);
    if !next_hop.is_host() {
        return Err(bad_value(alloc, octets));
    }
    let prefixes = &rest[size + 1..];
    let announced = read_prefixes(alloc, FaultKind::BadOptional, octets, prefixes)?;
    Ok(Reach {
        next_hop,
        announced: Prefixes::from_vec(announced),
    })
}

/// What MP_REACH_NLRI says; nothing where its value is of another family, which isn't read.
#[tactic(auto, unfolding(crate::specs::Multiprotocol::if_ipv6))]
pub(crate) fn read_reach(
    alloc: Global,
    octets: &[u8],
    value: &[u8],
) -> Result<Option<Reach>, Refusal>
    ensures { Gives (λ r. r) result (reach_at (bad_value octets.now) value.now) }
{
    match value {
        [] => Err(bad_value(alloc, octets)),
        [_] => Err(bad_value(alloc, octets)),
        [_, _] => Err(bad_value(alloc, octets)),
        [high, low, subsequent, behind @ ..] => {
            if !is_ipv6_unicast(*high, *low, *subsequent) {
                return Ok(None);
            }
            let reach = read_reach_behind(alloc, octets, behind)?;
            Ok(Some(reach))
        }
    }
}

/// The prefixes that MP_UNREACH_NLRI withdraws; nothing where its value is of another family, which isn't read.
#[tactic(auto, unfolding(crate::specs::Multiprotocol::if_ipv6))]
pub(crate) fn read_unreach(
    alloc: Global,
    octets: &[u8],
    value: &[u8],
) -> Result<Option<Prefixes<V6>>, Refusal>
    ensures { Gives (λ r. r) result (unreach_at (bad_value octets.now) value.now) }
{
    match value {
        [] => Err(bad_value(alloc, octets)),
        [_] => Err(bad_value(alloc, octets)),
        [_, _] => Err(bad_value(alloc, octets)),
        [high, low, subsequent, behind @ ..] => {
            if !is_ipv6_unicast(*high, *low, *subsequent) {
                return Ok(None);
            }
            let withdrawn = read_prefixes(alloc, FaultKind::BadOptional, octets, behind)?;
            Ok(Some(Prefixes::from_vec(withdrawn)))
        }
    }
}
