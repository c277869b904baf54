//! Prefixes that are written, and the attributes that have them or their next hop.

ghost use Rattle.std.specs.Prelude.{◌≡◌, ◌++◌, length, true, OnOk};
ghost use Rattle.byteorder.specs.Endian.{big_bytes};
ghost use Rattle.bgp_wire.specs.Spelling.{listed, prefixes_octets, own_octets, unreach_octets, hop_attributes, reach_value, reach_attributes, octets_of};

use crate::attributes::{MP_REACH_NLRI, MP_UNREACH_NLRI, NEXT_HOP};
use crate::wire::Wire;
use crate::writing::heads::{OPTIONAL, WELL_KNOWN, push_head, push_number};
use crate::writing::lengths::{listed_length, own_length};
use crate::writing::numbers::{push_address, push_prefix, push_u16};
use addr4::{Addr, Memory, Prefix};

/// A prefix, if it is there.
pub(crate) fn push_listed<F: Wire>(
    out: &mut Vec<u8>,
    prefix: Option<Prefix<F>>,
) -> Result<(), Memory>
    ensures { OnOk result (out.new.items ≡ out.old.items ++ prefixes_octets (listed prefix)) }
{
    match prefix {
        None => Ok(()),
        Some(prefix) => push_prefix(out, prefix),
    }
}

/// A prefix that stands in a field of its own: one of IPv4.
pub(crate) fn push_own<F: Wire>(out: &mut Vec<u8>, prefix: Option<Prefix<F>>) -> Result<(), Memory>
    ensures { OnOk result (out.new.items ≡ out.old.items ++ own_octets F.V6 (listed prefix)) }
{
    if F::V6 {
        Ok(())
    } else {
        push_listed(out, prefix)
    }
}

/// The field of withdrawn prefixes: its length, and then these.
pub(crate) fn push_withdrawn<F: Wire>(
    out: &mut Vec<u8>,
    prefix: Option<Prefix<F>>,
) -> Result<(), Memory>
    ensures { OnOk result (out.new.items ≡ out.old.items ++ big_bytes 2 (length (own_octets F.V6 (listed prefix))) ++ own_octets F.V6 (listed prefix)) }
{
    push_u16(out, own_length(prefix) as u16)?;
    push_own(out, prefix)
}

/// NEXT_HOP, for prefixes of IPv4.
pub(crate) fn push_hop<F: Wire>(out: &mut Vec<u8>, next_hop: Addr<F>) -> Result<(), Memory>
    ensures { OnOk result (out.new.items ≡ out.old.items ++ octets_of (hop_attributes F.V6 next_hop)) }
{
    if F::V6 {
        return Ok(());
    }
    let number = (next_hop.bits().to_number() >> 96) as u32;
    push_number(out, WELL_KNOWN, NEXT_HOP, Some(number))
}

/// MP_REACH_NLRI, for prefixes of IPv6 (RFC 4760, section 3).
pub(crate) fn push_reach<F: Wire>(
    out: &mut Vec<u8>,
    next_hop: Addr<F>,
    prefix: Option<Prefix<F>>,
) -> Result<(), Memory>
    ensures { OnOk result (out.new.items ≡ out.old.items ++ octets_of (reach_attributes F.V6 next_hop (listed prefix))) }
{
    if F::V6 {
        push_reach_of(out, next_hop, prefix)
    } else {
        Ok(())
    }
}

fn push_reach_of<F: Wire>(
    out: &mut Vec<u8>,
    next_hop: Addr<F>,
    prefix: Option<Prefix<F>>,
) -> Result<(), Memory>
    ensures { OnOk result (out.new.items ≡ out.old.items ++ octets_of (reach_attributes true next_hop (listed prefix))) }
{
    let size = 21 + listed_length(prefix) as u128;
    push_head(out, OPTIONAL, MP_REACH_NLRI, size)?;
    push_reach_value(out, next_hop, prefix)
}

/// The families, the next hop behind its length, a reserved octet, and the prefix.
fn push_reach_value<F: Wire>(
    out: &mut Vec<u8>,
    next_hop: Addr<F>,
    prefix: Option<Prefix<F>>,
) -> Result<(), Memory>
    ensures { OnOk result (out.new.items ≡ out.old.items ++ reach_value next_hop (listed prefix)) }
{
    out.extend_from_slice(&[0, 2, 1, 16])?;
    push_address(out, next_hop)?;
    out.push(0)?;
    push_listed(out, prefix)
}

/// MP_UNREACH_NLRI, where prefixes of IPv6 are withdrawn (RFC 4760, section 4).
#[tactic(auto, using(crate::proofs::SpellingLemmas::unreach_spelled))]
pub(crate) fn push_unreach<F: Wire>(
    out: &mut Vec<u8>,
    prefix: Option<Prefix<F>>,
) -> Result<(), Memory>
    ensures { OnOk result (out.new.items ≡ out.old.items ++ unreach_octets F.V6 (listed prefix)) }
{
    if !F::V6 || prefix.is_none() {
        return Ok(());
    }
    let size = 3 + listed_length(prefix) as u128;
    push_head(out, OPTIONAL, MP_UNREACH_NLRI, size)?;
    out.extend_from_slice(&[0, 2, 1])?;
    push_listed(out, prefix)
}
