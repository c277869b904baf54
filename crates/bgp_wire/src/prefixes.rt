//! Reading prefixes.

ghost use Rattle.std.specs.Prelude.{◌≡◌, ◌≤◌, OnOk};
ghost use Rattle.bgp_wire.specs.Faults.{Gives, notice, code_of, subcode_of};
ghost use Rattle.bgp_wire.specs.Prefixes.{masked, octets_for, prefix_at, prefixes_at};

use crate::notice::{FaultKind, Refusal, refused};
use crate::numbers::sixteen_octets;
use crate::wire::{Wire, most_bits};
use addr4::{Addr, Prefix};
use std::alloc::Global;

/// The fewest octets that hold the bits of a prefix.
pub(crate) fn octets_for(bits: u8) -> usize
    ensures { result ≡ octets_for bits }
{
    usize::from(bits).div_ceil(8)
}

/// The first bits of the octets, of which the missing ones are 0.
#[tactic(auto, using(crate::proofs::PrefixLaws::masked_once))]
fn masked<F: Wire>(octets: &[u8], bits: u8) -> Prefix<F>
    requires { bits ≤ F.WIDTH }
    ensures { result ≡ masked octets.now bits }
{
    let address = F::from_number(sixteen_octets(octets));
    address.known();
    Prefix::new(Addr::from_bits(address), bits).unwrap()
}

/// The first prefix, and what follows it, or a fault of this kind with these octets.
#[tactic(auto, unfolding(crate::specs::Prefixes::prefix_at))]
fn read_prefix<'a, F: Wire>(
    alloc: Global,
    kind: FaultKind,
    octets: &[u8],
    bytes: &'a [u8],
) -> Result<(Prefix<F>, &'a [u8]), Refusal>
    ensures { Gives (λ x. (x.0, x.1.now)) result (prefix_at F.V6 (notice (code_of kind) (subcode_of kind) octets.now) bytes.now) }
{
    let Some((first, rest)) = bytes.split_first() else {
        return Err(refused(alloc, kind, octets));
    };
    let bits = *first;
    if bits > most_bits::<F>() {
        return Err(refused(alloc, kind, octets));
    }
    let size = octets_for(bits);
    if rest.len() < size {
        return Err(refused(alloc, kind, octets));
    }
    let (front, rest) = rest.split_at(size);
    Ok((masked(front, bits), rest))
}

/// Prefixes to the end (RFC 4271, section 4.3; RFC 4760, section 5), or a fault of this kind with these octets.
pub(crate) fn read_prefixes<F: Wire>(
    alloc: Global,
    kind: FaultKind,
    octets: &[u8],
    bytes: &[u8],
) -> Result<Vec<Prefix<F>>, Refusal>
    ensures { Gives (λ v. v.items) result (prefixes_at F.V6 (notice (code_of kind) (subcode_of kind) octets.now) bytes.now) }
{
    let mut found = Vec::new(alloc);
    let mut rest = bytes;
    'prefixes: while !rest.is_empty() {
        let (prefix, after) = read_prefix(alloc, kind, octets, rest)?;
        found.push(prefix)?;
        rest = after;
    }
    Ok(found)
}
