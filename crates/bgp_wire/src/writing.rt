//! Messages that are written.

ghost use Rattle.std.specs.Prelude.{◌≡◌, ◌+◌, ◌^◌, ◌≤◌, ◌<◌, length, replicate, IfOk, OnOk, MatchOption, ◌++◌, ◌∷◌, [], Bool};
ghost use Rattle.std.specs.Option.{ForSome, option_copied};
ghost use Rattle.byteorder.specs.Endian.{big_bytes};
ghost use Rattle.bgp_wire.specs.Spelling.{FitsAttrs, fields_octets, framed, listed, notification_octets, own_octets, unreach_octets, attrs_octets, update_octets};
ghost use Rattle.bgp_wire.specs.Readable.{HasOnePrefix, announcing, withdrawing};

mod attributes;
mod heads;
mod lengths;
mod numbers;
mod path;
mod prefixes;
mod reflection;

use crate::header::{LONGEST, NOTIFICATION, UPDATE};
use crate::message::Said;
use crate::wire::Wire;
use crate::writing::attributes::push_attrs;
use crate::writing::lengths::{own_length, reach_length, unreach_length};
use crate::writing::numbers::push_u16;
use crate::writing::prefixes::{push_own, push_unreach, push_withdrawn};
use addr4::{Family, Memory, Prefix};
use bgp_attr::{LentAttrs, Profile};
pub use lengths::{announcement_fits, announcement_length, attributes_length};
use std::alloc::Global;

/// The octets of a header.
const HEADER: usize = 19;

/// The octets of an UPDATE that the route of one prefix is announced or withdrawn by (RFC 4271, section 4.3): attributes
/// by ascending type, a length of two octets exactly for those of more than 255, the partial flag on unrecognized ones.
/// What it writes is what the value has, whoever it is sent to. None exactly where it would be above 4,096 octets.
pub fn write_update<F: Wire>(
    alloc: Global,
    profile: Profile,
    said: &Said<F>,
) -> Result<Option<Vec<u8>>, Memory>
    requires one { HasOnePrefix said.now }
    requires fits { ForSome said.now.attrs (FitsAttrs profile.as4) }
    ensures { let octets = update_octets F.V6 profile.as4 said.now in IfOk result (λ written. MatchOption written (4096 < length octets) (λ v. (length octets ≤ 4096) × (v.items ≡ octets))) }
{
    let attrs = said.attrs.as_ref().map(|attrs| attrs.lent());
    write_fields(
        alloc,
        profile,
        first_of(said.withdrawn.as_slice()),
        attrs.as_ref(),
        first_of(said.announced.as_slice()),
    )
}

/// The octets of the UPDATE that announces one prefix with these attributes: those that [`write_update`] gives for it.
/// None exactly where it would be above 4,096 octets.
pub fn write_announcement<F: Wire>(
    alloc: Global,
    profile: Profile,
    prefix: Prefix<F>,
    attrs: &LentAttrs<'_, F>,
) -> Result<Option<Vec<u8>>, Memory>
    requires { FitsAttrs profile.as4 attrs.now }
    ensures { let octets = update_octets F.V6 profile.as4 (announcing prefix attrs.now) in IfOk result (λ written. MatchOption written (4096 < length octets) (λ v. (length octets ≤ 4096) × (v.items ≡ octets))) }
{
    write_fields(alloc, profile, None, Some(attrs), Some(prefix))
}

/// The octets of the UPDATE that withdraws one prefix: those that [`write_update`] gives for it, whatever the profile.
pub fn write_withdrawal<F: Wire>(alloc: Global, prefix: Prefix<F>) -> Result<Vec<u8>, Memory>
    ensures { (as4 : Bool) → IfOk result (λ v. v.items ≡ update_octets F.V6 as4 (withdrawing prefix)) }
{
    let withdrawn = Some(prefix);
    let attributes = unreach_length(withdrawn);
    let size = HEADER + 4 + own_length(withdrawn) + attributes;
    let mut out = begin(alloc, size, UPDATE)?;
    push_withdrawn(&mut out, withdrawn)?;
    push_u16(&mut out, attributes as u16)?;
    push_unreach(&mut out, withdrawn)?;
    Ok(out)
}

/// The prefix, if there is one.
fn first_of<F: Family>(prefixes: &[Prefix<F>]) -> Option<Prefix<F>>
    requires { length prefixes.now ≤ 1 }
    ensures { listed result ≡ prefixes.now }
{
    prefixes.first().copied()
}

/// A NOTIFICATION (RFC 4271, section 4.5), of at most 4,075 octets of data.
pub fn write_notification(
    alloc: Global,
    code: u8,
    subcode: u8,
    octets: &[u8],
) -> Result<Vec<u8>, Memory>
    requires { length octets.now ≤ 4075 }
    ensures { IfOk result (λ v. v.items ≡ notification_octets code subcode octets.now) }
{
    let size = HEADER + 2 + octets.len();
    let mut out = begin(alloc, size, NOTIFICATION)?;
    out.push(code)?;
    out.push(subcode)?;
    out.extend_from_slice(octets)?;
    Ok(out)
}

/// The UPDATE of three fields. None exactly where it would be above 4,096 octets.
fn write_fields<F: Wire>(
    alloc: Global,
    profile: Profile,
    withdrawn: Option<Prefix<F>>,
    attrs: Option<&LentAttrs<'_, F>>,
    announced: Option<Prefix<F>>,
) -> Result<Option<Vec<u8>>, Memory>
    requires { ForSome (option_copied attrs) (FitsAttrs profile.as4) }
    ensures { let octets = update_octets F.V6 profile.as4 (record { withdrawn = listed withdrawn; announced = listed announced; attrs = option_copied attrs.entry }) in IfOk result (λ written. MatchOption written (4096 < length octets) (λ v. (length octets ≤ 4096) × (v.items ≡ octets))) }
{
    let others = HEADER + 4 + own_length(withdrawn) + own_length(announced);
    let attributes = unreach_length(withdrawn) as u128 + attrs_length(profile, attrs, announced);
    if attributes > (LONGEST - others) as u128 {
        return Ok(None);
    }
    let size = others + attributes as usize;
    let mut out = begin(alloc, size, UPDATE)?;
    let as4 = profile.as4;
    push_fields(
        &mut out,
        as4,
        withdrawn,
        attributes as u16,
        attrs,
        announced,
    )?;
    Ok(Some(out))
}

/// The three fields of an UPDATE, each of the first two behind its length.
fn push_fields<F: Wire>(
    out: &mut Vec<u8>,
    as4: bool,
    withdrawn: Option<Prefix<F>>,
    attributes: u16,
    attrs: Option<&LentAttrs<'_, F>>,
    announced: Option<Prefix<F>>,
) -> Result<(), Memory>
    requires fits { ForSome (option_copied attrs) (FitsAttrs as4) }
    requires counted { attributes ≡ length (unreach_octets F.V6 (listed withdrawn) ++ attrs_octets F.V6 as4 (option_copied attrs) (listed announced)) }
    ensures { OnOk result (out.new.items ≡ out.old.items ++ fields_octets (own_octets F.V6 (listed withdrawn)) (unreach_octets F.V6 (listed withdrawn) ++ attrs_octets F.V6 as4 (option_copied attrs.entry) (listed announced)) (own_octets F.V6 (listed announced))) }
{
    push_withdrawn(out, withdrawn)?;
    push_u16(out, attributes)?;
    push_unreach(out, withdrawn)?;
    push_option(out, as4, attrs, announced)?;
    push_own(out, announced)
}

#[tactic(auto, unfolding(crate::specs::Lengths::attributes_length))]
fn attrs_length<F: Family>(
    profile: Profile,
    attrs: Option<&LentAttrs<'_, F>>,
    announced: Option<Prefix<F>>,
) -> u128
    ensures value { result ≡ length (attrs_octets F.V6 profile.as4 (option_copied attrs.entry) (listed announced)) }
    ensures small { result + 32 < 2 ^ 128 }
{
    match attrs {
        None => 0,
        Some(attrs) => attributes_length(profile, attrs) + reach_length(announced) as u128,
    }
}

fn push_option<F: Wire>(
    out: &mut Vec<u8>,
    as4: bool,
    attrs: Option<&LentAttrs<'_, F>>,
    announced: Option<Prefix<F>>,
) -> Result<(), Memory>
    requires { ForSome (option_copied attrs) (FitsAttrs as4) }
    ensures { OnOk result (out.new.items ≡ out.old.items ++ attrs_octets F.V6 as4 (option_copied attrs.entry) (listed announced)) }
{
    match attrs {
        None => Ok(()),
        Some(attrs) => push_attrs(out, as4, attrs, announced),
    }
}

/// The octets of a message of this size so far: its header.
fn begin(alloc: Global, size: usize, kind: u8) -> Result<Vec<u8>, Memory>
    requires { size < 65536 }
    ensures { IfOk result (λ out. out.items ≡ replicate 16 255 ++ big_bytes 2 size ++ kind ∷ []) }
{
    let mut out = Vec::with_capacity(alloc, size)?;
    push_header(&mut out, size as u16, kind)?;
    Ok(out)
}

/// A marker of ones, the length of the whole message, and its type.
fn push_header(out: &mut Vec<u8>, size: u16, kind: u8) -> Result<(), Memory>
    ensures { OnOk result (out.new.items ≡ out.old.items ++ (replicate 16 255 ++ big_bytes 2 size ++ kind ∷ [])) }
{
    out.extend_from_slice(&[255; 16])?;
    push_u16(out, size)?;
    out.push(kind)?;
    Ok(())
}
