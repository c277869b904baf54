//! What is asked of attributes: flags and length by their type, and what becomes of those that aren't so.

ghost use Rattle.std.specs.Prelude.{◌≡◌};
ghost use Rattle.bgp_wire.specs.Faults.{Gives, notice, code_of, subcode_of};
ghost use Rattle.bgp_wire.specs.Attributes.{attribute_of, has_wrong_flags, has_wrong_size, is_old_form, judge_unrecognized, milder, rule, is_reflection, is_multiprotocol, is_revised, reflection_rule, rule_of};

use crate::attributes::{
    AGGREGATOR, AS_PATH, AS4_AGGREGATOR, AS4_PATH, ATOMIC_AGGREGATE, CLUSTER_LIST, LOCAL_PREF,
    MP_REACH_NLRI, MP_UNREACH_NLRI, MULTI_EXIT_DISC, NEXT_HOP, ORIGIN, ORIGINATOR_ID, RawAttribute,
    Size, TypeRule, Verdict,
};
use crate::notice::{FaultKind, Refusal, refused};
use bgp_attr::Profile;
use std::alloc::Global;

fn rule(optional: bool, transitive: bool, size: Size) -> Option<TypeRule>
    ensures { result ≡ rule optional transitive size }
{
    Some(TypeRule {
        optional,
        transitive,
        size,
    })
}

/// ORIGINATOR_ID and CLUSTER_LIST, where this speaker is a route reflector (RFC 4456, section 8).
fn is_reflection(profile: Profile, kind: u8) -> bool
    ensures { result ≡ is_reflection profile kind }
{
    profile.reflect && (kind == ORIGINATOR_ID || kind == CLUSTER_LIST)
}

/// MP_REACH_NLRI and MP_UNREACH_NLRI, where IPv6 is spoken (RFC 4760, sections 3 and 4).
pub(crate) fn is_multiprotocol(profile: Profile, kind: u8) -> bool
    ensures { result ≡ is_multiprotocol profile kind }
{
    profile.v6 && (kind == MP_REACH_NLRI || kind == MP_UNREACH_NLRI)
}

/// Whether errors of a type are handled in the revised manner. Those of MP_REACH_NLRI and MP_UNREACH_NLRI never are.
pub(crate) fn is_revised(profile: Profile, kind: u8) -> bool
    ensures { result ≡ is_revised profile kind }
{
    profile.revised && !is_multiprotocol(profile, kind)
}

/// The types that a route reflector recognizes, from an internal peer alone (RFC 4456, section 8).
fn reflection_rule(profile: Profile, external: bool, kind: u8) -> Option<TypeRule>
    ensures { result ≡ reflection_rule profile external kind }
{
    if !is_reflection(profile, kind) || external {
        return None;
    }
    if kind == ORIGINATOR_ID {
        rule(true, false, Size::Fixed(4))
    } else {
        rule(true, false, Size::Fours)
    }
}

/// The recognized types (RFC 4271, section 5; RFC 4456, section 8; RFC 4760).
#[tactic(auto, unfolding(crate::specs::Attributes::rule_of))]
pub(crate) fn rule_of(profile: Profile, external: bool, kind: u8) -> Option<TypeRule>
    ensures { result ≡ rule_of profile external kind }
{
    match kind {
        ORIGIN => rule(false, true, Size::Fixed(1)),
        AS_PATH => rule(false, true, Size::Any),
        NEXT_HOP => rule(false, true, Size::Fixed(4)),
        MULTI_EXIT_DISC => rule(true, false, Size::Fixed(4)),
        LOCAL_PREF => rule(false, true, Size::Fixed(4)),
        ATOMIC_AGGREGATE => rule(false, true, Size::Fixed(0)),
        AGGREGATOR => rule(true, true, Size::Fixed(if profile.as4 { 8 } else { 6 })),
        _ if is_multiprotocol(profile, kind) => rule(true, false, Size::Any),
        _ => reflection_rule(profile, external, kind),
    }
}

/// A fault, or something milder where errors are handled in the revised manner.
pub(crate) fn milder(
    alloc: Global,
    revised: bool,
    mild: Verdict,
    kind: FaultKind,
    octets: &[u8],
) -> Result<Verdict, Refusal>
    ensures { Gives (λ v. v) result (milder revised mild (notice (code_of kind) (subcode_of kind) octets.now)) }
{
    if revised {
        Ok(mild)
    } else {
        Err(refused(alloc, kind, octets))
    }
}

pub(crate) fn has_wrong_flags(rule: TypeRule, raw: &RawAttribute) -> bool
    ensures { result ≡ has_wrong_flags rule (attribute_of raw.now) }
{
    let optional = raw.flags / 128 % 2 == 1;
    let transitive = raw.flags / 64 % 2 == 1;
    optional != rule.optional || transitive != rule.transitive
}

pub(crate) fn has_wrong_size(rule: TypeRule, value: &[u8]) -> bool
    ensures { result ≡ has_wrong_size rule.size value.now }
{
    match rule.size {
        Size::Any => false,
        Size::Fixed(size) => value.len() != size,
        Size::Fours => value.is_empty() || value.len() % 4 != 0,
    }
}

/// AS4_PATH and AS4_AGGREGATOR among speakers that use four octets (RFC 6793, section 4.1).
fn is_old_form(profile: Profile, kind: u8) -> bool
    ensures { result ≡ is_old_form profile kind }
{
    profile.as4 && (kind == AS4_PATH || kind == AS4_AGGREGATOR)
}

/// What becomes of an unrecognized attribute (RFC 4271, section 5). To a route reflector ORIGINATOR_ID and CLUSTER_LIST of an external
/// peer are such, and are dropped.
pub(crate) fn judge_unrecognized(
    alloc: Global,
    profile: Profile,
    raw: &RawAttribute,
) -> Result<Verdict, Refusal>
    ensures { Gives (λ v. v) result (judge_unrecognized profile (attribute_of raw.now)) }
{
    let optional = raw.flags / 128 % 2 == 1;
    if !optional {
        return Err(refused(alloc, FaultKind::UnrecognizedWellKnown, raw.octets));
    }
    let transitive = raw.flags / 64 % 2 == 1;
    let means_nothing = is_old_form(profile, raw.kind) || is_reflection(profile, raw.kind);
    if transitive && !means_nothing {
        Ok(Verdict::Keep)
    } else {
        Ok(Verdict::Discard)
    }
}
