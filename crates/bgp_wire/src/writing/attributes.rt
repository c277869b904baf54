//! Path attributes that are written (RFC 4271, sections 4.3 and 5).

ghost use Rattle.std.specs.Prelude.{◌≡◌, ◌++◌, ◌∷◌, [], OnOk, if◌then◌else◌};
ghost use Rattle.std.specs.Option.{ForSome};
ghost use Rattle.bgp_wire.specs.Routes.{code_of_origin};
ghost use Rattle.bgp_wire.specs.Spelling.{FitsWidth, FitsAttrs, spelled, optional, aggregator_value, aggregator_flags, unrecognized_attributes, mandatory_attributes, further_attributes, leading_attributes, sent_attributes, stands_in, listed, octets_of};

use crate::attributes::{AGGREGATOR, ATOMIC_AGGREGATE, LOCAL_PREF, MULTI_EXIT_DISC, ORIGIN};
use crate::numbers::width;
use crate::wire::Wire;
use crate::writing::heads::{
    OPTIONAL, OPTIONAL_TRANSITIVE, PARTIAL, WELL_KNOWN, push_attribute, push_head, push_number,
};
use crate::writing::numbers::{push_asn, push_u32};
use crate::writing::path::push_path;
use crate::writing::prefixes::{push_hop, push_reach};
use crate::writing::reflection::push_reflection;
use addr4::{Memory, Prefix};
use bgp_attr::{Aggregator, LentAttrs, Origin, Unrecognized};

/// Where unrecognized attributes stand among the others, by their types.
#[derive(Clone, Copy, PartialEq, Eq)]
enum Place {
    /// Before ORIGIN.
    First,
    /// Between AGGREGATOR and ORIGINATOR_ID.
    Middle,
    /// All the others before MP_REACH_NLRI.
    Inner,
    /// Behind MP_REACH_NLRI.
    Last,
}

/// Whether an unrecognized type stands there.
fn stands_in(place: Place, kind: u8) -> bool
    ensures { result ≡ stands_in place kind }
{
    match place {
        Place::First => kind == 0,
        Place::Middle => kind == 8,
        Place::Inner => kind != 0 && kind != 8 && kind < 14,
        Place::Last => kind != 0 && kind != 8 && kind >= 14,
    }
}

/// A route's attributes by ascending type, with which a prefix may be announced.
pub(crate) fn push_attrs<F: Wire>(
    out: &mut Vec<u8>,
    as4: bool,
    attrs: &LentAttrs<'_, F>,
    announced: Option<Prefix<F>>,
) -> Result<(), Memory>
    requires { FitsAttrs as4 attrs.now }
    ensures { OnOk result (out.new.items ≡ out.old.items ++ octets_of (sent_attributes F.V6 as4 attrs.now (listed announced))) }
{
    push_leading(out, as4, attrs)?;
    push_unrecognized(out, Place::Inner, attrs.unrecognized)?;
    push_reach(out, attrs.next_hop, announced)?;
    push_unrecognized(out, Place::Last, attrs.unrecognized)
}

/// Those up to CLUSTER_LIST.
fn push_leading<F: Wire>(
    out: &mut Vec<u8>,
    as4: bool,
    attrs: &LentAttrs<'_, F>,
) -> Result<(), Memory>
    requires { FitsAttrs as4 attrs.now }
    ensures { OnOk result (out.new.items ≡ out.old.items ++ octets_of (leading_attributes F.V6 as4 attrs.now)) }
{
    push_unrecognized(out, Place::First, attrs.unrecognized)?;
    push_mandatory(out, as4, attrs)?;
    push_further(out, as4, attrs)?;
    push_unrecognized(out, Place::Middle, attrs.unrecognized)?;
    push_reflection(out, &attrs.reflection)
}

/// ORIGIN, AS_PATH and, for prefixes of IPv4, NEXT_HOP.
fn push_mandatory<F: Wire>(
    out: &mut Vec<u8>,
    as4: bool,
    attrs: &LentAttrs<'_, F>,
) -> Result<(), Memory>
    requires { FitsAttrs as4 attrs.now }
    ensures { OnOk result (out.new.items ≡ out.old.items ++ octets_of (mandatory_attributes F.V6 as4 attrs.now)) }
{
    push_origin(out, attrs.origin)?;
    push_path(out, as4, &attrs.path)?;
    push_hop(out, attrs.next_hop)
}

/// MULTI_EXIT_DISC, LOCAL_PREF, ATOMIC_AGGREGATE and AGGREGATOR, if they are there.
fn push_further<F: Wire>(
    out: &mut Vec<u8>,
    as4: bool,
    attrs: &LentAttrs<'_, F>,
) -> Result<(), Memory>
    requires { FitsAttrs as4 attrs.now }
    ensures { OnOk result (out.new.items ≡ out.old.items ++ octets_of (further_attributes as4 attrs.now)) }
{
    push_number(out, OPTIONAL, MULTI_EXIT_DISC, attrs.med)?;
    push_number(out, WELL_KNOWN, LOCAL_PREF, attrs.local_pref)?;
    push_atomic(out, attrs.atomic)?;
    push_aggregator(out, as4, attrs.aggregator)?;
    Ok(())
}

fn push_origin(out: &mut Vec<u8>, origin: Origin) -> Result<(), Memory>
    ensures { OnOk result (out.new.items ≡ out.old.items ++ (spelled 64 1 (code_of_origin origin ∷ [])).octets) }
{
    let code = match origin {
        Origin::Igp => 0,
        Origin::Egp => 1,
        Origin::Incomplete => 2,
    };
    push_attribute(out, WELL_KNOWN, ORIGIN, &[code])
}

fn push_atomic(out: &mut Vec<u8>, atomic: bool) -> Result<(), Memory>
    ensures { OnOk result (out.new.items ≡ out.old.items ++ octets_of (if atomic then spelled 64 6 [] ∷ [] else [])) }
{
    if atomic {
        push_attribute(out, WELL_KNOWN, ATOMIC_AGGREGATE, &[])
    } else {
        Ok(())
    }
}

fn push_aggregator(
    out: &mut Vec<u8>,
    as4: bool,
    aggregator: Option<Aggregator>,
) -> Result<(), Memory>
    requires { ForSome aggregator (λ g. FitsWidth as4 g.asn) }
    ensures { OnOk result (out.new.items ≡ out.old.items ++ octets_of (optional (λ g. spelled (aggregator_flags g.partial) 7 (aggregator_value as4 g)) aggregator)) }
{
    let Some(aggregator) = aggregator else {
        return Ok(());
    };
    let flags = if aggregator.partial {
        OPTIONAL_TRANSITIVE + PARTIAL
    } else {
        OPTIONAL_TRANSITIVE
    };
    push_head(out, flags, AGGREGATOR, 4 + width(as4) as u128)?;
    push_asn(out, as4, aggregator.asn)?;
    push_u32(out, aggregator.addr.number())
}

/// Those unrecognized attributes that stand in this place. They have passed a speaker that doesn't recognize them, so the partial
/// flag is set.
fn push_unrecognized(out: &mut Vec<u8>, place: Place, items: &[Unrecognized]) -> Result<(), Memory>
    ensures { OnOk result (out.new.items ≡ out.old.items ++ octets_of (unrecognized_attributes place items.now)) }
{
    for item in items {
        if stands_in(place, item.kind) {
            push_attribute(
                out,
                OPTIONAL_TRANSITIVE + PARTIAL,
                item.kind,
                item.value.as_slice(),
            )?;
        }
    }
    Ok(())
}
