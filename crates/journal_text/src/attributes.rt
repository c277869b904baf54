//! The texts of attributes.

ghost use Rattle.std.specs.Prelude.{◌≡◌, ◌++◌, [], OnOk, codes, cond};
ghost use Rattle.std.specs.List.{flat_map};
ghost use Rattle.addr4.specs.Texts.{dotted};
ghost use Rattle.journal_text.specs.Texts.{origin_number, segment_text, path_text, lettered, aggregator_text, addresses_text, originator_text, clusters_text, reflection_text, unrecognized_text, required_text, optional_text, attrs_text};

use crate::texts::push_text;
use addr4::{Addr, Memory, RouterId, Texts, push_addr, push_hex, push_id, push_number};
use bgp_attr::{Aggregator, AsPath, Attrs, Origin, Reflection, Segment, SegmentKind, Unrecognized};

fn origin_number(origin: Origin) -> u64
    ensures { result ≡ origin_number origin }
{
    match origin {
        Origin::Igp => 0,
        Origin::Egp => 1,
        Origin::Incomplete => 2,
    }
}

/// Numbers with dots between them.
fn push_dotted(out: &mut Vec<u8>, numbers: &[u32]) -> Result<(), Memory>
    ensures { OnOk result (out.new.items ≡ out.old.items ++ dotted numbers.now) }
{
    for (i, number) in numbers.iter().enumerate() {
        if i > 0 {
            out.push(b'.')?;
        }
        push_number(out, u64::from(*number))?;
    }
    Ok(())
}

#[tactic(auto, unfolding(crate::specs::Texts::segment_text))]
fn push_segment(out: &mut Vec<u8>, segment: &Segment<'_>) -> Result<(), Memory>
    ensures { OnOk result (out.new.items ≡ out.old.items ++ segment_text segment.now) }
{
    match segment.kind {
        SegmentKind::Sequence => {
            out.push(b'(')?;
            push_dotted(out, segment.numbers.as_slice())?;
            out.push(b')')?;
        }
        SegmentKind::Set => {
            out.push(b'{')?;
            push_dotted(out, segment.numbers.as_slice())?;
            out.push(b'}')?;
        }
    }
    Ok(())
}

#[tactic(auto, unfolding(crate::specs::Texts::path_text))]
fn push_path(out: &mut Vec<u8>, path: &AsPath) -> Result<(), Memory>
    ensures { OnOk result (out.new.items ≡ out.old.items ++ path_text path.now) }
{
    let mut rest = path.segments();
    'segments: while let Some((segment, others)) = rest.split_first() {
        push_segment(out, &segment)?;
        rest = others;
    }
    Ok(())
}

/// A comma, a letter and a number, where there is one.
fn push_lettered(out: &mut Vec<u8>, letter: u8, number: Option<u32>) -> Result<(), Memory>
    ensures { OnOk result (out.new.items ≡ out.old.items ++ lettered letter number) }
{
    if let Some(number) = number {
        out.push(b',')?;
        out.push(letter)?;
        push_number(out, u64::from(number))?;
    }
    Ok(())
}

#[tactic(auto, unfolding(crate::specs::Texts::aggregator_text))]
fn push_aggregator(out: &mut Vec<u8>, aggregator: Option<Aggregator>) -> Result<(), Memory>
    ensures { OnOk result (out.new.items ≡ out.old.items ++ aggregator_text aggregator) }
{
    if let Some(aggregator) = aggregator {
        push_text(out, b",g")?;
        push_number(out, u64::from(aggregator.asn))?;
        out.push(b'/')?;
        push_id(out, aggregator.addr)?;
        if aggregator.partial {
            out.push(b'!')?;
        }
    }
    Ok(())
}

#[tactic(auto, unfolding(crate::specs::Texts::originator_text))]
fn push_originator(out: &mut Vec<u8>, originator: Option<RouterId>) -> Result<(), Memory>
    ensures { OnOk result (out.new.items ≡ out.old.items ++ originator_text originator) }
{
    if let Some(id) = originator {
        push_text(out, b",r")?;
        push_id(out, id)?;
    }
    Ok(())
}

/// Identifiers with semicolons between them.
fn push_addresses(out: &mut Vec<u8>, addresses: &[RouterId]) -> Result<(), Memory>
    ensures { OnOk result (out.new.items ≡ out.old.items ++ addresses_text addresses.now) }
{
    for (i, addr) in addresses.iter().enumerate() {
        if i > 0 {
            out.push(b';')?;
        }
        push_id(out, *addr)?;
    }
    Ok(())
}

#[tactic(auto, unfolding(crate::specs::Texts::clusters_text))]
fn push_clusters(out: &mut Vec<u8>, clusters: &[RouterId]) -> Result<(), Memory>
    ensures { OnOk result (out.new.items ≡ out.old.items ++ clusters_text clusters.now) }
{
    if !clusters.is_empty() {
        push_text(out, b",c")?;
        push_addresses(out, clusters)?;
    }
    Ok(())
}

/// What reflectors added.
fn push_reflection(out: &mut Vec<u8>, reflection: &Reflection) -> Result<(), Memory>
    ensures { OnOk result (out.new.items ≡ out.old.items ++ reflection_text reflection.now) }
{
    push_originator(out, reflection.originator())?;
    push_clusters(out, reflection.clusters())
}

#[tactic(auto, unfolding(crate::specs::Texts::unrecognized_text))]
fn push_unrecognized(out: &mut Vec<u8>, attribute: &Unrecognized) -> Result<(), Memory>
    ensures { OnOk result (out.new.items ≡ out.old.items ++ unrecognized_text attribute.now) }
{
    push_text(out, b",x")?;
    push_number(out, u64::from(attribute.kind))?;
    out.push(b':')?;
    push_hex(out, attribute.value.as_slice())
}

/// The unrecognized attributes, one after another.
fn push_unrecognized_all(out: &mut Vec<u8>, attributes: &[Unrecognized]) -> Result<(), Memory>
    ensures { OnOk result (out.new.items ≡ out.old.items ++ flat_map unrecognized_text attributes.now) }
{
    for attribute in attributes {
        push_unrecognized(out, attribute)?;
    }
    Ok(())
}

/// Origin, path and next hop.
#[tactic(auto, unfolding(crate::specs::Texts::required_text))]
fn push_required<F: Texts>(out: &mut Vec<u8>, attrs: &Attrs<Addr<F>>) -> Result<(), Memory>
    ensures { OnOk result (out.new.items ≡ out.old.items ++ required_text F.V6 attrs.now) }
{
    push_text(out, b"o")?;
    push_number(out, origin_number(attrs.origin))?;
    push_text(out, b",p")?;
    push_path(out, &attrs.path)?;
    push_text(out, b",n")?;
    push_addr(out, attrs.next_hop)?;
    Ok(())
}

/// `,a`, where it is there.
fn push_atomic(out: &mut Vec<u8>, atomic: bool) -> Result<(), Memory>
    ensures { OnOk result (out.new.items ≡ out.old.items ++ cond atomic (codes ",a") []) }
{
    if atomic {
        push_text(out, b",a")?;
    }
    Ok(())
}

#[tactic(auto, unfolding(crate::specs::Texts::optional_text))]
fn push_optional<F: Texts>(out: &mut Vec<u8>, attrs: &Attrs<Addr<F>>) -> Result<(), Memory>
    ensures { OnOk result (out.new.items ≡ out.old.items ++ optional_text attrs.now) }
{
    push_lettered(out, b'm', attrs.med)?;
    push_lettered(out, b'l', attrs.local_pref)?;
    push_atomic(out, attrs.atomic)?;
    push_aggregator(out, attrs.aggregator)?;
    Ok(())
}

/// The attributes, parted by commas.
#[tactic(auto, unfolding(crate::specs::Texts::attrs_text))]
pub(crate) fn push_attrs<F: Texts>(out: &mut Vec<u8>, attrs: &Attrs<Addr<F>>) -> Result<(), Memory>
    ensures { OnOk result (out.new.items ≡ out.old.items ++ attrs_text F.V6 attrs.now) }
{
    push_required(out, attrs)?;
    push_optional(out, attrs)?;
    push_reflection(out, &attrs.reflection)?;
    push_unrecognized_all(out, attrs.unrecognized.as_slice())?;
    Ok(())
}
