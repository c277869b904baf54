//! Messages in words.

use addr4::{Addr, Memory, Prefix, RouterId, Texts, push_addr, push_id, push_number, push_prefix};
use bgp_attr::{Aggregator, AsPath, Attrs, Origin, Reflection, Segment, SegmentKind, Unrecognized};
use bgp_wire::{Message, Notice, RouteRefresh, Said, Update};

fn push_text(out: &mut Vec<u8>, text: &str) -> Result<(), Memory> {
    out.extend_from_slice(text.as_bytes())?;
    Ok(())
}

fn push_hex(out: &mut Vec<u8>, octets: &[u8]) -> Result<(), Memory> {
    let text = hex::encode(*out.allocator(), octets)?;
    push_text(out, text.as_str())
}

fn push_prefixes<F: Texts>(
    out: &mut Vec<u8>,
    sign: &str,
    prefixes: &[Prefix<F>],
) -> Result<(), Memory> {
    for prefix in prefixes {
        push_text(out, sign)?;
        push_prefix(out, *prefix)?;
    }
    Ok(())
}

fn push_numbers(out: &mut Vec<u8>, numbers: &[u32]) -> Result<(), Memory> {
    for (i, number) in numbers.iter().enumerate() {
        push_text(out, if i > 0 { "." } else { "" })?;
        push_number(out, u64::from(*number))?;
    }
    Ok(())
}

/// `{..}` for a set, `(..)` for a sequence; of more than four numbers how many there are, and the first.
fn push_segment(out: &mut Vec<u8>, segment: &Segment<'_>) -> Result<(), Memory> {
    let (open, close) = match segment.kind {
        SegmentKind::Set => ("{", "}"),
        SegmentKind::Sequence => ("(", ")"),
    };
    let numbers = segment.numbers.as_slice();
    push_text(out, open)?;
    if numbers.len() > 4 {
        push_number(out, numbers.len() as u64)?;
        push_text(out, "*")?;
        push_numbers(out, &numbers[..1])?;
    } else {
        push_numbers(out, numbers)?;
    }
    push_text(out, close)
}

fn push_option(out: &mut Vec<u8>, name: &str, number: Option<u32>) -> Result<(), Memory> {
    if let Some(number) = number {
        push_text(out, name)?;
        push_number(out, u64::from(number))?;
    }
    Ok(())
}

fn push_unrecognized(out: &mut Vec<u8>, items: &[Unrecognized]) -> Result<(), Memory> {
    for item in items {
        push_option(out, ",x", Some(u32::from(item.kind)))?;
        push_text(out, ":")?;
        let value = item.value.as_slice();
        if value.len() > 8 {
            push_number(out, value.len() as u64)?;
            push_text(out, "*")?;
            push_hex(out, &value[..1])?;
        } else {
            push_hex(out, value)?;
        }
    }
    Ok(())
}

fn push_path(out: &mut Vec<u8>, path: &AsPath) -> Result<(), Memory> {
    push_text(out, ",p")?;
    let mut rest = path.segments();
    'segments: while let Some((segment, others)) = rest.split_first() {
        push_segment(out, &segment)?;
        rest = others;
    }
    Ok(())
}

fn push_aggregator(out: &mut Vec<u8>, aggregator: Option<Aggregator>) -> Result<(), Memory> {
    if let Some(aggregator) = aggregator {
        push_option(out, ",g", Some(aggregator.asn))?;
        push_text(out, "/")?;
        push_id(out, aggregator.addr)?;
        push_text(out, if aggregator.partial { "!" } else { "" })?;
    }
    Ok(())
}

fn push_clusters(out: &mut Vec<u8>, clusters: &[RouterId]) -> Result<(), Memory> {
    for (i, cluster) in clusters.iter().enumerate() {
        push_text(out, if i > 0 { "/" } else { ",c" })?;
        push_id(out, *cluster)?;
    }
    Ok(())
}

/// ORIGINATOR_ID and CLUSTER_LIST.
fn push_reflection(out: &mut Vec<u8>, reflection: &Reflection) -> Result<(), Memory> {
    if let Some(originator) = reflection.originator() {
        push_text(out, ",r")?;
        push_id(out, originator)?;
    }
    push_clusters(out, reflection.clusters())
}

/// ORIGIN, AS_PATH and the next hop.
fn push_mandatory<F: Texts>(out: &mut Vec<u8>, attrs: &Attrs<Addr<F>>) -> Result<(), Memory> {
    let origin = match attrs.origin {
        Origin::Igp => " o0",
        Origin::Egp => " o1",
        Origin::Incomplete => " o2",
    };
    push_text(out, origin)?;
    push_path(out, &attrs.path)?;
    push_text(out, ",n")?;
    push_addr(out, attrs.next_hop)
}

fn push_attrs<F: Texts>(out: &mut Vec<u8>, attrs: &Attrs<Addr<F>>) -> Result<(), Memory> {
    push_mandatory(out, attrs)?;
    push_option(out, ",m", attrs.med)?;
    push_option(out, ",l", attrs.local_pref)?;
    push_text(out, if attrs.atomic { ",a" } else { "" })?;
    push_aggregator(out, attrs.aggregator)?;
    push_reflection(out, &attrs.reflection)?;
    push_unrecognized(out, attrs.unrecognized.as_slice())
}

/// What is said of one family: what is withdrawn, what is announced, and the attributes.
fn push_said<F: Texts>(out: &mut Vec<u8>, said: &Said<F>) -> Result<(), Memory> {
    push_prefixes(out, " -", said.withdrawn.as_slice())?;
    push_prefixes(out, " +", said.announced.as_slice())?;
    match &said.attrs {
        Some(attrs) => push_attrs(out, attrs),
        None => Ok(()),
    }
}

/// What is said of IPv4, and behind a semicolon what is said of IPv6, if anything is.
fn push_update(out: &mut Vec<u8>, update: &Update) -> Result<(), Memory> {
    let second = &update.second;
    let silent = second.withdrawn.as_slice().is_empty() && second.announced.as_slice().is_empty();
    push_text(out, "update")?;
    push_said(out, &update.first)?;
    if silent {
        return Ok(());
    }
    push_text(out, ";")?;
    push_said(out, second)
}

fn push_notice(out: &mut Vec<u8>, notice: &Notice) -> Result<(), Memory> {
    push_text(out, "notify ")?;
    push_hex(out, &[notice.code, notice.subcode])?;
    push_hex(out, notice.octets.as_slice())
}

/// `refresh AFI SAFI`, in hexadecimal digits.
fn push_refresh(out: &mut Vec<u8>, asked: RouteRefresh) -> Result<(), Memory> {
    push_text(out, "refresh ")?;
    push_hex(out, &asked.afi.to_be_bytes())?;
    push_text(out, " ")?;
    push_hex(out, &[asked.safi])
}

/// What a message says, in words.
pub(crate) fn push_message(out: &mut Vec<u8>, message: &Message) -> Result<(), Memory> {
    match message {
        Message::Update(update) => push_update(out, update),
        Message::Keepalive => push_text(out, "keepalive"),
        Message::Notification => push_text(out, "notification"),
        Message::Skip => push_text(out, "skip"),
        Message::Refresh(asked) => push_refresh(out, *asked),
        Message::Notify(notice) => push_notice(out, notice),
    }
}
