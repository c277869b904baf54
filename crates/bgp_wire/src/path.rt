//! Reading AS paths.

ghost use Rattle.std.specs.Prelude.{◌≡◌, ◌*◌, ◌≤◌, List, [], ◌∷◌, ◌++◌, length, IfOk, OnOk};
ghost use Rattle.bgp_attr.specs.declared.path.Segment.{Segment};
ghost use Rattle.bgp_attr.specs.declared.path.SegmentKind.{SegmentKind};
ghost use Rattle.bgp_wire.specs.Faults.{Gives};
ghost use Rattle.bgp_wire.specs.Paths.{width_of, kind_of, numbers_at, segment_of, segment_at, path_at, behind};

use crate::notice::{FaultKind, Refusal, refused};
use crate::numbers::{as_number, width};
use addr4::Memory;
use bgp_attr::{AsPath, PathBuilder, SegmentKind};
use std::alloc::Global;

pub(crate) const AS_SET: u8 = 1;

pub(crate) const AS_SEQUENCE: u8 = 2;

/// The kind of a segment by its type (RFC 4271, section 4.3).
fn kind_of(code: u8) -> Option<SegmentKind>
    ensures { result ≡ kind_of code }
{
    if code == AS_SET {
        Some(SegmentKind::Set)
    } else if code == AS_SEQUENCE {
        Some(SegmentKind::Sequence)
    } else {
        None
    }
}

/// So many AS numbers, one after the other, behind those of the last segment.
fn read_numbers(path: &mut PathBuilder, as4: bool, count: u8, octets: &[u8]) -> Result<(), Memory>
    requires octets { count * width_of as4 ≤ length octets.now }
    requires missing { path.old.missing ≡ count }
    ensures segments { OnOk result ((front : List Segment) (kind : SegmentKind) → path.old.segments ≡ front ++ record { kind = kind; numbers = [] } ∷ []
        → path.new.segments ≡ front ++ record { kind = kind; numbers = numbers_at (width_of as4) count octets.now } ∷ []) }
    ensures complete { OnOk result (path.new.missing ≡ 0) }
{
    let mut rest = octets;
    'numbers: for _done in 0..count {
        path.add(as_number(as4, rest))?;
        let (_number, after) = rest.split_at(width(as4));
        rest = after;
    }
    Ok(())
}

/// The first segment, behind those that were read, and the octets that follow it.
#[tactic(auto, unfolding(crate::specs::Paths::segment_at))]
fn read_segment<'a>(
    alloc: Global,
    path: &mut PathBuilder,
    as4: bool,
    bytes: &'a [u8],
) -> Result<&'a [u8], Refusal>
    requires { path.old.missing ≡ 0 }
    ensures value { Gives (λ after. (path.new.segments, after.now)) result (behind path.old.segments (segment_at (width_of as4) bytes.now)) }
    ensures complete { IfOk result (λ _. path.new.missing ≡ 0) }
{
    match bytes {
        [] => Err(refused(alloc, FaultKind::MalformedPath, &[])),
        [_] => Err(refused(alloc, FaultKind::MalformedPath, &[])),
        [code, count, rest @ ..] => read_segment_of(alloc, path, as4, *code, *count, rest),
    }
}

/// The segment of a type and a count, behind those that were read, and the octets that follow it.
fn read_segment_of<'a>(
    alloc: Global,
    path: &mut PathBuilder,
    as4: bool,
    code: u8,
    count: u8,
    rest: &'a [u8],
) -> Result<&'a [u8], Refusal>
    requires { path.old.missing ≡ 0 }
    ensures value { Gives (λ after. (path.new.segments, after.now)) result (behind path.old.segments (segment_of (width_of as4) count rest.now (kind_of code))) }
    ensures complete { IfOk result (λ _. path.new.missing ≡ 0) }
{
    let Some(kind) = kind_of(code) else {
        return Err(refused(alloc, FaultKind::MalformedPath, &[]));
    };
    let size = usize::from(count) * width(as4);
    if count == 0 || rest.len() < size {
        return Err(refused(alloc, FaultKind::MalformedPath, &[]));
    }
    path.begin(kind, count)?;
    read_numbers(path, as4, count, rest)?;
    Ok(&rest[size..])
}

/// Segments to the end.
pub(crate) fn read_path(alloc: Global, as4: bool, bytes: &[u8]) -> Result<AsPath, Refusal>
    ensures { Gives (λ path. path) result (path_at (width_of as4) bytes.now) }
{
    let mut path = PathBuilder::new(alloc);
    let mut rest = bytes;
    'segments: while !rest.is_empty() {
        rest = read_segment(alloc, &mut path, as4, rest)?;
    }
    Ok(path.finish())
}
