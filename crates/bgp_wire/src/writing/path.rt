//! AS paths that are written (RFC 4271, section 4.3).

ghost use Rattle.std.specs.Prelude.{◌≡◌, ◌++◌, OnOk, All, replicate};
ghost use Rattle.std.specs.List.{flat_map};
ghost use Rattle.byteorder.specs.Endian.{big_bytes};
ghost use Rattle.bgp_wire.specs.Paths.{width_of};
ghost use Rattle.bgp_wire.specs.Spelling.{FitsWidth, FitsSegment, segment_octets, path_octets, spelled};

use crate::attributes::AS_PATH;
use crate::path::{AS_SEQUENCE, AS_SET};
use crate::writing::heads::{WELL_KNOWN, push_head};
use crate::writing::lengths::path_length;
use crate::writing::numbers::push_asn;
use addr4::Memory;
use bgp_attr::{LentPath, LentSegment, SegmentKind};

pub(crate) fn push_path(out: &mut Vec<u8>, as4: bool, path: &LentPath<'_>) -> Result<(), Memory>
    requires { All (FitsSegment as4) path.now }
    ensures { OnOk result (out.new.items ≡ out.old.items ++ (spelled 64 2 (path_octets (width_of as4) path.now)).octets) }
{
    push_head(out, WELL_KNOWN, AS_PATH, path_length(as4, path))?;
    let mut rest = path.lent();
    'segments: while let Some((segment, others)) = rest.split_first() {
        push_segment(out, as4, &segment)?;
        rest = others;
    }
    Ok(())
}

/// A segment: its type, the count of its numbers, and these.
fn push_segment(out: &mut Vec<u8>, as4: bool, segment: &LentSegment<'_>) -> Result<(), Memory>
    requires { FitsSegment as4 segment.now }
    ensures { OnOk result (out.new.items ≡ out.old.items ++ segment_octets (width_of as4) segment.now) }
{
    let code = match segment.kind {
        SegmentKind::Set => AS_SET,
        SegmentKind::Sequence => AS_SEQUENCE,
    };
    let numbers = segment.numbers.as_slice();
    out.push(code)?;
    out.push(segment.times + numbers.len() as u8)?;
    push_repeated(out, as4, segment.asn, segment.times)?;
    push_numbers(out, as4, numbers)
}

/// The AS so many times.
fn push_repeated(out: &mut Vec<u8>, as4: bool, asn: u32, times: u8) -> Result<(), Memory>
    requires { All (FitsWidth as4) (replicate times asn) }
    ensures { OnOk result (out.new.items ≡ out.old.items ++ flat_map (big_bytes (width_of as4)) (replicate times asn)) }
{
    for turn in 0..times {
        push_asn(out, as4, asn)?;
    }
    Ok(())
}

fn push_numbers(out: &mut Vec<u8>, as4: bool, numbers: &[u32]) -> Result<(), Memory>
    requires { All (FitsWidth as4) numbers.now }
    ensures { OnOk result (out.new.items ≡ out.old.items ++ flat_map (big_bytes (width_of as4)) numbers.now) }
{
    for asn in numbers {
        push_asn(out, as4, *asn)?;
    }
    Ok(())
}
