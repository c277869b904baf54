//! The first word of a segment, as paths are kept.

ghost use Rattle.std.specs.Prelude.{◌≡◌, ◌<◌, ◌^◌};
ghost use Rattle.bgp_attr.specs.Words.{head_of, count_in, kind_in};

use crate::path::SegmentKind;

/// A segment's first word: its kind, and how many numbers follow.
pub(crate) fn head_of(kind: SegmentKind, count: u8) -> u32
    ensures { result ≡ head_of kind count }
{
    match kind {
        SegmentKind::Set => 2 * u32::from(count),
        SegmentKind::Sequence => 2 * u32::from(count) + 1,
    }
}

/// How many numbers follow a segment's first word.
pub(crate) fn count_in(head: u32) -> usize
    ensures { result ≡ count_in head }
{
    (head / 2) as usize
}

pub(crate) fn kind_in(head: u32) -> SegmentKind
    ensures { result ≡ kind_in head }
{
    if head % 2 == 1 {
        SegmentKind::Sequence
    } else {
        SegmentKind::Set
    }
}
