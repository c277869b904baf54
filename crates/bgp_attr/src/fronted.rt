//! Two paths compared in the form in which external peers get them, without making either.
//!
//! An AS that was put in front of a path leads it, and what stands behind the AS ([`Behind`]) says the rest. As often as the
//! AS was put in front of both paths it is left out, but for once. Then it is taken off the first as often as it was put in
//! front of the second more, and what is left behind it is compared with what stands behind it in front of the second.

ghost use Rattle.std.specs.Prelude.{◌≡◌, ◌≢◌, ℕ, ◌+◌, ◌≤◌, ◌↔◌, List, IsTrue, IfSome, IfNone};
ghost use Rattle.bgp_attr.specs.declared.path.Segment.{Segment};
ghost use Rattle.bgp_attr.specs.Paths.{takes_one_more, in_front, times_in_front};
ghost use Rattle.bgp_attr.specs.Fronts.{path_led_by};

use crate::path::{AsPath, Segment, SegmentKind, Segments};
use addr4::Row;

impl AsPath {
    /// Whether two paths are the same after the AS was put in front of each so many times, as a speaker does before it sends
    /// them to an external peer (RFC 4271, section 5.1.2 b). Takes no memory.
    pub fn same_in_front(&self, asn: u32, times: u32, other: &AsPath, other_times: u32) -> bool
        ensures { IsTrue result ↔ (times_in_front times asn self.now ≡ times_in_front other_times asn other.now) }
    {
        if times <= other_times {
            same_with_more(self, asn, times, other, other_times)
        } else {
            same_with_more(other, asn, other_times, self, times)
        }
    }
}

/// The same where the AS was put in front of the second path at least as often as in front of the first.
fn same_with_more(path: &AsPath, asn: u32, times: u32, other: &AsPath, other_times: u32) -> bool
    requires { times ≤ other_times }
    ensures { IsTrue result ↔ (times_in_front times asn path.now ≡ times_in_front other_times asn other.now) }
{
    if times > 0 {
        return Behind::once_in_front(path).is_in_front(asn, other_times - times, other);
    }
    if other_times == 0 {
        return path.same(other);
    }
    match Behind::leading(&path.segments(), asn) {
        Some(behind) => behind.is_in_front(asn, other_times - 1, other),
        None => false,
    }
}

/// What stands behind the AS that leads a path: the numbers after it in its AS_SEQUENCE, and the segments after that.
#[derive(Drop)]
struct Behind<'a> {
    numbers: &'a [u32],
    segments: Segments<'a>,
}

impl<'a> Behind<'a> {
    /// What stands behind an AS that is put in front of the path.
    fn once_in_front(path: &'a AsPath) -> Behind<'a>
        ensures { (asn : ℕ) → in_front asn path.now ≡ path_led_by asn result.numbers.now result.segments }
    {
        let segments = path.segments();
        match segments.split_first() {
            Some((leading, others)) if takes_one_more(&leading) => Behind {
                numbers: leading.numbers.as_slice(),
                segments: others,
            },
            _ => Behind {
                numbers: &[],
                segments,
            },
        }
    }

    /// What stands behind the AS where it leads the segments. None exactly where it doesn't.
    fn leading(segments: &Segments<'a>, asn: u32) -> Option<Behind<'a>>
        ensures some { IfSome result (λ b. segments.now ≡ path_led_by asn b.numbers.now b.segments) }
        ensures none { IfNone result ((ns : List ℕ) → (ss : List Segment) → segments.now ≢ path_led_by asn ns ss) }
    {
        let (segment, others) = segments.split_first()?;
        if segment.kind == SegmentKind::Set {
            return None;
        }
        match segment.numbers.as_slice() {
            [first, numbers @ ..] if *first == asn => Some(Behind {
                numbers,
                segments: others,
            }),
            _ => None,
        }
    }

    /// What stood behind the AS before it was put in front of the path that it led. None exactly where it wasn't put in front
    /// of one that it led.
    fn once_less(self, asn: u32) -> Option<Behind<'a>>
        ensures some { IfSome result (λ b. path_led_by asn self.entry.numbers.now self.entry.segments
            ≡ in_front asn (path_led_by asn b.numbers.now b.segments)) }
        ensures none { IfNone result ((ns : List ℕ) → (ss : List Segment)
            → path_led_by asn self.entry.numbers.now self.entry.segments ≢ in_front asn (path_led_by asn ns ss)) }
    {
        match self.numbers {
            // The AS_SEQUENCE that it led had room for it.
            [first, numbers @ ..] if *first == asn && numbers.len() < 254 => Some(Behind {
                numbers,
                segments: self.segments,
            }),
            [_, ..] => None,
            // It had none, and another was begun.
            [] => Behind::leading(&self.segments, asn).filter(|led| led.numbers.len() >= 254),
        }
    }

    /// Whether this stands behind the AS after it was put in front of the path once and `more` times more.
    fn is_in_front(self, asn: u32, more: u32, path: &AsPath) -> bool
        ensures { IsTrue result ↔ (path_led_by asn self.entry.numbers.now self.entry.segments
            ≡ times_in_front (more + 1) asn path.now) }
    {
        let mut behind = self;
        for turn in 0..more {
            match behind.once_less(asn) {
                Some(less) => behind = less,
                None => return false,
            }
        }
        behind.same(&Behind::once_in_front(path))
    }

    fn same(&self, other: &Behind<'_>) -> bool
        ensures { IsTrue result
            ↔ ((self.now.numbers.now ≡ other.now.numbers.now) × (self.now.segments ≡ other.now.segments)) }
    {
        self.numbers == other.numbers && self.segments.same(&other.segments)
    }
}

fn takes_one_more(segment: &Segment<'_>) -> bool
    ensures { result ≡ takes_one_more segment.now.kind segment.now.numbers }
{
    segment.kind == SegmentKind::Sequence && segment.numbers.as_slice().len() < 255
}
