//! What is told of a path: how long it is, which AS numbers it has, the first one.

ghost use Rattle.std.specs.Prelude.{◌≡◌, ◌↔◌, ◌<◌, ◌^◌, IsTrue, Contains};
ghost use Rattle.bgp_attr.specs.Paths.{counted, hops, HasAs, first_as};

use crate::path::{AsPath, Segment, SegmentKind};

impl<'a> Segment<'a> {
    /// How many AS numbers it counts as: an AS_SET is 1 (RFC 4271, section 9.1.2.2 a).
    fn hops(&self) -> u64
        ensures { result ≡ counted self.now.kind self.now.numbers }
    {
        match self.kind {
            SegmentKind::Set => 1,
            SegmentKind::Sequence => self.numbers.as_slice().len() as u64,
        }
    }

    fn has(&self, asn: u32) -> bool
        ensures { IsTrue result ↔ Contains self.now.numbers asn }
    {
        self.numbers.as_slice().contains(&asn)
    }
}

impl AsPath {
    /// How many AS numbers the path has, an AS_SET counting 1 (RFC 4271, section 9.1.2.2 a).
    pub fn hops(&self) -> u128
        ensures value { result ≡ hops self.now }
        ensures few { result < 2 ^ 32 }
    {
        let mut total: u128 = 0;
        let mut rest = self.segments();
        'segments: while let Some((segment, others)) = rest.split_first() {
            total += u128::from(segment.hops());
            rest = others;
        }
        total
    }

    /// Whether the AS is in some segment of the path.
    pub fn has(&self, asn: u32) -> bool
        ensures { IsTrue result ↔ HasAs self.now asn }
    {
        if !self.marks.may_have(asn) {
            return false;
        }
        let mut rest = self.segments();
        'segments: while let Some((segment, others)) = rest.split_first() {
            if segment.has(asn) {
                return true;
            }
            rest = others;
        }
        false
    }

    /// The first AS of a leading AS_SEQUENCE (RFC 4271, section 9.1.2.2 c). None exactly where no AS_SEQUENCE with an AS
    /// leads: for the empty path, a leading AS_SET, a leading AS_SEQUENCE without an AS.
    pub fn first(&self) -> Option<u32>
        ensures { result ≡ first_as self.now }
    {
        let (leading, _others) = self.segments().split_first()?;
        match leading.kind {
            SegmentKind::Set => None,
            SegmentKind::Sequence => leading.numbers.as_slice().first().copied(),
        }
    }
}
