//! Attributes that are lent: those that a peer gets of a route, told from what is kept of the route without making them.
//!
//! A writer goes over them as over [`Attrs`]: over the path segment by segment ([`LentPath::split_first`]), where an AS may stand
//! in front, and over the clusters one by one, where one may stand in front.

ghost use Rattle.std.specs.Prelude.{◌≡◌, ◌-◌, ◌≤◌, ◌<◌, ◌^◌, ◌∷◌, [], MatchOption, length};
ghost use Rattle.bgp_attr.specs.Paths.{times_in_front};

mod reflected;

use crate::attrs::{Aggregator, Attrs, Origin};
use crate::path::{AsPath, MOST, Numbers, SegmentKind, Segments};
use crate::unrecognized::Unrecognized;
use addr4::{Addr, Family, RouterId, V4};
use std::marker::Model;

/// A segment of a path, lent, with an AS in front of its numbers so many times. Contracts see the segment that this makes.
#[derive(Drop)]
pub struct LentSegment<'a> {
    pub numbers: Numbers<'a>,
    /// The AS in front.
    pub asn: u32,
    pub kind: SegmentKind,
    /// How often the AS stands there, 0 to 255.
    pub times: u8,
}

impl<'a> Model for LentSegment<'a> {
    ghost use Rattle.std.specs.Prelude.{◌++◌, replicate};
    ghost use Rattle.bgp_attr.specs.declared.path.Segment.{Segment};

    ghost Value = { Segment };

    ghost view = { λ s. record { kind = s.kind; numbers = replicate s.times s.asn ++ s.numbers } };
}

/// A path, lent, with an AS in front of it so many times (RFC 4271, section 5.1.2 b). Contracts see the path that this makes.
#[derive(Drop)]
pub struct LentPath<'a> {
    segments: Segments<'a>,
    asn: u32,
    /// 0 to 256.
    times: u16,
}

impl<'a> Model for LentPath<'a> {
    ghost use Rattle.std.specs.Prelude.{◌<◌, ◌≤◌, ◌^◌, List, length};
    ghost use Rattle.bgp_attr.specs.declared.path.Segment.{Segment};
    ghost use Rattle.bgp_attr.specs.Paths.{times_in_front};

    ghost Value = { List Segment };

    ghost view = { λ p. times_in_front p.times p.asn p.segments };

    ghost invariant = { λ p. (length p.segments < 2 ^ 62) × (p.times ≤ 256) };
}

impl AsPath {
    /// The path itself, lent.
    pub fn lent(&self) -> LentPath<'_>
        ensures { result ≡ self.now }
    {
        self.lent_in_front(0, 0)
    }

    /// The path with an AS in front of it so many times, 0 to 256, lent.
    pub fn lent_in_front(&self, asn: u32, times: u16) -> LentPath<'_>
        requires { times ≤ 256 }
        ensures { result ≡ times_in_front times asn self.now }
    {
        LentPath {
            segments: self.segments(),
            asn,
            times,
        }
    }
}

impl<'a> LentPath<'a> {
    /// The path itself, lent; `few` bounds what is counted over its segments.
    pub fn lent(&self) -> LentPath<'a>
        ensures value { result ≡ self.now }
        ensures few { length self.now ≤ 2 ^ 63 }
    {
        LentPath {
            segments: self.segments.lent(),
            asn: self.asn,
            times: self.times,
        }
    }

    /// The first segment, and those after it. None exactly where there is none.
    pub fn split_first(&self) -> Option<(LentSegment<'a>, LentPath<'a>)>
        ensures { MatchOption result (self.now ≡ []) (λ x. self.now ≡ x.0 ∷ x.1) }
    {
        let asn = self.asn;
        let room = u16::from(self.segments.room());
        if self.times > room {
            // Those that the leading segment has no room for begin their own.
            let times = in_first(self.times - room);
            let first = LentSegment {
                numbers: Numbers::none(),
                asn,
                kind: SegmentKind::Sequence,
                times,
            };
            let segments = self.segments.lent();
            return Some((
                first,
                LentPath {
                    segments,
                    asn,
                    times: self.times - u16::from(times),
                },
            ));
        }
        let (leading, segments) = self.segments.split_first()?;
        let first = LentSegment {
            numbers: leading.numbers,
            asn,
            kind: leading.kind,
            times: self.times as u8,
        };
        Some((
            first,
            LentPath {
                segments,
                asn,
                times: 0,
            },
        ))
    }
}

/// Of so many numbers that begin sequences of their own, how many the first one has: those behind it are full.
fn in_first(others: u16) -> u8
    requires { others ≤ 256 }
    ensures one { others ≤ 255 → result ≡ others }
    ensures two { 255 < others → result ≡ others - 255 }
{
    let most = u16::from(MOST);
    if others > most {
        (others - most) as u8
    } else {
        others as u8
    }
}

/// What route reflectors added to a route, lent, with a cluster in front of the others where one stands there. Contracts see what
/// this makes.
#[derive(Drop)]
pub struct LentReflection<'a> {
    pub originator: Option<RouterId>,
    /// The cluster in front.
    pub front: Option<RouterId>,
    pub others: &'a [RouterId],
}

impl<'a> Model for LentReflection<'a> {
    ghost use Rattle.bgp_attr.specs.Reflections.{Reflected};
    ghost use Rattle.bgp_attr.specs.Lent.{clusters_behind};

    ghost Value = { Reflected };

    ghost view = { λ r. record { originator = r.originator; clusters = clusters_behind r.front r.others.now } };
}

/// The attributes of a route, lent. Contracts see the attributes that this makes.
#[derive(Drop)]
pub struct LentAttrs<'a, F: Family = V4> {
    pub path: LentPath<'a>,
    pub unrecognized: &'a [Unrecognized],
    pub reflection: LentReflection<'a>,
    pub aggregator: Option<Aggregator>,
    pub med: Option<u32>,
    pub local_pref: Option<u32>,
    pub next_hop: Addr<F>,
    pub origin: Origin,
    pub atomic: bool,
}

impl<'a, F: Family> Model for LentAttrs<'a, F> {
    ghost use Rattle.bgp_attr.specs.Attributes.{Attrs};

    ghost Value = { Attrs };

    ghost view = { λ a. record {
      path = a.path;
      unrecognized = a.unrecognized.now;
      reflection = a.reflection;
      aggregator = a.aggregator;
      med = a.med;
      local_pref = a.local_pref;
      next_hop = a.next_hop;
      origin = a.origin;
      atomic = a.atomic;
    } };
}

impl<F: Family> Attrs<Addr<F>> {
    /// The attributes, lent.
    pub fn lent(&self) -> LentAttrs<'_, F>
        ensures { result ≡ self.now }
    {
        LentAttrs {
            path: self.path.lent(),
            unrecognized: self.unrecognized.as_slice(),
            reflection: self.reflection.lent(),
            aggregator: self.aggregator,
            med: self.med,
            local_pref: self.local_pref,
            next_hop: self.next_hop,
            origin: self.origin,
            atomic: self.atomic,
        }
    }
}
