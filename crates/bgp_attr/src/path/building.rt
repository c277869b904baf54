//! Paths that are built.

ghost use Rattle.std.specs.Prelude.{◌≡◌, ◌+◌, ◌<◌, ℕ, List, ◌++◌, ◌∷◌, [], OnOk};
ghost use Rattle.bgp_attr.specs.declared.path.Segment.{Segment};
ghost use Rattle.bgp_attr.specs.declared.path.SegmentKind.{SegmentKind};

use super::{AsPath, MOST_WORDS, SegmentKind};
use crate::words::head_of;
use addr4::Memory;
use std::alloc::Global;
use std::marker::Model;

/// A path that is built segment by segment, and each segment number by number. Contracts see the segments so far, and how
/// many numbers the last one still lacks. After a want of memory, which a path of 2^32 words is as well, it is of no more use.
#[derive(Drop)]
pub struct PathBuilder {
    words: Vec<u32>,
}

impl Model for PathBuilder {
    ghost use Rattle.std.specs.Prelude.{◌<◌, ◌^◌, length};
    ghost use Rattle.bgp_attr.specs.Words.{Unfinished, segments_after, missing_after};

    ghost Value = { Unfinished };

    ghost view = { λ p. record { segments = segments_after 0 p.words.items; missing = missing_after 0 p.words.items } };

    ghost invariant = { λ p. length p.words.items < 2 ^ 32 };
}

impl PathBuilder {
    /// No segment yet; takes no memory.
    pub fn new(alloc: Global) -> PathBuilder
        ensures empty { result.segments ≡ [] }
        ensures complete { result.missing ≡ 0 }
    {
        PathBuilder {
            words: Vec::new(alloc),
        }
    }

    /// Begins a segment, and takes memory for so many numbers and no more.
    pub fn begin(&mut self, kind: SegmentKind, count: u8) -> Result<(), Memory>
        requires { self.old.missing ≡ 0 }
        ensures segments { OnOk result (self.new.segments ≡ self.old.segments ++ record { kind = kind; numbers = [] } ∷ []) }
        ensures missing { OnOk result (self.new.missing ≡ count) }
    {
        if self.words.len() >= MOST_WORDS {
            return Err(Memory);
        }
        self.words.reserve_exact(usize::from(count) + 1)?;
        self.words.push(head_of(kind, count))?;
        Ok(())
    }

    /// Puts a number at the end of the last segment.
    pub fn add(&mut self, asn: u32) -> Result<(), Memory>
        requires { 0 < self.old.missing }
        ensures segments { OnOk result ((front : List Segment) (kind : SegmentKind) (numbers : List ℕ)
            → self.old.segments ≡ front ++ record { kind = kind; numbers = numbers } ∷ []
            → self.new.segments ≡ front ++ record { kind = kind; numbers = numbers ++ asn ∷ [] } ∷ []) }
        ensures missing { OnOk result (self.new.missing + 1 ≡ self.old.missing) }
    {
        if self.words.len() >= MOST_WORDS {
            return Err(Memory);
        }
        self.words.push(asn)?;
        Ok(())
    }

    /// The path; takes no memory.
    pub fn finish(self) -> AsPath
        requires { self.missing ≡ 0 }
        ensures { result ≡ self.segments }
    {
        AsPath::from_words(self.words)
    }
}
