//! An AS put in front of a path.

ghost use Rattle.std.specs.Prelude.{◌≡◌, ◌+◌, ◌<◌, ℕ, ◌++◌, ◌∷◌, IfOk, OnOk, take, replicate};
ghost use Rattle.bgp_attr.specs.declared.path.SegmentKind.TheVariants.{Sequence};
ghost use Rattle.bgp_attr.specs.Paths.{in_front, times_in_front};
ghost use Rattle.bgp_attr.specs.Words.{head_of, segments_after, missing_after};

use super::{AsPath, MOST, MOST_WORDS, SegmentKind};
use crate::words::{count_in, head_of, kind_in};
use addr4::Memory;

/// Where an AS put in front stands: before how many numbers of its segment, and the words from these on. They are those of a
/// leading AS_SEQUENCE with room for one more AS in the one octet of its count; else there are none, and all words follow.
fn leading(words: &[u32]) -> (u8, &[u32])
    requires { missing_after 0 words.now ≡ 0 }
    ensures few { result.0 < 255 }
    ensures joined { (asn : ℕ) → in_front asn (segments_after 0 words.now) ≡ record { kind = Sequence; numbers = asn ∷ take result.0 result.1.now } ∷ segments_after result.0 result.1.now }
    ensures complete { missing_after result.0 result.1.now ≡ 0 }
{
    if let [head, behind @ ..] = words {
        let count = count_in(*head);
        if kind_in(*head) == SegmentKind::Sequence && count < usize::from(MOST) {
            return (count as u8, behind);
        }
    }
    (0, words)
}

/// The first words of an AS_SEQUENCE of so many numbers: the AS, so many times.
fn push_repeated(words: &mut Vec<u32>, count: u8, times: u8, asn: u32) -> Result<(), Memory>
    ensures { OnOk result (words.new.items ≡ words.old.items ++ head_of Sequence count ∷ replicate times asn) }
{
    words.push(head_of(SegmentKind::Sequence, count))?;
    for turn in 0..times {
        words.push(asn)?;
    }
    Ok(())
}

impl AsPath {
    /// A path with the AS put in front once and `prepend` times more, as a speaker does before it sends a route to an
    /// external peer (RFC 4271, section 5.1.2 b). This path stays as it is. Memory also where 2^32 words wouldn't do.
    pub fn prepended(&self, asn: u32, prepend: u8) -> Result<AsPath, Memory>
        ensures { IfOk result (λ path. path ≡ times_in_front (1 + prepend) asn self.now) }
    {
        let words = self.prepended_words(asn, prepend)?;
        if words.len() > MOST_WORDS {
            return Err(Memory);
        }
        Ok(AsPath::from_words(words))
    }

    /// The words of [`AsPath::prepended`].
    fn prepended_words(&self, asn: u32, prepend: u8) -> Result<Vec<u32>, Memory>
        ensures path { IfOk result (λ words. segments_after 0 words.items ≡ times_in_front (1 + prepend) asn self.now) }
        ensures complete { IfOk result (λ words. missing_after 0 words.items ≡ 0) }
    {
        let (kept, behind) = leading(self.words.as_slice());
        let times = u16::from(prepend) + 1;
        let joining = times.min(u16::from(MOST - kept));
        let others = times - joining;
        let heads = if others > 0 { 2 } else { 1 };
        let size = heads + usize::from(times) + behind.len();
        let mut words = Vec::with_capacity(*self.words.allocator(), size)?;
        if others > 0 {
            push_repeated(&mut words, others as u8, others as u8, asn)?;
        }
        push_repeated(&mut words, kept + joining as u8, joining as u8, asn)?;
        words.extend_from_slice(behind)?;
        Ok(words)
    }
}
