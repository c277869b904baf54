//! Text that is kept with octets among its characters: of these octets the hex digits are made when the text is read. Each
//! message begins with the same marker, of which nothing is kept; nor is what stands between two messages that are sent one behind
//! the other.

ghost use Rattle.std.specs.Prelude.{◌≡◌, ◌++◌, ◌∷◌, ◌-◌, [], OnOk, IfSome, codes, length};
ghost use Rattle.std.specs.Fmt.{decimal};
ghost use Rattle.hex.specs.Hex.{encode_lower};
ghost use Rattle.journal_text.specs.Kept.{IsAppended, IsWhole, chars, following, taken, unkept};
ghost use Rattle.journal_text.specs.Texts.{line_text, text_of, words_line};

use crate::front::Front;
use crate::line::Line;
use crate::lines::{is_entry, push_line, push_peer};
use addr4::{Addr, Memory, Prefix, Texts, push_hex};
use bgp_attr::SharedAttrs;
use std::alloc::Global;

/// What each message begins with: 16 octets of ones (RFC 4271, 4.1).
pub(crate) const MARKER: &[u8] = &[0xff; 16];

/// A message, of which the octets behind the marker are kept, and what stands in front of it.
#[derive(Clone, Copy)]
pub(crate) struct Span {
    /// What stands between the message before it, or the beginning of the text, and this one.
    pub(crate) front: Front,
    /// How many octets the message has behind its marker, up to 65,535.
    pub(crate) count: u16,
}

/// Text, with messages among its characters whose hex digits aren't made yet: their octets take half of the room, and their
/// markers none.
#[derive(Drop)]
pub(crate) struct Text {
    /// Characters and octets, one behind the other.
    pub(crate) content: Vec<u8>,
    /// Where the messages stand. Behind the last span there are characters alone.
    pub(crate) spans: Vec<Span>,
    /// How much of the content the spans take.
    end: usize,
}

/// The span of a message behind a front, and what is kept of its octets. None where they don't begin with the marker, or what is
/// behind it is 65,536 octets or more.
fn span_of<'a>(front: Front, octets: &'a [u8]) -> Option<(Span, &'a [u8])>
    ensures { IfSome result (λ found. (found.0.front ≡ front) × (found.0.count ≡ length found.1.now) × (octets.now ≡ MARKER.now ++ found.1.now)) }
{
    let kept = octets.strip_prefix(MARKER)?;
    let count = u16::try_from(kept.len()).ok()?;
    Some((Span { front, count }, kept))
}

/// The span of a message behind so many characters, and what is kept of its octets. None also where they are 65,536 or more.
fn span_behind<'a>(before: usize, octets: &'a [u8]) -> Option<(Span, &'a [u8])>
    ensures { IfSome result (λ found. (taken found.0.front ≡ before) × (unkept found.0.front ≡ []) × (found.0.count ≡ length found.1.now) × (octets.now ≡ MARKER.now ++ found.1.now)) }
{
    let before = u16::try_from(before).ok()?;
    span_of(Front::Characters(before), octets)
}

/// The span of an `out` to a peer where these characters stand behind the last message, and what is kept of its octets. None also
/// where they aren't the end of a line alone, or the peer's number is 256 or more.
fn span_next<'a>(behind: &[u8], peer: u32, octets: &'a [u8]) -> Option<(Span, &'a [u8])>
    ensures { IfSome result (λ found. (behind.now ≡ codes "\n") × (taken found.0.front ≡ 0) × (unkept found.0.front ≡ following peer) × (found.0.count ≡ length found.1.now) × (octets.now ≡ MARKER.now ++ found.1.now)) }
{
    if behind != b"\n".as_slice() {
        return None;
    }
    let peer = u8::try_from(peer).ok()?;
    span_of(Front::Out(peer), octets)
}

impl Text {
    /// No text; takes no memory.
    pub(crate) fn new(alloc: Global) -> Text
        ensures whole { IsWhole result }
        ensures none { chars result ≡ [] }
    {
        Text {
            content: Vec::new(alloc),
            spans: Vec::new(alloc),
            end: 0,
        }
    }

    /// Drops the text, and keeps its memory for the next one.
    pub(crate) fn clear(&mut self)
        ensures whole { IsWhole self.new }
        ensures none { chars self.new ≡ [] }
    {
        self.content.clear();
        self.spans.clear();
        self.end = 0;
    }

    /// Appends the message of a span, of which these octets stand behind the marker, and what isn't kept of its front.
    fn push_span(&mut self, span: Span, octets: &[u8]) -> Result<(), Memory>
        requires whole { IsWhole self.old }
        requires front { taken span.front ≡ length self.old.content.items - self.old.end }
        requires count { span.count ≡ length octets.now }
        ensures { OnOk result (IsAppended (unkept span.front ++ encode_lower (MARKER.now ++ octets.now)) self.old self.new) }
    {
        self.spans.push(span)?;
        self.content.extend_from_slice(octets)?;
        self.end = self.content.len();
        Ok(())
    }

    /// Appends the hex digits of octets.
    fn push_octets(&mut self, octets: &[u8]) -> Result<(), Memory>
        requires { IsWhole self.old }
        ensures { OnOk result (IsAppended (encode_lower octets.now) self.old self.new) }
    {
        match span_behind(self.content.len() - self.end, octets) {
            Some((span, kept)) => self.push_span(span, kept),
            None => push_hex(&mut self.content, octets),
        }
    }

    /// Appends a word, a peer's number and octets: `out K HEX`, `note K HEX`.
    fn push_message(&mut self, word: &[u8], peer: u32, octets: &[u8]) -> Result<(), Memory>
        requires { IsWhole self.old }
        ensures { OnOk result (IsAppended (words_line (word.now ∷ decimal peer ∷ encode_lower octets.now ∷ [])) self.old self.new) }
    {
        push_peer(&mut self.content, word, peer)?;
        self.push_octets(octets)?;
        self.content.push(b'\n')?;
        Ok(())
    }

    /// Appends `out K HEX`. Behind another message the front of the span stands for what is between them.
    fn push_out(&mut self, peer: u32, octets: &[u8]) -> Result<(), Memory>
        requires { IsWhole self.old }
        ensures { OnOk result (IsAppended (words_line (codes "out" ∷ decimal peer ∷ encode_lower octets.now ∷ [])) self.old self.new) }
    {
        match span_next(&self.content[self.end..], peer, octets) {
            Some((span, kept)) => {
                self.content.truncate(self.end);
                self.push_span(span, kept)?;
                self.content.push(b'\n')?;
                Ok(())
            }
            None => self.push_message(b"out", peer, octets),
        }
    }

    /// Appends the words of a line, and LF.
    #[tactic(auto, unfolding(crate::specs::Texts::line_text))]
    fn push_line<F: Texts>(
        &mut self,
        alloc: Global,
        line: &Line<SharedAttrs<F>, Addr<F>, Prefix<F>>,
    ) -> Result<(), Memory>
        requires { IsWhole self.old }
        ensures { OnOk result (IsAppended (line_text F.V6 line.now) self.old self.new) }
    {
        match line {
            Line::Out(peer, octets) => self.push_out(*peer, octets.as_slice()),
            Line::Note(peer, octets) => self.push_message(b"note", *peer, octets.as_slice()),
            line => push_line(alloc, &mut self.content, line),
        }
    }

    /// Appends the texts of lines, one after another; where it is quiet none of the journal's own.
    pub(crate) fn push_lines<F: Texts>(
        &mut self,
        alloc: Global,
        quiet: bool,
        lines: &[Line<SharedAttrs<F>, Addr<F>, Prefix<F>>],
    ) -> Result<(), Memory>
        requires { IsWhole self.old }
        ensures { OnOk result (IsAppended (text_of F.V6 quiet lines.now) self.old self.new) }
    {
        for line in lines {
            if !(quiet && is_entry(line)) {
                self.push_line(alloc, line)?;
            }
        }
        Ok(())
    }
}
