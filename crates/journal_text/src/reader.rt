//! Reading a text whose hex digits aren't made yet.

ghost use Rattle.std.specs.Prelude.{◌≡◌, ◌++◌, ◌*◌, ◌<◌, ◌≤◌, [], length, take};
ghost use Rattle.hex.specs.Hex.{encode_lower};
ghost use Rattle.journal_text.specs.Kept.{covered, kept_text};
ghost use Rattle.journal_text.specs.Reading.{left};

use crate::front::split_front;
use crate::kept::{MARKER, Span};
use std::cmp::min;
use std::marker::Model;

/// What is left to be read of a text. Its hex digits are made as they are read; that takes no memory.
#[derive(Drop)]
pub struct TextReader<'a> {
    /// What is read next, as it is.
    characters: &'a [u8],
    /// Octets of a message's marker (RFC 4271, 4.1), of which the hex digits follow.
    marker: &'a [u8],
    /// Octets of the message behind it, of which the hex digits follow.
    octets: &'a [u8],
    /// What stands behind them, as the spans say.
    content: &'a [u8],
    spans: &'a [Span],
}

impl<'a> Model for TextReader<'a> {
    ghost use Rattle.std.specs.Prelude.{ℕ, List};
    ghost use Rattle.journal_text.specs.Reading.{left, IsReading};

    ghost Value = { List ℕ };

    ghost view = { λ r. left r.characters.now r.marker.now r.octets.now r.spans.now r.content.now };

    ghost invariant = { λ r. IsReading r.characters.now r.marker.now r.octets.now r.spans.now r.content.now };
}

/// Copies a front of a text, and answers how much: as much as there is room for.
fn copy_front(room: &mut [u8], text: &[u8]) -> usize
    ensures within { result ≤ length text.now }
    ensures room { result ≤ length room.old }
    ensures same_room { length room.new ≡ length room.old }
    ensures front { take result room.new ≡ take result text.now }
    ensures some { 0 < length text.now → 0 < length room.old → 0 < result }
{
    let count = min(text.len(), room.len());
    room[..count].copy_from_slice(&text[..count]);
    count
}

/// Writes the hex digits of a front of octets, and answers of how many: of as many as there is room for.
fn write_digits(room: &mut [u8], octets: &[u8]) -> usize
    ensures within { result ≤ length octets.now }
    ensures room { 2 * result ≤ length room.old }
    ensures same_room { length room.new ≡ length room.old }
    ensures front { take (2 * result) room.new ≡ encode_lower (take result octets.now) }
    ensures some { 0 < length octets.now → 2 ≤ length room.old → 0 < result }
{
    let count = min(octets.len(), room.len() / 2);
    match hex::encode_to_slice(&octets[..count], &mut room[..2 * count]) {
        Ok(()) => count,
        Err(_) => 0,
    }
}

/// A reader of what spans say of a content.
pub(crate) fn read_spans<'a>(content: &'a [u8], spans: &'a [Span]) -> TextReader<'a>
    requires { covered spans.now ≤ length content.now }
    ensures { result ≡ kept_text spans.now content.now }
{
    match spans.split_first() {
        Some((span, spans)) => {
            let (characters, behind) = split_front(span.front, content);
            let (octets, content) = behind.split_at(span.count as usize);
            TextReader {
                characters,
                marker: MARKER,
                octets,
                content,
                spans,
            }
        }
        None => TextReader {
            characters: content,
            marker: b"",
            octets: b"",
            content: b"",
            spans,
        },
    }
}

/// A reader of characters, then the digits of a marker and of octets, and what spans say of a content behind them.
fn read_on<'a>(
    characters: &'a [u8],
    marker: &'a [u8],
    octets: &'a [u8],
    content: &'a [u8],
    spans: &'a [Span],
) -> TextReader<'a>
    requires { covered spans.now ≤ length content.now }
    ensures { result ≡ left characters.now marker.now octets.now spans.now content.now }
{
    if characters.is_empty() && marker.is_empty() && octets.is_empty() {
        return read_spans(content, spans);
    }
    TextReader {
        characters,
        marker,
        octets,
        content,
        spans,
    }
}

impl<'a> TextReader<'a> {
    /// Reads characters, or the digits of octets.
    fn read_part(&mut self, room: &mut [u8]) -> usize
        ensures within { result ≤ length room.old }
        ensures same_room { length room.new ≡ length room.old }
        ensures text { self.old ≡ take result room.new ++ self.new }
        ensures some { 2 ≤ length room.old → result ≡ 0 → self.old ≡ [] }
    {
        if !self.characters.is_empty() {
            let read = copy_front(room, self.characters);
            let (_, rest) = self.characters.split_at(read);
            *self = read_on(rest, self.marker, self.octets, self.content, self.spans);
            read
        } else if !self.marker.is_empty() {
            let read = write_digits(room, self.marker);
            let (_, rest) = self.marker.split_at(read);
            *self = read_on(b"", rest, self.octets, self.content, self.spans);
            2 * read
        } else {
            let read = write_digits(room, self.octets);
            let (_, rest) = self.octets.split_at(read);
            *self = read_on(b"", b"", rest, self.content, self.spans);
            2 * read
        }
    }

    /// Reads a front of what is left, and answers how much. It fills the room but for an octet.
    pub fn read(&mut self, room: &mut [u8]) -> usize
        ensures within { result ≤ length room.old }
        ensures same_room { length room.new ≡ length room.old }
        ensures text { self.old ≡ take result room.new ++ self.new }
        ensures some { 2 ≤ length room.old → result ≡ 0 → self.old ≡ [] }
    {
        let mut filled = 0;
        while room.len() - filled >= 2 {
            let read = self.read_part(&mut room[filled..]);
            if read == 0 {
                return filled;
            }
            filled += read;
        }
        filled
    }
}
