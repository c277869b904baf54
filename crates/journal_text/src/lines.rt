//! The texts of lines.

ghost use Rattle.std.specs.Prelude.{◌≡◌, ◌++◌, ◌∷◌, [], OnOk, codes};
ghost use Rattle.std.specs.Fmt.{decimal};
ghost use Rattle.hex.specs.Hex.{encode_lower};
ghost use Rattle.addr4.specs.Texts.{prefix_text};
ghost use Rattle.journal_text.specs.Texts.{answer_text, entry_words, is_entry, line_text, link_text, value_text, words_line};

use crate::answers::{push_cover, push_refused, push_settled};
use crate::entry::Entry;
use crate::line::Line;
use crate::link::Link;
use crate::names::push_link;
use crate::texts::{push_answer, push_text, push_value, push_wide};
use crate::value::Value;
use addr4::{Addr, Memory, Prefix, Texts, push_hex, push_number, push_prefix};
use bgp_attr::SharedAttrs;
use std::alloc::Global;

/// A word, a space, and a link.
fn push_named<F: Texts>(out: &mut Vec<u8>, word: &[u8], link: Link) -> Result<(), Memory>
    ensures { OnOk result (out.new.items ≡ out.old.items ++ (word.now ++ 32 ∷ link_text F.V6 link)) }
{
    push_text(out, word)?;
    out.push(b' ')?;
    push_link::<F>(out, link)
}

/// A word and a link: `b LINK`, `e LINK`.
fn push_one<F: Texts>(out: &mut Vec<u8>, word: &[u8], link: Link) -> Result<(), Memory>
    ensures { OnOk result (out.new.items ≡ out.old.items ++ words_line (word.now ∷ link_text F.V6 link ∷ [])) }
{
    push_named::<F>(out, word, link)?;
    out.push(b'\n')?;
    Ok(())
}

/// A word and two links: `i LINK FROM`, `w UPPER LOWER`.
fn push_both<F: Texts>(
    out: &mut Vec<u8>,
    word: &[u8],
    link: Link,
    other: Link,
) -> Result<(), Memory>
    ensures { OnOk result (out.new.items ≡ out.old.items ++ words_line (word.now ∷ link_text F.V6 link ∷ link_text F.V6 other ∷ [])) }
{
    push_named::<F>(out, word, link)?;
    out.push(b' ')?;
    push_link::<F>(out, other)?;
    out.push(b'\n')?;
    Ok(())
}

/// A word, a link and a prefix, with a space after each.
fn push_head<F: Texts>(
    out: &mut Vec<u8>,
    word: &[u8],
    link: Link,
    prefix: Prefix<F>,
) -> Result<(), Memory>
    ensures { OnOk result (out.new.items ≡ out.old.items ++ (word.now ++ 32 ∷ link_text F.V6 link ++ 32 ∷ prefix_text F.V6 prefix ++ 32 ∷ [])) }
{
    push_named::<F>(out, word, link)?;
    out.push(b' ')?;
    push_prefix(out, prefix)?;
    out.push(b' ')?;
    Ok(())
}

/// A word, a link, a prefix and a value: `+ LINK PREFIX NEW`, `- LINK PREFIX OLD`, `row LINK PREFIX VALUE`.
fn push_row<F: Texts>(
    out: &mut Vec<u8>,
    word: &[u8],
    link: Link,
    prefix: Prefix<F>,
    value: &Value<SharedAttrs<F>, Addr<F>>,
) -> Result<(), Memory>
    ensures { OnOk result (out.new.items ≡ out.old.items ++ words_line (word.now ∷ link_text F.V6 link ∷ prefix_text F.V6 prefix ∷ value_text F.V6 value.now ∷ [])) }
{
    push_head(out, word, link, prefix)?;
    push_value(out, value)?;
    out.push(b'\n')?;
    Ok(())
}

/// `= LINK PREFIX OLD NEW`
fn push_replace<F: Texts>(
    out: &mut Vec<u8>,
    link: Link,
    prefix: Prefix<F>,
    old: &Value<SharedAttrs<F>, Addr<F>>,
    new: &Value<SharedAttrs<F>, Addr<F>>,
) -> Result<(), Memory>
    ensures { OnOk result (out.new.items ≡ out.old.items ++ words_line (codes "=" ∷ link_text F.V6 link ∷ prefix_text F.V6 prefix ∷ value_text F.V6 old.now ∷ value_text F.V6 new.now ∷ [])) }
{
    push_head(out, b"=", link, prefix)?;
    push_value(out, old)?;
    out.push(b' ')?;
    push_value(out, new)?;
    out.push(b'\n')?;
    Ok(())
}

/// `? LINK PREFIX VALUE`
fn push_asked<F: Texts>(
    out: &mut Vec<u8>,
    link: Link,
    prefix: Prefix<F>,
    row: &Option<Value<SharedAttrs<F>, Addr<F>>>,
) -> Result<(), Memory>
    ensures { OnOk result (out.new.items ≡ out.old.items ++ words_line (codes "?" ∷ link_text F.V6 link ∷ prefix_text F.V6 prefix ∷ answer_text F.V6 row.now ∷ [])) }
{
    push_head(out, b"?", link, prefix)?;
    push_answer(out, row)?;
    out.push(b'\n')?;
    Ok(())
}

#[tactic(auto, unfolding(crate::specs::Texts::entry_words))]
fn push_entry<F: Texts>(
    out: &mut Vec<u8>,
    entry: &Entry<Value<SharedAttrs<F>, Addr<F>>, Prefix<F>>,
) -> Result<(), Memory>
    ensures { OnOk result (out.new.items ≡ out.old.items ++ words_line (entry_words F.V6 entry.now)) }
{
    match entry {
        Entry::Begin(link) => push_one::<F>(out, b"b", *link),
        Entry::Inherit(link, from) => push_both::<F>(out, b"i", *link, *from),
        Entry::Add(link, prefix, new) => push_row(out, b"+", *link, *prefix, new),
        Entry::Delete(link, prefix, old) => push_row(out, b"-", *link, *prefix, old),
        Entry::Replace(link, prefix, old, new) => { push_replace(out, *link, *prefix, old, new) }
        Entry::Asked(link, prefix, row) => push_asked(out, *link, *prefix, row),
        Entry::Weld(upper, lower) => push_both::<F>(out, b"w", *upper, *lower),
        Entry::End(link) => push_one::<F>(out, b"e", *link),
    }
}

/// A word and a count: `work M`, `bound B`, `idle M`.
fn push_count(alloc: Global, out: &mut Vec<u8>, word: &[u8], count: u128) -> Result<(), Memory>
    ensures { OnOk result (out.new.items ≡ out.old.items ++ words_line (word.now ∷ decimal count ∷ [])) }
{
    push_text(out, word)?;
    out.push(b' ')?;
    push_wide(alloc, out, count)?;
    out.push(b'\n')?;
    Ok(())
}

/// A word and a peer's number, with a space after each.
pub(crate) fn push_peer(out: &mut Vec<u8>, word: &[u8], peer: u32) -> Result<(), Memory>
    ensures { OnOk result (out.new.items ≡ out.old.items ++ (word.now ++ 32 ∷ decimal peer ++ 32 ∷ [])) }
{
    push_text(out, word)?;
    out.push(b' ')?;
    push_number(out, u64::from(peer))?;
    out.push(b' ')?;
    Ok(())
}

/// A word, a peer's number and octets: `out K HEX`, `note K HEX`.
fn push_message(out: &mut Vec<u8>, word: &[u8], peer: u32, octets: &[u8]) -> Result<(), Memory>
    ensures { OnOk result (out.new.items ≡ out.old.items ++ words_line (word.now ∷ decimal peer ∷ encode_lower octets.now ∷ [])) }
{
    push_peer(out, word, peer)?;
    push_hex(out, octets)?;
    out.push(b'\n')?;
    Ok(())
}

/// `rows LINK COUNT`
fn push_rows<F: Texts>(
    alloc: Global,
    out: &mut Vec<u8>,
    link: Link,
    count: u128,
) -> Result<(), Memory>
    ensures { OnOk result (out.new.items ≡ out.old.items ++ words_line (codes "rows" ∷ link_text F.V6 link ∷ decimal count ∷ [])) }
{
    push_named::<F>(out, b"rows", link)?;
    out.push(b' ')?;
    push_wide(alloc, out, count)?;
    out.push(b'\n')?;
    Ok(())
}

/// Appends the words of a line of the family's network, and LF.
#[tactic(auto, unfolding(crate::specs::Texts::line_text))]
pub fn push_line<F: Texts>(
    alloc: Global,
    out: &mut Vec<u8>,
    line: &Line<SharedAttrs<F>, Addr<F>, Prefix<F>>,
) -> Result<(), Memory>
    ensures { OnOk result (out.new.items ≡ out.old.items ++ line_text F.V6 line.now) }
{
    match line {
        Line::Journal(entry) => push_entry(out, entry),
        Line::Out(peer, octets) => push_message(out, b"out", *peer, octets.as_slice()),
        Line::Note(peer, octets) => push_message(out, b"note", *peer, octets.as_slice()),
        Line::Row(link, prefix, value) => push_row(out, b"row", *link, *prefix, value),
        Line::Rows(link, count) => push_rows::<F>(alloc, out, *link, *count),
        Line::Cover(addr, found, subnet) => push_cover(out, *addr, *found, *subnet),
        Line::Settled(prefix, held) => push_settled(out, *prefix, *held),
        Line::Work(turns) => push_count(alloc, out, b"work", *turns),
        Line::Bound(turns) => push_count(alloc, out, b"bound", *turns),
        Line::Idle(turns) => push_count(alloc, out, b"idle", *turns),
        Line::Ignored => push_text(out, b"ignored\n"),
        Line::Absent => push_text(out, b"absent\n"),
        Line::Refused(number, code) => push_refused(out, *number, *code),
    }
}

/// Whether a line is one of the journal.
pub(crate) fn is_entry<F: Texts>(line: &Line<SharedAttrs<F>, Addr<F>, Prefix<F>>) -> bool
    ensures { result ≡ is_entry line.now }
{
    matches!(line, Line::Journal(_))
}
