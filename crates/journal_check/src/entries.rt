//! The entries of a journal's lines.

ghost use Rattle.std.specs.Prelude.{◌≡◌, IfOk, option_map};
ghost use Rattle.journal_text.specs.declared.entry.Entry.TheVariants as entries;
ghost use Rattle.journal_check.specs.Readings.{answer_of, as_of, entry_of_five, entry_of_four, entry_of_three, entry_of_two, entry_on_both, entry_on_one, entry_on_row, entry_on_two, same_family, value_of};

use crate::prefixes::printed_prefix_in;
use crate::text::Text;
use addr4::{Memory, Prefix};
use addr6::V6;
use journal_text::{Entry, Link};
use std::alloc::Global;
use std::marker::Model;

/// An entry, and whether its network is IPv6's. Prefixes of both families are kept as those of 128 bits, in front of which
/// stand IPv4's.
#[derive(Drop)]
pub(crate) struct FamilyEntry {
    pub(crate) v6: bool,
    pub(crate) entry: Entry<Text, Prefix<V6>>,
}

impl Model for FamilyEntry {
    ghost use Rattle.journal_check.specs.Entries.{FamilyEntry};

    ghost Value = { FamilyEntry };

    ghost view = { λ e. record { v6 = e.v6; entry = e.entry } };
}

// The entry, as one of the family.
fn as_of(v6: bool, entry: Option<Entry<Text, Prefix<V6>>>) -> Option<FamilyEntry>
    ensures { result ≡ as_of v6 entry }
{
    let entry = entry?;
    Some(FamilyEntry { v6, entry })
}

// A value: any word but `-`.
#[tactic(auto, unfolding(crate::specs::Readings::value_of))]
fn value(alloc: Global, word: &[u8]) -> Result<Option<Text>, Memory>
    ensures { IfOk result (λ r. r ≡ value_of word.now) }
{
    if word.is_empty() || word == b"-".as_slice() {
        return Ok(None);
    }
    Ok(Some(Text::of(alloc, word)?))
}

// The answer of a lookup.
#[tactic(auto, unfolding(crate::specs::Readings::answer_of))]
fn answer(alloc: Global, word: &[u8]) -> Result<Option<Option<Text>>, Memory>
    ensures { IfOk result (λ r. r ≡ answer_of word.now) }
{
    if word == b"-".as_slice() {
        return Ok(Some(None));
    }
    match value(alloc, word)? {
        None => Ok(None),
        Some(text) => Ok(Some(Some(text))),
    }
}

// What is said of one link.
#[tactic(auto, unfolding(crate::specs::Readings::entry_on_one))]
fn entry_on_one(command: &[u8], link: Link) -> Option<Entry<Text, Prefix<V6>>>
    ensures { result ≡ entry_on_one command.now link }
{
    if command == b"b".as_slice() {
        Some(Entry::Begin(link))
    } else if command == b"e".as_slice() {
        Some(Entry::End(link))
    } else {
        None
    }
}

/// `b LINK`, `e LINK`.
#[tactic(auto, unfolding(crate::specs::Readings::entry_of_two))]
pub(crate) fn entry_of_two(command: &[u8], link: &[u8]) -> Option<FamilyEntry>
    ensures { result ≡ entry_of_two command.now link.now }
{
    let (v6, link) = Link::read_in(link)?;
    as_of(v6, entry_on_one(command, link))
}

fn is_same_family(v6: bool, other: bool) -> bool
    ensures { result ≡ same_family v6 other }
{
    if v6 { other } else { !other }
}

/// `i LINK FROM`, `w UPPER LOWER`, of links of one family.
#[tactic(auto, unfolding(crate::specs::Readings::entry_of_three))]
pub(crate) fn entry_of_three(command: &[u8], link: &[u8], other: &[u8]) -> Option<FamilyEntry>
    ensures { result ≡ entry_of_three command.now link.now other.now }
{
    let (v6, link) = Link::read_in(link)?;
    let (other_v6, other) = Link::read_in(other)?;
    if !is_same_family(v6, other_v6) {
        return None;
    }
    as_of(v6, entry_on_two(command, link, other))
}

// What is said of two links.
#[tactic(auto, unfolding(crate::specs::Readings::entry_on_two))]
fn entry_on_two(command: &[u8], link: Link, other: Link) -> Option<Entry<Text, Prefix<V6>>>
    ensures { result ≡ entry_on_two command.now link other }
{
    if command == b"i".as_slice() {
        Some(Entry::Inherit(link, other))
    } else if command == b"w".as_slice() {
        Some(Entry::Weld(link, other))
    } else {
        None
    }
}

/// `+ LINK PREFIX NEW`, `- LINK PREFIX OLD`, `? LINK PREFIX VALUE`, of a prefix of the link's family.
#[tactic(auto, unfolding(crate::specs::Readings::entry_of_four))]
pub(crate) fn entry_of_four(
    alloc: Global,
    command: &[u8],
    link: &[u8],
    prefix: &[u8],
    value: &[u8],
) -> Result<Option<FamilyEntry>, Memory>
    ensures { IfOk result (λ r. r ≡ entry_of_four command.now link.now prefix.now value.now) }
{
    let Some((v6, link)) = Link::read_in(link) else {
        return Ok(None);
    };
    let Some(p) = printed_prefix_in(alloc, v6, prefix)? else {
        return Ok(None);
    };
    let entry = entry_on_row(alloc, command, link, p, value)?;
    Ok(as_of(v6, entry))
}

// What is said of a row.
#[tactic(auto, unfolding(crate::specs::Readings::entry_on_row))]
fn entry_on_row(
    alloc: Global,
    command: &[u8],
    link: Link,
    p: Prefix<V6>,
    word: &[u8],
) -> Result<Option<Entry<Text, Prefix<V6>>>, Memory>
    ensures { IfOk result (λ r. r ≡ entry_on_row command.now link p word.now) }
{
    if command == b"+".as_slice() {
        entry_on_new(alloc, link, p, word)
    } else if command == b"-".as_slice() {
        entry_on_old(alloc, link, p, word)
    } else if command == b"?".as_slice() {
        entry_on_answer(alloc, link, p, word)
    } else {
        Ok(None)
    }
}

// A row is added, if the word is a value.
fn entry_on_new(
    alloc: Global,
    link: Link,
    p: Prefix<V6>,
    word: &[u8],
) -> Result<Option<Entry<Text, Prefix<V6>>>, Memory>
    ensures { IfOk result (λ r. r ≡ option_map (λ new. entries.Add link p new) (value_of word.now)) }
{
    match value(alloc, word)? {
        None => Ok(None),
        Some(new) => Ok(Some(Entry::Add(link, p, new))),
    }
}

// A row is deleted, if the word is a value.
fn entry_on_old(
    alloc: Global,
    link: Link,
    p: Prefix<V6>,
    word: &[u8],
) -> Result<Option<Entry<Text, Prefix<V6>>>, Memory>
    ensures { IfOk result (λ r. r ≡ option_map (λ old. entries.Delete link p old) (value_of word.now)) }
{
    match value(alloc, word)? {
        None => Ok(None),
        Some(old) => Ok(Some(Entry::Delete(link, p, old))),
    }
}

// A lookup is answered, if the word is an answer.
fn entry_on_answer(
    alloc: Global,
    link: Link,
    p: Prefix<V6>,
    word: &[u8],
) -> Result<Option<Entry<Text, Prefix<V6>>>, Memory>
    ensures { IfOk result (λ r. r ≡ option_map (λ row. entries.Asked link p row) (answer_of word.now)) }
{
    match answer(alloc, word)? {
        None => Ok(None),
        Some(row) => Ok(Some(Entry::Asked(link, p, row))),
    }
}

/// `= LINK PREFIX OLD NEW`, likewise.
#[tactic(auto, unfolding(crate::specs::Readings::entry_of_five))]
pub(crate) fn entry_of_five(
    alloc: Global,
    command: &[u8],
    link: &[u8],
    prefix: &[u8],
    old: &[u8],
    new: &[u8],
) -> Result<Option<FamilyEntry>, Memory>
    ensures { IfOk result (λ r. r ≡ entry_of_five command.now link.now prefix.now old.now new.now) }
{
    if command != b"=".as_slice() {
        return Ok(None);
    }
    let Some((v6, link)) = Link::read_in(link) else {
        return Ok(None);
    };
    let Some(p) = printed_prefix_in(alloc, v6, prefix)? else {
        return Ok(None);
    };
    let entry = entry_on_both(alloc, link, p, old, new)?;
    Ok(as_of(v6, entry))
}

// A row takes another's place, if both words are values.
fn entry_on_both(
    alloc: Global,
    link: Link,
    p: Prefix<V6>,
    old: &[u8],
    new: &[u8],
) -> Result<Option<Entry<Text, Prefix<V6>>>, Memory>
    ensures { IfOk result (λ r. r ≡ entry_on_both link p old.now new.now) }
{
    let Some(old) = value(alloc, old)? else {
        return Ok(None);
    };
    match value(alloc, new)? {
        None => Ok(None),
        Some(new) => Ok(Some(Entry::Replace(link, p, old, new))),
    }
}
