//! Reading a line of a journal.

ghost use Rattle.std.specs.Prelude.{◌≡◌, IfOk};
ghost use Rattle.addr4.specs.Texts.{parts};
ghost use Rattle.journal_check.specs.Readings.{entry_from, is_clean, is_skipped, reading_of};

use crate::entries::{FamilyEntry, entry_of_five, entry_of_four, entry_of_three, entry_of_two};
use addr4::{Memory, all_printable, first_part};
use std::alloc::Global;

/// What a line of a journal says.
#[derive(Drop)]
pub(crate) enum Reading {
    /// Nothing about links.
    Skipped,
    Read(FamilyEntry),
    /// It isn't a line of a journal.
    NotALine,
}

// At most 65,536 bytes, all printable ASCII.
#[tactic(auto, unfolding(crate::specs::Readings::is_clean))]
fn is_clean(line: &[u8]) -> bool
    ensures { result ≡ is_clean line.now }
{
    line.len() <= 65536 && all_printable(line)
}

// Whether a line with this first word is no entry.
#[tactic(auto, unfolding(crate::specs::Readings::is_skipped))]
fn is_skipped(word: &[u8]) -> bool
    ensures { result ≡ is_skipped word.now }
{
    word == b"out".as_slice()
        || word == b"note".as_slice()
        || word == b"row".as_slice()
        || word == b"rows".as_slice()
        || word == b"cover".as_slice()
        || word == b"settled".as_slice()
        || word == b"work".as_slice()
        || word == b"bound".as_slice()
        || word == b"idle".as_slice()
        || word == b"ignored".as_slice()
        || word == b"absent".as_slice()
        || word == b"refused".as_slice()
        || word == b"total".as_slice()
}

// The entry of the words of a line.
#[tactic(auto, using(crate::proofs::WordLemmas::no_sixth_word), unfolding(crate::specs::Readings::entry_from))]
fn entry(alloc: Global, line: &[u8]) -> Result<Option<FamilyEntry>, Memory>
    ensures { IfOk result (λ r. r ≡ entry_from (parts 32 line.now)) }
{
    let (command, rest) = first_part(line, b' ');
    let Some(rest) = rest else {
        return Ok(None);
    };
    let (link, rest) = first_part(rest, b' ');
    let Some(rest) = rest else {
        return Ok(entry_of_two(command, link));
    };
    let (prefix, rest) = first_part(rest, b' ');
    let Some(rest) = rest else {
        return Ok(entry_of_three(command, link, prefix));
    };
    let (old, rest) = first_part(rest, b' ');
    let Some(rest) = rest else {
        return entry_of_four(alloc, command, link, prefix, old);
    };
    let (new, more) = first_part(rest, b' ');
    if let Some(_more) = more {
        return Ok(None);
    }
    entry_of_five(alloc, command, link, prefix, old, new)
}

/// What a line says.
#[tactic(auto, unfolding(crate::specs::Readings::reading_of))]
pub(crate) fn read_line(alloc: Global, line: &[u8]) -> Result<Reading, Memory>
    ensures { IfOk result (λ r. r ≡ reading_of line.now) }
{
    if !is_clean(line) {
        return Ok(Reading::NotALine);
    }
    let (word, _rest) = first_part(line, b' ');
    if is_skipped(word) {
        return Ok(Reading::Skipped);
    }
    match entry(alloc, line)? {
        None => Ok(Reading::NotALine),
        Some(entry) => Ok(Reading::Read(entry)),
    }
}
