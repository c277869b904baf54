//! Reading a line of an event file, and whether the event may stand there.

ghost use Rattle.std.specs.Prelude.{◌≡◌, IfOk};
ghost use Rattle.policy_rules.specs.Words.{words};
ghost use Rattle.event_text.specs.FileEvents.{worded_event, second_named, local6_of, second_of, read_file, begin_refusal, second_refusal, file_refusal, IsWellSaid};

use crate::asking::{ask, cover, settled, show, work};
use crate::declared::Declared;
use crate::event::{EventOf, FileEvent};
use crate::grammar::event;
use crate::refusals::admit;
use crate::routes::{filter, lost, redist, route};
use crate::words::{host6, is_clean, is_end};
use addr4::Memory;
use addr6::V6;
use bgp_attr::Profile;
use journal_text::Code;
use policy_rules::first_word;
use std::alloc::Global;

/// What a line of an event file says, as [`crate::parse`], also where it has words of IPv6. A line that both families' words
/// allow is one without such words: IPv4's network, or both, are told it.
#[tactic(auto, unfolding(crate::specs::FileEvents::read_file))]
pub fn parse_file(
    alloc: Global,
    profile: Profile,
    line: &[u8],
) -> Result<Result<FileEvent, Code>, Memory>
    ensures value { IfOk result (λ event. event ≡ read_file profile line.now) }
    ensures words { IfOk result (λ event. IfOk event (IsWellSaid profile)) }
{
    if !is_clean(line) {
        return Ok(Err(Code::E1));
    }
    if let Some(event) = event(alloc, profile, line)? {
        return Ok(Ok(FileEvent::First(event)));
    }
    match second(alloc, profile, line)? {
        Some(event) => Ok(Ok(event)),
        None => Ok(Err(Code::E2)),
    }
}

/// A line of IPv6's network.
#[tactic(auto, unfolding(crate::specs::FileEvents::second_of))]
#[inline(never)]
fn second(alloc: Global, profile: Profile, line: &[u8]) -> Result<Option<FileEvent>, Memory>
    ensures { IfOk result (λ event. event ≡ second_of profile (words line.now)) }
{
    let Some((word, rest)) = first_word(line) else {
        return Ok(None);
    };
    if word == b"local6".as_slice() {
        return Ok(local6(rest));
    }
    match second_named(alloc, profile, word, rest)? {
        Some(event) => Ok(Some(FileEvent::Second(event))),
        None => Ok(None),
    }
}

/// What follows `local6`.
#[tactic(auto, using(crate::proofs::WordLemmas::no_word_behind_addr6), unfolding(crate::specs::FileEvents::local6_of))]
fn local6(rest: &[u8]) -> Option<FileEvent>
    ensures { result ≡ local6_of (words rest.now) }
{
    let (addr, rest) = first_word(rest)?;
    if !is_end(rest) {
        return None;
    }
    let addr = host6(addr)?;
    Some(FileEvent::Local6(addr))
}

/// An event of IPv6's network alone, by its first word and the others.
#[tactic(auto, unfolding(crate::specs::FileEvents::second_named))]
fn second_named(
    alloc: Global,
    profile: Profile,
    word: &[u8],
    rest: &[u8],
) -> Result<Option<EventOf<V6>>, Memory>
    ensures { IfOk result (λ event. event ≡ second_named profile word.now (words rest.now)) }
{
    if word == b"filter6".as_slice() {
        return filter::<V6>(alloc, profile, rest);
    }
    if word == b"lost6".as_slice() {
        return Ok(lost::<V6>(rest));
    }
    if word == b"redist6".as_slice() {
        return Ok(redist::<V6>(rest));
    }
    Ok(worded_event(word, rest))
}

/// An event that both networks have, by words of IPv6.
#[tactic(auto, unfolding(crate::specs::FileEvents::worded_event))]
fn worded_event(word: &[u8], rest: &[u8]) -> Option<EventOf<V6>>
    ensures { result ≡ worded_event word.now (words rest.now) }
{
    if word == b"route".as_slice() {
        return route::<V6>(rest);
    }
    if word == b"cover".as_slice() {
        return cover::<V6>(rest);
    }
    if word == b"settled".as_slice() {
        return settled::<V6>(rest);
    }
    if word == b"work".as_slice() {
        return work::<V6>(rest);
    }
    if word == b"ask".as_slice() {
        return ask::<V6>(rest);
    }
    if word == b"show".as_slice() {
        return show::<V6>(rest);
    }
    None
}

/// Why `local6` may not stand here.
fn begin_refusal(declared: &Declared) -> Option<Code>
    ensures { result ≡ begin_refusal declared.now }
{
    if declared.speaker().is_none() {
        return Some(Code::E4);
    }
    if declared.profile().v6 || !declared.peers().is_empty() {
        return Some(Code::E7);
    }
    None
}

/// Why an event of IPv6's network alone may not stand here.
fn second_refusal(declared: &Declared, event: &EventOf<V6>) -> Option<Code>
    ensures { result ≡ second_refusal declared.now event.now }
{
    if declared.speaker().is_none() {
        return Some(Code::E4);
    }
    if !declared.profile().v6 {
        return Some(Code::E9);
    }
    admit(event, declared)
}

/// Why the event may not stand here, by what IPv4's network knows of what was declared: as [`admit`], and of IPv6's words
/// before `local` (E4), `local6` twice or behind a peer (E7), others without it (E9). None where it may.
#[tactic(auto, unfolding(crate::specs::FileEvents::file_refusal))]
pub fn admit_file(event: &FileEvent, declared: &Declared) -> Option<Code>
    ensures { result ≡ file_refusal declared.now event.now }
{
    match event {
        FileEvent::First(event) => admit(event, declared),
        FileEvent::Local6(_) => begin_refusal(declared),
        FileEvent::Second(event) => second_refusal(declared, event),
    }
}
