//! Reading a line of the event language that has no word of IPv6.

ghost use Rattle.std.specs.Prelude.{◌≡◌, IfOk, false};
ghost use Rattle.policy_rules.specs.Words.{words};
ghost use Rattle.event_text.specs.Events.{local_of, peer_of, one_number, bgp_of, profile_event, interior_event, plain_event, named_event, event_of, read_event};
ghost use Rattle.event_text.specs.WellFormed.{IsWellFormed};

use crate::asking::{ask, cover, settled, show, work};
use crate::event::{Event, WholeFile};
use crate::routes::{filter, lost, redist, route};
use crate::words::{client, from_one, is_clean, is_end, octets, speaker, speaker_by};
use addr4::{Memory, V4};
use bgp_attr::Profile;
use journal_text::Code;
use policy_rules::first_word;
use std::alloc::Global;

/// What a line says, without its end of line; or the code with which it is refused. E1 where it has more than 16,384 bytes
/// or a byte that isn't printable ASCII (32 to 126), E2 where the grammar has no such line. Words stand between spaces, one
/// or more; spaces may also stand at the start and the end. The profile tells which numbers an AS may have, and whether a peer
/// may be a client. Memory is taken for the octets of `bgp` and the rules of `filter` only.
#[tactic(auto, unfolding(crate::specs::Events::read_event))]
pub fn parse(alloc: Global, profile: Profile, line: &[u8]) -> Result<Result<Event, Code>, Memory>
    ensures value { IfOk result (λ event. event ≡ read_event profile line.now) }
    ensures words { IfOk result (λ event. IfOk event (IsWellFormed false profile)) }
{
    if !is_clean(line) {
        return Ok(Err(Code::E1));
    }
    match event(alloc, profile, line)? {
        Some(event) => Ok(Ok(event)),
        None => Ok(Err(Code::E2)),
    }
}

/// A line without words, a comment, or an event.
#[tactic(auto, unfolding(crate::specs::Events::event_of))]
pub(crate) fn event(alloc: Global, profile: Profile, line: &[u8]) -> Result<Option<Event>, Memory>
    ensures { IfOk result (λ event. event ≡ event_of profile (words line.now)) }
{
    let Some((word, rest)) = first_word(line) else {
        return Ok(Some(Event::Nothing));
    };
    if word.starts_with(b"#") {
        return Ok(Some(Event::Nothing));
    }
    named_event(alloc, profile, word, rest)
}

/// An event by its first word and the others.
#[tactic(auto, unfolding(crate::specs::Events::named_event))]
fn named_event(
    alloc: Global,
    profile: Profile,
    word: &[u8],
    rest: &[u8],
) -> Result<Option<Event>, Memory>
    ensures { IfOk result (λ event. event ≡ named_event profile word.now (words rest.now)) }
{
    if word == b"local".as_slice() {
        return Ok(local(profile, rest));
    }
    if word == b"peer".as_slice() {
        return Ok(peer(profile, rest));
    }
    if word == b"bgp".as_slice() {
        return bgp(alloc, rest);
    }
    if word == b"filter".as_slice() {
        return filter::<V4>(alloc, profile, rest);
    }
    Ok(plain_event(word, rest))
}

/// What follows `local`.
#[tactic(auto, unfolding(crate::specs::Events::local_of))]
#[inline(never)]
fn local(profile: Profile, rest: &[u8]) -> Option<Event>
    ensures { result ≡ local_of profile.as4 (words rest.now) }
{
    let words = speaker(profile, rest)?;
    Some(Event::Local(words))
}

/// What follows `peer`.
#[tactic(auto, unfolding(crate::specs::Events::peer_of))]
#[inline(never)]
fn peer(profile: Profile, rest: &[u8]) -> Option<Event>
    ensures { result ≡ peer_of profile (words rest.now) }
{
    let (number, rest) = first_word(rest)?;
    let (asn, rest) = first_word(rest)?;
    let (id, rest) = first_word(rest)?;
    let (addr, rest) = first_word(rest)?;
    let number = from_one(number)?;
    let words = speaker_by(profile, asn, id, addr)?;
    let client = client(profile, rest)?;
    Some(Event::Peer(number, words, client))
}

/// What follows `bgp`.
#[tactic(auto, using(crate::proofs::WordLemmas::no_word_behind_octets), unfolding(crate::specs::Events::bgp_of))]
#[inline(never)]
fn bgp(alloc: Global, rest: &[u8]) -> Result<Option<Event>, Memory>
    ensures { IfOk result (λ event. event ≡ bgp_of (words rest.now)) }
{
    let Some((number, rest)) = first_word(rest) else {
        return Ok(None);
    };
    let Some((digits, rest)) = first_word(rest) else {
        return Ok(None);
    };
    if !is_end(rest) {
        return Ok(None);
    }
    let Some(number) = from_one(number) else {
        return Ok(None);
    };
    match octets(alloc, digits)? {
        Some(octets) => Ok(Some(Event::Bgp(number, octets))),
        None => Ok(None),
    }
}

/// The events `up`, `down`, `idle`, `work`, `ask`, `show` and `settled`, those of the interior routes and of the whole file.
#[tactic(auto, unfolding(crate::specs::Events::plain_event))]
fn plain_event(word: &[u8], rest: &[u8]) -> Option<Event>
    ensures { result ≡ plain_event word.now (words rest.now) }
{
    if word == b"up".as_slice() {
        return Some(Event::Up(one_number(rest)?));
    }
    if word == b"down".as_slice() {
        return Some(Event::Down(one_number(rest)?));
    }
    if word == b"idle".as_slice() {
        return if is_end(rest) {
            Some(Event::Idle)
        } else {
            None
        };
    }
    if word == b"work".as_slice() {
        return work::<V4>(rest);
    }
    if word == b"ask".as_slice() {
        return ask::<V4>(rest);
    }
    if word == b"show".as_slice() {
        return show::<V4>(rest);
    }
    if word == b"settled".as_slice() {
        return settled::<V4>(rest);
    }
    interior_event(word, rest)
}

/// The events `route`, `lost`, `redist` and `cover`, and those of the whole file.
#[tactic(auto, unfolding(crate::specs::Events::interior_event))]
fn interior_event(word: &[u8], rest: &[u8]) -> Option<Event>
    ensures { result ≡ interior_event word.now (words rest.now) }
{
    if word == b"route".as_slice() {
        return route::<V4>(rest);
    }
    if word == b"lost".as_slice() {
        return lost::<V4>(rest);
    }
    if word == b"redist".as_slice() {
        return redist::<V4>(rest);
    }
    if word == b"cover".as_slice() {
        return cover::<V4>(rest);
    }
    profile_event(word, rest)
}

/// The events `as4`, `revised` and `reflect`: no word follows.
#[tactic(auto, unfolding(crate::specs::Events::profile_event))]
#[inline(never)]
fn profile_event(word: &[u8], rest: &[u8]) -> Option<Event>
    ensures { result ≡ profile_event word.now (words rest.now) }
{
    if !is_end(rest) {
        return None;
    }
    if word == b"as4".as_slice() {
        Some(Event::Whole(WholeFile::As4))
    } else if word == b"revised".as_slice() {
        Some(Event::Whole(WholeFile::Revised))
    } else if word == b"reflect".as_slice() {
        Some(Event::Whole(WholeFile::Reflect))
    } else {
        None
    }
}

/// The one word is a peer's number.
#[tactic(auto, using(crate::proofs::WordLemmas::no_word_behind_number), unfolding(crate::specs::Events::one_number))]
fn one_number(rest: &[u8]) -> Option<u32>
    ensures { result ≡ one_number (words rest.now) }
{
    let (number, rest) = first_word(rest)?;
    if !is_end(rest) {
        return None;
    }
    from_one(number)
}
