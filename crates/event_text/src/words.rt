//! What single words of a line say.

ghost use Rattle.std.specs.Prelude.{◌≡◌, ◌==◌, length, IfOk};
ghost use Rattle.journal_text.specs.Names.{proto_of};
ghost use Rattle.policy_rules.specs.Words.{words};
ghost use Rattle.event_text.specs.Words.{is_clean, from_one, speaker_by, speaker_of, client_of, octets_of, way_out, way_over, interior_of, switch_of, link_named, task_named, host6_of};

use addr4::{
    Addr, Family, Memory, Texts, all_printable, read_addr, read_id, read_number, read_number_below,
};
use addr6::V6;
use bgp_attr::{Octets, Profile, Speaker};
use hex::FromHexError;
use journal_text::{Link, Task};
use policy_rules::first_word;
use rib_route::{Iface, Interior, Proto};
use std::alloc::Global;

/// At most 16,384 bytes, all printable ASCII.
#[tactic(auto, unfolding(crate::specs::Words::is_clean))]
pub fn is_clean(line: &[u8]) -> bool
    ensures { result ≡ is_clean line.now }
{
    line.len() <= 16384 && all_printable(line)
}

/// Whether there is no word.
pub fn is_end(text: &[u8]) -> bool
    ensures { result ≡ (length (words text.now) == 0) }
{
    first_word(text).is_none()
}

/// A number from 1.
#[tactic(auto, unfolding(crate::specs::Words::from_one))]
pub fn from_one(word: &[u8]) -> Option<u32>
    ensures { result ≡ from_one word.now }
{
    let number = read_number(word)?;
    if number == 0 { None } else { Some(number) }
}

/// The words `AS`, `ID` and `ADDR`. The profile tells which numbers an AS may have.
#[tactic(auto, unfolding(crate::specs::Words::speaker_by))]
pub fn speaker_by(profile: Profile, asn: &[u8], id: &[u8], addr: &[u8]) -> Option<Speaker>
    ensures { result ≡ speaker_by profile.as4 asn.now id.now addr.now }
{
    let asn = read_number_below(asn, profile.asn_bound())?;
    let id = read_id(id).ok()?;
    let addr = read_addr(addr).ok()?;
    if asn == 0 || id.number() == 0 || !addr.is_host() {
        return None;
    }
    Some(Speaker { asn, id, addr })
}

/// The words `AS ID ADDR`, and no other.
#[tactic(auto, using(crate::proofs::WordLemmas::no_fourth_word), unfolding(crate::specs::Words::speaker_of))]
pub fn speaker(profile: Profile, text: &[u8]) -> Option<Speaker>
    ensures { result ≡ speaker_of profile.as4 (words text.now) }
{
    let (asn, rest) = first_word(text)?;
    let (id, rest) = first_word(rest)?;
    let (addr, rest) = first_word(rest)?;
    if !is_end(rest) {
        return None;
    }
    speaker_by(profile, asn, id, addr)
}

/// Whether a peer is a client: the word `client`, which only a route reflector has, or no word.
#[tactic(auto, using(crate::proofs::WordLemmas::no_word_behind_client), unfolding(crate::specs::Words::client_of))]
pub fn client(profile: Profile, text: &[u8]) -> Option<bool>
    ensures { result ≡ client_of profile (words text.now) }
{
    let Some((word, rest)) = first_word(text) else {
        return Some(false);
    };
    if !is_end(rest) {
        return None;
    }
    if profile.reflect && word == b"client".as_slice() {
        Some(true)
    } else {
        None
    }
}

/// The octets that hex digits spell, at least one.
#[tactic(auto, unfolding(crate::specs::Words::octets_of))]
pub fn octets(alloc: Global, digits: &[u8]) -> Result<Option<Octets>, Memory>
    ensures { IfOk result (λ octets. octets ≡ octets_of digits.now) }
{
    match hex::decode(alloc, digits) {
        Ok(octets) => {
            if octets.is_empty() {
                return Ok(None);
            }
            Ok(Some(Octets::from_vec(octets)))
        }
        Err(FromHexError::OutOfMemory) => Err(Memory),
        Err(_) => Ok(None),
    }
}

/// The protocol of a word.
#[tactic(auto, using(crate::proofs::WordLemmas::protocol_is))]
pub fn protocol(word: &[u8]) -> Option<Proto>
    ensures { result ≡ proto_of word.now }
{
    if word == b"connected".as_slice() {
        Some(Proto::Connected)
    } else if word == b"static".as_slice() {
        Some(Proto::Static)
    } else if word == b"ospf".as_slice() {
        Some(Proto::Ospf)
    } else if word == b"rip".as_slice() {
        Some(Proto::Rip)
    } else {
        None
    }
}

/// The words `IF METRIC`, and no other.
#[tactic(auto, using(crate::proofs::WordLemmas::no_word_behind_metric), unfolding(crate::specs::Words::way_out))]
fn way_out<F: Family>(
    proto: Proto,
    gateway: Option<Addr<F>>,
    rest: &[u8],
) -> Option<Interior<Addr<F>>>
    ensures { result ≡ way_out proto gateway (words rest.now) }
{
    let (name, rest) = first_word(rest)?;
    let (metric, rest) = first_word(rest)?;
    if !is_end(rest) {
        return None;
    }
    let iface = Iface::read(name)?;
    let metric = read_number(metric)?;
    Some(Interior {
        proto,
        gateway,
        iface,
        metric,
    })
}

/// The words `GATEWAY IF METRIC`, with a gateway of the family, and no other.
#[tactic(auto, unfolding(crate::specs::Words::way_over))]
fn way_over<F: Texts>(proto: Proto, rest: &[u8]) -> Option<Interior<Addr<F>>>
    ensures { result ≡ way_over F.V6 proto (words rest.now) }
{
    let (gateway, rest) = first_word(rest)?;
    let gateway = read_addr(gateway).ok()?;
    way_out(proto, Some(gateway), rest)
}

/// The words `direct IF METRIC` or `via GATEWAY IF METRIC`, and no other.
#[tactic(auto, unfolding(crate::specs::Words::interior_of))]
pub fn interior<F: Texts>(proto: Proto, rest: &[u8]) -> Option<Interior<Addr<F>>>
    ensures { result ≡ interior_of F.V6 proto (words rest.now) }
{
    let (way, rest) = first_word(rest)?;
    if way == b"direct".as_slice() {
        return way_out(proto, None, rest);
    }
    if way == b"via".as_slice() {
        return way_over(proto, rest);
    }
    None
}

/// `on` or `off`.
#[tactic(auto, unfolding(crate::specs::Words::switch_of))]
pub fn switch(word: &[u8]) -> Option<bool>
    ensures { result ≡ switch_of word.now }
{
    if word == b"on".as_slice() {
        Some(true)
    } else if word == b"off".as_slice() {
        Some(false)
    } else {
        None
    }
}

/// The link of a name, where it is one of the family's network.
#[tactic(auto, unfolding(crate::specs::Words::link_named, journal_text::specs::Names::link_in))]
pub fn link_named<F: Family>(name: &[u8]) -> Option<Link>
    ensures { result ≡ link_named F.V6 name.now }
{
    if !F::V6 {
        return Link::read(name);
    }
    match Link::read_in(name)? {
        (true, link) => Some(link),
        (false, _) => None,
    }
}

/// The task of a name, where it is one of the family's network.
#[tactic(auto, unfolding(crate::specs::Words::task_named, journal_text::specs::Names::task_in))]
pub fn task_named<F: Family>(name: &[u8]) -> Option<Task>
    ensures { result ≡ task_named F.V6 name.now }
{
    if !F::V6 {
        return Task::read(name);
    }
    match Task::read_in(name)? {
        (true, task) => Some(task),
        (false, _) => None,
    }
}

/// The address of a host of IPv6.
#[tactic(auto, unfolding(crate::specs::Words::host6_of))]
pub fn host6(word: &[u8]) -> Option<Addr<V6>>
    ensures { result ≡ host6_of word.now }
{
    let addr: Addr<V6> = read_addr(word).ok()?;
    if addr.is_host() { Some(addr) } else { None }
}
