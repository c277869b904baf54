//! Events of filters and of interior routes, of the network of a family.

ghost use Rattle.std.specs.Prelude.{◌≡◌, IfOk};
ghost use Rattle.policy_rules.specs.Words.{words};
ghost use Rattle.event_text.specs.Events.{filter_on, filter_of, route_add_of, route_del_of, route_of, lost_of, redist_of};

use crate::event::{Event, EventOf};
use crate::words::{from_one, interior, is_end, protocol, switch};
use addr4::{Family, Memory, Texts, read_prefix};
use bgp_attr::Profile;
use policy_rules::{Rules, first_word, read_rules};
use std::alloc::Global;

/// What follows `filter`.
#[tactic(auto, unfolding(crate::specs::Events::filter_of))]
#[inline(never)]
pub(crate) fn filter<F: Texts>(
    alloc: Global,
    profile: Profile,
    rest: &[u8],
) -> Result<Option<EventOf<F>>, Memory>
    ensures { IfOk result (λ event. event ≡ filter_of F.V6 profile.as4 (words rest.now)) }
{
    let Some((side, rest)) = first_word(rest) else {
        return Ok(None);
    };
    let Some((number, rest)) = first_word(rest) else {
        return Ok(None);
    };
    let Some(number) = from_one(number) else {
        return Ok(None);
    };
    match read_rules(alloc, profile, rest)? {
        Ok(rules) => Ok(filter_on(side, number, rules)),
        Err(_) => Ok(None),
    }
}

/// New rules of a peer's filter on the side of the word.
#[tactic(auto, unfolding(crate::specs::Events::filter_on))]
fn filter_on<F: Family>(side: &[u8], number: u32, rules: Rules<F>) -> Option<EventOf<F>>
    ensures { result ≡ filter_on side.now number rules }
{
    if side == b"in".as_slice() {
        Some(Event::FilterIn(number, rules))
    } else if side == b"out".as_slice() {
        Some(Event::FilterOut(number, rules))
    } else {
        None
    }
}

/// What follows `route`.
#[tactic(auto, unfolding(crate::specs::Events::route_of))]
pub(crate) fn route<F: Texts>(rest: &[u8]) -> Option<EventOf<F>>
    ensures { result ≡ route_of F.V6 (words rest.now) }
{
    let (word, rest) = first_word(rest)?;
    if word == b"add".as_slice() {
        return route_add(rest);
    }
    if word == b"del".as_slice() {
        return route_del(rest);
    }
    None
}

/// What follows `route add`.
#[tactic(auto, unfolding(crate::specs::Events::route_add_of))]
fn route_add<F: Texts>(rest: &[u8]) -> Option<EventOf<F>>
    ensures { result ≡ route_add_of F.V6 (words rest.now) }
{
    let (name, rest) = first_word(rest)?;
    let (prefix, rest) = first_word(rest)?;
    let proto = protocol(name)?;
    let prefix = read_prefix(prefix).ok()?;
    let row = interior(proto, rest)?;
    Some(Event::RouteAdd(prefix, row))
}

/// What follows `route del`.
#[tactic(auto, using(crate::proofs::WordLemmas::no_word_behind_route), unfolding(crate::specs::Events::route_del_of))]
fn route_del<F: Texts>(rest: &[u8]) -> Option<EventOf<F>>
    ensures { result ≡ route_del_of F.V6 (words rest.now) }
{
    let (name, rest) = first_word(rest)?;
    let (prefix, rest) = first_word(rest)?;
    if !is_end(rest) {
        return None;
    }
    let proto = protocol(name)?;
    let prefix = read_prefix(prefix).ok()?;
    Some(Event::RouteDel(proto, prefix))
}

/// What follows `lost`.
#[tactic(auto, using(crate::proofs::WordLemmas::no_word_behind_protocol), unfolding(crate::specs::Events::lost_of))]
#[inline(never)]
pub(crate) fn lost<F: Family>(rest: &[u8]) -> Option<EventOf<F>>
    ensures { result ≡ lost_of (words rest.now) }
{
    let (name, rest) = first_word(rest)?;
    if !is_end(rest) {
        return None;
    }
    let proto = protocol(name)?;
    Some(Event::Lose(proto))
}

/// What follows `redist`.
#[tactic(auto, using(crate::proofs::WordLemmas::no_word_behind_switch), unfolding(crate::specs::Events::redist_of))]
#[inline(never)]
pub(crate) fn redist<F: Family>(rest: &[u8]) -> Option<EventOf<F>>
    ensures { result ≡ redist_of (words rest.now) }
{
    let (name, rest) = first_word(rest)?;
    let (state, rest) = first_word(rest)?;
    if !is_end(rest) {
        return None;
    }
    let proto = protocol(name)?;
    let on = switch(state)?;
    Some(Event::Redist(proto, on))
}
