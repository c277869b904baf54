//! Events that ask, or that let background work go on, in the network of a family.

ghost use Rattle.std.specs.Prelude.{◌≡◌};
ghost use Rattle.policy_rules.specs.Words.{words};
ghost use Rattle.event_text.specs.Events.{cover_of, work_of, ask_of, show_of, settled_of};

use crate::event::{Event, EventOf, Question};
use crate::words::{is_end, link_named, task_named};
use addr4::{Family, Texts, read_addr, read_number, read_prefix};
use policy_rules::first_word;

/// What follows `cover`.
#[tactic(auto, using(crate::proofs::WordLemmas::no_word_behind_addr), unfolding(crate::specs::Events::cover_of))]
#[inline(never)]
pub(crate) fn cover<F: Texts>(rest: &[u8]) -> Option<EventOf<F>>
    ensures { result ≡ cover_of F.V6 (words rest.now) }
{
    let (addr, rest) = first_word(rest)?;
    if !is_end(rest) {
        return None;
    }
    let addr = read_addr(addr).ok()?;
    Some(Event::Query(Question::Cover(addr)))
}

/// What follows `work`.
#[tactic(auto, using(crate::proofs::WordLemmas::no_word_behind_turns), unfolding(crate::specs::Events::work_of))]
#[inline(never)]
pub(crate) fn work<F: Family>(rest: &[u8]) -> Option<EventOf<F>>
    ensures { result ≡ work_of F.V6 (words rest.now) }
{
    let (name, rest) = first_word(rest)?;
    let (turns, rest) = first_word(rest)?;
    if !is_end(rest) {
        return None;
    }
    let task = task_named::<F>(name)?;
    let turns = read_number(turns)?;
    Some(Event::Work(task, turns))
}

/// What follows `ask`.
#[tactic(auto, using(crate::proofs::WordLemmas::no_word_behind_prefix), unfolding(crate::specs::Events::ask_of))]
#[inline(never)]
pub(crate) fn ask<F: Texts>(rest: &[u8]) -> Option<EventOf<F>>
    ensures { result ≡ ask_of F.V6 (words rest.now) }
{
    let (name, rest) = first_word(rest)?;
    let (prefix, rest) = first_word(rest)?;
    if !is_end(rest) {
        return None;
    }
    let link = link_named::<F>(name)?;
    let prefix = read_prefix(prefix).ok()?;
    Some(Event::Query(Question::Ask(link, prefix)))
}

/// What follows `show`.
#[tactic(auto, using(crate::proofs::WordLemmas::no_word_behind_link), unfolding(crate::specs::Events::show_of))]
#[inline(never)]
pub(crate) fn show<F: Family>(rest: &[u8]) -> Option<EventOf<F>>
    ensures { result ≡ show_of F.V6 (words rest.now) }
{
    let (name, rest) = first_word(rest)?;
    if !is_end(rest) {
        return None;
    }
    let link = link_named::<F>(name)?;
    Some(Event::Query(Question::Show(link)))
}

/// What follows `settled`.
#[tactic(auto, using(crate::proofs::WordLemmas::no_word_behind_one_prefix), unfolding(crate::specs::Events::settled_of))]
#[inline(never)]
pub(crate) fn settled<F: Texts>(rest: &[u8]) -> Option<EventOf<F>>
    ensures { result ≡ settled_of F.V6 (words rest.now) }
{
    let (prefix, rest) = first_word(rest)?;
    if !is_end(rest) {
        return None;
    }
    let prefix = read_prefix(prefix).ok()?;
    Some(Event::Query(Question::Settled(prefix)))
}
