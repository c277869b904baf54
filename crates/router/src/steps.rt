//! What each network does at an event, and what both say.

ghost use Rattle.std.specs.Prelude.{◌≡◌, ◌≢◌, ◌+◌, ◌<◌, ◌^◌, false, OnOk, IfOk, None};
ghost use Rattle.event_text.specs.declared.event.Event.TheVariants as events;
ghost use Rattle.event_text.specs.declared.event.FileEvent.TheVariants as file;
ghost use Rattle.event_text.specs.Declarations.{refusal};
ghost use Rattle.event_text.specs.WellFormed.{IsWellFormed};
ghost use Rattle.event_text.specs.FileEvents.{file_refusal, IsWellSaid};
ghost use Rattle.router_core.specs.Heard.{AreUpdate};
ghost use Rattle.router.specs.Networks.{BothStand, networks_of};
ghost use Rattle.router.specs.Told.{told};
ghost use Rattle.router.specs.Steps.{GivesBoth, BothAct, IsFew};

use crate::journals::Journals;
use crate::laws::{second_may_stand, told_may_stand, update_is_told};
use crate::router::Router;
use crate::second::{hear_second, rest_second, told_second};
use crate::told::{told_so_far, told_then, update_of};
use addr4::Memory;
use addr6::V6;
use bgp_attr::Octets;
use bgp_wire::Update;
use event_text::{Event, EventOf};
use journal_text::Line;
use live_state::declarations_follow;

impl Router {
    /// A message: an UPDATE of a peer that is up is read once, for both networks.
    pub(crate) fn message(
        &mut self,
        number: u32,
        octets: Octets,
        journals: &mut Journals,
    ) -> Result<u128, Memory>
        requires admitted { refusal self.old.first.moment.declared (events.Bgp number octets) ≡ None }
        requires formed { IsWellFormed false self.old.first.moment.declared.profile (events.Bgp number octets) }
        requires few { IsFew self.old.first }
        requires stands { BothStand self.old.first self.old.second }
        ensures acts { IfOk result (λ turns. GivesBoth (BothAct (networks_of self.old) (events.Bgp number octets) (told self.old.first.moment.declared (events.Bgp number octets)) turns (networks_of self.new)) journals.old journals.new) }
        ensures stands { OnOk result (BothStand self.new.first self.new.second) }
        ensures events { OnOk result (self.new.first.events ≡ self.old.first.events + 1) }
    {
        match update_of(self.alloc, self.first.declared(), number, octets.as_slice())? {
            None => self.step_told(Event::Bgp(number, octets), journals),
            Some(update) => {
                let heard = self.hear(number, octets.as_slice(), update, journals);
                drop(octets);
                heard
            }
        }
    }

    /// An UPDATE, which was read: each network hears what it says of its family's routes.
    fn hear(
        &mut self,
        number: u32,
        octets: &[u8],
        update: Update,
        journals: &mut Journals,
    ) -> Result<u128, Memory>
        requires admitted { refusal self.old.first.moment.declared (events.Bgp number octets.now) ≡ None }
        requires formed { IsWellFormed false self.old.first.moment.declared.profile (events.Bgp number octets.now) }
        requires are { AreUpdate self.old.first.moment.declared number octets.now update }
        requires few { IsFew self.old.first }
        requires stands { BothStand self.old.first self.old.second }
        ensures acts { IfOk result (λ turns. GivesBoth (BothAct (networks_of self.old) (events.Bgp number octets.now) (told self.old.first.moment.declared (events.Bgp number octets.now)) turns (networks_of self.new)) journals.old journals.new) }
        ensures stands { OnOk result (BothStand self.new.first self.new.second) }
        ensures events { OnOk result (self.new.first.events ≡ self.old.first.events + 1) }
    {
        told_may_stand();
        journals.known();
        declarations_follow();
        update_is_told();
        self.first.declared().known();
        let Update {
            first: said,
            second: said6,
        } = update;
        journals.hear(&mut self.first, number, octets, said)?;
        let Some(second) = &mut self.second else {
            drop(said6);
            return Ok(0);
        };
        second.declared().known();
        hear_second(second, number, octets, said6, journals)?;
        Ok(0)
    }

    /// An event that is neither an idle nor an UPDATE that was read.
    pub(crate) fn step_told(
        &mut self,
        event: Event,
        journals: &mut Journals,
    ) -> Result<u128, Memory>
        requires admitted { refusal self.old.first.moment.declared event ≡ None }
        requires formed { IsWellFormed false self.old.first.moment.declared.profile event }
        requires few { IsFew self.old.first }
        requires stands { BothStand self.old.first self.old.second }
        requires other { event ≢ events.Idle }
        ensures acts { IfOk result (λ turns. GivesBoth (BothAct (networks_of self.old) event (told self.old.first.moment.declared event) turns (networks_of self.new)) journals.old journals.new) }
        ensures stands { OnOk result (BothStand self.new.first self.new.second) }
        ensures events { OnOk result (self.new.first.events ≡ self.old.first.events + 1) }
    {
        told_may_stand();
        journals.known();
        declarations_follow();
        let Some(second) = &mut self.second else {
            return journals.step(&mut self.first, event);
        };
        let told = told_so_far(self.alloc, self.first.declared(), &event)?;
        let turns = journals.step(&mut self.first, event)?;
        let told = told_then(self.first.declared(), told);
        let turns6 = told_second(second, told, journals)?;
        plus(turns, turns6)
    }

    /// An event of IPv6's network alone.
    pub(crate) fn step_second(
        &mut self,
        event: EventOf<V6>,
        journals: &mut Journals,
    ) -> Result<u128, Memory>
        requires admitted { file_refusal self.old.first.moment.declared (file.Second event) ≡ None }
        requires said { IsWellSaid self.old.first.moment.declared.profile (file.Second event) }
        requires few { IsFew self.old.first }
        requires stands { BothStand self.old.first self.old.second }
        ensures acts { IfOk result (λ turns. GivesBoth (BothAct (networks_of self.old) events.Nothing event turns (networks_of self.new)) journals.old journals.new) }
        ensures stands { OnOk result (BothStand self.new.first self.new.second) }
        ensures events { OnOk result (self.new.first.events ≡ self.old.first.events + 1) }
    {
        declarations_follow();
        second_may_stand();
        journals.known();
        let Some(second) = &mut self.second else {
            drop(event);
            unreachable!()
        };
        let turns = journals.step(&mut self.first, Event::Nothing)?;
        let turns6 = told_second(second, event, journals)?;
        plus(turns, turns6)
    }

    /// Both networks do their work to its end, within the sum of the turns that each takes at most.
    pub(crate) fn idle(&mut self, journals: &mut Journals) -> Result<u128, Memory>
        requires admitted { refusal self.old.first.moment.declared events.Idle ≡ None }
        requires few { IsFew self.old.first }
        requires stands { BothStand self.old.first self.old.second }
        ensures acts { IfOk result (λ turns. GivesBoth (BothAct (networks_of self.old) events.Idle events.Idle turns (networks_of self.new)) journals.old journals.new) }
        ensures stands { OnOk result (BothStand self.new.first self.new.second) }
        ensures events { OnOk result (self.new.first.events ≡ self.old.first.events + 1) }
    {
        declarations_follow();
        journals.known();
        match &mut self.second {
            None => journals.step(&mut self.first, Event::Idle),
            Some(second) => {
                let bound = self.first.bound()?;
                let bound6 = second.bound()?;
                journals.push_line(Line::Bound(plus(bound, bound6)?))?;
                let turns = journals.rest(&mut self.first)?;
                let turns6 = rest_second(second, journals)?;
                let all = plus(turns, turns6)?;
                journals.push_line(Line::Idle(all))?;
                journals.flush()?;
                Ok(all)
            }
        }
    }
}

/// The sum of turns. Past 2^128 there is none, which is answered as want of memory.
fn plus(a: u128, b: u128) -> Result<u128, Memory>
    ensures sum { IfOk result (λ sum. sum ≡ a + b) }
    ensures fits { IfOk result (λ sum. sum < 2 ^ 128) }
{
    match a.checked_add(b) {
        Some(sum) => Ok(sum),
        None => Err(Memory),
    }
}
