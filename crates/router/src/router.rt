//! Both networks, and what an event of a file does to them.

ghost use Rattle.std.specs.Prelude.{◌≡◌, ◌+◌, ◌<◌, ◌^◌, true, false, OnOk, OnErr, IfOk, IsErr, None};
ghost use Rattle.std.specs.Option.{option_copied};
ghost use Rattle.event_text.specs.declared.event.Event.TheVariants as events;
ghost use Rattle.event_text.specs.declared.event.FileEvent.TheVariants as file;
ghost use Rattle.event_text.specs.Declarations.{refusal};
ghost use Rattle.event_text.specs.WellFormed.{IsWellFormed};
ghost use Rattle.event_text.specs.FileEvents.{file_refusal, IsWellSaid};
ghost use Rattle.router_moments.specs.Moments.{first_moment};
ghost use Rattle.router_moments.specs.Scratch.{IsExactAtRest};
ghost use Rattle.router.specs.Networks.{OfEach, BothStand, RouterStands, networks_of};
ghost use Rattle.router.specs.Told.{told};
ghost use Rattle.router.specs.Steps.{FileActs, GivesBoth, BothAct, SecondBegins, IsFew};

use crate::journals::Journals;
use crate::laws::local6_may_stand;
use crate::second::begin;
use addr4::{Addr, Family, Memory, V4};
use addr6::V6;
use bgp_attr::Speaker;
use event_text::{Declared, Event, FileEvent};
use live_state::declarations_follow;
use router_core::Core;
use router_moments::rows_at_rest_are_exact;
use std::alloc::Global;
use std::marker::Model;

/// IPv4's network, and IPv6's from `local6` on.
#[derive(Drop)]
pub struct Router {
    pub(crate) alloc: Global,
    pub(crate) first: Core,
    pub(crate) second: Option<Core<V6>>,
    pub(crate) failed: bool,
}

impl Model for Router {
    ghost use Rattle.router.specs.Networks.{Routed, routed_code};
    ghost use Rattle.router_core.specs.contracts.router.Core as core_row;
    ghost use Rattle.addr4.specs.contracts.family.V4 as family_row;

    ghost Value = { Routed };

    ghost coded = { routed_code (core_row.the_row family_row.the_row ⟦<V4 as Family>⟧ ⟦<V4 as Clone>⟧).coded };

    ghost view = { λ r. record { first = r.first; second = r.second; failed = r.failed } };
}

impl Router {
    /// Nothing is declared, and no link is live. Takes no memory.
    pub fn new(alloc: Global) -> Router
        ensures value { result ≡ record { first = record { moment = first_moment false; events = 0; failed = false }; second = None; failed = false } }
        ensures stands { RouterStands result }
    {
        Router {
            alloc,
            first: Core::new(alloc),
            second: None,
            failed: false,
        }
    }

    /// What IPv4's network knows of what was declared; which events of a file may stand behind it, it tells.
    pub fn declared(&self) -> &Declared
        ensures { result.now ≡ self.now.first.moment.declared }
    {
        self.first.declared()
    }

    /// How many events were stepped.
    pub fn events(&self) -> u64
        ensures { result ≡ self.now.first.events }
    {
        self.first.events()
    }

    /// IPv4's network.
    pub fn first(&self) -> &Core
        ensures { result.now ≡ self.now.first }
    {
        &self.first
    }

    /// IPv6's network; None before `local6`.
    pub fn second(&self) -> Option<&Core<V6>>
        ensures { option_copied result ≡ self.now.second }
    {
        self.second.as_ref()
    }

    /// Steps an event of a file: the lines of both networks go into the text, first those of IPv4's. Answers how many turns `work`
    /// or `idle` took in both, and 0 for other events. An event that names one family leaves the other network as it is, and says
    /// nothing of it. After each call, at each prefix every link of either network that no work holds up there has the row that
    /// the live state of its network alone asks for. After want of memory the router answers nothing else.
    pub fn step(&mut self, event: FileEvent, journals: &mut Journals) -> Result<u128, Memory>
        requires admitted { file_refusal self.old.first.moment.declared event ≡ None }
        requires said { IsWellSaid self.old.first.moment.declared.profile event }
        requires few { self.old.first.events < 4294967295 }
        requires stands { self.old.failed ≡ false → RouterStands self.old }
        ensures acts { IfOk result (λ turns. GivesBoth (FileActs (networks_of self.old) event turns (networks_of self.new)) journals.old journals.new) }
        ensures stands { OnOk result (RouterStands self.new) }
        ensures exact { OnOk result (OfEach (λ v6. IsExactAtRest) (networks_of self.new)) }
        ensures events { OnOk result (self.new.first.events ≡ self.old.first.events + 1) }
        ensures good { OnOk result (self.new.failed ≡ false) }
        ensures memory { OnErr result (self.new.failed ≡ true) }
        ensures stays { self.old.failed ≡ true → IsErr result }
    {
        if self.failed {
            drop(event);
            return Err(Memory);
        }
        rows_at_rest_are_exact();
        match self.step_named(event, journals) {
            Ok(turns) => {
                self.failed = false;
                Ok(turns)
            }
            Err(Memory) => {
                self.failed = true;
                Err(Memory)
            }
        }
    }

    /// An event goes to the network that it names, or to both.
    fn step_named(&mut self, event: FileEvent, journals: &mut Journals) -> Result<u128, Memory>
        requires admitted { file_refusal self.old.first.moment.declared event ≡ None }
        requires said { IsWellSaid self.old.first.moment.declared.profile event }
        requires few { IsFew self.old.first }
        requires stands { BothStand self.old.first self.old.second }
        ensures acts { IfOk result (λ turns. GivesBoth (FileActs (networks_of self.old) event turns (networks_of self.new)) journals.old journals.new) }
        ensures stands { OnOk result (BothStand self.new.first self.new.second) }
        ensures events { OnOk result (self.new.first.events ≡ self.old.first.events + 1) }
    {
        match event {
            FileEvent::First(event) => self.step_first(event, journals),
            FileEvent::Local6(addr) => self.begin_second(addr, journals),
            FileEvent::Second(event) => self.step_second(event, journals),
        }
    }

    /// An event of IPv4's network, or one that both are told.
    fn step_first(&mut self, event: Event, journals: &mut Journals) -> Result<u128, Memory>
        requires admitted { refusal self.old.first.moment.declared event ≡ None }
        requires formed { IsWellFormed false self.old.first.moment.declared.profile event }
        requires few { IsFew self.old.first }
        requires stands { BothStand self.old.first self.old.second }
        ensures acts { IfOk result (λ turns. GivesBoth (BothAct (networks_of self.old) event (told self.old.first.moment.declared event) turns (networks_of self.new)) journals.old journals.new) }
        ensures stands { OnOk result (BothStand self.new.first self.new.second) }
        ensures events { OnOk result (self.new.first.events ≡ self.old.first.events + 1) }
    {
        match event {
            Event::Idle => self.idle(journals),
            Event::Bgp(number, octets) => self.message(number, octets, journals),
            event => self.step_told(event, journals),
        }
    }

    /// `local6`: IPv6 is spoken, and its network begins.
    fn begin_second(&mut self, addr: Addr<V6>, journals: &mut Journals) -> Result<u128, Memory>
        requires admitted { file_refusal self.old.first.moment.declared (file.Local6 addr) ≡ None }
        requires said { IsWellSaid self.old.first.moment.declared.profile (file.Local6 addr) }
        requires few { IsFew self.old.first }
        requires stands { BothStand self.old.first self.old.second }
        ensures acts { IfOk result (λ turns. (turns ≡ 0) × GivesBoth (SecondBegins (networks_of self.old) addr (networks_of self.new)) journals.old journals.new) }
        ensures stands { OnOk result (BothStand self.new.first self.new.second) }
        ensures events { OnOk result (self.new.first.events ≡ self.old.first.events + 1) }
    {
        declarations_follow();
        local6_may_stand();
        journals.known();
        let Some(me) = self.first.declared().speaker() else {
            unreachable!()
        };
        self.first.speak_ipv6();
        let mut profile = self.first.declared().profile();
        profile.second = true;
        let words = Speaker {
            asn: me.asn,
            id: me.id,
            addr,
        };
        drop(self.second.replace(Core::new(self.alloc)));
        let Some(second) = &mut self.second else {
            unreachable!()
        };
        begin(second, profile, words, journals)?;
        Ok(0)
    }
}
