//! One text for the lines of both networks.

ghost use Rattle.std.specs.Prelude.{◌≡◌, ◌++◌, ◌∷◌, ◌+◌, ◌<◌, ◌^◌, [], OnOk, IfOk, false, true, None};
ghost use Rattle.journal_text.specs.Journals.{with_lines, with_text, flushed};
ghost use Rattle.event_text.specs.declared.event.Event.TheVariants as events;
ghost use Rattle.event_text.specs.Declarations.{refusal};
ghost use Rattle.event_text.specs.WellFormed.{IsWellFormed};
ghost use Rattle.router_core.specs.Heard.{SayOfFamily};
ghost use Rattle.router_moments.specs.Moments.{Gives, bound_of};
ghost use Rattle.router_moments.specs.Blocks.{Acts};
ghost use Rattle.router_moments.specs.Stands.{CoreStands};
ghost use Rattle.router.specs.Steps.{idle_lines};

use addr4::{Addr, Memory, Prefix};
use addr6::V6;
use bgp_attr::SharedAttrs;
use bgp_wire::Said;
use event_text::Event;
use journal_text::{Journal, Line};
use router_core::Core;
use std::alloc::Global;
use std::marker::Model;

/// The text of the lines that both networks give. Contracts see the journal of IPv4's network, which has the text; IPv6's network
/// borrows it while it gives lines ([`Journals::lend`]).
#[derive(Drop)]
pub struct Journals {
    alloc: Global,
    quiet: bool,
    first: Journal,
}

impl Model for Journals {
    ghost use Rattle.std.specs.Prelude.{◌≡◌, false};
    ghost use Rattle.journal_text.specs.Journals.{Journaled, journaled_code};

    ghost Value = { Journaled };

    ghost coded = { journaled_code };

    ghost view = { λ j. j.first };

    ghost invariant = { λ j. j.first.quiet ≡ j.quiet };
}

impl Journals {
    /// No line yet; takes no memory. Where it is quiet, the journal's own lines give no text.
    pub fn new(alloc: Global, quiet: bool) -> Journals
        ensures { result ≡ record { text = []; pending = []; quiet = quiet; v6 = false } }
    {
        Journals {
            alloc,
            quiet,
            first: Journal::new(alloc, quiet),
        }
    }

    /// The journal of IPv4's network.
    pub fn first(&self) -> &Journal
        ensures { result.now ≡ self.now }
    {
        &self.first
    }

    /// Appends a line of IPv4's network, or one that tells of no link, prefix or address.
    pub fn push_line(&mut self, line: Line<SharedAttrs, Addr, Prefix>) -> Result<(), Memory>
        ensures { OnOk result (self.new ≡ with_lines self.old (line ∷ [])) }
    {
        let pushed = self.first.push_line(line);
        if pushed.is_err() {
            self.first = Journal::new(self.alloc, self.quiet);
        }
        pushed
    }

    /// IPv4's network steps an event, and its lines come behind the others. For want of memory there is no text any more.
    pub(crate) fn step(&mut self, core: &mut Core, event: Event) -> Result<u128, Memory>
        requires admitted { refusal core.old.moment.declared event ≡ None }
        requires formed { IsWellFormed core.old.moment.declared.v6 core.old.moment.declared.profile event }
        requires few { core.old.events < 4294967295 }
        requires stands { CoreStands core.old }
        ensures acts { IfOk result (λ turns. Gives (Acts core.old.moment event turns core.new.moment) self.old self.new) }
        ensures stands { OnOk result (CoreStands core.new) }
        ensures events { OnOk result (core.new.events ≡ core.old.events + 1) }
    {
        let stepped = core.step(event, &mut self.first);
        if stepped.is_err() {
            self.first = Journal::new(self.alloc, self.quiet);
        }
        stepped
    }

    /// IPv4's network hears what an UPDATE says of its routes, and its lines come behind the others.
    pub(crate) fn hear(
        &mut self,
        core: &mut Core,
        number: u32,
        octets: &[u8],
        said: Said,
    ) -> Result<(), Memory>
        requires admitted { refusal core.old.moment.declared (events.Bgp number octets.now) ≡ None }
        requires formed { IsWellFormed core.old.moment.declared.v6 core.old.moment.declared.profile (events.Bgp number octets.now) }
        requires said { SayOfFamily core.old.moment.declared number octets.now said }
        requires few { core.old.events < 4294967295 }
        requires stands { CoreStands core.old }
        ensures acts { OnOk result (Gives (Acts core.old.moment (events.Bgp number octets.now) 0 core.new.moment) self.old self.new) }
        ensures stands { OnOk result (CoreStands core.new) }
        ensures events { OnOk result (core.new.events ≡ core.old.events + 1) }
    {
        let heard = core.hear(number, octets, said, &mut self.first);
        if heard.is_err() {
            self.first = Journal::new(self.alloc, self.quiet);
        }
        heard
    }

    /// IPv4's network does its work to its end, in an idle of both.
    pub(crate) fn rest(&mut self, core: &mut Core) -> Result<u128, Memory>
        requires admitted { refusal core.old.moment.declared events.Idle ≡ None }
        requires few { core.old.events < 4294967295 }
        requires bound { bound_of core.old.moment < 2 ^ 128 }
        requires stands { CoreStands core.old }
        ensures acts { IfOk result (λ turns. Gives (λ inner. Acts core.old.moment events.Idle turns core.new.moment (idle_lines (bound_of core.old.moment) inner turns)) self.old self.new) }
        ensures stands { OnOk result (CoreStands core.new) }
        ensures events { OnOk result (core.new.events ≡ core.old.events + 1) }
    {
        let rested = core.rest(&mut self.first);
        if rested.is_err() {
            self.first = Journal::new(self.alloc, self.quiet);
        }
        rested
    }

    /// The lines are those of IPv4's network first.
    pub(crate) fn known(&self)
        ensures { self.now.v6 ≡ false }
    {
        self.first.known();
    }

    /// Makes the text of the lines that have none yet.
    pub fn flush(&mut self) -> Result<(), Memory>
        ensures { OnOk result (self.new ≡ flushed self.old) }
    {
        self.first.flush()
    }

    /// Drops the text, and keeps its memory for the next one. Lines that weren't flushed stay.
    pub fn clear(&mut self)
        ensures { self.new ≡ with_text self.old [] }
    {
        self.first.clear();
    }

    /// The text goes into a journal of IPv6's network, whose lines come behind it.
    pub(crate) fn lend(&mut self) -> Result<Journal<V6>, Memory>
        ensures lent { IfOk result (λ own. own ≡ record { text = self.old.text ++ self.old.pending; pending = []; quiet = self.old.quiet; v6 = true }) }
        ensures left { OnOk result (self.new ≡ with_text (flushed self.old) []) }
    {
        self.first.flush()?;
        let mut own = Journal::new(self.alloc, self.quiet);
        self.first.exchange_texts(&mut own);
        Ok(own)
    }

    /// And comes back with these lines.
    pub(crate) fn take_back(&mut self, mut own: Journal<V6>)
        ensures { self.new ≡ with_text self.old own.text }
    {
        self.first.exchange_texts(&mut own);
        drop(own);
    }
}
