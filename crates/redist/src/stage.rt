//! The stage between `int` and `red`.

ghost use Rattle.std.specs.Prelude.{◌≡◌, IfOk, OnErr, None, IsSome, IfSome, is_some};
ghost use Rattle.addr4.specs.Places.{key_of};
ghost use Rattle.link_change.specs.Changes.{IsChangeOf};
ghost use Rattle.link_change.specs.Rows.{IsNextCandidate, CoversRows};
ghost use Rattle.pass_core.specs.Passed.{edited, holds_up, present, waits};
ghost use Rattle.pass_core.specs.Turns.{passed, passed_rows, IsPassedOn, IsWalked};
ghost use Rattle.redist.specs.Protocols.{no_protos, with_proto};
ghost use Rattle.redist.specs.Local.{redistributed};

use crate::local::Maker;
use crate::protos::Protos;
use addr4::{Addr, Family, Memory, Place, Prefix, V4};
use bgp_attr::{Route, SharedAttrs, Speaker};
use link_change::{Change, Turn, Upstream};
use pass_core::Pass;
use rib_route::{Interior, Proto};
use std::alloc::Global;
use std::marker::Model;

/// Redistribution of interior routes. Contracts see the set in force and the walk that is on, if any.
#[derive(Drop)]
pub struct Redist<F: Family = V4> {
    pass: Pass<Protos, F>,
    maker: Maker<F>,
}

impl<F: Family> Model for Redist<F> {
    ghost use Rattle.pass_core.specs.Passed.{Passed};
    ghost use Rattle.redist.specs.declared.protos.Protos.{Protos};

    ghost Value = { Passed Protos };

    ghost view = { λ r. r.pass };
}

impl<F: Family> Redist<F> {
    /// Nothing is redistributed. Takes no memory.
    pub fn new(alloc: Global) -> Redist<F>
        ensures { result ≡ record { in_force = no_protos; walk = None } }
    {
        Redist {
            pass: Pass::new(Protos::none()),
            maker: Maker::new(alloc),
        }
    }

    /// Turns a protocol on or off in the latest set, also where it is so already: a walk begins that brings the set which that
    /// makes into force; where one is on, the set waits for its end, in place of one that waited. Nothing changes at once.
    /// Takes no memory.
    pub fn edit(&mut self, proto: Proto, on: bool)
        ensures { self.new ≡ edited self.old (with_proto (present self.old) proto on) }
    {
        let latest = *self.pass.present();
        self.pass.edit(latest.with(proto, on));
    }

    /// Whether a walk is on.
    pub fn busy(&self) -> bool
        ensures { result ≡ is_some self.now.walk }
    {
        self.pass.busy()
    }

    /// Whether another set than the latest one may hold at a prefix: a walk is on that has yet to come there, or at whose end a
    /// set waits.
    pub fn holds_up(&self, prefix: Prefix<F>) -> bool
        ensures { result ≡ holds_up self.now prefix }
    {
        self.pass.holds_up(prefix)
    }

    /// Whether `red` has a row at a prefix, where this is the row of `int`. Takes no memory.
    pub fn has(&self, row: &Option<Interior<Addr<F>>>, prefix: Prefix<F>) -> bool
        ensures { (me : _) → result ≡ is_some (passed (redistributed me) self.now prefix row.now) }
    {
        match row {
            None => false,
            Some(row) => self.pass.at(prefix).has(row.proto),
        }
    }

    /// Whether a set waits for the end of the walk that is on.
    pub fn waits(&self) -> bool
        ensures { result ≡ waits self.now }
    {
        self.pass.waits()
    }

    /// How far the walk has come. To be asked while a walk is on.
    pub fn place(&self) -> Place<Prefix<F>>
        requires { IsSome self.now.walk }
        ensures { IfSome self.now.walk (λ walk. key_of result ≡ walk.place) }
    {
        self.pass.place()
    }

    /// The latest set.
    pub fn protos(&self) -> Protos
        ensures { result ≡ present self.now }
    {
        *self.pass.present()
    }

    /// A change of `int`, as it goes on below: by the set that holds at its prefix. None exactly where the row below stays the
    /// same. Memory only for want of memory: then nothing changes.
    #[inline(never)]
    pub fn take_in(
        &mut self,
        change: &Change<Interior<Addr<F>>, Prefix<F>>,
        me: &Speaker<Addr<F>>,
    ) -> Result<Option<Change<Route<SharedAttrs<F>>, Prefix<F>>>, Memory>
        ensures sent { IfOk result (IsPassedOn (redistributed me.now) self.old change.now) }
        ensures same { self.new ≡ self.old }
    {
        let on = *self.pass.at(change.prefix);
        if on.is_empty() {
            return Ok(None);
        }
        self.made(on, change, me)
    }

    // What is made of a change, where these protocols are redistributed.
    #[inline(never)]
    fn made(
        &mut self,
        on: Protos,
        change: &Change<Interior<Addr<F>>, Prefix<F>>,
        me: &Speaker<Addr<F>>,
    ) -> Result<Option<Change<Route<SharedAttrs<F>>, Prefix<F>>>, Memory>
        ensures made { IfOk result (IsChangeOf change.now.prefix (redistributed me.now on change.now.prefix change.now.before) (redistributed me.now on change.now.prefix change.now.after)) }
        ensures same { self.new ≡ self.old }
    {
        let before = self.maker.row(on, &change.before, me)?;
        let after = self.maker.row(on, &change.after, me)?;
        Ok(Change::between(change.prefix, before, after))
    }

    /// One turn of the walk: it goes to the least candidate of `int` that lies beyond its place, and sends the change there, if
    /// there is one. The turn that finds no candidate ends the walk; a set that waited then begins a walk of its own. Nothing
    /// exactly where no walk is on. Memory only for want of memory: then nothing changes.
    pub fn unit<U: Upstream<F, Row = Interior<Addr<F>>>>(
        &mut self,
        upper: &U,
        me: &Speaker<Addr<F>>,
    ) -> Result<Turn<Route<SharedAttrs<F>>, Prefix<F>>, Memory>
        ensures taken { IfOk result (IsWalked (redistributed me.now) (U.candidates upper.now) (U.rows upper.now) self.old self.new) }
        ensures memory { OnErr result (self.new ≡ self.old) }
    {
        if !self.pass.busy() {
            return Ok(Turn::Nothing);
        }
        let Some(prefix) = upper.next_candidate(&self.pass.place()) else {
            self.pass.finish();
            return Ok(Turn::Quiet);
        };
        let row = upper.asked(&prefix)?;
        let in_force = *self.pass.at(prefix);
        let coming = *self.pass.coming();
        let before = self.maker.row(in_force, &row, me)?;
        let after = self.maker.row(coming, &row, me)?;
        self.pass.step_to(prefix);
        Ok(Turn::taken(Change::between(prefix, before, after)))
    }

    /// The row at a prefix of the link below. Where no protocol is in the set that holds there, the link above isn't asked.
    /// Memory only for want of memory.
    pub fn asked<U: Upstream<F, Row = Interior<Addr<F>>>>(
        &self,
        upper: &U,
        prefix: Prefix<F>,
        me: &Speaker<Addr<F>>,
    ) -> Result<Option<Route<SharedAttrs<F>>>, Memory>
        ensures { IfOk result (λ row. row ≡ passed_rows (redistributed me.now) self.now (U.rows upper.now) prefix) }
    {
        let on = *self.pass.at(prefix);
        if on.is_empty() {
            return Ok(None);
        }
        let row = upper.asked(&prefix)?;
        self.maker.asked(on, &row, me)
    }

    /// The least candidate of the link below beyond a place: those of the link above, of which some may have no row below.
    /// Every row below stands at one.
    pub fn next_candidate<U: Upstream<F, Row = Interior<Addr<F>>>>(
        &self,
        upper: &U,
        after: Place<Prefix<F>>,
    ) -> Option<Prefix<F>>
        ensures next { IsNextCandidate (U.candidates upper.now) (key_of after) result }
        ensures covers { (me : _) → CoversRows (U.candidates upper.now) (passed_rows (redistributed me) self.now (U.rows upper.now)) }
    {
        upper.next_candidate(&after)
    }
}
