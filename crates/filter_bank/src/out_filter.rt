//! The outgoing filter.

ghost use Rattle.std.specs.Prelude.{◌≡◌, IfOk, OnErr, Some, is_some};
ghost use Rattle.addr4.specs.Places.{key_of};
ghost use Rattle.bgp_attr.specs.Attributes.{Attrs};
ghost use Rattle.bgp_attr.specs.declared.speaker.Neighbour.{Neighbour};
ghost use Rattle.link_change.specs.Rows.{IsNextCandidate, CoversRows};
ghost use Rattle.pass_core.specs.Passed.{edited, holds_up, waits};
ghost use Rattle.pass_core.specs.Turns.{passed, passed_rows, IsPassedOn, IsWalked};
ghost use Rattle.filter_bank.specs.Outgoing.{Form, outgoing, first_walk};

use crate::outgoing::{sent_change, sent_row};
use crate::sent::Sent;
use crate::source::{RouteUpstream, asked_for};
use addr4::{Family, Memory, Place, Prefix, V4};
use bgp_attr::{Neighbour, Route, SharedAttrs};
use link_change::{Change, Turn, Upstream};
use pass_core::Pass;
use policy_rules::Rules;
use std::marker::Model;

/// The outgoing filter of a peer's session. Contracts see the rules in force, which at the beginning are none, and the walk
/// that is on, if any. While none are in force, nothing is sent.
#[derive(Drop)]
pub struct OutFilter<F: Family = V4> {
    pass: Pass<Option<Rules<F>>, F>,
}

impl<F: Family> Model for OutFilter<F> {
    ghost use Rattle.std.specs.Prelude.{List, Option};
    ghost use Rattle.pass_core.specs.Passed.{Passed};
    ghost use Rattle.policy_rules.specs.Rules.{Rule};

    ghost Value = { Passed (Option (List Rule)) };

    ghost view = { λ f. f.pass };
}

impl<F: Family> OutFilter<F> {
    /// The filter of a session that begins: nothing is sent, and a walk is on that brings these rules into force. Takes no
    /// memory.
    pub fn new(rules: Rules<F>) -> OutFilter<F>
        ensures { result ≡ first_walk rules }
    {
        let mut pass = Pass::new(None);
        pass.edit(Some(rules));
        OutFilter { pass }
    }

    /// New rules: a walk begins that brings them into force; where one is on, they wait for its end, in place of others
    /// that waited. Nothing changes at once. Takes no memory.
    pub fn edit(&mut self, rules: Rules<F>)
        ensures { self.new ≡ edited self.old (Some rules) }
    {
        self.pass.edit(Some(rules));
    }

    /// Whether a walk is on.
    pub fn busy(&self) -> bool
        ensures { result ≡ is_some self.now.walk }
    {
        self.pass.busy()
    }

    /// Whether other rules than the latest ones may hold at a prefix: a walk is on that has yet to come there, or at whose end
    /// rules wait.
    pub fn holds_up(&self, prefix: Prefix<F>) -> bool
        ensures { result ≡ holds_up self.now prefix }
    {
        self.pass.holds_up(prefix)
    }

    /// Whether rules wait for the end of the walk that is on.
    pub fn waits(&self) -> bool
        ensures { result ≡ waits self.now }
    {
        self.pass.waits()
    }

    /// A change from above, as it goes on below: by the rules that hold at its prefix. None exactly where the row below stays
    /// the same. Memory only for want of memory.
    pub fn take_in<S: Sent<F>>(
        &self,
        change: Change<Route<SharedAttrs<F>>, Prefix<F>>,
        form: &S,
        peer: &Neighbour,
    ) -> Result<Option<Change<S::Row, Prefix<F>>>, Memory>
        ensures { IfOk result (IsPassedOn (outgoing (S.form form.now) peer.now) self.now change) }
    {
        let rules = self.pass.at(change.prefix);
        if rules.is_none() {
            return Ok(None);
        }
        let before = sent_row(form, peer, rules, change.prefix, change.before)?;
        let after = sent_row(form, peer, rules, change.prefix, change.after)?;
        Ok(Change::between(change.prefix, before, after))
    }

    /// One turn of the walk: it goes to the least candidate of the link above that lies beyond its place, and sends the
    /// change there, if there is one. The turn that finds no candidate ends the walk; rules that waited then begin a walk of
    /// their own. Nothing exactly where no walk is on. A route that came from the peer isn't asked for. Memory only for want of
    /// memory: then nothing changes.
    pub fn unit<U: RouteUpstream<F>, S: Sent<F>>(
        &mut self,
        upper: &U,
        form: &S,
        peer: &Neighbour,
    ) -> Result<Turn<S::Row, Prefix<F>>, Memory>
        ensures taken { IfOk result (IsWalked (outgoing (S.form form.now) peer.now) (U.candidates upper.now) (U.rows upper.now) self.old self.new) }
        ensures memory { OnErr result (self.new ≡ self.old) }
    {
        if !self.pass.busy() {
            return Ok(Turn::Nothing);
        }
        let Some(prefix) = upper.next_candidate(&self.pass.place()) else {
            self.pass.finish();
            return Ok(Turn::Quiet);
        };
        let row = asked_for(upper, peer.number, &prefix)?;
        let former = self.pass.at(prefix);
        let latter = self.pass.coming();
        let sent = sent_change(form, peer, former, latter, prefix, row)?;
        self.pass.step_to(prefix);
        Ok(Turn::taken(sent))
    }

    /// The row at a prefix of the link below.
    pub fn asked<U: Upstream<F, Row = Route<SharedAttrs<F>>>, S: Sent<F>>(
        &self,
        upper: &U,
        prefix: Prefix<F>,
        form: &S,
        peer: &Neighbour,
    ) -> Result<Option<S::Row>, Memory>
        ensures { IfOk result (λ row. row ≡ passed_rows (outgoing (S.form form.now) peer.now) self.now (U.rows upper.now) prefix) }
    {
        let row = upper.asked(&prefix)?;
        self.made(prefix, row, form, peer)
    }

    /// What the rules that hold at a prefix make of a row of the link above. Memory only for want of memory.
    pub fn made<S: Sent<F>>(
        &self,
        prefix: Prefix<F>,
        row: Option<Route<SharedAttrs<F>>>,
        form: &S,
        peer: &Neighbour,
    ) -> Result<Option<S::Row>, Memory>
        ensures { IfOk result (λ sent. sent ≡ passed (outgoing (S.form form.now) peer.now) self.now prefix row) }
    {
        sent_row(form, peer, self.pass.at(prefix), prefix, row)
    }

    /// The least candidate of the link below beyond a place: those of the link above, of which some may have no row below.
    /// Every row below stands at one.
    pub fn next_candidate<U: Upstream<F, Row = Route<SharedAttrs<F>>>>(
        &self,
        upper: &U,
        after: Place<Prefix<F>>,
    ) -> Option<Prefix<F>>
        ensures next { IsNextCandidate (U.candidates upper.now) (key_of after) result }
        ensures covers { (form : Form Attrs) (peer : Neighbour) → CoversRows (U.candidates upper.now) (passed_rows (outgoing form peer) self.now (U.rows upper.now)) }
    {
        upper.next_candidate(&after)
    }
}
