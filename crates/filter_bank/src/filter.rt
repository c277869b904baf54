//! The incoming filter.

ghost use Rattle.std.specs.Prelude.{◌≡◌, IfOk, OnErr, [], Some, None, is_some, option_map};
ghost use Rattle.addr4.specs.Places.{key_of};
ghost use Rattle.bgp_attr.specs.declared.speaker.Neighbour.{Neighbour};
ghost use Rattle.link_change.specs.Rows.{IsNextCandidate, CoversRows};
ghost use Rattle.pass_core.specs.Passed.{edited, holds_up, present};
ghost use Rattle.pass_core.specs.Turns.{passed};
ghost use Rattle.filter_bank.specs.Filtered.{filtered, passed_rows, route_hop, FiltersOn};
ghost use Rattle.filter_bank.specs.Walks.{IsWalked};

use crate::filtering::{filtered, filtered_hop};
use addr4::{Addr, Family, Memory, Place, Prefix, V4};
use bgp_attr::{Neighbour, Route, SharedAttrs, Speaker};
use link_change::{Change, Turn, Upstream, copy_row};
use pass_core::Pass;
use policy_rules::Rules;
use std::alloc::Global;
use std::marker::Model;

/// The incoming filter of a peer. Contracts see the rules in force and the walk that is on, if any.
#[derive(Drop)]
pub struct FilterBank<F: Family = V4> {
    pass: Pass<Rules<F>, F>,
}

impl<F: Family> Model for FilterBank<F> {
    ghost use Rattle.std.specs.Prelude.{List};
    ghost use Rattle.pass_core.specs.Passed.{Passed};
    ghost use Rattle.policy_rules.specs.Rules.{Rule};

    ghost Value = { Passed (List Rule) };

    ghost view = { λ f. f.pass };
}

impl<F: Family> FilterBank<F> {
    /// The filter without rules. Takes no memory.
    pub fn new(alloc: Global) -> FilterBank<F>
        ensures { result ≡ record { in_force = []; walk = None } }
    {
        FilterBank {
            pass: Pass::new(Rules::new(alloc)),
        }
    }

    /// New rules: a walk begins that brings them into force; where one is on, they wait for its end, in place of others
    /// that waited. Nothing changes at once. Takes no memory.
    pub fn edit(&mut self, rules: Rules<F>)
        ensures { self.new ≡ edited self.old rules }
    {
        self.pass.edit(rules);
    }

    /// Whether a walk is on.
    pub fn busy(&self) -> bool
        ensures { result ≡ is_some self.now.walk }
    {
        self.pass.busy()
    }

    /// Whether other rules than the latest ones may hold at a prefix: a walk is on that has yet to come there, or at whose end
    /// rules wait.
    pub fn holds_up(&self, prefix: Prefix<F>) -> bool
        ensures { result ≡ holds_up self.now prefix }
    {
        self.pass.holds_up(prefix)
    }

    /// The next hop of the row at a prefix of the link below, where this is the row above; none where there is none. Takes no
    /// memory.
    pub fn next_hop(
        &self,
        row: &SharedAttrs<F>,
        prefix: Prefix<F>,
        me: &Speaker<Addr<F>>,
        peer: &Neighbour,
    ) -> Option<Addr<F>>
        ensures { result ≡ option_map route_hop (passed (filtered me.now peer.now) self.now prefix (Some row.now)) }
    {
        filtered_hop(me, peer, self.pass.at(prefix), prefix, row)
    }

    /// The rules of the latest edit.
    pub fn rules(&self) -> &Rules<F>
        ensures { result.now ≡ present self.now }
    {
        self.pass.present()
    }

    /// A change from above, as it goes on below: by the rules that hold at its prefix. None exactly where the row below stays
    /// the same. Takes no memory.
    pub fn take_in(
        &self,
        change: Change<SharedAttrs<F>, Prefix<F>>,
        me: &Speaker<Addr<F>>,
        peer: &Neighbour,
    ) -> Option<Change<Route<SharedAttrs<F>>, Prefix<F>>>
        ensures { FiltersOn me.now peer.now self.now change result }
    {
        let rules = self.pass.at(change.prefix);
        let before = filtered(me, peer, rules, change.prefix, change.before);
        let after = filtered(me, peer, rules, change.prefix, change.after);
        Change::between(change.prefix, before, after)
    }

    /// One turn of the walk: it goes to the least candidate of the link above that lies beyond its place, and sends the
    /// change there, if there is one. The turn that finds no candidate ends the walk; rules that waited then begin a walk of
    /// their own. Nothing exactly where no walk is on. Memory only for want of memory: then nothing changes.
    pub fn unit<U: Upstream<F, Row = SharedAttrs<F>>>(
        &mut self,
        upper: &U,
        me: &Speaker<Addr<F>>,
        peer: &Neighbour,
    ) -> Result<Turn<Route<SharedAttrs<F>>, Prefix<F>>, Memory>
        ensures taken { IfOk result (IsWalked me.now peer.now (U.candidates upper.now) (U.rows upper.now) self.old self.new) }
        ensures memory { OnErr result (self.new ≡ self.old) }
    {
        if !self.pass.busy() {
            return Ok(Turn::Nothing);
        }
        let Some(prefix) = upper.next_candidate(&self.pass.place()) else {
            self.pass.finish();
            return Ok(Turn::Quiet);
        };
        let row = upper.asked(&prefix)?;
        let again = copy_row(&row)?;
        let before = filtered(me, peer, self.pass.at(prefix), prefix, row);
        self.pass.step_to(prefix);
        let after = filtered(me, peer, self.pass.at(prefix), prefix, again);
        Ok(Turn::taken(Change::between(prefix, before, after)))
    }

    /// The row at a prefix of the link below.
    pub fn asked<U: Upstream<F, Row = SharedAttrs<F>>>(
        &self,
        upper: &U,
        prefix: Prefix<F>,
        me: &Speaker<Addr<F>>,
        peer: &Neighbour,
    ) -> Result<Option<Route<SharedAttrs<F>>>, Memory>
        ensures { IfOk result (λ row. row ≡ passed_rows me.now peer.now self.now (U.rows upper.now) prefix) }
    {
        let row = upper.asked(&prefix)?;
        Ok(filtered(me, peer, self.pass.at(prefix), prefix, row))
    }

    /// The least candidate of the link below beyond a place: those of the link above, of which some may have no row below.
    /// Every row below stands at one.
    pub fn next_candidate<U: Upstream<F, Row = SharedAttrs<F>>>(
        &self,
        upper: &U,
        after: Place<Prefix<F>>,
    ) -> Option<Prefix<F>>
        ensures next { IsNextCandidate (U.candidates upper.now) (key_of after) result }
        ensures covers { (me : _) (peer : Neighbour) → CoversRows (U.candidates upper.now) (passed_rows me peer self.now (U.rows upper.now)) }
    {
        upper.next_candidate(&after)
    }
}
