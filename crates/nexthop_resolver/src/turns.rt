//! The turns of next hops: a walk, the stale ones asked for again.

ghost use Rattle.std.specs.Prelude.{◌≡◌, IfOk, OnErr};
ghost use Rattle.addr4.specs.Places.{key_of};
ghost use Rattle.nexthop_resolver.specs.Resolving.{at_place};
ghost use Rattle.nexthop_resolver.specs.Registered.{Agrees, KeepsOthers};
ghost use Rattle.nexthop_resolver.specs.Turns.{IsStep, IsTurn};

use crate::asking::renew;
use crate::resolver::Resolver;
use crate::rows::{FromMatch, Via};
use addr4::{Addr, Family, Memory, Place, Prefix};
use link_change::{Change, Turn, Upstream, copy_row};
use register_interest::Register;
use rib_route::Interior;

impl<F: Family, A: FromMatch<F>> Resolver<A, F> {
    // The walk goes from a place to the next candidate, or ends. For want of memory nothing changes.
    fn step<R: Via<F, Kept = A>, U: Upstream<F, Row = R>>(
        &mut self,
        upper: &U,
        place: Place<Prefix<F>>,
    ) -> Result<Turn<R::Lower, Prefix<F>>, Memory>
        ensures step { IfOk result (IsStep R.hop R.made (U.candidates upper.now) (U.rows upper.now) (at_place self.old (key_of place)) self.new) }
        ensures memory { OnErr result (self.new ≡ self.old) }
    {
        let Some(prefix) = upper.next_candidate(&place) else {
            self.known.settle();
            self.walk = None;
            return Ok(Turn::Quiet);
        };
        let row = upper.asked(&prefix)?;
        let again = copy_row(&row)?;
        let before = self.by_in_force(row);
        let after = self.by_fresh(again);
        self.walk = Some(Place::At(prefix));
        Ok(Turn::taken(Change::between(prefix, before, after)))
    }

    /// One turn, by the first of the three cases that holds: the walk that is on goes to the least candidate of the link above
    /// that lies beyond its place, and sends the change there, if there is one, or ends; the least stale next hop is asked for
    /// again; a walk begins, with its first step. Nothing exactly where there is nothing to do. For want of memory nothing
    /// changes.
    pub fn unit<R: Via<F, Kept = A>, U: Upstream<F, Row = R>>(
        &mut self,
        upper: &U,
        register: &mut Register<Interior<Addr<F>>, F>,
    ) -> Result<Turn<R::Lower, Prefix<F>>, Memory>
        requires agrees { Agrees A.kept_of self.old.client self.old.known register.old }
        ensures taken { IfOk result (IsTurn R.hop R.made (U.candidates upper.now) (U.rows upper.now) A.kept_of register.old register.new self.old self.new) }
        ensures agrees { Agrees A.kept_of self.new.client self.new.known register.new }
        ensures others { KeepsOthers self.old.client register.old register.new }
        ensures memory { OnErr result (self.new ≡ self.old) }
    {
        if let Some(place) = self.walk {
            return self.step(upper, place);
        }
        if let Some(hop) = self.known.next_stale() {
            renew(&mut self.known, self.client, hop, register)?;
            return Ok(Turn::Quiet);
        }
        if !self.known.differs() {
            return Ok(Turn::Nothing);
        }
        self.step(upper, Place::Before)
    }
}
