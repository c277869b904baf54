//! The merge of interior and external routes.

ghost use Rattle.std.specs.Prelude.{◌≡◌, ◌⊎◌, Bool, IfOk, OnOk, OnErr, MatchBool};
ghost use Rattle.std.specs.FinMap as map;
ghost use Rattle.addr4.specs.Places.{key_of};
ghost use Rattle.link_change.specs.Rows.{IsNextCandidate, CoversRows, together};
ghost use Rattle.link_change.specs.Turns.{Turn as Turned};
ghost use Rattle.rib_route.specs.Rows.{FibRow as Fib};
ghost use Rattle.nexthop_resolver.specs.Ways.{Way as Kept};
ghost use Rattle.nexthop_resolver.specs.Kept.{way_of};
ghost use Rattle.nexthop_resolver.specs.Left.{TellsAlike, hop_lags};
ghost use Rattle.nexthop_resolver.specs.Resolving.{nothing_known, AreNamed};
ghost use Rattle.nexthop_resolver.specs.Registered.{Agrees, KeepsOthers, told_of};
ghost use Rattle.nexthop_resolver.specs.Takes.{Keeps, Invalidates, PartlyInvalidates};
ghost use Rattle.nexthop_resolver.specs.Turns.{Rests, HasWork};
ghost use Rattle.ext_int.specs.Fibs.{resolved_rows, fib_table, FollowsInt, FollowsTurn, TakesExt, TakesTurn, StopsInTurn};

use addr4::{Addr, Family, Memory, Place, Prefix, V4};
use link_change::{Change, Turn, Upstream, nearer};
use nexthop_resolver::{Resolver, Way};
use register_interest::Register;
use rib_merge::{Side, forward, forwarded, preferred, take_in};
use rib_route::{External, FibRow, Interior};
use std::alloc::Global;
use std::marker::Model;

/// As whom the register knows the forwarding table.
const CLIENT: u8 = 0;

/// The merge of interior and external routes. Contracts see what its resolver knows of next hops.
#[derive(Drop)]
pub struct ExtInt<F: Family = V4> {
    hops: Resolver<Way<Addr<F>>, F>,
}

impl<F: Family> Model for ExtInt<F> {
    ghost use Rattle.std.specs.Borrow.{u32 as word};
    ghost use Rattle.nexthop_resolver.specs.contracts.rows.Way as way_row;
    ghost use Rattle.nexthop_resolver.specs.Ways.{Way as Kept};
    ghost use Rattle.nexthop_resolver.specs.Resolving.{Resolving, resolving_code};

    ghost Value = { Resolving Kept };

    ghost coded = { resolving_code (way_row.the_row word).coded };

    ghost view = { λ e. e.hops };
}

// What a turn comes to below, by what it came to of the resolved external rows.
fn merged_turn<F: Family, I: Upstream<F, Row = Interior<Addr<F>>>>(
    int: &I,
    turn: Turn<FibRow<Addr<F>>, Prefix<F>>,
) -> Result<Turn<FibRow<Addr<F>>, Prefix<F>>, Memory>
    ensures { IfOk result (FollowsTurn (I.rows int.now) turn) }
{
    match turn {
        Turn::Nothing => Ok(Turn::Nothing),
        Turn::Quiet => Ok(Turn::Quiet),
        Turn::Sent(outer) => {
            let inner = forwarded(&int.asked(&outer.prefix)?);
            Ok(Turn::taken(take_in(Side::Right, outer, inner)))
        }
    }
}

impl<F: Family> ExtInt<F> {
    /// No next hop is known. Takes no memory.
    pub fn new(alloc: Global) -> ExtInt<F>
        ensures { result ≡ nothing_known 0 }
    {
        ExtInt {
            hops: Resolver::new(CLIENT, alloc),
        }
    }

    /// The next hops that external routes name are those that are known.
    pub fn are_named(&self)
        ensures { AreNamed self.now.counts self.now.known }
    {
        self.hops.are_named();
    }

    /// How many next hops are known.
    pub fn known(&self) -> u128
        ensures { result ≡ map.len self.now.known }
    {
        self.hops.known()
    }

    /// Whether there is something to do: a walk is on, a next hop is stale, or a fresh answer isn't in force.
    pub fn busy(&self) -> bool
        ensures { MatchBool result (HasWork self.now) (Rests self.now) }
    {
        self.hops.busy()
    }

    /// Whether an external route with this next hop, if there is one, may go on at a prefix by another answer than the register's
    /// present one.
    pub fn holds_up(&self, hop: Option<Addr<F>>, prefix: Prefix<F>) -> bool
        ensures { (alike : Kept → Kept → Bool) → TellsAlike alike → result ≡ hop_lags alike self.now prefix hop }
    {
        self.hops.holds_up(hop, prefix)
    }

    /// The answers that came with the subnet are stale: the register gave up the interest in it. For want of memory some of them
    /// are stale, and the others as they were.
    pub fn invalidate(&mut self, subnet: Prefix<F>) -> Result<(), Memory>
        ensures stale { OnOk result (Invalidates subnet self.old self.new) }
        ensures memory { OnErr result (PartlyInvalidates subnet self.old self.new) }
    {
        self.hops.invalidate(subnet)
    }

    /// A change of `int`, as it goes on below. None exactly where the row of the forwarding table stays the same. Memory only
    /// for want of memory.
    pub fn take_int<E: Upstream<F, Row = External<Addr<F>>>>(
        &self,
        change: &Change<Interior<Addr<F>>, Prefix<F>>,
        ext: &E,
    ) -> Result<Option<Change<FibRow<Addr<F>>, Prefix<F>>>, Memory>
        ensures { IfOk result (FollowsInt (resolved_rows self.now (E.rows ext.now)) change.now) }
    {
        let Some(inner) = forward(change) else {
            return Ok(None);
        };
        let outer = self.hops.asked(ext, change.prefix)?;
        Ok(take_in(Side::Left, inner, outer))
    }

    /// A change of `ext`, as it goes on below. A next hop that comes is asked for at once, and one that no row names any more is
    /// forgotten. None exactly where the row of the forwarding table stays the same. For want of memory nothing changes.
    pub fn take_ext<I: Upstream<F, Row = Interior<Addr<F>>>>(
        &mut self,
        change: Change<External<Addr<F>>, Prefix<F>>,
        int: &I,
        register: &mut Register<Interior<Addr<F>>, F>,
    ) -> Result<Option<Change<FibRow<Addr<F>>, Prefix<F>>>, Memory>
        requires agrees { Agrees way_of self.old.client self.old.known register.old }
        ensures taken { IfOk result (TakesExt (I.rows int.now) self.old self.new change) }
        ensures keeps { OnOk result (Keeps (told_of way_of register.old) self.old self.new) }
        ensures agrees { Agrees way_of self.new.client self.new.known register.new }
        ensures others { KeepsOthers self.old.client register.old register.new }
        ensures memory { OnErr result (self.new ≡ self.old) }
    {
        let inner = forwarded(&int.asked(&change.prefix)?);
        let Some(outer) = self.hops.take_in(change, register)? else {
            return Ok(None);
        };
        Ok(take_in(Side::Right, outer, inner))
    }

    /// One turn of the resolver's work, as it goes on below ([`Resolver::unit`]): it goes to the next candidate of `ext`, or
    /// asks for the least stale next hop again, or begins a walk. Nothing exactly where there is nothing to do. For want of
    /// memory nothing changes, or the turn was taken and its change is lost.
    pub fn unit<I: Upstream<F, Row = Interior<Addr<F>>>, E: Upstream<F, Row = External<Addr<F>>>>(
        &mut self,
        int: &I,
        ext: &E,
        register: &mut Register<Interior<Addr<F>>, F>,
    ) -> Result<Turn<FibRow<Addr<F>>, Prefix<F>>, Memory>
        requires agrees { Agrees way_of self.old.client self.old.known register.old }
        ensures taken { IfOk result (TakesTurn (I.rows int.now) (E.candidates ext.now) (E.rows ext.now) register.old register.new self.old self.new) }
        ensures agrees { Agrees way_of self.new.client self.new.known register.new }
        ensures others { KeepsOthers self.old.client register.old register.new }
        ensures memory { OnErr result (StopsInTurn (E.candidates ext.now) (E.rows ext.now) register.old register.new self.old self.new) }
    {
        let resolved = self.hops.unit(ext, register)?;
        let turn = merged_turn(int, resolved)?;
        Ok(turn)
    }

    /// The row of the forwarding table at a prefix. Memory only for want of memory.
    pub fn asked<I: Upstream<F, Row = Interior<Addr<F>>>, E: Upstream<F, Row = External<Addr<F>>>>(
        &self,
        int: &I,
        ext: &E,
        prefix: Prefix<F>,
    ) -> Result<Option<FibRow<Addr<F>>>, Memory>
        ensures { IfOk result (λ row. row ≡ fib_table self.now (I.rows int.now) (E.rows ext.now) prefix) }
    {
        let inner = forwarded(&int.asked(&prefix)?);
        let outer = self.hops.asked(ext, prefix)?;
        Ok(preferred(inner, outer))
    }

    /// The least candidate beyond a place: the nearer one of both links. Every row of the forwarding table stands at one.
    pub fn next_candidate<
        I: Upstream<F, Row = Interior<Addr<F>>>,
        E: Upstream<F, Row = External<Addr<F>>>,
    >(&self, int: &I, ext: &E, after: Place<Prefix<F>>) -> Option<Prefix<F>>
        ensures next { IsNextCandidate (together (I.candidates int.now) (E.candidates ext.now)) (key_of after) result }
        ensures covers { CoversRows (together (I.candidates int.now) (E.candidates ext.now)) (fib_table self.now (I.rows int.now) (E.rows ext.now)) }
    {
        let first = int.next_candidate(&after);
        let second = self.hops.next_candidate(ext, after);
        nearer(first, second)
    }
}
