//! The known next hops.

ghost use Rattle.std.specs.Prelude.{◌≡◌, true, OnOk, OnErr, IsNone, IsSome, MatchBool};
ghost use Rattle.std.specs.Option.{option_map};
ghost use Rattle.std.specs.FinMap as map;
ghost use Rattle.nexthop_known.specs.Hops.{learnt, staled, settled, is_stale_at, IsMapped, IsPartlyMapped, IsLeastStale, IsSettled, IsSettledAt, IsDiffering, IsDifferingAt, IsGivenUp, IsRenewed, IsWithSome, IsWithNone};

use crate::answer::{Answer, Hop};
use crate::index::{
    Holding, first_with, fresh_of, in_force_of, in_force_or, is_stale, mark, put, take_out, unmark,
    unshared,
};
use crate::sweeps::{make_all_stale, put_all_in_force};
use addr4::{Addr, Family, Memory, Prefix, V4};
use std::alloc::Global;
use std::collections::{BTreeMap, BTreeSet};
use std::marker::Model;

/// The known next hops.
///
/// Contracts see a finite map from addresses to what is kept of each.
#[derive(Drop)]
pub struct Known<A, F: Family = V4> {
    hops: BTreeMap<Addr<F>, Hop<A, Prefix<F>>>,
    // Those whose answer is stale.
    stale: BTreeSet<Addr<F>>,
    // Those whose fresh answer differs from the one in force.
    differing: BTreeSet<Addr<F>>,
    // Those whose answer isn't stale, by the subnet with which it came.
    held: BTreeSet<Holding<Prefix<F>, Addr<F>>>,
}

impl<A, F: Family> Model for Known<A, F> {
    ghost use Rattle.std.specs.FinMap as map;
    ghost use Rattle.std.specs.Coded.{coded_ℕ};
    ghost use Rattle.nexthop_known.specs.Hops.{Hops, hop_code};
    ghost use Rattle.nexthop_known.specs.Ties.{AreIndexed};

    ghost Value = { Hops A };

    ghost coded = { map.code coded_ℕ (hop_code A.code) };

    ghost view = { λ k. map.from_entries k.hops.entries };

    ghost invariant = { λ k. AreIndexed k.hops k.stale k.differing k.held };
}

impl<A: Answer, F: Family> Known<A, F> {
    /// No known next hop. Takes no memory.
    pub fn new(alloc: Global) -> Known<A, F>
        ensures { result ≡ map.empty }
    {
        Known {
            hops: BTreeMap::new(alloc),
            stale: BTreeSet::new(alloc),
            differing: BTreeSet::new(alloc),
            held: BTreeSet::new(alloc),
        }
    }

    /// How many next hops are known.
    pub fn known(&self) -> u128
        ensures { result ≡ map.len self.now }
    {
        self.hops.len() as u128
    }

    /// Adds an unknown next hop with its first answer, which came with the subnet and is in force at once. For want of memory
    /// nothing changes.
    pub fn learn(&mut self, hop: Addr<F>, subnet: Prefix<F>, answer: A) -> Result<(), Memory>
        requires { IsNone (map.get self.old hop) }
        ensures ok { OnOk result (self.new ≡ map.insert self.old hop (learnt subnet answer)) }
        ensures err { OnErr result (self.new ≡ self.old) }
    {
        let row = Hop {
            in_force: answer,
            fresh: answer,
            came: Some(subnet),
        };
        put(
            &mut self.hops,
            &mut self.stale,
            &mut self.held,
            hop,
            subnet,
            row,
        )?;
        self.differing.remove(&hop);
        Ok(())
    }

    /// Keeps a further answer of a stale next hop, which came with the subnet and comes into force when all do. For want of
    /// memory nothing changes.
    pub fn fresh(&mut self, hop: Addr<F>, subnet: Prefix<F>, answer: A) -> Result<(), Memory>
        requires { is_stale_at (map.get self.old hop) ≡ true }
        ensures ok { OnOk result (IsRenewed self.old self.new hop subnet answer) }
        ensures err { OnErr result (self.new ≡ self.old) }
    {
        let in_force = in_force_or(&self.hops, hop, answer);
        let row = Hop {
            in_force,
            fresh: answer,
            came: Some(subnet),
        };
        let differs = !answer.same(&in_force);
        let added = mark(&mut self.differing, hop, differs)?;
        match put(
            &mut self.hops,
            &mut self.stale,
            &mut self.held,
            hop,
            subnet,
            row,
        ) {
            Err(Memory) => {
                unmark(&mut self.differing, hop, added);
                Err(Memory)
            }
            Ok(()) => {
                unmark(&mut self.differing, hop, !differs);
                Ok(())
            }
        }
    }

    /// Takes a known next hop out, and answers the subnet with which its fresh answer came: none exactly where that was stale,
    /// or the answer of another known one that isn't stale came with that subnet.
    pub fn forget(&mut self, hop: Addr<F>) -> Option<Prefix<F>>
        requires { IsSome (map.get self.old hop) }
        ensures removed { self.new ≡ map.remove self.old hop }
        ensures answer { IsGivenUp (map.get self.old) (map.get self.new) hop result }
    {
        let came = take_out(&mut self.hops, &mut self.stale, &mut self.held, hop);
        self.differing.remove(&hop);
        unshared(&self.held, &came)
    }

    /// Whether the answer of some known next hop that isn't stale came with the subnet.
    pub fn is_answered_with(&self, subnet: Prefix<F>) -> bool
        ensures { MatchBool result (IsWithSome (map.get self.now) subnet) (IsWithNone (map.get self.now) subnet) }
    {
        first_with(&self.held, subnet).is_some()
    }

    /// Makes stale the known next hops whose answer came with the subnet. For want of memory some of them are stale, and the
    /// others as they were.
    pub fn stale(&mut self, subnet: Prefix<F>) -> Result<(), Memory>
        ensures ok { OnOk result (IsMapped (staled subnet) self.old self.new) }
        ensures err { OnErr result (IsPartlyMapped (staled subnet) self.old self.new) }
    {
        make_all_stale(&mut self.hops, &mut self.stale, &mut self.held, subnet)
    }

    /// Whether the next hop is known and stale.
    pub fn is_stale(&self, hop: Addr<F>) -> bool
        ensures { result ≡ is_stale_at (map.get self.now hop) }
    {
        match self.hops.get(&hop) {
            None => false,
            Some(row) => is_stale(row),
        }
    }

    /// The stale next hop of the least address.
    pub fn next_stale(&self) -> Option<Addr<F>>
        ensures { IsLeastStale (map.get self.now) result }
    {
        match self.stale.first() {
            None => None,
            Some(hop) => Some(*hop),
        }
    }

    /// Puts each fresh answer in force.
    pub fn settle(&mut self)
        ensures { IsMapped settled self.old self.new }
    {
        put_all_in_force(&mut self.hops, &mut self.differing);
    }

    /// The answer in force of a known next hop.
    pub fn in_force(&self, hop: Addr<F>) -> Option<A>
        ensures { result ≡ option_map (λ h. h.in_force) (map.get self.now hop) }
    {
        match self.hops.get(&hop) {
            None => None,
            Some(row) => Some(in_force_of(row)),
        }
    }

    /// The fresh answer of a known next hop.
    pub fn fresh_of(&self, hop: Addr<F>) -> Option<A>
        ensures { result ≡ option_map (λ h. h.fresh) (map.get self.now hop) }
    {
        match self.hops.get(&hop) {
            None => None,
            Some(row) => Some(fresh_of(row)),
        }
    }

    /// Whether the next hop is known, and its fresh answer isn't the one in force.
    pub fn differs_at(&self, hop: Addr<F>) -> bool
        ensures { MatchBool result (IsDifferingAt (map.get self.now hop)) (IsSettledAt (map.get self.now hop)) }
    {
        self.differing.contains(&hop)
    }

    /// Whether some fresh answer differs from the one in force.
    pub fn differs(&self) -> bool
        ensures { MatchBool result (IsDiffering (map.get self.now)) (IsSettled (map.get self.now)) }
    {
        !self.differing.is_empty()
    }
}
