//! The next hops by address, and beside them which are stale, and with which subnets the answers of the others came.

ghost use Rattle.std.specs.Prelude.{◌≡◌, not, ◌&&◌, true, false, Some, OnOk, OnErr, IfOk, MatchOption};
ghost use Rattle.std.specs.Ordering.{nat_cmp};
ghost use Rattle.std.specs.BTreeMap as tree;
ghost use Rattle.std.specs.BTreeMap.{is_at};
ghost use Rattle.std.specs.BTreeSet as set;
ghost use Rattle.nexthop_known.specs.Hops.{came_at, is_stale_at, in_force_or};
ghost use Rattle.nexthop_known.specs.Ties.{holding_cmp, is_own, other_than, AreTied, Puts, IsFreed, IsHeldByNone, Sets};

use crate::answer::{Answer, Hop};
use addr4::{Addr, Family, Memory, Prefix};
use std::collections::{BTreeMap, BTreeSet};
use std::ops::Bound;

// A next hop with the subnet of its answer.
#[derive(Clone, Copy, PartialEq, Eq, PartialOrd, Ord)]
pub(crate) struct Holding<P = Prefix, A = Addr> {
    pub(crate) subnet: P,
    pub(crate) hop: A,
}

fn copied<F: Family>(address: &Addr<F>) -> Addr<F>
    ensures { result ≡ address.now }
{
    *address
}

fn came_of<A: Answer, F: Family>(row: &Hop<A, Prefix<F>>) -> Option<Prefix<F>>
    ensures { result ≡ row.now.came }
{
    row.came
}

pub(crate) fn in_force_of<A: Answer, F: Family>(row: &Hop<A, Prefix<F>>) -> A
    ensures { result ≡ row.now.in_force }
{
    row.in_force
}

pub(crate) fn fresh_of<A: Answer, F: Family>(row: &Hop<A, Prefix<F>>) -> A
    ensures { result ≡ row.now.fresh }
{
    row.fresh
}

pub(crate) fn is_stale<A: Answer, F: Family>(row: &Hop<A, Prefix<F>>) -> bool
    ensures { result ≡ is_stale_at (Some row.now) }
{
    row.came.is_none()
}

// The subnet of the answer, if the next hop is known and its answer isn't stale.
pub(crate) fn came_at<A: Answer, F: Family>(
    hops: &BTreeMap<Addr<F>, Hop<A, Prefix<F>>>,
    hop: Addr<F>,
) -> Option<Prefix<F>>
    ensures { result ≡ came_at (tree.get nat_cmp hops.now hop) }
{
    match hops.get(&hop) {
        None => None,
        Some(row) => came_of(row),
    }
}

// The answer in force of a known next hop, or else this one.
pub(crate) fn in_force_or<A: Answer, F: Family>(
    hops: &BTreeMap<Addr<F>, Hop<A, Prefix<F>>>,
    hop: Addr<F>,
    answer: A,
) -> A
    ensures { result ≡ in_force_or answer (tree.get nat_cmp hops.now hop) }
{
    match hops.get(&hop) {
        None => answer,
        Some(row) => in_force_of(row),
    }
}

// The subnet, unless it is the other one.
fn other_than<F: Family>(subnet: Prefix<F>, came: &Option<Prefix<F>>) -> Option<Prefix<F>>
    ensures { result ≡ other_than subnet came.now }
{
    match came {
        None => None,
        Some(other) => {
            if *other == subnet {
                return None;
            }
            Some(*other)
        }
    }
}

// Takes out the holding of a next hop, if its answer came with a subnet.
fn leave<F: Family>(
    held: &mut BTreeSet<Holding<Prefix<F>, Addr<F>>>,
    hop: Addr<F>,
    came: &Option<Prefix<F>>,
)
    ensures { Sets holding_cmp (is_own hop came.now) false held.old held.new }
{
    if let Some(subnet) = came {
        let holding = Holding {
            subnet: *subnet,
            hop,
        };
        held.remove(&holding);
    }
}

// The least next hop whose answer came with the subnet.
pub(crate) fn first_with<F: Family>(
    held: &BTreeSet<Holding<Prefix<F>, Addr<F>>>,
    subnet: Prefix<F>,
) -> Option<Addr<F>>
    ensures { MatchOption result (IsHeldByNone held.now subnet) (λ a. set.contains holding_cmp held.now (record { subnet = subnet; hop = a }) ≡ true) }
{
    let from = Holding {
        subnet,
        hop: Addr::unspecified(),
    };
    let mut range = held.range((Bound::Included(from), Bound::Unbounded));
    match range.next() {
        None => None,
        Some(found) => {
            if found.subnet != subnet {
                return None;
            }
            Some(copied(&found.hop))
        }
    }
}

// Puts a row whose answer came with the subnet. For want of memory nothing changes.
pub(crate) fn put<A: Answer, F: Family>(
    hops: &mut BTreeMap<Addr<F>, Hop<A, Prefix<F>>>,
    stale: &mut BTreeSet<Addr<F>>,
    held: &mut BTreeSet<Holding<Prefix<F>, Addr<F>>>,
    hop: Addr<F>,
    subnet: Prefix<F>,
    row: Hop<A, Prefix<F>>,
) -> Result<(), Memory>
    requires tied { AreTied hops.old stale.old held.old }
    requires came { row.came ≡ Some subnet }
    ensures tied { AreTied hops.new stale.new held.new }
    ensures ok { OnOk result (Puts hops.old hops.new hop (Some row)) }
    ensures err { OnErr result (hops.new.entries ≡ hops.old.entries) }
{
    let before = came_at(hops, hop);
    let holding = Holding { subnet, hop };
    held.insert(holding)?;
    match hops.insert(hop, row) {
        Err(_row) => {
            held.remove(&holding);
            Err(Memory)
        }
        Ok(_before) => {
            stale.remove(&hop);
            leave(held, hop, &other_than(subnet, &before));
            Ok(())
        }
    }
}

// Takes a known next hop out.
pub(crate) fn take_out<A: Answer, F: Family>(
    hops: &mut BTreeMap<Addr<F>, Hop<A, Prefix<F>>>,
    stale: &mut BTreeSet<Addr<F>>,
    held: &mut BTreeSet<Holding<Prefix<F>, Addr<F>>>,
    hop: Addr<F>,
) -> Option<Prefix<F>>
    requires tied { AreTied hops.old stale.old held.old }
    ensures tied { AreTied hops.new stale.new held.new }
    ensures removed { Puts hops.old hops.new hop None }
    ensures came { result ≡ came_at (tree.get nat_cmp hops.old hop) }
{
    let came = came_at(hops, hop);
    hops.remove(&hop);
    stale.remove(&hop);
    leave(held, hop, &came);
    came
}

// The subnet, unless there is none or the answer of some next hop came with it.
pub(crate) fn unshared<F: Family>(
    held: &BTreeSet<Holding<Prefix<F>, Addr<F>>>,
    came: &Option<Prefix<F>>,
) -> Option<Prefix<F>>
    ensures { IsFreed held.now came.now result }
{
    match came {
        None => None,
        Some(subnet) => {
            if first_with(held, *subnet).is_some() {
                return None;
            }
            Some(*subnet)
        }
    }
}

// Notes a next hop among those that differ, where it does, and answers whether it is new there.
pub(crate) fn mark<F: Family>(
    differing: &mut BTreeSet<Addr<F>>,
    hop: Addr<F>,
    differs: bool,
) -> Result<bool, Memory>
    ensures ok { OnOk result (Sets nat_cmp (λ q. differs && is_at (nat_cmp hop) q) true differing.old differing.new) }
    ensures added { IfOk result (λ added. added ≡ (differs && not (set.contains nat_cmp differing.old hop))) }
    ensures err { OnErr result (differing.new.keys ≡ differing.old.keys) }
{
    if !differs {
        return Ok(false);
    }
    let added = differing.insert(hop)?;
    Ok(added)
}

// Takes a next hop from those that differ, where this is wanted.
pub(crate) fn unmark<F: Family>(differing: &mut BTreeSet<Addr<F>>, hop: Addr<F>, wanted: bool)
    ensures { Sets nat_cmp (λ q. wanted && is_at (nat_cmp hop) q) false differing.old differing.new }
{
    if wanted {
        differing.remove(&hop);
    }
}
