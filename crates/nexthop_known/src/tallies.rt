//! How many rows name each next hop.

ghost use Rattle.std.specs.Prelude.{◌≡◌, ◌+◌, not, OnOk, OnErr, IfOk};
ghost use Rattle.std.specs.Ordering.{nat_cmp};
ghost use Rattle.std.specs.BTreeMap as tree;
ghost use Rattle.std.specs.FinMap as map;
ghost use Rattle.nexthop_known.specs.Counts.{one_more, one_less, is_one, counted_in, PutsCount};

use addr4::{Addr, Family, Memory, V4};
use std::alloc::Global;
use std::collections::BTreeMap;
use std::marker::Model;

/// How many rows name each next hop.
///
/// Contracts see a finite map from each address that some row names to how many rows name it beside one.
#[derive(Drop)]
pub struct Tallies<F: Family = V4> {
    others: BTreeMap<Addr<F>, u64>,
}

impl<F: Family> Model for Tallies<F> {
    ghost use Rattle.std.specs.FinMap as map;
    ghost use Rattle.std.specs.Coded.{coded_ℕ};
    ghost use Rattle.nexthop_known.specs.Counts.{Counts};

    ghost Value = { Counts };

    ghost coded = { map.code coded_ℕ coded_ℕ };

    ghost view = { λ t. map.from_entries t.others.entries };
}

// The number above. Memory exactly where there is none.
fn raised(count: u64) -> Result<u64, Memory>
    ensures { IfOk result (λ more. more ≡ count + 1) }
{
    match count.checked_add(1) {
        None => Err(Memory),
        Some(more) => Ok(more),
    }
}

// Sets the number of an address that has one.
fn put_count<F: Family>(counts: &mut BTreeMap<Addr<F>, u64>, hop: Addr<F>, count: u64)
    ensures { PutsCount counts.old counts.new hop count }
{
    if let Some(others) = counts.get_mut(&hop) {
        *others = count;
    }
}

// The number of an address, if it has one.
fn count_at<F: Family>(counts: &BTreeMap<Addr<F>, u64>, hop: Addr<F>) -> Option<u64>
    ensures { result ≡ tree.get nat_cmp counts.now hop }
{
    match counts.get(&hop) {
        None => None,
        Some(others) => Some(*others),
    }
}

impl<F: Family> Tallies<F> {
    /// No row names any next hop. Takes no memory.
    pub fn new(alloc: Global) -> Tallies<F>
        ensures { result ≡ map.empty }
    {
        Tallies {
            others: BTreeMap::new(alloc),
        }
    }

    /// One row more names the next hop. Answers whether it is the first that does. For want of memory nothing changes; that too
    /// is the answer where the number has no more room, above two to the 64 rows.
    pub fn one_more(&mut self, hop: Addr<F>) -> Result<bool, Memory>
        ensures counts { OnOk result (self.new ≡ one_more self.old hop) }
        ensures first { IfOk result (λ first. first ≡ not (map.contains_key self.old hop)) }
        ensures memory { OnErr result (self.new ≡ self.old) }
    {
        match count_at(&self.others, hop) {
            Some(others) => {
                let more = raised(others)?;
                put_count(&mut self.others, hop, more);
                Ok(false)
            }
            None => {
                self.others.insert(hop, 0)?;
                Ok(true)
            }
        }
    }

    /// One row less names the next hop, if one did. Answers whether it was the only one. Takes no memory.
    pub fn one_less(&mut self, hop: Addr<F>) -> bool
        ensures counts { self.new ≡ one_less self.old hop }
        ensures last { result ≡ is_one (map.get self.old hop) }
    {
        match count_at(&self.others, hop) {
            None => false,
            Some(0) => {
                self.others.remove(&hop);
                true
            }
            Some(others) => {
                put_count(&mut self.others, hop, others - 1);
                false
            }
        }
    }
}
