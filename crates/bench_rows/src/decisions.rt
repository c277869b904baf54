//! Measures the decision: changes of branches at random prefixes, each decided over all branches.
//!
//! Either they only change the branches' tables, or each change is decided too: the difference of both in time is the
//! decision's. What is measured: how many changes of the best route were sent, and a checksum of them.

mod branches;

ghost use Rattle.std.specs.Prelude.{◌≡◌, ◌<◌, ◌≤◌, length, IfOk, IfSome, OnOk};
ghost use Rattle.bench_rows.specs.Tables.{rows_in, Informed};

use crate::measured::{Measured, mixed};
use addr4::{Addr, Memory, Prefix, RouterId, Row};
use bgp_attr::{
    AsPath, Attrs, Neighbour, Origin, Reflection, Route, SharedAttrs, UnrecognizedAttrs,
};
use branches::{MOST, TableBranches};
use decision::Contests;
use link_change::{Change, copy_row};
use safe_table::Table;
use std::alloc::Global;

/// How many different attributes the routes of all peers have.
const KINDS: u64 = 64;

// Attributes whose path has 1 to 4 AS numbers.
fn attrs_of(alloc: Global, kind: u64) -> Result<SharedAttrs, Memory> {
    let mut path = AsPath::new(alloc);
    for place in (0..kind % 4 + 1).rev() {
        path = path.prepended(65001 + (kind % 7) as u32 + (place % 4) as u32, 0)?;
    }
    let attrs = Attrs {
        origin: Origin::Igp,
        path,
        next_hop: Addr::new(0xc000_0201),
        med: None,
        local_pref: None,
        atomic: false,
        aggregator: None,
        reflection: Reflection::none(),
        unrecognized: UnrecognizedAttrs::none(),
    };
    SharedAttrs::new(alloc, attrs)
}

// The peer of a branch: one of eight AS numbers.
fn peer(branch: u8) -> Neighbour {
    let number = u32::from(branch);
    Neighbour {
        number: branch,
        asn: 65001 + number % 8,
        id: RouterId::new(0xc000_0200 + number),
        addr: Addr::new(0xc000_0200 + number),
        internal: branch % 8 == 7,
        client: false,
    }
}

/// What is to be done: so many changes of so many branches, 1 to 65 with the local one, at so many prefixes.
#[derive(Clone, Copy)]
pub(crate) struct Work {
    pub(crate) branches: u8,
    pub(crate) prefixes: u32,
    pub(crate) changes: u64,
    pub(crate) decides: bool,
}

// The row that a change sets: in one of four cases none. Branch 0 has no local rows, which would win everywhere.
fn row_of(number: u64, branch: u8, kinds: &[SharedAttrs]) -> Result<Option<Route>, Memory> {
    if number >> 60 < 4 || branch == 0 {
        return Ok(None);
    }
    let Some(attrs) = kinds.get((number >> 40 & 63) as usize) else {
        return Ok(None);
    };
    Ok(Some(Route {
        attrs: attrs.copy()?,
        pref: 100,
        med: Some((number >> 50 & 3) as u32),
        prepend: 0,
        igp: Some(1 + (number >> 52 & 1) as u32),
        from: Some(peer(branch)),
    }))
}

fn sum_of(change: &Change<Route>) -> u64 {
    match &change.after {
        None => 1,
        Some(route) => route.from.map_or(2, |from| 3 + u64::from(from.number)),
    }
}

/// The branches, and what the decision knows of them.
#[derive(Drop)]
struct Decided {
    all: TableBranches,
    contests: Contests,
}

/// A branch's row at a prefix.
#[derive(Drop)]
struct Step {
    branch: u8,
    prefix: Prefix,
    row: Option<Route>,
}

impl Decided {
    /// So many branches without rows.
    fn new(alloc: Global, branches: u8) -> Result<Decided, Memory>
        ensures there { IfOk result (λ d. length d.all.tables.items ≡ branches) }
        ensures informed { IfOk result (λ d. Informed d.contests (rows_in d.all.tables.items)) }
    {
        let mut tables = Vec::new(alloc);
        for _ in 0..branches {
            tables.push(Table::new(alloc))?;
        }
        Ok(Decided {
            all: TableBranches { tables },
            contests: Contests::new(alloc),
        })
    }

    // A branch's row is set, and the change decided over all.
    fn decide(&mut self, step: Step) -> Result<u64, Memory>
        requires small { step.branch < 65 }
        requires there { step.branch < length self.old.all.tables.items }
        requires informed { Informed self.old.contests (rows_in self.old.all.tables.items) }
        ensures there { OnOk result (length self.new.all.tables.items ≡ length self.old.all.tables.items) }
        ensures informed { OnOk result (Informed self.new.contests (rows_in self.new.all.tables.items)) }
    {
        let Step {
            branch,
            prefix,
            row,
        } = step;
        let after = copy_row(&row)?;
        let before = self.all.set(branch, prefix, row)?;
        let Some(change) = Change::between(prefix, before, after) else {
            return Ok(0);
        };
        if change.before.is_none() {
            self.contests.note(prefix, true)?;
            let sent = self.contests.take_in(branch, change, &self.all)?;
            return Ok(sent.as_ref().map_or(0, sum_of));
        }
        let goes = change.after.is_none();
        let sent = self.contests.take_in(branch, change, &self.all)?;
        if goes {
            self.contests.note(prefix, false)?;
            return Ok(sent.as_ref().map_or(0, sum_of));
        }
        Ok(sent.as_ref().map_or(0, sum_of))
    }

    // A branch's row is set, and nothing decided.
    fn store(&mut self, step: Step) -> Result<u64, Memory>
        requires small { step.branch < 65 }
        requires there { step.branch < length self.old.all.tables.items }
        ensures there { OnOk result (length self.new.all.tables.items ≡ length self.old.all.tables.items) }
    {
        let after = copy_row(&step.row)?;
        let before = self.all.set(step.branch, step.prefix, step.row)?;
        Ok(
            Change::between(step.prefix, before, after)
                .as_ref()
                .map_or(0, sum_of),
        )
    }
}

// What a number says is to be set, if it is anything.
fn step_of(
    number: u64,
    branches: u8,
    prefixes: u32,
    kinds: &[SharedAttrs],
) -> Result<Option<Step>, Memory>
    requires some { 0 < branches }
    ensures { IfOk result (λ step. IfSome step (λ s. s.branch < branches)) }
{
    let branch = (number % u64::from(branches)) as u8;
    let place = ((number >> 8) % u64::from(prefixes.max(1))) as u32;
    let Some(prefix) = Prefix::new(Addr::new(place.wrapping_mul(256)), 24) else {
        return Ok(None);
    };
    let row = row_of(number, branch, kinds)?;
    Ok(Some(Step {
        branch,
        prefix,
        row,
    }))
}

fn store_all(
    decided: &mut Decided,
    work: &Work,
    branches: u8,
    kinds: &[SharedAttrs],
) -> Result<Measured, Memory>
    requires some { 0 < branches }
    requires small { branches ≤ 65 }
    requires there { length decided.old.all.tables.items ≡ branches }
{
    let mut measured = Measured { count: 0, sum: 0 };
    for index in 0..work.changes {
        if let Some(step) = step_of(mixed(index), branches, work.prefixes, kinds)? {
            let sum = decided.store(step)?;
            if sum != 0 {
                measured.add(sum);
            }
        }
    }
    Ok(measured)
}

fn decide_all(
    decided: &mut Decided,
    work: &Work,
    branches: u8,
    kinds: &[SharedAttrs],
) -> Result<Measured, Memory>
    requires some { 0 < branches }
    requires small { branches ≤ 65 }
    requires there { length decided.old.all.tables.items ≡ branches }
    requires informed { Informed decided.old.contests (rows_in decided.old.all.tables.items) }
{
    let mut measured = Measured { count: 0, sum: 0 };
    for index in 0..work.changes {
        if let Some(step) = step_of(mixed(index), branches, work.prefixes, kinds)? {
            let sum = decided.decide(step)?;
            if sum != 0 {
                measured.add(sum);
            }
        }
    }
    Ok(measured)
}

pub(crate) fn run(alloc: Global, work: &Work) -> Result<Measured, Memory> {
    let mut kinds = Vec::new(alloc);
    for kind in 0..KINDS {
        kinds.push(attrs_of(alloc, kind)?)?;
    }
    let branches = work.branches.clamp(1, MOST);
    let mut decided = Decided::new(alloc, branches)?;
    if work.decides {
        return decide_all(&mut decided, work, branches, kinds.as_slice());
    }
    store_all(&mut decided, work, branches, kinds.as_slice())
}
