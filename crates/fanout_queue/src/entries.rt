//! The entries of a queue: changes with numbers.

ghost use Rattle.std.specs.Prelude.{◌≡◌, ◌≤◌, ◌<◌, ◌+◌, ◌-◌, ◌^◌, [], ◌∷◌, ◌++◌, length, drop, slice_index_or, option_map, IfOk, OnOk, OnErr, IfSome, IsNone, Some, ◌↔◌, IsTrue};
ghost use Rattle.std.specs.Option.{option_copied};
ghost use Rattle.addr4.specs.Places.{key_of};
ghost use Rattle.fanout_queue.specs.Entries.{changes_of, first_before, IsNextBeside};

use crate::index;
use addr4::{Family, Memory, Place, Prefix, Row, V4};
use link_change::Change;
use std::alloc::Global;
use std::collections::{BTreeSet, VecDeque};
use std::marker::Model;

/// The changes that are kept, each with a number: the first that was ever put has 0, each later one the next. A reader's
/// place is the number of the change that it takes next.
#[derive(Drop)]
pub(crate) struct Entries<R, F: Family = V4> {
    pub(crate) kept: VecDeque<Entry<R, Prefix<F>>>,
    // The prefixes and numbers of the changes that lookups were prepared for, and of some that are kept no more.
    pub(crate) index: BTreeSet<(Prefix<F>, u64)>,
    // The number of the first that is kept and that the index doesn't have, or one of those that are kept no more.
    pub(crate) indexed: u64,
    // The number of the first that is kept.
    pub(crate) first: u64,
    // How many readers have taken all.
    at_end: usize,
}

// A change, and how many readers take it next.
#[derive(Drop)]
pub(crate) struct Entry<R, P = Prefix> {
    pub(crate) change: Change<R, P>,
    readers: usize,
}

// Below this many entries memory isn't given back.
const FEW: usize = 64;

impl<R, F: Family> Model for Entries<R, F> {
    ghost use Rattle.fanout_queue.specs.Entries.{Numbered, numbered_code, numbered_of, IsKept};

    ghost Value = { Numbered R };

    ghost coded = { numbered_code R.code };

    ghost view = { λ s. numbered_of s.first s.kept.items s.at_end s.indexed };

    ghost invariant = { λ s. IsKept s.first s.kept.items s.index s.indexed };
}

// Gives back memory that isn't used, if it is much.
fn give_back<T>(kept: &mut VecDeque<T>)
    ensures { kept.new.items ≡ kept.old.items }
{
    let capacity = kept.capacity();
    if capacity > FEW && kept.len() < capacity / 4 {
        kept.shrink_to(capacity / 2);
    }
}

// Puts an entry behind the others. For want of memory nothing changes.
fn push<T: Drop>(kept: &mut VecDeque<T>, entry: T) -> Result<(), Memory>
    ensures ok { OnOk result (kept.new.items ≡ kept.old.items ++ entry ∷ []) }
    ensures memory { OnErr result (kept.new.items ≡ kept.old.items) }
{
    match kept.push_back(entry) {
        Ok(()) => Ok(()),
        Err(_) => Err(Memory),
    }
}

impl<R: Row, F: Family> Entries<R, F> {
    ghost use Rattle.fanout_queue.specs.Entries.{IsPlace, readers_at, first_readers, unread_at, Puts, Enters, Leaves, CutsFirst, Trims, TakesOut, Passes};

    /// No changes and no readers. Takes no memory.
    pub(crate) fn new(alloc: Global) -> Entries<R, F>
        ensures { result ≡ record { first = 0; changes = []; readers = 0 ∷ []; indexed = 0 } }
    {
        Entries {
            kept: VecDeque::new(alloc),
            index: BTreeSet::new(alloc),
            indexed: 0,
            first: 0,
            at_end: 0,
        }
    }

    /// How many changes are kept.
    pub(crate) fn len(&self) -> usize
        ensures { result ≡ length self.now.changes }
    {
        self.kept.len()
    }

    /// The number that the next change will have.
    pub(crate) fn end(&self) -> u64
        ensures { result ≡ self.now.first + length self.now.changes }
    {
        self.first + self.kept.len() as u64
    }

    /// How many readers are to take the first change next.
    pub(crate) fn first_readers(&self) -> usize
        ensures { result ≡ first_readers self.now }
    {
        match self.kept.front() {
            None => self.at_end,
            Some(entry) => entry.readers,
        }
    }

    /// Puts a change behind the others. For want of memory, and when there is no further number, nothing changes.
    pub(crate) fn put(&mut self, change: Change<R, Prefix<F>>) -> Result<(), Memory>
        ensures ok { OnOk result (Puts self.old self.new change) }
        ensures memory { OnErr result (self.new ≡ self.old) }
    {
        if self.end() == u64::MAX {
            return Err(Memory);
        }
        let readers = self.at_end;
        push(&mut self.kept, Entry { change, readers })?;
        self.at_end = 0;
        Ok(())
    }

    /// One reader more stands at a place.
    pub(crate) fn enter(&mut self, place: u64)
        requires place { IsPlace self.old place }
        requires fits { readers_at self.old place + 1 < 2 ^ 64 }
        ensures { Enters self.old self.new place }
    {
        let at = (place - self.first) as usize;
        match self.kept.get_mut(at) {
            None => self.at_end += 1,
            Some(entry) => entry.readers += 1,
        }
    }

    /// One reader less stands at a place.
    pub(crate) fn leave(&mut self, place: u64)
        requires place { IsPlace self.old place }
        requires stands { 0 < readers_at self.old place }
        ensures { Leaves self.old self.new place }
    {
        let at = (place - self.first) as usize;
        match self.kept.get_mut(at) {
            None => self.at_end -= 1,
            Some(entry) => entry.readers -= 1,
        }
    }

    // Drops the first change, and answers it.
    fn cut_first(&mut self) -> Option<Change<R, Prefix<F>>>
        ensures none { IsNone result → (self.old.changes ≡ []) × (self.new ≡ self.old) }
        ensures some { IfSome result (λ change. CutsFirst self.old self.new change) }
    {
        match self.kept.pop_front() {
            None => None,
            Some(Entry { change, readers: _ }) => {
                self.first += 1;
                give_back(&mut self.kept);
                self.trim_index();
                Some(change)
            }
        }
    }

    /// Drops the first changes, as far as no reader is to take them.
    pub(crate) fn trim(&mut self)
        ensures { Trims self.old self.new }
    {
        'first: while self.first_readers() == 0 {
            if self.cut_first().is_none() {
                return;
            }
        }
    }

    // Whether a reader at a place is the only one that is to take the first change.
    fn is_alone(&self, place: u64) -> bool
        ensures { IsTrue result ↔ ((place ≡ self.now.first) × (first_readers self.now ≡ 1)) }
    {
        place == self.first && self.first_readers() == 1
    }

    // The change at a place.
    fn copy_at(&self, place: u64) -> Result<Change<R, Prefix<F>>, Memory>
        requires from { self.now.first ≤ place }
        requires within { place < self.now.first + length self.now.changes }
        ensures { IfOk result (λ change. unread_at self.now place ≡ change ∷ drop (place + 1 - self.now.first) self.now.changes) }
    {
        self.kept[(place - self.first) as usize].change.copy()
    }

    // A reader takes the change at its place. That is the change itself, which goes, where no other reader is to take it.
    fn take_out(&mut self, place: u64) -> Result<Change<R, Prefix<F>>, Memory>
        requires from { self.old.first ≤ place }
        requires within { place < self.old.first + length self.old.changes }
        requires stands { 0 < readers_at self.old place }
        ensures ok { IfOk result (λ change. TakesOut self.old self.new place change) }
        ensures memory { OnErr result (self.new ≡ self.old) }
    {
        if self.is_alone(place) {
            return self.cut_first().ok_or(Memory);
        }
        let change = self.copy_at(place)?;
        self.leave(place);
        Ok(change)
    }

    /// A reader takes the change at its place, and goes on to the next place. For want of memory nothing changes.
    pub(crate) fn pass(&mut self, place: u64) -> Result<Change<R, Prefix<F>>, Memory>
        requires from { self.old.first ≤ place }
        requires within { place < self.old.first + length self.old.changes }
        requires stands { 0 < readers_at self.old place }
        requires next { place + 1 < 2 ^ 64 }
        requires fits { readers_at self.old (place + 1) + 1 < 2 ^ 64 }
        ensures ok { IfOk result (λ change. Passes self.old self.new place change) }
        ensures memory { OnErr result (self.new ≡ self.old) }
    {
        let change = self.take_out(place)?;
        self.enter(place + 1);
        Ok(change)
    }
}
