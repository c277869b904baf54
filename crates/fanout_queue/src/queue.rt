//! Queues.

ghost use Rattle.std.specs.Prelude.{◌≡◌, length, [], IfOk, OnOk, OnErr, IfSome, IsSome, None};
ghost use Rattle.std.specs.FinMap as map;
ghost use Rattle.std.specs.Option.{option_copied};
ghost use Rattle.addr4.specs.Places.{key_of};
ghost use Rattle.link_change.specs.Rows.{Rows, IsNextCandidate, CoversRows, together};
ghost use Rattle.link_change.specs.InOrder.{rows_before, changed_in};
ghost use Rattle.fanout_queue.specs.Queues.{AppendsToAll, Takes, KeepsReaders, AllBelowRead, IsMostUnread};
ghost use Rattle.fanout_queue.specs.Readers.{read_rows, row_before};

use crate::entries::Entries;
use crate::places;
use crate::reader::Reader;
use addr4::{Family, Memory, Place, Prefix, Row, V4};
use link_change::{Change, Upstream, copy_row};
use std::alloc::Global;
use std::marker::Model;

/// A list of changes with a place for each reader. Contracts see what each live reader hasn't taken, by its number, the
/// first change first.
#[derive(Drop)]
pub struct Queue<R, F: Family = V4> {
    entries: Entries<R, F>,
    // The place of each live reader, by the number of the reader.
    places: Vec<Option<u64>>,
}

impl<R, F: Family> Model for Queue<R, F> {
    ghost use Rattle.fanout_queue.specs.Queues.{Queued, queued_code};
    ghost use Rattle.fanout_queue.specs.Places.{queued_of, IsQueue};

    ghost Value = { Queued R };

    ghost coded = { queued_code R.code };

    ghost view = { λ q. queued_of q.entries q.places.items };

    ghost invariant = { λ q. IsQueue q.entries q.places.items };
}

impl<R: Row, F: Family> Queue<R, F> {
    /// A queue without readers. Takes no memory.
    pub fn new(alloc: Global) -> Queue<R, F>
        ensures { result ≡ map.empty }
    {
        Queue {
            entries: Entries::new(alloc),
            places: Vec::new(alloc),
        }
    }

    /// Puts a change at the end of what each reader hasn't taken. For want of memory nothing changes.
    pub fn put(&mut self, change: Change<R, Prefix<F>>) -> Result<(), Memory>
        ensures ok { OnOk result (AppendsToAll change self.old self.new) }
        ensures stay { OnOk result (KeepsReaders self.old self.new) }
        ensures memory { OnErr result (self.new ≡ self.old) }
    {
        // Where nothing is kept these are all readers.
        if self.entries.first_readers() == 0 {
            return Ok(());
        }
        self.entries.put(change)
    }

    /// A new reader, under the least number that none has, which has nothing to take yet. For want of memory nothing changes.
    pub fn join_reader(&mut self) -> Result<Reader, Memory>
        ensures fresh { IfOk result (λ reader. map.get self.old reader ≡ None) }
        ensures least { IfOk result (AllBelowRead self.old) }
        ensures ok { IfOk result (λ reader. self.new ≡ map.insert self.old reader []) }
        ensures live { IfOk result (λ reader. IsSome (map.get self.new reader)) }
        ensures stay { OnOk result (KeepsReaders self.old self.new) }
        ensures memory { OnErr result (self.new ≡ self.old) }
    {
        let end = self.entries.end();
        let number = places::join_place(&mut self.places, end)?;
        self.entries.enter(end);
        Ok(Reader { number })
    }

    /// A reader leaves. Takes no memory.
    pub fn drop_reader(&mut self, reader: Reader)
        requires { IsSome (map.get self.old reader) }
        ensures { self.new ≡ map.remove self.old reader }
    {
        let place = places::place_of(self.places.as_slice(), reader.number);
        places::set_place(&mut self.places, reader.number, None);
        self.entries.leave(place);
        self.entries.trim();
    }

    /// Takes the first change that the reader hasn't taken. None exactly where there is none. Of every other reader all
    /// stays. For want of memory nothing changes; the last reader that is to take a change takes no memory.
    pub fn take(&mut self, reader: &mut Reader) -> Result<Option<Change<R, Prefix<F>>>, Memory>
        requires { IsSome (map.get self.old reader.old) }
        ensures same { reader.new ≡ reader.old }
        ensures ok { IfOk result (Takes self.old self.new reader.old) }
        ensures stay { OnOk result (KeepsReaders self.old self.new) }
        ensures memory { OnErr result (self.new ≡ self.old) }
    {
        let place = places::place_of(self.places.as_slice(), reader.number);
        if place == self.entries.end() {
            return Ok(None);
        }
        let change = self.entries.pass(place)?;
        places::set_place(&mut self.places, reader.number, Some(place + 1));
        Ok(Some(change))
    }

    /// Puts the changes that came since the last call into the index, so that lookups needn't go through them. For want of
    /// memory it has only some of them: lookups answer the same, and take longer.
    pub fn prepare(&mut self) -> Result<(), Memory>
        ensures { self.new ≡ self.old }
    {
        self.entries.prepare()
    }

    /// How many changes the reader hasn't taken.
    pub fn waiting(&self, reader: &Reader) -> u128
        requires { IsSome (map.get self.now reader.now) }
        ensures { IfSome (map.get self.now reader.now) (λ unread. result ≡ length unread) }
    {
        let place = places::place_of(self.places.as_slice(), reader.number);
        u128::from(self.entries.end() - place)
    }

    /// Whether there is a change at a prefix that the reader hasn't taken. Where there is none, it has the best row there.
    pub fn unread(&self, reader: &Reader, prefix: Prefix<F>) -> bool
        requires { IsSome (map.get self.now reader.now) }
        ensures { IfSome (map.get self.now reader.now) (λ unread. result ≡ changed_in unread prefix) }
    {
        let place = places::place_of(self.places.as_slice(), reader.number);
        self.entries.first_at(place, prefix).is_some()
    }

    /// The first change at a prefix that the reader hasn't taken, if there is one. What the reader has there is the row before it,
    /// or else the best one.
    pub fn first_unread(&self, reader: &Reader, prefix: Prefix<F>) -> Option<&Change<R, Prefix<F>>>
        requires { IsSome (map.get self.now reader.now) }
        ensures { (best : Rows R) → read_rows self.now reader.now best prefix ≡ row_before (option_copied result) (best prefix) }
    {
        let place = places::place_of(self.places.as_slice(), reader.number);
        self.entries.first_at(place, prefix)
    }

    /// How many changes are kept: as many as the reader hasn't taken that has taken the fewest.
    pub fn kept(&self) -> usize
        ensures { IsMostUnread self.now result }
    {
        self.entries.len()
    }

    /// What the reader has at a prefix, where these are the best rows: the row before the first change there that it hasn't
    /// taken, or else the best one.
    pub fn asked<U: Upstream<F, Row = R>>(
        &self,
        reader: &Reader,
        best: &U,
        prefix: Prefix<F>,
    ) -> Result<Option<R>, Memory>
        requires { IsSome (map.get self.now reader.now) }
        ensures { IfOk result (λ row. IfSome (map.get self.now reader.now) (λ unread. row ≡ rows_before unread (U.rows best.now) prefix)) }
    {
        let place = places::place_of(self.places.as_slice(), reader.number);
        match self.entries.first_at(place, prefix) {
            None => best.asked(&prefix),
            Some(change) => copy_row(&change.before),
        }
    }

    /// The least candidate beyond a place: one of the best rows, or a prefix of the changes that the reader hasn't taken. What
    /// the reader has stands at candidates.
    pub fn next_candidate<U: Upstream<F, Row = R>>(
        &self,
        reader: &Reader,
        best: &U,
        after: Place<Prefix<F>>,
    ) -> Option<Prefix<F>>
        requires { IsSome (map.get self.now reader.now) }
        ensures next { IfSome (map.get self.now reader.now) (λ unread. IsNextCandidate (together (U.candidates best.now) (changed_in unread)) (key_of after) result) }
        ensures covers { IfSome (map.get self.now reader.now) (λ unread. CoversRows (together (U.candidates best.now) (changed_in unread)) (rows_before unread (U.rows best.now))) }
    {
        let place = places::place_of(self.places.as_slice(), reader.number);
        let other = best.next_candidate(&after);
        self.entries.next_beside(place, &after, other)
    }
}
