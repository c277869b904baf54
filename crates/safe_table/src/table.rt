//! Tables.

ghost use Rattle.std.specs.Prelude.{◌≡◌, ◌↔◌, ◌+◌, ◌-◌, ◌<◌, ◌≤◌, ◌^◌, if◌then◌else◌, true, false, IsTrue, IsOk, OnOk, OnErr, IfOk, IfSome, IsSome, MatchOption, option_map, Some, None};
ghost use Rattle.std.specs.Option.{option_copied, option_copied_mut};
ghost use Rattle.std.specs.Borrow.{sem};
ghost use Rattle.std.specs.FinMap as map;
ghost use Rattle.addr4.specs.Places.{key_of, IsNextRow};
ghost use Rattle.addr4.specs.declared.place.Place.TheVariants.{Before, At};
ghost use Rattle.nibble_trie.specs.Contents.{HasKey};
ghost use Rattle.nibble_trie.specs.Nodes.{HasNodes};
ghost use Rattle.safe_table.specs.Tables.{Moves, HasPlaces};

use crate::iter::{self, Iter};
use crate::slot::Slot;
use crate::slots;
use addr4::{Family, Memory, Place, Prefix, V4};
use nibble_trie::{Node, Trie};
use slab::Slab;
use std::alloc::Global;
use std::marker::Model;

/// A map from prefixes to rows, with iterators that changes of the map leave in their places.
///
/// Contracts see two finite maps: the rows, and the places of the live iterators by their numbers.
#[derive(Drop)]
pub struct Table<V, F: Family = V4> {
    // At each prefix that has a row or an iterator, a slot.
    trie: Trie<Slot<V>, F>,
    // Where each live iterator stands.
    places: Slab<Place<Prefix<F>>>,
    // How many rows there are.
    count: usize,
}

impl<V, F: Family> Model for Table<V, F> {
    ghost use Rattle.safe_table.specs.Fields.{live_rows, iterators_of, IsSound};
    ghost use Rattle.safe_table.specs.Tables.{Rows, rows_code};

    ghost Value = { Rows V };

    ghost coded = { rows_code V.code };

    ghost view = { λ t. record {
      rows = live_rows t.trie.rows;
      iterators = iterators_of t.places.slots;
    } };

    ghost invariant = { λ t. IsSound t.trie.rows t.places.slots t.count };
}

// One more, unless the row was known.
fn with_row(known: bool, count: usize) -> usize
    requires { known ≡ false → count + 1 < 2 ^ 64 }
    ensures { result ≡ (if known then count else count + 1) }
{
    if known { count } else { count + 1 }
}

// One less, if there was a row.
fn without_row(known: bool, count: usize) -> usize
    requires { known ≡ true → 0 < count }
    ensures { result ≡ (if known then count - 1 else count) }
{
    if known { count - 1 } else { count }
}

impl<V: Drop, F: Family> Table<V, F> {
    ghost use Rattle.safe_table.specs.Lent.{lends_get};

    /// An empty table without iterators. Takes no memory.
    pub fn new(alloc: Global) -> Self
        ensures rows { result.rows ≡ map.empty }
        ensures iterators { result.iterators ≡ map.empty }
    {
        Table {
            trie: Trie::new(alloc),
            places: Slab::new(alloc),
            count: 0,
        }
    }

    /// The number of rows.
    pub fn len(&self) -> usize
        ensures { result ≡ map.len self.now.rows }
    {
        self.count
    }

    /// Whether there is no row.
    pub fn is_empty(&self) -> bool
        ensures { IsTrue result ↔ (self.now.rows ≡ map.empty) }
    {
        self.count == 0
    }

    /// The row at a prefix.
    pub fn get(&self, prefix: Prefix<F>) -> Option<&V>
        ensures { option_copied result ≡ map.get self.now.rows prefix }
    {
        match self.trie.get(prefix) {
            None => None,
            Some(slot) => slot.row(),
        }
    }

    /// Lends the row at a prefix, to be changed in place.
    pub fn get_mut(&mut self, prefix: Prefix<F>) -> Option<&mut V>
        ensures* writes_back { sem 𝓛 (lends_get V.row F.row F.Family self.entry prefix result) }
        ensures value { option_copied_mut result ≡ map.get self.old.rows prefix }
    {
        let leaf = match slots::row_leaf(&self.trie, prefix) {
            None => return None,
            Some(leaf) => leaf,
        };
        Some(self.trie.value_near(leaf, prefix).row_mut())
    }

    /// The first prefix beyond a place that has a row, by address and then length.
    pub fn next_after(&self, after: Place<Prefix<F>>) -> Option<Prefix<F>>
        ensures { IsNextRow (map.get self.now.rows) (key_of after) result }
    {
        match slots::first_live(&self.trie, 0, after) {
            None => None,
            Some(row) => Some(row.0),
        }
    }

    /// The leaves of the trie: one for each row, and one for each prefix at which an iterator stands.
    pub fn nodes(&self) -> &Slab<Node<Slot<V>, Prefix<F>>>
        ensures rows { HasNodes result.now self.now.rows }
        ensures places { HasPlaces result.now self.now.iterators }
    {
        self.trie.nodes()
    }

    /// Puts a row at a prefix, and answers the one before. Succeeds where there is a row; for want of memory the
    /// table stays.
    pub fn insert(&mut self, prefix: Prefix<F>, row: V) -> Result<Option<V>, Memory>
        ensures before { IfOk result (λ before. before ≡ map.get self.old.rows prefix) }
        ensures ok { OnOk result (self.new.rows ≡ map.insert self.old.rows prefix row) }
        ensures err { OnErr result (self.new.rows ≡ self.old.rows) }
        ensures iterators { self.new.iterators ≡ self.old.iterators }
        ensures succeeds { HasKey self.old.rows prefix → IsOk result }
    {
        if !slots::fits(&self.trie, self.count, prefix) {
            return Err(Memory);
        }
        let before = slots::put(&mut self.trie, prefix, row)?;
        self.count = with_row(before.is_some(), self.count);
        Ok(before)
    }

    /// Takes out the row at a prefix. Iterators that stand there keep their place.
    pub fn remove(&mut self, prefix: Prefix<F>) -> Option<V>
        ensures before { result ≡ map.get self.old.rows prefix }
        ensures rows { self.new.rows ≡ map.remove self.old.rows prefix }
        ensures iterators { self.new.iterators ≡ self.old.iterators }
    {
        let alone = iter::nobody_at(&self.places, prefix);
        let before = slots::take(&mut self.trie, prefix, alone);
        self.count = without_row(before.is_some(), self.count);
        before
    }

    /// Takes out the first row, by address and then length.
    pub fn pop_first(&mut self) -> Option<(Prefix<F>, V)>
        ensures first { IsNextRow (map.get self.old.rows) None (option_map (λ row. row.0) result) }
        ensures row { IfSome result (λ row. map.get self.old.rows row.0 ≡ Some row.1) }
        ensures rows { MatchOption result (self.new.rows ≡ self.old.rows) (λ row. self.new.rows ≡ map.remove self.old.rows row.0) }
        ensures iterators { self.new.iterators ≡ self.old.iterators }
    {
        let prefix = match self.next_after(Place::Before) {
            None => return None,
            Some(prefix) => prefix,
        };
        match self.remove(prefix) {
            None => None,
            Some(row) => Some((prefix, row)),
        }
    }

    /// Begins an iterator, before all rows. For want of memory the table stays.
    pub fn iter_begin(&mut self) -> Result<Iter, Memory>
        ensures rows { self.new.rows ≡ self.old.rows }
        ensures fresh { IfOk result (λ it. map.get self.old.iterators it ≡ None) }
        ensures ok { IfOk result (λ it. self.new.iterators ≡ map.insert self.old.iterators it Before) }
        ensures live { IfOk result (λ it. IsSome (map.get self.new.iterators it)) }
        ensures err { OnErr result (self.new.iterators ≡ self.old.iterators) }
    {
        // A slot counts its iterators in 32 bits.
        if self.places.len() >= u32::MAX as usize {
            return Err(Memory);
        }
        let id = self.places.insert(Place::Before)?;
        Ok(Iter { id, leaf: 0 })
    }

    /// The first row beyond the place of the iterator that is there now, which it takes for its place. At none the
    /// iterator stays, and may find one later.
    pub fn iter_next(&mut self, it: &mut Iter) -> Option<Prefix<F>>
        requires { IsSome (map.get self.old.iterators it.old) }
        ensures rows { self.new.rows ≡ self.old.rows }
        ensures same { it.new ≡ it.old }
        ensures live { IsSome (map.get self.new.iterators it.new) }
        ensures moves { Moves self.old self.new it.old result }
    {
        let id = it.id;
        let near = it.leaf;
        let row = match slots::first_live(&self.trie, near, self.places[id]) {
            None => return None,
            Some(row) => row,
        };
        let prefix = row.0;
        let place = self.places[id];
        self.places[id] = Place::At(prefix);
        it.leaf = row.1;
        slots::enter(&mut self.trie, row.1, prefix);
        slots::leave_place(&mut self.trie, near, place);
        Some(prefix)
    }

    /// Ends an iterator. What was removed where it alone stood is gone.
    pub fn iter_end(&mut self, it: Iter)
        requires { IsSome (map.get self.old.iterators it) }
        ensures rows { self.new.rows ≡ self.old.rows }
        ensures iterators { self.new.iterators ≡ map.remove self.old.iterators it }
    {
        let Iter { id, leaf } = it;
        let place = self.places.remove(id);
        slots::leave_place(&mut self.trie, leaf, place);
    }
}
