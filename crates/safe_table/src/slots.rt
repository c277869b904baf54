//! The calls of a table on its trie of slots.

ghost use Rattle.std.specs.Prelude.{◌≡◌, ◌↔◌, ◌+◌, ◌-◌, ◌<◌, ◌^◌, IsTrue, IsOk, OnOk, OnErr, IfOk, IfSome, option_map, is_some, Some, None, true, false};
ghost use Rattle.std.specs.FinMap as map;
ghost use Rattle.nibble_trie.specs.Contents.{HasKey};
ghost use Rattle.addr4.specs.Places.{key_of, IsNextRow};
ghost use Rattle.safe_table.specs.Fields.{live_rows, live_value, readers_of, Leaves, MatchPlace};
ghost use Rattle.safe_table.specs.Slots.{Slot};

use crate::slot::Slot;
use addr4::{Family, Memory, Place, Prefix};
use nibble_trie::Trie;

// One more iterator stands at a prefix, whose leaf may lie at a key.
pub(crate) fn enter<V, F: Family>(trie: &mut Trie<Slot<V>, F>, near: usize, prefix: Prefix<F>)
    requires has { HasKey trie.old.rows prefix }
    requires fits { (s : Slot V) → map.get trie.old.rows prefix ≡ Some s → s.readers + 1 < 2 ^ 32 }
    ensures { (s : Slot V) → map.get trie.old.rows prefix ≡ Some s → trie.new.rows ≡ map.insert trie.old.rows prefix (record s { readers = s.readers + 1 }) }
{
    let slot = trie.value_near(near, prefix);
    slot.enter();
}

// One iterator less stands at a prefix, whose leaf may lie at a key. The last one takes what was removed along.
pub(crate) fn leave<V: Drop, F: Family>(trie: &mut Trie<Slot<V>, F>, near: usize, prefix: Prefix<F>)
    requires has { HasKey trie.old.rows prefix }
    requires stands { (s : Slot V) → map.get trie.old.rows prefix ≡ Some s → 0 < s.readers }
    ensures { (s : Slot V) → map.get trie.old.rows prefix ≡ Some s → Leaves trie.old.rows trie.new.rows prefix s }
{
    let slot = trie.value_near(near, prefix);
    slot.leave();
    if slot.readers() == 0 && !slot.has_row() {
        trie.remove(prefix);
    }
}

pub(crate) fn leave_place<V: Drop, F: Family>(
    trie: &mut Trie<Slot<V>, F>,
    near: usize,
    place: Place<Prefix<F>>,
)
    requires { MatchPlace place (Unit {0}) (λ p. HasKey trie.old.rows p × ((s : Slot V) → map.get trie.old.rows p ≡ Some s → 0 < s.readers)) }
    ensures { MatchPlace place (trie.new.rows ≡ trie.old.rows) (λ p. (s : Slot V) → map.get trie.old.rows p ≡ Some s → Leaves trie.old.rows trie.new.rows p s) }
{
    match place {
        Place::Before => {}
        Place::At(prefix) => leave(trie, near, prefix),
    }
}

// The first prefix beyond a place that has a row, and the key of its leaf. The leaf of the place may lie at a key.
pub(crate) fn first_live<V, F: Family>(
    trie: &Trie<Slot<V>, F>,
    near: usize,
    after: Place<Prefix<F>>,
) -> Option<(Prefix<F>, usize)>
    ensures { IsNextRow (map.get (live_rows trie.now.rows)) (key_of after) (option_map (λ row. row.0) result) }
{
    let mut row = match next_slot(trie, near, after) {
        None => return None,
        Some(row) => row,
    };
    'rows: while !row.1 {
        row.0.known();
        row = match next_slot(trie, row.2, Place::At(row.0)) {
            None => return None,
            Some(next) => next,
        };
    }
    Some((row.0, row.2))
}

// The first prefix beyond a place where something stands, whether it has a row, and the key of its leaf.
fn next_slot<V, F: Family>(
    trie: &Trie<Slot<V>, F>,
    near: usize,
    after: Place<Prefix<F>>,
) -> Option<(Prefix<F>, bool, usize)>
    ensures prefix { IsNextRow (map.get trie.now.rows) (key_of after) (option_map (λ row. row.0) result) }
    ensures live { IfSome result (λ row. IsTrue row.1 ↔ HasKey (live_rows trie.now.rows) row.0) }
{
    match trie.next_near(near, after) {
        None => None,
        Some(row) => Some((row.0, row.1.has_row(), row.2)),
    }
}

// Whether there is a row at a prefix.
pub(crate) fn has_row<V, F: Family>(trie: &Trie<Slot<V>, F>, prefix: Prefix<F>) -> bool
    ensures { result ≡ is_some (live_value (map.get trie.now.rows prefix)) }
{
    match trie.get(prefix) {
        None => false,
        Some(slot) => slot.has_row(),
    }
}

// The key of the leaf at a prefix, if that has a row.
pub(crate) fn row_leaf<V, F: Family>(trie: &Trie<Slot<V>, F>, prefix: Prefix<F>) -> Option<usize>
    ensures { is_some result ≡ is_some (live_value (map.get trie.now.rows prefix)) }
{
    match trie.find(prefix) {
        None => None,
        Some(found) => {
            if found.0.has_row() {
                Some(found.1)
            } else {
                None
            }
        }
    }
}

// Whether one row more can be counted, if the prefix has none yet.
pub(crate) fn fits<V, F: Family>(trie: &Trie<Slot<V>, F>, count: usize, prefix: Prefix<F>) -> bool
    ensures fits { result ≡ true → live_value (map.get trie.now.rows prefix) ≡ None → count + 1 < 2 ^ 64 }
    ensures none { result ≡ false → live_value (map.get trie.now.rows prefix) ≡ None }
{
    if count < usize::MAX {
        return true;
    }
    has_row(trie, prefix)
}

// A row was put in the place of a slot: that slot's iterators stay, and its row is answered.
fn keep_readers<V: Drop, F: Family>(
    trie: &mut Trie<Slot<V>, F>,
    prefix: Prefix<F>,
    before: Slot<V>,
) -> Option<V>
    requires { HasKey trie.old.rows prefix }
    ensures before { result ≡ before.value }
    ensures stays { (s : Slot V) → map.get trie.old.rows prefix ≡ Some s → s.readers ≡ 0 → trie.new.rows ≡ map.insert trie.old.rows prefix (record s { readers = before.readers }) }
{
    let readers = before.readers();
    if readers == 0 {
        return before.into_row();
    }
    trie.value_mut(prefix).set_readers(readers);
    before.into_row()
}

// Puts a slot without iterators where one stands, whose iterators stay: that takes no memory.
fn put_in_place<V: Drop, F: Family>(
    trie: &mut Trie<Slot<V>, F>,
    prefix: Prefix<F>,
    slot: Slot<V>,
) -> Result<Option<V>, Memory>
    ensures ok { OnOk result (trie.new.rows ≡ map.insert trie.old.rows prefix (record slot { readers = readers_of (map.get trie.old.rows prefix) })) }
    ensures before { IfOk result (λ before. before ≡ live_value (map.get trie.old.rows prefix)) }
    ensures err { OnErr result (trie.new.rows ≡ trie.old.rows) }
    ensures succeeds { HasKey trie.old.rows prefix → IsOk result }
{
    match trie.get_mut(prefix) {
        None => Err(Memory),
        Some(standing) => Ok(standing.replace(slot)),
    }
}

// Puts a row at a prefix, where iterators stay.
pub(crate) fn put<V: Drop, F: Family>(
    trie: &mut Trie<Slot<V>, F>,
    prefix: Prefix<F>,
    value: V,
) -> Result<Option<V>, Memory>
    ensures ok { OnOk result (trie.new.rows ≡ map.insert trie.old.rows prefix (record { value = Some value; readers = readers_of (map.get trie.old.rows prefix) })) }
    ensures before { IfOk result (λ before. before ≡ live_value (map.get trie.old.rows prefix)) }
    ensures err { OnErr result (trie.new.rows ≡ trie.old.rows) }
    ensures succeeds { HasKey trie.old.rows prefix → IsOk result }
{
    match trie.insert(prefix, Slot::new(value)) {
        Ok(None) => Ok(None),
        Ok(Some(before)) => Ok(keep_readers(trie, prefix, before)),
        Err(slot) => put_in_place(trie, prefix, slot),
    }
}

// Takes the slot at a prefix, at which no iterator stands.
fn take_slot<V, F: Family>(trie: &mut Trie<Slot<V>, F>, prefix: Prefix<F>) -> Option<V>
    ensures before { result ≡ live_value (map.get trie.old.rows prefix) }
    ensures rows { trie.new.rows ≡ map.remove trie.old.rows prefix }
{
    match trie.remove(prefix) {
        None => None,
        Some(slot) => slot.into_row(),
    }
}

// Takes the row at a prefix, where iterators stay. Where it is known that none stands there, one descent is enough.
pub(crate) fn take<V: Drop, F: Family>(
    trie: &mut Trie<Slot<V>, F>,
    prefix: Prefix<F>,
    alone: bool,
) -> Option<V>
    requires { alone ≡ true → (s : Slot V) → map.get trie.old.rows prefix ≡ Some s → s.readers ≡ 0 }
    ensures before { result ≡ live_value (map.get trie.old.rows prefix) }
    ensures absent { map.get trie.old.rows prefix ≡ None → trie.new.rows ≡ trie.old.rows }
    ensures goes { (s : Slot V) → map.get trie.old.rows prefix ≡ Some s → s.readers ≡ 0 → trie.new.rows ≡ map.remove trie.old.rows prefix }
    ensures stays { (s : Slot V) → map.get trie.old.rows prefix ≡ Some s → 0 < s.readers → trie.new.rows ≡ map.insert trie.old.rows prefix (record s { value = None }) }
{
    if alone {
        return take_slot(trie, prefix);
    }
    let slot = match trie.get_mut(prefix) {
        None => return None,
        Some(slot) => slot,
    };
    let before = slot.take();
    if slot.readers() == 0 {
        trie.remove(prefix);
    }
    before
}
