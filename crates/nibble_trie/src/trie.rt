//! Tries.

ghost use Rattle.std.specs.Prelude.{◌≡◌, IsOk, OnOk, OnErr, IfOk, IfErr, IfSome, MatchOption, option_map, Some, None};
ghost use Rattle.std.specs.Option.{option_copied, option_copied_mut};
ghost use Rattle.std.specs.FinMap as map;
ghost use Rattle.std.specs.Borrow.{sem};
ghost use Rattle.addr4.specs.Places.{IsNextRow, key_of};
ghost use Rattle.nibble_trie.specs.Contents.{HasKey, IsEntered, IsOccupied};

use crate::index::Index;
use crate::node::Node;
use crate::removing::remove;
use crate::{reading, writing};
use addr4::{Family, Place, Prefix, V4};
use slab::Slab;
use std::alloc::Global;
use std::cell::Cell;
use std::marker::Model;

/// A map from prefixes to values. Contracts see its rows, a finite map, and of each key in [`nodes`](Trie::nodes) the prefix
/// of the leaf that lies there.
#[derive(Drop)]
pub struct Trie<V, F: Family = V4> {
    leaves: Slab<Node<V, Prefix<F>>>,
    index: Index,
    // The key of the leaf that was found or put last, which may be gone: often the next call is about the same prefix. No contract
    // sees it.
    last: Cell<usize>,
}

impl<V, F: Family> Model for Trie<V, F> {
    ghost use Rattle.nibble_trie.specs.Contents.{Contents, contents_code};

    ghost Value = { Contents V };

    ghost coded = { contents_code V.code };

    ghost use Rattle.nibble_trie.specs.Nodes.{prefixes_of};
    ghost use Rattle.nibble_trie.specs.View.{rows_of, IsWhole};

    ghost view = { λ t. record { rows = rows_of t.leaves; leaves = prefixes_of t.leaves } };

    ghost invariant = { λ t. IsWhole t.leaves t.index };
}

impl<V, F: Family> Trie<V, F> {
    ghost use Rattle.nibble_trie.specs.Lent.{lends_value, lends_get};
    ghost use Rattle.nibble_trie.specs.Contents.{LiesAt};
    ghost use Rattle.nibble_trie.specs.Nodes.{HasNodes, prefixes_of};

    /// An empty map. Takes no memory.
    pub fn new(alloc: Global) -> Self
        ensures { result.rows ≡ map.empty }
    {
        Trie {
            leaves: Slab::new(alloc),
            index: Index::new(alloc),
            last: Cell::new(0),
        }
    }

    /// Puts a value at a prefix, and answers the one that stood there. For want of memory the value is handed back and the
    /// rows stay; so they do where there are 2^31 keys.
    pub fn insert(&mut self, prefix: Prefix<F>, value: V) -> Result<Option<V>, V>
        ensures before { IfOk result (λ before. before ≡ map.get self.old.rows prefix) }
        ensures ok { OnOk result (self.new.rows ≡ map.insert self.old.rows prefix value) }
        ensures value_returned { IfErr result (λ back. back ≡ value) }
        ensures err { OnErr result (self.new.rows ≡ self.old.rows) }
    {
        if !writing::make_room(&mut self.leaves, &mut self.index.branches) {
            return Err(value);
        }
        let vacant = self.leaves.vacant_key();
        let before = writing::put(&mut self.leaves, &mut self.index, prefix, value);
        if before.is_none() {
            self.last.set(vacant);
        }
        Ok(before)
    }

    /// Puts a value at a prefix where nothing stands. Where something does, it stays, and the value is handed back with the key
    /// of its leaf in [`nodes`](Trie::nodes); that takes no memory, and asks for none. For want of memory the value is handed
    /// back and the rows stay; so they do where there are 2^31 keys.
    pub fn enter(&mut self, prefix: Prefix<F>, value: V) -> Result<Option<(usize, V)>, V>
        ensures ok { IfOk result (λ found. MatchOption found (IsEntered self.old self.new prefix value) (IsOccupied self.old self.new prefix value)) }
        ensures value_returned { IfErr result (λ back. back ≡ value) }
        ensures absent { OnErr result (map.get self.old.rows prefix ≡ None) }
        ensures err { OnErr result (self.new.rows ≡ self.old.rows) }
    {
        let gap = match reading::search(&self.index, &self.leaves, prefix) {
            Ok(key) => {
                self.last.set(key);
                return Ok(Some((key, value)));
            }
            Err(gap) => gap,
        };
        if !writing::make_room(&mut self.leaves, &mut self.index.branches) {
            return Err(value);
        }
        let vacant = self.leaves.vacant_key();
        writing::add(&mut self.leaves, &mut self.index, gap, prefix, value);
        self.last.set(vacant);
        Ok(None)
    }

    /// Takes out what stands at a prefix. Takes no memory, as all calls below.
    pub fn remove(&mut self, prefix: Prefix<F>) -> Option<V>
        ensures before { result ≡ map.get self.old.rows prefix }
        ensures rows { self.new.rows ≡ map.remove self.old.rows prefix }
    {
        remove(&mut self.leaves, &mut self.index, prefix)
    }

    /// Lends the value at a key, to be changed in place.
    pub fn value_mut(&mut self, prefix: Prefix<F>) -> &mut V
        requires { HasKey self.old.rows prefix }
        ensures* writes_back { sem 𝓛 (lends_value V.row F.row F.Family self.entry prefix result) }
        ensures value { map.get self.old.rows prefix ≡ Some result.now }
    {
        let key = reading::find_last(&self.index, &self.leaves, &self.last, prefix).unwrap();
        &mut self.leaves[key].value
    }

    /// [`value_mut`](Trie::value_mut), without a descent where `near` is the key in [`nodes`](Trie::nodes) of the prefix's
    /// leaf. Any other key costs a descent and changes nothing else.
    pub fn value_near(&mut self, near: usize, prefix: Prefix<F>) -> &mut V
        requires { HasKey self.old.rows prefix }
        ensures* writes_back { sem 𝓛 (lends_value V.row F.row F.Family self.entry prefix result) }
        ensures value { map.get self.old.rows prefix ≡ Some result.now }
    {
        let key = reading::find_near(&self.index, &self.leaves, near, prefix).unwrap();
        &mut self.leaves[key].value
    }

    /// Lends what stands at a prefix, if anything, to be changed in place.
    pub fn get_mut(&mut self, prefix: Prefix<F>) -> Option<&mut V>
        ensures* writes_back { sem 𝓛 (lends_get V.row F.row F.Family self.entry prefix result) }
        ensures value { option_copied_mut result ≡ map.get self.old.rows prefix }
    {
        match reading::find_last(&self.index, &self.leaves, &self.last, prefix) {
            None => None,
            Some(key) => Some(self.leaves[key].value_mut()),
        }
    }

    /// What stands at a prefix.
    pub fn get(&self, prefix: Prefix<F>) -> Option<&V>
        ensures { option_copied result ≡ map.get self.now.rows prefix }
    {
        match reading::find_last(&self.index, &self.leaves, &self.last, prefix) {
            None => None,
            Some(key) => {
                let node = &self.leaves[key];
                Some(&node.value)
            }
        }
    }

    /// What stands at a prefix, and the key of its leaf in [`nodes`](Trie::nodes).
    pub fn find(&self, prefix: Prefix<F>) -> Option<(&V, usize)>
        ensures value { option_map (λ found. found.0.now) result ≡ map.get self.now.rows prefix }
        ensures key { IfSome result (λ found. LiesAt self.now.leaves found.1 prefix) }
    {
        match reading::find_last(&self.index, &self.leaves, &self.last, prefix) {
            None => None,
            Some(key) => {
                let node = &self.leaves[key];
                Some((&node.value, key))
            }
        }
    }

    /// The leaves: one for each key.
    pub fn nodes(&self) -> &Slab<Node<V, Prefix<F>>>
        ensures rows { HasNodes result.now self.now.rows }
        ensures leaves { prefixes_of result.now ≡ self.now.leaves }
    {
        &self.leaves
    }

    /// The first row beyond a place, by address and then length.
    pub fn next_row(&self, after: Place<Prefix<F>>) -> Option<(Prefix<F>, &V)>
        ensures prefix { IsNextRow (map.get self.now.rows) (key_of after) (option_map (λ row. row.0) result) }
        ensures value { IfSome result (λ row. map.get self.now.rows row.0 ≡ Some row.1.now) }
    {
        match reading::next_leaf(&self.index, &self.leaves, 0, after) {
            None => None,
            Some(key) => {
                self.last.set(key);
                let node = &self.leaves[key];
                Some((node.prefix, &node.value))
            }
        }
    }

    /// [`next_row`](Trie::next_row), and the key of its leaf in [`nodes`](Trie::nodes): without a descent where `near` is the
    /// key of the place's leaf and the next row has its address. Any other key costs that descent and changes no row.
    pub fn next_near(&self, near: usize, after: Place<Prefix<F>>) -> Option<(Prefix<F>, &V, usize)>
        ensures prefix { IsNextRow (map.get self.now.rows) (key_of after) (option_map (λ row. row.0) result) }
        ensures value { IfSome result (λ row. map.get self.now.rows row.0 ≡ Some row.1.now) }
        ensures key { IfSome result (λ row. LiesAt self.now.leaves row.2 row.0) }
    {
        match reading::next_leaf(&self.index, &self.leaves, near, after) {
            None => None,
            Some(key) => {
                self.last.set(key);
                let node = &self.leaves[key];
                Some((node.prefix, &node.value, key))
            }
        }
    }
}
