//! The live rows.

ghost use Rattle.std.specs.Prelude.{◌≡◌, ◌↔◌, IsTrue, IfOk, OnOk, OnErr, IfSome, IsNone, is_some, Some, None};
ghost use Rattle.std.specs.Option.{option_copied};
ghost use Rattle.std.specs.FinMap as map;
ghost use Rattle.addr4.specs.Places.{key_of};
ghost use Rattle.link_change.specs.Rows.{IsNextCandidate, with_rows, is_empty_map};
ghost use Rattle.link_change.specs.Changes.{IsSent};

use addr4::{Memory, Place, Prefix, Row, Texts, V4};
use link_change::Change;
use safe_table::Table;
use std::alloc::Global;
use std::marker::Model;
use std::mem;

/// The live rows. Contracts see their map by prefix.
#[derive(Drop)]
pub struct Live<R, F: Texts = V4> {
    alloc: Global,
    live: Table<R, F>,
}

impl<R, F: Texts> Model for Live<R, F> {
    ghost use Rattle.std.specs.FinMap as map;
    ghost use Rattle.addr4.specs.Prefixes.{prefix_cmp, address_prefix_code};

    ghost Value = { map.FinMap prefix_cmp R };

    ghost coded = { map.code address_prefix_code R.code };

    ghost view = { λ p. p.live.rows };
}

impl<R: Row, F: Texts> Live<R, F> {
    /// No row is live. Takes no memory.
    pub fn new(alloc: Global) -> Live<R, F>
        ensures { result ≡ map.empty }
    {
        Live {
            alloc,
            live: Table::new(alloc),
        }
    }

    /// A row is set: an add, or the replacement of the one that is live at the prefix.
    /// None exactly where the equal row is live. For want of memory nothing changes.
    pub fn set(&mut self, prefix: Prefix<F>, row: R) -> Result<Option<Change<R, Prefix<F>>>, Memory>
        ensures sent { IfOk result (IsSent (map.get self.old) (map.get self.new) prefix) }
        ensures silent { IfOk result (λ sent. IsNone sent ↔ (map.get self.old prefix ≡ Some row)) }
        ensures after { IfOk result (λ sent. IfSome sent (λ change. change.after ≡ Some row)) }
        ensures table { OnOk result (self.new ≡ map.insert self.old prefix row) }
        ensures memory { OnErr result (self.new ≡ self.old) }
    {
        let kept = row.copy()?;
        let before = self.live.insert(prefix, kept)?;
        Ok(Change::between(prefix, before, Some(row)))
    }

    /// A row is taken away. None exactly where no row is live at the prefix. Takes no memory.
    pub fn unset(&mut self, prefix: Prefix<F>) -> Option<Change<R, Prefix<F>>>
        ensures sent { IsSent (map.get self.old) (map.get self.new) prefix result }
        ensures silent { IsNone result ↔ (map.get self.old prefix ≡ None) }
        ensures after { IfSome result (λ change. change.after ≡ None) }
        ensures table { self.new ≡ map.remove self.old prefix }
    {
        let before = self.live.remove(prefix);
        Change::between(prefix, before, None)
    }

    /// Gives all rows away, and begins anew. Takes no memory.
    pub fn lose(&mut self) -> Table<R, F>
        ensures lost { result.rows ≡ self.old }
        ensures fresh { self.new ≡ map.empty }
    {
        mem::replace(&mut self.live, Table::new(self.alloc))
    }

    /// How many rows are live.
    pub fn len(&self) -> usize
        ensures { result ≡ map.len self.now }
    {
        self.live.len()
    }

    /// Whether no row is live.
    pub fn is_empty(&self) -> bool
        ensures empty { IsTrue result ↔ (self.now ≡ map.empty) }
        ensures test { result ≡ is_empty_map self.now }
    {
        self.live.len() == 0
    }

    /// The row that is live at a prefix.
    pub fn asked(&self, prefix: Prefix<F>) -> Result<Option<R>, Memory>
        ensures { IfOk result (λ row. row ≡ map.get self.now prefix) }
    {
        match self.live.get(prefix) {
            None => Ok(None),
            Some(row) => Ok(Some(row.copy()?)),
        }
    }

    /// The row that is live at a prefix, lent.
    pub fn row(&self, prefix: Prefix<F>) -> Option<&R>
        ensures { option_copied result ≡ map.get self.now prefix }
    {
        self.live.get(prefix)
    }

    /// Whether a row is live at a prefix.
    pub fn has(&self, prefix: Prefix<F>) -> bool
        ensures { result ≡ is_some (map.get self.now prefix) }
    {
        self.live.get(prefix).is_some()
    }

    /// The least prefix beyond a place, by address and then length, at which a row is live.
    pub fn next_candidate(&self, after: Place<Prefix<F>>) -> Option<Prefix<F>>
        ensures { IsNextCandidate (with_rows (map.get self.now)) (key_of after) result }
    {
        if self.is_empty() {
            return None;
        }
        self.live.next_after(after)
    }
}
