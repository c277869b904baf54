//! Caches.

ghost use Rattle.std.specs.Prelude.{◌≡◌, IfOk, OnOk, OnErr, IsOk, None, option_copied};
ghost use Rattle.std.specs.FinMap as map;
ghost use Rattle.link_change.specs.Rows.{with_rows};
ghost use Rattle.cache_stage.specs.Caches.{CachesOn, kept_after};

use addr4::{Family, Memory, Place, Prefix, Row, V4};
use link_change::{Change, Upstream};
use safe_table::Table;
use std::alloc::Global;
use std::marker::Model;

/// The rows that were sent. Contracts see them.
#[derive(Drop)]
pub struct Cache<R, F: Family = V4> {
    alloc: Global,
    table: Table<R, F>,
}

impl<R, F: Family> Model for Cache<R, F> {
    ghost use Rattle.std.specs.FinMap.{FinMap};
    ghost use Rattle.std.specs.FinMap as map;
    ghost use Rattle.addr4.specs.Prefixes.{prefix_cmp, address_prefix_code};

    ghost Value = { FinMap prefix_cmp R };

    ghost coded = { map.code address_prefix_code R.code };

    ghost view = { λ c. c.table.rows };
}

impl<R: Row, F: Family> Cache<R, F> {
    /// No row. Takes no memory; what is kept later comes from `alloc`.
    pub fn new(alloc: Global) -> Cache<R, F>
        ensures { result ≡ map.empty }
    {
        Cache {
            alloc,
            table: Table::new(alloc),
        }
    }

    /// Keeps the row after a change, and passes the change on. Memory only for want of memory: then no row changes.
    pub fn take_in(&mut self, change: Change<R, Prefix<F>>) -> Result<Change<R, Prefix<F>>, Memory>
        ensures law { IfOk result (CachesOn self.old self.new change) }
        ensures passed { IfOk result (λ sent. sent ≡ change) }
        ensures rows { OnOk result (self.new ≡ kept_after self.old change.prefix change.after) }
        ensures memory { OnErr result (self.new ≡ self.old) }
    {
        self.keep(change.prefix, &change.after)?;
        Ok(change)
    }

    /// Makes the row the one that it keeps at a prefix, or keeps none there, which takes no memory. For want of memory no row
    /// changes.
    pub fn keep(&mut self, prefix: Prefix<F>, after: &Option<R>) -> Result<(), Memory>
        ensures ok { OnOk result (self.new ≡ kept_after self.old prefix after.now) }
        ensures none { after.now ≡ None → IsOk result }
        ensures memory { OnErr result (self.new ≡ self.old) }
    {
        match after {
            Some(row) => {
                self.table.insert(prefix, row.copy()?)?;
                Ok(())
            }
            None => {
                self.table.remove(prefix);
                Ok(())
            }
        }
    }

    /// The row at a prefix, lent.
    pub fn row(&self, prefix: Prefix<F>) -> Option<&R>
        ensures { option_copied result ≡ map.get self.now prefix }
    {
        self.table.get(prefix)
    }

    /// How many rows it keeps.
    pub fn len(&self) -> usize
        ensures { result ≡ map.len self.now }
    {
        self.table.len()
    }

    /// Hands out the rows, and keeps none. Takes no memory.
    pub fn lose(&mut self) -> Table<R, F>
        ensures rows { result.rows ≡ self.old }
        ensures empty { self.new ≡ map.empty }
    {
        std::mem::replace(&mut self.table, Table::new(self.alloc))
    }
}

impl<R: Row, F: Family> Upstream<F> for Cache<R, F> {
    type Row = R;

    ghost use Rattle.link_change.specs.Rows.{with_rows};

    ghost rows = { map.get };

    ghost candidates = { λ c. with_rows (map.get c) };

    fn asked(&self, p: &Prefix<F>) -> Result<Option<R>, Memory> {
        match self.table.get(*p) {
            Some(row) => Ok(Some(row.copy()?)),
            None => Ok(None),
        }
    }

    fn next_candidate(&self, after: &Place<Prefix<F>>) -> Option<Prefix<F>> {
        self.table.next_after(*after)
    }
}
