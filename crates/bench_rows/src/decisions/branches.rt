//! The branches of the decision: a table of routes for each, without the stages of a peer's chain.
//!
//! Whoever holds them changes a table and tells the decision the change. What is kept true: each branch's rows are those of
//! its table.

ghost use Rattle.std.specs.Prelude.{◌≡◌, ◌<◌, length, IfOk, OnOk};
ghost use Rattle.std.specs.Option.{option_copied};
ghost use Rattle.bench_rows.specs.Tables.{table_at, rows_in, Sets};

use addr4::{Memory, Place, Prefix, Row, V4};
use bgp_attr::Route;
use decision::Branches;
use safe_table::Table;

/// At most how many branches there are.
pub(crate) const MOST: u8 = 65;

/// A table of each branch's routes, by the branch's number. Of more than 65 those from the 66th on are no branch's.
#[derive(Drop)]
pub(crate) struct TableBranches {
    pub(crate) tables: Vec<Table<Route>>,
}

impl TableBranches {
    fn table(&self, branch: u8) -> Option<&Table<Route>>
        ensures { option_copied result ≡ table_at self.now.tables.items branch }
    {
        if branch < MOST {
            return self.tables.get(usize::from(branch));
        }
        None
    }

    /// Sets the row of a branch at a prefix, and answers the one before.
    pub(crate) fn set(
        &mut self,
        branch: u8,
        prefix: Prefix,
        row: Option<Route>,
    ) -> Result<Option<Route>, Memory>
        requires small { branch < 65 }
        requires there { branch < length self.old.tables.items }
        ensures rows { IfOk result (λ before. Sets branch prefix row before (rows_in self.old.tables.items) (rows_in self.new.tables.items)) }
        ensures there { OnOk result (length self.new.tables.items ≡ length self.old.tables.items) }
    {
        let table = &mut self.tables[usize::from(branch)];
        match row {
            Some(route) => {
                let before = table.insert(prefix, route)?;
                Ok(before)
            }
            None => Ok(table.remove(prefix)),
        }
    }
}

impl Branches<V4> for TableBranches {
    ghost use Rattle.bench_rows.specs.Tables.{rows_in, candidates_in, no_candidates};

    ghost rows = { λ s. rows_in s.tables.items };

    ghost candidates = { λ s. candidates_in (rows_in s.tables.items) };

    ghost beside = { λ s. no_candidates };

    fn asked(&self, branch: u8, p: &Prefix) -> Result<Option<Route>, Memory> {
        let Some(table) = self.table(branch) else {
            return Ok(None);
        };
        match table.get(*p) {
            Some(route) => Ok(Some(route.copy()?)),
            None => Ok(None),
        }
    }

    fn has(&self, branch: u8, p: &Prefix) -> bool {
        let Some(table) = self.table(branch) else {
            return false;
        };
        table.get(*p).is_some()
    }

    fn next_beside(&self, _after: &Place<Prefix>) -> Option<Prefix> {
        None
    }

    fn is_from(&self, _branch: u8, _number: u8) -> bool {
        false
    }
}
