//! Deletion stages.

ghost use Rattle.std.specs.Prelude.{◌≡◌, ◌↔◌, IsTrue, IfSome, IfNone, Some, None};
ghost use Rattle.std.specs.Option.{option_copied};
ghost use Rattle.std.specs.FinMap as map;
ghost use Rattle.addr4.specs.Places.{key_of};
ghost use Rattle.link_change.specs.Rows.{IsNextCandidate, with_rows, is_empty_map};
ghost use Rattle.loss_chain.specs.Covering.{PassesOn, StaysApart, DeletesOn, IsLeastRow};

use addr4::{Place, Prefix, Row, Texts, V4};
use link_change::Change;
use safe_table::Table;
use std::marker::Model;

/// The rows of a lost table whose deletes weren't sent yet. Contracts see them beside the number of the loss.
#[derive(Drop)]
pub struct Deletion<R, F: Texts = V4> {
    number: u32,
    table: Table<R, F>,
}

impl<R, F: Texts> Model for Deletion<R, F> {
    ghost use Rattle.loss_chain.specs.Lost.{Lost, lost_code};

    ghost Value = { Lost R };

    ghost coded = { lost_code R.code };

    ghost view = { λ d. record { number = d.number; rows = d.table.rows } };
}

impl<R: Row, F: Texts> Deletion<R, F> {
    /// A stage that is to delete the rows of this table. The number tells which session, or which loss of a protocol, it
    /// was. Takes no memory.
    pub fn new(number: u32, table: Table<R, F>) -> Deletion<R, F>
        ensures { result ≡ record { number = number; rows = table.rows } }
    {
        Deletion { number, table }
    }

    /// The number of the session or loss.
    pub fn number(&self) -> u32
        ensures { result ≡ self.now.number }
    {
        self.number
    }

    /// A change from above, as it goes on below. Where the table has a row, that is the row before, and it leaves the
    /// table; nothing is sent where the row after is equal. Every other change goes on as it is. So None comes exactly
    /// where the rows below stay the same. Takes no memory.
    pub fn take_in(&mut self, change: Change<R, Prefix<F>>) -> Option<Change<R, Prefix<F>>>
        ensures law { PassesOn self.old.rows self.new.rows change result }
        ensures apart { StaysApart self.old.rows self.new.rows change }
        ensures rows { self.new.rows ≡ map.remove self.old.rows change.prefix }
        ensures after { IfSome result (λ sent. sent.after ≡ change.after) }
        ensures number { self.new.number ≡ self.old.number }
    {
        let held = match self.table.remove(change.prefix) {
            None => return Some(change),
            Some(held) => held,
        };
        Change::between(change.prefix, Some(held), change.after)
    }

    /// One turn: takes the least row, by address and then length, out of the table, and sends its delete. None exactly
    /// where no row is left. Takes no memory.
    pub fn unit(&mut self) -> Option<Change<R, Prefix<F>>>
        ensures law { IfSome result (DeletesOn self.old.rows self.new.rows) }
        ensures least { IfSome result (λ sent. IsLeastRow (map.get self.old.rows) sent.prefix sent.before) }
        ensures rows { IfSome result (λ sent. self.new.rows ≡ map.remove self.old.rows sent.prefix) }
        ensures after { IfSome result (λ sent. sent.after ≡ None) }
        ensures none { IfNone result (self.old.rows ≡ map.empty) }
        ensures unchanged { IfNone result (self.new.rows ≡ self.old.rows) }
        ensures number { self.new.number ≡ self.old.number }
    {
        let least = match self.table.pop_first() {
            None => return None,
            Some(least) => least,
        };
        Some(Change {
            prefix: least.0,
            before: Some(least.1),
            after: None,
        })
    }

    /// The row that the table still has at a prefix.
    pub fn held(&self, prefix: Prefix<F>) -> Option<&R>
        ensures { option_copied result ≡ map.get self.now.rows prefix }
    {
        self.table.get(prefix)
    }

    /// The least prefix beyond a place at which the table still has a row.
    pub fn next_held(&self, after: Place<Prefix<F>>) -> Option<Prefix<F>>
        ensures { IsNextCandidate (with_rows (map.get self.now.rows)) (key_of after) result }
    {
        self.table.next_after(after)
    }

    /// How many rows are left.
    pub fn len(&self) -> usize
        ensures { result ≡ map.len self.now.rows }
    {
        self.table.len()
    }

    /// Whether no row is left.
    pub fn is_empty(&self) -> bool
        ensures empty { IsTrue result ↔ (self.now.rows ≡ map.empty) }
        ensures test { result ≡ is_empty_map self.now.rows }
    {
        self.table.len() == 0
    }
}
