//! What a table keeps at a prefix.

ghost use Rattle.std.specs.Prelude.{◌≡◌, ◌+◌, ◌-◌, ◌<◌, ◌^◌, is_some, IsSome, Some, None};
ghost use Rattle.std.specs.Option.{option_copied};
ghost use Rattle.std.specs.Borrow.{sem};
ghost use Rattle.safe_table.specs.Kept.{slot_of};

use std::marker::Model;
use std::mem::{self, size_of};

/// What a table keeps at a prefix: a row, or what iterators that stand there keep of one that was removed.
///
/// Contracts see a record of the row, if there is one, and the number of iterators.
#[derive(Drop)]
pub struct Slot<V> {
    kept: Kept<V>,
}

// The count stands before the row, so that it shares a word with the tag.
#[derive(Drop)]
enum Kept<V> {
    Row { readers: u32, row: V },
    Removed { readers: u32 },
}

// With the leaf's own 16 octets (prefix and link) that makes 24 beside a row of whole words.
const _: () = prove!(size_of::<Slot<u64>>() == 8 + size_of::<u64>());

impl<V> Model for Slot<V> {
    ghost use Rattle.safe_table.specs.Slots.{Slot, slot_code};
    ghost use Rattle.safe_table.specs.Kept.{slot_of};

    ghost Value = { Slot V };

    ghost coded = { slot_code V.code };

    ghost view = { λ s. slot_of s.kept };
}

impl<V> Kept<V> {
    ghost use Rattle.safe_table.specs.Lent.{lends_kept};

    // Lends the row.
    fn row_mut(&mut self) -> &mut V
        requires { IsSome (slot_of self.old).value }
        ensures* writes_back { sem 𝓛 (lends_kept V.row self.entry result) }
        ensures value { (slot_of self.old).value ≡ Some result.now }
    {
        match self {
            Kept::Row { readers: _, row } => row,
            Kept::Removed { readers: _ } => unreachable!(),
        }
    }
}

impl<V> Slot<V> {
    ghost use Rattle.safe_table.specs.Lent.{lends_slot};

    pub(crate) fn new(row: V) -> Slot<V>
        ensures { result ≡ record { value = Some row; readers = 0 } }
    {
        Slot {
            kept: Kept::Row { readers: 0, row },
        }
    }

    /// The row, if it wasn't removed.
    pub fn row(&self) -> Option<&V>
        ensures { option_copied result ≡ self.now.value }
    {
        match &self.kept {
            Kept::Row { readers: _, row } => Some(row),
            Kept::Removed { readers: _ } => None,
        }
    }

    // Whether there is a row.
    pub(crate) fn has_row(&self) -> bool
        ensures { result ≡ is_some self.now.value }
    {
        match &self.kept {
            Kept::Row { readers: _, row: _ } => true,
            Kept::Removed { readers: _ } => false,
        }
    }

    /// How many iterators stand here.
    pub fn readers(&self) -> u32
        ensures { result ≡ self.now.readers }
    {
        match &self.kept {
            Kept::Row { readers, row: _ } => *readers,
            Kept::Removed { readers } => *readers,
        }
    }

    // One iterator more.
    pub(crate) fn enter(&mut self)
        requires { self.old.readers + 1 < 2 ^ 32 }
        ensures { self.new ≡ record self.old { readers = self.old.readers + 1 } }
    {
        match &mut self.kept {
            Kept::Row { readers, row: _ } => *readers += 1,
            Kept::Removed { readers } => *readers += 1,
        }
    }

    // One iterator less.
    pub(crate) fn leave(&mut self)
        requires { 0 < self.old.readers }
        ensures { self.new ≡ record self.old { readers = self.old.readers - 1 } }
    {
        match &mut self.kept {
            Kept::Row { readers, row: _ } => *readers -= 1,
            Kept::Removed { readers } => *readers -= 1,
        }
    }

    // Lends the row.
    pub(crate) fn row_mut(&mut self) -> &mut V
        requires { IsSome self.old.value }
        ensures* writes_back { sem 𝓛 (lends_slot V.row self.entry result) }
        ensures value { self.old.value ≡ Some result.now }
    {
        self.kept.row_mut()
    }

    // Sets how many iterators stand here.
    pub(crate) fn set_readers(&mut self, count: u32)
        ensures { self.new ≡ record self.old { readers = count } }
    {
        match &mut self.kept {
            Kept::Row { readers, row: _ } => *readers = count,
            Kept::Removed { readers } => *readers = count,
        }
    }

    // The row, if it wasn't removed, and the slot is gone.
    pub(crate) fn into_row(self) -> Option<V>
        ensures { result ≡ self.value }
    {
        match self.kept {
            Kept::Row { readers: _, row } => Some(row),
            Kept::Removed { readers: _ } => None,
        }
    }

    // Puts another slot's row, and answers the one before.
    pub(crate) fn replace(&mut self, slot: Slot<V>) -> Option<V>
        ensures before { result ≡ self.old.value }
        ensures after { self.new ≡ record self.old { value = slot.value } }
    {
        let readers = self.readers();
        let before = mem::replace(self, slot);
        self.set_readers(readers);
        before.into_row()
    }

    // Takes the row.
    pub(crate) fn take(&mut self) -> Option<V>
        ensures before { result ≡ self.old.value }
        ensures after { self.new ≡ record self.old { value = None } }
    {
        let readers = self.readers();
        match mem::replace(&mut self.kept, Kept::Removed { readers }) {
            Kept::Row { readers: _, row } => Some(row),
            Kept::Removed { readers: _ } => None,
        }
    }
}
