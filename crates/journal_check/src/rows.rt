//! The rows of a live link. Prefixes of both families are kept as those of 128 bits, in front of which stand IPv4's.

ghost use Rattle.std.specs.Prelude.{◌≡◌, ◌↔◌, IsTrue, IfOk, OnOk};
ghost use Rattle.std.specs.Option.{option_copied};
ghost use Rattle.std.specs.FinMap as map;

use crate::text::Text;
use addr4::{Memory, Prefix, Row};
use addr6::V6;
use std::alloc::Global;
use std::collections::BTreeMap;
use std::marker::Model;

/// The texts that stand at the prefixes of a live link.
#[derive(Drop)]
pub(crate) struct TextRows {
    alloc: Global,
    texts: BTreeMap<Prefix<V6>, Text>,
}

impl Model for TextRows {
    ghost use Rattle.std.specs.FinMap as map;
    ghost use Rattle.journal_check.specs.Maps.{RowMap, row_map_code};

    ghost Value = { RowMap };

    ghost coded = { row_map_code };

    ghost view = { λ r. map.from_entries r.texts.entries };
}

// Whether two rows are the same.
fn is_same_row(first: Option<&Text>, second: Option<&Text>) -> bool
    ensures { IsTrue result ↔ (option_copied first.entry ≡ option_copied second.entry) }
{
    match first {
        None => second.is_none(),
        Some(first) => match second {
            None => false,
            Some(second) => first.same(second),
        },
    }
}

impl TextRows {
    /// No row; takes no memory.
    pub(crate) fn new(alloc: Global) -> TextRows
        ensures { result ≡ map.empty }
    {
        TextRows {
            alloc,
            texts: BTreeMap::new(alloc),
        }
    }

    fn get(&self, p: Prefix<V6>) -> Option<&Text>
        ensures { option_copied result ≡ map.get self.now p }
    {
        self.texts.get(&p)
    }

    /// Whether this is the row of the prefix.
    pub(crate) fn has(&self, p: Prefix<V6>, row: Option<&Text>) -> bool
        ensures { IsTrue result ↔ (map.get self.now p ≡ option_copied row.entry) }
    {
        is_same_row(self.get(p), row)
    }

    /// Sets the row of the prefix.
    pub(crate) fn put(&mut self, p: Prefix<V6>, text: Text) -> Result<(), Memory>
        ensures { OnOk result (self.new ≡ map.insert self.old p text) }
    {
        self.texts.insert(p, text)?;
        Ok(())
    }

    /// Takes the row of the prefix out, if there is one.
    pub(crate) fn take(&mut self, p: Prefix<V6>)
        ensures { self.new ≡ map.remove self.old p }
    {
        self.texts.remove(&p);
    }
}

impl Row for TextRows {
    fn copy(&self) -> Result<TextRows, Memory> {
        let mut copy = TextRows::new(self.alloc);
        for (p, text) in &self.texts {
            copy.put(*p, text.copy()?)?;
        }
        Ok(copy)
    }

    fn same(&self, other: &TextRows) -> bool {
        let _count = self.texts.len();
        let _other_count = other.texts.len();
        self.texts == other.texts
    }
}
