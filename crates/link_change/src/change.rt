//! A change of the row of a prefix.

ghost use Rattle.std.specs.Prelude.{◌≡◌, ◌↔◌, IsTrue, IfOk, OnOk, OnErr};
ghost use Rattle.std.specs.BTreeMap.{Updates};
ghost use Rattle.addr4.specs.Prefixes.{prefix_cmp};
ghost use Rattle.link_change.specs.Changes.{IsChangeOf};

use addr4::{Family, Memory, Prefix, Row};
use std::collections::BTreeMap;

/// The row of a prefix changes (NSDI 2005, section 5.1): an add has no row before, a delete none after, and a replace both.
#[derive(Drop)]
pub struct Change<R, P = Prefix> {
    pub prefix: P,
    /// The row that stood at the prefix, if one did.
    pub before: Option<R>,
    /// The row that stands at the prefix from now on, if one does.
    pub after: Option<R>,
}

impl<R: Row, F: Family> Change<R, Prefix<F>> {
    /// The change of a prefix's row from the one to the other. None exactly where both are equal.
    pub fn between(
        prefix: Prefix<F>,
        before: Option<R>,
        after: Option<R>,
    ) -> Option<Change<R, Prefix<F>>>
        ensures { IsChangeOf prefix before after result }
    {
        if is_same_row(&before, &after) {
            return None;
        }
        Some(Change {
            prefix,
            before,
            after,
        })
    }

    /// The same change once more. Memory only where a row can't be copied.
    pub fn copy(&self) -> Result<Change<R, Prefix<F>>, Memory>
        ensures { IfOk result (λ copy. copy ≡ self.now) }
    {
        let before = copy_row(&self.before)?;
        let after = copy_row(&self.after)?;
        Ok(Change {
            prefix: self.prefix,
            before,
            after,
        })
    }
}

// Whether both rows are none, or both some and equal.
fn is_same_row<R: Row>(before: &Option<R>, after: &Option<R>) -> bool
    ensures { IsTrue result ↔ (before.now ≡ after.now) }
{
    match (before, after) {
        (None, None) => true,
        (Some(before), Some(after)) => before.same(after),
        _ => false,
    }
}

/// The row of a prefix, or none, once more. Memory only where the row can't be copied.
pub fn copy_row<R: Row>(row: &Option<R>) -> Result<Option<R>, Memory>
    ensures { IfOk result (λ copy. copy ≡ row.now) }
{
    match row {
        Some(row) => Ok(Some(row.copy()?)),
        None => Ok(None),
    }
}

/// Makes the row after the change the one at its prefix; every other row stays. For want of memory the map stays as it is.
pub fn apply<R: Drop, F: Family>(
    map: &mut BTreeMap<Prefix<F>, R>,
    change: Change<R, Prefix<F>>,
) -> Result<(), Memory>
    ensures ok { OnOk result (Updates prefix_cmp map.old map.new change.prefix change.after) }
    ensures memory { OnErr result (map.new.entries ≡ map.old.entries) }
{
    let Change { prefix, after, .. } = change;
    match after {
        Some(row) => {
            map.insert(prefix, row)?;
            Ok(())
        }
        None => {
            map.remove(&prefix);
            Ok(())
        }
    }
}
