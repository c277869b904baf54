//! Laws of the splitter, for the proofs of the crates above. Each is a function that does nothing, whose contract is the law.

ghost use Rattle.rib_split.specs.Laws.{TablesBeginEmpty, MovedChangesOnce};

/// The tables begin as the rows of no routes.
pub fn tables_begin_empty()
    ensures { TablesBeginEmpty }
{}

/// Where a route moves from one link to the other, of the two changes one at most changes the rows of both links merged by
/// distance.
pub fn a_moved_row_changes_once()
    ensures { MovedChangesOnce }
{}
