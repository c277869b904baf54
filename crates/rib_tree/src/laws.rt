//! Laws of the tree, for the proofs of the crates above. Each is a function that does nothing, whose contract is the law.

ghost use Rattle.rib_tree.specs.Laws.{ANewTreeStands, RowsAreOwn, TheLeastDistanceStands, EachRowCounts, TurnsTakeRows, WeldsKeepRows, LossesKeepRows, NoneHeldUpWithoutWork, WorkIsListed, OrgWhereNoneIsLost};

use rib_merge::the_lesser_distance_stands;
use rib_route::Interior;

/// Each row of `org.PROTO` is a route of the protocol.
pub fn rows_are_own()
    ensures { RowsAreOwn }
{}

/// What calls require of a tree holds of a new one.
pub fn a_new_tree_stands()
    ensures { ANewTreeStands }
{}

/// A row of `int` is the row of its protocol, and no protocol has a row of lesser distance there.
pub fn the_least_distance_stands()
    ensures { TheLeastDistanceStands }
{
    the_lesser_distance_stands::<Interior>();
    rows_are_own();
}

/// `int` has none only where no protocol has one.
pub fn each_row_counts()
    ensures { EachRowCounts }
{
    the_lesser_distance_stands::<Interior>();
}

/// A turn of a deletion stage takes one row.
pub fn turns_take_rows()
    ensures { TurnsTakeRows }
{}

/// When an empty stage goes, as many rows stay.
pub fn welds_keep_rows()
    ensures { WeldsKeepRows }
{}

/// When a protocol is lost, as many rows stay.
pub fn losses_keep_rows()
    ensures { LossesKeepRows }
{}

/// Without work a loss holds up no prefix, and no address; all that have work are among the tree's tasks; and where none of a
/// protocol holds up a prefix, the row of its `org.PROTO` there is the live one.
pub fn losses_hold_up()
    ensures idle { NoneHeldUpWithoutWork }
    ensures listed { WorkIsListed }
    ensures exact { OrgWhereNoneIsLost }
{}
