//! Laws of chains, for the proofs of the crates above. Each is a function that does nothing, whose contract is the law.

ghost use Rattle.loss_chain.specs.Laws.{RowsAreCounted, TurnsTakeRows, WeldsKeepRows, LossesKeepRows, NoRowAtFirst, FeedsBringOneRow, LossesBringNoRow, WeldsBringNoRow, TurnsBringNoRow, LowestRowsAreRows, LiveWhereNoneIsLost, NoTableHoldsNothing, RowsAreListed, TurnsLeaveNoMore, WeldsLeaveNoMore};

/// The count that [`LossChain::rows`](crate::LossChain::rows) gives is the number of rows of the lowest link.
pub fn rows_are_counted<R>()
    ensures { RowsAreCounted R }
{}

/// A turn of a deletion stage takes one row; when an empty stage goes, or the source is lost, as many rows stay.
pub fn turns_take_rows<R>()
    ensures turns { TurnsTakeRows R }
    ensures welds { WeldsKeepRows R }
    ensures losses { LossesKeepRows R }
{}

/// Only a feed brings a row. So what holds of each row that is fed holds of each row of the chain, live or lost, and of those
/// of its lowest link.
pub fn each_row_is_fed<R>()
    ensures first { NoRowAtFirst R }
    ensures feeds { FeedsBringOneRow R }
    ensures losses { LossesBringNoRow R }
    ensures welds { WeldsBringNoRow R }
    ensures turns { TurnsBringNoRow R }
    ensures lowest { LowestRowsAreRows R }
{}

/// Where no lost table has a prefix, the row of the lowest link there is the live one; and where no table is there is nothing lost.
pub fn live_where_none_is_lost<R>()
    ensures live { LiveWhereNoneIsLost R }
    ensures none { NoTableHoldsNothing R }
{}

/// The rows of a chain, by prefix: how many there are beyond a place, and that background work makes them no more.
pub fn rows_are_listed<R>()
    ensures listed { RowsAreListed R }
    ensures turns { TurnsLeaveNoMore R }
    ensures welds { WeldsLeaveNoMore R }
{}
