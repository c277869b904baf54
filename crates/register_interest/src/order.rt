//! The rows in order, by address and then length: the last up to a prefix, and the first beyond it.

ghost use Rattle.std.specs.Prelude.{Some};
ghost use Rattle.std.specs.FinMap as map;
ghost use Rattle.addr4.specs.Places.{IsNextRow};
ghost use Rattle.register_interest.specs.Matches.{lent_match};
ghost use Rattle.register_interest.specs.Search.{rows_in, IsLastTo};

use addr4::{Family, Prefix};
use std::collections::BTreeMap;
use std::ops::Bound;

// The last row at or before a prefix.
pub(crate) fn last_to<R, F: Family>(
    rows: &BTreeMap<Prefix<F>, R>,
    bound: Prefix<F>,
) -> Option<(Prefix<F>, &R)>
    ensures { IsLastTo (map.get (rows_in rows.now)) bound (lent_match result) }
{
    let mut range = rows.range((Bound::Unbounded, Bound::Included(bound)));
    match range.next_back() {
        None => None,
        Some(row) => Some((*row.0, row.1)),
    }
}

// The prefix of the first row beyond a prefix.
pub(crate) fn first_beyond<R, F: Family>(
    rows: &BTreeMap<Prefix<F>, R>,
    prefix: Prefix<F>,
) -> Option<Prefix<F>>
    ensures { IsNextRow (map.get (rows_in rows.now)) (Some prefix) result }
{
    let mut range = rows.range((Bound::Excluded(prefix), Bound::Unbounded));
    match range.next() {
        None => None,
        Some(row) => Some(*row.0),
    }
}
