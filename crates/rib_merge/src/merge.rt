//! Merges.

ghost use Rattle.std.specs.Prelude.{◌≡◌, IfOk};
ghost use Rattle.addr4.specs.Places.{key_of};
ghost use Rattle.link_change.specs.Rows.{IsNextCandidate, CoversRows, together};
ghost use Rattle.rib_merge.specs.Merging.{row_of_both, row_on, merged, MergesOn};

use crate::ranked::Ranked;
use addr4::{Family, Memory, Place, Prefix};
use link_change::{Change, Upstream, nearer};

/// One of the two links above a merge.
#[derive(Clone, Copy, PartialEq, Eq)]
pub enum Side {
    Left,
    Right,
}

/// The row of lesser distance; the left one where both distances are equal.
pub fn preferred<R: Ranked>(left: Option<R>, right: Option<R>) -> Option<R>
    ensures { result ≡ row_of_both R.distance left right }
{
    match (left, right) {
        (None, other) => other,
        (Some(a), None) => Some(a),
        (Some(a), Some(b)) => {
            if b.distance() < a.distance() {
                return Some(b);
            }
            Some(a)
        }
    }
}

// The merged row where one side has this row, and the other side that one.
fn beside<R: Ranked>(side: Side, own: Option<R>, other: Option<R>) -> Option<R>
    ensures { result ≡ row_on R.distance side own other }
{
    match side {
        Side::Left => preferred(own, other),
        Side::Right => preferred(other, own),
    }
}

/// A change on one side, as it goes on below, where the other side has this row at its prefix. None comes exactly where the
/// merged rows stay the same. Takes no memory.
pub fn take_in<R: Ranked, F: Family>(
    side: Side,
    change: Change<R, Prefix<F>>,
    other: Option<R>,
) -> Option<Change<R, Prefix<F>>>
    ensures { MergesOn R.distance side change other result }
{
    if other.is_none() {
        return Change::between(change.prefix, change.before, change.after);
    }
    take_in_beside(side, change, other)
}

// The same beside a row. It is rare that both sides have one.
#[inline(never)]
fn take_in_beside<R: Ranked, F: Family>(
    side: Side,
    change: Change<R, Prefix<F>>,
    other: Option<R>,
) -> Option<Change<R, Prefix<F>>>
    ensures { MergesOn R.distance side change other result }
{
    let before = beside(side, change.before, other);
    let after = beside(side, change.after, other);
    Change::between(change.prefix, before, after)
}

/// The row on the link below.
pub fn asked<F: Family, R: Ranked, L: Upstream<F, Row = R>, U: Upstream<F, Row = R>>(
    left: &L,
    right: &U,
    prefix: Prefix<F>,
) -> Result<Option<R>, Memory>
    ensures { IfOk result (λ row. row ≡ merged R.distance (L.rows left.now) (U.rows right.now) prefix) }
{
    let first = left.asked(&prefix)?;
    let second = right.asked(&prefix)?;
    Ok(preferred(first, second))
}

/// The least candidate of the link below beyond a place: the nearer one of both sides. Every row below stands at one.
pub fn next_candidate<F: Family, R: Ranked, L: Upstream<F, Row = R>, U: Upstream<F, Row = R>>(
    left: &L,
    right: &U,
    after: Place<Prefix<F>>,
) -> Option<Prefix<F>>
    ensures next { IsNextCandidate (together (L.candidates left.now) (U.candidates right.now)) (key_of after) result }
    ensures covers { CoversRows (together (L.candidates left.now) (U.candidates right.now)) (merged R.distance (L.rows left.now) (U.rows right.now)) }
{
    let first = left.next_candidate(&after);
    let second = right.next_candidate(&after);
    nearer(first, second)
}
