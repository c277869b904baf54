//! A link as the stage below sees it.

ghost use Rattle.std.specs.Prelude.{◌≡◌, IfOk, Option, Bool};
ghost use Rattle.addr4.specs.Prefixes.{AddressPrefix};
ghost use Rattle.addr4.specs.Places.{key_of};
ghost use Rattle.link_change.specs.Rows.{Rows, Candidates, IsNextCandidate, IsNextOfBoth, CoversRows};

use addr4::{Family, Memory, Place, Prefix};
use std::cmp::Ordering;

/// A link as the stage below sees it.
pub trait Upstream<F: Family> {
    /// What stands at a prefix.
    type Row;

    /// The rows that stand on the link.
    ghost rows: { Self → Rows Self.Row };

    /// The prefixes that a walk goes to; some may have no row.
    ghost candidates: { Self → Candidates };

    /// The row of a prefix.
    fn asked(&self, p: &Prefix<F>) -> Result<Option<Self::Row>, Memory>
        ensures { IfOk result (λ row. row ≡ rows self.now p.now) };

    /// The least candidate beyond a place. Every row stands at a candidate.
    fn next_candidate(&self, after: &Place<Prefix<F>>) -> Option<Prefix<F>>
        ensures next { IsNextCandidate (candidates self.now) (key_of after.now) result }
        ensures covers { CoversRows (candidates self.now) (rows self.now) };
}

/// The lesser of the next candidates of two links beyond one place: the next candidate of both together.
pub fn nearer<F: Family>(first: Option<Prefix<F>>, second: Option<Prefix<F>>) -> Option<Prefix<F>>
    ensures { IsNextOfBoth first second result }
{
    match first {
        None => second,
        Some(a) => match second {
            None => Some(a),
            Some(b) => match a.cmp(&b) {
                Ordering::Greater => Some(b),
                _ => Some(a),
            },
        },
    }
}
