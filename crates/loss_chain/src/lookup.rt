//! Lookups, which walk the chain upward: of rows, of stages, and of counts.

ghost use Rattle.std.specs.Prelude.{◌≡◌, ◌≤◌, ◌+◌, ◌*◌, IfOk, length, nat_lt, is_some, option_map, slice_get};
ghost use Rattle.std.specs.Option.{option_copied};
ghost use Rattle.std.specs.FinMap as map;
ghost use Rattle.addr4.specs.Places.{key_of};
ghost use Rattle.link_change.specs.Rows.{IsNextCandidate, with_rows, is_empty_map};
ghost use Rattle.loss_chain.specs.Steps.{table_of};
ghost use Rattle.loss_chain.specs.Tables.{lost_count};
ghost use Rattle.loss_chain.specs.Stages.{above_of, deletions_of, live_of, rows_of, stage_candidates};

use crate::deletion::Deletion;
use crate::stage::Stage;
use addr4::{Memory, Place, Prefix, Row, Texts};
use link_change::{Upstream, nearer};

impl<R: Row, F: Texts> Stage<R, F> {
    /// The row at a prefix of the link out of this stage.
    pub(crate) fn asked(&self, p: Prefix<F>) -> Result<Option<R>, Memory>
        ensures { IfOk result (λ row. row ≡ rows_of self.now p) }
    {
        match self {
            Stage::Top(live) => live.asked(p),
            Stage::Deletion(deletion, upper) => match deletion.held(p) {
                Some(row) => Ok(Some(row.copy()?)),
                None => upper.asked(p),
            },
        }
    }

    /// The row at a prefix of the link out of this stage, lent.
    pub(crate) fn row(&self, p: Prefix<F>) -> Option<&R>
        ensures { option_copied result ≡ rows_of self.now p }
    {
        match self {
            Stage::Top(live) => live.row(p),
            Stage::Deletion(deletion, upper) => match deletion.held(p) {
                Some(row) => Some(row),
                None => upper.row(p),
            },
        }
    }

    /// The deletion stage of a loss.
    pub(crate) fn deletion(&self, number: u32) -> Option<&Deletion<R, F>>
        ensures { option_map (λ d. d.rows) (option_copied result) ≡ table_of number (deletions_of self.now) }
    {
        match self {
            Stage::Top(_) => None,
            Stage::Deletion(deletion, upper) => {
                if deletion.number() == number {
                    return Some(deletion);
                }
                upper.deletion(number)
            }
        }
    }

    /// The number of a loss whose stage stands, by the place of the stage from the lowest on.
    pub(crate) fn loss_at(&self, place: u32) -> Option<u32>
        ensures { result ≡ option_map (λ d. d.number) (slice_get (deletions_of self.now) place) }
    {
        match self {
            Stage::Top(_) => None,
            Stage::Deletion(deletion, upper) => {
                if place == 0 {
                    return Some(deletion.number());
                }
                upper.loss_at(place - 1)
            }
        }
    }

    /// Whether a row is live at the prefix.
    pub(crate) fn has(&self, p: Prefix<F>) -> bool
        ensures { result ≡ is_some (map.get (live_of self.now) p) }
    {
        match self {
            Stage::Top(live) => live.has(p),
            Stage::Deletion(_, upper) => upper.has(p),
        }
    }

    /// The least prefix beyond a place that has a row on the link out of this stage.
    pub(crate) fn next_candidate(&self, after: &Place<Prefix<F>>) -> Option<Prefix<F>>
        ensures { IsNextCandidate (with_rows (rows_of self.now)) (key_of after.now) result }
    {
        match self {
            Stage::Top(live) => live.next_candidate(*after),
            Stage::Deletion(deletion, upper) => {
                let above = upper.next_candidate(after);
                nearer(deletion.next_held(*after), above)
            }
        }
    }

    /// The stage above that of a loss.
    pub(crate) fn above(&self, number: u32) -> Option<&Stage<R, F>>
        ensures { option_copied result ≡ above_of number self.now }
    {
        match self {
            Stage::Top(_) => None,
            Stage::Deletion(deletion, upper) => {
                if deletion.number() == number {
                    return Some(&**upper);
                }
                upper.above(number)
            }
        }
    }

    /// Whether fewer deletion stages stand.
    pub(crate) fn stands_below(&self, count: u32) -> bool
        ensures { result ≡ nat_lt (length (deletions_of self.now)) count }
    {
        if count == 0 {
            return false;
        }
        match self {
            Stage::Top(_) => true,
            Stage::Deletion(_, upper) => upper.stands_below(count - 1),
        }
    }

    /// Whether no row is live.
    pub(crate) fn has_no_live(&self) -> bool
        ensures { result ≡ is_empty_map (live_of self.now) }
    {
        match self {
            Stage::Top(live) => live.is_empty(),
            Stage::Deletion(_, upper) => upper.has_no_live(),
        }
    }

    /// How many rows the stages have together.
    pub(crate) fn count(&self) -> u128
        requires { length (deletions_of self.now) ≤ 16 }
        ensures rows { result ≡ map.len (live_of self.now) + lost_count (deletions_of self.now) }
        ensures bound { result ≤ (length (deletions_of self.now) + 1) * 18446744073709551616 }
    {
        match self {
            Stage::Top(live) => live.len() as u128,
            Stage::Deletion(deletion, upper) => {
                let above = upper.count();
                above + deletion.len() as u128
            }
        }
    }
}

impl<R: Row, F: Texts> Upstream<F> for Stage<R, F> {
    type Row = R;

    ghost rows = { rows_of };

    ghost candidates = { stage_candidates };

    fn asked(&self, p: &Prefix<F>) -> Result<Option<R>, Memory> {
        Stage::asked(self, *p)
    }

    fn next_candidate(&self, after: &Place<Prefix<F>>) -> Option<Prefix<F>> {
        Stage::next_candidate(self, after)
    }
}
