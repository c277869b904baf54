//! The link below the decision, as the next stage sees it.

ghost use Rattle.std.specs.Prelude.{◌≡◌};
ghost use Rattle.link_change.specs.Rows.{together};
ghost use Rattle.decision.specs.Branches.{best_rows, best_candidates};
ghost use Rattle.decision.specs.Contests.{won_rows, kept};

use crate::branches::Branches;
use crate::contests::Contests;
use addr4::{Family, Memory, Place, Prefix, V4};
use bgp_attr::{Route, SharedAttrs};
use filter_bank::RouteUpstream;
use link_change::{Upstream, nearer};

/// The link `best`: the best route at each prefix over these branches, by what is known of them. The branch whose row it is is
/// asked for it, and no other; a walk asks none for a row. [`Contests::best`] makes it.
#[derive(Drop)]
pub struct Best<'a, B: Branches<F>, F: Family = V4> {
    pub all: &'a B,
    pub(crate) contests: &'a Contests<F>,
    ghost known: { won_rows contests.now (B.rows all.now) ≡ best_rows (B.rows all.now) },
    ghost counted: { kept contests.now ≡ best_candidates (B.candidates all.now) },
}

impl<'a, B: Branches<F>, F: Family> Best<'a, B, F> {
    ghost use Rattle.decision.specs.Lineups.{at_prefix, chosen};

    /// The branch whose row is the best one at a prefix: where one is answered its row there is the best one, if it has one, and
    /// where none is answered no branch has a row.
    pub fn winner(&self, p: &Prefix<F>) -> Option<u8>
        ensures { best_rows (B.rows self.now.all.now) p.now ≡ chosen (at_prefix (B.rows self.now.all.now) p.now) result }
    {
        self.contests.winner(p)
    }
}

impl<'a, B: Branches<F>, F: Family> Upstream<F> for Best<'a, B, F> {
    type Row = Route<SharedAttrs<F>>;

    ghost rows = { λ s. best_rows (B.rows s.all.now) };

    ghost candidates = { λ s. together (best_candidates (B.candidates s.all.now)) (B.beside s.all.now) };

    fn asked(&self, p: &Prefix<F>) -> Result<Option<Route<SharedAttrs<F>>>, Memory> {
        match self.contests.winner(p) {
            None => Ok(None),
            Some(number) => self.all.asked(number, p),
        }
    }

    fn next_candidate(&self, after: &Place<Prefix<F>>) -> Option<Prefix<F>> {
        nearer(self.contests.next_kept(after), self.all.next_beside(after))
    }
}

impl<'a, B: Branches<F>, F: Family> RouteUpstream<F> for Best<'a, B, F> {
    fn is_from(&self, number: u8, p: &Prefix<F>) -> bool {
        match self.contests.winner(p) {
            None => false,
            Some(branch) => self.all.is_from(branch, number),
        }
    }
}
