//! Lookups: whether a link is live, its row at a prefix, and where its rows may stand.

ghost use Rattle.std.specs.Prelude.{◌≡◌, IfOk, is_some};
ghost use Rattle.addr4.specs.Places.{key_of};
ghost use Rattle.link_change.specs.Rows.{IsNextCandidate, CoversRows};
ghost use Rattle.hop_side.specs.Resolvers.{resolver_at, PeerRows, rows_by, hop_links};

use crate::hops::NextHops;
use addr4::{Memory, Place, Prefix, Texts};
use bgp_attr::{Route, SharedAttrs};
use journal_text::Link;
use link_change::Upstream;

impl<F: Texts> NextHops<F> {
    /// Whether a link `res.K` is live; no other link is.
    pub fn live(&self, link: Link) -> bool
        ensures { (uppers : PeerRows) → result ≡ is_some (hop_links self.now uppers link) }
    {
        match link {
            Link::Res(number) => self.resolver(number).is_some(),
            _ => false,
        }
    }

    /// The row at a prefix of `res.K`, over the rows of `filt.K`; None where it has none. Memory where the row can't be copied.
    pub fn asked<U: Upstream<F, Row = Route<SharedAttrs<F>>>>(
        &self,
        number: u32,
        upper: &U,
        prefix: Prefix<F>,
    ) -> Result<Option<Route<SharedAttrs<F>>>, Memory>
        ensures { IfOk result (λ row. row ≡ rows_by (resolver_at number self.now) (U.rows upper.now) prefix) }
    {
        match self.resolver(number) {
            Some(resolver) => resolver.asked(upper, prefix),
            None => Ok(None),
        }
    }

    /// The least candidate of `res.K` that lies beyond a place: those of `filt.K`, some of which may have no row on `res.K`.
    pub fn next_candidate<U: Upstream<F, Row = Route<SharedAttrs<F>>>>(
        &self,
        number: u32,
        upper: &U,
        after: Place<Prefix<F>>,
    ) -> Option<Prefix<F>>
        ensures next { IsNextCandidate (U.candidates upper.now) (key_of after) result }
        ensures covers { CoversRows (U.candidates upper.now) (rows_by (resolver_at number self.now) (U.rows upper.now)) }
    {
        match self.resolver(number) {
            Some(resolver) => resolver.next_candidate(upper, after),
            None => upper.next_candidate(&after),
        }
    }
}
