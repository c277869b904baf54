//! The links above `fib`, as they are told by the best routes that are lent.

ghost use Rattle.std.specs.Prelude.{◌≡◌};
ghost use Rattle.addr4.specs.Places.{key_of};
ghost use Rattle.link_change.specs.Rows.{IsNextCandidate, with_rows};
ghost use Rattle.rib_split.specs.Splitting.{split_rows};

use crate::reading::Reading;
use addr4::{Addr, Family, Memory, Place, Prefix};
use link_change::Upstream;
use rib_route::External;
use rib_split::{BgpLink, on_link};

/// The link `ext`, as the stage below sees it: what forwarding needs of each of the best routes that a peer sent. Nothing is kept.
#[derive(Drop)]
pub(crate) struct Ext<'a, B> {
    pub(crate) best: &'a B,
}

impl<'a, F: Family, B: Reading<F>> Upstream<F> for Ext<'a, B> {
    ghost use Rattle.link_change.specs.Rows.{with_rows};
    ghost use Rattle.rib_split.specs.Splitting.{external_row};

    type Row = External<Addr<F>>;

    ghost rows = { λ s q. external_row (B.rows s.best.now q) };

    ghost candidates = { λ s. with_rows (λ q. external_row (B.rows s.best.now q)) };

    fn asked(&self, p: &Prefix<F>) -> Result<Option<External<Addr<F>>>, Memory> {
        Ok(self.best.external(p))
    }

    fn next_candidate(&self, after: &Place<Prefix<F>>) -> Option<Prefix<F>> {
        self.best.next_external(after)
    }
}

/// The row at a prefix of `ebgp` or `ibgp`.
pub(crate) fn row_on<F: Family, B: Reading<F>>(
    best: &B,
    link: BgpLink,
    p: Prefix<F>,
) -> Option<External<Addr<F>>>
    ensures { result ≡ split_rows (B.rows best.now) link p }
{
    on_link(link, best.external(&p))
}

/// The least prefix beyond a place where there is a row of `ebgp` or `ibgp`: it goes on until a route is of that link.
pub(crate) fn next_on<F: Family, B: Reading<F>>(
    best: &B,
    link: BgpLink,
    after: Place<Prefix<F>>,
) -> Option<Prefix<F>>
    ensures { IsNextCandidate (with_rows (split_rows (B.rows best.now) link)) (key_of after) result }
{
    if let Place::At(p) = &after {
        p.known();
    }
    let mut place = after;
    'routes: while let Some(p) = best.next_external(&place) {
        p.known();
        if row_on(best, link, p).is_some() {
            return Some(p);
        }
        place = Place::At(p);
    }
    None
}
