//! What the reader of the forwarding side has of the best routes, as it is lent to the RIB's exit: of each only what forwarding
//! needs, the next hop and whether an external peer sent it. No route is copied.

ghost use Rattle.std.specs.Prelude.{◌≡◌, ℕ, IsSome, Some};
ghost use Rattle.std.specs.Option.{option_copied};
ghost use Rattle.std.specs.FinMap as map;
ghost use Rattle.decision.specs.Branches.{best_rows};
ghost use Rattle.rib_split.specs.Splitting.{external_row};
ghost use Rattle.router_network.specs.Informed.{rows_above};

use crate::above::Above;
use addr4::{Addr, Place, Prefix, Texts, V4};
use decision::{Best, Branches};
use exit_side::Exits;
use fanout_queue::Reader;
use peer_out::Writes;
use rib_exit::Reading;
use rib_route::External;
use rib_split::external_row;

/// The best routes as the reader has them, if there is one: the row before the first change at a prefix that it hasn't taken, or
/// else the best one.
#[derive(Drop)]
pub(crate) struct ReadRoutes<'a, B: Branches<F>, F: Texts = V4> {
    pub(crate) exits: &'a Exits<F>,
    pub(crate) reader: Option<&'a Reader>,
    pub(crate) best: &'a Best<'a, B, F>,
    /// The branches, as they were lent to the best routes.
    pub(crate) above: &'a Above<F>,
    ghost live: { (r : ℕ) → option_copied reader ≡ Some r → IsSome (map.get exits.now.queue r) },
    ghost own: { B.rows best.now.all.now ≡ rows_above above.now },
}

impl<'a, B: Branches<F>, F: Writes> Reading<F> for ReadRoutes<'a, B, F> {
    ghost use Rattle.std.specs.Option.{option_copied};
    ghost use Rattle.decision.specs.Branches.{best_rows};
    ghost use Rattle.router_moments.specs.Moments.{read_rows_by};

    ghost rows = { λ s. read_rows_by s.exits.now.queue (option_copied s.reader) (best_rows (B.rows s.best.now.all.now)) };

    fn external(&self, p: &Prefix<F>) -> Option<External<Addr<F>>> {
        let reader = self.reader?;
        match self.exits.first_unread(reader, *p) {
            Some(change) => external_row(&change.before),
            None => best_external(self.best, self.above, p),
        }
    }

    fn next_external(&self, after: &Place<Prefix<F>>) -> Option<Prefix<F>> {
        let reader = self.reader?;
        if let Place::At(p) = after {
            p.known();
        }
        let mut place = *after;
        'routes: while let Some(p) = self.exits.next_read(reader, self.best, place) {
            p.known();
            if self.external(&p).is_some() {
                return Some(p);
            }
            place = Place::At(p);
        }
        None
    }
}

/// The routes that a reader has, if there is one, over the best ones.
pub(crate) fn over_best<'a, F: Texts>(
    exits: &'a Exits<F>,
    reader: Option<&'a Reader>,
    best: &'a Best<'a, Above<F>, F>,
) -> ReadRoutes<'a, Above<F>, F>
    requires { (r : ℕ) → option_copied reader ≡ Some r → IsSome (map.get exits.now.queue r) }
    ensures exits { result.exits.now ≡ exits.now }
    ensures reader { option_copied result.reader ≡ option_copied reader.entry }
    ensures best { result.best.now ≡ best.now }
{
    ReadRoutes {
        exits,
        reader,
        best,
        above: best.all,
    }
}

/// What forwarding needs of the best route at a prefix, if a peer sent it.
fn best_external<B: Branches<F>, F: Texts>(
    best: &Best<'_, B, F>,
    above: &Above<F>,
    p: &Prefix<F>,
) -> Option<External<Addr<F>>>
    requires { B.rows best.now.all.now ≡ rows_above above.now }
    ensures { result ≡ external_row (best_rows (B.rows best.now.all.now) p.now) }
{
    above.external(best.winner(p)?, p)
}
