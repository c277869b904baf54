//! Interior rows as what packets are forwarded by.

ghost use Rattle.std.specs.Prelude.{◌≡◌, option_map};
ghost use Rattle.rib_route.specs.Forwarding.{fib_row};
ghost use Rattle.rib_merge.specs.Forwards.{ForwardsOn};

use addr4::{Addr, Family, Prefix};
use link_change::Change;
use rib_route::{FibRow, Interior};

/// What packets are forwarded by, if there is a route.
pub fn forwarded<F: Family>(route: &Option<Interior<Addr<F>>>) -> Option<FibRow<Addr<F>>>
    ensures { result ≡ option_map fib_row route.now }
{
    match route {
        Some(route) => Some(route.fib_row()),
        None => None,
    }
}

/// The change of the forwarding rows that follows one of interior rows. None exactly where they stay the same, as where the
/// metric of a route changes alone. Takes no memory.
pub fn forward<F: Family>(
    change: &Change<Interior<Addr<F>>, Prefix<F>>,
) -> Option<Change<FibRow<Addr<F>>, Prefix<F>>>
    ensures { ForwardsOn change.now result }
{
    let before = forwarded(&change.before);
    // By cases: the prover asks for a row in sight where one is passed on.
    match forwarded(&change.after) {
        None => match before {
            None => None,
            Some(before) => Change::between(change.prefix, Some(before), None),
        },
        Some(after) => match before {
            None => Change::between(change.prefix, None, Some(after)),
            Some(before) => Change::between(change.prefix, Some(before), Some(after)),
        },
    }
}
