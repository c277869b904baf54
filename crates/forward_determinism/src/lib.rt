//! Laws that the steps of the RIB's exit, and what is written for tables, leave no choice.
//!
//! The definitions of `rib_exit` are relations: between the exit and the register before and after, a change that comes in, the one
//! that comes on `fib`, and the lines. These laws say that what comes out is one. A change of the best routes comes to one or two
//! changes on `ebgp` and `ibgp`, in one order, and each causes one thing on `ext` and on `fib`; the exit after it is the one that the
//! new best routes make, with the next hops that they name, and the register has the interests of those. So it is for a change of the
//! interior routes, for interests that are given up, and for a turn of the task.
//!
//! For the proofs of the crates above, that say the same of the whole router. Each law is a function that does nothing, whose contract
//! is the law.
#![tactic(auto)]

ghost use Rattle.forward_determinism.specs.Laws.{SplitIsOne, CausesAreOne, FallIsOne, ExternalIsOne, InteriorIsOne, ReachedIsOne, TurnIsOne, TurnHasWork, ListedIsOne};

use hop_determinism::{
    what_a_client_asks_is_one, what_a_resolver_makes_is_one, what_is_known_is_one,
};
use nexthop_resolver::Way;
use rib_route::{External, FibRow};

/// What a change of the best routes makes: what goes on to `ebgp` and `ibgp`, what that causes, what comes on `fib`, the register,
/// the exit, and the lines.
pub fn a_change_of_best_makes_one()
    ensures split { SplitIsOne }
    ensures causes { CausesAreOne }
    ensures fall { FallIsOne }
    ensures external { ExternalIsOne }
{
    what_is_known_is_one::<Way>();
    what_a_client_asks_is_one::<Way>();
}

/// What a change of the interior routes makes: what comes on `fib`, the lines, and the exit where the register gave interests up.
pub fn a_change_of_interior_makes_one()
    ensures interior { InteriorIsOne }
    ensures reached { ReachedIsOne }
{
    what_is_known_is_one::<Way>();
}

/// What a turn of the task makes, and that the task has work then.
pub fn a_turn_makes_one()
    ensures turn { TurnIsOne }
    ensures work { TurnHasWork }
{
    what_a_resolver_makes_is_one::<Way, External, FibRow>();
    what_a_client_asks_is_one::<Way>();
}

/// The rows of a link, one after the other.
pub fn listed_rows_are_one()
    ensures { ListedIsOne }
{}
