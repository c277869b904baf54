//! Laws of the forwarding table, for the proofs of the crates above. Each is a function that does nothing, whose contract is the
//! law.

ghost use Rattle.ext_int.specs.Laws.{TurnLeads, StaleKeepsTable, NoRowsAtFirst, ExactUnlessHeldUp};

use nexthop_resolver::Way;
use rib_route::{External, FibRow};

/// What a turn sends leads from the forwarding table before it to the one after it.
pub fn a_turn_leads()
    ensures { TurnLeads }
{
    nexthop_resolver::laws::a_turn_leads::<Way, External, FibRow>();
}

/// Where answers become stale, the forwarding table stays.
pub fn stale_answers_change_nothing()
    ensures { StaleKeepsTable }
{
    nexthop_resolver::laws::the_rows_below::<Way, External, FibRow>();
}

/// Before the first row of either link there is none below.
pub fn no_rows_at_first()
    ensures { NoRowsAtFirst }
{
    nexthop_resolver::laws::the_rows_below::<Way, External, FibRow>();
}

/// At a prefix that no next hop holds up, the row of the forwarding table is the one that interior and external routes make, by
/// the longest matches of the next hops.
pub fn exact_unless_held_up()
    ensures { ExactUnlessHeldUp }
{
    nexthop_resolver::laws::exact_unless_held_up::<Way, External, FibRow>();
}
