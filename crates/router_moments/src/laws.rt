//! Laws of moments, for the proofs of the crates above. Each is a function that does nothing, whose contract is the law.

ghost use Rattle.router_moments.specs.Laws.{FirstStands, RowsAtRestAreExact, OnlyWorkHoldsUp, FirstHeldTells, KnownNextHopsAreFew, ExternalRowsAreFew};

use exit_side::laws::exact_unless_held_up as exits_are_exact;
use hop_side::laws::exact_unless_held_up as hops_are_exact;
use peer_side::laws::tasks_hold_up;
use rib_exit::laws::exact_unless_held_up as external_is_exact;
use rib_tree::{a_new_tree_stands, losses_hold_up};

/// What holds between two steps holds before the first.
pub fn first_moment_stands()
    ensures { FirstStands }
{
    a_new_tree_stands();
}

/// At any moment where each peer that is up has an exit, at each prefix, each link that no work holds up there is what the live
/// state alone asks for.
pub fn rows_at_rest_are_exact()
    ensures { RowsAtRestAreExact }
{
    losses_hold_up();
    hops_are_exact();
    exits_are_exact();
    external_is_exact();
}

/// A task without work holds up nothing.
pub fn only_work_holds_up()
    ensures { OnlyWorkHoldsUp }
{
    losses_hold_up();
    tasks_hold_up();
    hops_are_exact();
    exits_are_exact();
    external_is_exact();
}

/// The first task that holds up a prefix tells whether it is settled.
pub fn the_first_task_tells()
    ensures { FirstHeldTells }
{
    rows_at_rest_are_exact();
    only_work_holds_up();
    losses_hold_up();
    tasks_hold_up();
    hops_are_exact();
    exits_are_exact();
}

/// At any moment no more next hops are known than there are rows which name them.
pub fn known_next_hops_are_few()
    ensures { KnownNextHopsAreFew }
{}

/// Where the forwarding side has read all, no more rows stand on `ebgp` and `ibgp` than peers have.
pub fn external_rows_are_few()
    ensures { ExternalRowsAreFew }
{}
