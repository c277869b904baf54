//! Laws of the peers' side, for the proofs of the crates above. Each is a function that does nothing, whose contract is the law.

ghost use Rattle.peer_side.specs.Laws.{NoneHeldUpWithoutWork, StagesAreListed, WalksAreListed};

/// Without work no task of a peer holds up a prefix; and all that have work are among the deletion stages and the filters' walks.
pub fn tasks_hold_up()
    ensures idle { NoneHeldUpWithoutWork }
    ensures lost { StagesAreListed }
    ensures walks { WalksAreListed }
{}
