//! Laws of the side of next hops, for the proofs of the crates above. Each is a function that does nothing, whose contract is
//! the law.

ghost use Rattle.std.specs.FinMap as map;
ghost use Rattle.hop_side.specs.Laws.{StandsAtFirst, LeadsAnywhere, StrangersAgree, ExactUnlessHeldUp, NoneHeldUpWithoutWork, WorkIsListed, NoneLeftWithoutWork, TurnsAreBounded, LeftFollows, KnownAreFew};

/// Without a peer no link is live, nothing is left to do, and all that is claimed holds.
pub fn nothing_at_first()
    ensures { StandsAtFirst map.empty }
{}

/// What leads the links `res.K` on leads any links on that have them among them.
pub fn leads_anywhere()
    ensures { LeadsAnywhere }
{}

/// What a client that is no peer does, as the forwarding table, leaves the agreement of all resolvers.
pub fn strangers_agree()
    ensures { StrangersAgree }
{}

/// At a prefix that the next hops of a peer don't hold up, the row of its `res.K` is the one that the register's answer makes of
/// the row of its `filt.K`. Without work they hold up none; and all that have work are among the peers'.
pub fn exact_unless_held_up()
    ensures exact { ExactUnlessHeldUp }
    ensures idle { NoneHeldUpWithoutWork }
    ensures listed { WorkIsListed }
{}

/// How many turns are left: none exactly without work, never more than what is known and two walks of each, and no more where
/// fewer candidates are left.
pub fn turns_are_left()
    ensures none { NoneLeftWithoutWork }
    ensures bounded { TurnsAreBounded }
    ensures follow { LeftFollows }
{}

/// A peer's resolver knows no more next hops than rows stand on its `filt.K`.
pub fn known_are_few()
    ensures { KnownAreFew }
{}
