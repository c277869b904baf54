//! Laws of resolvers, for the proofs of the crates above. Each is a function that does nothing, whose contract is the law.

ghost use Rattle.nexthop_resolver.specs.Laws.{TurnLeads, InvalidatingKeepsRows, ReachedKeepsRows, ExactUnlessHeldUp, NoneHeldUpAtRest, NoRowsAtFirst, TurnsFall, NothingAgrees, OthersAgree, ReachedAgrees, ReachedByNone, ReachedThen, ReachedAreKnown, NoneLeftAtRest, NoneLeftWithoutWork, TurnsAreBounded, LeftFollows, KnownAreFew, AnswersAreTold};

/// What a turn sends leads from the rows below before it to those after it.
pub fn a_turn_leads<A, R, L>()
    ensures { TurnLeads A R L }
{}

/// The rows below: none at first; and the same where answers become stale.
pub fn the_rows_below<A, R, L>()
    ensures first { NoRowsAtFirst A R L }
    ensures stale { InvalidatingKeepsRows A R L }
{}

/// At a prefix that no next hop holds up, the row below is the one that the register's answer makes of the row above; and where
/// there is nothing to do, no next hop holds up a prefix.
pub fn exact_unless_held_up<A, R, L>()
    ensures exact { ExactUnlessHeldUp A R L }
    ensures idle { NoneHeldUpAtRest A }
{}

/// A resolver agrees with the register: at first, whatever other clients do, and after a change of the interior routes once
/// the answers that came with the interests that it gave up are stale.
pub fn the_register_agrees<A>()
    ensures first { NothingAgrees A }
    ensures others { OthersAgree A }
    ensures reached { ReachedAgrees A }
{}

/// What becomes stale with interests that were given up, one after the other: nothing with none; no row below changes, and as
/// many next hops are known.
pub fn interests_are_given_up<A, R, L>()
    ensures none { ReachedByNone A }
    ensures more { ReachedThen A }
    ensures rows { ReachedKeepsRows A R L }
    ensures known { ReachedAreKnown A }
{}

/// How many turns are left: fewer after each, none exactly without work, so many at most, and no more where fewer candidates
/// are left.
pub fn turns_come_to_an_end<A, R, L>()
    ensures fall { TurnsFall A R L }
    ensures none { NoneLeftAtRest A }
    ensures idle { NoneLeftWithoutWork A }
    ensures bounded { TurnsAreBounded A }
    ensures follow { LeftFollows A }
{}

/// No more next hops are known than rows name them.
pub fn known_are_few<A, R>()
    ensures { KnownAreFew A R }
{}

/// The tests of what is kept of an answer tell equal ones.
pub fn answers_are_told()
    ensures { AnswersAreTold }
{}
