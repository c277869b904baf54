//! Laws of the RIB's exit, for the proofs of the crates above. Each is a function that does nothing, whose contract is the
//! law.

ghost use Rattle.rib_exit.specs.Exits.{nothing_yet};
ghost use Rattle.rib_exit.specs.Laws.{StandsAtFirst, LeadsAnywhere, ExtIsOfBest, ExactUnlessHeldUp, NoneHeldUpWithoutWork, StrangersAgree, NoneLeftWithoutWork, TurnsAreBounded, LeftFollows, CandidatesAreOfBest, RowsAreFew, KnownAreFew};

use ext_int::exact_unless_held_up as table_is_exact;

/// At first no row stands on a link, nothing is left to do, and all that is claimed holds.
pub fn nothing_at_first()
    ensures { StandsAtFirst nothing_yet }
{}

/// What leads the four links on leads any links on that have them among them.
pub fn leads_anywhere()
    ensures { LeadsAnywhere }
{}

/// The rows of `ext` are what forwarding needs of the best routes that peers sent.
pub fn the_rows_are_of_best()
    ensures rows { ExtIsOfBest }
    ensures candidates { CandidatesAreOfBest }
{}

/// At a prefix that the task doesn't hold up, the row of the forwarding table is the one that the interior route and the row of
/// `ext` make, by the longest match of its next hop. Without work the task holds up none.
pub fn exact_unless_held_up()
    ensures exact { ExactUnlessHeldUp }
    ensures idle { NoneHeldUpWithoutWork }
{
    table_is_exact();
}

/// What another client of the register does leaves the exit's agreement with it.
pub fn strangers_agree()
    ensures { StrangersAgree }
{}

/// How many turns are left: none exactly without work, never more than two walks and what is stale, and no more where fewer
/// candidates are left.
pub fn turns_are_left()
    ensures none { NoneLeftWithoutWork }
    ensures bounded { TurnsAreBounded }
    ensures follow { LeftFollows }
{}

/// No more rows stand on `ebgp` and `ibgp` than routes of peers were read.
pub fn rows_are_few()
    ensures { RowsAreFew }
{}

/// No more next hops are known than rows stand on `ext`.
pub fn known_are_few()
    ensures { KnownAreFew }
{}
