//! Laws of outgoing chains, for the proofs of the crates above. Each is a function that does nothing, whose contract is the law.

ghost use Rattle.out_chain.specs.Laws.{ExactUnlessHeldUp, NoneHeldUpWithoutWork, BestRowTells, PutKeepsStanding, OthersKeepStanding, NoTurnsWithoutWork, OutTurnsAreBounded, RefreshKeeps, ResendKeeps, NoneLeftWithoutRefresh, OverWithoutRowsBeyond, RefreshIsBounded};

/// At a prefix that nothing holds up the peer was sent what the latest rules make of the best row. Without work nothing does.
pub fn unless_held_up_all_is_sent()
    ensures exact { ExactUnlessHeldUp }
    ensures idle { NoneHeldUpWithoutWork }
{}

/// Whether there is a best row at a prefix tells whether the prefix is held up.
pub fn the_best_row_tells()
    ensures { BestRowTells }
{}

/// A session goes on to stand while changes of the best rows are put, and while other readers take theirs, join and leave.
pub fn a_session_stands()
    ensures put { PutKeepsStanding }
    ensures others { OthersKeepStanding }
{}

/// How many turns of a session are left: none exactly without work, and no more than its changes and two walks.
pub fn out_turns_are_left()
    ensures none { NoTurnsWithoutWork }
    ensures bounded { OutTurnsAreBounded }
{}

/// A refresh, and the turns of its walk, change no row of the session and no rule, and it goes on to stand.
pub fn a_refresh_changes_nothing()
    ensures begins { RefreshKeeps }
    ensures resends { ResendKeeps }
{}

/// How many turns of the walk of a refresh are left: none exactly where none is on, and no more than rows; where it is over, no row
/// lies beyond its place.
pub fn refresh_turns_are_left()
    ensures none { NoneLeftWithoutRefresh }
    ensures over { OverWithoutRowsBeyond }
    ensures bounded { RefreshIsBounded }
{}
