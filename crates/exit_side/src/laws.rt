//! Laws of the side of the exits, for the proofs of the crates above. Each is a function that does
//! nothing, whose contract is the law.

ghost use Rattle.bgp_attr.specs.declared.speaker.Profile.{Profile};
ghost use Rattle.exit_side.specs.Exits.{no_exits};
ghost use Rattle.exit_side.specs.Laws.{StandsAtFirst, LeadsAnywhere, LeadsAnywhereWithBest, ExactUnlessHeldUp, NoneHeldUpWithoutWork, WorkIsListed, NoneLeftWithoutWork, TurnsAreBounded, LeftFollows, StrangersReadOn, StrangersJoin, StrangersTake, BeginKeepsStrangers, EndKeepsStrangers, EditKeepsStrangers, TurnKeepsStrangers, PutKeepsStrangers, RefreshKeeps, ResendKeeps, StandingAreChains, RefreshIsListed, NoneLeftWithoutRefresh, ResendLeavesFewer, RefreshesAreBounded};

use out_chain::{a_session_stands, unless_held_up_all_is_sent};

/// Where no peer is up no link is live, nothing is left to do, and all that is claimed holds.
pub fn nothing_at_first()
    ensures { (profile : Profile) → StandsAtFirst (no_exits profile) }
{}

/// What leads the links of the exits on leads any links on that have them among them, and `best`
/// where a link inherits it.
pub fn leads_anywhere()
    ensures alone { LeadsAnywhere }
    ensures with_best { LeadsAnywhereWithBest }
{}

/// At a prefix that the exit of a peer doesn't hold up, the peer was sent exactly what its latest rules make of the row of `best`.
/// Without work it holds up nothing; and all that have work are among the peers'.
pub fn exact_unless_held_up()
    ensures exact { ExactUnlessHeldUp }
    ensures idle { NoneHeldUpWithoutWork }
    ensures listed { WorkIsListed }
{
    unless_held_up_all_is_sent();
}

/// How many turns are left: none exactly without work, for each peer never more than the changes
/// that the slowest reader hasn't taken and two walks, and no more where fewer candidates are left.
pub fn turns_are_left()
    ensures none { NoneLeftWithoutWork }
    ensures bounded { TurnsAreBounded }
    ensures follow { LeftFollows }
{}

/// What a reader of the queue that is no peer's takes, and that it joins or leaves, leaves the
/// exits as they were.
pub fn strangers_read_on()
    ensures { StrangersReadOn }
{
    a_session_stands();
}

/// The same of one that joins, which is no peer's, and of what it takes.
pub fn a_stranger_reads()
    ensures joins { StrangersJoin }
    ensures takes { StrangersTake }
{
    a_session_stands();
}

/// Whatever is done with the exits leaves alone what such a reader hasn't taken, but for a change
/// of `best`, which joins it.
pub fn strangers_are_left()
    ensures begin { BeginKeepsStrangers }
    ensures end { EndKeepsStrangers }
    ensures edit { EditKeepsStrangers }
    ensures turn { TurnKeepsStrangers }
    ensures put { PutKeepsStrangers }
{}

/// A refresh, and the turns of its walk, change no link, no other peer's chain and nothing that a
/// reader hasn't taken.
pub fn a_refresh_changes_nothing_else()
    ensures begins { RefreshKeeps }
    ensures resends { ResendKeeps }
{}

/// How many turns of the walks of refreshes are left: none exactly where none is on, fewer after
/// each, and where no exit has work never more for a peer than candidates of `best`.
pub fn refreshes_are_left()
    ensures chains { StandingAreChains }
    ensures listed { RefreshIsListed }
    ensures none { NoneLeftWithoutRefresh }
    ensures fewer { ResendLeavesFewer }
    ensures bounded { RefreshesAreBounded }
{}
