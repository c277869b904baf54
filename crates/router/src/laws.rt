//! What an event that may stand in a file is to the second network: functions that do nothing, whose contracts are the laws.

ghost use Rattle.router.specs.Laws.{Local6MayStand, SecondMayStand, SessionsEndInBoth, ToldInTwo, ToldMayStand, UpdateIsTold};

use live_state::sessions_end;

/// Whose network reads a message doesn't matter to whether it ends the session.
pub(crate) fn sessions_end_in_both()
    ensures { SessionsEndInBoth }
{}

/// What the second network is told of an event of the first may stand there, and both know the same after it.
pub(crate) fn told_may_stand()
    ensures may { ToldMayStand }
    ensures two { ToldInTwo }
{
    sessions_end_in_both();
}

/// An event of the second network alone may stand there.
pub(crate) fn second_may_stand()
    ensures { SecondMayStand }
{}

/// Behind `local6` both know the same.
pub(crate) fn local6_may_stand()
    ensures { Local6MayStand }
{}

/// An UPDATE of a peer that is up is told to the second network, which reads the same in it.
pub(crate) fn update_is_told()
    ensures { UpdateIsTold }
{
    sessions_end();
}
