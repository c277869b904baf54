//! Protocols whose interior routes are lost (NSDI 2005, section 5.1.2): a deletion stage begins, and its turns.

ghost use Rattle.std.specs.Prelude.{◌≡◌, OnOk, IfOk, IsSome, None};
ghost use Rattle.event_text.specs.declared.event.Event.TheVariants as events;
ghost use Rattle.event_text.specs.Declarations.{refusal};
ghost use Rattle.journal_text.specs.declared.link.Task.TheVariants as tasks;
ghost use Rattle.rib_tree.specs.Trees.{int_rows, AreNumbered, IsTree, IsFullBut};
ghost use Rattle.rib_tree.specs.Steps.{tree_overdue};
ghost use Rattle.router_moments.specs.Moments.{Gives};
ghost use Rattle.router_moments.specs.Stands.{Stands};
ghost use Rattle.router_moments.specs.Works.{TakesTurn, MayFollow, Turned, HasProtocolRoom, EndsProtocol, HasStepped, Pushes};
ghost use Rattle.router_network.specs.Informed.{Informed, InformedOver};

use crate::network::Network;
use addr4::{Addr, Memory, Prefix};
use decision::Contests;
use journal_text::{Journal, Task};
use link_change::{Change, Turn};
use peer_out::Writes;
use rib_route::{Interior, Proto};
use router_moments::Done;

impl<F: Writes> Network<F> {
    /// `lost`: the protocol's routes go to a deletion stage of their own. Where 16 stand and it has routes, the oldest runs
    /// to its end first (NSDI 2005, section 5.1.2).
    pub fn lose_protocol(
        &mut self,
        proto: Proto,
        contests: &mut Contests<F>,
        journal: &mut Journal<F>,
    ) -> Result<u128, Memory>
        requires admitted { refusal self.old.declared (events.Lose proto) ≡ None }
        requires few { AreNumbered 4294967294 self.old.tree }
        requires stands { Stands self.old }
        requires informed { Informed contests.old self.old }
        ensures steps { IfOk result (λ turns. Gives (HasStepped self.old (events.Lose proto) turns self.new) journal.old journal.new) }
        ensures informed { OnOk result (Informed contests.new self.new) }
    {
        self.make_protocol_room(proto, contests, journal)?;
        self.lose_protocol_with_room(proto, journal)?;
        journal.flush()?;
        Ok(0)
    }

    /// Makes room for one more deletion stage of a protocol.
    fn make_protocol_room(
        &mut self,
        proto: Proto,
        contests: &mut Contests<F>,
        journal: &mut Journal<F>,
    ) -> Result<(), Memory>
        requires stands { Stands self.old }
        requires informed { Informed contests.old self.old }
        ensures makes { OnOk result (Gives (HasProtocolRoom proto self.old self.new) journal.old journal.new) }
        ensures informed { OnOk result (Informed contests.new self.new) }
    {
        match self.above.tree.overdue(proto) {
            Some(task) => {
                self.drain_task(task, contests, journal)?;
                Ok(())
            }
            None => journal.flush(),
        }
    }

    fn lose_protocol_with_room(
        &mut self,
        proto: Proto,
        journal: &mut Journal<F>,
    ) -> Result<(), Memory>
        requires stands { Stands self.old }
        requires free { tree_overdue proto self.old.tree ≡ None }
        requires few { AreNumbered 4294967294 self.old.tree }
        requires since { IsSome self.old.declared.speaker }
        ensures ends { OnOk result (Pushes (EndsProtocol proto self.old self.new) journal.old journal.new) }
        ensures rows { OnOk result (int_rows self.new.tree ≡ int_rows self.old.tree) }
    {
        self.above.tree.lose(proto, journal)?;
        Ok(())
    }

    /// One turn of the stage of a protocol's loss, and the text of its lines.
    #[inline(never)]
    pub(crate) fn turn_route(
        &mut self,
        proto: Proto,
        loss: u32,
        contests: &mut Contests<F>,
        journal: &mut Journal<F>,
    ) -> Result<Done, Memory>
        requires stands { Stands self.old }
        requires informed { Informed contests.old self.old }
        ensures taken { IfOk result (TakesTurn (tasks.Rdel proto loss) self.old self.new journal.old journal.new) }
        ensures informed { OnOk result (Informed contests.new self.new) }
    {
        match self.above.tree.unit(Task::Rdel(proto, loss), journal)? {
            Turn::Nothing => Ok(Done::Nothing),
            Turn::Quiet => self.turned(proto, None, contests, journal),
            Turn::Sent(change) => self.turned(proto, Some(change), contests, journal),
        }
    }

    /// What follows a turn that was taken, and the text of its lines.
    fn turned(
        &mut self,
        proto: Proto,
        sent: Option<Change<Interior<Addr<F>>, Prefix<F>>>,
        contests: &mut Contests<F>,
        journal: &mut Journal<F>,
    ) -> Result<Done, Memory>
        requires tree { IsTree self.old.tree }
        requires full { IsFullBut proto self.old.tree }
        requires follow { MayFollow self.old }
        requires informed { InformedOver sent contests.old self.old }
        ensures turned { IfOk result (Turned proto sent self.old self.new journal.old journal.new) }
        ensures informed { OnOk result (Informed contests.new self.new) }
    {
        self.settle(proto, sent, contests, journal)?;
        journal.flush()?;
        Ok(Done::Taken)
    }
}
