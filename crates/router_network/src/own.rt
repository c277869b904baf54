//! Redistribution: the interior routes that this speaker announces as its own (RFC 4271, section 9.4).

ghost use Rattle.std.specs.Prelude.{◌≡◌, [], Some, None, IfOk, OnOk, IsSome};
ghost use Rattle.journal_text.specs.declared.link.Task.TheVariants as tasks;
ghost use Rattle.journal_text.specs.Journals.{Adds};
ghost use Rattle.event_text.specs.declared.event.Event.TheVariants as events;
ghost use Rattle.event_text.specs.Declarations.{refusal};
ghost use Rattle.exit_side.specs.Exits.{IsExits};
ghost use Rattle.router_moments.specs.declared.tasks.Phase.TheVariants as phases;
ghost use Rattle.router_moments.specs.Stands.{Stands};
ghost use Rattle.router_moments.specs.Turns.{next_task};
ghost use Rattle.router_moments.specs.Works.{TakesTurn, HasStepped, Redistributes, SendsOwn, Decides};
ghost use Rattle.router_network.specs.Informed.{Informed, KnowsOver, KnowsOwn};

use crate::candidates::{enter, leave};
use crate::hops::sent_of;
use crate::network::Network;
use addr4::{Addr, Memory, Prefix};
use bgp_attr::{Route, SharedAttrs};
use decision::Contests;
use journal_text::{Journal, Link, Task};
use link_change::{Change, Turn};
use peer_out::Writes;
use rib_route::{Interior, Proto};
use router_moments::Done;

impl<F: Writes> Network<F> {
    /// A protocol's routes are redistributed from now on, or aren't; a walk brings that into force. Takes no memory.
    pub(crate) fn edit_own(&mut self, proto: Proto, on: bool)
        requires admitted { refusal self.old.declared (events.Redist proto on) ≡ None }
        requires stands { Stands self.old }
        ensures { HasStepped self.old (events.Redist proto on) 0 self.new [] }
    {
        self.above.redist.edit(proto, on);
    }

    /// A change of `int` goes on through redistribution; where `red` changes, the best route is decided anew.
    pub(crate) fn redistribute(
        &mut self,
        change: &Change<Interior<Addr<F>>, Prefix<F>>,
        contests: &mut Contests<F>,
        journal: &mut Journal<F>,
    ) -> Result<(), Memory>
        requires exits { IsExits self.old.exits }
        requires since { IsSome self.old.declared.speaker }
        requires known { KnowsOver (Some change.now) contests.old self.old }
        ensures redistributes { OnOk result (Adds (Redistributes change.now self.old self.new) journal.old journal.new) }
        ensures informed { OnOk result (Informed contests.new self.new) }
    {
        let Some(me) = self.above.declared.speaker() else {
            unreachable!()
        };
        let sent = self.above.redist.take_in(change, &me)?;
        self.send_own(sent, contests, journal)
    }

    /// What redistribution sends, if it sends something: its entry is pushed, and the best route is decided anew.
    fn send_own(
        &mut self,
        sent: Option<Change<Route<SharedAttrs<F>>, Prefix<F>>>,
        contests: &mut Contests<F>,
        journal: &mut Journal<F>,
    ) -> Result<(), Memory>
        requires exits { IsExits self.old.exits }
        requires known { KnowsOwn sent contests.old self.old }
        ensures sends { OnOk result (Adds (SendsOwn sent self.old self.new) journal.old journal.new) }
        ensures informed { OnOk result (Informed contests.new self.new) }
    {
        journal.push_sent(Link::Red, &sent)?;
        match sent {
            None => Ok(()),
            Some(change) => self.decide_own(change, contests, journal),
        }
    }

    /// What follows a change of `red`. A row there is a candidate that the decision counts: one that comes before it is decided, one
    /// that goes after it.
    fn decide_own(
        &mut self,
        change: Change<Route<SharedAttrs<F>>, Prefix<F>>,
        contests: &mut Contests<F>,
        journal: &mut Journal<F>,
    ) -> Result<(), Memory>
        requires exits { IsExits self.old.exits }
        requires known { KnowsOwn (Some change) contests.old self.old }
        ensures decides { OnOk result (Adds (Decides 0 (Some change) self.old self.new) journal.old journal.new) }
        ensures informed { OnOk result (Informed contests.new self.new) }
    {
        let prefix = change.prefix;
        let had = change.before.is_some();
        let has = change.after.is_some();
        enter(contests, prefix, had, has)?;
        self.decide_change(0, change, contests, journal)?;
        leave(contests, prefix, had, has)
    }

    /// One turn of the walk of redistribution, and the text of its lines.
    #[inline(never)]
    pub(crate) fn turn_own(
        &mut self,
        contests: &mut Contests<F>,
        journal: &mut Journal<F>,
    ) -> Result<Done, Memory>
        requires stands { Stands self.old }
        requires informed { Informed contests.old self.old }
        ensures taken { IfOk result (TakesTurn tasks.Red self.old self.new journal.old journal.new) }
        ensures informed { OnOk result (Informed contests.new self.new) }
    {
        let Some(me) = self.above.declared.speaker() else {
            return Ok(Done::Nothing);
        };
        let turn = self.above.redist.unit(&self.above.tree, &me)?;
        if let Turn::Nothing = turn {
            return Ok(Done::Nothing);
        }
        self.send_own(sent_of(turn), contests, journal)?;
        journal.flush()?;
        Ok(Done::Taken)
    }

    /// The task of redistribution, where a walk is on.
    pub(crate) fn next_own(&self) -> Option<Task>
        ensures { result ≡ next_task phases.Red self.now }
    {
        if self.above.redist.busy() {
            return Some(Task::Red);
        }
        None
    }
}
