//! Turns of background work.

ghost use Rattle.std.specs.Prelude.{◌≡◌, IfOk, OnOk, IfNone, option_map};
ghost use Rattle.journal_text.specs.declared.link.Task.TheVariants as tasks;
ghost use Rattle.router_moments.specs.Moments.{Gives};
ghost use Rattle.router_moments.specs.Stands.{Stands, AllHaveExits};
ghost use Rattle.router_moments.specs.Phases.{all_phases, counts};
ghost use Rattle.router_moments.specs.Turns.{next_task};
ghost use Rattle.router_moments.specs.Works.{TakesTurn, AreTurns, HasDrained, RunsOut, AllHaveDrained};
ghost use Rattle.router_network.specs.Informed.{Informed};

use crate::network::{Network, plus};
use addr4::Memory;
use decision::Contests;
use journal_text::{Journal, Task};
use peer_out::Writes;
use router_moments::{Done, Phase, only_work_holds_up, rows_at_rest_are_exact};

impl<F: Writes> Network<F> {
    /// One turn of a task, and the text of its lines. Each task's turn stays a function of its own, so that one pays for its own
    /// locals and not for those of all.
    pub fn turn(
        &mut self,
        task: Task,
        contests: &mut Contests<F>,
        journal: &mut Journal<F>,
    ) -> Result<Done, Memory>
        requires stands { Stands self.old }
        requires informed { Informed contests.old self.old }
        ensures taken { IfOk result (TakesTurn task self.old self.new journal.old journal.new) }
        ensures informed { OnOk result (Informed contests.new self.new) }
    {
        match task {
            Task::Rdel(proto, loss) => self.turn_route(proto, loss, contests, journal),
            Task::Nh(number) => self.turn_hops(number, contests, journal),
            Task::Red => self.turn_own(contests, journal),
            Task::Ext => self.turn_external(contests, journal),
            Task::ReadRib => self.turn_reader(journal),
            Task::Out(number) => self.turn_exit(number, contests, journal),
            Task::Ref(number) => self.turn_refresh(number, journal),
            Task::Del(_, _) | Task::Fin(_) => self.turn_peer(task, contests, journal),
        }
    }

    /// Turns of a task, at most so many; fewer where the task has no work left.
    pub(crate) fn turns(
        &mut self,
        task: Task,
        most: u128,
        contests: &mut Contests<F>,
        journal: &mut Journal<F>,
    ) -> Result<u128, Memory>
        requires stands { Stands self.old }
        requires informed { Informed contests.old self.old }
        ensures taken { IfOk result (λ turns. Gives (AreTurns task most self.old turns self.new) journal.old journal.new) }
        ensures informed { OnOk result (Informed contests.new self.new) }
    {
        journal.flush()?;
        for taken in 0..most {
            match self.turn(task, contests, journal)? {
                Done::Nothing => return Ok(taken),
                Done::Taken => {}
            }
        }
        Ok(most)
    }

    /// Turns of a task to its end.
    pub(crate) fn drain_task(
        &mut self,
        task: Task,
        contests: &mut Contests<F>,
        journal: &mut Journal<F>,
    ) -> Result<u128, Memory>
        requires stands { Stands self.old }
        requires informed { Informed contests.old self.old }
        ensures drained { IfOk result (λ turns. Gives (HasDrained task self.old turns self.new) journal.old journal.new) }
        ensures informed { OnOk result (Informed contests.new self.new) }
    {
        journal.flush()?;
        let mut turns = 0;
        'rest: loop {
            match self.turn(task, contests, journal)? {
                Done::Nothing => return Ok(turns),
                Done::Taken => turns = plus(turns, 1)?,
            }
        }
    }

    /// The first task of a phase that has work; None where no turn of the phase is left.
    pub(crate) fn next(&self, phase: Phase) -> Option<Task>
        requires { Stands self.now }
        ensures next { result ≡ next_task phase self.now }
        ensures none { IfNone result (counts self.now phase ≡ 0) }
    {
        match phase {
            Phase::Rdel => self.above.tree.oldest(),
            Phase::Red => self.next_own(),
            Phase::Del => self.above.chains.first_loss(),
            Phase::Fin => self.above.chains.first_walk(),
            Phase::Nh => task_of(self.above.hops.first_busy()),
            Phase::ReadRib => self.next_reader(),
            Phase::Out => exit_of(self.readers.exits.first_busy()),
            Phase::Ext => self.next_external(),
            Phase::Ref => refresh_of(self.readers.exits.first_refresh()),
        }
    }

    /// A phase: the first of its tasks that has work runs to its end, until none has.
    pub fn drain(
        &mut self,
        phase: Phase,
        contests: &mut Contests<F>,
        journal: &mut Journal<F>,
    ) -> Result<u128, Memory>
        requires stands { Stands self.old }
        requires informed { Informed contests.old self.old }
        ensures drained { IfOk result (λ turns. Gives (RunsOut phase self.old turns self.new) journal.old journal.new) }
        ensures informed { OnOk result (Informed contests.new self.new) }
    {
        journal.flush()?;
        let mut turns = 0;
        while let Some(task) = self.next(phase) {
            turns = plus(turns, self.drain_task(task, contests, journal)?)?;
        }
        Ok(turns)
    }

    /// Phase after phase, each to its end.
    pub fn drain_all(
        &mut self,
        contests: &mut Contests<F>,
        journal: &mut Journal<F>,
    ) -> Result<u128, Memory>
        requires stands { Stands self.old }
        requires exits { AllHaveExits self.old }
        requires informed { Informed contests.old self.old }
        ensures drained { IfOk result (λ turns. Gives (AllHaveDrained self.old turns self.new) journal.old journal.new) }
        ensures informed { OnOk result (Informed contests.new self.new) }
    {
        rows_at_rest_are_exact();
        only_work_holds_up();
        journal.flush()?;
        let phases = phases();
        let mut turns = 0;
        for i in 0..phases.len() {
            turns = plus(turns, self.drain(phases[i], contests, journal)?)?;
        }
        Ok(turns)
    }
}

/// The phases of an idle, in their order.
pub(crate) fn phases() -> [Phase; 9]
    ensures { result ≡ all_phases }
{
    [
        Phase::Rdel,
        Phase::Red,
        Phase::Del,
        Phase::Fin,
        Phase::Nh,
        Phase::ReadRib,
        Phase::Out,
        Phase::Ext,
        Phase::Ref,
    ]
}

/// The task of a peer's exit.
pub(crate) fn exit_of(number: Option<u32>) -> Option<Task>
    ensures { result ≡ option_map (λ k. tasks.Out k) number }
{
    match number {
        Some(number) => Some(Task::Out(number)),
        None => None,
    }
}

/// The task of a peer's refresh.
pub(crate) fn refresh_of(number: Option<u32>) -> Option<Task>
    ensures { result ≡ option_map (λ k. tasks.Ref k) number }
{
    match number {
        Some(number) => Some(Task::Ref(number)),
        None => None,
    }
}

/// The task of a peer's next hops.
pub(crate) fn task_of(number: Option<u32>) -> Option<Task>
    ensures { result ≡ option_map (λ k. tasks.Nh k) number }
{
    match number {
        Some(number) => Some(Task::Nh(number)),
        None => None,
    }
}
