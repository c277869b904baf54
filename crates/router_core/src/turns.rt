//! Background work of a network: single turns, phases, and all of it.

ghost use Rattle.std.specs.Prelude.{◌≡◌, ◌+◌, ◌<◌, ◌^◌, ◌++◌, ◌∷◌, [], true, false, OnOk, OnErr, IfOk, IsErr};
ghost use Rattle.journal_text.specs.declared.line.Line.TheVariants as lines;
ghost use Rattle.event_text.specs.declared.event.Event.TheVariants as events;
ghost use Rattle.event_text.specs.Declarations.{refusal};
ghost use Rattle.router_moments.specs.Moments.{bound_of, Gives};
ghost use Rattle.router_moments.specs.Scratch.{IsExactAtRest};
ghost use Rattle.router_moments.specs.Stands.{CoreStands};
ghost use Rattle.router_moments.specs.Blocks.{Acts};
ghost use Rattle.router_moments.specs.Works.{Comes, HaveDrained, HasIdled};

use crate::hears::Hears;
use crate::router::Core;
use addr4::Memory;
use journal_text::{Journal, Task};
use live_state::declarations_follow;
use router_moments::{Done, Idle, Phase, rows_at_rest_are_exact};

impl<F: Hears> Core<F> {
    /// One turn of a task, and the text of its lines. [`Done::Nothing`] comes exactly where the task has no work; then
    /// nothing changes. What is live stays. No turn makes a next hop stale, in the resolver of a peer or among the external
    /// routes, but that of a protocol's deletion stage, since answers are of the interior routes and no other turn changes those.
    pub fn unit(&mut self, task: Task, journal: &mut Journal<F>) -> Result<Done, Memory>
        requires stands { self.old.failed ≡ false → CoreStands self.old }
        ensures comes { IfOk result (Comes task self.old.moment self.new.moment journal.old journal.new) }
        ensures stands { OnOk result (CoreStands self.new) }
        ensures exact { OnOk result (IsExactAtRest self.new.moment) }
        ensures events { OnOk result (self.new.events ≡ self.old.events) }
        ensures good { OnOk result (self.new.failed ≡ false) }
        ensures memory { OnErr result (self.new.failed ≡ true) }
        ensures stays { self.old.failed ≡ true → IsErr result }
    {
        if self.failed {
            return Err(Memory);
        }
        rows_at_rest_are_exact();
        self.failed = true;
        let done = self.network.turn(task, &mut self.contests, journal)?;
        self.failed = false;
        Ok(done)
    }

    /// A phase of an idle: each of its tasks runs to its end. Answers how many turns that took: of deletion stages at most
    /// as many as there are rows, of the walks at most two for each row and two for each peer, and of next hops one more for
    /// each that is stale as the phase begins; of refreshes as many as rows were sent. No row is added, and no next hop becomes stale but in [`Phase::Rdel`]; what the
    /// slowest reader hasn't taken grows by at most one change for each row in a phase of deletion stages, two in one of walks,
    /// and none where readers read.
    pub fn drain(&mut self, phase: Phase, journal: &mut Journal<F>) -> Result<u128, Memory>
        requires stands { self.old.failed ≡ false → CoreStands self.old }
        ensures drained { IfOk result (λ turns. Gives (HaveDrained phase self.old.moment turns self.new.moment) journal.old journal.new) }
        ensures stands { OnOk result (CoreStands self.new) }
        ensures exact { OnOk result (IsExactAtRest self.new.moment) }
        ensures events { OnOk result (self.new.events ≡ self.old.events) }
        ensures good { OnOk result (self.new.failed ≡ false) }
        ensures memory { OnErr result (self.new.failed ≡ true) }
        ensures stays { self.old.failed ≡ true → IsErr result }
    {
        if self.failed {
            return Err(Memory);
        }
        rows_at_rest_are_exact();
        self.failed = true;
        let turns = self.network.drain(phase, &mut self.contests, journal)?;
        self.failed = false;
        Ok(turns)
    }

    /// Every task runs to its end, in an idle of several networks, whose bound and turns the caller says. Answers the turns. This
    /// counts as an event.
    pub fn rest(&mut self, journal: &mut Journal<F>) -> Result<u128, Memory>
        requires admitted { refusal self.old.moment.declared events.Idle ≡ None }
        requires few { self.old.events < 4294967295 }
        requires bound { bound_of self.old.moment < 2 ^ 128 }
        requires stands { self.old.failed ≡ false → CoreStands self.old }
        ensures acts { IfOk result (λ turns. Gives (λ inner. Acts self.old.moment events.Idle turns self.new.moment (lines.Bound (bound_of self.old.moment) ∷ (inner ++ lines.Idle turns ∷ []))) journal.old journal.new) }
        ensures stands { OnOk result (CoreStands self.new) }
        ensures exact { OnOk result (IsExactAtRest self.new.moment) }
        ensures events { OnOk result (self.new.events ≡ self.old.events + 1) }
        ensures good { OnOk result (self.new.failed ≡ false) }
        ensures memory { OnErr result (self.new.failed ≡ true) }
        ensures stays { self.old.failed ≡ true → IsErr result }
    {
        if self.failed {
            return Err(Memory);
        }
        rows_at_rest_are_exact();
        declarations_follow();
        self.failed = true;
        let turns = self.network.drain_all(&mut self.contests, journal)?;
        self.events += 1;
        self.failed = false;
        Ok(turns)
    }

    /// Every task runs to its end, within the number of turns that is announced first. Answers both.
    pub fn idle(&mut self, journal: &mut Journal<F>) -> Result<Idle, Memory>
        requires stands { self.old.failed ≡ false → CoreStands self.old }
        ensures idled { IfOk result (λ idle. Gives (HasIdled self.old.moment idle self.new.moment) journal.old journal.new) }
        ensures stands { OnOk result (CoreStands self.new) }
        ensures exact { OnOk result (IsExactAtRest self.new.moment) }
        ensures events { OnOk result (self.new.events ≡ self.old.events) }
        ensures good { OnOk result (self.new.failed ≡ false) }
        ensures memory { OnErr result (self.new.failed ≡ true) }
        ensures stays { self.old.failed ≡ true → IsErr result }
    {
        if self.failed {
            return Err(Memory);
        }
        rows_at_rest_are_exact();
        self.failed = true;
        let idle = self.network.idle(&mut self.contests, journal)?;
        self.failed = false;
        Ok(idle)
    }
}
