//! What each event of one network does that declares nothing.

ghost use Rattle.std.specs.Prelude.{◌≡◌, [], ◌∷◌, OnOk, IfOk, None};
ghost use Rattle.journal_text.specs.declared.line.Line.TheVariants as lines;
ghost use Rattle.journal_text.specs.Journals.{flushed, with_lines};
ghost use Rattle.event_text.specs.declared.event.Event.TheVariants as events;
ghost use Rattle.event_text.specs.declared.event.Question.TheVariants as questions;
ghost use Rattle.event_text.specs.Declarations.{refusal};
ghost use Rattle.router_moments.specs.Moments.{Gives};
ghost use Rattle.router_moments.specs.Stands.{Stands, AllHaveExits};
ghost use Rattle.router_moments.specs.Works.{HasStepped, HasIdled};
ghost use Rattle.router_network.specs.Informed.{Informed};

use crate::network::Network;
use addr4::{Memory, Prefix, Texts};
use decision::Contests;
use journal_text::{Journal, Line, Link, Task};
use peer_out::Writes;
use policy_rules::Rules;
use rib_route::Proto;
use router_moments::Idle;

impl<F: Writes> Network<F> {
    /// A line without words changes nothing.
    pub fn nothing(&mut self, journal: &mut Journal<F>) -> Result<u128, Memory>
        requires { Stands self.old }
        ensures { IfOk result (λ turns. Gives (HasStepped self.old events.Nothing turns self.new) journal.old journal.new) }
    {
        journal.flush()?;
        Ok(0)
    }

    /// A peer's session begins.
    pub fn up(&mut self, number: u32, journal: &mut Journal<F>) -> Result<u128, Memory>
        requires admitted { refusal self.old.declared (events.Up number) ≡ None }
        requires stands { Stands self.old }
        ensures { IfOk result (λ turns. Gives (HasStepped self.old (events.Up number) turns self.new) journal.old journal.new) }
    {
        self.begin_session(number, journal)?;
        journal.flush()?;
        Ok(0)
    }

    /// The rules of a peer's incoming filter change.
    pub fn filter_in(
        &mut self,
        number: u32,
        rules: Rules<F>,
        journal: &mut Journal<F>,
    ) -> Result<u128, Memory>
        requires admitted { refusal self.old.declared (events.FilterIn number rules) ≡ None }
        requires stands { Stands self.old }
        ensures { IfOk result (λ turns. Gives (HasStepped self.old (events.FilterIn number rules) turns self.new) journal.old journal.new) }
    {
        self.edit_incoming(number, rules);
        journal.flush()?;
        Ok(0)
    }

    /// The rules of a peer's outgoing filter change.
    pub fn filter_out(
        &mut self,
        number: u32,
        rules: Rules<F>,
        journal: &mut Journal<F>,
    ) -> Result<u128, Memory>
        requires admitted { refusal self.old.declared (events.FilterOut number rules) ≡ None }
        requires stands { Stands self.old }
        ensures { IfOk result (λ turns. Gives (HasStepped self.old (events.FilterOut number rules) turns self.new) journal.old journal.new) }
    {
        self.edit_outgoing(number, rules)?;
        journal.flush()?;
        Ok(0)
    }

    /// Whether the routes of a protocol are redistributed changes.
    pub fn redistribution(
        &mut self,
        proto: Proto,
        on: bool,
        journal: &mut Journal<F>,
    ) -> Result<u128, Memory>
        requires admitted { refusal self.old.declared (events.Redist proto on) ≡ None }
        requires stands { Stands self.old }
        ensures { IfOk result (λ turns. Gives (HasStepped self.old (events.Redist proto on) turns self.new) journal.old journal.new) }
    {
        self.edit_own(proto, on);
        journal.flush()?;
        Ok(0)
    }

    /// The row of a link at a prefix is asked for.
    pub fn look_up(
        &mut self,
        link: Link,
        p: Prefix<F>,
        contests: &Contests<F>,
        journal: &mut Journal<F>,
    ) -> Result<u128, Memory>
        requires stands { Stands self.old }
        requires informed { Informed contests.now self.old }
        ensures { IfOk result (λ turns. Gives (HasStepped self.old (events.Query (questions.Ask link p)) turns self.new) journal.old journal.new) }
    {
        self.prepare()?;
        self.ask(link, p, contests, journal)?;
        journal.flush()?;
        Ok(0)
    }

    /// The rows of a link are shown.
    pub fn list(
        &mut self,
        link: Link,
        contests: &Contests<F>,
        journal: &mut Journal<F>,
    ) -> Result<u128, Memory>
        requires stands { Stands self.old }
        requires informed { Informed contests.now self.old }
        ensures { IfOk result (λ turns. Gives (HasStepped self.old (events.Query (questions.Show link)) turns self.new) journal.old journal.new) }
    {
        self.prepare()?;
        self.show(link, contests, journal)?;
        journal.flush()?;
        Ok(0)
    }

    /// Every task runs to its end ([`Network::idle`]); answers how many turns that took.
    pub fn idle_turns(
        &mut self,
        contests: &mut Contests<F>,
        journal: &mut Journal<F>,
    ) -> Result<u128, Memory>
        requires stands { Stands self.old }
        requires exits { AllHaveExits self.old }
        requires informed { Informed contests.old self.old }
        ensures steps { IfOk result (λ turns. Gives (HasStepped self.old events.Idle turns self.new) journal.old journal.new) }
        ensures informed { OnOk result (Informed contests.new self.new) }
    {
        let idle = self.idle(contests, journal)?;
        Ok(idle.turns)
    }

    /// A peer's session ends; `ignored` where none is up.
    pub fn down(
        &mut self,
        number: u32,
        contests: &mut Contests<F>,
        journal: &mut Journal<F>,
    ) -> Result<u128, Memory>
        requires admitted { refusal self.old.declared (events.Down number) ≡ None }
        requires stands { Stands self.old }
        requires exits { AllHaveExits self.old }
        requires informed { Informed contests.old self.old }
        ensures steps { IfOk result (λ turns. Gives (HasStepped self.old (events.Down number) turns self.new) journal.old journal.new) }
        ensures informed { OnOk result (Informed contests.new self.new) }
    {
        let Some(peer) = self.above.declared.peer(number) else {
            unreachable!()
        };
        if !peer.up {
            return ignored(journal);
        }
        self.lose(number, peer.session, contests, journal)?;
        Ok(0)
    }

    /// Every task runs to its end.
    pub fn idle(
        &mut self,
        contests: &mut Contests<F>,
        journal: &mut Journal<F>,
    ) -> Result<Idle, Memory>
        requires stands { Stands self.old }
        requires exits { AllHaveExits self.old }
        requires informed { Informed contests.old self.old }
        ensures idles { IfOk result (λ idle. Gives (HasIdled self.old idle self.new) journal.old journal.new) }
        ensures informed { OnOk result (Informed contests.new self.new) }
    {
        let bound = self.bound()?;
        journal.push_line(Line::Bound(bound))?;
        let turns = self.drain_all(contests, journal)?;
        journal.push_line(Line::Idle(turns))?;
        journal.flush()?;
        Ok(Idle { bound, turns })
    }

    /// Some turns of a task, and the line that counts them.
    pub fn work(
        &mut self,
        task: Task,
        most: u32,
        contests: &mut Contests<F>,
        journal: &mut Journal<F>,
    ) -> Result<u128, Memory>
        requires stands { Stands self.old }
        requires informed { Informed contests.old self.old }
        ensures steps { IfOk result (λ turns. Gives (HasStepped self.old (events.Work task most) turns self.new) journal.old journal.new) }
        ensures informed { OnOk result (Informed contests.new self.new) }
    {
        let turns = self.turns(task, u128::from(most), contests, journal)?;
        journal.push_line(Line::Work(turns))?;
        journal.flush()?;
        Ok(turns)
    }
}

/// The line of an event that changes nothing, and its text. No turns are taken.
pub fn ignored<F: Texts>(journal: &mut Journal<F>) -> Result<u128, Memory>
    ensures { IfOk result (λ turns. (turns ≡ 0) × (journal.new ≡ flushed (with_lines journal.old (lines.Ignored ∷ [])))) }
{
    journal.push_line(Line::Ignored)?;
    journal.flush()?;
    Ok(0)
}
