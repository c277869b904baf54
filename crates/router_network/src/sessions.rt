//! What the sessions of peers bring: the prefixes of an UPDATE, and the loss of a session.

ghost use Rattle.std.specs.Prelude.{◌≡◌, [], ◌∷◌, IfOk, OnOk, IsSome, None};
ghost use Rattle.peer_side.specs.Peers.{chain_at, overdue_at};
ghost use Rattle.std.specs.Option.{ForSome};
ghost use Rattle.peer_out.specs.Changes.{MayBeHeard};
ghost use Rattle.exit_side.specs.Exits.{chain_at as exit_at};
ghost use Rattle.router_moments.specs.Moments.{Gives};
ghost use Rattle.router_moments.specs.Stands.{Stands};
ghost use Rattle.router_moments.specs.Works.{Pushes, AreHeard, IsUpAt, IsSession, HaveFed, HasLost, HasRoom, Ends};
ghost use Rattle.router_network.specs.Informed.{Informed};

use crate::candidates::{enter, leave};
use crate::network::Network;
use addr4::{Family, Memory, Prefix, Row};
use bgp_attr::SharedAttrs;
use decision::Contests;
use journal_text::Journal;
use peer_out::Writes;

impl<F: Writes> Network<F> {
    /// The prefixes of an UPDATE from a peer that is up are announced and withdrawn, one after the other.
    pub fn feed(
        &mut self,
        number: u32,
        changes: &[(Prefix<F>, Option<SharedAttrs<F>>)],
        contests: &mut Contests<F>,
        journal: &mut Journal<F>,
    ) -> Result<(), Memory>
        requires stands { Stands self.old }
        requires up { IsUpAt number self.old }
        requires heard { AreHeard self.old.declared.profile changes.now }
        requires informed { Informed contests.old self.old }
        ensures feeds { OnOk result (Pushes (HaveFed number changes.now self.old self.new) journal.old journal.new) }
        ensures informed { OnOk result (Informed contests.new self.new) }
    {
        for change in changes {
            let row = again(&change.1)?;
            self.feed_one(number, change.0, row, contests, journal)?;
        }
        Ok(())
    }

    fn feed_one(
        &mut self,
        number: u32,
        prefix: Prefix<F>,
        row: Option<SharedAttrs<F>>,
        contests: &mut Contests<F>,
        journal: &mut Journal<F>,
    ) -> Result<(), Memory>
        requires stands { Stands self.old }
        requires up { IsUpAt number self.old }
        requires heard { ForSome row (MayBeHeard self.old.declared.profile) }
        requires informed { Informed contests.old self.old }
        ensures feeds { OnOk result (Pushes (HaveFed number ((prefix, row) ∷ []) self.old self.new) journal.old journal.new) }
        ensures informed { OnOk result (Informed contests.new self.new) }
    {
        let had = self.has_candidate(number, prefix);
        let sent = self.above.chains.feed(number, prefix, row, journal)?;
        let has = self.has_candidate(number, prefix);
        enter(contests, prefix, had, has)?;
        self.settle_peer(number, sent, contests, journal)?;
        leave(contests, prefix, had, has)
    }

    /// Session `session` of a peer is lost. Where 16 deletion stages stand and it has routes, the oldest runs to its end
    /// first (NSDI 2005, section 5.1.2).
    pub fn lose(
        &mut self,
        number: u32,
        session: u32,
        contests: &mut Contests<F>,
        journal: &mut Journal<F>,
    ) -> Result<(), Memory>
        requires stands { Stands self.old }
        requires up { IsSession number session self.old }
        requires exit { IsSome (exit_at number self.old.exits) }
        requires informed { Informed contests.old self.old }
        ensures loses { OnOk result (Gives (HasLost number session self.old self.new) journal.old journal.new) }
        ensures informed { OnOk result (Informed contests.new self.new) }
    {
        self.readers.exits.end(number, journal)?;
        self.make_room(number, contests, journal)?;
        self.lose_with_room(number, session, journal)?;
        journal.flush()
    }

    /// Makes room for one more deletion stage of a peer.
    fn make_room(
        &mut self,
        number: u32,
        contests: &mut Contests<F>,
        journal: &mut Journal<F>,
    ) -> Result<(), Memory>
        requires stands { Stands self.old }
        requires there { IsSome (chain_at number self.old.chains) }
        requires informed { Informed contests.old self.old }
        ensures makes { OnOk result (Gives (HasRoom number self.old self.new) journal.old journal.new) }
        ensures informed { OnOk result (Informed contests.new self.new) }
    {
        match self.above.chains.overdue(number) {
            Some(task) => {
                self.drain_task(task, contests, journal)?;
                Ok(())
            }
            None => journal.flush(),
        }
    }

    fn lose_with_room(
        &mut self,
        number: u32,
        session: u32,
        journal: &mut Journal<F>,
    ) -> Result<(), Memory>
        requires stands { Stands self.old }
        requires up { IsSession number session self.old }
        requires free { overdue_at number self.old.chains ≡ None }
        requires silent { exit_at number self.old.exits ≡ None }
        ensures { OnOk result (Pushes (Ends number session self.old self.new) journal.old journal.new) }
    {
        self.above.chains.lose(number, session, journal)?;
        self.above.declared.end_session(number);
        Ok(())
    }
}

/// The same attributes once more. Takes no memory.
pub fn again<F: Family>(attrs: &Option<SharedAttrs<F>>) -> Result<Option<SharedAttrs<F>>, Memory>
    ensures { IfOk result (λ again. again ≡ attrs.now) }
{
    match attrs {
        Some(attrs) => Ok(Some(attrs.copy()?)),
        None => Ok(None),
    }
}
