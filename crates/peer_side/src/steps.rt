//! What sessions bring to a peer's chain, and turns of background work.

ghost use Rattle.std.specs.Prelude.{◌≡◌, OnOk, IfOk, IsSome};
ghost use Rattle.journal_text.specs.Journals.{Adds};
ghost use Rattle.peer_side.specs.Peers.{chain_at, peer_of, IsPeers, IsPeersBut};
ghost use Rattle.peer_side.specs.Steps.{FeedsInward, WeldsInward, LosesInward, MayLose, ComesInward};

use crate::peers::Peers;
use addr4::{Memory, Prefix, Texts};
use bgp_attr::{Route, SharedAttrs};
use journal_text::{Journal, Task};
use link_change::{Change, Turn};

impl<F: Texts> Peers<F> {
    /// A route of a peer is announced (`row` is some), or withdrawn (RFC 4271, section 3.1). Answers the change on `filt.K`:
    /// None exactly where its map stays the same. An announcement may empty a stage: weld when all has followed.
    pub fn feed(
        &mut self,
        number: u32,
        prefix: Prefix<F>,
        row: Option<SharedAttrs<F>>,
        journal: &mut Journal<F>,
    ) -> Result<Option<Change<Route<SharedAttrs<F>>, Prefix<F>>>, Memory>
        requires sound { IsPeers self.old }
        requires there { IsSome (chain_at number self.old) }
        ensures { IfOk result (λ sent. Adds (FeedsInward number prefix row sent self.old self.new) journal.old journal.new) }
    {
        let Some(chain) = self.chains.get_mut(&number) else {
            unreachable!()
        };
        let sent = chain.feed(prefix, row, journal)?;
        Ok(sent)
    }

    /// Takes out the stage of a peer that a feed or a turn emptied, if there is one. No row of `filt.K` changes.
    pub fn weld(&mut self, number: u32, journal: &mut Journal<F>) -> Result<(), Memory>
        requires sound { IsPeersBut number self.old }
        requires there { IsSome (chain_at number self.old) }
        ensures { OnOk result (Adds (WeldsInward number self.old self.new) journal.old journal.new) }
    {
        let Some(fallen) = self.chains.get_mut(&number) else {
            unreachable!()
        };
        fallen.weld(journal)?;
        Ok(())
    }

    /// The session of this number of a peer is lost: its routes, if there are any, go to a deletion stage directly below the
    /// top (NSDI 2005, section 5.1.2), and the link `peer.K.S` above it begins. No other link changes.
    pub fn lose(
        &mut self,
        number: u32,
        session: u32,
        journal: &mut Journal<F>,
    ) -> Result<(), Memory>
        requires sound { IsPeers self.old }
        requires may { MayLose number session self.old }
        ensures { OnOk result (Adds (LosesInward number session self.old self.new) journal.old journal.new) }
    {
        let Some(chain) = self.chains.get_mut(&number) else {
            unreachable!()
        };
        chain.lose(session, journal)?;
        Ok(())
    }

    /// One turn of a task. Of `del.K.S`: the least row of that stage goes, and its delete goes down; of `fin.K`: the walk of
    /// the filter goes to the next prefix of `in.K`, or ends. A turn may empty a stage: weld when all has followed. Nothing
    /// exactly where the task has no work; Quiet where no change comes out on `filt.K`.
    pub fn turn(
        &mut self,
        task: Task,
        journal: &mut Journal<F>,
    ) -> Result<Turn<Route<SharedAttrs<F>>, Prefix<F>>, Memory>
        requires sound { IsPeers self.old }
        ensures { IfOk result (ComesInward task self.old self.new journal.old journal.new) }
    {
        let Some(chain) = self.chains.get_mut(&peer_of(task)) else {
            return Ok(Turn::Nothing);
        };
        let turn = chain.unit(task, journal)?;
        Ok(turn)
    }
}

/// The peer whose task it is; 0 for a task of none.
pub fn peer_of(task: Task) -> u32
    ensures { result ≡ peer_of task }
{
    match task {
        Task::Del(number, _) => number,
        Task::Fin(number) | Task::Nh(number) | Task::Out(number) | Task::Ref(number) => number,
        _ => 0,
    }
}
