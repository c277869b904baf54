//! What the events do that declare something: what holds for the whole file, this speaker, and peers.

ghost use Rattle.std.specs.Prelude.{◌≡◌, IfOk, None};
ghost use Rattle.event_text.specs.declared.event.Event.TheVariants as events;
ghost use Rattle.event_text.specs.Declarations.{refusal};
ghost use Rattle.router_moments.specs.Moments.{Gives};
ghost use Rattle.event_text.specs.WellFormed.{IsWellFormed};
ghost use Rattle.router_moments.specs.Stands.{Stands};
ghost use Rattle.router_moments.specs.Works.{HasStepped};

use crate::network::Network;
use addr4::{Addr, Memory};
use bgp_attr::Speaker;
use event_text::WholeFile;
use journal_text::Journal;
use peer_out::Writes;

impl<F: Writes> Network<F> {
    /// A line says something of the whole file, by which all messages are read and written from then on.
    pub fn whole_file(&mut self, word: WholeFile, journal: &mut Journal<F>) -> Result<u128, Memory>
        requires admitted { refusal self.old.declared (events.Whole word) ≡ None }
        requires stands { Stands self.old }
        ensures { IfOk result (λ turns. Gives (HasStepped self.old (events.Whole word) turns self.new) journal.old journal.new) }
    {
        let profile = self.profile();
        self.set_profile(word.said(profile));
        journal.flush()?;
        Ok(0)
    }

    /// This speaker is declared, and its links begin.
    pub fn local(
        &mut self,
        words: Speaker<Addr<F>>,
        journal: &mut Journal<F>,
    ) -> Result<u128, Memory>
        requires admitted { refusal self.old.declared (events.Local words) ≡ None }
        requires stands { Stands self.old }
        requires formed { IsWellFormed self.old.declared.v6 self.old.declared.profile (events.Local words) }
        ensures { IfOk result (λ turns. Gives (HasStepped self.old (events.Local words) turns self.new) journal.old journal.new) }
    {
        self.declare_speaker(words, journal)?;
        journal.flush()?;
        Ok(0)
    }

    /// A peer is declared, and its links begin.
    pub fn peer(
        &mut self,
        number: u32,
        words: Speaker,
        client: bool,
        journal: &mut Journal<F>,
    ) -> Result<u128, Memory>
        requires admitted { refusal self.old.declared (events.Peer number words client) ≡ None }
        requires stands { Stands self.old }
        requires formed { IsWellFormed self.old.declared.v6 self.old.declared.profile (events.Peer number words client) }
        ensures { IfOk result (λ turns. Gives (HasStepped self.old (events.Peer number words client) turns self.new) journal.old journal.new) }
    {
        self.declare_peer(number, words, client, journal)?;
        journal.flush()?;
        Ok(0)
    }
}
