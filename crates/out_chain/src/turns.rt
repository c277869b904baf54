//! Turns of a session: the next change that it reads, or the next row that the walk of its filter comes to, goes to the peer.

ghost use Rattle.std.specs.Prelude.{◌≡◌, ◌≢◌, [], IfOk, OnOk, Some};
ghost use Rattle.std.specs.Option.{ForSome};
ghost use Rattle.peer_out.specs.Changes.{IsSentOf, MayBeHeard};
ghost use Rattle.fanout_queue.specs.Readers.{KeepsOtherReaders};
ghost use Rattle.journal_text.specs.Journals.{with_lines};
ghost use Rattle.out_chain.specs.Chains.{IsOutChain, RowsMayBeHeard, OutStands};
ghost use Rattle.out_chain.specs.Steps.{with_sent, said_of, IsTold, PassesOut, IsWalkedOut, IsOutTurn};

use crate::chain::OutChain;
use crate::refresh::still_on;
use addr4::{Memory, Prefix};
use bgp_attr::{Octets, Route, SharedAttrs};
use fanout_queue::Queue;
use filter_bank::RouteUpstream;
use journal_text::{Journal, Line, Link};
use link_change::{Change, Turn};
use peer_out::{SentRoute, Writes};

impl<F: Writes> OutChain<F> {
    /// One turn of the session's task. Where the reader has something to take, its first change goes down; else the walk of the
    /// filter goes to the next candidate of the best rows, or ends. Nothing exactly where neither is to be done; Quiet where no
    /// change comes out on `adv.J.S`.
    pub fn unit<U: RouteUpstream<F>>(
        &mut self,
        queue: &mut Queue<Route<SharedAttrs<F>>, F>,
        best: &U,
        journal: &mut Journal<F>,
    ) -> Result<Turn<SentRoute<F>, Prefix<F>>, Memory>
        requires stands { OutStands self.old queue.old (U.rows best.now) }
        ensures taken { IfOk result (IsOutTurn self.old self.new queue.old queue.new (U.candidates best.now) (U.rows best.now) journal.old journal.new) }
        ensures others { KeepsOtherReaders self.old.reader queue.old queue.new }
        ensures stands { OnOk result (OutStands self.new queue.new (U.rows best.now)) }
    {
        match queue.take(&mut self.reader)? {
            Some(change) => {
                let sent = self.pass_on(change, journal)?;
                Ok(Turn::taken(sent))
            }
            None => self.walk(best, journal),
        }
    }

    // A change that the reader took goes through the filter.
    fn pass_on(
        &mut self,
        change: Change<Route<SharedAttrs<F>>, Prefix<F>>,
        journal: &mut Journal<F>,
    ) -> Result<Option<Change<SentRoute<F>, Prefix<F>>>, Memory>
        requires chain { IsOutChain self.old }
        requires differs { change.after ≢ change.before }
        requires heard { ForSome change.after (λ r. MayBeHeard self.old.exit.profile r.attrs) }
        ensures { IfOk result (λ sent. PassesOut self.old self.new change sent journal.old journal.new) }
    {
        let link = Link::Read(u32::from(self.peer.number), self.session);
        journal.push_change(link, &change)?;
        let sent = self.filter.take_in(change, &self.to_peer, &self.peer)?;
        if let Some(sent) = &sent {
            self.send(sent, journal)?;
        }
        Ok(sent)
    }

    // One turn of the filter's walk over the best rows, which are those that the reader has.
    fn walk<U: RouteUpstream<F>>(
        &mut self,
        best: &U,
        journal: &mut Journal<F>,
    ) -> Result<Turn<SentRoute<F>, Prefix<F>>, Memory>
        requires chain { IsOutChain self.old }
        requires heard { RowsMayBeHeard self.old.exit.profile (U.rows best.now) }
        ensures { IfOk result (IsWalkedOut self.old self.new (U.candidates best.now) (U.rows best.now) journal.old journal.new) }
    {
        let turn = self.filter.unit(best, &self.to_peer, &self.peer)?;
        if let Turn::Sent(change) = &turn {
            self.send(change, journal)?;
        }
        Ok(turn)
    }

    // A change of what the filter makes is kept, and said to the peer. The walk of a refresh ends where no row lies beyond its place
    // any more.
    fn send(
        &mut self,
        change: &Change<SentRoute<F>, Prefix<F>>,
        journal: &mut Journal<F>,
    ) -> Result<(), Memory>
        requires { ForSome change.now.after (IsSentOf self.old.exit.profile self.old.exit.external change.now.prefix) }
        ensures after { OnOk result (self.new ≡ with_sent self.old (Some change.now)) }
        ensures lines { OnOk result (journal.new ≡ with_lines journal.old (said_of self.old [] (Some change.now))) }
        ensures told { OnOk result (IsTold self.old.exit change.now) }
    {
        self.sent.keep(change.prefix, &change.after)?;
        self.refresh = still_on(&self.sent, self.refresh);
        self.say(change, journal)
    }

    // A change goes out on `outf.J.S` and `adv.J.S`, and is said to the peer.
    fn say(
        &self,
        sent: &Change<SentRoute<F>, Prefix<F>>,
        journal: &mut Journal<F>,
    ) -> Result<(), Memory>
        requires { ForSome sent.now.after (IsSentOf self.now.exit.profile self.now.exit.external sent.now.prefix) }
        ensures lines { OnOk result (journal.new ≡ with_lines journal.old (said_of self.now [] (Some sent.now))) }
        ensures told { OnOk result (IsTold self.now.exit sent.now) }
    {
        let number = u32::from(self.peer.number);
        let outf = Link::Outf(number, self.session);
        let adv = Link::Adv(number, self.session);
        journal.push_change_on_both(outf, adv, sent)?;
        let octets = self.to_peer.out.message(sent)?;
        journal.push_line(Line::Out(number, Octets::from_vec(octets)))?;
        Ok(())
    }
}
