//! Declarations, and sessions that begin.

ghost use Rattle.std.specs.Prelude.{◌≡◌, [], OnOk, IfOk, IsSome, Some, None, map};
ghost use Rattle.bgp_attr.specs.Speakers.{IsProfileOf};
ghost use Rattle.event_text.specs.declared.event.Event.TheVariants as events;
ghost use Rattle.event_text.specs.Declarations.{peer_at, refusal};
ghost use Rattle.peer_side.specs.Peers.{chain_at};
ghost use Rattle.event_text.specs.WellFormed.{IsWellFormed};
ghost use Rattle.router_moments.specs.Moments.{profiled, spoken};
ghost use Rattle.router_moments.specs.Stands.{Stands};
ghost use Rattle.router_moments.specs.Blocks.{begin_line, first_begins};
ghost use Rattle.journal_text.specs.Journals.{with_lines};
ghost use Rattle.router_moments.specs.Peers.{is_up};
ghost use Rattle.router_moments.specs.Works.{Pushes, HasStepped};

use crate::network::Network;
use addr4::{Addr, Memory, Texts};
use bgp_attr::{Profile, Speaker};
use exit_side::Exits;
use exit_side::laws::a_stranger_reads;
use in_chain::Chain;
use journal_text::{Entry, Journal, Line, Link};
use peer_out::Writes;
use policy_rules::Rules;
use rib_route::Proto;

impl<F: Writes> Network<F> {
    /// How messages are read and written.
    pub fn profile(&self) -> Profile
        ensures value { result ≡ self.now.declared.profile }
        ensures of { IsProfileOf F.V6 result }
    {
        self.above.declared.known();
        self.above.declared.profile()
    }

    /// This holds for the whole file: how AS numbers and errors in attributes are read and written. Nobody reads the queue
    /// yet, so it begins anew.
    pub fn set_profile(&mut self, profile: Profile)
        requires { IsProfileOf F.V6 profile }
        ensures { self.new ≡ profiled self.old profile }
    {
        self.above.declared.set_profile(profile);
        self.readers.exits = Exits::new(self.alloc, profile);
    }

    /// `local6` was said: routes of IPv6 are read in messages from now on (RFC 4760). Takes no memory.
    pub fn speak_ipv6(&mut self)
        ensures { self.new ≡ spoken self.old }
    {
        self.above.declared.known();
        self.above.declared.set_ipv6();
        self.above.declared.known();
        self.readers
            .exits
            .set_profile(self.above.declared.profile());
    }

    /// `local` was declared: the links of the interior routes begin.
    pub(crate) fn declare_speaker(
        &mut self,
        words: Speaker<Addr<F>>,
        journal: &mut Journal<F>,
    ) -> Result<(), Memory>
        requires admitted { refusal self.old.declared (events.Local words) ≡ None }
        requires stands { Stands self.old }
        requires formed { IsWellFormed self.old.declared.v6 self.old.declared.profile (events.Local words) }
        ensures { OnOk result (Pushes (HasStepped self.old (events.Local words) 0 self.new) journal.old journal.new) }
    {
        a_stranger_reads();
        self.above.declared.known();
        self.above.declared.set_speaker(words);
        begin_rib(journal)?;
        self.begin_reading(journal)?;
        self.readers.rib.begin(journal)
    }

    /// `peer` was declared: its chain and its resolver begin, without routes and rules.
    pub(crate) fn declare_peer(
        &mut self,
        number: u32,
        words: Speaker,
        client: bool,
        journal: &mut Journal<F>,
    ) -> Result<(), Memory>
        requires admitted { refusal self.old.declared (events.Peer number words client) ≡ None }
        requires stands { Stands self.old }
        requires formed { IsWellFormed self.old.declared.v6 self.old.declared.profile (events.Peer number words client) }
        ensures { OnOk result (Pushes (HasStepped self.old (events.Peer number words client) 0 self.new) journal.old journal.new) }
    {
        let Some(me) = self.above.declared.speaker() else {
            unreachable!()
        };
        self.above.declared.add_peer(number, words, client)?;
        let Some(peer) = self.above.declared.peer(number) else {
            unreachable!()
        };
        self.above.chains.begin(number, me, peer.words, journal)?;
        self.above.hops.begin(peer.words.number, journal)?;
        Ok(())
    }

    /// A peer's session begins; `ignored` where one is up.
    pub(crate) fn begin_session(
        &mut self,
        number: u32,
        journal: &mut Journal<F>,
    ) -> Result<(), Memory>
        requires admitted { refusal self.old.declared (events.Up number) ≡ None }
        requires stands { Stands self.old }
        ensures { OnOk result (Pushes (HasStepped self.old (events.Up number) 0 self.new) journal.old journal.new) }
    {
        if self.is_up(number) {
            return journal.push_line(Line::Ignored);
        }
        self.above.declared.begin_session(number);
        self.begin_exit(number, journal)
    }

    /// A peer's incoming filter has new rules. Takes no memory.
    pub(crate) fn edit_incoming(&mut self, number: u32, rules: Rules<F>)
        requires admitted { refusal self.old.declared (events.FilterIn number rules) ≡ None }
        requires stands { Stands self.old }
        ensures { HasStepped self.old (events.FilterIn number rules) 0 self.new [] }
    {
        self.above.chains.edit(number, rules);
    }

    /// Whether the peer is up.
    pub(crate) fn is_up(&self, number: u32) -> bool
        ensures { result ≡ is_up (peer_at number self.now.declared.peers) }
    {
        match self.above.declared.peer(number) {
            Some(peer) => peer.up,
            None => false,
        }
    }

    /// The chain of a declared peer.
    pub fn chain(&self, number: u32) -> &Chain<F>
        requires { IsSome (chain_at number self.now.chains) }
        ensures { Some result.now ≡ chain_at number self.now.chains }
    {
        self.above.chains.chain(number).unwrap()
    }
}

/// The links of interior routes, `red` and `best`.
fn begin_rib<F: Texts>(journal: &mut Journal<F>) -> Result<(), Memory>
    ensures { OnOk result (journal.new ≡ with_lines journal.old first_begins) }
{
    let links = [
        Link::Org(Proto::Connected),
        Link::Org(Proto::Static),
        Link::Org(Proto::Ospf),
        Link::Org(Proto::Rip),
        Link::Low,
        Link::Dyn,
        Link::Int,
        Link::Red,
        Link::Best,
    ];
    begin_all(&links, journal)
}

/// Links begin.
fn begin_all<F: Texts>(links: &[Link], journal: &mut Journal<F>) -> Result<(), Memory>
    ensures { OnOk result (journal.new ≡ with_lines journal.old (map begin_line links.now)) }
{
    for link in links {
        journal.push_line(Line::Journal(Entry::Begin(*link)))?;
    }
    Ok(())
}
