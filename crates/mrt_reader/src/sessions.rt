//! What the lines written so far have said, and the lines of the next record.

ghost use Rattle.std.specs.Prelude.{if◌then◌else◌, ◌≡◌, ◌+◌, ◌++◌, ◌<◌, ◌≤◌, length, OnOk, IfOk, IfSome, Some, None};
ghost use Rattle.mrt_reader.specs.Kept.{told_of, said_of, HasMessage, HasMessageIn};
ghost use Rattle.mrt_reader.specs.Fields.{Message};
ghost use Rattle.mrt_reader.specs.Lines.{text_of};
ghost use Rattle.mrt_reader.specs.Sessions.{Written as Words, nothing_written, after_all, opening, local_by, meeting, place_by, place_of, hearing, hearing_at, peer_lines, foreign_lines, session_lines, lines_said, closing, peer_at, beginning, has_session, ending};

use crate::fields::{Body, News, Sides};
use crate::lines::{push_as4, push_down, push_idle, push_local, push_message, push_peer, push_up};
use addr4::{Addr, Memory};
use std::alloc::Global;
use std::marker::Model;

/// So many peers may be declared.
const MOST_PEERS: usize = 64;

/// So many sessions may a peer have.
const MOST_SESSIONS: u32 = 65535;

/// What was written of a peer.
#[derive(Clone, Copy)]
pub(crate) struct PeerState {
    pub(crate) addr: Addr,
    /// Whether its last line of a session is `up`.
    pub(crate) up: bool,
    /// How many lines `up` it has.
    pub(crate) sessions: u32,
}

/// What the lines so far have said.
#[derive(Drop)]
pub(crate) struct Written {
    local: Option<Addr>,
    /// The peers, of which the first is number 1.
    peers: Vec<PeerState>,
}

impl Model for Written {
    ghost use Rattle.std.specs.Prelude.{◌≤◌, length};
    ghost use Rattle.mrt_reader.specs.Sessions.{Written as Words};

    ghost Value = { Words };

    ghost view = { λ w. record { local = w.local; peers = w.peers.items } };

    ghost invariant = { λ w. length w.peers.items ≤ 64 };
}

/// The place of the peer with an address.
fn place_of(peers: &[PeerState], addr: Addr) -> Option<usize>
    ensures value { result ≡ place_of addr peers.now }
    ensures within { IfSome result (λ place. place < length peers.now) }
{
    peers.iter().position(|peer| peer.addr == addr)
}

impl Written {
    /// No line was written. Takes no memory.
    pub(crate) fn new(alloc: Global) -> Written
        ensures { result ≡ nothing_written }
    {
        Written {
            local: None,
            peers: Vec::new(alloc),
        }
    }

    /// Declares this speaker, if no record did, and answers its address.
    fn open(&mut self, as4: bool, sides: Sides, out: &mut Vec<u8>) -> Result<Addr, Memory>
        ensures address { IfOk result (λ local. local ≡ local_by sides self.old.local) }
        ensures lines { OnOk result (out.new.items ≡ out.old.items ++ text_of (opening as4 sides self.old.local)) }
        ensures behind { OnOk result (self.new ≡ after_all self.old (opening as4 sides self.old.local)) }
        ensures peers { OnOk result (self.new.peers ≡ self.old.peers) }
    {
        if let Some(local) = self.local {
            return Ok(local);
        }
        if as4 {
            push_as4(out)?;
        }
        push_local(out, sides.local_as, sides.local)?;
        self.local = Some(sides.local);
        Ok(sides.local)
    }

    /// Declares the peer, if its address comes first, and answers its place. There is none for a 65th.
    fn meet(&mut self, sides: Sides, out: &mut Vec<u8>) -> Result<Option<usize>, Memory>
        ensures place { IfOk result (λ place. place ≡ place_by self.old.peers (place_of sides.peer self.old.peers)) }
        ensures lines { OnOk result (out.new.items ≡ out.old.items ++ text_of (meeting sides self.old.peers (place_of sides.peer self.old.peers))) }
        ensures behind { OnOk result (self.new ≡ after_all self.old (meeting sides self.old.peers (place_of sides.peer self.old.peers))) }
        ensures within { IfOk result (λ place. IfSome place (λ i. i < length self.new.peers)) }
    {
        if let Some(place) = place_of(self.peers.as_slice(), sides.peer) {
            return Ok(Some(place));
        }
        let place = self.peers.len();
        if place >= MOST_PEERS {
            return Ok(None);
        }
        push_peer(out, place as u32 + 1, sides.peer_as, sides.peer)?;
        self.peers.push(PeerState {
            addr: sides.peer,
            up: false,
            sessions: 0,
        })?;
        Ok(Some(place))
    }

    /// A session of the peer at a place begins, if none is and it may have one more. Answers the peer's number, if it has a
    /// session then.
    fn begin(&mut self, place: usize, out: &mut Vec<u8>) -> Result<Option<u32>, Memory>
        requires { place < length self.old.peers }
        ensures session { IfOk result (λ number. number ≡ (if has_session (peer_at self.old place) then Some (place + 1) else None)) }
        ensures lines { OnOk result (out.new.items ≡ out.old.items ++ text_of (beginning (place + 1) (peer_at self.old place))) }
        ensures behind { OnOk result (self.new ≡ after_all self.old (beginning (place + 1) (peer_at self.old place))) }
    {
        let peer = self.peers[place];
        let number = place as u32 + 1;
        if peer.up {
            return Ok(Some(number));
        }
        if peer.sessions >= MOST_SESSIONS {
            return Ok(None);
        }
        push_up(out, number)?;
        self.peers[place] = PeerState {
            addr: peer.addr,
            up: true,
            sessions: peer.sessions + 1,
        };
        Ok(Some(number))
    }

    /// Its session ends, if there is one.
    fn end(&mut self, place: usize, out: &mut Vec<u8>) -> Result<(), Memory>
        requires { place < length self.old.peers }
        ensures lines { OnOk result (out.new.items ≡ out.old.items ++ text_of (ending (place + 1) (peer_at self.old place))) }
        ensures behind { OnOk result (self.new ≡ after_all self.old (ending (place + 1) (peer_at self.old place))) }
    {
        let peer = self.peers[place];
        if !peer.up {
            return Ok(());
        }
        push_down(out, place as u32 + 1)?;
        self.peers[place] = PeerState {
            addr: peer.addr,
            up: false,
            sessions: peer.sessions,
        };
        Ok(())
    }

    /// A message of the peer at a place, whose session begins if there is none.
    fn pass(&mut self, place: usize, octets: &[u8], out: &mut Vec<u8>) -> Result<(), Memory>
        requires { place < length self.old.peers }
        ensures lines { OnOk result (out.new.items ≡ out.old.items ++ text_of (hearing (place + 1) (peer_at self.old place) (Message octets.now))) }
        ensures behind { OnOk result (self.new ≡ after_all self.old (hearing (place + 1) (peer_at self.old place) (Message octets.now))) }
    {
        let _count = self.peers.len();
        match self.begin(place, out)? {
            Some(number) => push_message(out, number, octets),
            None => Ok(()),
        }
    }

    /// What was said of the peer at a place.
    fn hear(
        &mut self,
        place: usize,
        news: News,
        kept: &[u8],
        out: &mut Vec<u8>,
    ) -> Result<(), Memory>
        requires place { place < length self.old.peers }
        requires message { HasMessage (length kept.now) news }
        ensures lines { OnOk result (out.new.items ≡ out.old.items ++ text_of (hearing (place + 1) (peer_at self.old place) (told_of kept.now news))) }
        ensures behind { OnOk result (self.new ≡ after_all self.old (hearing (place + 1) (peer_at self.old place) (told_of kept.now news))) }
    {
        match news {
            News::Established => {
                self.begin(place, out)?;
                Ok(())
            }
            News::Ended => self.end(place, out),
            News::Message(start) => self.pass(place, &kept[start..], out),
            News::NoMessage => Ok(()),
        }
    }

    /// Appends the lines that a record of this session gives. For want of memory some front of them may have been appended, and
    /// then nothing is known of what was said.
    fn take_session(
        &mut self,
        as4: bool,
        sides: Sides,
        news: News,
        kept: &[u8],
        out: &mut Vec<u8>,
    ) -> Result<(), Memory>
        requires { HasMessage (length kept.now) news }
        ensures lines { OnOk result (out.new.items ≡ out.old.items ++ text_of (session_lines as4 self.old sides (told_of kept.now news))) }
        ensures behind { OnOk result (self.new ≡ after_all self.old (session_lines as4 self.old sides (told_of kept.now news))) }
    {
        let local = self.open(as4, sides, out)?;
        if local == sides.peer {
            return Ok(());
        }
        match self.meet(sides, out)? {
            Some(place) => self.hear(place, news, kept, out),
            None => Ok(()),
        }
    }

    /// Appends the lines that a record with this body gives.
    pub(crate) fn take(
        &mut self,
        as4: bool,
        body: Body,
        kept: &[u8],
        out: &mut Vec<u8>,
    ) -> Result<(), Memory>
        requires { HasMessageIn (length kept.now) body }
        ensures lines { OnOk result (out.new.items ≡ out.old.items ++ text_of (lines_said as4 self.old (said_of kept.now body))) }
        ensures behind { OnOk result (self.new ≡ after_all self.old (lines_said as4 self.old (said_of kept.now body))) }
    {
        match body {
            Body::Unused | Body::Malformed => Ok(()),
            Body::Session(sides, news) => self.take_session(as4, sides, news, kept, out),
        }
    }

    /// Appends the last line, if there is any.
    pub(crate) fn close(&self, out: &mut Vec<u8>) -> Result<(), Memory>
        ensures { OnOk result (out.new.items ≡ out.old.items ++ text_of (closing self.now)) }
    {
        match self.local {
            Some(_) => push_idle(out),
            None => Ok(()),
        }
    }
}
