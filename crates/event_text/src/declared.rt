//! What was declared so far.

ghost use Rattle.std.specs.Prelude.{◌≡◌, ◌≤◌, map, None, OnOk, OnErr};
ghost use Rattle.std.specs.List.{All};
ghost use Rattle.bgp_attr.specs.Speakers.{IsProfileOf};
ghost use Rattle.event_text.specs.declared.event.Event.TheVariants as events;
ghost use Rattle.event_text.specs.Declarations.{no_declaration, refusal, peer_at, with_profile, with_speaker, with_peer, with_session, without_session, IsDeclaration, IsCounted, begun_at, ended_at, has_addr, is_internal};
ghost use Rattle.event_text.specs.FileEvents.{with_ipv6};
ghost use Rattle.event_text.specs.WellFormed.{IsWellFormed};

use addr4::{Addr, Family, Memory, V4};
use bgp_attr::{Neighbour, Profile, Speaker};
use std::alloc::Global;
use std::marker::Model;

/// A peer that was declared.
#[derive(Clone, Copy, PartialEq, Eq)]
pub struct DeclaredPeer {
    /// The words of `peer`.
    pub words: Neighbour,
    /// The number of its last session; 0 where there was none.
    pub session: u32,
    /// Whether that session is up.
    pub up: bool,
}

/// What holds for the whole file, the words of `local` and of the peers, and the peers' sessions. This speaker's address is one of
/// the family; peers have IPv4's.
#[derive(Drop)]
pub struct Declared<F: Family = V4> {
    pub(crate) profile: Profile,
    pub(crate) speaker: Option<Speaker<Addr<F>>>,
    pub(crate) peers: Vec<DeclaredPeer>,
}

impl<F: Family> Model for Declared<F> {
    ghost use Rattle.event_text.specs.Declarations.{Declaration, declaration_code, IsCounted};
    ghost use Rattle.event_text.specs.contracts.declared.DeclaredPeer as peer_row;
    ghost use Rattle.bgp_attr.specs.contracts.speaker.Profile as profile_row;
    ghost use Rattle.bgp_attr.specs.contracts.speaker.Speaker as speaker_row;
    ghost use Rattle.std.specs.Borrow.{u32 as word};

    ghost Value = { Declaration };

    ghost coded = { declaration_code profile_row.the_row.coded (speaker_row.the_row word).coded peer_row.the_row.coded };

    ghost view = { λ d. record { v6 = F.V6; profile = d.profile; speaker = d.speaker; peers = d.peers.items } };

    ghost use Rattle.bgp_attr.specs.Speakers.{IsProfileOf};

    ghost invariant = { λ d. IsCounted d.peers.items × IsProfileOf F.V6 d.profile };
}

impl<F: Family> Declared<F> {
    /// Nothing was declared: AS numbers have two octets, errors in attributes are handled by RFC 4271, section 6.3, and this speaker is
    /// no route reflector. Takes no memory.
    pub fn new(alloc: Global) -> Declared<F>
        ensures value { result ≡ no_declaration F.V6 }
        ensures declared { IsDeclaration result }
    {
        Declared {
            profile: Profile {
                as4: false,
                revised: false,
                reflect: false,
                v6: F::V6,
                second: F::V6,
            },
            speaker: None,
            peers: Vec::new(alloc),
        }
    }

    /// It is of the family's network, and so is its profile.
    pub fn known(&self)
        ensures family { self.now.v6 ≡ F.V6 }
        ensures profile { IsProfileOf F.V6 self.now.profile }
    {
        let _profile = self.profile;
    }

    /// Whether AS numbers have four octets, whether errors in attributes are handled by the revised
    /// table, and whether this speaker is a route reflector.
    pub fn profile(&self) -> Profile
        ensures { result ≡ self.now.profile }
    {
        self.profile
    }

    /// The words of `local`, if it was declared.
    pub fn speaker(&self) -> Option<Speaker<Addr<F>>>
        ensures { result ≡ self.now.speaker }
    {
        self.speaker
    }

    /// The peers, in the order in which they were declared.
    pub fn peers(&self) -> &[DeclaredPeer]
        ensures { result.now ≡ self.now.peers }
    {
        self.peers.as_slice()
    }

    /// The peer of this number.
    pub fn peer(&self, number: u32) -> Option<DeclaredPeer>
        ensures { result ≡ peer_at number self.now.peers }
    {
        peer_of(self.peers.as_slice(), number)
    }

    /// `as4`, `revised` or `reflect` was said: this holds for the whole file. Takes no memory.
    pub fn set_profile(&mut self, profile: Profile)
        requires { IsProfileOf F.V6 profile }
        ensures value { self.new ≡ with_profile self.old profile }
        ensures kept { IsDeclaration self.old → self.old.speaker ≡ None → IsDeclaration self.new }
    {
        self.profile = profile;
    }

    /// `local6` was said: routes of IPv6 are read in messages. Takes no memory.
    pub fn set_ipv6(&mut self)
        ensures value { self.new ≡ with_profile self.old (with_ipv6 self.old.profile) }
        ensures kept { IsDeclaration self.old → IsDeclaration self.new }
    {
        self.profile.v6 = true;
    }

    /// `local` was declared. Takes no memory.
    pub fn set_speaker(&mut self, words: Speaker<Addr<F>>)
        ensures value { self.new ≡ with_speaker self.old words }
        ensures kept { IsDeclaration self.old → refusal self.old (events.Local words) ≡ None → IsWellFormed self.old.v6 self.old.profile (events.Local words) → IsDeclaration self.new }
    {
        self.speaker = Some(words);
    }

    /// `peer` was declared: no session yet.
    pub fn add_peer(&mut self, number: u32, words: Speaker, client: bool) -> Result<(), Memory>
        requires { refusal self.old (events.Peer number words client) ≡ None }
        ensures ok { OnOk result (self.new ≡ with_peer self.old number words client) }
        ensures memory { OnErr result (self.new ≡ self.old) }
        ensures kept { IsDeclaration self.old → IsWellFormed self.old.v6 self.old.profile (events.Peer number words client) → IsDeclaration self.new }
    {
        let internal = is_internal(self.speaker, words.asn);
        self.peers.push(DeclaredPeer {
            words: Neighbour {
                number: number as u8,
                asn: words.asn,
                id: words.id,
                addr: words.addr,
                internal,
                client,
            },
            session: 0,
            up: false,
        })?;
        Ok(())
    }

    /// A peer's next session begins, unless one is up. Takes no memory.
    pub fn begin_session(&mut self, number: u32)
        requires { refusal self.old (events.Up number) ≡ None }
        ensures value { self.new ≡ with_session self.old number }
        ensures kept { IsDeclaration self.old → IsDeclaration self.new }
    {
        begin_at(self.peers.as_mut_slice(), number);
    }

    /// A peer's session ends. Takes no memory.
    pub fn end_session(&mut self, number: u32)
        ensures value { self.new ≡ without_session self.old number }
        ensures kept { IsDeclaration self.old → IsDeclaration self.new }
    {
        end_at(self.peers.as_mut_slice(), number);
    }
}

/// The peer of this number, if any.
pub(crate) fn peer_of(peers: &[DeclaredPeer], number: u32) -> Option<DeclaredPeer>
    ensures { result ≡ peer_at number peers.now }
{
    peers
        .iter()
        .find(|peer| u32::from(peer.words.number) == number)
        .copied()
}

/// Whether a peer has the address.
pub(crate) fn has_addr(peers: &[DeclaredPeer], addr: Addr) -> bool
    ensures { result ≡ has_addr addr peers.now }
{
    peers.iter().any(|peer| peer.words.addr == addr)
}

/// Whether a peer of this AS is internal.
fn is_internal<F: Family>(speaker: Option<Speaker<Addr<F>>>, asn: u32) -> bool
    ensures { result ≡ is_internal speaker asn }
{
    match speaker {
        Some(local) => local.asn == asn,
        None => false,
    }
}

/// The next session of each down peer of this number begins.
fn begin_at(peers: &mut [DeclaredPeer], number: u32)
    requires { All (λ p. p.session ≤ 65535) peers.old }
    ensures { peers.new ≡ map (begun_at number) peers.old }
{
    for peer in peers.iter_mut() {
        begin_if(peer, number);
    }
}

fn begin_if(peer: &mut DeclaredPeer, number: u32)
    requires { peer.old.session ≤ 65535 }
    ensures { peer.new ≡ begun_at number peer.old }
{
    if u32::from(peer.words.number) == number && !peer.up {
        peer.session += 1;
        peer.up = true;
    }
}

/// The session of each peer of this number ends.
fn end_at(peers: &mut [DeclaredPeer], number: u32)
    ensures { peers.new ≡ map (ended_at number) peers.old }
{
    for peer in peers.iter_mut() {
        end_if(peer, number);
    }
}

fn end_if(peer: &mut DeclaredPeer, number: u32)
    ensures { peer.new ≡ ended_at number peer.old }
{
    if u32::from(peer.words.number) == number {
        peer.up = false;
    }
}
