//! Events.

ghost use Rattle.std.specs.Prelude.{◌≡◌};
ghost use Rattle.event_text.specs.Declarations.{with_whole};

use addr4::{Addr, Prefix};
use addr6::V6;
use bgp_attr::{Octets, Profile, Speaker};
use journal_text::{Link, Task};
use policy_rules::Rules;
use rib_route::{Interior, Proto};

/// What a line says of the whole file. It stands before `local`, and once.
#[derive(Clone, Copy)]
pub enum WholeFile {
    /// `as4`: AS numbers have four octets, here and in all messages (RFC 6793).
    As4,
    /// `revised`: errors in attributes are handled by the revised table (in the manner of RFC 7606).
    Revised,
    /// `reflect`: this speaker is a route reflector, and its identifier is that of its cluster (RFC 4456).
    Reflect,
}

impl WholeFile {
    /// How messages are read once a line said this.
    pub fn said(self, profile: Profile) -> Profile
        ensures { result ≡ with_whole self profile }
    {
        match self {
            WholeFile::As4 => Profile {
                as4: true,
                ..profile
            },
            WholeFile::Revised => Profile {
                revised: true,
                ..profile
            },
            WholeFile::Reflect => Profile {
                reflect: true,
                ..profile
            },
        }
    }
}

/// What a network is asked. Nothing changes by it.
#[derive(Drop)]
pub enum Question<A = Addr, P = Prefix> {
    /// `cover ADDR`: which interior route holds the address, and for which subnet that answer holds.
    Cover(A),
    /// `settled PREFIX`: whether the rows at the prefix are final, or some background work may still change them.
    Settled(P),
    /// `ask LINK PREFIX`
    Ask(Link, P),
    /// `show LINK`
    Show(Link),
}

/// A question to the network of a family.
pub type QuestionOf<F> = Question<Addr<F>, Prefix<F>>;

/// One event that a network is told: its addresses, prefixes and rules are those of its family. K is a peer's number, from 1.
#[derive(Drop)]
pub enum Event<A = Addr, P = Prefix, R = Rules> {
    /// A line without words, or a comment.
    Nothing,
    /// `as4`, `revised`, `reflect`.
    Whole(WholeFile),
    /// `local AS ID ADDR`
    Local(Speaker<A>),
    /// `peer K AS ID ADDR`, and `client` behind it where the peer is a client of the route reflector.
    Peer(u32, Speaker, bool),
    /// `up K`
    Up(u32),
    /// `down K`
    Down(u32),
    /// `bgp K HEX`: one whole message came from the peer.
    Bgp(u32, Octets),
    /// `filter in K RULES`: the peer's incoming filter has these rules from now on.
    FilterIn(u32, R),
    /// `filter out K RULES`: the peer's outgoing filter has these rules from now on, in its session or, where it is down, from its
    /// next one on.
    FilterOut(u32, R),
    /// `route add PROTO PREFIX direct IF METRIC`, or `via GATEWAY` in the place of `direct`: the protocol's route at the prefix is
    /// this one from now on.
    RouteAdd(P, Interior<A>),
    /// `route del PROTO PREFIX`: the protocol has no route at the prefix any more.
    RouteDel(Proto, P),
    /// `lost PROTO`: the protocol is lost, and its routes with it.
    Lose(Proto),
    /// `redist PROTO on`, `redist PROTO off`: from now on the protocol's routes are redistributed into BGP, or aren't.
    Redist(Proto, bool),
    /// `idle`
    Idle,
    /// `work TASK N`
    Work(Task, u32),
    /// `cover`, `settled`, `ask`, `show`.
    Query(Question<A, P>),
}

/// An event of the network of a family.
pub type EventOf<F> = Event<Addr<F>, Prefix<F>, Rules<F>>;

/// One event of an event file, and which network is told.
#[derive(Drop)]
pub enum FileEvent {
    /// An event of IPv4's network or of the whole file, or one that both networks are told: `peer`, `up`, `down`, `bgp`, `idle`.
    First(Event),
    /// `local6 ADDR6`: IPv6's network begins, in which this speaker has the address.
    Local6(Addr<V6>),
    /// An event of IPv6's network alone: `filter6`, `lost6`, `redist6`, and others by their words.
    Second(EventOf<V6>),
}
