//! The names of links and tasks.

ghost use Rattle.std.specs.Prelude.{◌≡◌};
ghost use Rattle.journal_text.specs.Links.{same_link};
ghost use Rattle.journal_text.specs.Names.{link_in, link_of, task_in, task_of};

use crate::reading::read_link;
use crate::task_reading::{read_link_in, read_task, read_task_in};
use rib_route::Proto;

/// A link between two stages. K and J are peers' numbers, S is the number of a session, N of a protocol's loss; all count
/// from 1.
#[derive(Clone, Copy, PartialEq, Eq)]
pub enum Link {
    /// `in.K`: into the incoming filter of a peer.
    In(u32),
    /// `peer.K.S`: into the deletion stage of a peer's lost session.
    Peer(u32, u32),
    /// `filt.K`: out of the incoming filter.
    Filt(u32),
    /// `res.K`: out of the next-hop resolver.
    Res(u32),
    /// `org.PROTO`: the interior routes of a protocol.
    Org(Proto),
    /// `org.PROTO.N`: into the deletion stage of a protocol's loss.
    Lost(Proto, u32),
    /// `low`: the connected and the static routes.
    Low,
    /// `dyn`: the routes of ospf and rip.
    Dyn,
    /// `int`: all interior routes.
    Int,
    /// `red`: what is redistributed into BGP.
    Red,
    /// `best`: what the decision chose.
    Best,
    /// `read.rib`: what the forwarding side has read of `best`.
    ReadRib,
    /// `ebgp`: the best routes from external peers.
    Ebgp,
    /// `ibgp`: the best routes from internal peers.
    Ibgp,
    /// `ext`: both.
    Ext,
    /// `fib`: the forwarding table.
    Fib,
    /// `read.J.S`: what a session of a peer has read of `best`.
    Read(u32, u32),
    /// `outf.J.S`: out of the outgoing filter.
    Outf(u32, u32),
    /// `adv.J.S`: what was advertised to the peer.
    Adv(u32, u32),
}

impl Link {
    /// Whether this is the other link.
    pub fn is(self, other: Link) -> bool
        ensures { result ≡ same_link self other }
    {
        self == other
    }

    /// The link of a name, its numbers from 1 and below 2^32, without a leading zero. None where the text is no link's
    /// name.
    pub fn read(text: &[u8]) -> Option<Link>
        ensures { result ≡ link_of text.now }
    {
        read_link(text)
    }

    /// The link of a name of either network, and whether that is the second, IPv6's, whose names have `6.` in front.
    pub fn read_in(text: &[u8]) -> Option<(bool, Link)>
        ensures { result ≡ link_in text.now }
    {
        read_link_in(text)
    }
}

/// Work that a stage has, done in turns.
#[derive(Clone, Copy, PartialEq, Eq)]
pub enum Task {
    /// `del.K.S`: the deletes of a peer's lost session.
    Del(u32, u32),
    /// `fin.K`: the walk of a peer's incoming filter.
    Fin(u32),
    /// `nh.K`: the walk of a peer's next hops.
    Nh(u32),
    /// `rd.rib`: what the forwarding side has yet to read of `best`.
    ReadRib,
    /// `out.J`: what a peer has yet to read of `best`, and the walk of its outgoing filter.
    Out(u32),
    /// `rdel.PROTO.N`: the deletes of a protocol's loss.
    Rdel(Proto, u32),
    /// `red`: the walk of redistribution.
    Red,
    /// `ext`: the walk of the forwarding side's next hops.
    Ext,
    /// `ref.J`: the walk of a route refresh (RFC 2918), which sends a peer again what was advertised to it.
    Ref(u32),
}

impl Task {
    /// The task of a name, its numbers as those of links. None where the text is no task's name.
    pub fn read(text: &[u8]) -> Option<Task>
        ensures { result ≡ task_of text.now }
    {
        read_task(text)
    }

    /// The task of a name of either network, and whether that is the second.
    pub fn read_in(text: &[u8]) -> Option<(bool, Task)>
        ensures { result ≡ task_in text.now }
    {
        read_task_in(text)
    }
}
