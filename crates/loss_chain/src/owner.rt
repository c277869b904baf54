//! Whose losses the stages of a chain are.

ghost use Rattle.std.specs.Prelude.{◌≡◌, ◌+◌};
ghost use Rattle.journal_text.specs.Links.{rank_of};
ghost use Rattle.loss_chain.specs.Owners.{lowest_link, lost_link, loss_task, same_proto};

use journal_text::{Link, Task};
use rib_route::Proto;

/// Whose losses the stages of a chain are: the names of its links and tasks.
#[derive(Clone, Copy, PartialEq, Eq)]
pub enum Owner {
    /// A peer, by its number. The losses are its sessions: `in.K` is the lowest link, `peer.K.S` the one into the stage of
    /// session S.
    Peer(u32),
    /// An interior protocol. Its losses are counted: `org.PROTO` is the lowest link, `org.PROTO.N` the one into the stage of
    /// the Nth loss.
    Origin(Proto),
}

impl Owner {
    /// The link out of the lowest stage.
    pub fn lowest(self) -> Link
        ensures link { result ≡ lowest_link self }
        ensures rank { rank_of result ≡ 0 }
    {
        match self {
            Owner::Peer(number) => Link::In(number),
            Owner::Origin(proto) => Link::Org(proto),
        }
    }

    /// The link into the stage of a loss.
    pub fn lost(self, number: u32) -> Link
        ensures link { result ≡ lost_link self number }
        ensures rank { rank_of result ≡ number + 1 }
    {
        match self {
            Owner::Peer(peer) => Link::Peer(peer, number),
            Owner::Origin(proto) => Link::Lost(proto, number),
        }
    }

    /// The task of the stage of a loss.
    pub fn task(self, number: u32) -> Task
        ensures { result ≡ loss_task self number }
    {
        match self {
            Owner::Peer(peer) => Task::Del(peer, number),
            Owner::Origin(proto) => Task::Rdel(proto, number),
        }
    }
}

/// Whether the protocols are the same.
pub(crate) fn is_same(a: Proto, b: Proto) -> bool
    ensures { result ≡ same_proto a b }
{
    a == b
}
