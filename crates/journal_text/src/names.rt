//! The texts of the names of links and tasks.

ghost use Rattle.std.specs.Prelude.{◌≡◌, ◌++◌, ◌∷◌, [], OnOk, codes};
ghost use Rattle.journal_text.specs.Names.{mark};
ghost use Rattle.journal_text.specs.Texts.{dot_number, fib_proto_text, link_name, link_text, proto_text, task_name, task_text};

use crate::link::{Link, Task};
use crate::texts::push_text;
use addr4::{Memory, Texts, push_number};
use rib_route::{FibProto, Proto};

/// A dot and a number.
fn push_dot_number(out: &mut Vec<u8>, number: u32) -> Result<(), Memory>
    ensures { OnOk result (out.new.items ≡ out.old.items ++ dot_number number) }
{
    out.push(b'.')?;
    push_number(out, u64::from(number))?;
    Ok(())
}

/// A word and a number.
fn push_numbered(out: &mut Vec<u8>, word: &[u8], number: u32) -> Result<(), Memory>
    ensures { OnOk result (out.new.items ≡ out.old.items ++ (word.now ++ dot_number number)) }
{
    push_text(out, word)?;
    push_dot_number(out, number)
}

/// A word and two numbers: a peer's and a session's.
fn push_session(out: &mut Vec<u8>, word: &[u8], peer: u32, session: u32) -> Result<(), Memory>
    ensures { OnOk result (out.new.items ≡ out.old.items ++ (word.now ++ dot_number peer ++ dot_number session)) }
{
    push_numbered(out, word, peer)?;
    push_dot_number(out, session)
}

/// The word of a protocol.
pub(crate) fn fib_proto_word(proto: FibProto) -> &'static [u8]
    ensures { result.now ≡ fib_proto_text proto }
{
    match proto {
        FibProto::Connected => b"connected",
        FibProto::Static => b"static",
        FibProto::Ospf => b"ospf",
        FibProto::Rip => b"rip",
        FibProto::Ebgp => b"ebgp",
        FibProto::Ibgp => b"ibgp",
    }
}

/// The word of an interior protocol.
pub(crate) fn proto_word(proto: Proto) -> &'static [u8]
    ensures { result.now ≡ proto_text proto }
{
    fib_proto_word(proto.fib_proto())
}

/// A word with its dot, and a protocol.
fn push_protocol(out: &mut Vec<u8>, word: &[u8], proto: Proto) -> Result<(), Memory>
    ensures { OnOk result (out.new.items ≡ out.old.items ++ (word.now ++ proto_text proto)) }
{
    push_text(out, word)?;
    push_text(out, proto_word(proto))
}

/// A word with its dot, a protocol, and the number of its loss.
fn push_lost(out: &mut Vec<u8>, word: &[u8], proto: Proto, loss: u32) -> Result<(), Memory>
    ensures { OnOk result (out.new.items ≡ out.old.items ++ (word.now ++ proto_text proto ++ dot_number loss)) }
{
    push_protocol(out, word, proto)?;
    push_dot_number(out, loss)
}

/// What stands in front of the names of the family's network.
fn push_mark<F: Texts>(out: &mut Vec<u8>) -> Result<(), Memory>
    ensures { OnOk result (out.new.items ≡ out.old.items ++ mark F.V6) }
{
    if F::V6 {
        push_text(out, b"6.")?;
    }
    Ok(())
}

/// The name of a link within its network.
#[tactic(auto, unfolding(crate::specs::Texts::link_name))]
fn push_link_name(out: &mut Vec<u8>, link: Link) -> Result<(), Memory>
    ensures { OnOk result (out.new.items ≡ out.old.items ++ link_name link) }
{
    match link {
        Link::In(peer) => push_numbered(out, b"in", peer),
        Link::Peer(peer, session) => push_session(out, b"peer", peer, session),
        Link::Filt(peer) => push_numbered(out, b"filt", peer),
        Link::Res(peer) => push_numbered(out, b"res", peer),
        Link::Org(proto) => push_protocol(out, b"org.", proto),
        Link::Lost(proto, loss) => push_lost(out, b"org.", proto, loss),
        Link::Low => push_text(out, b"low"),
        Link::Dyn => push_text(out, b"dyn"),
        Link::Int => push_text(out, b"int"),
        Link::Red => push_text(out, b"red"),
        Link::Best => push_text(out, b"best"),
        Link::ReadRib => push_text(out, b"read.rib"),
        Link::Ebgp => push_text(out, b"ebgp"),
        Link::Ibgp => push_text(out, b"ibgp"),
        Link::Ext => push_text(out, b"ext"),
        Link::Fib => push_text(out, b"fib"),
        Link::Read(peer, session) => push_session(out, b"read", peer, session),
        Link::Outf(peer, session) => push_session(out, b"outf", peer, session),
        Link::Adv(peer, session) => push_session(out, b"adv", peer, session),
    }
}

/// The name of a link of the family's network.
#[tactic(auto, unfolding(crate::specs::Texts::link_text))]
pub(crate) fn push_link<F: Texts>(out: &mut Vec<u8>, link: Link) -> Result<(), Memory>
    ensures { OnOk result (out.new.items ≡ out.old.items ++ link_text F.V6 link) }
{
    push_mark::<F>(out)?;
    push_link_name(out, link)
}

/// The name of a task within its network.
#[tactic(auto, unfolding(crate::specs::Texts::task_name))]
fn push_task_name(out: &mut Vec<u8>, task: Task) -> Result<(), Memory>
    ensures { OnOk result (out.new.items ≡ out.old.items ++ task_name task) }
{
    match task {
        Task::Del(peer, session) => push_session(out, b"del", peer, session),
        Task::Fin(peer) => push_numbered(out, b"fin", peer),
        Task::Nh(peer) => push_numbered(out, b"nh", peer),
        Task::ReadRib => push_text(out, b"rd.rib"),
        Task::Out(peer) => push_numbered(out, b"out", peer),
        Task::Rdel(proto, loss) => push_lost(out, b"rdel.", proto, loss),
        Task::Red => push_text(out, b"red"),
        Task::Ext => push_text(out, b"ext"),
        Task::Ref(peer) => push_numbered(out, b"ref", peer),
    }
}

/// The name of a task of the family's network.
#[tactic(auto, unfolding(crate::specs::Texts::task_text))]
pub(crate) fn push_task<F: Texts>(out: &mut Vec<u8>, task: Task) -> Result<(), Memory>
    ensures { OnOk result (out.new.items ≡ out.old.items ++ task_text F.V6 task) }
{
    push_mark::<F>(out)?;
    push_task_name(out, task)
}
