//! Reading the names of links and tasks.

ghost use Rattle.std.specs.Prelude.{◌≡◌};
ghost use Rattle.journal_text.specs.Names.{inner_link, link_of, link_of_three, link_of_two, name_number, peer_link, plain_link, proto_of, session_link};

use crate::link::Link;
use addr4::{first_part, read_number};
use rib_route::Proto;

/// A number of a name: from 1, without a leading zero.
#[tactic(auto, unfolding(crate::specs::Names::name_number))]
pub(crate) fn name_number(text: &[u8]) -> Option<u32>
    ensures { result ≡ name_number text.now }
{
    let number = read_number(text)?;
    if number == 0 { None } else { Some(number) }
}

/// The protocol of a word.
#[tactic(auto, unfolding(crate::specs::Names::proto_of))]
pub(crate) fn protocol(word: &[u8]) -> Option<Proto>
    ensures { result ≡ proto_of word.now }
{
    if word == b"connected".as_slice() {
        Some(Proto::Connected)
    } else if word == b"static".as_slice() {
        Some(Proto::Static)
    } else if word == b"ospf".as_slice() {
        Some(Proto::Ospf)
    } else if word == b"rip".as_slice() {
        Some(Proto::Rip)
    } else {
        None
    }
}

/// `low`, `dyn`, `int`, `red`, `best`.
#[tactic(auto, unfolding(crate::specs::Names::inner_link))]
fn inner_link(word: &[u8]) -> Option<Link>
    ensures { result ≡ inner_link word.now }
{
    if word == b"low".as_slice() {
        Some(Link::Low)
    } else if word == b"dyn".as_slice() {
        Some(Link::Dyn)
    } else if word == b"int".as_slice() {
        Some(Link::Int)
    } else if word == b"red".as_slice() {
        Some(Link::Red)
    } else if word == b"best".as_slice() {
        Some(Link::Best)
    } else {
        None
    }
}

/// The link of a word alone.
#[tactic(auto, unfolding(crate::specs::Names::plain_link))]
fn plain_link(word: &[u8]) -> Option<Link>
    ensures { result ≡ plain_link word.now }
{
    if word == b"ebgp".as_slice() {
        Some(Link::Ebgp)
    } else if word == b"ibgp".as_slice() {
        Some(Link::Ibgp)
    } else if word == b"ext".as_slice() {
        Some(Link::Ext)
    } else if word == b"fib".as_slice() {
        Some(Link::Fib)
    } else {
        inner_link(word)
    }
}

/// `in.K`, `filt.K`, `res.K`.
#[tactic(auto, unfolding(crate::specs::Names::peer_link))]
fn peer_link(word: &[u8], peer: u32) -> Option<Link>
    ensures { result ≡ peer_link word.now peer }
{
    if word == b"in".as_slice() {
        Some(Link::In(peer))
    } else if word == b"filt".as_slice() {
        Some(Link::Filt(peer))
    } else if word == b"res".as_slice() {
        Some(Link::Res(peer))
    } else {
        None
    }
}

/// The link of two words.
#[tactic(auto, unfolding(crate::specs::Names::link_of_two))]
fn link_of_two(word: &[u8], part: &[u8]) -> Option<Link>
    ensures { result ≡ link_of_two word.now part.now }
{
    if word == b"org".as_slice() {
        let proto = protocol(part)?;
        return Some(Link::Org(proto));
    }
    if word == b"read".as_slice() {
        return if part == b"rib".as_slice() {
            Some(Link::ReadRib)
        } else {
            None
        };
    }
    let peer = name_number(part)?;
    peer_link(word, peer)
}

/// `peer.K.S`, `read.J.S`, `outf.J.S`, `adv.J.S`.
#[tactic(auto, unfolding(crate::specs::Names::session_link))]
fn session_link(word: &[u8], peer: u32, session: u32) -> Option<Link>
    ensures { result ≡ session_link word.now peer session }
{
    if word == b"peer".as_slice() {
        Some(Link::Peer(peer, session))
    } else if word == b"read".as_slice() {
        Some(Link::Read(peer, session))
    } else if word == b"outf".as_slice() {
        Some(Link::Outf(peer, session))
    } else if word == b"adv".as_slice() {
        Some(Link::Adv(peer, session))
    } else {
        None
    }
}

/// The link of three words.
#[tactic(auto, unfolding(crate::specs::Names::link_of_three))]
fn link_of_three(word: &[u8], part: &[u8], last: &[u8]) -> Option<Link>
    ensures { result ≡ link_of_three word.now part.now last.now }
{
    if word == b"org".as_slice() {
        let proto = protocol(part)?;
        let loss = name_number(last)?;
        return Some(Link::Lost(proto, loss));
    }
    let peer = name_number(part)?;
    let session = name_number(last)?;
    session_link(word, peer, session)
}

/// The link of a name.
#[tactic(auto, using(crate::proofs::NameLemmas::no_fourth_word), unfolding(crate::specs::Names::link_from_parts))]
pub(crate) fn read_link(text: &[u8]) -> Option<Link>
    ensures { result ≡ link_of text.now }
{
    let (word, rest) = first_part(text, b'.');
    let Some(rest) = rest else {
        return plain_link(word);
    };
    let (part, rest) = first_part(rest, b'.');
    let Some(rest) = rest else {
        return link_of_two(word, part);
    };
    let (last, more) = first_part(rest, b'.');
    if let Some(_more) = more {
        return None;
    }
    link_of_three(word, part, last)
}
