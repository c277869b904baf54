//! Reading the names of tasks, and of both networks.

ghost use Rattle.std.specs.Prelude.{◌≡◌, cond, drop};
ghost use Rattle.journal_text.specs.Names.{is_marked, link_in, peer_task, plain_task, task_in, task_of, task_of_three, task_of_two};

use crate::link::{Link, Task};
use crate::reading::{name_number, protocol, read_link};
use addr4::first_part;

/// `fin.K`, `nh.K`, `out.J`, `ref.J`.
#[tactic(auto, unfolding(crate::specs::Names::peer_task))]
fn peer_task(word: &[u8], peer: u32) -> Option<Task>
    ensures { result ≡ peer_task word.now peer }
{
    if word == b"fin".as_slice() {
        Some(Task::Fin(peer))
    } else if word == b"nh".as_slice() {
        Some(Task::Nh(peer))
    } else if word == b"out".as_slice() {
        Some(Task::Out(peer))
    } else if word == b"ref".as_slice() {
        Some(Task::Ref(peer))
    } else {
        None
    }
}

/// `red`, `ext`.
#[tactic(auto, unfolding(crate::specs::Names::plain_task))]
fn plain_task(word: &[u8]) -> Option<Task>
    ensures { result ≡ plain_task word.now }
{
    if word == b"red".as_slice() {
        Some(Task::Red)
    } else if word == b"ext".as_slice() {
        Some(Task::Ext)
    } else {
        None
    }
}

/// The task of two words.
#[tactic(auto, unfolding(crate::specs::Names::task_of_two))]
fn task_of_two(word: &[u8], part: &[u8]) -> Option<Task>
    ensures { result ≡ task_of_two word.now part.now }
{
    if word == b"rd".as_slice() {
        return if part == b"rib".as_slice() {
            Some(Task::ReadRib)
        } else {
            None
        };
    }
    let peer = name_number(part)?;
    peer_task(word, peer)
}

/// `del.K.S`, `rdel.PROTO.N`.
#[tactic(auto, unfolding(crate::specs::Names::task_of_three))]
fn task_of_three(word: &[u8], part: &[u8], last: &[u8]) -> Option<Task>
    ensures { result ≡ task_of_three word.now part.now last.now }
{
    if word == b"del".as_slice() {
        let peer = name_number(part)?;
        let session = name_number(last)?;
        Some(Task::Del(peer, session))
    } else if word == b"rdel".as_slice() {
        let proto = protocol(part)?;
        let loss = name_number(last)?;
        Some(Task::Rdel(proto, loss))
    } else {
        None
    }
}

/// The task of a name.
#[tactic(auto, using(crate::proofs::NameLemmas::no_fourth_task_word), unfolding(crate::specs::Names::task_from_parts))]
pub(crate) fn read_task(text: &[u8]) -> Option<Task>
    ensures { result ≡ task_of text.now }
{
    let (word, rest) = first_part(text, b'.');
    let Some(rest) = rest else {
        return plain_task(word);
    };
    let (part, rest) = first_part(rest, b'.');
    let Some(rest) = rest else {
        return task_of_two(word, part);
    };
    let (last, more) = first_part(rest, b'.');
    if let Some(_more) = more {
        return None;
    }
    task_of_three(word, part, last)
}

/// Whether a name is one of the second network, and the name without the mark.
fn parted(text: &[u8]) -> (bool, &[u8])
    ensures marked { result.0 ≡ is_marked text.now }
    ensures rest { result.1.now ≡ cond (is_marked text.now) (drop 2 text.now) text.now }
{
    if text.starts_with(b"6.") {
        (true, &text[2..])
    } else {
        (false, text)
    }
}

/// The link of a name of either network, and whether it is the second.
#[tactic(auto, unfolding(crate::specs::Names::link_in))]
pub(crate) fn read_link_in(text: &[u8]) -> Option<(bool, Link)>
    ensures { result ≡ link_in text.now }
{
    let (v6, name) = parted(text);
    let link = read_link(name)?;
    Some((v6, link))
}

/// The task likewise.
#[tactic(auto, unfolding(crate::specs::Names::task_in))]
pub(crate) fn read_task_in(text: &[u8]) -> Option<(bool, Task)>
    ensures { result ≡ task_in text.now }
{
    let (v6, name) = parted(text);
    let task = read_task(name)?;
    Some((v6, task))
}
