//! Which events may stand behind what was declared, and why others may not.

ghost use Rattle.std.specs.Prelude.{◌≡◌, if◌then◌else◌, false, Some, None};
ghost use Rattle.journal_text.specs.declared.line.Code.TheVariants.{E7};
ghost use Rattle.event_text.specs.Declarations.{refusal, is_taken, session_refusal, rules_refusal, undeclared, task_refusal, link_refusal, peer_refusal, refusal_by, refusal_first, question_refusal, is_said};

use crate::declared::{Declared, DeclaredPeer, has_addr, peer_of};
use crate::event::{Event, EventOf, Question, QuestionOf, WholeFile};
use addr4::Family;
use bgp_attr::{Profile, Speaker};
use journal_text::{Code, Link, Task};

/// Whether something of this peer is declared already.
fn is_taken(local: Speaker, peers: &[DeclaredPeer], number: u32, words: Speaker) -> bool
    ensures { result ≡ is_taken local peers.now number words }
{
    peer_of(peers, number).is_some() || has_addr(peers, words.addr) || local.addr == words.addr
}

/// Why a peer may have no further session.
fn session_refusal(peer: Option<DeclaredPeer>) -> Option<Code>
    ensures { result ≡ session_refusal peer }
{
    match peer {
        None => Some(Code::E5),
        Some(peer) if !peer.up && peer.session == 65535 => Some(Code::E6),
        Some(_peer) => None,
    }
}

/// E5 where the peer isn't declared.
fn undeclared(peer: Option<DeclaredPeer>) -> Option<Code>
    ensures { result ≡ undeclared peer }
{
    match peer {
        None => Some(Code::E5),
        Some(_peer) => None,
    }
}

/// Why a peer's filter may not have so many rules.
fn rules_refusal(count: usize, peer: Option<DeclaredPeer>) -> Option<Code>
    ensures { result ≡ rules_refusal count peer }
{
    match peer {
        None => Some(Code::E5),
        Some(_peer) if count > 64 => Some(Code::E6),
        Some(_peer) => None,
    }
}

/// Why a peer may not be declared.
fn peer_refusal(
    local: Speaker,
    peers: &[DeclaredPeer],
    number: u32,
    words: Speaker,
    client: bool,
) -> Option<Code>
    ensures { result ≡ peer_refusal local peers.now number words client }
{
    let internal = local.asn == words.asn;
    if is_taken(local, peers, number, words) {
        return Some(Code::E3);
    }
    if client && !internal {
        return Some(Code::E8);
    }
    if number <= 64 { None } else { Some(Code::E6) }
}

/// E5 where the task is a peer's that isn't declared.
fn task_refusal(task: Task, peers: &[DeclaredPeer]) -> Option<Code>
    ensures { result ≡ task_refusal task peers.now }
{
    match task {
        Task::Del(peer, _) | Task::Fin(peer) | Task::Nh(peer) | Task::Out(peer) | Task::Ref(peer) =>
            undeclared(peer_of(peers, peer)),
        _ => None,
    }
}

/// E5 where the link is a peer's that isn't declared.
fn link_refusal(link: Link, peers: &[DeclaredPeer]) -> Option<Code>
    ensures { result ≡ link_refusal link peers.now }
{
    match link {
        Link::In(peer)
        | Link::Peer(peer, _)
        | Link::Filt(peer)
        | Link::Res(peer)
        | Link::Read(peer, _)
        | Link::Outf(peer, _)
        | Link::Adv(peer, _) => undeclared(peer_of(peers, peer)),
        _ => None,
    }
}

/// The same of a question about a link.
fn question_refusal<F: Family>(question: &QuestionOf<F>, peers: &[DeclaredPeer]) -> Option<Code>
    ensures { result ≡ question_refusal question.now peers.now }
{
    match question {
        Question::Ask(link, _) => link_refusal(*link, peers),
        Question::Show(link) => link_refusal(*link, peers),
        _ => None,
    }
}

/// E7 where this was said already.
fn repeated(said: bool) -> Option<Code>
    ensures { result ≡ (if said then Some E7 else None) }
{
    if said { Some(Code::E7) } else { None }
}

/// Whether a line said this of the whole file already.
fn is_said(word: WholeFile, profile: Profile) -> bool
    ensures { result ≡ is_said word profile }
{
    match word {
        WholeFile::As4 => profile.as4,
        WholeFile::Revised => profile.revised,
        WholeFile::Reflect => profile.reflect,
    }
}

/// Why the event may not stand before `local`.
fn refusal_first<F: Family>(profile: Profile, event: &EventOf<F>) -> Option<Code>
    ensures { result ≡ refusal_first profile event.now }
{
    match event {
        Event::Nothing | Event::Local(_) => None,
        Event::Whole(word) => repeated(is_said(*word, profile)),
        _ => Some(Code::E4),
    }
}

/// Why the event may not stand after `local`, in IPv4's network.
fn refusal_by<F: Family>(local: Speaker, peers: &[DeclaredPeer], event: &EventOf<F>) -> Option<Code>
    ensures { result ≡ refusal_by false local peers.now event.now }
{
    match event {
        Event::Whole(_) => Some(Code::E7),
        Event::Local(_) => Some(Code::E3),
        Event::Peer(number, words, client) => {
            peer_refusal(local, peers, *number, *words, *client)
        }
        Event::Up(number) => session_refusal(peer_of(peers, *number)),
        Event::Down(number) => undeclared(peer_of(peers, *number)),
        Event::Bgp(number, _) => undeclared(peer_of(peers, *number)),
        Event::FilterIn(number, rules) => rules_refusal(rules.len(), peer_of(peers, *number)),
        Event::FilterOut(number, rules) => rules_refusal(rules.len(), peer_of(peers, *number)),
        Event::Work(task, _) => task_refusal(*task, peers),
        Event::Query(question) => question_refusal(question, peers),
        _ => None,
    }
}

/// Why the event may not stand here: before `local` (E4), said of the whole file after `local` or twice (E7), declared twice
/// (E3), of an undeclared peer (E5), a client of another AS (E8), past a limit (E6). None where it may. It may be an event of
/// either network; what was declared is what IPv4's knows of it.
#[tactic(auto, unfolding(crate::specs::Declarations::refusal))]
pub fn admit<F: Family>(event: &EventOf<F>, declared: &Declared) -> Option<Code>
    ensures { result ≡ refusal declared.now event.now }
{
    match declared.speaker {
        None => refusal_first(declared.profile, event),
        Some(local) => refusal_by(local, declared.peers.as_slice(), event),
    }
}
