//! What each event does, and what a message from a peer does.

ghost use Rattle.std.specs.Prelude.{◌≡◌, ◌≤◌, ◌<◌, ◌^◌, length, OnOk, IfOk, IsSome, Some, None, true};
ghost use Rattle.std.specs.List.{AllByRecursion};
ghost use Rattle.event_text.specs.declared.event.Event.TheVariants as events;
ghost use Rattle.event_text.specs.Declarations.{peer_at, refusal};
ghost use Rattle.event_text.specs.WellFormed.{IsWellFormed};
ghost use Rattle.bgp_wire.specs.Notices.{HasShortNotice};
ghost use Rattle.bgp_wire.specs.Spelling.{notification_octets};
ghost use Rattle.exit_side.specs.Exits.{chain_at as exit_at};
ghost use Rattle.bgp_wire.specs.Readable.{said_of};
ghost use Rattle.bgp_wire.specs.declared.message.Message.TheVariants as messages;
ghost use Rattle.bgp_wire.specs.declared.message.Update.{Update};
ghost use Rattle.event_text.specs.declared.declared.DeclaredPeer.{DeclaredPeer};
ghost use Rattle.live_state.specs.Messages.{Says, changes_in};
ghost use Rattle.rib_tree.specs.Trees.{AreNumbered};
ghost use Rattle.router_moments.specs.Blocks.{AreMessageOctets};
ghost use Rattle.router_moments.specs.Moments.{Gives};
ghost use Rattle.router_moments.specs.Stands.{Stands, AllHaveExits};
ghost use Rattle.router_moments.specs.Works.{HasStepped, HasHeard, IsHeardMessage, IsUpAt, AreHeard};
ghost use Rattle.router_network.specs.Informed.{Informed};

use crate::hears::Hears;
use crate::updates::changes;
use addr4::Memory;
use bgp_attr::{Octets, Profile};
use bgp_wire::{Message, Notice, Said, read_message, write_notification};
use decision::Contests;
use event_text::{DeclaredPeer, Event, EventOf, Question, QuestionOf};
use journal_text::{Journal, Line};
use router_network::{Network, ignored};
use std::alloc::Global;

/// Steps an event, and makes the text of its lines. Answers how many turns `work` or `idle` took.
pub(crate) fn step<F: Hears>(
    network: &mut Network<F>,
    event: EventOf<F>,
    contests: &mut Contests<F>,
    journal: &mut Journal<F>,
) -> Result<u128, Memory>
    requires admitted { refusal network.old.declared event ≡ None }
    requires few { AreNumbered 4294967294 network.old.tree }
    requires stands { Stands network.old }
    requires formed { IsWellFormed network.old.declared.v6 network.old.declared.profile event }
    requires exits { AllHaveExits network.old }
    requires informed { Informed contests.old network.old }
    ensures steps { IfOk result (λ turns. Gives (HasStepped network.old event turns network.new) journal.old journal.new) }
    ensures informed { OnOk result (Informed contests.new network.new) }
{
    match event {
        Event::Nothing => network.nothing(journal),
        Event::Whole(word) => network.whole_file(word, journal),
        Event::Local(words) => network.local(words, journal),
        Event::Peer(number, words, client) => network.peer(number, words, client, journal),
        Event::Up(number) => network.up(number, journal),
        Event::Down(number) => network.down(number, contests, journal),
        Event::Bgp(number, octets) => message(network, number, octets, contests, journal),
        Event::FilterIn(number, rules) => network.filter_in(number, rules, journal),
        Event::FilterOut(number, rules) => network.filter_out(number, rules, journal),
        Event::RouteAdd(p, row) => network.route_add(p, row, contests, journal),
        Event::RouteDel(proto, p) => network.route_del(proto, p, contests, journal),
        Event::Lose(proto) => network.lose_protocol(proto, contests, journal),
        Event::Redist(proto, on) => network.redistribution(proto, on, journal),
        Event::Idle => network.idle_turns(contests, journal),
        Event::Work(task, most) => network.work(task, most, contests, journal),
        Event::Query(question) => answer(network, question, contests, journal),
    }
}

/// Answers a question; nothing changes by it.
fn answer<F: Hears>(
    network: &mut Network<F>,
    question: QuestionOf<F>,
    contests: &Contests<F>,
    journal: &mut Journal<F>,
) -> Result<u128, Memory>
    requires admitted { refusal network.old.declared (events.Query question) ≡ None }
    requires stands { Stands network.old }
    requires exits { AllHaveExits network.old }
    requires informed { Informed contests.now network.old }
    ensures { IfOk result (λ turns. Gives (HasStepped network.old (events.Query question) turns network.new) journal.old journal.new) }
{
    match question {
        Question::Cover(address) => network.cover(address, journal),
        Question::Settled(p) => network.settled(p, contests, journal),
        Question::Ask(link, p) => network.look_up(link, p, contests, journal),
        Question::Show(link) => network.list(link, contests, journal),
    }
}

/// A message came from a peer; `ignored` where it is down.
fn message<F: Hears>(
    network: &mut Network<F>,
    number: u32,
    octets: Octets,
    contests: &mut Contests<F>,
    journal: &mut Journal<F>,
) -> Result<u128, Memory>
    requires admitted { refusal network.old.declared (events.Bgp number octets) ≡ None }
    requires stands { Stands network.old }
    requires formed { IsWellFormed network.old.declared.v6 network.old.declared.profile (events.Bgp number octets) }
    requires exits { AllHaveExits network.old }
    requires informed { Informed contests.old network.old }
    ensures steps { IfOk result (λ turns. Gives (HasStepped network.old (events.Bgp number octets) turns network.new) journal.old journal.new) }
    ensures informed { OnOk result (Informed contests.new network.new) }
{
    let turns = receive(network, number, octets.as_slice(), contests, journal);
    drop(octets);
    turns
}

/// The same of octets that are lent.
fn receive<F: Hears>(
    network: &mut Network<F>,
    number: u32,
    octets: &[u8],
    contests: &mut Contests<F>,
    journal: &mut Journal<F>,
) -> Result<u128, Memory>
    requires admitted { refusal network.old.declared (events.Bgp number octets.now) ≡ None }
    requires stands { Stands network.old }
    requires formed { IsWellFormed network.old.declared.v6 network.old.declared.profile (events.Bgp number octets.now) }
    requires exits { AllHaveExits network.old }
    requires informed { Informed contests.old network.old }
    ensures steps { IfOk result (λ turns. Gives (HasStepped network.old (events.Bgp number octets.now) turns network.new) journal.old journal.new) }
    ensures informed { OnOk result (Informed contests.new network.new) }
{
    let Some(peer) = network.declared().peer(number) else {
        unreachable!()
    };
    if !peer.up {
        return ignored(journal);
    }
    let message = said(network.alloc(), network.profile(), &peer, octets)?;
    hear(network, number, peer, message, contests, journal)?;
    Ok(0)
}

/// What a message from a peer that is up does.
fn hear<F: Hears>(
    network: &mut Network<F>,
    number: u32,
    peer: DeclaredPeer,
    message: Message,
    contests: &mut Contests<F>,
    journal: &mut Journal<F>,
) -> Result<(), Memory>
    requires stands { Stands network.old }
    requires there { peer_at number network.old.declared.peers ≡ Some peer }
    requires up { peer.up ≡ true }
    requires short { HasShortNotice message }
    requires heard { IsHeardMessage network.old.declared.profile message }
    requires exit { IsSome (exit_at number network.old.exits) }
    requires informed { Informed contests.old network.old }
    ensures hears { OnOk result (Gives (HasHeard number peer network.old message network.new) journal.old journal.new) }
    ensures informed { OnOk result (Informed contests.new network.new) }
{
    match message {
        Message::Update(update) => {
            network.declared().known();
            hear_said(network, number, F::said(update), contests, journal)
        }
        Message::Keepalive => journal.flush(),
        Message::Skip => journal.flush(),
        Message::Refresh(refresh) => {
            network.refresh(number, refresh);
            journal.flush()
        }
        Message::Notification => network.lose(number, peer.session, contests, journal),
        Message::Notify(notice) => {
            let octets = spelled(network.alloc(), notice)?;
            journal.push_line(Line::Note(number, octets))?;
            network.lose(number, peer.session, contests, journal)
        }
    }
}

/// What an UPDATE says of the family's routes is done, prefix by prefix.
pub(crate) fn hear_said<F: Hears>(
    network: &mut Network<F>,
    number: u32,
    said: Said<F>,
    contests: &mut Contests<F>,
    journal: &mut Journal<F>,
) -> Result<(), Memory>
    requires stands { Stands network.old }
    requires up { IsUpAt number network.old }
    requires heard { AreHeard network.old.declared.profile (changes_in F.V6 said) }
    requires informed { Informed contests.old network.old }
    ensures hears { OnOk result ((p : DeclaredPeer) (u : Update) → said ≡ said_of F.V6 u → Gives (HasHeard number p network.old (messages.Update u) network.new) journal.old journal.new) }
    ensures informed { OnOk result (Informed contests.new network.new) }
{
    network.declared().known();
    let changes = changes(network.alloc(), said)?;
    network.feed(number, changes.as_slice(), contests, journal)?;
    journal.flush()
}

/// What octets of a peer say (RFC 4271, section 4), or the fault that they have.
fn said(
    alloc: Global,
    profile: Profile,
    peer: &DeclaredPeer,
    octets: &[u8],
) -> Result<Message, Memory>
    ensures says { IfOk result (Says profile peer.now octets.now) }
    ensures fits { IfOk result HasShortNotice }
{
    read_message(alloc, profile, octets, !peer.words.internal)
}

/// The octets of the NOTIFICATION that answers a fault (RFC 4271, section 4.5).
fn spelled(alloc: Global, notice: Notice) -> Result<Octets, Memory>
    requires { length notice.octets ≤ 4075 }
    ensures spelled { IfOk result (λ octets. octets ≡ notification_octets notice.code notice.subcode notice.octets) }
    ensures message { IfOk result AreMessageOctets }
{
    let written = write_notification(alloc, notice.code, notice.subcode, notice.octets.as_slice());
    drop(notice);
    let octets = written?;
    each_known(octets.as_slice());
    Ok(Octets::from_vec(octets))
}

/// Each octet is below 256, as its type says.
fn each_known(octets: &[u8])
    ensures { AllByRecursion (λ b. b < 2 ^ 8) octets.now }
{}
