//! What the second network is told of an event of the first.

ghost use Rattle.std.specs.Prelude.{◌≡◌, ◌≢◌, IfOk, IfSome};
ghost use Rattle.event_text.specs.Declarations.{peer_at};
ghost use Rattle.event_text.specs.declared.event.Event.TheVariants as events;
ghost use Rattle.router.specs.Codes.{told_so_far, told_then, told_if_up};
ghost use Rattle.router.specs.Told.{told_up, told_down};
ghost use Rattle.router_core.specs.Heard.{AreUpdate};
ghost use Rattle.router_moments.specs.Peers.{is_up};

use addr4::Memory;
use addr6::V6;
use bgp_attr::Octets;
use bgp_wire::{Message, Update, read_message};
use event_text::{Declared, Event, EventOf};
use std::alloc::Global;

/// Whether a peer is up.
fn is_up(declared: &Declared, number: u32) -> bool
    ensures { result ≡ is_up (peer_at number declared.now.peers) }
{
    match declared.peer(number) {
        Some(peer) => peer.up,
        None => false,
    }
}

/// The same octets once more.
fn copy_of(alloc: Global, octets: &Octets) -> Result<Octets, Memory>
    ensures { IfOk result (λ copy. copy ≡ octets.now) }
{
    let mut items = Vec::new(alloc);
    items.extend_from_slice(octets.as_slice())?;
    Ok(Octets::from_vec(items))
}

/// A session that begins, unless one is up.
fn told_up(declared: &Declared, number: u32) -> EventOf<V6>
    ensures { result ≡ told_up number (peer_at number declared.now.peers) }
{
    match declared.peer(number) {
        Some(peer) if !peer.up => Event::Up(number),
        _ => Event::Nothing,
    }
}

/// A session that ends, if one is up.
fn told_down(declared: &Declared, number: u32) -> EventOf<V6>
    ensures { result ≡ told_down number (peer_at number declared.now.peers) }
{
    match declared.peer(number) {
        Some(peer) if peer.up => Event::Down(number),
        _ => Event::Nothing,
    }
}

/// A message of a peer that is up.
fn told_if_up(
    alloc: Global,
    declared: &Declared,
    number: u32,
    octets: &Octets,
) -> Result<EventOf<V6>, Memory>
    ensures { IfOk result (λ told. told ≡ told_if_up number octets.now (peer_at number declared.now.peers)) }
{
    match declared.peer(number) {
        Some(peer) if peer.up => Ok(Event::Bgp(number, copy_of(alloc, octets)?)),
        _ => Ok(Event::Nothing),
    }
}

/// The UPDATE that octets of a peer are, where it is up. None for other messages, a fault among them.
pub(crate) fn update_of(
    alloc: Global,
    declared: &Declared,
    number: u32,
    octets: &[u8],
) -> Result<Option<Update>, Memory>
    ensures { IfOk result (λ update. IfSome update (AreUpdate declared.now number octets.now)) }
{
    let Some(peer) = declared.peer(number) else {
        return Ok(None);
    };
    if !peer.up {
        return Ok(None);
    }
    match read_message(alloc, declared.profile(), octets, !peer.words.internal)? {
        Message::Update(update) => Ok(Some(update)),
        other => {
            drop(other);
            Ok(None)
        }
    }
}

/// What the second network is told of an event, by what was declared before it. Of a message of a peer that is up it isn't known
/// yet whether it ends the session.
#[inline(never)]
pub(crate) fn told_so_far(
    alloc: Global,
    declared: &Declared,
    event: &Event,
) -> Result<EventOf<V6>, Memory>
    ensures { IfOk result (λ told. told ≡ told_so_far declared.now event.now) }
{
    match event {
        Event::Peer(number, words, client) => Ok(Event::Peer(*number, *words, *client)),
        Event::Up(number) => Ok(told_up(declared, *number)),
        Event::Down(number) => Ok(told_down(declared, *number)),
        Event::Bgp(number, octets) => told_if_up(alloc, declared, *number, octets),
        Event::Idle => Ok(Event::Idle),
        _ => Ok(Event::Nothing),
    }
}

/// The same where it is known: the first network heard the event, and this is declared then.
#[inline(never)]
pub(crate) fn told_then(declared: &Declared, told: EventOf<V6>) -> EventOf<V6>
    ensures { result ≡ told_then declared.now told }
{
    match told {
        Event::Bgp(number, octets) => {
            if is_up(declared, number) {
                return Event::Bgp(number, octets);
            }
            drop(octets);
            Event::Down(number)
        }
        told => told,
    }
}
