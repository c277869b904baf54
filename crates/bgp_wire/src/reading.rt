//! Reading whole messages.

ghost use Rattle.std.specs.Prelude.{◌≡◌, ◌≤◌, length, IfOk};
ghost use Rattle.bgp_wire.specs.declared.message.Message.{Message as Answer};
ghost use Rattle.bgp_wire.specs.Updates.{refresh_at, content_at};
ghost use Rattle.bgp_wire.specs.Grammar.{GivesMessage, Answers};
ghost use Rattle.bgp_wire.specs.Notices.{HasShortNotice};
ghost use Rattle.bgp_wire.specs.Readable.{IsReadableMessage};

use crate::header::{KEEPALIVE, NOTIFICATION, OPEN, ROUTE_REFRESH, read_header};
use crate::message::{Message, RouteRefresh};
use crate::notice::Refusal;
use crate::numbers::two_octets;
use crate::update::read_update;
use addr4::Memory;
use bgp_attr::Profile;
use std::alloc::Global;

/// A ROUTE-REFRESH (RFC 2918, section 3).
fn read_refresh(bytes: &[u8]) -> RouteRefresh
    requires { 23 ≤ length bytes.now }
    ensures { result ≡ refresh_at bytes.now }
{
    RouteRefresh {
        afi: two_octets(bytes, 19),
        safi: bytes[22],
    }
}

#[tactic(auto, unfolding(crate::specs::Updates::content_at))]
fn read_content(
    alloc: Global,
    profile: Profile,
    external: bool,
    bytes: &[u8],
) -> Result<Message, Refusal>
    ensures { GivesMessage profile external result (content_at profile external bytes.now) }
{
    let kind = read_header(alloc, bytes)?;
    if kind == OPEN {
        return Ok(Message::Skip);
    }
    if kind == NOTIFICATION {
        return Ok(Message::Notification);
    }
    if kind == KEEPALIVE {
        return Ok(Message::Keepalive);
    }
    if kind == ROUTE_REFRESH {
        return Ok(Message::Refresh(read_refresh(bytes)));
    }
    let update = read_update(alloc, profile, external, bytes)?;
    Ok(Message::Update(update))
}

/// Reads a message (RFC 4271, sections 4 and 6; RFC 2918, section 3). `external` says whether the peer is one of another
/// AS, whose LOCAL_PREF doesn't count. Octets with a fault are answered by [`Message::Notify`].
pub fn read_message(
    alloc: Global,
    profile: Profile,
    bytes: &[u8],
    external: bool,
) -> Result<Message, Memory>
    // The answer is the message that the octets are, or the first fault.
    ensures answer { IfOk result (λ m. Answers profile external bytes.now m) }
    // What it says of routes can be said again.
    ensures readable { IfOk result (IsReadableMessage profile external) }
    // The NOTIFICATION that answers a fault has at most 4,096 octets.
    ensures short { IfOk result HasShortNotice }
    // There is no other.
    ensures only { (m : Answer) → Answers profile external bytes.now m → IfOk result (λ answer. answer ≡ m) }
{
    match read_content(alloc, profile, external, bytes) {
        Ok(message) => Ok(message),
        Err(Refusal::Fault(notice)) => Ok(Message::Notify(notice)),
        Err(Refusal::Memory) => Err(Memory),
    }
}
