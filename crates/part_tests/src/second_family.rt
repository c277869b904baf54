//! What stages of the second family, IPv6, are tried with: who is who, routes that a message announces, and the lines that come out.

ghost use Rattle.std.specs.Prelude.{◌≡◌, IfOk};
ghost use Rattle.peer_out.specs.Changes.{MayBeHeard, IsSender};

use crate::prefixes::prefix6;
use addr4::{Addr, Prefix, RouterId};
use addr6::V6;
use bgp_attr::{Neighbour, Profile, Route, SharedAttrs, Speaker};
use bgp_wire::{Message, Said, Update, read_message};
use journal_text::Journal;
use link_change::Turn;
use std::alloc::Global;
use std::test::Fail;

/// The second network's: AS numbers of two octets, errors by RFC 4271.
pub(crate) const PROFILE: Profile = Profile {
    as4: false,
    revised: false,
    reflect: false,
    v6: true,
    second: true,
};

/// 2001:db8::, in which documents have their addresses.
const FRONT: u64 = 0x2001_0db8_0000_0000;

/// This speaker, whose address is 2001:db8::fe.
pub(crate) fn speaker() -> Speaker<Addr<V6>>
    ensures { IsSender PROFILE result }
{
    Speaker {
        asn: 65000,
        id: RouterId::new(0xc000_02fe),
        addr: Addr::from_bits(V6(0x2001_0db8_0000_0000_0000_0000_0000_00fe)),
    }
}

/// A peer of this number, which is internal where its AS is 65000.
pub(crate) fn peer(number: u8, asn: u32) -> Neighbour
    ensures { result.number ≡ number }
{
    Neighbour {
        number,
        asn,
        id: RouterId::new(0xc000_0200 + u32::from(number)),
        addr: Addr::new(0xc000_0200 + u32::from(number)),
        internal: asn == 65000,
        client: false,
    }
}

/// A route of peer 1, with a metric of 1 to its next hop.
pub(crate) fn route(attrs: SharedAttrs<V6>) -> Route<SharedAttrs<V6>>
    ensures { result.attrs ≡ attrs }
{
    Route {
        attrs,
        pref: 100,
        med: None,
        prepend: 0,
        igp: Some(1),
        from: Some(peer(1, 65001)),
    }
}

/// 2001:db8:N::/48.
pub(crate) fn site(number: u16) -> Prefix<V6> {
    prefix6(FRONT + (u64::from(number) << 16), 48)
}

/// An UPDATE of peer 1 that announces 2001:db8:1::/48 with origin IGP, the path (65001) and the next hop 2001:db8::1 (RFC 4760,
/// section 3).
pub(crate) const HEARD: &str = "\
ffffffffffffffffffffffffffffffff0041020000002a\
400101004002040201fde9\
800e1c0002011020010db8000000000000000000000001003020010db80001";

/// The attributes of the routes of IPv6 that an UPDATE announces.
pub(crate) fn heard(alloc: Global, digits: &str) -> Result<SharedAttrs<V6>, Fail>
    ensures { IfOk result (λ attrs. MayBeHeard PROFILE attrs) }
{
    let Ok(octets) = hex::decode(alloc, digits) else {
        return Err(Fail::from("no octets"));
    };
    let Message::Update(update) = read_message(alloc, PROFILE, &octets, true)? else {
        return Err(Fail::from("no UPDATE"));
    };
    let Update { second, .. } = update;
    let Said { attrs, .. } = second;
    let Some(attrs) = attrs else {
        return Err(Fail::from("no attributes"));
    };
    Ok(SharedAttrs::new(alloc, attrs)?)
}

/// Fails where a journal has other lines than these.
pub(crate) fn has_lines(alloc: Global, journal: &mut Journal<V6>, want: &str) -> Result<(), Fail> {
    journal.flush()?;
    let mut room = [0; 4096];
    let count = journal.reader().read(&mut room);
    let lines = &room[..count];
    match lines == want.as_bytes() {
        true => Ok(()),
        false => Err(Fail::from(Vec::from_slice(alloc, lines)?)),
    }
}

/// What a turn came to: nothing was to be done, no change came out, one did.
pub(crate) fn came_to<R>(turn: &Turn<R, Prefix<V6>>) -> Option<bool> {
    match turn {
        Turn::Nothing => None,
        Turn::Quiet => Some(false),
        Turn::Sent(_) => Some(true),
    }
}
