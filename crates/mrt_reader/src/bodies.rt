//! The bodies of records (RFC 6396, sections 4.2 and 4.4).

ghost use Rattle.std.specs.Prelude.{◌≡◌, ◌-◌, ◌≤◌, ◌&&◌, nat_le, if◌then◌else◌, List, ℕ, min, length, take, drop, true};
ghost use Rattle.mrt_reader.specs.Fields.{is_used, are_speakers, told_in, told_by_state, Message, NoMessage, is_well_sized, said_of_ipv4, said_in};
ghost use Rattle.mrt_reader.specs.Kept.{told_of, said_of, IsKeptOf, HasMessage, HasMessageIn};

use crate::fields::{Body, ESTABLISHED, Header, IPV4, LONGEST, News, Sides, short_at};

impl Sides {
    /// Whether each has an AS number and an address that a speaker may have.
    fn are_speakers(&self) -> bool
        ensures { result ≡ are_speakers self.now }
    {
        self.peer_as != 0 && self.local_as != 0 && self.peer.is_host() && self.local.is_host()
    }
}

/// What a new state says.
fn state_news(new: u16) -> News
    ensures within { (size : ℕ) → HasMessage size result }
    ensures told { (kept : List ℕ) → told_of kept result ≡ told_by_state new }
{
    if new == ESTABLISHED {
        News::Established
    } else {
        News::Ended
    }
}

/// What a message says that begins at a place of a body of so many octets.
fn message_news(length: usize, place: usize) -> News
    requires { place ≤ length }
    ensures within { (size : ℕ) → place ≤ size → HasMessage size result }
    ensures told { (kept : List ℕ) → told_of kept result ≡ (if nat_le 1 (length - place) && nat_le (length - place) 4096 then Message (drop place kept) else NoMessage) }
{
    if 1 <= length - place && length - place <= LONGEST {
        News::Message(place)
    } else {
        News::NoMessage
    }
}

/// What the fields of IPv4 say of the session, where the body has room for them.
fn read_news(as4: bool, header: Header, body: &[u8]) -> News
    requires sized { is_well_sized as4 header.kind header.subtype header.length ≡ true }
    requires room { min header.length 4120 ≤ length body.now }
    ensures within { HasMessage (length body.now) result }
    ensures told { (whole : List ℕ) → length whole ≡ header.length → body.now ≡ take 4120 whole → told_of body.now result ≡ told_in as4 header.kind header.subtype whole }
{
    let interface = header.interface(as4);
    if header.is_state_change(as4) {
        state_news(short_at(body, interface + 14))
    } else {
        message_news(header.length as usize, interface + 12)
    }
}

/// What a body of IPv4 says.
fn read_ipv4(as4: bool, header: Header, body: &[u8]) -> Body
    requires { min header.length 4120 ≤ length body.now }
    ensures within { HasMessageIn (length body.now) result }
    ensures said { (whole : List ℕ) → length whole ≡ header.length → body.now ≡ take 4120 whole → said_of body.now result ≡ said_of_ipv4 as4 header.kind header.subtype whole }
{
    if !header.is_well_sized(as4) {
        return Body::Malformed;
    }
    let sides = header.sides(as4, body);
    if !sides.are_speakers() {
        return Body::Unused;
    }
    Body::Session(sides, read_news(as4, header, body))
}

/// What a record says, by its header and what is kept of its body: of one that is of use, the first [`MOST_KEPT`] octets, or
/// all where it has fewer.
pub(crate) fn read_body(as4: bool, header: Header, body: &[u8]) -> Body
    requires { is_used as4 header.kind header.subtype ≡ true → min header.length 4120 ≤ length body.now }
    ensures within { HasMessageIn (length body.now) result }
    ensures said { (whole : List ℕ) → IsKeptOf as4 header body.now whole → said_of body.now result ≡ said_in as4 header.kind header.subtype whole }
{
    if !header.is_used(as4) {
        return Body::Unused;
    }
    let interface = header.interface(as4);
    if (header.length as usize) < interface + 4 {
        return Body::Malformed;
    }
    if short_at(body, interface + 2) != IPV4 {
        return Body::Unused;
    }
    read_ipv4(as4, header, body)
}
