//! The fields of a record (RFC 6396, sections 2 and 4.4).

ghost use Rattle.std.specs.Prelude.{◌≡◌, ◌+◌, ◌≤◌, ◌==◌, length};
ghost use Rattle.mrt_reader.specs.Records.{number_at, kind_in, subtype_in, length_in};
ghost use Rattle.mrt_reader.specs.Fields.{width_of, start_of, interface_at, is_used, state_subtype, sides_in, is_well_sized};

use addr4::Addr;
use byteorder::{BigEndian, ByteOrder};

/// How many octets a record's header has.
pub(crate) const HEADER: usize = 12;

/// The type of BGP4MP.
const BGP4MP: u16 = 16;

/// The same with microseconds, BGP4MP_ET.
const BGP4MP_ET: u16 = 17;

/// The number of IPv4 among address families.
pub(crate) const IPV4: u16 = 1;

/// The state Established.
pub(crate) const ESTABLISHED: u16 = 6;

/// The longest BGP message, in octets.
pub(crate) const LONGEST: usize = 4096;

/// So many octets of a body may be of use: microseconds, two AS numbers, an interface, the family, two addresses, and a
/// message.
pub(crate) const MOST_KEPT: usize = 4 + 8 + 4 + 8 + LONGEST;

/// A record's header, without the time.
#[derive(Clone, Copy)]
pub(crate) struct Header {
    pub(crate) kind: u16,
    pub(crate) subtype: u16,
    /// How many octets follow.
    pub(crate) length: u32,
}

/// The two ends of a session.
#[derive(Clone, Copy)]
pub(crate) struct Sides {
    pub(crate) peer_as: u32,
    pub(crate) local_as: u32,
    pub(crate) peer: Addr,
    pub(crate) local: Addr,
}

/// What a record says of its session.
#[derive(Clone, Copy)]
pub(crate) enum News {
    /// It is established.
    Established,
    /// It has another state now.
    Ended,
    /// A message came, of 1 to 4,096 octets. What is kept of the body ends with it, and it begins at this place.
    Message(usize),
    /// A message came that is none of BGP, by its length.
    NoMessage,
}

/// What a record says.
#[derive(Clone, Copy)]
pub(crate) enum Body {
    /// Nothing of use.
    Unused,
    /// Its fields and its length don't agree.
    Malformed,
    Session(Sides, News),
}

/// The number that the two octets from a place are.
pub(crate) fn short_at(octets: &[u8], i: usize) -> u16
    requires { i + 2 ≤ length octets.now }
    ensures { result ≡ number_at 2 i octets.now }
{
    BigEndian::read_u16(&octets[i..])
}

/// The number that the four octets from a place are.
fn long_at(octets: &[u8], i: usize) -> u32
    requires { i + 4 ≤ length octets.now }
    ensures { result ≡ number_at 4 i octets.now }
{
    BigEndian::read_u32(&octets[i..])
}

/// The AS number from a place on.
fn as_at(as4: bool, octets: &[u8], i: usize) -> u32
    requires { i + width_of as4 ≤ length octets.now }
    ensures { result ≡ number_at (width_of as4) i octets.now }
{
    if as4 {
        long_at(octets, i)
    } else {
        u32::from(short_at(octets, i))
    }
}

/// How many octets an AS number has.
fn width(as4: bool) -> usize
    ensures value { result ≡ width_of as4 }
    ensures small { result ≤ 4 }
{
    if as4 { 4 } else { 2 }
}

pub(crate) fn read_header(octets: &[u8]) -> Header
    requires { length octets.now ≡ 12 }
    ensures { result ≡ record { kind = kind_in octets.now; subtype = subtype_in octets.now; length = length_in octets.now } }
{
    Header {
        kind: short_at(octets, 4),
        subtype: short_at(octets, 6),
        length: long_at(octets, 8),
    }
}

impl Header {
    ghost use Rattle.mrt_reader.specs.Fields.{start_of, interface_at, is_used, state_subtype};
    ghost use Rattle.mrt_reader.specs.Kept.{kept_size};

    /// Whether the record's subtype is that of a state change.
    pub(crate) fn is_state_change(self, as4: bool) -> bool
        ensures { result ≡ (self.subtype == state_subtype as4) }
    {
        self.subtype == if as4 { 5 } else { 0 }
    }

    /// Whether the record is of use by its type and subtype.
    pub(crate) fn is_used(self, as4: bool) -> bool
        ensures { result ≡ is_used as4 self.kind self.subtype }
    {
        (self.kind == BGP4MP || self.kind == BGP4MP_ET)
            && (self.is_state_change(as4) || self.subtype == if as4 { 4 } else { 1 })
    }

    /// How many octets are kept of the record's body.
    pub(crate) fn kept(self, as4: bool) -> usize
        ensures value { result ≡ kept_size as4 self }
        ensures within { result ≤ self.length }
    {
        if self.is_used(as4) {
            (self.length as usize).min(MOST_KEPT)
        } else {
            0
        }
    }

    /// Where the fields begin, behind the microseconds.
    fn start(self) -> usize
        ensures value { result ≡ start_of self.kind }
        ensures small { result ≤ 4 }
    {
        if self.kind == BGP4MP_ET { 4 } else { 0 }
    }

    /// Where the interface stands, behind the AS numbers.
    pub(crate) fn interface(self, as4: bool) -> usize
        ensures value { result ≡ interface_at as4 self.kind }
        ensures small { result ≤ 12 }
    {
        self.start() + 2 * width(as4)
    }
}

impl Header {
    ghost use Rattle.mrt_reader.specs.Fields.{is_well_sized, sides_in, interface_at, state_subtype, width_of, start_of};

    /// Whether the body has room for its fields, and a state change for no more.
    pub(crate) fn is_well_sized(self, as4: bool) -> bool
        ensures { result ≡ is_well_sized as4 self.kind self.subtype self.length }
    {
        let length = self.length as usize;
        if self.is_state_change(as4) {
            length == self.interface(as4) + 16
        } else {
            self.interface(as4) + 12 <= length
        }
    }

    /// The two ends of the session.
    pub(crate) fn sides(self, as4: bool, body: &[u8]) -> Sides
        requires { interface_at as4 self.kind + 12 ≤ length body.now }
        ensures { result ≡ sides_in as4 self.kind body.now }
    {
        let start = self.start();
        let interface = self.interface(as4);
        Sides {
            peer_as: as_at(as4, body, start),
            local_as: as_at(as4, body, start + width(as4)),
            peer: Addr::new(long_at(body, interface + 4)),
            local: Addr::new(long_at(body, interface + 8)),
        }
    }
}
