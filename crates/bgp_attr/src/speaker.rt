//! Who is who.

ghost use Rattle.std.specs.Prelude.{◌≡◌};
ghost use Rattle.bgp_attr.specs.Speakers.{asn_bound};

use addr4::{Addr, RouterId};

/// This speaker: the words of `local`.
#[derive(Clone, Copy, PartialEq, Eq)]
pub struct Speaker<A = Addr> {
    /// The local AS, 1 to 65535, or to 4294967295 where AS numbers have four octets.
    pub asn: u32,
    /// The BGP identifier, not 0.0.0.0.
    pub id: RouterId,
    /// The local address, that of a host.
    pub addr: A,
}

/// A peer: the words of `peer`.
#[derive(Clone, Copy, PartialEq, Eq)]
pub struct Neighbour {
    /// The peer's number in the event file, 1 to 64.
    pub number: u8,
    /// The peer's AS, 1 to 65535, or to 4294967295 where AS numbers have four octets.
    pub asn: u32,
    /// The BGP identifier, not 0.0.0.0.
    pub id: RouterId,
    pub addr: Addr,
    /// Whether the peer's AS is the local one.
    pub internal: bool,
    /// Whether the peer is a client of this speaker as a route reflector (RFC 4456, section 6); only an internal one may be.
    pub client: bool,
}

/// How messages are read.
#[derive(Clone, Copy, PartialEq, Eq)]
pub struct Profile {
    /// AS numbers have four octets (RFC 6793) in place of two.
    pub as4: bool,
    /// Errors in attributes are handled by a table in the manner of RFC 7606, in place of RFC 4271, section 6.3. It differs in
    /// substance: a faulty UPDATE that announces nothing withdraws nothing more, where RFC 7606, section 5.2, resets the session.
    pub revised: bool,
    /// This speaker is a route reflector, whose cluster has its identifier (RFC 4456): what reflectors added to routes of internal
    /// peers is read, and peers may be clients.
    pub reflect: bool,
    /// IPv6 is spoken beside IPv4: its routes are read from MP_REACH_NLRI and MP_UNREACH_NLRI (RFC 4760).
    pub v6: bool,
    /// Whose routes are said: those of the second network, which is IPv6's, or of the first, IPv4's.
    pub second: bool,
}

impl Profile {
    /// The AS numbers are those below this one: those of four octets, or of two.
    pub fn asn_bound(self) -> u64
        ensures { result ≡ asn_bound self.as4 }
    {
        if self.as4 { 1 << 32 } else { 65536 }
    }
}
