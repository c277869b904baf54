//! Numbers in network order.

ghost use Rattle.std.specs.Prelude.{◌≡◌, ◌+◌, ◌^◌, ◌<◌, ◌≤◌, length, slice_index};
ghost use Rattle.byteorder.specs.Endian.{big_number};
ghost use Rattle.bgp_wire.specs.Paths.{width_of};
ghost use Rattle.bgp_wire.specs.Updates.{number_at};

use byteorder::{BigEndian, ByteOrder};

/// The number that the two octets from a place are.
pub(crate) fn two_octets(bytes: &[u8], i: usize) -> u16
    requires { i + 1 < length bytes.now }
    ensures { result ≡ number_at bytes.now i }
{
    BigEndian::read_u16(&bytes[i..])
}

/// The same, as a length.
pub(crate) fn number_at(bytes: &[u8], i: usize) -> usize
    requires { i + 1 < length bytes.now }
    ensures value { result ≡ number_at bytes.now i }
    ensures small { result < 2 ^ 16 }
{
    usize::from(two_octets(bytes, i))
}

/// How many octets an AS number has.
pub(crate) fn width(as4: bool) -> usize
    ensures value { result ≡ width_of as4 }
    ensures small { result < 5 }
{
    if as4 { 4 } else { 2 }
}

/// The AS number at the front.
pub(crate) fn as_number(as4: bool, octets: &[u8]) -> u32
    requires { width_of as4 ≤ length octets.now }
    ensures { result ≡ big_number (width_of as4) octets.now }
{
    if as4 {
        BigEndian::read_u32(octets)
    } else {
        u32::from(BigEndian::read_u16(octets))
    }
}

/// An octet, or 0 behind the last.
fn octet(octets: &[u8], i: usize) -> u8
    ensures { result ≡ slice_index octets.now i }
{
    octets.get(i).copied().unwrap_or(0)
}

/// The number of sixteen octets, of which the missing ones are 0.
pub(crate) fn sixteen_octets(octets: &[u8]) -> u128
    ensures { result ≡ big_number 16 octets.now }
{
    u128::from_be_bytes([
        octet(octets, 0),
        octet(octets, 1),
        octet(octets, 2),
        octet(octets, 3),
        octet(octets, 4),
        octet(octets, 5),
        octet(octets, 6),
        octet(octets, 7),
        octet(octets, 8),
        octet(octets, 9),
        octet(octets, 10),
        octet(octets, 11),
        octet(octets, 12),
        octet(octets, 13),
        octet(octets, 14),
        octet(octets, 15),
    ])
}

/// The number of four octets, of which the missing ones are 0.
pub(crate) fn four_octets(octets: &[u8]) -> u32
    ensures { result ≡ big_number 4 octets.now }
{
    u32::from_be_bytes([
        octet(octets, 0),
        octet(octets, 1),
        octet(octets, 2),
        octet(octets, 3),
    ])
}
