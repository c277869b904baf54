//! Numbers and prefixes that are written.

ghost use Rattle.std.specs.Prelude.{◌≡◌, ◌++◌, OnOk};
ghost use Rattle.byteorder.specs.Endian.{big_bytes};
ghost use Rattle.bgp_wire.specs.Paths.{width_of};
ghost use Rattle.bgp_wire.specs.Spelling.{FitsWidth, prefix_octets};

use crate::prefixes::octets_for;
use crate::wire::Wire;
use addr4::{Addr, Memory, Prefix};
use byteorder::{BigEndian, ByteOrder};

pub(crate) fn push_u16(out: &mut Vec<u8>, number: u16) -> Result<(), Memory>
    ensures { OnOk result (out.new.items ≡ out.old.items ++ big_bytes 2 number) }
{
    let mut octets = [0; 2];
    BigEndian::write_u16(&mut octets, number);
    out.extend_from_slice(&octets)?;
    Ok(())
}

pub(crate) fn push_u32(out: &mut Vec<u8>, number: u32) -> Result<(), Memory>
    ensures { OnOk result (out.new.items ≡ out.old.items ++ big_bytes 4 number) }
{
    let mut octets = [0; 4];
    BigEndian::write_u32(&mut octets, number);
    out.extend_from_slice(&octets)?;
    Ok(())
}

/// An AS number of four octets (RFC 6793) or of two.
pub(crate) fn push_asn(out: &mut Vec<u8>, as4: bool, asn: u32) -> Result<(), Memory>
    requires { FitsWidth as4 asn }
    ensures { OnOk result (out.new.items ≡ out.old.items ++ big_bytes (width_of as4) asn) }
{
    if as4 {
        push_u32(out, asn)
    } else {
        push_u16(out, asn as u16)
    }
}

/// The 16 octets of an address, those behind its own being 0.
pub(crate) fn push_address<F: Wire>(out: &mut Vec<u8>, address: Addr<F>) -> Result<(), Memory>
    ensures { OnOk result (out.new.items ≡ out.old.items ++ big_bytes 16 address) }
{
    let mut octets = [0; 16];
    BigEndian::write_u128(&mut octets, address.bits().to_number());
    out.extend_from_slice(&octets)?;
    Ok(())
}

/// A prefix: its length in bits, and the fewest octets that hold so many.
pub(crate) fn push_prefix<F: Wire>(out: &mut Vec<u8>, prefix: Prefix<F>) -> Result<(), Memory>
    ensures { OnOk result (out.new.items ≡ out.old.items ++ prefix_octets prefix) }
{
    let bits = prefix.length();
    let mut octets = [0; 16];
    BigEndian::write_u128(&mut octets, prefix.address().bits().to_number());
    out.push(bits)?;
    out.extend_from_slice(&octets[..octets_for(bits)])?;
    Ok(())
}
