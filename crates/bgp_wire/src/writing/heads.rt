//! Attributes that are written: what stands before the value, and those of a few octets (RFC 4271, section 4.3).

ghost use Rattle.std.specs.Prelude.{◌≡◌, ◌<◌, ◌++◌, OnOk};
ghost use Rattle.byteorder.specs.Endian.{big_bytes};
ghost use Rattle.bgp_wire.specs.Spelling.{spelled, optional, octets_of};
ghost use Rattle.bgp_wire.specs.Lengths.{head_octets};

use crate::writing::numbers::{push_u16, push_u32};
use addr4::Memory;

pub(crate) const WELL_KNOWN: u8 = 0x40;

pub(crate) const OPTIONAL: u8 = 0x80;

pub(crate) const OPTIONAL_TRANSITIVE: u8 = 0xc0;

pub(crate) const PARTIAL: u8 = 0x20;

const EXTENDED_LENGTH: u8 = 0x10;

/// What stands before the value of an attribute, which has so many octets. The length field has two octets exactly where
/// these are more than 255.
pub(crate) fn push_head(out: &mut Vec<u8>, flags: u8, kind: u8, size: u128) -> Result<(), Memory>
    requires { flags < 240 }
    ensures { OnOk result (out.new.items ≡ out.old.items ++ head_octets flags kind size) }
{
    if size > 255 {
        out.extend_from_slice(&[flags + EXTENDED_LENGTH, kind])?;
        // An attribute of 65,536 octets and more is in no message: its UPDATE is too long.
        push_u16(out, (size % 65536) as u16)
    } else {
        out.extend_from_slice(&[flags, kind, size as u8])?;
        Ok(())
    }
}

pub(crate) fn push_attribute(
    out: &mut Vec<u8>,
    flags: u8,
    kind: u8,
    value: &[u8],
) -> Result<(), Memory>
    requires { flags < 240 }
    ensures { OnOk result (out.new.items ≡ out.old.items ++ (spelled flags kind value.now).octets) }
{
    push_head(out, flags, kind, value.len() as u128)?;
    out.extend_from_slice(value)?;
    Ok(())
}

/// An attribute of four octets, if it is there.
pub(crate) fn push_number(
    out: &mut Vec<u8>,
    flags: u8,
    kind: u8,
    number: Option<u32>,
) -> Result<(), Memory>
    requires { flags < 240 }
    ensures { OnOk result (out.new.items ≡ out.old.items ++ octets_of (optional (λ n. spelled flags kind (big_bytes 4 n)) number)) }
{
    let Some(number) = number else {
        return Ok(());
    };
    push_head(out, flags, kind, 4)?;
    push_u32(out, number)
}
