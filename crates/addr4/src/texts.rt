//! Texts of addresses and prefixes, and those of IPv4's addresses.

ghost use Rattle.std.specs.Prelude.{◌≡◌, ◌++◌, [], ◌∷◌, OnOk, option_map};
ghost use Rattle.std.specs.Result.{result_ok};
ghost use Rattle.std.specs.Fmt.{decimal};
ghost use Rattle.addr4.specs.Texts.{addr_of, addr_text, dotted, id_of, id_text, prefix_of, prefix_text};

use crate::addr::Addr;
use crate::family::{Family, V4};
use crate::memory::Memory;
use crate::numbers::{number_before, push_number, read_number_below};
use crate::parts::first_part;
use crate::prefix::Prefix;
use crate::router_id::RouterId;

/// A text that is no address.
#[derive(Clone, Copy, Debug, PartialEq, Eq, thiserror::Error)]
#[error("not an address")]
pub struct BadAddr;

/// A text that is no prefix.
#[derive(Clone, Copy, Debug, PartialEq, Eq, thiserror::Error)]
#[error("not a prefix")]
pub struct BadPrefix;

/// A family whose addresses have texts.
pub trait Texts: Family {
    /// Appends the text of the address that the bits are. For want of memory some front of it may have been appended.
    fn push(self, out: &mut Vec<u8>) -> Result<(), Memory>
        ensures { OnOk result (out.new.items ≡ out.old.items ++ addr_text Self.V6 (Self.number self)) };

    /// The bits of the address that a text spells.
    fn read(text: &[u8]) -> Option<Self>
        ensures { option_map Self.number result ≡ addr_of Self.V6 text.now };
}

impl Texts for V4 {
    fn push(self, out: &mut Vec<u8>) -> Result<(), Memory> {
        push_four(out, self.0)
    }

    fn read(text: &[u8]) -> Option<V4> {
        let number = read_octets(text)?;
        Some(V4(number))
    }
}

/// Reads an address: of IPv4 four octets (each `0` to `255`, without a leading zero) with dots between them. Another text
/// is refused.
pub fn read_addr<F: Texts>(text: &[u8]) -> Result<Addr<F>, BadAddr>
    ensures { result_ok result ≡ addr_of F.V6 text.now }
{
    match F::read(text) {
        None => Err(BadAddr),
        Some(bits) => Ok(Addr::from_bits(bits)),
    }
}

/// Reads an identifier: four octets, as those of an IPv4 address.
pub fn read_id(text: &[u8]) -> Result<RouterId, BadAddr>
    ensures { result_ok result ≡ id_of text.now }
{
    match read_octets(text) {
        None => Err(BadAddr),
        Some(number) => Ok(RouterId::new(number)),
    }
}

#[tactic(auto, using(crate::proofs::LastLemmas::last_octet), unfolding(crate::specs::Texts::id_of))]
fn read_octets(text: &[u8]) -> Option<u32>
    ensures { result ≡ id_of text.now }
{
    let (a, rest) = number_before(text, b'.', 256)?;
    let (b, rest) = number_before(rest, b'.', 256)?;
    let (c, rest) = number_before(rest, b'.', 256)?;
    let d = read_number_below(rest, 256)?;
    Some(u32::from_be_bytes([a as u8, b as u8, c as u8, d as u8]))
}

/// Appends four octets with dots between them.
fn push_octets(out: &mut Vec<u8>, a: u8, b: u8, c: u8, d: u8) -> Result<(), Memory>
    ensures { OnOk result (out.new.items ≡ out.old.items ++ dotted (a ∷ b ∷ c ∷ d ∷ [])) }
{
    push_octet(out, a)?;
    push_octet(out, b)?;
    push_octet(out, c)?;
    push_number(out, u64::from(d))?;
    Ok(())
}

/// Appends an octet and a dot.
fn push_octet(out: &mut Vec<u8>, octet: u8) -> Result<(), Memory>
    ensures { OnOk result (out.new.items ≡ out.old.items ++ (decimal octet ++ 46 ∷ [])) }
{
    push_number(out, u64::from(octet))?;
    out.push(b'.')?;
    Ok(())
}

/// Appends the text of an address. For want of memory some front of it may have been appended.
pub fn push_addr<F: Texts>(out: &mut Vec<u8>, addr: Addr<F>) -> Result<(), Memory>
    ensures { OnOk result (out.new.items ≡ out.old.items ++ addr_text F.V6 addr) }
{
    addr.bits().push(out)
}

/// Appends the text of an identifier. For want of memory some front of it may have been appended.
pub fn push_id(out: &mut Vec<u8>, id: RouterId) -> Result<(), Memory>
    ensures { OnOk result (out.new.items ≡ out.old.items ++ id_text id) }
{
    push_four(out, id.number())
}

/// Appends the four octets of a number.
#[tactic(auto, unfolding(crate::specs::Texts::id_text))]
fn push_four(out: &mut Vec<u8>, number: u32) -> Result<(), Memory>
    ensures { OnOk result (out.new.items ≡ out.old.items ++ id_text number) }
{
    push_octets(
        out,
        (number / 0x100_0000 % 256) as u8,
        (number / 0x1_0000 % 256) as u8,
        (number / 0x100 % 256) as u8,
        (number % 256) as u8,
    )
}

/// Reads a prefix: an address, a slash, a length to the family's width without a leading zero. Bits beyond the length are
/// masked away. Another text is refused.
pub fn read_prefix<F: Texts>(text: &[u8]) -> Result<Prefix<F>, BadPrefix>
    ensures { result_ok result ≡ prefix_of F.V6 text.now }
{
    read_length(text).ok_or(BadPrefix)
}

// A length in which a slash stands is no number.
#[tactic(auto, using(crate::proofs::LastLemmas::last_length), unfolding(crate::specs::Texts::prefix_of))]
fn read_length<F: Texts>(text: &[u8]) -> Option<Prefix<F>>
    ensures { result ≡ prefix_of F.V6 text.now }
{
    let (addr, rest) = first_part(text, b'/');
    let length = rest?;
    let addr = read_addr(addr).ok()?;
    let length = read_number_below(length, u64::from(F::WIDTH) + 1)?;
    Prefix::new(addr, length as u8)
}

/// Appends the text of a prefix. For want of memory some front of it may have been appended.
#[tactic(auto, unfolding(crate::specs::Texts::prefix_text))]
pub fn push_prefix<F: Texts>(out: &mut Vec<u8>, p: Prefix<F>) -> Result<(), Memory>
    ensures { OnOk result (out.new.items ≡ out.old.items ++ prefix_text F.V6 p) }
{
    push_addr(out, p.address())?;
    out.push(b'/')?;
    push_number(out, u64::from(p.length()))?;
    Ok(())
}
