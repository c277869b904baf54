//! Texts of IPv6's addresses (RFC 4291, section 2.2). They are printed without `::`, so that each has one text.

ghost use Rattle.std.specs.Prelude.{◌≡◌, ◌<◌, ◌++◌, ◌∷◌, ◌==◌, not, OnOk};
ghost use Rattle.std.specs.Char.{digit_char};
ghost use Rattle.std.specs.List.{list_all};
ghost use Rattle.std.specs.Net.Text.{hex, leading_zero_digits};
ghost use Rattle.addr4.specs.Texts.{addr6_of, addr6_text};

use crate::V6;
use addr4::{Memory, Texts};
use std::net::Ipv6Addr;

/// A hex digit, in lower case.
fn digit(value: u16) -> u8
    requires { value < 16 }
    ensures { result ≡ digit_char value }
{
    if value < 10 {
        b'0' + value as u8
    } else {
        b'a' + (value - 10) as u8
    }
}

/// How many of a group's four digits are leading zeros.
fn zeros(group: u16) -> usize
    ensures value { result ≡ leading_zero_digits group }
    ensures few { result < 4 }
{
    match group {
        0x1000.. => 0,
        0x100.. => 1,
        0x10.. => 2,
        _ => 3,
    }
}

/// Appends a group without leading zeros.
#[tactic(auto, unfolding(std::specs::Net::Text::hex))]
fn push_group(out: &mut Vec<u8>, group: u16) -> Result<(), Memory>
    ensures { OnOk result (out.new.items ≡ out.old.items ++ hex group) }
{
    let digits = [
        digit(group / 0x1000),
        digit(group / 0x100 % 16),
        digit(group / 0x10 % 16),
        digit(group % 16),
    ];
    out.extend_from_slice(&digits[zeros(group)..])?;
    Ok(())
}

/// Appends a colon and a group.
fn push_next_group(out: &mut Vec<u8>, group: u16) -> Result<(), Memory>
    ensures { OnOk result (out.new.items ≡ out.old.items ++ 58 ∷ hex group) }
{
    out.push(b':')?;
    push_group(out, group)
}

#[tactic(auto, unfolding(addr4::specs::Texts::addr6_text))]
fn push_groups(out: &mut Vec<u8>, number: u128) -> Result<(), Memory>
    ensures { OnOk result (out.new.items ≡ out.old.items ++ addr6_text number) }
{
    push_group(out, ((number >> 112) % 0x1_0000) as u16)?;
    push_next_group(out, ((number >> 96) % 0x1_0000) as u16)?;
    push_next_group(out, ((number >> 80) % 0x1_0000) as u16)?;
    push_next_group(out, ((number >> 64) % 0x1_0000) as u16)?;
    push_next_group(out, ((number >> 48) % 0x1_0000) as u16)?;
    push_next_group(out, ((number >> 32) % 0x1_0000) as u16)?;
    push_next_group(out, ((number >> 16) % 0x1_0000) as u16)?;
    push_next_group(out, (number % 0x1_0000) as u16)?;
    Ok(())
}

fn has_no_dot(text: &[u8]) -> bool
    ensures { result ≡ list_all (λ b. not (b == 46)) text.now }
{
    text.iter().all(|byte| *byte != b'.')
}

fn read_bits(text: &[u8]) -> Option<u128>
    ensures { result ≡ addr6_of text.now }
{
    if !has_no_dot(text) {
        return None;
    }
    match Ipv6Addr::parse_ascii(text) {
        Ok(address) => Some(address.to_bits()),
        Err(_) => None,
    }
}

/// An address is eight groups of one to four hex digits with colons between them, or fewer with one `::`, which stands for
/// one group that is 0 or more. Another text is refused, also one that ends in an IPv4 address.
impl Texts for V6 {
    fn push(self, out: &mut Vec<u8>) -> Result<(), Memory> {
        push_groups(out, self.0)
    }

    fn read(text: &[u8]) -> Option<V6> {
        let number = read_bits(text)?;
        Some(V6(number))
    }
}
