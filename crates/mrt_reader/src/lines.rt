//! The lines of an event file.

ghost use Rattle.std.specs.Prelude.{◌≡◌, ◌++◌, ◌∷◌, [], OnOk, false, codes};
ghost use Rattle.std.specs.Fmt.{decimal};
ghost use Rattle.addr4.specs.Texts.{addr_text};
ghost use Rattle.mrt_reader.specs.Lines.{line_text, refused_text, code_text};
ghost use Rattle.mrt_reader.specs.Lines as lines;

use crate::answer::Code;
use addr4::{Addr, Memory, push_addr, push_hex, push_number};

fn push_text(out: &mut Vec<u8>, text: &[u8]) -> Result<(), Memory>
    ensures { OnOk result (out.new.items ≡ out.old.items ++ text.now) }
{
    out.extend_from_slice(text)?;
    Ok(())
}

/// A text and a number.
fn push_numbered(out: &mut Vec<u8>, text: &[u8], number: u32) -> Result<(), Memory>
    ensures { OnOk result (out.new.items ≡ out.old.items ++ (text.now ++ decimal number)) }
{
    push_text(out, text)?;
    push_number(out, u64::from(number))
}

/// A space and an address, which is also the BGP identifier, twice; and the end of the line.
fn push_speaker(out: &mut Vec<u8>, addr: Addr) -> Result<(), Memory>
    ensures { OnOk result (out.new.items ≡ out.old.items ++ (32 ∷ addr_text false addr ++ 32 ∷ addr_text false addr ++ 10 ∷ [])) }
{
    out.push(b' ')?;
    push_addr(out, addr)?;
    out.push(b' ')?;
    push_addr(out, addr)?;
    out.push(b'\n')?;
    Ok(())
}

/// `as4`
#[tactic(auto, unfolding(crate::specs::Lines::line_words))]
pub(crate) fn push_as4(out: &mut Vec<u8>) -> Result<(), Memory>
    ensures { OnOk result (out.new.items ≡ out.old.items ++ line_text lines.As4) }
{
    push_text(out, b"as4\n")
}

/// `local AS ADDR ADDR`
#[tactic(auto, unfolding(crate::specs::Lines::line_words))]
pub(crate) fn push_local(out: &mut Vec<u8>, asn: u32, addr: Addr) -> Result<(), Memory>
    ensures { OnOk result (out.new.items ≡ out.old.items ++ line_text (lines.Local asn addr)) }
{
    push_numbered(out, b"local ", asn)?;
    push_speaker(out, addr)
}

/// `peer K AS ADDR ADDR`
#[tactic(auto, unfolding(crate::specs::Lines::line_words))]
pub(crate) fn push_peer(out: &mut Vec<u8>, number: u32, asn: u32, addr: Addr) -> Result<(), Memory>
    ensures { OnOk result (out.new.items ≡ out.old.items ++ line_text (lines.Peer number asn addr)) }
{
    push_numbered(out, b"peer ", number)?;
    push_numbered(out, b" ", asn)?;
    push_speaker(out, addr)
}

/// `up K`
#[tactic(auto, unfolding(crate::specs::Lines::line_words))]
pub(crate) fn push_up(out: &mut Vec<u8>, number: u32) -> Result<(), Memory>
    ensures { OnOk result (out.new.items ≡ out.old.items ++ line_text (lines.Up number)) }
{
    push_numbered(out, b"up ", number)?;
    push_text(out, b"\n")
}

/// `down K`
#[tactic(auto, unfolding(crate::specs::Lines::line_words))]
pub(crate) fn push_down(out: &mut Vec<u8>, number: u32) -> Result<(), Memory>
    ensures { OnOk result (out.new.items ≡ out.old.items ++ line_text (lines.Down number)) }
{
    push_numbered(out, b"down ", number)?;
    push_text(out, b"\n")
}

/// `bgp K HEX`
#[tactic(auto, unfolding(crate::specs::Lines::line_words))]
pub(crate) fn push_message(out: &mut Vec<u8>, number: u32, octets: &[u8]) -> Result<(), Memory>
    ensures { OnOk result (out.new.items ≡ out.old.items ++ line_text (lines.Bgp number octets.now)) }
{
    push_numbered(out, b"bgp ", number)?;
    out.push(b' ')?;
    push_hex(out, octets)?;
    push_text(out, b"\n")
}

/// `idle`
#[tactic(auto, unfolding(crate::specs::Lines::line_words))]
pub(crate) fn push_idle(out: &mut Vec<u8>) -> Result<(), Memory>
    ensures { OnOk result (out.new.items ≡ out.old.items ++ line_text lines.Idle) }
{
    push_text(out, b"idle\n")
}

fn push_code(out: &mut Vec<u8>, code: Code) -> Result<(), Memory>
    ensures { OnOk result (out.new.items ≡ out.old.items ++ code_text code) }
{
    match code {
        Code::M1 => push_text(out, b"M1"),
        Code::M2 => push_text(out, b"M2"),
        Code::M3 => push_text(out, b"M3"),
    }
}

/// `refused RECORD CODE`
pub(crate) fn push_refused(out: &mut Vec<u8>, number: u32, code: Code) -> Result<(), Memory>
    ensures { OnOk result (out.new.items ≡ out.old.items ++ refused_text number code) }
{
    push_numbered(out, b"refused ", number)?;
    out.push(b' ')?;
    push_code(out, code)?;
    push_text(out, b"\n")
}
