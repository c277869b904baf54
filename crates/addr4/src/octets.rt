//! Octets of texts.

ghost use Rattle.std.specs.Prelude.{◌≡◌, ◌++◌, ◌&&◌, nat_le, OnOk};
ghost use Rattle.std.specs.List.{list_all};
ghost use Rattle.hex.specs.Hex.{encode_lower};

use crate::memory::Memory;

/// Appends octets as hex digits, in lower case.
pub fn push_hex(out: &mut Vec<u8>, octets: &[u8]) -> Result<(), Memory>
    ensures { OnOk result (out.new.items ≡ out.old.items ++ encode_lower octets.now) }
{
    let start = out.len();
    let Some(room) = octets.len().checked_mul(2) else {
        return Err(Memory);
    };
    let Some(end) = start.checked_add(room) else {
        return Err(Memory);
    };
    out.resize(end, 0)?;
    match hex::encode_to_slice(octets, &mut out[start..]) {
        Ok(()) => Ok(()),
        Err(_) => unreachable!(),
    }
}

/// Whether each byte is a printable one of ASCII, 32 to 126. It looks at every byte, so that many are looked at at once.
#[tactic(auto, using(std::proofs::lemmas::List::Folds::list_all_more))]
pub fn all_printable(text: &[u8]) -> bool
    ensures { result ≡ list_all (λ b. nat_le 32 b && nat_le b 126) text.now }
{
    let mut all = true;
    for byte in text {
        all &= 32 <= *byte && *byte <= 126;
    }
    all
}
