//! Names of interfaces.

ghost use Rattle.std.specs.Prelude.{◌≡◌, true};
ghost use Rattle.std.specs.List.{list_all};
ghost use Rattle.std.specs.Str.{bytes_eq};
ghost use Rattle.std.specs.Cmp.{partial_equiv_from_equiv};
ghost use Rattle.std.specs.Cmp.Lexicographic.{nat_list_eq_equiv};
ghost use Rattle.rib_route.specs.Ifaces.{is_name_byte, is_iface_name, iface_of};

use std::marker::Model;

/// The name of an interface: 1 to 15 bytes, each a lower-case letter, a digit, `-`, `.` or `_`. Contracts see the list of
/// these bytes.
#[derive(Clone, Copy)]
pub struct Iface {
    bytes: [u8; 15],
    len: u8,
}

impl Model for Iface {
    ghost use Rattle.std.specs.Prelude.{ℕ, List, length, take};
    ghost use Rattle.rib_route.specs.Ifaces.{padded, IsKept};

    ghost Value = { List ℕ };

    ghost view = { λ a. take a.len a.bytes };

    ghost invariant = { λ a. IsKept a.bytes a.len };

    ghost inverse = { λ name. record { bytes = padded name; len = length name } };

    ghost inverse_ok = { λ a h i. record {
      bytes = h.rest i;
      len = h.fits i;
    } };
}

impl PartialEq for Iface {
    ghost eq = { bytes_eq };

    ghost laws = { partial_equiv_from_equiv nat_list_eq_equiv };

    fn eq(&self, other: &Iface) -> bool {
        self.as_slice() == other.as_slice()
    }
}

impl Eq for Iface {
    ghost laws = { nat_list_eq_equiv };
}

// Whether the text is 1 to 15 of the bytes that names have.
fn is_name(text: &[u8]) -> bool
    ensures { result ≡ is_iface_name text.now }
{
    1 <= text.len() && text.len() <= 15 && all_name_bytes(text)
}

fn all_name_bytes(text: &[u8]) -> bool
    ensures { result ≡ list_all is_name_byte text.now }
{
    text.iter().all(|byte| is_name_byte(*byte))
}

fn is_name_byte(byte: u8) -> bool
    ensures { result ≡ is_name_byte byte }
{
    matches!(byte, b'a'..=b'z' | b'0'..=b'9' | b'-' | b'.' | b'_')
}

impl Iface {
    /// Reads a name; another text is none.
    pub fn read(text: &[u8]) -> Option<Iface>
        ensures { result ≡ iface_of text.now }
    {
        if !is_name(text) {
            return None;
        }
        let mut bytes = [0; 15];
        bytes[..text.len()].copy_from_slice(text);
        Some(Iface {
            bytes,
            len: text.len() as u8,
        })
    }

    /// The bytes of the name.
    pub fn as_slice(&self) -> &[u8]
        ensures bytes { result.now ≡ self.now }
        ensures name { is_iface_name self.now ≡ true }
    {
        &self.bytes[..usize::from(self.len)]
    }
}
