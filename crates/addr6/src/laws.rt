//! Laws of texts, for the proofs of the crates above. Each is a function that does nothing, whose contract is the law.

ghost use Rattle.std.specs.Prelude.{◌≡◌, ℕ, ◌^◌, ◌<◌, ◌≤◌, ◌||◌, ◌==◌, length, true, Some};
ghost use Rattle.std.specs.Char.{is_digit};
ghost use Rattle.std.specs.List.{list_all};
ghost use Rattle.addr4.specs.Blocks.{width};
ghost use Rattle.addr4.specs.Prefixes.{AddressPrefix, IsMasked};
ghost use Rattle.addr4.specs.Texts.{addr_of, addr_text, prefix_of, prefix_text};

/// An address that was printed is read back.
pub fn printed_addresses_are_read_back()
    ensures { (a : ℕ) → a < 2 ^ 128 → addr_of true (addr_text true a) ≡ Some a }
{}

/// A prefix that was printed is read back.
pub fn printed_prefixes_are_read_back()
    ensures { (p : AddressPrefix) → IsMasked width p → p.address < 2 ^ 128 → prefix_of true (prefix_text true p) ≡ Some p }
{}

/// The text of an address has hex digits and colons, 39 at most.
pub fn addresses_are_hex_and_colons()
    ensures bytes { (a : ℕ) → list_all (λ b. is_digit b 16 || b == 58) (addr_text true a) ≡ true }
    ensures short { (a : ℕ) → length (addr_text true a) ≤ 39 }
{}
