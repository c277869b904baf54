//! Prefixes of a journal, which must stand there as they are printed. Those of both families are kept as prefixes of 128 bits,
//! in front of which stand IPv4's.

ghost use Rattle.std.specs.Prelude.{◌≡◌, IfOk, false, true};
ghost use Rattle.journal_check.specs.Readings.{printed_prefix};

use addr4::{
    Addr, Memory, Prefix, first_part, push_prefix, read_addr, read_number_below, read_prefix,
};
use addr6::V6;
use std::alloc::Global;

// The prefix of IPv4 of a word that is exactly as it is printed. Numbers that are read have no leading zeros, so that is
// where the address has no bits beyond the length.
#[tactic(auto, using(crate::proofs::PrefixPrinted::no_third_part), unfolding(crate::specs::Readings::printed_prefix, addr4::specs::Texts::prefix_of))]
fn printed_prefix(word: &[u8]) -> Option<Prefix>
    ensures { result ≡ printed_prefix false word.now }
{
    let (addr, rest) = first_part(word, b'/');
    let (length, more) = first_part(rest?, b'/');
    if let Some(_more) = more {
        return None;
    }
    let addr = read_addr(addr).ok()?;
    let length = read_number_below(length, 33)?;
    addr.known();
    let prefix = Prefix::new(addr, length as u8)?;
    if prefix.address() == addr {
        Some(prefix)
    } else {
        None
    }
}

// The prefix of IPv6 of a word that is exactly as it is printed: an address can be spelled in many ways.
#[tactic(auto, unfolding(crate::specs::Readings::as_printed, crate::specs::Readings::printed_prefix))]
fn printed_prefix6(alloc: Global, word: &[u8]) -> Result<Option<Prefix<V6>>, Memory>
    ensures { IfOk result (λ r. r ≡ printed_prefix true word.now) }
{
    let Ok(prefix) = read_prefix::<V6>(word) else {
        return Ok(None);
    };
    let mut text = Vec::new(alloc);
    push_prefix(&mut text, prefix)?;
    if word == text.as_slice() {
        Ok(Some(prefix))
    } else {
        Ok(None)
    }
}

// The same prefix, among those of 128 bits.
fn widened(p: Prefix) -> Prefix<V6>
    ensures { result ≡ p }
{
    let bits = u128::from(p.address().number()) << 96;
    match Prefix::new(Addr::from_bits(V6(bits)), p.length()) {
        Some(wide) => wide,
        None => unreachable!(),
    }
}

/// The prefix of the family of a word that is exactly as it is printed.
pub(crate) fn printed_prefix_in(
    alloc: Global,
    v6: bool,
    word: &[u8],
) -> Result<Option<Prefix<V6>>, Memory>
    ensures { IfOk result (λ r. r ≡ printed_prefix v6 word.now) }
{
    if v6 {
        return printed_prefix6(alloc, word);
    }
    match printed_prefix(word) {
        None => Ok(None),
        Some(p) => Ok(Some(widened(p))),
    }
}
