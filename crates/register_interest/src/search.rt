//! The longest row that holds an address, and the largest subnet with that answer.

ghost use Rattle.std.specs.Prelude.{◌≡◌, ◌≤◌, ◌↔◌, IsTrue};
ghost use Rattle.std.specs.FinMap as map;
ghost use Rattle.register_interest.specs.Width.{width};
ghost use Rattle.addr4.specs.Prefixes.{block};
ghost use Rattle.register_interest.specs.Covers.{longest, matched, IsFree, IsSubnet};
ghost use Rattle.register_interest.specs.Matches.{lent_match};
ghost use Rattle.register_interest.specs.Search.{rows_in, AreShort, IsBeneath, length_of};

use crate::order::{first_beyond, last_to};
use addr4::{Addr, Family, Prefix};
use std::collections::BTreeMap;

// The longest row that holds an address. A row that holds it is at or before the prefix of the address with all bits. If
// the last row up to there doesn't hold the address, those that do hold that row's address too, and so have no more bits
// than the two addresses share.
pub(crate) fn longest_row<R, F: Family>(
    rows: &BTreeMap<Prefix<F>, R>,
    address: Addr<F>,
) -> Option<(Prefix<F>, &R)>
    requires { AreShort F.WIDTH (map.get (rows_in rows.now)) }
    ensures { lent_match result ≡ longest width (map.get (rows_in rows.now)) address }
{
    address.known();
    let mut length = F::WIDTH;
    'rows: while let Some(row) = last_to(rows, block(address, length)) {
        row.0.known();
        if row.0.holds(address) {
            return Some(row);
        }
        length = row.0.address().shared_bits(address);
    }
    None
}

// The prefix of an address with so many bits.
pub(crate) fn block<F: Family>(address: Addr<F>, length: u8) -> Prefix<F>
    requires { length ≤ F.WIDTH }
    ensures { result ≡ block width address length }
{
    Prefix::new(address, length).unwrap()
}

// The length of the match, or 0.
fn shortest<F: Family>(found: &Option<Prefix<F>>) -> u8
    ensures { result ≡ length_of found.now }
{
    match found {
        None => 0,
        Some(prefix) => prefix.length(),
    }
}

// Whether no row longer than the match overlaps the prefix of the address with so many bits, which the match covers.
fn is_free<R, F: Family>(
    rows: &BTreeMap<Prefix<F>, R>,
    address: Addr<F>,
    found: &Option<Prefix<F>>,
    length: u8,
) -> bool
    requires found { found.now ≡ matched (longest width (map.get (rows_in rows.now)) address) }
    requires within { length ≤ F.WIDTH }
    requires beneath { IsBeneath found.now length }
    ensures { IsTrue result ↔ IsFree width (map.get (rows_in rows.now)) found.now (block width address length) }
{
    address.known();
    let subnet = block(address, length);
    match first_beyond(rows, subnet) {
        None => true,
        Some(next) => {
            next.known();
            !subnet.covers(next)
        }
    }
}

// The largest subnet of an address for which the match is the answer. A longer prefix of the address is free where a
// shorter one is, so the lengths are halved until the first is found.
pub(crate) fn largest_subnet<R, F: Family>(
    rows: &BTreeMap<Prefix<F>, R>,
    address: Addr<F>,
    found: &Option<Prefix<F>>,
) -> Prefix<F>
    requires short { AreShort F.WIDTH (map.get (rows_in rows.now)) }
    requires found { found.now ≡ matched (longest width (map.get (rows_in rows.now)) address) }
    ensures { IsSubnet width (map.get (rows_in rows.now)) address found.now result }
{
    address.known();
    let mut low = shortest(found);
    let mut high = F::WIDTH;
    'lengths: while low < high {
        let middle = (low + high) / 2;
        if is_free(rows, address, found, middle) {
            high = middle;
        } else {
            low = middle + 1;
        }
    }
    block(address, low)
}
