//! Addresses and prefixes: their order, what a prefix holds, and their texts.
//!
//! Everything is generic in a [`Family`], the bits of an address; IPv4, [`V4`], is the family where none is named. A
//! [`Prefix`] keeps its address masked to its length, so two prefixes are equal exactly where they hold the same
//! addresses. Contracts see an address as a number and a prefix as the record `AddressPrefix {address; length}`, whatever the
//! family.
//!
//! Here too: [`Memory`], the one answer for want of memory of the whole product, [`Row`], what a table asks of its rows,
//! the reading and writing of decimal numbers, and the writing of octets as hex digits. Every other crate stands on this one.
#![tactic(auto)]

mod addr;
mod family;
mod memory;
mod numbers;
mod octets;
mod parts;
mod place;
mod prefix;
mod router_id;
mod row;
mod texts;

pub use addr::Addr;
pub use family::{Family, V4};
pub use memory::Memory;
pub use numbers::{push_number, read_number, read_number_below};
pub use octets::{all_printable, push_hex};
pub use parts::first_part;
pub use place::Place;
pub use prefix::Prefix;
pub use router_id::RouterId;
pub use row::Row;
pub use texts::{
    BadAddr, BadPrefix, Texts, push_addr, push_id, push_prefix, read_addr, read_id, read_prefix,
};
