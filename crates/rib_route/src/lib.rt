//! The rows of the interior and the forwarding side, and how far the protocols are trusted.
//!
//! An interior route, [`Interior`], is one of a [`Proto`]; an [`External`] one is learnt by BGP. What a router forwards by
//! is a [`FibRow`], of one protocol of both sides, a [`FibProto`]. Where several protocols have a row for a prefix, the one
//! of the least distance is used (NSDI 2005, section 5.2); no two protocols have the same distance ([`distances_differ`]).
//! An [`Iface`] is the name of an interface, kept in place, so that all rows are `Copy` and take no memory.
#![tactic(auto)]

mod iface;
mod laws;
mod protocol;
mod rows;

pub use iface::Iface;
pub use laws::distances_differ;
pub use protocol::FibProto;
pub use rows::{External, FibRow, Interior};

/// Where an interior route comes from.
#[derive(Clone, Copy, PartialEq, Eq)]
pub enum Proto {
    Connected,
    Static,
    Ospf,
    Rip,
}
