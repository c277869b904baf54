//! Which part of a message a network hears.

ghost use Rattle.std.specs.Prelude.{◌≡◌};
ghost use Rattle.bgp_wire.specs.Readable.{said_of};

use addr4::V4;
use addr6::V6;
use bgp_wire::{Said, Update};
use router_network::AsksLosses;

/// A family whose routes peers say to the network, and hear from it.
pub trait Hears: AsksLosses {
    /// What an UPDATE says of the family's routes (RFC 4760); of the other family the network hears nothing.
    fn said(update: Update) -> Said<Self>
        ensures { result ≡ said_of Self.V6 update };
}

impl Hears for V4 {
    fn said(update: Update) -> Said<V4> {
        let Update { first, second } = update;
        drop(second);
        first
    }
}

impl Hears for V6 {
    fn said(update: Update) -> Said<V6> {
        let Update { first, second } = update;
        drop(first);
        second
    }
}
