//! Messages.

ghost use Rattle.std.specs.Prelude.{◌≡◌};

use crate::notice::Notice;
use addr4::{Addr, Family, Prefix, V4};
use addr6::V6;
use bgp_attr::Attrs;
use std::marker::Model;

/// Prefixes in a row. Contracts see the list of them.
#[derive(Drop)]
pub struct Prefixes<F: Family = V4> {
    items: Vec<Prefix<F>>,
}

impl<F: Family> Model for Prefixes<F> {
    ghost use Rattle.std.specs.Prelude.{List};
    ghost use Rattle.addr4.specs.Prefixes.{AddressPrefix};

    ghost Value = { List AddressPrefix };

    ghost view = { λ p. p.items.items };
}

impl<F: Family> Prefixes<F> {
    /// Takes no memory.
    pub fn from_vec(items: Vec<Prefix<F>>) -> Prefixes<F>
        ensures { result ≡ items.items }
    {
        Prefixes { items }
    }

    pub(crate) fn into_vec(self) -> Vec<Prefix<F>>
        ensures { result.items ≡ self }
    {
        self.items
    }

    pub fn as_slice(&self) -> &[Prefix<F>]
        ensures { result.now ≡ self.now }
    {
        self.items.as_slice()
    }
}

/// What an UPDATE says of one family's prefixes: those that it withdraws, and those that it announces with their attributes, in
/// the order of its octets. A prefix may stand in both lists. Contracts see the same record for either family.
#[derive(Drop)]
pub struct Said<F: Family = V4> {
    pub withdrawn: Prefixes<F>,
    pub announced: Prefixes<F>,
    /// In an UPDATE that was read, there exactly where a prefix is announced.
    pub attrs: Option<Attrs<Addr<F>>>,
}

impl<F: Family> Model for Said<F> {
    ghost use Rattle.bgp_wire.specs.Said.{Said};

    ghost Value = { Said };

    ghost view = { λ s. record { withdrawn = s.withdrawn; announced = s.announced; attrs = s.attrs } };
}

/// What an UPDATE says of IPv4's prefixes, and of IPv6's.
#[derive(Drop)]
pub struct Update {
    pub first: Said<V4>,
    /// Where IPv6 isn't spoken, nothing.
    pub second: Said<V6>,
}

/// What a ROUTE-REFRESH asks to be sent again (RFC 2918, section 3). Its reserved octet is ignored.
#[derive(Clone, Copy)]
pub struct RouteRefresh {
    /// The address family: 1 is IPv4, and 2 is IPv6 (RFC 4760, section 8).
    pub afi: u16,
    /// The subsequent address family: 1 is unicast.
    pub safi: u8,
}

impl RouteRefresh {
    ghost use Rattle.bgp_wire.specs.Grammar.{is_served};

    /// Whether it asks for the family's unicast routes. One that asks for those of no family that is spoken is ignored (RFC 2918,
    /// section 4).
    pub fn is_served<F: Family>(&self) -> bool
        ensures { result ≡ is_served F.V6 self.now }
    {
        let afi = if F::V6 { 2 } else { 1 };
        self.afi == afi && self.safi == 1
    }
}

/// A message that was read.
#[derive(Drop)]
pub enum Message {
    Update(Update),
    Keepalive,
    /// A NOTIFICATION, which ends the session.
    Notification,
    /// An OPEN, which does nothing.
    Skip,
    /// A ROUTE-REFRESH, of whatever family (RFC 2918).
    Refresh(RouteRefresh),
    /// The octets have a fault, and this is the NOTIFICATION to be sent.
    Notify(Notice),
}
