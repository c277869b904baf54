//! The protocols of both sides, and their distances.

ghost use Rattle.std.specs.Prelude.{◌≡◌};
ghost use Rattle.rib_route.specs.Distances.{fib_proto, distance, external_proto};

use crate::Proto;
use crate::rows::External;
use addr4::{Addr, Family};

/// Where a row of the forwarding side comes from: an interior protocol, or BGP with an external or an internal peer.
#[derive(Clone, Copy, PartialEq, Eq)]
pub enum FibProto {
    Connected,
    Static,
    Ospf,
    Rip,
    Ebgp,
    Ibgp,
}

impl FibProto {
    /// How little the protocol's rows are trusted beside those of others, 0 the most: the administrative distance.
    pub fn distance(self) -> u8
        ensures { result ≡ distance self }
    {
        match self {
            FibProto::Connected => 0,
            FibProto::Static => 1,
            FibProto::Ebgp => 20,
            FibProto::Ospf => 110,
            FibProto::Rip => 120,
            FibProto::Ibgp => 200,
        }
    }
}

impl Proto {
    /// The protocol, as the forwarding side names it.
    pub fn fib_proto(self) -> FibProto
        ensures { result ≡ fib_proto self }
    {
        match self {
            Proto::Connected => FibProto::Connected,
            Proto::Static => FibProto::Static,
            Proto::Ospf => FibProto::Ospf,
            Proto::Rip => FibProto::Rip,
        }
    }

    pub fn distance(self) -> u8
        ensures { result ≡ distance (fib_proto self) }
    {
        self.fib_proto().distance()
    }
}

impl<F: Family> External<Addr<F>> {
    /// BGP with an internal or an external peer.
    pub fn fib_proto(&self) -> FibProto
        ensures { result ≡ external_proto self.now }
    {
        if self.internal {
            FibProto::Ibgp
        } else {
            FibProto::Ebgp
        }
    }

    pub fn distance(&self) -> u8
        ensures { result ≡ distance (external_proto self.now) }
    {
        self.fib_proto().distance()
    }
}
