//! Interior, external and forwarding rows.

ghost use Rattle.std.specs.Prelude.{◌≡◌};
ghost use Rattle.rib_route.specs.Forwarding.{fib_row};

use crate::Proto;
use crate::iface::Iface;
use crate::protocol::FibProto;
use addr4::{Addr, Family, Memory, Row};

/// A route of an interior protocol.
#[derive(Clone, Copy, PartialEq, Eq)]
pub struct Interior<A = Addr> {
    pub proto: Proto,
    /// The router that the route goes over; none where it is direct.
    pub gateway: Option<A>,
    pub iface: Iface,
    /// What the route costs, in the protocol's own measure.
    pub metric: u32,
}

/// A route of BGP that won the decision.
#[derive(Clone, Copy, PartialEq, Eq)]
pub struct External<A = Addr> {
    /// Whether the peer that sent it is an internal one.
    pub internal: bool,
    /// The NEXT_HOP (RFC 4271, section 5.1.3), which need not lie on a subnet of this router.
    pub next_hop: A,
}

/// What is forwarded by.
#[derive(Clone, Copy, PartialEq, Eq)]
pub struct FibRow<A = Addr> {
    pub proto: FibProto,
    /// The router that packets are sent to; none where their destination is reached directly.
    pub gateway: Option<A>,
    pub iface: Iface,
}

impl<F: Family> Interior<Addr<F>> {
    /// The row that packets are forwarded by.
    pub fn fib_row(&self) -> FibRow<Addr<F>>
        ensures { result ≡ fib_row self.now }
    {
        FibRow {
            proto: self.proto.fib_proto(),
            gateway: self.gateway,
            iface: self.iface,
        }
    }
}

impl<F: Family> Row for Interior<Addr<F>> {
    fn copy(&self) -> Result<Interior<Addr<F>>, Memory> {
        Ok(*self)
    }

    fn same(&self, other: &Interior<Addr<F>>) -> bool {
        self.proto == other.proto
            && self.gateway == other.gateway
            && self.iface == other.iface
            && self.metric == other.metric
    }
}

impl<F: Family> Row for External<Addr<F>> {
    fn copy(&self) -> Result<External<Addr<F>>, Memory> {
        Ok(*self)
    }

    fn same(&self, other: &External<Addr<F>>) -> bool {
        self == other
    }
}

impl<F: Family> Row for FibRow<Addr<F>> {
    fn copy(&self) -> Result<FibRow<Addr<F>>, Memory> {
        Ok(*self)
    }

    fn same(&self, other: &FibRow<Addr<F>>) -> bool {
        self.proto == other.proto && self.gateway == other.gateway && self.iface == other.iface
    }
}
