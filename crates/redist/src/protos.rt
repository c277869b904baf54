//! Sets of interior protocols.

ghost use Rattle.std.specs.Prelude.{◌≡◌, ◌↔◌, IsTrue};
ghost use Rattle.redist.specs.Protocols.{no_protos, has, with_proto};

use rib_route::Proto;

/// A set of interior protocols.
#[derive(Clone, Copy, PartialEq)]
pub struct Protos {
    connected: bool,
    statics: bool,
    ospf: bool,
    rip: bool,
}

impl Protos {
    /// The empty set.
    pub fn none() -> Protos
        ensures { result ≡ no_protos }
    {
        Protos {
            connected: false,
            statics: false,
            ospf: false,
            rip: false,
        }
    }

    /// Whether no protocol is in the set.
    pub fn is_empty(self) -> bool
        ensures { IsTrue result ↔ (self ≡ no_protos) }
    {
        self == Protos::none()
    }

    /// Whether the protocol is in the set.
    pub fn has(self, proto: Proto) -> bool
        ensures { result ≡ has self proto }
    {
        match proto {
            Proto::Connected => self.connected,
            Proto::Static => self.statics,
            Proto::Ospf => self.ospf,
            Proto::Rip => self.rip,
        }
    }

    /// The same set with the protocol in it, or without.
    pub fn with(self, proto: Proto, on: bool) -> Protos
        ensures { result ≡ with_proto self proto on }
    {
        match proto {
            Proto::Connected => Protos {
                connected: on,
                ..self
            },
            Proto::Static => Protos {
                statics: on,
                ..self
            },
            Proto::Ospf => Protos { ospf: on, ..self },
            Proto::Rip => Protos { rip: on, ..self },
        }
    }
}
