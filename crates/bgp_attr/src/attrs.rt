//! The attributes of a route.

ghost use Rattle.std.specs.Prelude.{◌≡◌, IfOk};

use crate::path::AsPath;
use crate::reflection::Reflection;
use crate::unrecognized::UnrecognizedAttrs;
use addr4::{Addr, Family, Memory, RouterId, Row, V4};
use std::alloc::Global;
use std::marker::Model;
use std::rc::Rc;

/// Where a route came from at first (RFC 4271, section 5.1.1).
#[derive(Clone, Copy, PartialEq, Eq, PartialOrd, Ord)]
pub enum Origin {
    Igp,
    Egp,
    Incomplete,
}

/// Who aggregated a route (RFC 4271, section 5.1.7).
#[derive(Clone, Copy, PartialEq, Eq)]
pub struct Aggregator {
    pub asn: u32,
    /// The identifier of that speaker, as a rule one of its IPv4 addresses.
    pub addr: RouterId,
    /// Whether the attribute came with its partial flag set.
    pub partial: bool,
}

/// What is kept of a route's attributes. A table has one for each UPDATE that announced a route of it: the fields stand by their
/// size, so that there is no room between them.
#[derive(Drop)]
pub struct Attrs<A = Addr> {
    pub path: AsPath,
    /// The unrecognized optional transitive attributes, by ascending type.
    pub unrecognized: UnrecognizedAttrs,
    /// ORIGINATOR_ID and CLUSTER_LIST; of an internal peer's route alone.
    pub reflection: Reflection,
    pub aggregator: Option<Aggregator>,
    /// MULTI_EXIT_DISC.
    pub med: Option<u32>,
    /// LOCAL_PREF; of an internal peer's route alone.
    pub local_pref: Option<u32>,
    pub next_hop: A,
    pub origin: Origin,
    /// Whether ATOMIC_AGGREGATE is there.
    pub atomic: bool,
}

const _: () = prove!(size_of::<Attrs>() <= 104);

impl<F: Family> Row for Attrs<Addr<F>> {
    fn copy(&self) -> Result<Attrs<Addr<F>>, Memory> {
        let path = self.path.copy()?;
        let reflection = self.reflection.copy()?;
        let unrecognized = self.unrecognized.copy()?;
        Ok(Attrs {
            origin: self.origin,
            path,
            next_hop: self.next_hop,
            med: self.med,
            local_pref: self.local_pref,
            atomic: self.atomic,
            aggregator: self.aggregator,
            reflection,
            unrecognized,
        })
    }

    fn same(&self, other: &Attrs<Addr<F>>) -> bool {
        self.origin == other.origin
            && self.next_hop == other.next_hop
            && self.med == other.med
            && self.local_pref == other.local_pref
            && self.atomic == other.atomic
            && self.aggregator == other.aggregator
            && self.path.same(&other.path)
            && self.reflection.same(&other.reflection)
            && self.unrecognized.same(&other.unrecognized)
    }
}

/// Attributes that several routes share. Contracts see the attributes themselves.
#[derive(Drop)]
pub struct SharedAttrs<F: Family = V4> {
    inner: Rc<Attrs<Addr<F>>>,
}

impl<F: Family> Model for SharedAttrs<F> {
    ghost use Rattle.bgp_attr.specs.Attributes.{Attrs};

    ghost Value = { Attrs };

    ghost view = { λ s. s.inner.value };
}

impl<F: Family> SharedAttrs<F> {
    pub fn new(alloc: Global, attrs: Attrs<Addr<F>>) -> Result<SharedAttrs<F>, Memory>
        ensures { IfOk result (λ shared. shared ≡ attrs) }
    {
        let inner = Rc::new(alloc, attrs)?;
        Ok(SharedAttrs { inner })
    }

    pub fn attrs(&self) -> &Attrs<Addr<F>>
        ensures { result.now ≡ self.now }
    {
        &self.inner
    }
}

impl<F: Family> Row for SharedAttrs<F> {
    /// Takes no memory: the attributes are shared.
    fn copy(&self) -> Result<SharedAttrs<F>, Memory> {
        let inner = self.inner.clone()?;
        Ok(SharedAttrs { inner })
    }

    fn same(&self, other: &SharedAttrs<F>) -> bool {
        self.inner.same(&other.inner)
    }
}
