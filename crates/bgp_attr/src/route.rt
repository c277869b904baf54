//! A route behind the incoming filter.

use crate::attrs::SharedAttrs;
use crate::speaker::Neighbour;
use addr4::{Family, Memory, Row};

/// A route behind the incoming filter: what the decision compares (RFC 4271, section 9.1).
#[derive(Drop)]
pub struct Route<S = SharedAttrs> {
    pub attrs: S,
    /// The degree of preference.
    pub pref: u32,
    /// The MULTI_EXIT_DISC that counts here, which rules may have set.
    pub med: Option<u32>,
    /// How often more than once the local AS is put in front of the path, 0 to 16.
    pub prepend: u8,
    /// The interior metric of the next hop; none where it isn't known yet.
    pub igp: Option<u32>,
    /// The peer that the route came from; none for a local route.
    pub from: Option<Neighbour>,
}

impl<F: Family> Row for Route<SharedAttrs<F>> {
    /// Takes no memory: the attributes are shared.
    fn copy(&self) -> Result<Route<SharedAttrs<F>>, Memory> {
        let attrs = self.attrs.copy()?;
        Ok(Route {
            attrs,
            pref: self.pref,
            med: self.med,
            prepend: self.prepend,
            igp: self.igp,
            from: self.from,
        })
    }

    fn same(&self, other: &Route<SharedAttrs<F>>) -> bool {
        self.pref == other.pref
            && self.med == other.med
            && self.prepend == other.prepend
            && self.igp == other.igp
            && self.from == other.from
            && self.attrs.same(&other.attrs)
    }
}
