//! Routes of this speaker's own.

ghost use Rattle.std.specs.Prelude.{◌≡◌, IfOk, if◌then◌else◌};
ghost use Rattle.redist.specs.Local.{local_attrs, local_route, of_own, is_on};

use crate::protos::Protos;
use addr4::{Addr, Family, Memory, Row, V4};
use bgp_attr::{AsPath, Attrs, Origin, Reflection, Route, SharedAttrs, Speaker, UnrecognizedAttrs};
use rib_route::Interior;
use std::alloc::Global;

/// The attributes of this speaker's own routes, with its address.
#[derive(Drop)]
struct Own<F: Family = V4> {
    addr: Addr<F>,
    attrs: SharedAttrs<F>,
    ghost own: { attrs ≡ local_attrs addr },
}

/// Makes the routes of this speaker's own, and keeps the attributes that they share.
#[derive(Drop)]
pub(crate) struct Maker<F: Family = V4> {
    alloc: Global,
    last: Option<Own<F>>,
}

// The attributes of a route of the speaker's own. Takes no memory.
fn local_attrs<F: Family>(alloc: Global, addr: Addr<F>) -> Attrs<Addr<F>>
    ensures { result ≡ local_attrs addr }
{
    Attrs {
        origin: Origin::Incomplete,
        path: AsPath::new(alloc),
        next_hop: addr,
        med: None,
        local_pref: None,
        atomic: false,
        aggregator: None,
        reflection: Reflection::none(),
        unrecognized: UnrecognizedAttrs::none(),
    }
}

// The route of the speaker's own with these attributes.
fn of_own<F: Family>(attrs: SharedAttrs<F>) -> Route<SharedAttrs<F>>
    ensures { result ≡ of_own attrs }
{
    Route {
        attrs,
        pref: 100,
        med: None,
        prepend: 0,
        igp: Some(0),
        from: None,
    }
}

// Whether there is a row, of one of these protocols.
fn is_on<F: Family>(on: Protos, row: &Option<Interior<Addr<F>>>) -> bool
    ensures { result ≡ is_on on row.now }
{
    match row {
        None => false,
        Some(row) => on.has(row.proto),
    }
}

impl<F: Family> Maker<F> {
    /// Takes no memory; what is made later comes from `alloc`.
    pub(crate) fn new(alloc: Global) -> Maker<F> {
        Maker { alloc, last: None }
    }

    // The attributes that are kept, if they are this speaker's, or new ones.
    fn attrs(&self, me: &Speaker<Addr<F>>) -> Result<SharedAttrs<F>, Memory>
        ensures { IfOk result (λ attrs. attrs ≡ local_attrs me.now.addr) }
    {
        if let Some(own) = &self.last
            && own.addr == me.addr
        {
            return own.attrs.copy();
        }
        SharedAttrs::new(self.alloc, local_attrs(self.alloc, me.addr))
    }

    // The same, kept for the next route.
    fn kept_attrs(&mut self, me: &Speaker<Addr<F>>) -> Result<SharedAttrs<F>, Memory>
        ensures { IfOk result (λ attrs. attrs ≡ local_attrs me.now.addr) }
    {
        let attrs = self.attrs(me)?;
        let kept = attrs.copy()?;
        self.last = Some(Own {
            addr: me.addr,
            attrs: kept,
        });
        Ok(attrs)
    }

    /// What is made of an interior row, where these protocols are redistributed. Memory only for want of memory.
    pub(crate) fn row(
        &mut self,
        on: Protos,
        row: &Option<Interior<Addr<F>>>,
        me: &Speaker<Addr<F>>,
    ) -> Result<Option<Route<SharedAttrs<F>>>, Memory>
        ensures { IfOk result (λ route. route ≡ (if is_on on row.now then Some (local_route me.now) else None)) }
    {
        if !is_on(on, row) {
            return Ok(None);
        }
        Ok(Some(of_own(self.kept_attrs(me)?)))
    }

    /// The same for a lookup: nothing more is kept.
    pub(crate) fn asked(
        &self,
        on: Protos,
        row: &Option<Interior<Addr<F>>>,
        me: &Speaker<Addr<F>>,
    ) -> Result<Option<Route<SharedAttrs<F>>>, Memory>
        ensures { IfOk result (λ route. route ≡ (if is_on on row.now then Some (local_route me.now) else None)) }
    {
        if !is_on(on, row) {
            return Ok(None);
        }
        Ok(Some(of_own(self.attrs(me)?)))
    }
}
