//! What stands at a prefix of a link.

ghost use Rattle.std.specs.Prelude.{◌≡◌, IfOk};

use addr4::{Addr, Family, Memory, Row};
use bgp_attr::{Route, SharedAttrs};
use rib_route::{External, FibRow, Interior};

/// What stands at a prefix of a link.
#[derive(Drop)]
pub enum Value<S = SharedAttrs, A = Addr> {
    /// On `in.K` and `peer.K.S`.
    Attrs(S),
    /// On `filt.K`.
    Route(Route<S>),
    /// On `org.PROTO`, `org.PROTO.N`, `low`, `dyn` and `int`.
    Interior(Interior<A>),
    /// On `ebgp`, `ibgp` and `ext`.
    External(External<A>),
    /// On `fib`.
    FibRow(FibRow<A>),
}

impl<F: Family> Value<SharedAttrs<F>, Addr<F>> {
    /// The same value once more. Memory only where the row can't be copied.
    fn copy(&self) -> Result<Value<SharedAttrs<F>, Addr<F>>, Memory>
        ensures { IfOk result (λ value. value ≡ self.now) }
    {
        match self {
            Value::Attrs(attrs) => Ok(Value::Attrs(attrs.copy()?)),
            Value::Route(route) => Ok(Value::Route(route.copy()?)),
            Value::Interior(row) => Ok(Value::Interior(*row)),
            Value::External(row) => Ok(Value::External(*row)),
            Value::FibRow(row) => Ok(Value::FibRow(*row)),
        }
    }
}

/// The same value once more, if there is one.
pub(crate) fn copy_of<F: Family>(
    value: &Option<Value<SharedAttrs<F>, Addr<F>>>,
) -> Result<Option<Value<SharedAttrs<F>, Addr<F>>>, Memory>
    ensures { IfOk result (λ copy. copy ≡ value.now) }
{
    match value {
        Some(value) => Ok(Some(value.copy()?)),
        None => Ok(None),
    }
}
