//! The texts of values.

ghost use Rattle.std.specs.Prelude.{◌≡◌, ◌++◌, ◌∷◌, [], OnOk};
ghost use Rattle.std.specs.Fmt.{decimal};
ghost use Rattle.journal_text.specs.Texts.{sender_number, field_text, known_text, route_text, fib_proto_text, gateway_text, with_colons, interior_text, external_text, fib_text, value_text, answer_text};

use crate::attributes::push_attrs;
use crate::names::fib_proto_word;
use crate::value::Value;
use addr4::{Addr, Memory, Texts, push_addr, push_number};
use bgp_attr::{Attrs, Neighbour, Route, SharedAttrs};
use rib_route::{External, FibProto, FibRow, Iface, Interior};
use std::alloc::Global;

/// Appends a text.
pub(crate) fn push_text(out: &mut Vec<u8>, text: &[u8]) -> Result<(), Memory>
    ensures { OnOk result (out.new.items ≡ out.old.items ++ text.now) }
{
    out.extend_from_slice(text)?;
    Ok(())
}

/// The decimal digits of a large number.
pub(crate) fn push_wide(alloc: Global, out: &mut Vec<u8>, number: u128) -> Result<(), Memory>
    ensures { OnOk result (out.new.items ≡ out.old.items ++ decimal number) }
{
    let text = number.to_string(alloc)?;
    out.extend_from_slice(text.as_bytes())?;
    Ok(())
}

fn sender_number(from: Option<Neighbour>) -> u32
    ensures { result ≡ sender_number from }
{
    match from {
        Some(peer) => u32::from(peer.number),
        None => 0,
    }
}

/// A number and a colon.
fn push_field(out: &mut Vec<u8>, number: u32) -> Result<(), Memory>
    ensures { OnOk result (out.new.items ≡ out.old.items ++ field_text number) }
{
    push_number(out, u64::from(number))?;
    out.push(b':')?;
    Ok(())
}

/// A number, or `-` for none, and a colon.
fn push_known(out: &mut Vec<u8>, number: Option<u32>) -> Result<(), Memory>
    ensures { OnOk result (out.new.items ≡ out.old.items ++ known_text number) }
{
    match number {
        Some(number) => push_field(out, number),
        None => push_text(out, b"-:"),
    }
}

/// What the decision compares, each with a colon, and the attributes.
#[tactic(auto, unfolding(crate::specs::Texts::route_text))]
fn push_route<F: Texts>(out: &mut Vec<u8>, route: &Route<SharedAttrs<F>>) -> Result<(), Memory>
    ensures { OnOk result (out.new.items ≡ out.old.items ++ route_text F.V6 route.now) }
{
    push_field(out, sender_number(route.from))?;
    push_field(out, route.pref)?;
    push_known(out, route.med)?;
    push_field(out, u32::from(route.prepend))?;
    push_known(out, route.igp)?;
    push_attrs(out, route.attrs.attrs())
}

/// An address, or `direct` for none.
fn push_gateway<F: Texts>(out: &mut Vec<u8>, gateway: Option<Addr<F>>) -> Result<(), Memory>
    ensures { OnOk result (out.new.items ≡ out.old.items ++ gateway_text F.V6 gateway) }
{
    match gateway {
        Some(addr) => push_addr(out, addr),
        None => push_text(out, b"direct"),
    }
}

/// Protocol, gateway and interface.
fn push_hop<F: Texts>(
    out: &mut Vec<u8>,
    proto: FibProto,
    gateway: Option<Addr<F>>,
    iface: &Iface,
) -> Result<(), Memory>
    ensures { OnOk result (out.new.items ≡ out.old.items ++ with_colons (fib_proto_text proto ∷ gateway_text F.V6 gateway ∷ iface.now ∷ [])) }
{
    push_text(out, fib_proto_word(proto))?;
    out.push(b':')?;
    push_gateway(out, gateway)?;
    out.push(b':')?;
    push_text(out, iface.as_slice())
}

#[tactic(auto, unfolding(crate::specs::Texts::interior_text))]
fn push_interior<F: Texts>(out: &mut Vec<u8>, row: &Interior<Addr<F>>) -> Result<(), Memory>
    ensures { OnOk result (out.new.items ≡ out.old.items ++ interior_text F.V6 row.now) }
{
    push_hop(out, row.proto.fib_proto(), row.gateway, &row.iface)?;
    out.push(b':')?;
    push_number(out, u64::from(row.metric))?;
    Ok(())
}

#[tactic(auto, unfolding(crate::specs::Texts::external_text))]
fn push_external<F: Texts>(out: &mut Vec<u8>, row: &External<Addr<F>>) -> Result<(), Memory>
    ensures { OnOk result (out.new.items ≡ out.old.items ++ external_text F.V6 row.now) }
{
    push_text(out, fib_proto_word(row.fib_proto()))?;
    out.push(b':')?;
    push_addr(out, row.next_hop)
}

#[tactic(auto, unfolding(crate::specs::Texts::fib_text))]
fn push_fib_row<F: Texts>(out: &mut Vec<u8>, row: &FibRow<Addr<F>>) -> Result<(), Memory>
    ensures { OnOk result (out.new.items ≡ out.old.items ++ fib_text F.V6 row.now) }
{
    push_hop(out, row.proto, row.gateway, &row.iface)
}

/// The text of a value.
pub(crate) fn push_value<F: Texts>(
    out: &mut Vec<u8>,
    value: &Value<SharedAttrs<F>, Addr<F>>,
) -> Result<(), Memory>
    ensures { OnOk result (out.new.items ≡ out.old.items ++ value_text F.V6 value.now) }
{
    match value {
        Value::Attrs(attrs) => push_attrs(out, attrs.attrs()),
        Value::Route(route) => push_route(out, route),
        Value::Interior(row) => push_interior(out, row),
        Value::External(row) => push_external(out, row),
        Value::FibRow(row) => push_fib_row(out, row),
    }
}

/// The text of a value, or `-` for none.
pub(crate) fn push_answer<F: Texts>(
    out: &mut Vec<u8>,
    row: &Option<Value<SharedAttrs<F>, Addr<F>>>,
) -> Result<(), Memory>
    ensures { OnOk result (out.new.items ≡ out.old.items ++ answer_text F.V6 row.now) }
{
    match row {
        Some(value) => push_value(out, value),
        None => push_text(out, b"-"),
    }
}
