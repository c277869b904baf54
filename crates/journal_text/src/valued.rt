//! Rows, as values of a journal.

ghost use Rattle.std.specs.Prelude.{◌≡◌, IfOk, option_map};
ghost use Rattle.journal_text.specs.Lines.{Value};
ghost use Rattle.journal_text.specs.Values.{attrs_value, route_value, interior_value, external_value, fib_value};

use crate::value::Value;
use addr4::{Addr, Family, Memory, Prefix, Row};
use bgp_attr::{Route, SharedAttrs};
use link_change::Change;
use rib_route::{External, FibRow, Interior};

/// A row that has a value of its own on the journal's lines.
pub trait Valued<F: Family>: Row {
    /// The value.
    ghost value: { Self → Value };

    /// The value of the row. Memory only where the row can't be copied.
    fn to_value(&self) -> Result<Value<SharedAttrs<F>, Addr<F>>, Memory>
        ensures { IfOk result (λ v. v ≡ value self.now) };

    /// No two rows have one value.
    ghost told: { (a b : Self) → value a ≡ value b → a ≡ b };
}

impl<F: Family> Valued<F> for SharedAttrs<F> {
    ghost use Rattle.std.proofs.Common.{rules};

    ghost value = { attrs_value };

    ghost told = { λ a b same. Prim.search rules };

    fn to_value(&self) -> Result<Value<SharedAttrs<F>, Addr<F>>, Memory> {
        Ok(Value::Attrs(self.copy()?))
    }
}

impl<F: Family> Valued<F> for Route<SharedAttrs<F>> {
    ghost use Rattle.std.proofs.Common.{rules};

    ghost value = { route_value };

    ghost told = { λ a b same. Prim.search rules };

    fn to_value(&self) -> Result<Value<SharedAttrs<F>, Addr<F>>, Memory> {
        Ok(Value::Route(self.copy()?))
    }
}

impl<F: Family> Valued<F> for Interior<Addr<F>> {
    ghost use Rattle.std.proofs.Common.{rules};

    ghost value = { interior_value };

    ghost told = { λ a b same. Prim.search rules };

    fn to_value(&self) -> Result<Value<SharedAttrs<F>, Addr<F>>, Memory> {
        Ok(Value::Interior(*self))
    }
}

impl<F: Family> Valued<F> for External<Addr<F>> {
    ghost use Rattle.std.proofs.Common.{rules};

    ghost value = { external_value };

    ghost told = { λ a b same. Prim.search rules };

    fn to_value(&self) -> Result<Value<SharedAttrs<F>, Addr<F>>, Memory> {
        Ok(Value::External(*self))
    }
}

impl<F: Family> Valued<F> for FibRow<Addr<F>> {
    ghost use Rattle.std.proofs.Common.{rules};

    ghost value = { fib_value };

    ghost told = { λ a b same. Prim.search rules };

    fn to_value(&self) -> Result<Value<SharedAttrs<F>, Addr<F>>, Memory> {
        Ok(Value::FibRow(*self))
    }
}

/// The value of a row, if there is one. Memory only where the row can't be copied.
pub fn value_of<F: Family, R: Valued<F>>(
    row: &Option<R>,
) -> Result<Option<Value<SharedAttrs<F>, Addr<F>>>, Memory>
    ensures { IfOk result (λ value. value ≡ option_map R.value row.now) }
{
    match row {
        Some(row) => Ok(Some(row.to_value()?)),
        None => Ok(None),
    }
}

/// The values of the rows before and after a change.
pub(crate) fn values_of<F: Family, R: Valued<F>>(
    change: &Change<R, Prefix<F>>,
) -> Result<
    (
        Option<Value<SharedAttrs<F>, Addr<F>>>,
        Option<Value<SharedAttrs<F>, Addr<F>>>,
    ),
    Memory,
>
    ensures before { IfOk result (λ values. values.0 ≡ option_map R.value change.now.before) }
    ensures after { IfOk result (λ values. values.1 ≡ option_map R.value change.now.after) }
{
    let before = value_of(&change.before)?;
    let after = value_of(&change.after)?;
    Ok((before, after))
}
