//! Attributes that this speaker doesn't recognize, and passes on.

ghost use Rattle.std.specs.Prelude.{◌≡◌, ◌↔◌, [], IsTrue, IfOk};

use crate::octets::Octets;
use addr4::{Memory, Row};
use std::alloc::Global;
use std::marker::Model;
use std::slice;

/// An unrecognized optional transitive attribute (RFC 4271, section 5).
#[derive(Drop)]
pub struct Unrecognized {
    /// The attribute type code.
    pub kind: u8,
    pub value: Octets,
}

impl Row for Unrecognized {
    fn copy(&self) -> Result<Unrecognized, Memory> {
        let value = self.value.copy()?;
        Ok(Unrecognized {
            kind: self.kind,
            value,
        })
    }

    fn same(&self, other: &Unrecognized) -> bool {
        self.kind == other.kind && self.value.same(&other.value)
    }
}

/// Unrecognized attributes in a row; a route has them by ascending type. Few routes have any, and most of these one: they stand in a
/// block of memory of their own.
#[derive(Drop)]
pub struct UnrecognizedAttrs {
    items: Items,
}

#[derive(Drop)]
enum Items {
    None,
    One(Box<Unrecognized>),
    Many(Box<Vec<Unrecognized>>),
}

impl Model for UnrecognizedAttrs {
    ghost use Rattle.std.specs.Prelude.{List};
    ghost use Rattle.bgp_attr.specs.declared.unrecognized.Unrecognized.{Unrecognized};

    ghost Value = { List Unrecognized };

    ghost use Rattle.bgp_attr.specs.Items.{items_in};

    ghost view = { λ u. items_in u.items };
}

impl UnrecognizedAttrs {
    /// No attribute; takes no memory.
    pub fn none() -> UnrecognizedAttrs
        ensures { result ≡ [] }
    {
        UnrecognizedAttrs { items: Items::None }
    }

    /// Takes no memory where there is none.
    pub fn from_vec(alloc: Global, items: Vec<Unrecognized>) -> Result<UnrecognizedAttrs, Memory>
        ensures { IfOk result (λ u. u ≡ items.items) }
    {
        let mut items = items;
        if items.len() > 1 {
            let items = Box::new(alloc, items)?;
            return Ok(UnrecognizedAttrs {
                items: Items::Many(items),
            });
        }
        match items.pop() {
            None => Ok(UnrecognizedAttrs::none()),
            Some(item) => {
                let item = Box::new(alloc, item)?;
                Ok(UnrecognizedAttrs {
                    items: Items::One(item),
                })
            }
        }
    }

    pub fn as_slice(&self) -> &[Unrecognized]
        ensures { result.now ≡ self.now }
    {
        match &self.items {
            Items::None => &[],
            Items::One(item) => slice::from_ref(item),
            Items::Many(items) => items.as_slice(),
        }
    }
}

impl Row for UnrecognizedAttrs {
    fn copy(&self) -> Result<UnrecognizedAttrs, Memory> {
        let items = match &self.items {
            Items::None => Items::None,
            Items::One(item) => Items::One(Box::new(*Box::allocator(item), item.copy()?)?),
            Items::Many(items) => {
                let alloc = *items.allocator();
                Items::Many(Box::new(alloc, copy_of(alloc, items.as_slice())?)?)
            }
        };
        Ok(UnrecognizedAttrs { items })
    }

    fn same(&self, other: &UnrecognizedAttrs) -> bool {
        same_items(self.as_slice(), other.as_slice())
    }
}

fn copy_of(alloc: Global, items: &[Unrecognized]) -> Result<Vec<Unrecognized>, Memory>
    ensures { IfOk result (λ copies. copies.items ≡ items.now) }
{
    let mut copies = Vec::with_capacity(alloc, items.len())?;
    for item in items {
        copies.push(item.copy()?)?;
    }
    Ok(copies)
}

fn same_items(left: &[Unrecognized], right: &[Unrecognized]) -> bool
    ensures { IsTrue result ↔ (left.now ≡ right.now) }
{
    if left.len() != right.len() {
        return false;
    }
    for (i, item) in left.iter().enumerate() {
        if !item.same(&right[i]) {
            return false;
        }
    }
    true
}
