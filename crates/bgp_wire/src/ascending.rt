//! Unrecognized attributes, by ascending type.

ghost use Rattle.std.specs.Prelude.{◌≡◌, length, [], IfOk, IfErr, IfSome, position, OnOk, nat_lt, ◌<◌};
ghost use Rattle.bgp_wire.specs.Found.{placed};

use crate::notice::Refusal;
use addr4::Memory;
use bgp_attr::{Unrecognized, UnrecognizedAttrs};
use std::alloc::Global;
use std::marker::Model;

/// Unrecognized attributes, by ascending type.
#[derive(Drop)]
pub(crate) struct Ascending {
    items: Vec<Unrecognized>,
}

impl Model for Ascending {
    ghost use Rattle.std.specs.Prelude.{List};
    ghost use Rattle.bgp_attr.specs.declared.unrecognized.Unrecognized.{Unrecognized};

    ghost Value = { List Unrecognized };

    ghost view = { λ a. a.items.items };
}

/// The place of the first attribute above a type.
fn first_above(items: &[Unrecognized], kind: u8) -> Option<usize>
    ensures place { result ≡ position (λ other. nat_lt kind other.kind) items.now }
    ensures within { IfSome result (λ at. at < length items.now) }
{
    items.iter().position(|other| kind < other.kind)
}

impl Ascending {
    pub(crate) fn new(alloc: Global) -> Ascending
        ensures { result ≡ [] }
    {
        Ascending {
            items: Vec::new(alloc),
        }
    }

    pub(crate) fn place(&mut self, item: Unrecognized) -> Result<(), Refusal>
        ensures ok { OnOk result (self.new ≡ placed item self.old) }
        ensures err { IfErr result (λ e. e ≡ Refusal.Memory) }
    {
        let end = self.items.len();
        let at = first_above(self.items.as_slice(), item.kind).unwrap_or(end);
        self.items.insert(at, item)?;
        Ok(())
    }

    pub(crate) fn into_attrs(self, alloc: Global) -> Result<UnrecognizedAttrs, Memory>
        ensures { IfOk result (λ attrs. attrs ≡ self) }
    {
        UnrecognizedAttrs::from_vec(alloc, self.items)
    }
}
