//! The rows of a link, which contracts alone see.

ghost use base.Fml.{ftrue};
ghost use Rattle.std.specs.Prelude.{◌≡◌};
ghost use Rattle.std.specs.FinMap as map;
ghost use Rattle.std.specs.FinMap.{FinMap};
ghost use Rattle.std.specs.Borrow.{u32 as word};
ghost use Rattle.addr4.specs.Prefixes.{prefix_cmp, address_prefix_code};
ghost use Rattle.rib_route.specs.Rows.{External as Outer};
ghost use Rattle.rib_route.specs.contracts.rows.External as external_row;
ghost use Rattle.rib_split.specs.Kept.{kept_after};

use addr4::{Addr, Family, Prefix};
use link_change::Change;
use rib_route::External;
use std::marker::Model;

// The rows of a link. They are ghost data: a value takes no bytes, and no code reads them. Nothing here ties them to memory; the
// crates above say over which best routes they are the rows of both links, and look at those.
#[derive(Drop)]
pub(crate) struct Told {
    ghost rows: { FinMap prefix_cmp Outer } by { map.code address_prefix_code (external_row.the_row word).coded },
}

impl Model for Told {
    ghost Value = { FinMap prefix_cmp Outer };

    ghost coded = { map.code address_prefix_code (external_row.the_row word).coded };

    ghost view = { λ t. t.rows };

    ghost also_owns = { λ _. ftrue };
}

impl Told {
    // No row. A proof by hand says of which rows a value is, here and below.
    pub(crate) fn new() -> Told
        ensures { result ≡ map.empty }
    {
        Told {}
    }

    // The rows of another one after a change.
    pub(crate) fn after<F: Family>(
        _before: &Told,
        _change: &Change<External<Addr<F>>, Prefix<F>>,
    ) -> Told
        ensures { result ≡ kept_after _before.now _change.now.prefix _change.now.after }
    {
        Told {}
    }
}
