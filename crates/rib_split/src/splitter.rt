//! The splitter, and the tables of its links that contracts see.

ghost use Rattle.std.specs.Prelude.{◌≡◌};
ghost use Rattle.std.specs.FinMap as map;
ghost use Rattle.rib_split.specs.Tables.{kept_on, kept_all, SplitsOn};

use crate::split::{BgpLink, Split, split_change};
use crate::told::Told;
use addr4::{Addr, Family, Prefix};
use bgp_attr::{Route, SharedAttrs};
use link_change::Change;
use rib_route::External;

/// The splitter of the best routes. Contracts see a table of each link's rows; no row is kept. So it is the same for every family.
#[derive(Drop)]
pub struct Splitter {
    ebgp: Told,
    ibgp: Told,
}

impl Splitter {
    /// No row on either link.
    pub fn new() -> Splitter
        ensures { result ≡ record { ebgp = map.empty; ibgp = map.empty } }
    {
        Splitter {
            ebgp: Told::new(),
            ibgp: Told::new(),
        }
    }

    // The tables after a change of a link.
    fn keep<F: Family>(&mut self, link: BgpLink, change: &Change<External<Addr<F>>, Prefix<F>>)
        ensures { self.new ≡ kept_on self.old link change.now }
    {
        match link {
            BgpLink::Ebgp => self.ebgp = Told::after(&self.ebgp, change),
            BgpLink::Ibgp => self.ibgp = Told::after(&self.ibgp, change),
        }
    }

    // The tables after a split.
    fn keep_all<F: Family>(&mut self, split: &Split<Addr<F>, Prefix<F>>)
        ensures { self.new ≡ kept_all self.old split.now }
    {
        match split {
            Split::Neither => {}
            Split::One(link, change) => self.keep(*link, change),
            Split::Moved(link, add, delete) => {
                self.keep(*link, add);
                self.keep(link.other(), delete);
            }
        }
    }

    /// A change of the best routes, as it goes on below; the tables have the rows after it. Neither link changes exactly where
    /// the rows of both stay the same. Takes no memory.
    pub fn take_in<F: Family>(
        &mut self,
        change: &Change<Route<SharedAttrs<F>>, Prefix<F>>,
    ) -> Split<Addr<F>, Prefix<F>>
        ensures { SplitsOn self.old self.new change.now result }
    {
        let split = split_change(change);
        self.keep_all(&split);
        split
    }
}
