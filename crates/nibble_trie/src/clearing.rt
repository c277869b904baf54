//! What is taken out of the index.

ghost use Rattle.std.specs.Prelude.{◌≡◌, ℕ, Option, None};
ghost use Rattle.nibble_trie.specs.declared.link.Target.TheVariants.{Inner};
ghost use Rattle.nibble_trie.specs.Links.{IsCell};
ghost use Rattle.nibble_trie.specs.Index.{Layout, IsLaid, Indexes, with_head, IsAlone, OnWay, HasLoneWay, IsBare, IsAbove};

use crate::index::{Index, Spot};
use crate::link::{Link, Target};
use addr4::{Addr, Family};

impl Index {
    // The place that leads to a branch on an address's way, from one above it on.
    fn above<F: Family>(&self, branch: usize, address: Addr<F>, mut spot: Spot) -> Spot
        requires { IsAbove self.now address branch spot }
        ensures way { (heads : ℕ → Option ℕ) (layout : Layout) → IsLaid self.now heads layout → OnWay self.now layout address spot → OnWay self.now layout address result }
        ensures target { result.target ≡ Inner branch }
    {
        'way: loop {
            match spot.target {
                Target::Inner(key) => {
                    if key == branch {
                        return spot;
                    }
                    spot = self.below(key, address, spot.level - 1);
                }
                Target::Nothing => unreachable!(),
                Target::Leaf(_) => unreachable!(),
            }
        }
    }

    // Takes away the branch of a bare link, if it has no other, and those above that are left without.
    fn prune<F: Family>(&mut self, at: Option<(usize, usize)>, address: Addr<F>)
        requires { IsBare self.old address at }
        ensures { (heads : ℕ → Option ℕ) → Indexes self.old heads → Indexes self.new heads }
    {
        address.known();
        let branch = match at {
            None => return,
            Some(at) => at.0,
        };
        let links = &self.branches[branch];
        if !links.is_empty() {
            return;
        }
        let above = self.above(branch, address, self.top());
        self.branches.remove(branch);
        self.write(above.at, Link::nothing());
        self.prune(above.at, address);
    }

    // Makes an address one without a leaf, at its place, where no other has one.
    pub(crate) fn clear<F: Family>(&mut self, spot: Spot, address: Addr<F>)
        requires way { HasLoneWay self.old address spot }
        requires cell { IsCell spot.target }
        ensures { (heads : ℕ → Option ℕ) (layout : Layout) → IsLaid self.old heads layout → OnWay self.old layout address spot → IsAlone heads layout spot.at address → Indexes self.new (with_head heads address None) }
    {
        self.write(spot.at, Link::nothing());
        self.prune(spot.at, address);
    }
}
