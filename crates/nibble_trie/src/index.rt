//! The index that leads each address to its first leaf.

ghost use Rattle.std.specs.Prelude.{◌≡◌, ℕ, ◌+◌, ◌%◌, ◌<◌, ◌≤◌, ◌^◌, Option, Some, None};
ghost use Rattle.slab.specs.Slab.{HasRoomFor, slab_len};
ghost use Rattle.nibble_trie.specs.declared.link.Target.TheVariants.{Leaf};
ghost use Rattle.nibble_trie.specs.Links.{leads, IsCell};
ghost use Rattle.nibble_trie.specs.Keys.{prefix_in};
ghost use Rattle.nibble_trie.specs.Index.{Layout, high, link_at, is_live, IsPlace, IsLaid, Indexes, Lies, Names, with_head, IsAlone, OnWay, IsSpotOf, spot_at, HasHeads, HasWay, HasNamedWay, HasLoneWay, Placed, Writes};

use crate::branch::{Branch, digit_of};
use crate::link::{Link, Target};
use crate::node::Node;
use addr4::{Addr, Family, Prefix};
use slab::Slab;
use std::alloc::Global;

/// A root's link, and the branches below it.
#[derive(Drop)]
pub(crate) struct Index {
    pub(crate) root: Link,
    pub(crate) branches: Slab<Branch>,
}

/// The place of a link: the root's, or that of a branch's digit. How many digits of an address come behind it, and where
/// the link leads.
#[derive(Clone, Copy)]
pub(crate) struct Spot {
    pub(crate) at: Option<(usize, usize)>,
    pub(crate) level: u32,
    pub(crate) target: Target,
}

/// Where the way of an address ends: the branch that the last link is one of, unless it is the root's, how many digits come
/// behind it, and the link.
#[derive(Clone, Copy)]
pub(crate) struct End {
    pub(crate) branch: usize,
    pub(crate) level: u32,
    pub(crate) link: Link,
}

impl End {
    // The place of the last link.
    pub(crate) fn spot<F: Family>(self, address: Addr<F>) -> Spot
        requires { self.level ≤ 32 }
        ensures { result ≡ spot_at self address }
    {
        let at = if self.level == 32 {
            None
        } else {
            Some((self.branch, digit_of(address, self.level)))
        };
        Spot {
            at,
            level: self.level,
            target: self.link.target(),
        }
    }
}

impl Index {
    pub(crate) fn new(alloc: Global) -> Index
        ensures { Indexes result (λ _. None) }
    {
        Index {
            root: Link::nothing(),
            branches: Slab::new(alloc),
        }
    }

    // The root's place.
    pub(crate) fn top(&self) -> Spot
        ensures { result ≡ record { at = None; level = 32; target = leads self.now.root } }
    {
        Spot {
            at: None,
            level: 32,
            target: self.root.target(),
        }
    }

    // The place below a branch on an address's way.
    pub(crate) fn below<F: Family>(&self, branch: usize, address: Addr<F>, level: u32) -> Spot
        requires live { is_live self.now branch }
        requires short { level < 32 }
        ensures { result ≡ record { at = Some (branch, high level address % 16); level = level; target = link_at self.now (Some (branch, high level address % 16)) } }
    {
        let digit = digit_of(address, level);
        let links = &self.branches[branch];
        Spot {
            at: Some((branch, digit)),
            level,
            target: links.target(digit),
        }
    }

    // Where the way of an address ends: from the root down to where no branch is. Words alone go down, no places.
    pub(crate) fn end_of<F: Family>(&self, address: Addr<F>) -> End
        requires { HasHeads self.now }
        ensures way { IsSpotOf self.now address (spot_at result address) }
        ensures cell { IsCell (leads result.link) }
    {
        address.known();
        let mut end = End {
            branch: 0,
            level: 32,
            link: self.root,
        };
        'way: loop {
            match end.link.target() {
                Target::Nothing => return end,
                Target::Leaf(_) => return end,
                Target::Inner(branch) => {
                    let level = end.level - 1;
                    let links = &self.branches[branch];
                    end = End {
                        branch,
                        level,
                        link: links.link(digit_of(address, level)),
                    };
                }
            }
        }
    }

    // The first leaf of an address, where its way ends.
    pub(crate) fn head<V, F: Family>(
        &self,
        leaves: &Slab<Node<V, Prefix<F>>>,
        end: End,
        address: Addr<F>,
    ) -> Option<usize>
        requires way { HasNamedWay (prefix_in leaves.now) self.now address (spot_at end address) }
        requires cell { IsCell (leads end.link) }
        ensures { (heads : ℕ → Option ℕ) (layout : Layout) → IsLaid self.now heads layout → Names (prefix_in leaves.now) heads → OnWay self.now layout address (spot_at end address) → result ≡ heads address }
    {
        match end.link.target() {
            Target::Nothing => None,
            Target::Leaf(key) => {
                let node = &leaves[key];
                if node.prefix.address() == address {
                    Some(key)
                } else {
                    None
                }
            }
            Target::Inner(_) => unreachable!(),
        }
    }

    // The link at a place.
    fn link(&self, at: Option<(usize, usize)>) -> Link
        requires { IsPlace (is_live self.now) at }
        ensures { leads result ≡ link_at self.now at }
    {
        match at {
            None => self.root,
            Some((branch, digit)) => {
                let links = &self.branches[branch];
                links.link(digit)
            }
        }
    }

    pub(crate) fn write(&mut self, at: Option<(usize, usize)>, link: Link)
        requires { IsPlace (is_live self.old) at }
        ensures writes { Writes (is_live self.old) (is_live self.new) (link_at self.old) (link_at self.new) at (leads link) }
        ensures len { slab_len self.new.branches ≡ slab_len self.old.branches }
        ensures capacity { self.new.branches.capacity ≡ self.old.branches.capacity }
    {
        match at {
            None => self.root = link,
            Some((branch, digit)) => self.branches[branch].set(digit, link),
        }
    }

    // Makes a leaf the first of an address, at its place, where no other address has one.
    pub(crate) fn point<F: Family>(&mut self, spot: Spot, address: Addr<F>, key: usize)
        requires way { HasLoneWay self.old address spot }
        requires cell { IsCell spot.target }
        requires small { key + 1 < 2 ^ 31 }
        ensures { (heads : ℕ → Option ℕ) (layout : Layout) → IsLaid self.old heads layout → OnWay self.old layout address spot → IsAlone heads layout spot.at address → Indexes self.new (with_head heads address (Some key)) }
    {
        self.write(spot.at, Link::leaf(key));
    }

    // Makes a leaf the first of an address, at its place.
    pub(crate) fn put<V, F: Family>(
        &mut self,
        leaves: &Slab<Node<V, Prefix<F>>>,
        spot: Spot,
        address: Addr<F>,
        key: usize,
    )
        requires way { HasNamedWay (prefix_in leaves.now) self.old address spot }
        requires cell { IsCell spot.target }
        requires small { key + 1 < 2 ^ 31 }
        requires room { HasRoomFor self.old.branches spot.level }
        requires capacity { self.old.branches.capacity ≤ 2 ^ 31 }
        ensures { (heads : ℕ → Option ℕ) (layout : Layout) → IsLaid self.old heads layout → Names (prefix_in leaves.now) heads → OnWay self.old layout address spot → Indexes self.new (with_head heads address (Some key)) }
    {
        match spot.target {
            Target::Nothing => self.point(spot, address, key),
            Target::Leaf(other) => {
                let node = &leaves[other];
                let standing = node.prefix.address();
                if standing == address {
                    return self.point(spot, address, key);
                }
                let below = self.split(spot, standing, address);
                self.put(leaves, below, address, key);
            }
            Target::Inner(_) => unreachable!(),
        }
    }

    // Puts a branch between a place and its leaf, which stands for one address, on the way of another one.
    fn split<F: Family>(&mut self, spot: Spot, standing: Addr<F>, address: Addr<F>) -> Spot
        requires way { HasWay self.old address spot }
        requires deep { 0 < spot.level }
        requires room { HasRoomFor self.old.branches spot.level }
        requires capacity { self.old.branches.capacity ≤ 2 ^ 31 }
        ensures placed { (heads : ℕ → Option ℕ) (layout : Layout) (other : ℕ) → IsLaid self.old heads layout → OnWay self.old layout address spot → spot.target ≡ Leaf other → heads standing ≡ Some other → Lies layout spot.at standing → Placed self.new heads address result }
        ensures cell { (other : ℕ) → spot.target ≡ Leaf other → IsCell result.target }
        ensures level { result.level + 1 ≡ spot.level }
        ensures room { HasRoomFor self.new.branches result.level }
        ensures capacity { self.new.branches.capacity ≡ self.old.branches.capacity }
    {
        let level = spot.level - 1;
        let link = self.link(spot.at);
        let links = Branch::with_one(digit_of(standing, level), link);
        let branch = self.branches.insert_reserved(links);
        self.write(spot.at, Link::inner(branch));
        self.below(branch, address, level)
    }
}
