//! Branches: sixteen links.

ghost use Rattle.std.specs.Prelude.{◌≡◌, ◌↔◌, ℕ, ◌%◌, ◌<◌, IsTrue, if◌then◌else◌, nat_eq};
ghost use Rattle.nibble_trie.specs.Links.{leads, target_at};
ghost use Rattle.nibble_trie.specs.Index.{high};
ghost use Rattle.nibble_trie.specs.declared.link.Target.TheVariants.{Nothing};

use crate::link::{Link, Target};
use addr4::{Addr, Family};

/// A link for each value of four bits.
#[derive(Drop)]
pub(crate) struct Branch {
    pub(crate) links: [Link; 16],
}

// The digit of an address that so many others follow.
pub(crate) fn digit_of<F: Family>(address: Addr<F>, level: u32) -> usize
    requires { level < 32 }
    ensures digit { result ≡ high level address % 16 }
    ensures small { result < 16 }
{
    address.digit(level)
}

impl Branch {
    // A branch with one link.
    pub(crate) fn with_one(digit: usize, link: Link) -> Branch
        requires { digit < 16 }
        ensures { (i : ℕ) → i < 16 → target_at result i ≡ (if nat_eq i digit then leads link else Nothing) }
    {
        let mut links = [Link::nothing(); 16];
        links[digit] = link;
        Branch { links }
    }

    pub(crate) fn link(&self, digit: usize) -> Link
        requires { digit < 16 }
        ensures { leads result ≡ target_at self.now digit }
    {
        self.links[digit]
    }

    // Where the link at a digit leads.
    pub(crate) fn target(&self, digit: usize) -> Target
        requires { digit < 16 }
        ensures { result ≡ target_at self.now digit }
    {
        self.links[digit].target()
    }

    pub(crate) fn set(&mut self, digit: usize, link: Link)
        requires { digit < 16 }
        ensures { (i : ℕ) → target_at self.new i ≡ (if nat_eq i digit then leads link else target_at self.old i) }
    {
        self.links[digit] = link;
    }

    // Whether no link leads anywhere. A sum is read in fewer steps than sixteen links one by one.
    pub(crate) fn is_empty(&self) -> bool
        ensures { IsTrue result ↔ ((i : ℕ) → i < 16 → target_at self.now i ≡ Nothing) }
    {
        let mut sum = 0u64;
        for digit in 0..16usize {
            sum += self.links[digit].number();
        }
        sum == 0
    }
}
