//! Answers about next hops.

ghost use Rattle.std.specs.Prelude.{◌≡◌, ◌↔◌, IsTrue};

use addr4::Prefix;

/// What is kept of an answer about a next hop.
pub trait Answer: Copy + Drop {
    /// Whether all of both is equal.
    fn same(&self, other: &Self) -> bool
        ensures { IsTrue result ↔ (self.now ≡ other.now) };
}

/// A known next hop.
#[derive(Clone, Copy, Drop)]
pub struct Hop<A, P = Prefix> {
    /// The answer that counts until the next change of all.
    pub in_force: A,
    /// The latest answer.
    pub fresh: A,
    /// The subnet with which the latest answer came, or none where that answer is stale.
    pub came: Option<P>,
}
