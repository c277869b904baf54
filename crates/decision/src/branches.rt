//! The branches above the decision, as it sees them.

ghost use Rattle.std.specs.Prelude.{◌≡◌, IfOk, is_some, true, ℕ};
ghost use Rattle.addr4.specs.Prefixes.{AddressPrefix};
ghost use Rattle.addr4.specs.Places.{key_of};
ghost use Rattle.link_change.specs.Rows.{Rows, Candidates, IsNextCandidate};
ghost use Rattle.bgp_attr.specs.Routes.{Route as Routed};
ghost use Rattle.filter_bank.specs.Outgoing.{ComesFrom};

use addr4::{Family, Memory, Place, Prefix};
use bgp_attr::{Route, SharedAttrs};

/// All branches above the decision as they are now, by number: 0 has the local routes, 1 to 64 those of the peers. The decision
/// knows where each has a candidate and whose row is the best ([`Contests`](crate::Contests)); a branch is asked for a row alone.
pub trait Branches<F: Family> {
    /// The rows that stand on the last link of each branch.
    ghost rows: { Self → ℕ → Rows Routed };

    /// The prefixes that a walk of each branch goes to, which the decision counts; some may have no row.
    ghost candidates: { Self → ℕ → Candidates };

    /// Prefixes that a walk of the best routes goes to beside those of the branches: some have no row, and none is counted.
    ghost beside: { Self → Candidates };

    /// The row of a branch at a prefix.
    fn asked(&self, branch: u8, p: &Prefix<F>) -> Result<Option<Route<SharedAttrs<F>>>, Memory>
        ensures { IfOk result (λ row. row ≡ rows self.now branch p.now) };

    /// Whether a branch has a row at a prefix. Takes no memory.
    fn has(&self, branch: u8, p: &Prefix<F>) -> bool
        ensures { result ≡ is_some (rows self.now branch p.now) };

    /// The least prefix beyond a place of those that stand beside the branches' candidates.
    fn next_beside(&self, after: &Place<Prefix<F>>) -> Option<Prefix<F>>
        ensures { IsNextCandidate (beside self.now) (key_of after.now) result };

    /// Whether a branch has the routes of the peer of that number: true only where it has no other. Takes no memory.
    fn is_from(&self, branch: u8, number: u8) -> bool
        ensures { result ≡ true → (p : AddressPrefix) → ComesFrom number (rows self.now branch p) };
}
