//! Candidates in line.

ghost use Rattle.std.specs.Prelude.{◌≡◌, ◌≤◌, ◌<◌, ℕ, Option, Some, [], ◌∷◌, not, nat_lt, length, OnOk, IfOk};
ghost use Rattle.std.specs.List.{insert, remove, position, position_or_len};
ghost use Rattle.bgp_attr.specs.Routes.{Route as Routed};
ghost use Rattle.decision.specs.Lineups.{IsLine, InLine, Parts, candidate_at, routes_of, chosen, with_own};
ghost use Rattle.best_path.specs.Steps.{pick};

use addr4::{Family, Memory, Prefix};
use best_path::{Candidate, best};
use bgp_attr::{Route, SharedAttrs};
use link_change::Change;
use std::alloc::Global;

/// The candidates of the branches that have a row at one prefix, in the order of branches.
#[derive(Drop)]
pub(crate) struct Lineup {
    candidates: Vec<Candidate>,
    /// The branch of each.
    branches: Vec<u8>,
}

/// The candidate that a row is, if it is one.
pub(crate) fn candidate<F: Family>(row: &Option<Route<SharedAttrs<F>>>) -> Option<Candidate>
    ensures { result ≡ candidate_at row.now }
{
    match row {
        Some(route) => Some(Candidate::of(route)),
        None => None,
    }
}

// The place of the first number from a branch on.
fn first_from(numbers: &[u8], branch: u8) -> Option<usize>
    ensures { result ≡ position (λ n. not (nat_lt n branch)) numbers.now }
{
    numbers.iter().position(|number| !(*number < branch))
}

impl Lineup {
    /// The candidate of one branch alone, and room for that of another.
    pub(crate) fn of_one(alloc: Global, branch: u8, candidate: Candidate) -> Result<Lineup, Memory>
        ensures candidates { IfOk result (λ line. line.candidates.items ≡ candidate ∷ []) }
        ensures branches { IfOk result (λ line. line.branches.items ≡ branch ∷ []) }
    {
        let mut candidates = Vec::with_capacity(alloc, 2)?;
        candidates.push(candidate)?;
        let mut branches = Vec::with_capacity(alloc, 2)?;
        branches.push(branch)?;
        Ok(Lineup {
            candidates,
            branches,
        })
    }

    /// A branch's row changes: the candidate of the one before goes, and that of the one after comes. Memory only for want of it.
    pub(crate) fn take_in<F: Family>(
        &mut self,
        branch: u8,
        change: &Change<Route<SharedAttrs<F>>, Prefix<F>>,
    ) -> Result<(), Memory>
        requires small { branch < 65 }
        requires lined { InLine branch change.now.before self.old }
        ensures { OnOk result ((here : ℕ → Option Routed) → IsLine (with_own branch change.now.before here) self.old → IsLine (with_own branch change.now.after here) self.new) }
    {
        let place = self.leave(branch, &change.before);
        if let Some(candidate) = candidate(&change.after) {
            self.put(place, branch, candidate)?;
        }
        Ok(())
    }

    /// The branch whose candidate is the best; none where there is no candidate.
    pub(crate) fn winner(&self) -> Option<u8>
        requires { length self.now.candidates.items ≤ 65 }
        ensures best { (here : ℕ → Option Routed) → IsLine here self.now → chosen here result ≡ pick (routes_of 65 here) }
        ensures listed { (only b : ℕ) → self.now.branches.items ≡ only ∷ [] → result ≡ Some b → b ≡ only }
    {
        let place = best(self.candidates.as_slice())?;
        self.branches.get(place).copied()
    }

    /// Whether a single candidate is left, or none.
    pub(crate) fn is_short(&self) -> bool
        ensures { result ≡ nat_lt (length self.now.branches.items) 2 }
    {
        self.branches.len() < 2
    }

    // The candidate of a branch goes, if it has this row; the place where it stood, or would stand.
    fn leave<F: Family>(&mut self, branch: u8, row: &Option<Route<SharedAttrs<F>>>) -> usize
        requires small { branch < 65 }
        requires lined { InLine branch row.now self.old }
        ensures { (here : ℕ → Option Routed) → IsLine (with_own branch row.now here) self.old → Parts branch here self.new result }
    {
        let place = self.place(branch);
        if row.is_some() {
            self.cut(place);
        }
        place
    }

    // The place of a branch: behind the candidates of those before it.
    fn place(&self, branch: u8) -> usize
        ensures { result ≡ position_or_len (λ n. not (nat_lt n branch)) self.now.branches.items }
    {
        let end = self.branches.len();
        first_from(self.branches.as_slice(), branch).unwrap_or(end)
    }

    // A branch has this candidate, which comes before those from a place on.
    fn put(&mut self, place: usize, branch: u8, candidate: Candidate) -> Result<(), Memory>
        requires place { place ≤ length self.old.candidates.items }
        requires beside { place ≤ length self.old.branches.items }
        ensures candidates { OnOk result (self.new.candidates.items ≡ insert self.old.candidates.items place candidate) }
        ensures branches { OnOk result (self.new.branches.items ≡ insert self.old.branches.items place branch) }
    {
        self.candidates.insert(place, candidate)?;
        self.branches.insert(place, branch)?;
        Ok(())
    }

    // Takes the candidate at a place out.
    fn cut(&mut self, place: usize)
        requires place { place < length self.old.candidates.items }
        requires beside { place < length self.old.branches.items }
        ensures candidates { self.new.candidates.items ≡ remove self.old.candidates.items place }
        ensures branches { self.new.branches.items ≡ remove self.old.branches.items place }
    {
        self.candidates.remove(place);
        self.branches.remove(place);
    }
}
