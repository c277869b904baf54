//! Laws of the best routes, for the proofs of the crates above. Each is a function that does nothing, whose contract is the law.

ghost use Rattle.decision.specs.Laws.{BestIsPicked, BestIsABranchs, NoBestOnlyWithoutRoutes, BestIsOfItsPrefix, NoCandidateWhereNoneIsCounted, SomethingIsKnown};

/// The best route at a prefix is the one that the decision process picks of all branches' routes there.
pub fn the_best_is_picked()
    ensures { BestIsPicked }
{}

/// It is the route of a branch.
pub fn the_best_is_a_branches()
    ensures { BestIsABranchs }
{}

/// There is none only where no branch has a route.
pub fn no_best_only_without_routes()
    ensures { NoBestOnlyWithoutRoutes }
{}

/// It is made of the branches' rows at its prefix alone.
pub fn the_best_is_of_its_prefix()
    ensures { BestIsOfItsPrefix }
{}

/// Where no branch is counted at a prefix none has a candidate there.
pub fn no_candidate_where_none_is_counted()
    ensures { NoCandidateWhereNoneIsCounted }
{}

/// Where a branch has a candidate something is known.
pub fn something_is_known_at_a_candidate()
    ensures { SomethingIsKnown }
{}
