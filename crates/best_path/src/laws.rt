//! Laws of the decision, for the proofs of the crates above. Each is a function that does nothing, whose contract is the law.

ghost use Rattle.best_path.specs.Laws.{PickIsOneOfThem, NoneOnlyOfNothing, OneIsItsOwnBest, AtMostOneIsLeft, OrderDoesNotMatter, EightStepsLeaveTheSame, EightStepsPickTheSame};

/// The best route is one of the list.
pub fn pick_is_one_of_them()
    ensures { PickIsOneOfThem }
{}

/// There is a best wherever there is a route.
pub fn none_only_of_nothing()
    ensures { NoneOnlyOfNothing }
{}

/// One route is its own best.
pub fn one_is_its_own_best()
    ensures { OneIsItsOwnBest }
{}

/// Of peers' routes the nine steps leave at most one, since the peers' addresses differ.
pub fn at_most_one_is_left()
    ensures { AtMostOneIsLeft }
{}

/// In whatever order the routes stand, the same one is the best, where at most one is local and the peers' addresses differ.
pub fn order_does_not_matter()
    ensures { OrderDoesNotMatter }
{}

/// Where no route has an ORIGINATOR_ID or a CLUSTER_LIST, as without route reflectors, the nine steps decide as the eight of
/// RFC 4271, section 9.1.2.2, do.
pub fn eight_steps_without_reflectors()
    ensures left { EightStepsLeaveTheSame }
    ensures best { EightStepsPickTheSame }
{}
