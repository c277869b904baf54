//! The decision stage: at each prefix the best of the routes of all branches (RFC 4271, section 9.1.2; NSDI 2005, section 5.1).
//!
//! Branch 0 has the local routes, branches 1 to 64 those of the peers, each behind its incoming filter and its resolver.
//! Below them all there is one link, `best`, with the route at each prefix that the decision process picks of all
//! branches' routes there. The stage has no table of routes: the branches keep them.
//!
//! What it keeps ([`Contests`]), at each prefix where a branch has a candidate of a walk: how many branches have one; the
//! branch whose row is the best; and, where several have a row, the [`best_path::Candidate`]s of all of them, in the order of
//! branches. Three octets where one branch has a row. A line of candidates is made when a second branch has a row, and goes when
//! one is left.
//!
//! A branch tells its change ([`Contests::take_in`]). In a line the branch's candidate gives way to its new one, and one
//! comparison of all tells who wins now; who won before is known. Never is the new route compared with the former best one
//! alone: MULTI_EXIT_DISC counts between routes of one neighbour AS only, so a route that wins takes out others, and one that
//! goes lets others back in. Another branch is asked for its row in two cases: where it alone had one at the prefix, for its
//! candidate, and where it wins or has won, for the row that is sent. A lookup asks the winner alone, and a walk of `best`
//! asks no branch: it goes from one prefix that is kept to the next, and to those beside them ([`Branches::next_beside`]),
//! where a walk goes though no branch has a candidate there.
//!
//! What is kept true: that the winners and the lines are those of the branches' rows (`Knows`), and that the counts are those of
//! their candidates, with something kept exactly where one branch has a candidate (`Counts`). Whoever holds the state says each
//! change of a branch's rows to [`Contests::take_in`], after it, and each candidate that comes or goes to [`Contests::note`]:
//! one that comes before its row is decided, one that goes after it. Where a change leads from a branch's old rows to its new
//! ones, and all other branches stay, what is sent leads from the best rows of the old branches to those of the new ones;
//! nothing is sent where they stay the same. [`Best`] is the link as the stages below see it. The state is derived: it says
//! nothing that the branches don't. For want of memory it may be left behind them, and is of no use from then on.
//!
//! The router's core holds the state and lends the branches ([`Branches`]); the queue below takes the changes.
#![tactic(auto)]

mod best;
mod branches;
mod contest;
mod contests;
mod laws;
mod lineup;
mod winners;

pub use best::Best;
pub use branches::Branches;
pub use contests::Contests;
pub use laws::{
    no_best_only_without_routes, no_candidate_where_none_is_counted,
    something_is_known_at_a_candidate, the_best_is_a_branches, the_best_is_of_its_prefix,
    the_best_is_picked,
};
