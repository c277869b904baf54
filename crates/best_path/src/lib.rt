//! The decision process between the routes to one prefix (RFC 4271, section 9.1.2.2; RFC 4456, section 9).
//!
//! A route to a prefix stands beside those of other peers. A [`Candidate`] is what the decision compares of one route:
//! numbers, computed once from a lent route, so that no route is copied to be compared and a path is counted once.
//! [`best`] gives the place of the best of a list of candidates: a local route if there is one, else what nine steps
//! leave. Each step is a filter over the whole list that the one before left. That matters for MULTI_EXIT_DISC, which
//! counts between routes of one neighbour AS alone: a decision that compares a new route with the former best one only
//! would depend on the order in which routes came.
//!
//! The steps before MULTI_EXIT_DISC are each by a key, and so are those behind it: where one leads in several such steps,
//! one after the other, they leave whom it does not go before in the first of them in which both differ. So three
//! comparisons do for nine filters, and two passes over the list are enough (`decide.rt`).
//!
//! What is kept true: the definitions (`specs/Steps.antt`) speak of routes, in the words of the standard, and the place
//! that [`best`] answers is that of the route which they pick. No memory is taken. The laws say that the best is one of the
//! list, that there is one wherever there is a route, that the order of the list does not matter, and that the eight steps
//! of RFC 4271 decide where no route was reflected. The stage `decision` uses this crate.
#![tactic(auto)]

mod candidate;
mod decide;
mod laws;
mod step;

pub use candidate::Candidate;
pub use decide::{MOST, best};
pub use laws::{
    at_most_one_is_left, eight_steps_without_reflectors, none_only_of_nothing, one_is_its_own_best,
    order_does_not_matter, pick_is_one_of_them,
};
