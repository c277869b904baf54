//! The forwarding table's merge: of interior routes and resolved external ones, by distance (NSDI 2005, section 5.2).
//!
//! An [`ExtInt`] stands between `int` and `ext`, with `fib` below. At a prefix it has of the interior route and the external one
//! the one of lesser administrative distance, as what packets are forwarded by. An external route names a next hop that needn't
//! lie on a subnet of this router; it counts where an interior route holds that address, the longest one: packets go over the
//! interface of that route, to its gateway, or to the next hop itself where it is reached directly.
//!
//! What is known of next hops, and the background work on it, is a [`Resolver`](nexthop_resolver::Resolver)'s, which asks the
//! register as client 0; what comes out of it is merged with the interior rows. No row is kept, only answers: beside a change of
//! one link the other is asked for its row.
//!
//! What is kept true: where a change leads from the rows of either link to new ones, what goes out leads from the forwarding
//! table to the new one, and so does what each turn sends; with nothing left to do the table is the one that the interior rows
//! and the longest matches of the next hops make ([`exact_unless_held_up`]).
#![tactic(auto)]

mod laws;
mod merge;

pub use laws::{
    a_turn_leads, exact_unless_held_up, no_rows_at_first, stale_answers_change_nothing,
};
pub use merge::ExtInt;
