//! The next hops that a resolver knows, and what is kept of the answers about them.
//!
//! A resolver asks the interior routes about each next hop that some route names. What it is told holds for a whole subnet,
//! and until the interior routes change there. [`Known`] keeps two answers of each next hop: the one in force, by which the
//! routes that were sent on are resolved, and the fresh one, the latest. A change of the interior routes makes the answers
//! that came with a subnet stale. The resolver then takes the stale next hops one by one, the least address first, and asks
//! again. Where no answer is stale and some fresh one differs from the one in force, it lets all come into force at once.
//!
//! What is kept true: a next hop that isn't stale stands in an index under the subnet with which its fresh answer came, and one
//! that is stale in a set; those whose two answers differ are in another. So no call looks at all known next hops. To learn,
//! answer anew, forget or find one takes a time that grows with the logarithm of their number; to make a subnet's stale, as much
//! for each whose answer came with it; and to settle, as much for each that differs.
//!
//! Only [`learn`](Known::learn), [`fresh`](Known::fresh) and [`stale`](Known::stale) take memory. For want of it the first two
//! change nothing; the third stops between two next hops, of which some are stale then and the others as they were.
//!
//! Contracts see one finite map from addresses to [`Hop`], and say nothing of the sets. The resolver uses this crate, with a
//! value that is an [`Answer`]: what it needs of the interior route that holds a next hop.
//!
//! Beside it [`Tallies`] tells how many rows name each next hop, so that the last one that goes is known without a look at the
//! others. A number means a list of prefixes without repeats. [`laws`] has what follows for both: how the numbers follow the
//! change of a row, and how known next hops keep to what the register would answer now.
#![tactic(auto)]

mod answer;
mod index;
mod known;
pub mod laws;
mod sweeps;
mod tallies;

pub use answer::{Answer, Hop};
pub use known::Known;
pub use tallies::Tallies;
