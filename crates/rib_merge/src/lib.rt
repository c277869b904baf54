//! The stage that merges two links: at each prefix the row of lesser distance stands (NSDI 2005, section 5.2).
//!
//! Two interior origins, or two such stages, come together in one link. At a prefix where both links above have a row, the
//! row of lesser administrative distance is the one below, and the left one where the distances are equal. The stage holds
//! no table: beside a change on one link it takes the other link's row at that prefix, for which that link is asked.
//!
//! What is kept true: where a change leads from one link's old map to the new one, what [`take_in`] sends leads from the
//! merged rows to the new merged rows; nothing is sent where they stay the same. [`asked`] and [`next_candidate`] are the
//! same rows, looked up and walked. [`the_lesser_distance_stands`] says what merged rows are worth.
//!
//! What packets are forwarded by is made of interior rows by [`forwarded`], and of a change of them by [`forward`].
#![tactic(auto)]

mod forwarding;
mod laws;
mod merge;
mod ranked;

pub use forwarding::{forward, forwarded};
pub use laws::the_lesser_distance_stands;
pub use merge::{Side, asked, next_candidate, preferred, take_in};
pub use ranked::Ranked;
