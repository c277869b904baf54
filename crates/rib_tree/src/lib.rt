//! The RIB's tree of the interior routes: the branch of each interior protocol, and below them the merges of their links,
//! down to `int` (NSDI 2005, section 5.2).
//!
//! ```text
//! org.connected --+
//!                 +-- low --+
//! org.static -----+         |
//!                           +-- int
//! org.ospf -------+         |
//!                 +-- dyn --+
//! org.rip --------+
//! ```
//!
//! A [`Tree`] holds a [`Branch`] for each protocol: its live routes, and a deletion stage for each of
//! its losses whose routes aren't deleted yet, in boxes ([`Branch::lowest`] lends them). Two merges bring the four links together in two, `low` and `dyn`, and a
//! third these in `int`: at each prefix the row of the least administrative distance stands. The merges hold no rows:
//! beside a change they ask the other link for its row at the prefix.
//!
//! What is proved of every call: whatever other links there are, its entries lead by the journal's two consistency rules
//! from the maps of the tree's old links to those of its new ones; a change goes down from the branch of its protocol, link
//! by link, as far as it isn't silent; a row of `int` is one of its protocol, and no protocol has a row of lesser distance
//! there ([`the_least_distance_stands`]); the tables have one row less after each turn ([`turns_take_rows`]). Nothing is
//! kept twice: the map of a link is computed from the tables above it, and lookups walk the tree upward.
//!
//! For want of memory a call may stop half way. The tree may then only be dropped: nothing is said of it.
#![tactic(auto)]

mod branch;
mod held;
mod laws;
mod lookups;
mod merging;
mod steps;
mod tree;

pub use branch::Branch;
pub use laws::{
    a_new_tree_stands, each_row_counts, losses_hold_up, losses_keep_rows, rows_are_own,
    the_least_distance_stands, turns_take_rows, welds_keep_rows,
};
pub use tree::Tree;
