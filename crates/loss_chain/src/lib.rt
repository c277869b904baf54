//! The rows of a source that may be lost: the live ones, and below them a deletion stage for each loss whose rows aren't
//! deleted yet (NSDI 2005, section 5.1.2).
//!
//! A [`LossChain`] holds its lowest [`Stage`]; each deletion stage holds the stage above it in a box, and the live rows, a
//! [`Live`], stand at the top. [`LossChain::lowest`] lends them all. When the source is lost, as when a session ends, its whole table goes into a new stage directly
//! below the top, in one step whatever its size, and the new link begins. When a table is empty, its stage is taken out, and
//! the link above it is welded into the one below.
//!
//! A deletion stage is a [`Deletion`]. Nothing is sent where it is spliced in: the rows on the link below it are those of the lost
//! table and, at every other prefix, those on the link above. From then on each turn of background work takes the least row
//! out and sends its delete. A new row from above at a prefix that is still in the table takes that row's place: below it is
//! a replacement, never a second add.
//!
//! The chain doesn't know whose it is: each call is told its [`Owner`], who names the links and numbers the losses. What a row
//! is on a line of the journal, it says itself ([`Valued`](journal_text::Valued)).
//!
//! What is proved of every call: whatever other links there are, its entries lead by the journal's two consistency rules from
//! the maps of the chain's old links to those of its new ones; a change goes down, link by link, as far as it isn't silent; no
//! prefix has a row both in a lost table and above it. Nothing is kept twice: the map of a link is computed from the tables
//! above it, and lookups walk the chain upward. A call costs one table operation for each stage.
//!
//! For want of memory a call may stop half way. The chain may then only be dropped: nothing is said of it.
#![tactic(auto)]

mod chain;
mod deletion;
mod laws;
mod links;
mod live;
mod lookup;
mod owner;
mod splice;
mod stage;

pub use chain::LossChain;
pub use deletion::Deletion;
pub use laws::{
    each_row_is_fed, live_where_none_is_lost, rows_are_counted, rows_are_listed, turns_take_rows,
};
pub use live::Live;
pub use owner::Owner;
pub use stage::Stage;
