//! The splitter of BGP's best routes, above the RIB (NSDI 2005, section 5.2).
//!
//! The RIB trusts a route from an external peer more than most interior ones, and one from an internal peer less than all. So the
//! best routes come to it on two links: `ebgp` has those from external peers, `ibgp` those from internal ones. Of a route both
//! keep what forwarding needs, its next hop. Routes of this speaker's own go to neither: they came from the RIB.
//!
//! A change of the best routes comes to at most one change on each link ([`Split`]). Where the best route is another kind of peer's
//! now, it comes to an add on the one link and a delete on the other, and the add goes first, with all that follows it. So the
//! prefix is never without a row in between, and of the two, merged by distance, only one changes the merged row
//! ([`a_moved_row_changes_once`]).
//!
//! A [`Splitter`] keeps no row, since the best route at a prefix tells that of either link: who has the routes looks there
//! ([`external_of`], [`on_link`]). The two tables of rows that contracts see are ghost data and take no bytes (told.rt).
//!
//! What is kept true: where a change leads from the best routes to new ones, the changes that go on lead, in their order, from the
//! rows of the two links to the new ones; nothing goes on where both stay; and the tables have these rows.
#![tactic(auto)]

mod laws;
mod split;
mod splitter;
mod told;

pub use laws::{a_moved_row_changes_once, tables_begin_empty};
pub use split::{BgpLink, Split, external_of, external_row, on_link};
pub use splitter::Splitter;
