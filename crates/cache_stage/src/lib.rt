//! The stage that keeps the rows that were sent.
//!
//! The last stage of a peer's outgoing chain (NSDI 2005, section 5.1): a [`Cache`] takes each change of what the peer is sent, makes
//! the row after it the one that it keeps, and passes the change on as it is. So it holds exactly the rows that were sent: the
//! link below has the rows of the link above, and a lookup answers what the peer has without asking upward.
//!
//! What a change brings is passed on; the row that is kept beside it is a copy, which takes no memory of its own where rows share
//! what they hold, as those of BGP do.
#![tactic(auto)]

mod cache;

pub use cache::Cache;
