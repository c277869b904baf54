//! The outgoing chain of a peer's session: from what its reader takes out of the fanout queue to the octets that the peer is
//! sent (NSDI 2005, section 5.1).
//!
//! An [`OutChain`] has the stages from top to bottom: a reader of the queue, whose link is `read.J.S` (J is the peer's number,
//! S that of the session), the outgoing filter, whose link is `outf.J.S`, and the cache of what was sent, whose link is
//! `adv.J.S`. Each change on `adv.J.S` is said to the peer by one UPDATE.
//!
//! A session begins with `read.J.S` as a copy of `best`, nothing sent, and a walk of the filter over the best rows. A turn takes the
//! first change that the reader hasn't taken, and passes it down, by the rules that hold at its prefix. Where the reader has taken
//! all, a turn takes the walk to the next candidate. So a slow peer falls behind, and the others don't wait for it.
//!
//! A peer may ask for all rows again ([`OutChain::refresh`], RFC 2918): then turns of another task walk over what was sent
//! ([`OutChain::resend`]). Each announces the least row beyond the walk's place once more, by the octets that announced it, and
//! changes no link; the walk is over as soon as no row lies beyond its place ([`a_refresh_changes_nothing`]).
//!
//! What is proved of every call: whatever other links there are, its entries lead by the journal's two consistency rules from the
//! maps of the session's old links to those of its new ones; what was sent is exactly what the filter makes of the rows that the
//! reader has; one message follows each change of it, and the peer reads its octets as that change and as nothing else; every
//! other reader of the queue keeps what it hasn't taken. Without work the peer has what the latest rules make of the best rows
//! ([`unless_held_up_all_is_sent`]).
//!
//! The best rows are lent to the calls that need them, and so is the queue. Nothing is kept twice but what was sent: a withdrawal
//! has to name it, and the peer can't be asked. Of that the routes are kept, which share their attributes with the table in, and lend
//! the attributes that the peer gets, which contracts see: a turn takes no memory but a row's share, the message, and the values of
//! the journal's entries where there are any. For want of memory a call may stop half way. The chain may then only be
//! dropped: nothing is said of it.
#![tactic(auto)]

mod chain;
mod laws;
mod lookups;
mod refresh;
mod to_peer;
mod turns;

pub use chain::OutChain;
pub use laws::{
    a_refresh_changes_nothing, a_session_stands, out_turns_are_left, refresh_turns_are_left,
    the_best_row_tells, unless_held_up_all_is_sent,
};
