//! A peer's incoming chain: the live routes of the present session, below them a deletion stage for each lost session
//! whose routes aren't deleted yet (NSDI 2005, section 5.1.2), and at the bottom the incoming filter (section 5.1.1).
//!
//! A [`Chain`] holds the lowest stage of those whose links carry attributes ([`LossChain`](loss_chain::LossChain)); each
//! deletion stage holds the stage above it in a box, and the routes of the present session stand at the top.
//! [`Chain::lowest`] lends them. The link out of the lowest stage is `in.K`, K being the peer's number; the link above the
//! deletion stage of session S is `peer.K.S`.
//!
//! The filter turns attributes into routes, on `filt.K`: it is never spliced, and so it is a field of the chain beside the
//! boxes. It keeps rules and no rows. New rules hold nowhere at first: a walk over the prefixes of `in.K` brings them into
//! force, one each turn of the task `fin.K`, and sends what that changes on `filt.K`.
//!
//! What is proved of every call: whatever other links there are, its entries lead by the journal's two consistency rules
//! from the maps of the chain's old links to those of its new ones; a change goes down, link by link, as far as it isn't
//! silent; no prefix has a row both in a lost table and above it; a turn of a walk leaves fewer turns, and there are at
//! most two more than twice the rows of `in.K` ([`turns_are_bounded`]). Nothing is kept twice: the map of a link is
//! computed from the tables above it and the rules, and lookups walk the chain upward. A call costs one table operation
//! for each stage, and one judgement of the rules.
//!
//! For want of memory a call may stop half way. The chain may then only be dropped: nothing is said of it.
#![tactic(auto)]

mod chain;
mod laws;
mod lookups;
mod turns;

pub use chain::Chain;
pub use laws::{
    candidates_are_counted, candidates_cover_rows, candidates_stay, turns_are_bounded,
    turns_take_candidates,
};
