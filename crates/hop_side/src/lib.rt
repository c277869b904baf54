//! The side of next hops: the resolver of each peer, by the peer's number.
//!
//! [`NextHops`] owns the links `res.K` of all peers, below the links `filt.K`. A change on `filt.K` goes through the resolver of
//! peer K (RFC 4271, section 9.1.2.1; NSDI 2005, section 5.1.1), and comes out on `res.K`; a change of the interior routes makes
//! answers stale, by the interests that the register gave up; and fresh answers come into force in turns, peer by peer. A call
//! goes to the resolver of one peer, in a descent of the map of resolvers; every other resolver stays as it is.
//!
//! No chain and no tree is named here. What stands on the links `filt.K` is lent to the calls that look there, and each clause
//! says what it does *for any rows above*; so is the register, and what ties the resolvers to it ([`AllAgree`](specs/Resolvers.antt))
//! is asked for and given back. Whatever other links the router has, the entries of a call lead by the journal's two
//! consistency rules from the old links `res.K` to the new ones ([`LeadsRes`](specs/Steps.antt)), in whatever region these are.
//!
//! The register knows the resolver of peer K as client K. Interests of clients that are no peer are passed over.
//!
//! For want of memory a call may stop half way. The value may then only be dropped; of the register it is still true that nothing
//! of another client was changed.
#![tactic(auto)]

mod hops;
pub mod laws;
mod lookups;
mod steps;
mod tasks;

pub use hops::NextHops;
pub use tasks::Named;
