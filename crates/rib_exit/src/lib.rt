//! The RIB's exit: from the best routes to the forwarding table (NSDI 2005, section 5.2).
//!
//! ```text
//!                      +-- ebgp --+
//! read.rib -- splitter +          +-- ext --+
//!                      +-- ibgp --+         |
//!                                           +-- fib
//!                                  int -----+
//! ```
//!
//! [`RibExit`] owns the links `ebgp`, `ibgp`, `ext` and `fib`. A change that the reader of the forwarding side took of the best
//! routes goes through the splitter on `ebgp` or `ibgp`; their merge by distance is `ext`; and a row of `ext` goes on, by the
//! longest interior route that holds its next hop, into the merge with `int`. A change of `int` comes out on `fib` at once. What it
//! says of next hops comes into force in turns of the task `ext`.
//!
//! No row is kept of any of these links. The best route at a prefix tells those of `ebgp`, `ibgp` and `ext` there, and the reader
//! has it: so the calls that look there are lent what forwarding needs of its routes ([`Reading`]).
//!
//! Each part of a change goes down to the end before the next one begins. Where the best route is another kind of peer's now, the
//! add goes first, with all that it causes, and then the delete: so `ext` changes once, and no prefix is without a row in
//! between.
//!
//! No tree and no reader is named here. What stands on `int` is lent to the calls that look there, and each clause says what it
//! does *for any rows*; so is the register, which knows the exit as client 0. What ties the exit to the routes that the reader
//! has is told over any rows too ([`StandsOver`](specs/Exits.antt)), and a call to which they are lent requires it. Whatever other
//! links the router has, the entries of a call lead by the journal's two consistency rules from the old four links to the new ones
//! ([`LeadsExit`](specs/Steps.antt)).
//!
//! For want of memory a call may stop half way. The value may then only be dropped; of the register it is still true that nothing
//! of another client was changed.
#![tactic(auto)]

mod exit;
pub mod laws;
mod lent;
mod lookups;
mod passing;
mod reading;
mod steps;
mod tasks;

pub use exit::RibExit;
pub use reading::Reading;
