//! The side of the exits: one queue of the changes of `best`, and by number the outgoing chain of
//! each peer that is up.
//!
//! [`Exits`] owns the links `read.J.S`, `outf.J.S` and `adv.J.S` of all peers, below the link
//! `best`, and the tasks `out.J` and `ref.J`. A change of `best` joins the queue once, for all readers. A
//! session that begins joins it with a reader of its own, whose link inherits `best`; in turns,
//! peer by peer, its chain takes a change that its reader hasn't taken, or takes the walk of its
//! outgoing filter on (NSDI 2005, section 5.1). So a slow peer falls behind alone. What comes out
//! on `adv.J.S` is said to the peer by one UPDATE, whose line stands behind the change. A call goes
//! to the chain of one peer, in a descent of the map of chains; every other chain stays as it is,
//! and so does what its reader hasn't taken.
//!
//! A peer that is up may ask for all rows again ([`Exits::refresh`]); turns of `ref.J`
//! ([`Exits::resend`]) then announce them once more. They change no link and nothing that a reader
//! hasn't taken ([`laws::a_refresh_changes_nothing_else`]).
//!
//! The rows of `best` are lent to the calls that look there, and each clause says what it does *for
//! any rows of `best`*: what ties the exits to these ([`AllStand`](specs/Exits.antt)) is asked for
//! and given back. Whatever other links the router has, the entries of a call lead by the journal's
//! two consistency rules from the old links of the exits to the new ones
//! ([`LeadsExits`](specs/Steps.antt)), in whatever region these are. Readers of the queue that are
//! no peer's are let be: nothing here says that there are none.
//!
//! For want of memory a call may stop half way, [`put`](Exits::put), `join` and `take` aside, which
//! then change nothing. The value may then only be dropped: nothing is said of it.
#![tactic(auto)]

mod exits;
pub mod laws;
mod lookups;
mod refreshes;
mod steps;
mod strangers;
mod tasks;

pub use exits::Exits;
