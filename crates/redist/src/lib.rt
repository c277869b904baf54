//! Redistribution: the interior routes that this speaker announces as its own (RFC 4271, section 9.4).
//!
//! A [`Redist`] stands between `int` and the decision, with `red` below it. It holds a set of interior protocols, [`Protos`]. At
//! each prefix whose interior route is of one of them there is a route of this speaker's own: of incomplete origin, with an
//! empty path, and with the local address as its next hop. Every such route is the same, whatever the interior route is, so a
//! change from one protocol of the set to another changes nothing below.
//!
//! To turn a protocol on or off changes nothing at once: a walk over the prefixes of `int` brings the new set into force, a
//! candidate each turn, and sends the change that this makes. At any moment a lookup and a message at one prefix go by the same
//! set, that of the [`Pass`](pass_core::Pass) at that prefix. Each edit is of the latest set, the one that waits for the end of
//! a walk if one does. No table is kept, only the sets; all routes share the attributes, which are made once.
//!
//! What is kept true: where a change leads from one map of `int` to another, what [`Redist::take_in`] sends leads from the old
//! map of `red` to the new one, and so does what each turn sends. How many turns are left is told by the laws of `pass_core`.
#![tactic(auto)]

mod laws;
mod local;
mod protos;
mod stage;

pub use laws::{a_set_has_what_is_put, nothing_at_first, only_own_routes};
pub use protos::Protos;
pub use stage::Redist;
