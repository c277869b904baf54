//! Rows that name a next hop go on by what the interior routes say of it (RFC 4271, section 9.1.2.1; NSDI 2005, section 5.1.1).
//!
//! A [`Resolver`] stands between two links. A row above names a next hop, and goes on where an interior route holds that
//! address, the longest one: a peer's route with the metric of the interior route (`filt.K` to `res.K`), an external route as
//! what packets are forwarded by, over the interface and gateway of the interior route (`ext` to `fib`). What is kept of an
//! answer, and what becomes of a row by it, is told by the rows themselves, [`Via`] and [`FromMatch`]; the rest is the same.
//!
//! Known are exactly the next hops that rows above name. One that comes is asked for at once, and the register keeps the
//! resolver's interest in the subnet for which the answer holds; with the last row that names it, it is forgotten, and so is
//! the interest, unless another next hop has its answer with it. A change of the interior routes that reaches an interest makes
//! the answers of its subnet stale ([`Resolver::invalidate`]). Nothing on the link below changes then.
//!
//! Fresh answers come into force in slices of background work, by the first of three cases that holds:
//!
//! 1. A walk is on: it goes to the next candidate of the link above, where the fresh answers hold from now on. Where there is
//!    none, they come into force everywhere, also of next hops that are stale again, and the walk ends.
//! 2. A next hop is stale: the least one is asked for again.
//! 3. A fresh answer differs from the one in force: a walk begins, with its first step.
//!
//! So nothing is asked during a walk but for next hops that come, which have one answer for both. At any moment a message and a
//! lookup at one prefix go by the same answers: up to the place of a walk by the fresh ones, beyond it by those in force.
//!
//! What is kept true: the next hops that rows name are those that are known. Of the register each call that is given it asks,
//! and keeps, that each next hop that isn't stale has its present answer and its interest, and that no interest of this client
//! is without such a next hop; it changes no interest of another client, and no row.
#![tactic(auto)]

mod asking;
pub mod laws;
mod naming;
mod resolver;
mod rows;
mod turns;

pub use resolver::Resolver;
pub use rows::{FromMatch, Metric, Outlet, Via, Way};
