//! Two networks of stages, one for each family of addresses, over one declaration of peers.
//!
//! A [`Router`] has IPv4's network, and from `local6` on IPv6's, each a [`router_core::Core`]. [`Router::step`] steps an event of a
//! file; it asks that the event may stand there, as `event_text` judges. An event that names one family goes to its network, and the
//! other is told nothing. `peer`, `up`, `down` and messages go to both, and `idle` runs both (RFC 4760): a message says of the routes
//! of both families, and a session that is lost is lost to both.
//!
//! What contracts see is in `specs`: the networks and what ties them (`Networks`), what each is told (`Told`), and what an event
//! does and says (`Steps`). The lines of both stand in one text ([`Journals`]): first those of IPv4's network, then those of IPv6's.
#![tactic(auto)]

mod journals;
mod laws;
mod router;
mod second;
mod steps;
mod told;

pub use journals::Journals;
pub use router::Router;
