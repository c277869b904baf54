//! A network of stages: the router's tables of one family of addresses, and what the events that name it do.
//!
//! A [`Network`] has what was declared, a chain of stages for each peer, the tree of the interior routes, the register of
//! these, the next hops, redistribution, the exits to the peers and the forwarding table. Each event of one network is a call
//! of its own ([`Network::peer`], [`Network::route_add`], ..), which gives its lines into a journal; so are a turn of a task
//! ([`Network::turn`]), a phase of an idle ([`Network::drain`]) and all of it ([`Network::idle`]). What the decision knows at
//! each prefix is kept beside it ([`decision::Contests`]) and goes into each call that may decide.
//!
//! What contracts see is the moment of `router_moments`; `Informed` says that the decision's state is that of the moment. Which
//! events may come, and what a message holds, is the crate `router_core`'s matter.
#![tactic(auto)]

mod above;
mod best;
mod candidates;
mod declarations;
mod exits;
mod forwarding;
mod hops;
mod lookups;
mod network;
mod own;
mod peers;
mod protocols;
mod readers;
mod reads;
mod routes;
mod sessions;
mod settled;
mod shown;
mod steps;
mod turns;

pub use network::Network;
pub use sessions::again;
pub use settled::AsksLosses;
pub use steps::ignored;
