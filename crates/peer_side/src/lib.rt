//! The side of the peers: the chain of each peer, by the peer's number.
//!
//! [`Peers`] owns the links `peer.K.S`, `in.K` and `filt.K` of all peers, and the tasks `del.K.S` and `fin.K`. A call goes to the
//! chain of one peer, in a descent of the map of chains; every other chain stays as it is. A feed or a turn may
//! empty one stage; [`Peers::weld`] takes it out, when all that follows the change is written.
//!
//! What is proved of every call, alone: whatever the other regions of the network have, its entries lead by the journal's
//! two consistency rules from the region's old links to its new ones ([`LeadsIn`](../link_region/specs/Regions.antt)); on the
//! links `filt.K` nothing changes but what the call answers; a turn leaves fewer rows lost, or fewer turns of walks; and
//! what holds of each chain between two calls holds after it ([`IsPeers`](specs/Peers.antt)). No other side of the router is
//! named here: `router_core` puts the sides together.
//!
//! For want of memory a call may stop half way. The value may then only be dropped: nothing is said of it.
#![tactic(auto)]

pub mod laws;
mod lookups;
mod peers;
mod steps;
mod tasks;

pub use peers::Peers;
pub use steps::peer_of;
