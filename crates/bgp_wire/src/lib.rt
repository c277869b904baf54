//! BGP messages as octets (RFC 4271; AS numbers of four octets by RFC 6793).
//!
//! [`read_message`] answers what octets are: an UPDATE, a KEEPALIVE, a NOTIFICATION, an OPEN (skipped), a ROUTE-REFRESH
//! (RFC 2918), or the NOTIFICATION that answers their first fault. What octets are is said in `specs/`: the grammar by cases
//! on the whole octets (`Reads`, over frames, fields, prefixes, segments and attributes), and the first fault in the order
//! in which octets are judged (`fault`). [`one_of_message_and_fault`] says that each list of octets has exactly one of both.
//!
//! An [`Update`] has its prefixes as the octets have them, in order and masked. A prefix may be withdrawn and announced in one
//! UPDATE, and class D and E prefixes are announced like others: what that does to the routes is the reader's matter.
//! Attributes are judged and gathered from left to right in one pass, and memory is taken for what is kept alone. With
//! `revised` an UPDATE whose attributes have a fault is a withdraw, in the manner of RFC 7606.
//!
//! [`write_update`] and [`write_notification`] give the one spelling of a message (`update_octets`, `notification_octets`).
//! [`write_announcement`] and [`write_withdrawal`] give that of an UPDATE of one prefix. How many octets it has is told without
//! writing it ([`announcement_length`]), also of attributes that no message can hold. What is counted and written is lent
//! ([`bgp_attr::LentAttrs`]), so that what a peer gets of a route need not be made for that.
//! What a peer can read as it is said is said in `specs/Readable`: all that [`read_message`] answers is so. That what is
//! written is read as it was, the crate `wire_laws` says.
#![tactic(auto)]

mod ascending;
mod attributes;
mod clusters;
mod common;
mod found;
mod gathered;
mod header;
mod laws;
mod message;
mod multiprotocol;
mod notice;
mod numbers;
mod path;
mod prefixes;
mod reading;
mod rules;
mod types;
mod update;
mod values;
mod wire;
mod writing;

pub use laws::{notices_fit, one_of_message_and_fault};
pub use message::{Message, Prefixes, RouteRefresh, Said, Update};
pub use notice::Notice;
pub use reading::read_message;
pub use wire::Wire;
pub use writing::{
    announcement_fits, announcement_length, attributes_length, write_announcement,
    write_notification, write_update, write_withdrawal,
};
