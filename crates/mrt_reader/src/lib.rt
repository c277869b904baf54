//! MRT files (RFC 6396) as event files.
//!
//! A capture of BGP sessions, as routers and route collectors write them, is records, one after the other. A [`Reader`] takes
//! them from a source, one by one and in constant memory, and gives the lines of an event file: this speaker and the peers by
//! the addresses of the records (`local`, `peer`), their sessions (`up`, `down`) and their messages (`bgp`), and `idle` at the
//! end. Which lines a record gives (`record_lines`) depends on the lines before it alone. What a whole file gives, and where it
//! is refused, is defined in `specs/` (`IsTextOf`). Laws are that a file has one such text ([`texts_are_one`]), how it begins
//! ([`files_are_opened`]), that it has few lines ([`lines_are_few`]), and that each stands where it may
//! ([`lines_are_in_order`]).
#![tactic(auto)]

mod answer;
mod bodies;
mod fields;
mod laws;
mod lines;
mod reader;
mod sessions;
mod unread;

pub use answer::{Code, Next, Stop};
pub use laws::{files_are_opened, lines_are_few, lines_are_in_order, texts_are_one};
pub use reader::Reader;
