//! The event language: what a line of an event file says, and which line is refused.
//!
//! [`parse`] reads one line, whatever was declared. [`admit`] then tells whether the event may stand where it does, by
//! what was [`Declared`] so far: what holds for the whole file, the words of `local`, and of each peer its words, its last session
//! and whether that is up.
//!
//! [`parse_file`] and [`admit_file`] do the same for files with words of IPv6: there a line says an [`Event`] of IPv4's network or
//! of both, or one of IPv6's alone ([`FileEvent`]).
#![tactic(auto)]

mod asking;
mod declared;
mod event;
mod file;
mod grammar;
mod laws;
mod refusals;
mod routes;
mod words;

pub use declared::{Declared, DeclaredPeer};
pub use event::{Event, EventOf, FileEvent, Question, QuestionOf, WholeFile};
pub use file::{admit_file, parse_file};
pub use grammar::parse;
pub use laws::lines_of_ipv4_stay;
pub use refusals::admit;
