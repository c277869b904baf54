//! Generated events: the text of a seed.
//!
//! A seed and a count give an event file: a speaker with four peers that are up, that many events which draws of a linear
//! congruential generator choose, and `idle`. What the draws choose (`event_of`), each event's line (`event_words`) and the
//! whole text (`text`) are defined in `specs/`. A [`Generator`] writes the text piece by piece, so that it never stands whole
//! in memory, and a [`GeneratedSource`] is read as any other source of events.
#![tactic(auto)]

mod drawn;
mod draws;
mod generator;
mod laws;
mod lines;
mod source;

pub use drawn::{Drawn, Work};
pub use generator::Generator;
pub use laws::lines_are_read;
pub use source::GeneratedSource;
