//! Where the program's input comes from and where its output goes.
//!
//! [`Source`] and [`Sink`] are what the program asks of its input and its output: bytes that come and go, perhaps told, and a
//! count of faults that never falls. A call fails only where its count rose, so a caller's answer "a read failed" or "a
//! write failed" always has its cause outside. [`MemorySource`] and [`MemorySink`] stand for files in tests, and fail at
//! the calls that they are told to fail at; [`SureSource`] and [`SureSink`] never fail. [`Reading`] and [`Writing`] make a
//! source of any reader and a sink of any writer.
#![tactic(auto)]

mod memory;
mod streams;
mod sure;
mod traits;

pub use memory::{MemorySink, MemorySource};
pub use streams::{Reading, Writing};
pub use sure::{SureSink, SureSource};
pub use traits::{Failed, Sink, Source};
