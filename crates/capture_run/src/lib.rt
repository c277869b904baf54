//! The command `mrt`: reads an MRT file (RFC 6396), and writes the event file that it gives.
//!
//! [`convert`] takes the records of a source one after another (by the crate mrt_reader), and writes the lines of those that were read
//! before it asks the source for more: so it takes constant memory, and whoever reads the lines has them as soon as the records are
//! there. It ends with the file, at a record where the file is refused, or at the first failure.
#![tactic(auto)]

mod command;
mod conversion;
mod ending;

pub use command::convert;
pub use ending::Ending;
