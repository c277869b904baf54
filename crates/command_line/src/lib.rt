//! The words of the command line.
//!
//! [`read_command`] takes the words that the program was called with and says which command they are: `run`, `gen SEED COUNT`,
//! either with `--quiet`, `check`, or `mrt`, with or without `--as4`; all other words, and those that ask for help, are none. What the
//! words may be is a definition of the kit's `clap`, and the answer is what `clap`'s own definitions say of the words under it. The
//! crate `replay` does what a command asks for.
#![tactic(auto)]

mod words;

pub use words::{Command, read_command};
