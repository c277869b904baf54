//! The command `check`: judges the journal in a text, and writes what is to be said of it.
//!
//! [`check`] reads the whole text of a source, line by line, and walks the journal in it (docs/OUTPUT.md, "The rules") until a
//! line breaks a rule or isn't a line of a journal. Then it writes one line: `lawful`, `broken LINE RULE` or
//! `refused LINE J1`. Here too are [`first_line`] and [`without_return`], which cut a text into lines, and
//! [`write_all`] and [`write_text`], which write a text and that of a `Journal` to a sink.
#![tactic(auto)]

mod answer;
mod checking;
mod command;
mod ending;
mod judging;
mod lines;
mod writing;

pub use command::check;
pub use ending::Ending;
pub use lines::{first_line, without_return};
pub use writing::{write_all, write_text};
