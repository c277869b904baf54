//! The judge of a printed journal: whether it obeys the two consistency rules (NSDI 2005, "Designing Extensible IP Router
//! Software", section 5.1), whoever wrote it.
//!
//! A [`Walk`] takes the journal line by line, with one map of rows for each live link, and says after each line what is
//! known: all is lawful so far, or which line was the first to break which rule, or to be no line of a journal. A line is
//! an entry, or one of the other lines of the output, which say nothing of links and are skipped. Values are texts here,
//! into which nothing looks. A journal may be of two networks, IPv4's and IPv6's: an entry is of the one that its links are
//! of, and its prefix is too; the entries of each are judged by themselves.
#![tactic(auto)]

mod checked;
mod entries;
mod laws;
mod links;
mod prefixes;
mod reading;
mod rows;
mod steps;
mod text;
mod walk;

pub use checked::Checked;
pub use laws::{printed_lines_are_read_back, there_is_one_answer};
pub use walk::Walk;
