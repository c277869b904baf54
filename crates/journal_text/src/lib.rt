//! The output: its links, entries and lines, and their texts.
//!
//! A [`Link`] stands between two stages, a [`Task`] is a stage's work. What goes over a link is told by an [`Entry`]: a
//! link begins or ends, a row of it changes, a lookup is answered. A [`Line`] is an entry or one of the other lines of the
//! output. The stages push typed lines to a [`Journal`], which makes their text when it is flushed.
//!
//! In `specs/` stands what it means that a journal obeys the two consistency rules: its entries are walked with one map of
//! rows for each live link ([`Walk`](specs/Walk.antt)). Text formats stand here and nowhere else.
#![tactic(auto)]

mod answers;
mod attributes;
mod entry;
mod front;
mod journal;
mod kept;
mod laws;
mod line;
mod lines;
mod link;
mod names;
mod reader;
mod reading;
mod task_reading;
mod texts;
mod value;
mod valued;

pub use entry::Entry;
pub use journal::Journal;
pub use laws::{
    changes_lead, entries_are_appended, journals_join, link_names_are_read_back,
    links_are_set_in_either_order, read_links_are_named, same_links, some_lines_are_of_no_family,
    task_names_are_read_back,
};
pub use line::{Code, Line};
pub use lines::push_line;
pub use link::{Link, Task};
pub use reader::TextReader;
pub use value::Value;
pub use valued::{Valued, value_of};
