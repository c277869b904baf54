//! Filter rules: their grammar, and the first rule that decides.
//!
//! [`read_rules`] reads a list of [`Rule`]s. Each has a [`Condition`] on a route, [`Actions`] and a [`Verdict`]. [`judge`]
//! lets a route pass along the list: it is accepted, perhaps with another preference, metric or number of AS numbers to put
//! in front, or rejected. [`there_is_one_result`] says that its contract leaves one answer alone, and [`the_answer_is_judged`]
//! that a function computes it. Such rules are a speaker's import and export policies (RFC 4271, section 9.1). [`first_word`]
//! parts a text into words.
#![tactic(auto)]

mod grammar;
mod judging;
mod laws;
mod rule;
mod words;

pub use grammar::{BadRule, read_rules};
pub use judging::{accepts, judge};
pub use laws::{the_answer_is_judged, there_is_one_result};
pub use rule::{Action, Actions, Condition, Rule, Rules, Verdict};
pub use words::first_word;
