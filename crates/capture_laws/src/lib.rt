//! Laws of the event files that captures give: functions that do nothing, whose contracts are the laws.
//!
//! [`lines_are_accepted`] says that each line that the records of a capture give is read back by the reading of event files
//! (event_text) as the event that it is, and that the event may stand where it does, whatever messages make of the sessions. Who runs
//! event files (the crate replay) concludes from it that no line of a capture is refused.
#![tactic(auto)]

mod laws;

pub use laws::lines_are_accepted;
