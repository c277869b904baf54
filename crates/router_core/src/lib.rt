//! One network of stages at work: events and turns of background work, and the lines that they give.
//!
//! A [`Core`] has a network of stages (`router_network`), and counts events. [`Core::step`] steps an event, and its lines go into
//! the text of a journal; it asks that the event may stand there, as `event_text` judges. [`Core::hear`] does the same with an
//! UPDATE that was read already, as for the networks of several families. [`Core::unit`], [`Core::drain`] and [`Core::idle`] do
//! background work alone: one turn of a task, a phase of an idle, all of it. [`Core::chain`], [`Core::resolver`], [`Core::tree`], [`Core::external`] and [`Core::count`] look
//! at what is there. Each turn's lines are made into text at once, so that a long idle holds few lines.
//!
//! What contracts see is in `router_moments`: the moment (`Moments`), what holds between two steps (`Stands`), what each event
//! does and the lines that it gives (`Blocks`), and the live state (`Lives`), which is what the events alone make of it, whatever
//! work was done or not. Every step obeys the two consistency rules of a journal (NSDI 2005, section 5.1) on all
//! links together. At any moment, at each prefix, each link that no work holds up there has the row that the live state alone
//! asks for (`Scratch`): of a peer the live routes and what the latest rules make of them, of the interior side the live routes
//! of each protocol, those of least distance, and what packets are forwarded by. After an idle no deletion stage stands and no
//! walk is on (`IsSettled`), so every link is. An idle takes no more turns than it announces. What is live, and what is decided
//! from it, is defined in the crate `live_state`. All that stands can be printed and read back, and so can each line that an
//! event gives (`Printable`).
//!
//! For want of memory a call answers `Memory`, and from then on each further call does: what was half done is never seen.
#![tactic(auto)]

mod hears;
mod reads;
mod router;
mod steps;
mod turns;
mod updates;

pub use hears::Hears;
pub use router::Core;
