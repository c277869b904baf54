//! The queue from the best routes to those who read them (NSDI 2005, section 5.1.1): one list of changes, with a place for
//! each reader.
//!
//! A reader has each change that was put since it joined, in that order, and takes them one by one, whenever it has time. A
//! change is kept once, however many are to take it, and goes, with its memory, as soon as nobody is left who hasn't.
//! Contracts see, of each live reader, the list of the changes that it hasn't taken.
//!
//! So a reader has the rows of the link above as they were before these changes: [`Queue::asked`] answers the row before the
//! first of them at a prefix, and only where there is none asks above. What is kept true of them is a law,
//! [`readers_keep_leading`]: where every reader's changes lead from its rows to the best ones, they still do when a change of
//! the best rows is put, when one is taken, and when readers join and leave.
//!
//! To put and to take cost the same however much is kept. An index of the changes by prefix lets a lookup find the first one
//! at a prefix, and a walk the next prefix that has one. It is made where somebody asks: [`Queue::prepare`] puts the changes
//! into it that came since, and it goes as a whole when the last of them is taken. A lookup goes through what the index
//! doesn't have. The outgoing chains of the peers and the forwarding side are the readers.
#![tactic(auto)]

mod entries;
mod index;
mod laws;
mod lookups;
mod places;
mod queue;
mod reader;

pub use laws::{each_reader_has_its_rows, readers_keep_leading, readers_stay_live};
pub use queue::Queue;
pub use reader::Reader;
