//! Calls of single crates that no event file makes by themselves: texts in and outside the languages, changes that are applied
//! to a map, the nodes of a table, tables and lookups of IPv6, a chain and exits of IPv6, a queue that is prepared for lookups,
//! what a route becomes on its way to a peer, lines of messages that are read in pieces, streams that fail, records of captures,
//! and the router's own turns. What event files give is shown by the stories of the crate story_tests.
//!
//! The crates that these tests are of have none of their own: a crate with tests is proved once more with them.
#![tactic(auto)]

#[cfg(test)]
mod admitted;
#[cfg(test)]
mod announcements;
#[cfg(test)]
mod attributes;
#[cfg(test)]
mod captures;
#[cfg(test)]
mod changes;
#[cfg(test)]
mod conversions;
#[cfg(test)]
mod cores;
#[cfg(test)]
mod events;
#[cfg(test)]
mod families;
#[cfg(test)]
mod file_events;
#[cfg(test)]
mod file_lines;
#[cfg(test)]
mod file_said;
#[cfg(test)]
mod messages;
#[cfg(test)]
mod prefixes;
#[cfg(test)]
mod queues;
#[cfg(test)]
mod rules;
#[cfg(test)]
mod second_chain;
#[cfg(test)]
mod second_exits;
#[cfg(test)]
mod second_family;
#[cfg(test)]
mod second_octets;
#[cfg(test)]
mod second_told;
#[cfg(test)]
mod streams;
#[cfg(test)]
mod tables;
#[cfg(test)]
mod tries;
#[cfg(test)]
mod unread_lines;
#[cfg(test)]
mod untold;
