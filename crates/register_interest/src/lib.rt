//! The register of the interior routes: the longest match of an address, for which subnet it holds, and who asked.
//!
//! Asked about an address, a [`Register`] answers the longest interior route that holds it, if there is one, and the largest
//! subnet for which that answer holds (NSDI 2005, section 5.2.1): the largest prefix that holds the address, is covered by
//! the match, and overlaps no longer route; where there is no match, that overlaps no route at all. The client that asked may
//! keep the answer for each address of the subnet, and has an interest in it from then on.
//!
//! A change of the route at a prefix reaches exactly the interests whose subnet overlaps the prefix and whose match is none
//! or not longer than it. They are answered and given up, so that the clients ask again; the others stay.
//!
//! What is kept true: each address of a kept interest's subnet has the match that was answered. The rows lie in std's map, by
//! address and then length. The longest match is the last row at or before the prefix of the address with all bits, or else
//! with as many as the address shares with that row, and so on: at most one look-up more than the address has bits that are 1.
//! The subnet takes at most six, since a longer prefix of the address is free where a shorter one is. A change looks up each
//! shorter prefix of its own and what lies within it, and goes through no other interests.
#![tactic(auto)]

mod interests;
pub mod laws;
mod order;
mod register;
mod search;

pub use interests::Interest;
pub use register::{Match, Register};
