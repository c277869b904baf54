//! The links by their regions.
//!
//! A *side* of the router is a part that owns the links of one region, and says what its entries do to these *whatever the
//! other regions have* ([`LeadsIn`](specs/Regions.antt)). So it is proved alone, and a further side changes none of the others.
//! Each link is of one region; the sides and the router that joins them use the table here.
#![tactic(auto)]

mod regions;

pub use regions::{Region, region_of};
