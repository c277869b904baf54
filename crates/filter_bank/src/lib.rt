//! The filters of a peer (NSDI 2005, section 5.1.1): [`FilterBank`], between `in.K` and `filt.K`, and [`OutFilter`], between
//! the reader of a session and what its peer is sent.
//!
//! The incoming filter (RFC 4271, section 9.1.1): a route starts with the degree of preference of its LOCAL_PREF (from an
//! internal peer), or 100. It is rejected where its AS path has the local AS, its next hop is the local address, or it was
//! reflected and has been here (RFC 4456, section 8); else the rules judge it. The row below is what the rules that hold at
//! the prefix make of the row above, and nothing else is kept: no copy of the table, only the rules.
//!
//! The outgoing filter (RFC 4271, sections 9.1.3 and 9.2): a route doesn't go back to the peer that it came from, nor from one
//! internal peer to another unless one of them is a client of this speaker (RFC 4456, section 6), nor does a prefix that no
//! host may have (of IPv4 multicast and class E, of IPv6 multicast) go out. An external peer gets no MULTI_EXIT_DISC but one that rules set. Then the rules judge the
//! route, and what the peer is sent of it is asked ([`Sent`]). A session begins with nothing sent, and a walk to its rules.
//!
//! New rules hold nowhere at first: a walk over the prefixes of the link above brings them into force, a candidate each
//! turn, and sends the change that this makes. At any moment a lookup and a message at one prefix go by the same rules,
//! those of the [`Pass`](pass_core::Pass) at that prefix. What a route keeps of its attributes is shared, not copied.
#![tactic(auto)]

mod filter;
mod filtering;
mod laws;
mod out_filter;
mod outgoing;
mod sent;
mod source;

pub use filter::FilterBank;
pub use laws::{
    a_walk_leads, an_edit_keeps_the_rows, exact_unless_held_up, filtered_keeps_attrs,
    nothing_is_sent_at_first, what_goes_out,
};
pub use out_filter::OutFilter;
pub use sent::Sent;
pub use source::RouteUpstream;
