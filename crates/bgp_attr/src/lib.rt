//! What is kept of a BGP route: its attributes, and who sent it.
//!
//! [`Attrs`] is what an UPDATE says of a route (RFC 4271, section 4.3 and 5), as far as this speaker keeps it: unrecognized
//! optional non-transitive attributes are gone by then. [`SharedAttrs`] lends the same attributes to all routes of one
//! UPDATE. [`Route`] is a row behind the incoming filter. [`Speaker`], [`Neighbour`] and [`Profile`] are the words of the
//! configuration; what those must be (`IsSpeaker`, `IsNeighbourOf`) is said here for all who take them. Contracts see a path as its list of
//! segments and octets as a list of numbers, so that two values are equal exactly where everything in them is.
//!
//! What few routes have, unrecognized attributes and what route reflectors added ([`Reflection`], RFC 4456), stands in boxes of its
//! own: a route without them has two pointers of nothing.
//!
//! An [`AsPath`] answers what the decision and the filters ask of it (its hops, its first AS, whether it has an AS), and
//! gives the path that is sent to an external peer, or says whether two such paths are the same. It is one block of words,
//! read segment by segment ([`Segments`]) and built number by number ([`PathBuilder`]). Attributes and routes are
//! rows of tables and links ([`addr4::Row`]): they are copied, a route by sharing its attributes, and compared as a whole.
//! [`LentAttrs`] is [`Attrs`] lent, where an AS may stand in front of the path ([`LentPath`]) and a cluster in front of the others
//! ([`LentReflection`]): so what a peer gets of a route is counted and written from what is kept of the route, without making it.
//! `bgp_wire` reads and writes the attributes of messages, the stages above pass routes on.
#![tactic(auto)]

mod attrs;
mod cluster_list;
mod fronted;
mod lent;
mod marks;
mod octets;
mod path;
mod reflection;
mod route;
mod speaker;
mod unrecognized;
mod words;

pub use attrs::{Aggregator, Attrs, Origin, SharedAttrs};
pub use cluster_list::ClusterList;
pub use lent::{LentAttrs, LentPath, LentReflection, LentSegment};
pub use octets::Octets;
pub use path::{AsPath, Numbers, PathBuilder, Segment, SegmentKind, Segments};
pub use reflection::Reflection;
pub use route::Route;
pub use speaker::{Neighbour, Profile, Speaker};
pub use unrecognized::{Unrecognized, UnrecognizedAttrs};
