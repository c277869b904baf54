//! What a peer is sent: a route, its attributes in the form in which they go out, and the UPDATE that says a change of them.
//!
//! [`as_sent`] gives a route's attributes as a peer gets them (RFC 4271, sections 5.1 and 9.1.3): an external peer gets the local
//! AS in front of the path, the local address as the next hop and no LOCAL_PREF, an internal one the degree of preference,
//! and of a route reflector with the route of another internal peer who sent it and the reflector's cluster (RFC 4456, section 8). A route whose announcement is longer than a message isn't sent.
//!
//! What is kept is the route itself ([`SentRoute`]): its attributes as they were received, shared with the table in, and the
//! few words that the form takes from elsewhere. Contracts see the form alone. It is lent ([`SentRoute::lent`]): its octets are
//! counted and written from that, and it is made for a value of the journal alone. Two routes are equal where the peer gets the same,
//! though they may differ in what it doesn't get; that is told without making a form. [`PeerOut`] answers what one peer is sent.
//!
//! [`message`] gives the octets of a change of what a peer was sent, an announcement or a withdrawal of one prefix;
//! [`announcement`] those of an announcement of a route that is lent, the same. What is kept true: a neighbour that reads these
//! octets reads that change and nothing else ([`the_peer_reads_the_change`]). It holds for every route whose attributes some
//! neighbour may have said (`MayBeHeard`), which is kept of all live routes. The octets are asked of the family of the routes
//! ([`Writes`]).
//!
//! The outgoing filter of a peer asks what it is sent of each route, the cache below keeps what was sent, and the end of a peer's
//! outgoing chain writes the messages.
#![tactic(auto)]

mod form;
mod laws;
mod octets;
mod peer;
mod sent_route;
mod terms;
mod writes;

pub use form::as_sent;
pub use laws::{
    local_routes_may_be_heard, the_peer_reads_the_change, what_is_sent_is_readable,
    what_was_read_may_be_heard,
};
pub use octets::{announcement, message};
pub use peer::PeerOut;
pub use sent_route::SentRoute;
pub use writes::Writes;
