//! Laws of what a peer is sent, for the proofs of the crates above. Each is a function that does nothing, whose contract is the
//! law.

ghost use Rattle.peer_out.specs.Laws.{PeerReadsChange, SentIsReadable, ReadMayBeHeard, BareMayBeHeard};

/// A peer reads the octets of a change as that change.
pub fn the_peer_reads_the_change()
    ensures { PeerReadsChange }
{}

/// The peer reads what is sent as it is, and in one message.
pub fn what_is_sent_is_readable()
    ensures { SentIsReadable }
{}

/// What was read of a neighbour's octets may be heard.
pub fn what_was_read_may_be_heard()
    ensures { ReadMayBeHeard }
{}

/// The attributes of a route of this speaker's own may be heard.
pub fn local_routes_may_be_heard()
    ensures { BareMayBeHeard }
{}
