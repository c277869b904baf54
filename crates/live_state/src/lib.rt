//! What is live, and what is decided from it: where a reader begins.
//!
//! All of it is definitions, in the terms of RFC 4271 and of NSDI 2005, and nothing here names a part of the router that
//! computes them. They are read in this order:
//!
//! 1. [`Messages`](specs/Messages.antt): what octets from a peer say, what an UPDATE does, which messages end a session;
//! 2. [`Declared`](specs/Declared.antt): what each event makes of the declarations and the sessions;
//! 3. [`Lives`](specs/Lives.antt): what the events alone make of the live routes, the filters' rules, the interior routes and the
//!    protocols that are redistributed, whatever work was done between them;
//! 4. [`Decided`](specs/Decided.antt): the rows of each link, decided from scratch over what is live;
//! 5. [`Reflected`](specs/Reflected.antt): which peers get a route of another one inside the AS, and who is named on it then;
//! 6. [`Heard`](specs/Heard.antt): what each peer has heard, by reading the octets of the lines that it is sent; and
//!    [`Refreshes`](specs/Refreshes.antt): how it asks for all of that again, and what announces a route to it.
//!
//! The router has these rows after an idle, and on each link that no work holds up at any moment (`router_core`). The functions
//! are laws about the definitions alone: they do nothing, and have a law as their contract, which crates above call for.
#![tactic(auto)]

ghost use Rattle.live_state.specs.Laws.{SessionsEnd, DeclarationsFollow, TheLeastDistanceIsDecided, EachLiveRouteCounts, TheLongestMatchIsDecided, TheLesserDistanceForwards, EachRowForwards};
ghost use Rattle.live_state.specs.Reflected.{ReflectionIsMarked};

use best_path::pick_is_one_of_them;
use bgp_wire::one_of_message_and_fault;
use filter_bank::{filtered_keeps_attrs, what_goes_out};

/// Octets from a peer end its session exactly where they have a fault or are a NOTIFICATION.
pub fn sessions_end()
    ensures { SessionsEnd }
{
    one_of_message_and_fault();
}

/// Which peers are declared, and which sessions are up, is told by the events alone, one after the other.
pub fn declarations_follow()
    ensures { DeclarationsFollow }
{
    sessions_end();
}

/// What is decided of the interior routes of some protocols is a live one, and no live one of theirs there has a lesser
/// administrative distance (NSDI 2005, section 5.2); nothing is decided only where they have none.
pub fn the_least_distance_is_decided()
    ensures least { TheLeastDistanceIsDecided }
    ensures each { EachLiveRouteCounts }
{}

/// The interior route by which a next hop is reached is that of the longest prefix that holds it (RFC 4271, section 9.1.2.1).
pub fn the_longest_match_is_decided()
    ensures { TheLongestMatchIsDecided }
{}

/// Packets are forwarded by the interior or the external route to a prefix, whichever has the lesser administrative distance (NSDI
/// 2005, section 5.2).
pub fn the_lesser_distance_forwards()
    ensures least { TheLesserDistanceForwards }
    ensures each { EachRowForwards }
{}

/// Inside the AS a route of a peer goes to another one only where one of them is a client of this speaker. It names then who brought
/// it into the AS, and this speaker's cluster in front of those that it went through; no other route that is sent names anybody, and
/// none goes back to its peer (RFC 4456, sections 6 and 8).
pub fn routes_are_reflected()
    ensures { ReflectionIsMarked }
{
    pick_is_one_of_them();
    filtered_keeps_attrs();
    what_goes_out();
}
