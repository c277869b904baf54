//! The lines of the output.

use crate::entry::Entry;
use crate::link::{Link, Task};
use crate::value::Value;
use addr4::{Addr, Prefix};
use bgp_attr::{Octets, SharedAttrs};

/// Why a line of the event file is refused.
#[derive(Clone, Copy, PartialEq, Eq)]
pub enum Code {
    /// The line is too long, or has a byte that isn't printable ASCII.
    E1,
    /// The grammar has no such line.
    E2,
    /// Something is declared twice.
    E3,
    /// The event stands before `local`.
    E4,
    /// The peer isn't declared.
    E5,
    /// A limit is passed.
    E6,
    /// What holds for the whole file is said too late, or twice.
    E7,
    /// A client of a route reflector is a peer of another AS.
    E8,
    /// A word is of IPv6, and no line has said `local6`.
    E9,
}

/// A line of the output.
#[derive(Drop)]
pub enum Line<S = SharedAttrs, A = Addr, P = Prefix> {
    Journal(Entry<Value<S, A>, P>),
    /// `out K HEX`: an UPDATE is sent to the peer.
    Out(u32, Octets),
    /// `note K HEX`: a NOTIFICATION is sent to the peer.
    Note(u32, Octets),
    /// `row LINK PREFIX VALUE`: a row of a link that is shown.
    Row(Link, P, Value<S, A>),
    /// `rows LINK COUNT`: how many rows a link has that was shown.
    Rows(Link, u128),
    /// `cover ADDR MATCH SUBNET`: the prefix of the longest interior route that holds the address, `-` where there is none,
    /// and the largest subnet with that answer.
    Cover(A, Option<P>, P),
    /// `settled PREFIX yes`, or `settled PREFIX no TASK`: whether the rows at the prefix are final, or the first task that
    /// holds it up.
    Settled(P, Option<Task>),
    /// `work M`: how many turns `work` took.
    Work(u128),
    /// `bound B`: how many turns `idle` takes at most.
    Bound(u128),
    /// `idle M`: how many turns `idle` took.
    Idle(u128),
    /// `ignored`: the event changes nothing.
    Ignored,
    /// `absent`: the link isn't live.
    Absent,
    /// `refused LINE CODE`: the line of this number is refused.
    Refused(u64, Code),
}
