//! The entries of the journal.

use crate::link::Link;
use addr4::Prefix;

/// An entry of the journal, over values of one type.
#[derive(Drop)]
pub enum Entry<V, P = Prefix> {
    /// `b LINK`: the link begins, without rows.
    Begin(Link),
    /// `i LINK FROM`: the link begins with the rows of the other one.
    Inherit(Link, Link),
    /// `+ LINK PREFIX NEW`
    Add(Link, P, V),
    /// `- LINK PREFIX OLD`
    Delete(Link, P, V),
    /// `= LINK PREFIX OLD NEW`
    Replace(Link, P, V, V),
    /// `? LINK PREFIX VALUE`: a lookup's answer; `-` for none.
    Asked(Link, P, Option<V>),
    /// `w UPPER LOWER`: the stage between the two links is gone, and the upper link ends.
    Weld(Link, Link),
    /// `e LINK`: the link ends.
    End(Link),
}
