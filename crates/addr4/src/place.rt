//! Places in the order of prefixes.

use crate::prefix::Prefix;

/// A place in the order of prefixes: before all, or at one. `P` is the family's prefix.
#[derive(Clone, Copy)]
pub enum Place<P = Prefix> {
    Before,
    At(P),
}
