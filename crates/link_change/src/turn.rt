//! What a turn of background work came to.

ghost use Rattle.std.specs.Prelude.{◌≡◌};
ghost use Rattle.link_change.specs.Turns.{taken_turn};

use crate::change::Change;
use addr4::{Family, Prefix};

/// One turn of a task.
#[derive(Drop)]
pub enum Turn<R, P = Prefix> {
    /// The task has no work.
    Nothing,
    /// A turn was taken, and no change came out on the last link.
    Quiet,
    /// A turn was taken, and this change came out on the last link.
    Sent(Change<R, P>),
}

impl<R, F: Family> Turn<R, Prefix<F>> {
    /// The turn that was taken and came to this on the last link.
    pub fn taken(sent: Option<Change<R, Prefix<F>>>) -> Turn<R, Prefix<F>>
        ensures { result ≡ taken_turn sent }
    {
        match sent {
            Some(change) => Turn::Sent(change),
            None => Turn::Quiet,
        }
    }
}
