//! Who reads the best routes.

use crate::exits::Policies;
use addr4::{Texts, V4};
use exit_side::Exits;
use ext_int::ExtInt;
use fanout_queue::Reader;
use rib_exit::RibExit;

/// The peers' exits with the rules of their filters, and the forwarding side down to `fib`: all that reads `best`.
#[derive(Drop)]
pub(crate) struct Readers<F: Texts = V4> {
    pub(crate) outgoing: Policies<F>,
    pub(crate) exits: Exits<F>,
    /// The forwarding side's place in the queue of changes; none before `local`.
    pub(crate) reader: Option<Reader>,
    pub(crate) rib: RibExit<ExtInt<F>>,
}
