//! Readers of a queue.

use std::marker::Model;

/// A reader of a queue. Contracts see the number that the queue knows it by.
///
/// A reader that goes and isn't dropped from its queue keeps its place, and the changes that it hasn't taken, as long as the
/// queue lives.
#[derive(Drop)]
pub struct Reader {
    pub(crate) number: usize,
}

impl Model for Reader {
    ghost use Rattle.std.specs.Prelude.{ℕ};

    ghost Value = { ℕ };

    ghost view = { λ reader. reader.number };
}
