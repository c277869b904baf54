//! What a table, a link or a stage asks of its rows.

ghost use Rattle.std.specs.Prelude.{◌≡◌, ◌↔◌, IsTrue, IfOk};

use crate::memory::Memory;

/// A value that stands at a prefix: it can be copied, and compared with another one.
pub trait Row: Drop {
    /// A row equal to this one.
    fn copy(&self) -> Result<Self, Memory>
        ensures { IfOk result (λ row. row ≡ self.now) };

    /// Whether all of both is equal.
    fn same(&self, other: &Self) -> bool
        ensures { IsTrue result ↔ (self.now ≡ other.now) };
}
