//! What a peer is sent of routes.

ghost use Rattle.std.specs.Prelude.{◌≡◌, IfOk};
ghost use Rattle.filter_bank.specs.Outgoing.{Form};

use addr4::{Family, Memory, Prefix, Row};
use bgp_attr::{Route, SharedAttrs};

/// Tells what one peer is sent of routes.
pub trait Sent<F: Family> {
    /// What the peer is sent of a route. Two are equal where the peer gets the same.
    type Row: Row;

    /// What is sent of a route at a prefix; nothing where it doesn't fit into a message.
    ghost form: { Self → Form Self.Row };

    /// It is said of the family's network.
    fn known(&self)
        ensures { (form self.now).v6 ≡ F.V6 };

    /// What the peer is sent of a route. Memory only for want of memory.
    fn sent(&self, p: &Prefix<F>, row: &Route<SharedAttrs<F>>) -> Result<Option<Self::Row>, Memory>
        ensures { IfOk result (λ sent. sent ≡ (form self.now).made p.now row.now) };
}
