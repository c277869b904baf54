//! The form in which the peer of a session is sent routes.

use addr4::{Family, Memory, Prefix, V4};
use bgp_attr::{Route, SharedAttrs};
use filter_bank::Sent;
use peer_out::{PeerOut, SentRoute, Writes};

/// What the peer of a session is sent, for its outgoing filter.
#[derive(Drop)]
pub(crate) struct ToPeer<F: Family = V4> {
    pub(crate) out: PeerOut<F>,
}

impl<F: Writes> Sent<F> for ToPeer<F> {
    type Row = SentRoute<F>;

    ghost use Rattle.out_chain.specs.Chains.{form_of};

    ghost form = { λ s. form_of s.out };

    fn known(&self) {
        self.out.known();
    }

    fn sent(
        &self,
        p: &Prefix<F>,
        row: &Route<SharedAttrs<F>>,
    ) -> Result<Option<SentRoute<F>>, Memory> {
        self.out.sent(*p, row)
    }
}
