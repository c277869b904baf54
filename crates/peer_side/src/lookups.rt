//! Lookups: whether a link is live, its row at a prefix, and where its rows may stand.

ghost use Rattle.std.specs.Prelude.{◌≡◌, IfOk, IfSome, IsSome, is_some, Some};
ghost use Rattle.std.specs.Option.{option_copied};
ghost use Rattle.addr4.specs.Places.{key_of};
ghost use Rattle.link_change.specs.Rows.{Rows, IsNextCandidate, CoversRows};
ghost use Rattle.journal_text.specs.Lines.{Value};
ghost use Rattle.journal_text.specs.Links.{owner_of};
ghost use Rattle.journal_text.specs.Walk.{HasRow};
ghost use Rattle.peer_side.specs.Peers.{chain_at, links_by, peer_links, peer_candidates};

use crate::peers::Peers;
use addr4::{Addr, Memory, Place, Prefix, Texts};
use bgp_attr::SharedAttrs;
use in_chain::Chain;
use journal_text::{Link, Value};

impl<F: Texts> Peers<F> {
    /// The chain that may have the link.
    fn chain_for(&self, link: Link) -> Option<&Chain<F>>
        ensures links { links_by (option_copied result) link ≡ peer_links self.now link }
        ensures own { IfSome result (λ chain. Some chain.now ≡ chain_at (owner_of link) self.now) }
    {
        match link {
            Link::In(k) | Link::Peer(k, _) | Link::Filt(k) => self.chain(k),
            _ => None,
        }
    }

    /// Whether a link of a peer is live.
    pub fn live(&self, link: Link) -> bool
        ensures { result ≡ is_some (peer_links self.now link) }
    {
        match self.chain_for(link) {
            Some(chain) => chain.live(link),
            None => false,
        }
    }

    /// The row at a prefix of a link; None where it has none. Memory where the row can't be copied.
    pub fn asked(
        &self,
        link: Link,
        p: Prefix<F>,
    ) -> Result<Option<Value<SharedAttrs<F>, Addr<F>>>, Memory>
        requires { IsSome (peer_links self.now link) }
        ensures { IfOk result (HasRow (peer_links self.now) link p) }
    {
        let Some(chain) = self.chain_for(link) else {
            unreachable!()
        };
        chain.asked(link, p)
    }

    /// The least candidate of a link that lies beyond a place: of `in.K` and `peer.K.S` its rows, of `filt.K` the rows of
    /// `in.K`, some of which may have none on `filt.K`.
    pub fn next_candidate(&self, link: Link, after: Place<Prefix<F>>) -> Option<Prefix<F>>
        requires { IsSome (peer_links self.now link) }
        ensures next { IsNextCandidate (peer_candidates self.now link) (key_of after) result }
        ensures covers { (rows : _) → peer_links self.now link ≡ Some rows → CoversRows (peer_candidates self.now link) rows }
    {
        let Some(chain) = self.chain_for(link) else {
            unreachable!()
        };
        chain.next_candidate(link, after)
    }
}
