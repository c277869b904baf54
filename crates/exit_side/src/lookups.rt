//! Lookups: whether a link is live, its row at a prefix, and where its rows may stand.

ghost use Rattle.std.specs.Prelude.{◌≡◌, IfOk, IfSome, IsSome, is_some, Some};
ghost use Rattle.std.specs.Option.{option_copied};
ghost use Rattle.addr4.specs.Places.{key_of};
ghost use Rattle.bgp_attr.specs.Routes.{Route as Routed};
ghost use Rattle.link_change.specs.Rows.{Rows, IsNextCandidate, CoversRows};
ghost use Rattle.journal_text.specs.Lines.{Value as Valuation};
ghost use Rattle.journal_text.specs.Links.{owner_of};
ghost use Rattle.journal_text.specs.Walk.{HasRow};
ghost use Rattle.exit_side.specs.Exits.{chain_at, links_by, exit_links, exit_candidates, IsExits};

use crate::exits::Exits;
use addr4::{Addr, Memory, Place, Prefix};
use bgp_attr::{Route, SharedAttrs};
use journal_text::{Link, Value};
use link_change::Upstream;
use out_chain::OutChain;
use peer_out::Writes;

impl<F: Writes> Exits<F> {
    /// The chain that may have the link.
    fn chain_for(&self, link: Link) -> Option<&OutChain<F>>
        ensures links { (best : Rows Routed) → links_by self.now.queue best (option_copied result) link ≡ exit_links self.now best link }
        ensures own { IfSome result (λ chain. Some chain.now ≡ chain_at (owner_of link) self.now) }
    {
        match link {
            Link::Read(number, _) | Link::Outf(number, _) | Link::Adv(number, _) => self.chain(
                number,
            ),
            _ => None,
        }
    }

    /// Whether a link of a peer's exit is live: `read.J.S`, `outf.J.S` and `adv.J.S` of the session
    /// that is up; no other link is.
    pub fn live(&self, link: Link) -> bool
        ensures { (best : Rows Routed) → result ≡ is_some (exit_links self.now best link) }
    {
        match self.chain_for(link) {
            Some(chain) => chain.live(link),
            None => false,
        }
    }

    /// The row at a prefix of a link, over the rows of `best`; None where it has none. Memory where
    /// the row can't be copied.
    pub fn asked<U: Upstream<F, Row = Route<SharedAttrs<F>>>>(
        &self,
        link: Link,
        best: &U,
        prefix: Prefix<F>,
    ) -> Result<Option<Value<SharedAttrs<F>, Addr<F>>>, Memory>
        requires sound { IsExits self.now }
        requires own { IsSome (exit_links self.now (U.rows best.now) link) }
        ensures { IfOk result (HasRow (exit_links self.now (U.rows best.now)) link prefix) }
    {
        let Some(chain) = self.chain_for(link) else {
            unreachable!()
        };
        chain.asked(link, &self.queue, best, prefix)
    }

    /// The least candidate of a link that lies beyond a place: of `read.J.S` and `outf.J.S` those
    /// of `best`, and the prefixes of the changes that the reader hasn't taken, some of which may
    /// have no row; of `adv.J.S` its rows.
    pub fn next_candidate<U: Upstream<F, Row = Route<SharedAttrs<F>>>>(
        &self,
        link: Link,
        best: &U,
        after: Place<Prefix<F>>,
    ) -> Option<Prefix<F>>
        requires sound { IsExits self.now }
        requires own { IsSome (exit_links self.now (U.rows best.now) link) }
        ensures next { IsNextCandidate (exit_candidates self.now (U.candidates best.now) link) (key_of after) result }
        ensures covers { (rows : Rows Valuation) → exit_links self.now (U.rows best.now) link ≡ Some rows → CoversRows (exit_candidates self.now (U.candidates best.now) link) rows }
    {
        let Some(chain) = self.chain_for(link) else {
            unreachable!()
        };
        chain.next_candidate(link, &self.queue, best, after)
    }
}
