//! The links of a chain: which are live, their rows, and how many rows the chain has.

ghost use Rattle.std.specs.Prelude.{◌≡◌, ◌≤◌, ◌*◌, IfOk, is_some, IsSome, Some};
ghost use Rattle.std.specs.Option.{option_copied, option_map};
ghost use Rattle.addr4.specs.Places.{key_of};
ghost use Rattle.link_change.specs.Rows.{IsNextCandidate, with_rows};
ghost use Rattle.journal_text.specs.Walk.{HasRow};
ghost use Rattle.journal_text.specs.Values.{valued};
ghost use Rattle.loss_chain.specs.Tables.{chain_links, tables_count};
ghost use Rattle.loss_chain.specs.Stages.{rows_of};

use crate::chain::LossChain;
use crate::owner::{Owner, is_same};
use crate::stage::Stage;
use addr4::{Addr, Memory, Place, Prefix, Texts};
use bgp_attr::SharedAttrs;
use journal_text::{Link, Value, Valued};

impl<F: Texts, R: Valued<F>> LossChain<R, F> {
    // The stage whose link out is this one.
    fn stage_out(&self, owner: Owner, link: Link) -> Option<&Stage<R, F>>
        ensures { option_map (λ s. valued R.value (rows_of s)) (option_copied result) ≡ chain_links R.value owner self.now link }
    {
        match owner {
            Owner::Peer(peer) => match link {
                Link::In(number) => {
                    if number == peer {
                        return Some(&self.lowest);
                    }
                    None
                }
                Link::Peer(number, session) => {
                    if number == peer {
                        return self.lowest.above(session);
                    }
                    None
                }
                _ => None,
            },
            Owner::Origin(proto) => match link {
                Link::Org(other) => {
                    if is_same(other, proto) {
                        return Some(&self.lowest);
                    }
                    None
                }
                Link::Lost(other, loss) => {
                    if is_same(other, proto) {
                        return self.lowest.above(loss);
                    }
                    None
                }
                _ => None,
            },
        }
    }

    /// Whether the link is one of the chain's: the lowest, or the one above the deletion stage of a loss.
    pub fn live(&self, owner: Owner, link: Link) -> bool
        ensures { result ≡ is_some (chain_links R.value owner self.now link) }
    {
        self.stage_out(owner, link).is_some()
    }

    /// The row at a prefix of a link of the chain; None where it has none. Memory where the row can't be copied.
    pub fn asked(
        &self,
        owner: Owner,
        link: Link,
        p: Prefix<F>,
    ) -> Result<Option<Value<SharedAttrs<F>, Addr<F>>>, Memory>
        requires { IsSome (chain_links R.value owner self.now link) }
        ensures { IfOk result (HasRow (chain_links R.value owner self.now) link p) }
    {
        let Some(stage) = self.stage_out(owner, link) else {
            unreachable!();
        };
        match stage.asked(p)? {
            Some(row) => Ok(Some(row.to_value()?)),
            None => Ok(None),
        }
    }

    /// The least prefix beyond a place that has a row on a link of the chain.
    pub fn next_candidate(
        &self,
        owner: Owner,
        link: Link,
        after: Place<Prefix<F>>,
    ) -> Option<Prefix<F>>
        requires { IsSome (chain_links R.value owner self.now link) }
        ensures { (rows : _) → chain_links R.value owner self.now link ≡ Some rows → IsNextCandidate (with_rows rows) (key_of after) result }
    {
        let Some(stage) = self.stage_out(owner, link) else {
            unreachable!();
        };
        stage.next_candidate(&after)
    }

    /// How many rows the lowest link has.
    pub fn rows(&self) -> u128
        ensures rows { result ≡ tables_count self.now }
        ensures bound { result ≤ 17 * 18446744073709551616 }
    {
        self.lowest.count()
    }
}
