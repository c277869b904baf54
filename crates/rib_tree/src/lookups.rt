//! Lookups, which walk the tree upward.

ghost use Rattle.std.specs.Prelude.{◌≡◌, ℕ, IfOk, IsSome, is_some, option_map, Some};
ghost use Rattle.rib_route.specs.declared.Proto.{Proto};
ghost use Rattle.journal_text.specs.declared.link.Link.TheVariants as names;
ghost use Rattle.addr4.specs.Places.{key_of};
ghost use Rattle.link_change.specs.Rows.{Rows, IsNextCandidate, with_rows};
ghost use Rattle.journal_text.specs.Lines.{Value as Valuation};
ghost use Rattle.journal_text.specs.declared.value.Value.TheVariants as values;
ghost use Rattle.journal_text.specs.Walk.{HasRow};
ghost use Rattle.rib_tree.specs.Trees.{branch_of, low_rows, dyn_rows, int_rows, int_candidates, tree_links};

use crate::tree::Tree;
use addr4::{Addr, Memory, Place, Prefix, Texts, V4};
use bgp_attr::SharedAttrs;
use journal_text::{Link, Value};
use link_change::{Upstream, nearer};
use rib_merge::preferred;
use rib_route::{Interior, Proto};

// The value of a route, if there is one.
fn interior_value<F: Texts>(
    row: Option<Interior<Addr<F>>>,
) -> Option<Value<SharedAttrs<F>, Addr<F>>>
    ensures { result ≡ option_map (λ r. values.Interior r) row }
{
    match row {
        Some(row) => Some(Value::Interior(row)),
        None => None,
    }
}

impl<F: Texts> Tree<F> {
    /// Whether the link is one of the tree's: `org.PROTO`, `org.PROTO.N` above the deletion stage of a protocol's
    /// Nth loss, `low`, `dyn` and `int`.
    pub fn live(&self, link: Link) -> bool
        ensures { result ≡ is_some (tree_links self.now link) }
    {
        match link {
            Link::Org(_) | Link::Low | Link::Dyn | Link::Int => true,
            Link::Lost(proto, loss) => {
                let branch = self.branch(proto);
                branch.live(Link::Lost(branch.proto(), loss))
            }
            _ => false,
        }
    }

    /// The row at a prefix of a link of the tree; None where it has none. Memory only for want of memory.
    pub fn asked(
        &self,
        link: Link,
        p: Prefix<F>,
    ) -> Result<Option<Value<SharedAttrs<F>, Addr<F>>>, Memory>
        requires { IsSome (tree_links self.now link) }
        ensures { IfOk result (HasRow (tree_links self.now) link p) }
    {
        match link {
            Link::Lost(proto, loss) => {
                let branch = self.branch(proto);
                let row = branch.asked(Link::Lost(branch.proto(), loss), p)?;
                Ok(row)
            }
            _ => {
                let row = self.interior_row(link, p)?;
                Ok(interior_value(row))
            }
        }
    }

    // The row at a prefix of a link of the tree, except those of losses.
    fn interior_row(&self, link: Link, p: Prefix<F>) -> Result<Option<Interior<Addr<F>>>, Memory>
        requires some { IsSome (tree_links self.now link) }
        requires no_loss { (proto : Proto) (loss : ℕ) → link ≡ names.Lost proto loss → ⊥ }
        ensures { IfOk result (λ row. HasRow (tree_links self.now) link p (option_map (λ r. values.Interior r) row)) }
    {
        match link {
            Link::Org(proto) => Upstream::asked(self.branch(proto), &p),
            Link::Low => self.low_row(p),
            Link::Dyn => self.dyn_row(p),
            Link::Int => self.int_row(p),
            _ => unreachable!(),
        }
    }

    // The row of `int` at a prefix.
    fn int_row(&self, p: Prefix<F>) -> Result<Option<Interior<Addr<F>>>, Memory>
        ensures { IfOk result (λ row. row ≡ int_rows self.now p) }
    {
        let low = self.low_row(p)?;
        let dynamic = self.dyn_row(p)?;
        Ok(preferred(low, dynamic))
    }

    /// The row of `int` at a prefix. Takes no memory.
    pub fn row(&self, p: Prefix<F>) -> Option<Interior<Addr<F>>>
        ensures { result ≡ int_rows self.now p }
    {
        let low = preferred(self.connected.row(p), self.statics.row(p));
        let dynamic = preferred(self.ospf.row(p), self.rip.row(p));
        preferred(low, dynamic)
    }

    /// The least prefix beyond a place that has a row on a link of the tree.
    pub fn next_candidate(&self, link: Link, after: Place<Prefix<F>>) -> Option<Prefix<F>>
        requires { IsSome (tree_links self.now link) }
        ensures { (rows : Rows Valuation) → tree_links self.now link ≡ Some rows → IsNextCandidate (with_rows rows) (key_of after) result }
    {
        match link {
            Link::Org(proto) => Upstream::next_candidate(self.branch(proto), &after),
            Link::Lost(proto, loss) => {
                let branch = self.branch(proto);
                branch.next_candidate(Link::Lost(branch.proto(), loss), after)
            }
            Link::Low => self.low_next(&after),
            Link::Dyn => self.dyn_next(&after),
            Link::Int => self.int_next(&after),
            _ => unreachable!(),
        }
    }

    // The next row of `low` beyond a place.
    fn low_next(&self, after: &Place<Prefix<F>>) -> Option<Prefix<F>>
        ensures { IsNextCandidate (with_rows (low_rows self.now)) (key_of after.now) result }
    {
        rib_merge::next_candidate(&self.connected, &self.statics, *after)
    }

    // The next row of `dyn` beyond a place.
    fn dyn_next(&self, after: &Place<Prefix<F>>) -> Option<Prefix<F>>
        ensures { IsNextCandidate (with_rows (dyn_rows self.now)) (key_of after.now) result }
    {
        rib_merge::next_candidate(&self.ospf, &self.rip, *after)
    }

    // The next row of `int` beyond a place.
    fn int_next(&self, after: &Place<Prefix<F>>) -> Option<Prefix<F>>
        ensures { IsNextCandidate (with_rows (int_rows self.now)) (key_of after.now) result }
    {
        let low = self.low_next(after);
        let dynamic = self.dyn_next(after);
        nearer(low, dynamic)
    }
}

impl<F: Texts> Upstream<F> for Tree<F> {
    type Row = Interior<Addr<F>>;

    ghost rows = { int_rows };

    ghost candidates = { int_candidates };

    fn asked(&self, p: &Prefix<F>) -> Result<Option<Interior<Addr<F>>>, Memory> {
        self.int_row(*p)
    }

    fn next_candidate(&self, after: &Place<Prefix<F>>) -> Option<Prefix<F>> {
        self.int_next(after)
    }
}
