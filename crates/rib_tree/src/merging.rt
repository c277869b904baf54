//! The merges below the branches. They hold no rows: beside a change they ask for the other link's row.

ghost use Rattle.std.specs.Prelude.{◌≡◌, IfOk, OnOk};
ghost use Rattle.journal_text.specs.Journals.{with_entries};
ghost use Rattle.rib_tree.specs.Merges.{sent_entries};
ghost use Rattle.rib_merge.specs.Merging.{MergesOn};
ghost use Rattle.rib_tree.specs.Trees.{low_rows, dyn_rows, interior_distance};
ghost use Rattle.rib_tree.specs.Falls.{merge_below};
ghost use Rattle.rib_tree.specs.Merges.{partner_of, side_of, side_below, rows_beside, sent_if, MergesInto, MergesBelow, IsPassedDown};

use crate::tree::Tree;
use addr4::{Addr, Family, Memory, Prefix, Texts};
use journal_text::{Journal, Link};
use link_change::{Change, Upstream};
use rib_merge::{Side, take_in};
use rib_route::{Interior, Proto};

// The other protocol whose routes come into the same merge.
fn partner(proto: Proto) -> Proto
    ensures { result ≡ partner_of proto }
{
    match proto {
        Proto::Connected => Proto::Static,
        Proto::Static => Proto::Connected,
        Proto::Ospf => Proto::Rip,
        Proto::Rip => Proto::Ospf,
    }
}

// Which side of that merge the protocol's link is.
fn side(proto: Proto) -> Side
    ensures { result ≡ side_of proto }
{
    match proto {
        Proto::Connected | Proto::Ospf => Side::Left,
        Proto::Static | Proto::Rip => Side::Right,
    }
}

// Which side of the merge into `int` the merged link is.
fn next_side(proto: Proto) -> Side
    ensures { result ≡ side_below proto }
{
    match proto {
        Proto::Connected | Proto::Static => Side::Left,
        Proto::Ospf | Proto::Rip => Side::Right,
    }
}

// The link that a protocol's routes are merged into.
fn merged_link(proto: Proto) -> Link
    ensures { result ≡ merge_below proto }
{
    match proto {
        Proto::Connected | Proto::Static => Link::Low,
        Proto::Ospf | Proto::Rip => Link::Dyn,
    }
}

// A lawful change on one side of a merge becomes what goes on below, if something does, where the other side has this row at its
// prefix: where it has none, the change goes on as it came.
fn merge<F: Family>(
    side: Side,
    change: &mut Change<Interior<Addr<F>>, Prefix<F>>,
    other: Option<Interior<Addr<F>>>,
) -> bool
    ensures { MergesOn interior_distance side change.old other (sent_if result change.new) }
{
    if other.is_none() {
        return true;
    }
    merge_beside(side, change, other)
}

// The same beside a row.
#[inline(never)]
fn merge_beside<F: Family>(
    side: Side,
    change: &mut Change<Interior<Addr<F>>, Prefix<F>>,
    other: Option<Interior<Addr<F>>>,
) -> bool
    ensures { MergesOn interior_distance side change.old other (sent_if result change.new) }
{
    let came = Change {
        prefix: change.prefix,
        before: change.before,
        after: change.after,
    };
    match take_in(side, came, other) {
        None => false,
        Some(sent) => {
            *change = sent;
            true
        }
    }
}

impl<F: Texts> Tree<F> {
    /// The row of `low` at a prefix.
    pub(crate) fn low_row(&self, p: Prefix<F>) -> Result<Option<Interior<Addr<F>>>, Memory>
        ensures { IfOk result (λ row. row ≡ low_rows self.now p) }
    {
        rib_merge::asked(&self.connected, &self.statics, p)
    }

    /// The row of `dyn` at a prefix.
    pub(crate) fn dyn_row(&self, p: Prefix<F>) -> Result<Option<Interior<Addr<F>>>, Memory>
        ensures { IfOk result (λ row. row ≡ dyn_rows self.now p) }
    {
        rib_merge::asked(&self.ospf, &self.rip, p)
    }

    // The row at a prefix of the other link that comes into `int` beside the protocol's.
    fn row_beside(&self, proto: Proto, p: Prefix<F>) -> Result<Option<Interior<Addr<F>>>, Memory>
        ensures { IfOk result (λ row. row ≡ rows_beside proto self.now p) }
    {
        match proto {
            Proto::Connected | Proto::Static => self.dyn_row(p),
            Proto::Ospf | Proto::Rip => self.low_row(p),
        }
    }

    // A change on the protocol's link becomes what the first merge below it sends, if that sends one.
    fn merge_into(
        &self,
        proto: Proto,
        change: &mut Change<Interior<Addr<F>>, Prefix<F>>,
    ) -> Result<bool, Memory>
        ensures { IfOk result (λ went. MergesInto proto self.now change.old (sent_if went change.new)) }
    {
        let other = Upstream::asked(self.branch(partner(proto)), &change.prefix)?;
        Ok(merge(side(proto), change, other))
    }

    // A change on the link of the first becomes what the merge into `int` sends, if that sends one.
    fn merge_below(
        &self,
        proto: Proto,
        change: &mut Change<Interior<Addr<F>>, Prefix<F>>,
    ) -> Result<bool, Memory>
        ensures { IfOk result (λ went. MergesBelow proto self.now change.old (sent_if went change.new)) }
    {
        let other = self.row_beside(proto, change.prefix)?;
        Ok(merge(next_side(proto), change, other))
    }

    /// A change on the protocol's link goes down through both merges, whose lines are written. Answers the change on `int`.
    pub(crate) fn pass_down(
        &self,
        proto: Proto,
        change: Change<Interior<Addr<F>>, Prefix<F>>,
        journal: &mut Journal<F>,
    ) -> Result<Option<Change<Interior<Addr<F>>, Prefix<F>>>, Memory>
        ensures { IfOk result (IsPassedDown proto self.now change journal.old journal.new) }
    {
        let mut change = change;
        if !self.merge_into(proto, &mut change)? {
            return Ok(None);
        }
        journal.push_change(merged_link(proto), &change)?;
        if !self.merge_below(proto, &mut change)? {
            return Ok(None);
        }
        journal.push_change(Link::Int, &change)?;
        Ok(Some(change))
    }
}
