//! What a change of the best routes comes to.

ghost use Rattle.std.specs.Prelude.{◌≡◌, Some, None};
ghost use Rattle.rib_split.specs.Splitting.{external_of, external_row, link_of, on_link, other, adding, deleting, IsSplitOf};

use addr4::{Addr, Family, Prefix};
use bgp_attr::{Neighbour, Route, SharedAttrs};
use link_change::Change;
use rib_route::External;

/// One of the two links below the splitter.
#[derive(Clone, Copy, PartialEq, Eq)]
pub enum BgpLink {
    /// The routes from external peers.
    Ebgp,
    /// Those from internal ones.
    Ibgp,
}

impl BgpLink {
    /// The other one of the two.
    pub fn other(self) -> BgpLink
        ensures { result ≡ other self }
    {
        match self {
            BgpLink::Ebgp => BgpLink::Ibgp,
            BgpLink::Ibgp => BgpLink::Ebgp,
        }
    }
}

/// What goes on below. `A` and `P` are the family's address and prefix.
#[derive(Drop)]
pub enum Split<A = Addr, P = Prefix> {
    /// Both links stay as they are.
    Neither,
    /// One link changes.
    One(BgpLink, Change<External<A>, P>),
    /// The route moves to this link from the other: first an add on this one, and then a delete on the other.
    Moved(BgpLink, Change<External<A>, P>, Change<External<A>, P>),
}

/// What forwarding needs of a route with this next hop, if a peer sent it.
pub fn external_of<F: Family>(
    from: Option<Neighbour>,
    next_hop: Addr<F>,
) -> Option<External<Addr<F>>>
    ensures { result ≡ external_of from next_hop }
{
    match from {
        None => None,
        Some(peer) => Some(External {
            internal: peer.internal,
            next_hop,
        }),
    }
}

/// What forwarding needs of a best route, if there is one and a peer sent it: the row that it makes on one of the links.
pub fn external_row<F: Family>(route: &Option<Route<SharedAttrs<F>>>) -> Option<External<Addr<F>>>
    ensures { result ≡ external_row route.now }
{
    match route {
        None => None,
        Some(route) => external_of(route.from, route.attrs.attrs().next_hop),
    }
}

// The link that the row stands on.
fn link_of<F: Family>(row: &External<Addr<F>>) -> BgpLink
    ensures { result ≡ link_of row.now }
{
    if row.internal {
        BgpLink::Ibgp
    } else {
        BgpLink::Ebgp
    }
}

/// The row, if it is one of this link.
pub fn on_link<F: Family>(
    link: BgpLink,
    row: Option<External<Addr<F>>>,
) -> Option<External<Addr<F>>>
    ensures { result ≡ on_link link row }
{
    let row = row?;
    let own = match link {
        BgpLink::Ebgp => !row.internal,
        BgpLink::Ibgp => row.internal,
    };
    if own { Some(row) } else { None }
}

// A row comes.
fn adding<F: Family>(
    prefix: Prefix<F>,
    row: External<Addr<F>>,
) -> Change<External<Addr<F>>, Prefix<F>>
    ensures { result ≡ adding prefix row }
{
    Change {
        prefix,
        before: None,
        after: Some(row),
    }
}

// A row goes.
fn deleting<F: Family>(
    prefix: Prefix<F>,
    row: External<Addr<F>>,
) -> Change<External<Addr<F>>, Prefix<F>>
    ensures { result ≡ deleting prefix row }
{
    Change {
        prefix,
        before: Some(row),
        after: None,
    }
}

// A row stands in place of another one, which may be of the other link.
fn replacing<F: Family>(
    prefix: Prefix<F>,
    before: External<Addr<F>>,
    after: External<Addr<F>>,
) -> Split<Addr<F>, Prefix<F>>
    ensures { IsSplitOf prefix (Some before) (Some after) result }
{
    let link = link_of(&after);
    if link_of(&before) != link {
        return Split::Moved(link, adding(prefix, after), deleting(prefix, before));
    }
    match Change::between(prefix, Some(before), Some(after)) {
        None => Split::Neither,
        Some(change) => Split::One(link, change),
    }
}

/// What a change of the best routes comes to.
pub(crate) fn split_change<F: Family>(
    change: &Change<Route<SharedAttrs<F>>, Prefix<F>>,
) -> Split<Addr<F>, Prefix<F>>
    ensures { IsSplitOf change.now.prefix (external_row change.now.before) (external_row change.now.after) result }
{
    let before = external_row(&change.before);
    let after = external_row(&change.after);
    match before {
        None => match after {
            None => Split::Neither,
            Some(after) => Split::One(link_of(&after), adding(change.prefix, after)),
        },
        Some(before) => match after {
            None => Split::One(link_of(&before), deleting(change.prefix, before)),
            Some(after) => replacing(change.prefix, before, after),
        },
    }
}
