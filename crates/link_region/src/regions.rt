//! The links by their regions.

ghost use Rattle.std.specs.Prelude.{◌≡◌};
ghost use Rattle.link_region.specs.Regions.{region_of};

use journal_text::Link;

/// The regions of the network. Each link is of one region, and each region has a part of the router that gives its links.
#[derive(Clone, Copy, PartialEq, Eq)]
pub enum Region {
    /// The peers' chains, down to the links `filt.K`.
    Inward,
    /// The links `res.K`.
    Resolved,
    /// The link `best`.
    Decided,
    /// The interior routes, down to `int`.
    InteriorRoutes,
    /// The routes of this speaker's own, which redistribution makes: the link `red`.
    Redistributed,
    /// What the forwarding side reads of `best`.
    External,
    /// The external routes and the forwarding table: from `ebgp` and `ibgp` down to `fib`.
    Forward,
    /// The peers' exits.
    Outward,
}

/// The region of a link.
pub fn region_of(link: Link) -> Region
    ensures { result ≡ region_of link }
{
    match link {
        Link::In(_) | Link::Peer(_, _) | Link::Filt(_) => Region::Inward,
        Link::Res(_) => Region::Resolved,
        Link::Org(_) | Link::Lost(_, _) | Link::Low | Link::Dyn | Link::Int =>
            Region::InteriorRoutes,
        Link::Red => Region::Redistributed,
        Link::Best => Region::Decided,
        Link::ReadRib => Region::External,
        Link::Ebgp | Link::Ibgp | Link::Ext | Link::Fib => Region::Forward,
        Link::Read(_, _) | Link::Outf(_, _) | Link::Adv(_, _) => Region::Outward,
    }
}
