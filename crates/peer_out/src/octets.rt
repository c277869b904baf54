//! The message that says a change.

ghost use Rattle.std.specs.Prelude.{◌≡◌, ◌≤◌, IfOk, length};
ghost use Rattle.std.specs.Option.{ForSome};
ghost use Rattle.bgp_attr.specs.Speakers.{IsProfileOf};
ghost use Rattle.bgp_wire.specs.Readable.{announcing};
ghost use Rattle.bgp_wire.specs.Spelling.{update_octets};
ghost use Rattle.peer_out.specs.Changes.{saying, message_octets, IsReadAs, IsSentOf};

use crate::sent_route::SentRoute;
use crate::writes::{Writes, announced, withdrawn};
use addr4::{Memory, Prefix};
use bgp_attr::Profile;
use link_change::Change;
use std::alloc::Global;

/// The octets of the UPDATE that announces one prefix with a route that a peer is sent ([`crate::as_sent`]): those of every change
/// after which the prefix has it. They are written from what the route lends, and take the only memory. Memory only for want of it.
pub fn announcement<F: Writes>(
    alloc: Global,
    profile: Profile,
    prefix: Prefix<F>,
    sent: &SentRoute<F>,
    external: bool,
) -> Result<Vec<u8>, Memory>
    requires of { IsProfileOf F.V6 profile }
    requires sent { IsSentOf profile external prefix sent.now }
    ensures octets { IfOk result (λ octets. octets.items ≡ update_octets F.V6 profile.as4 (announcing prefix sent.now)) }
    ensures short { IfOk result (λ octets. length octets.items ≤ 4096) }
    // The peer reads the announcement, and nothing else.
    ensures reads { IfOk result (λ octets. IsReadAs profile external octets.items (announcing prefix sent.now)) }
{
    let attrs = sent.lent();
    announced(alloc, profile, prefix, &attrs, external)
}

/// The octets of the UPDATE that says a change of what a peer was sent (RFC 4271, section 4.3): one prefix is announced with the
/// attributes after the change, or withdrawn. The attributes are those that [`crate::as_sent`] answers for that prefix and this
/// peer, of some route that may be heard. The octets take the only memory. Memory only for want of it.
pub fn message<F: Writes>(
    alloc: Global,
    profile: Profile,
    change: &Change<SentRoute<F>, Prefix<F>>,
    external: bool,
) -> Result<Vec<u8>, Memory>
    requires of { IsProfileOf F.V6 profile }
    requires sent { ForSome change.now.after (IsSentOf profile external change.now.prefix) }
    // Of all octets that read alike, the one spelling.
    ensures octets { IfOk result (λ octets. octets.items ≡ message_octets profile change.now) }
    ensures short { IfOk result (λ octets. length octets.items ≤ 4096) }
    // The peer reads the change, and nothing else.
    ensures reads { IfOk result (λ octets. IsReadAs profile external octets.items (saying change.now.prefix change.now.after)) }
{
    match &change.after {
        None => withdrawn(alloc, change.prefix),
        Some(sent) => announcement(alloc, profile, change.prefix, sent, external),
    }
}
