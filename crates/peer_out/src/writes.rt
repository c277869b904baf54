//! The octets that say one route to a peer, of a family whose messages are written.

ghost use Rattle.std.specs.Prelude.{◌≡◌, ◌≤◌, ◌<◌, ◌^◌, All, Bool, IfOk, length};
ghost use Rattle.std.specs.Option.{ForSome};
ghost use Rattle.bgp_attr.specs.declared.speaker.Profile.{Profile as Profiled};
ghost use Rattle.bgp_attr.specs.Speakers.{IsProfileOf};
ghost use Rattle.bgp_wire.specs.Lengths.{announcement_length};
ghost use Rattle.bgp_wire.specs.Readable.{announcing, withdrawing};
ghost use Rattle.bgp_wire.specs.Spelling.{FitsAttrs, update_octets};
ghost use Rattle.peer_out.specs.Changes.{HasNumbers, IsReadAs, IsSentOf};

use addr4::{Memory, Prefix, RouterId, Texts, V4};
use addr6::V6;
use bgp_attr::{LentAttrs, Profile};
use bgp_wire::{Wire, write_announcement, write_withdrawal};
use std::alloc::Global;

/// A family whose routes are said to peers: its messages are written, and its lines printed.
pub trait Writes: Texts + Wire {}

impl Writes for V4 {}

impl Writes for V6 {}

// A number has 32 bits.
fn known(number: Option<u32>)
    ensures { ForSome number (λ n. n < 2 ^ 32) }
{
    match number {
        Some(_) => {}
        None => {}
    }
}

// So have the originator's identifier
fn known_id(id: Option<RouterId>)
    ensures { ForSome id (λ n. n < 2 ^ 32) }
{
    match id {
        Some(id) => id.known(),
        None => {}
    }
}

// and each cluster's.
fn known_clusters(clusters: &[RouterId])
    ensures { All (λ n. n < 2 ^ 32) clusters.now }
{
    for cluster in clusters {
        cluster.known();
    }
}

fn known_numbers<F: Writes>(attrs: &LentAttrs<'_, F>)
    ensures { HasNumbers attrs.now }
{
    known(attrs.med);
    known(attrs.local_pref);
    known_id(attrs.reflection.originator);
    known_id(attrs.reflection.front);
    known_clusters(attrs.reflection.others);
}

fn announce<F: Writes>(
    alloc: Global,
    profile: Profile,
    prefix: Prefix<F>,
    attrs: &LentAttrs<'_, F>,
) -> Result<Vec<u8>, Memory>
    requires fits { FitsAttrs profile.as4 attrs.now }
    requires short { announcement_length F.V6 profile.as4 prefix attrs.now ≤ 4096 }
    ensures octets { IfOk result (λ octets. octets.items ≡ update_octets F.V6 profile.as4 (announcing prefix attrs.now)) }
    ensures short { IfOk result (λ octets. length octets.items ≤ 4096) }
{
    let octets = write_announcement(alloc, profile, prefix, attrs)?;
    Ok(octets.unwrap())
}

/// The octets of the UPDATE that announces one prefix with the attributes that a peer is sent. They take the only memory.
pub(crate) fn announced<F: Writes>(
    alloc: Global,
    profile: Profile,
    prefix: Prefix<F>,
    attrs: &LentAttrs<'_, F>,
    external: bool,
) -> Result<Vec<u8>, Memory>
    requires of { IsProfileOf F.V6 profile }
    requires sent { IsSentOf profile external prefix attrs.now }
    ensures octets { IfOk result (λ octets. octets.items ≡ update_octets F.V6 profile.as4 (announcing prefix attrs.now)) }
    ensures short { IfOk result (λ octets. length octets.items ≤ 4096) }
    ensures reads { IfOk result (λ octets. IsReadAs profile external octets.items (announcing prefix attrs.now)) }
{
    prefix.known();
    known_numbers(attrs);
    announce(alloc, profile, prefix, attrs)
}

/// The octets of the UPDATE that withdraws one prefix, whatever the profile of the family and whoever the peer is. They take the
/// only memory.
pub(crate) fn withdrawn<F: Writes>(alloc: Global, prefix: Prefix<F>) -> Result<Vec<u8>, Memory>
    ensures octets { (as4 : Bool) → IfOk result (λ octets. octets.items ≡ update_octets F.V6 as4 (withdrawing prefix)) }
    ensures reads { (profile : Profiled) (external : Bool) → IsProfileOf F.V6 profile → IfOk result (λ octets. IsReadAs profile external octets.items (withdrawing prefix)) }
{
    prefix.known();
    write_withdrawal(alloc, prefix)
}
