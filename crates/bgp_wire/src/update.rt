//! Reading UPDATEs.

ghost use Rattle.std.specs.Prelude.{◌≡◌, ◌≤◌, ◌++◌, [], length, filter, not, Bool, false, IfOk, None};
ghost use Rattle.std.specs.BTreeSet.{contains};
ghost use Rattle.std.specs.List.{list_any};
ghost use Rattle.addr4.specs.Prefixes.{AddressPrefix, prefix_cmp, same_prefix};
ghost use Rattle.bgp_wire.specs.Faults.{Gives};
ghost use Rattle.bgp_wire.specs.Found.{missing_from, lacks_from, said_by, update_of};
ghost use Rattle.bgp_wire.specs.Multiprotocol.{announced_by, hop_by, withdrawn_by};
ghost use Rattle.bgp_wire.specs.Updates.{reading_at};
ghost use Rattle.bgp_wire.specs.Grammar.{without, GivesUpdate};

use crate::attributes::{AS_PATH, NEXT_HOP, ORIGIN};
use crate::common::attrs_of;
use crate::found::Found;
use crate::gathered::read_attributes;
use crate::header::read_fields;
use crate::message::{Prefixes, Said, Update};
use crate::multiprotocol::Reach;
use crate::notice::{FaultKind, Refusal, refused};
use crate::prefixes::read_prefixes;
use addr4::{Addr, Family, Memory, Prefix};
use addr6::V6;
use bgp_attr::{Attrs, Profile};
use std::alloc::{AllocError, Global};
use std::collections::BTreeSet;

/// The lowest type that an announcement lacks: ORIGIN, AS_PATH or, where prefixes of IPv4 are announced, NEXT_HOP.
fn missing(ipv4: bool, found: &Found) -> Option<u8>
    ensures { result ≡ missing_from ipv4 found.now }
{
    if !found.origin.is_some() {
        Some(ORIGIN)
    } else if !found.path.is_some() {
        Some(AS_PATH)
    } else if ipv4 && !found.next_hop.is_some() {
        Some(NEXT_HOP)
    } else {
        None
    }
}

/// The prefixes of IPv6 that are announced.
fn announced_in(found: &Found) -> &[Prefix<V6>]
    ensures { result.now ≡ announced_by found.now.reach }
{
    match &found.reach {
        None => &[],
        Some(reach) => reach.announced.as_slice(),
    }
}

/// Whether an announcement lacks an attribute, which makes it a withdraw in the revised manner.
fn lacks(
    alloc: Global,
    profile: Profile,
    announced: &[Prefix],
    found: &Found,
) -> Result<bool, Refusal>
    ensures { Gives (λ lacking. lacking) result (lacks_from profile announced.now (announced_by found.now.reach) found.now) }
{
    if announced.is_empty() && announced_in(found).is_empty() {
        return Ok(false);
    }
    match missing(!announced.is_empty(), found) {
        None => Ok(false),
        Some(kind) => {
            if profile.revised {
                Ok(true)
            } else {
                Err(refused(alloc, FaultKind::MissingWellKnown, &[kind]))
            }
        }
    }
}

/// The prefixes as a set.
fn set_of<F: Family>(
    alloc: Global,
    prefixes: &[Prefix<F>],
) -> Result<BTreeSet<Prefix<F>>, AllocError>
    ensures { IfOk result (λ set. (p : AddressPrefix) → contains prefix_cmp set p ≡ list_any (λ other. same_prefix other p) prefixes.now) }
{
    prefixes.iter().copied().collect(alloc)
}

/// Removes the prefixes that are in the set.
fn remove_all<F: Family>(prefixes: &mut Vec<Prefix<F>>, others: &BTreeSet<Prefix<F>>)
    ensures { prefixes.new.items ≡ filter (λ p. not (contains prefix_cmp others.now p)) prefixes.old.items }
{
    prefixes.retain(|prefix| !others.contains(prefix));
}

/// The prefixes that aren't among the others, and then these.
fn withdraw_all<F: Family>(
    alloc: Global,
    withdrawn: Vec<Prefix<F>>,
    announced: Vec<Prefix<F>>,
) -> Result<Vec<Prefix<F>>, AllocError>
    ensures { IfOk result (λ all. all.items ≡ without announced.items withdrawn.items ++ announced.items) }
{
    let mut all = withdrawn;
    let mut announced = announced;
    let others = set_of(alloc, announced.as_slice())?;
    remove_all(&mut all, &others);
    all.append(&mut announced)?;
    Ok(all)
}

/// What an UPDATE says that withdraws all these prefixes of a family.
fn withdrawal_of<F: Family>(
    alloc: Global,
    withdrawn: Vec<Prefix<F>>,
    announced: Vec<Prefix<F>>,
) -> Result<Said<F>, AllocError>
    ensures { IfOk result (λ said. said ≡ record { withdrawn = without announced.items withdrawn.items ++ announced.items; announced = []; attrs = None }) }
{
    let all = withdraw_all(alloc, withdrawn, announced)?;
    Ok(Said {
        withdrawn: Prefixes::from_vec(all),
        announced: Prefixes::from_vec(Vec::new(alloc)),
        attrs: None,
    })
}

/// The next hop of IPv6's routes, and their prefixes.
fn parts_of(alloc: Global, reach: Option<Reach>) -> (Option<Addr<V6>>, Vec<Prefix<V6>>)
    ensures hop { result.0 ≡ hop_by reach }
    ensures announced { result.1.items ≡ announced_by reach }
{
    match reach {
        None => (None, Vec::new(alloc)),
        Some(reach) => (Some(reach.next_hop), reach.announced.into_vec()),
    }
}

fn withdrawn_of(alloc: Global, unreach: Option<Prefixes<V6>>) -> Vec<Prefix<V6>>
    ensures { result.items ≡ withdrawn_by unreach }
{
    match unreach {
        None => Vec::new(alloc),
        Some(withdrawn) => withdrawn.into_vec(),
    }
}

/// What is said of a family.
fn said<F: Family>(
    withdrawn: Vec<Prefix<F>>,
    announced: Vec<Prefix<F>>,
    attrs: Option<Attrs<Addr<F>>>,
) -> Said<F>
    ensures { result ≡ record { withdrawn = withdrawn.items; announced = announced.items; attrs = attrs } }
{
    Said {
        withdrawn: Prefixes::from_vec(withdrawn),
        announced: Prefixes::from_vec(announced),
        attrs,
    }
}

/// The UPDATE that announces and withdraws as it says.
fn plain_of(
    alloc: Global,
    external: bool,
    withdrawn: Vec<Prefix>,
    announced: Vec<Prefix>,
    second_hop: Option<Addr<V6>>,
    unreached: Vec<Prefix<V6>>,
    reached: Vec<Prefix<V6>>,
    found: Found,
) -> Result<Update, Memory>
    ensures first { IfOk result (λ update. update.first ≡ said_by external false found found.next_hop withdrawn.items announced.items) }
    ensures second { IfOk result (λ update. update.second ≡ said_by external false found second_hop unreached.items reached.items) }
{
    let first = announced.as_slice();
    let second = reached.as_slice();
    let (attrs, second_attrs) = attrs_of(alloc, external, found, first, second_hop, second)?;
    Ok(Update {
        first: said(withdrawn, announced, attrs),
        second: said(unreached, reached, second_attrs),
    })
}

fn update_of(
    alloc: Global,
    external: bool,
    withdraw: bool,
    withdrawn: Vec<Prefix>,
    announced: Vec<Prefix>,
    found: Found,
) -> Result<Update, Memory>
    ensures { IfOk result (λ update. update ≡ update_of external withdraw withdrawn.items announced.items found) }
{
    let mut found = found;
    let unreached = withdrawn_of(alloc, found.unreach.take());
    let (hop, reached) = parts_of(alloc, found.reach.take());
    if withdraw {
        let first = withdrawal_of(alloc, withdrawn, announced)?;
        let second = withdrawal_of(alloc, unreached, reached)?;
        return Ok(Update { first, second });
    }
    plain_of(
        alloc, external, withdrawn, announced, hop, unreached, reached, found,
    )
}

/// An UPDATE (RFC 4271, sections 4.3 and 6.3).
pub(crate) fn read_update(
    alloc: Global,
    profile: Profile,
    external: bool,
    bytes: &[u8],
) -> Result<Update, Refusal>
    requires { 23 ≤ length bytes.now }
    ensures { GivesUpdate profile external result (reading_at profile external bytes.now) }
{
    let fields = read_fields(alloc, bytes)?;
    let withdrawn = read_prefixes(alloc, FaultKind::BadNetwork, &[], fields.withdrawn)?;
    let gathered = read_attributes(alloc, profile, external, fields.attributes)?;
    let announced = read_prefixes(alloc, FaultKind::BadNetwork, &[], fields.announced)?;
    let lacking = lacks(alloc, profile, announced.as_slice(), &gathered.found)?;
    let withdraw = gathered.withdraw | lacking;
    let update = update_of(
        alloc,
        external,
        withdraw,
        withdrawn,
        announced,
        gathered.found,
    )?;
    Ok(update)
}
