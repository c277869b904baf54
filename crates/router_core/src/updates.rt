//! What an UPDATE does to a peer's routes of a family, prefix by prefix.

ghost use Rattle.std.specs.Prelude.{◌≡◌, ◌++◌, map, filter, IfOk, OnOk};
ghost use Rattle.std.specs.BTreeSet.{IsFromIterResult};
ghost use Rattle.addr4.specs.Prefixes.{prefix_cmp};
ghost use Rattle.addr4.specs.Hosts.{is_host_prefix};
ghost use Rattle.bgp_wire.specs.Grammar.{without};
ghost use Rattle.live_state.specs.Messages.{announced_with, changes_in, withdrawn_from};

use addr4::{Addr, Family, Memory, Prefix, Row};
use bgp_attr::{Attrs, SharedAttrs};
use bgp_wire::Said;
use router_network::again;
use std::alloc::Global;
use std::collections::BTreeSet;

/// The changes that an UPDATE makes to the routes of a family, in their order: withdrawals (none) of prefixes that it doesn't
/// announce, then announcements, all with the same attributes.
pub(crate) fn changes<F: Family>(
    alloc: Global,
    said: Said<F>,
) -> Result<Vec<(Prefix<F>, Option<SharedAttrs<F>>)>, Memory>
    ensures { IfOk result (λ changes. changes.items ≡ changes_in F.V6 said) }
{
    let Said {
        withdrawn,
        announced,
        attrs,
    } = said;
    let attrs = shared(alloc, attrs)?;
    let all = changes_with(alloc, withdrawn.as_slice(), announced.as_slice(), &attrs);
    drop(attrs);
    drop(announced);
    drop(withdrawn);
    all
}

/// The withdrawals, and then the announcements.
fn changes_with<F: Family>(
    alloc: Global,
    withdrawn: &[Prefix<F>],
    announced: &[Prefix<F>],
    attrs: &Option<SharedAttrs<F>>,
) -> Result<Vec<(Prefix<F>, Option<SharedAttrs<F>>)>, Memory>
    ensures { IfOk result (λ changes. changes.items ≡ map withdrawn_from (without announced.now withdrawn.now) ++ map (announced_with attrs.now) (filter (is_host_prefix F.V6) announced.now)) }
{
    let mut all = Vec::new(alloc);
    push_withdrawn(alloc, &mut all, withdrawn, announced)?;
    push_announced(&mut all, announced, attrs)?;
    Ok(all)
}

/// The attributes, to be shared by all prefixes.
fn shared<F: Family>(
    alloc: Global,
    attrs: Option<Attrs<Addr<F>>>,
) -> Result<Option<SharedAttrs<F>>, Memory>
    ensures { IfOk result (λ shared. shared ≡ attrs) }
{
    match attrs {
        Some(attrs) => Ok(Some(SharedAttrs::new(alloc, attrs)?)),
        None => Ok(None),
    }
}

/// Withdrawals of the prefixes that aren't announced too.
fn push_withdrawn<F: Family>(
    alloc: Global,
    all: &mut Vec<(Prefix<F>, Option<SharedAttrs<F>>)>,
    withdrawn: &[Prefix<F>],
    announced: &[Prefix<F>],
) -> Result<(), Memory>
    ensures { OnOk result (all.new.items ≡ all.old.items ++ map withdrawn_from (without announced.now withdrawn.now)) }
{
    if withdrawn.is_empty() {
        return Ok(());
    }
    let staying = set_of(alloc, announced)?;
    for prefix in withdrawn {
        if !staying.contains(prefix) {
            all.push((*prefix, None))?;
        }
    }
    Ok(())
}

fn set_of<F: Family>(alloc: Global, prefixes: &[Prefix<F>]) -> Result<BTreeSet<Prefix<F>>, Memory>
    ensures { IfOk result (IsFromIterResult prefix_cmp prefixes.now) }
{
    Ok(prefixes.iter().copied().collect(alloc)?)
}

/// Announcements of the prefixes of hosts.
fn push_announced<F: Family>(
    all: &mut Vec<(Prefix<F>, Option<SharedAttrs<F>>)>,
    announced: &[Prefix<F>],
    attrs: &Option<SharedAttrs<F>>,
) -> Result<(), Memory>
    ensures { OnOk result (all.new.items ≡ all.old.items ++ map (announced_with attrs.now) (filter (is_host_prefix F.V6) announced.now)) }
{
    for prefix in announced {
        if prefix.is_of_hosts() {
            all.push((*prefix, again(attrs)?))?;
        }
    }
    Ok(())
}
