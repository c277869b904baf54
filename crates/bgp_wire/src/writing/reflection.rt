//! What route reflectors add, written (RFC 4456, section 8).

ghost use Rattle.std.specs.Prelude.{◌≡◌, ◌++◌, [], OnOk};
ghost use Rattle.std.specs.List.{flat_map};
ghost use Rattle.bgp_attr.specs.Lent.{clusters_behind};
ghost use Rattle.byteorder.specs.Endian.{big_bytes};
ghost use Rattle.bgp_wire.specs.Spelling.{clusters_attributes, reflection_attributes, octets_of};

use crate::attributes::{CLUSTER_LIST, ORIGINATOR_ID};
use crate::writing::heads::{OPTIONAL, push_head, push_number};
use crate::writing::lengths::clusters_size;
use crate::writing::numbers::push_u32;
use addr4::{Memory, RouterId};
use bgp_attr::LentReflection;

/// ORIGINATOR_ID and CLUSTER_LIST, if they are there (RFC 4456, section 8).
pub(crate) fn push_reflection(
    out: &mut Vec<u8>,
    reflection: &LentReflection<'_>,
) -> Result<(), Memory>
    ensures { OnOk result (out.new.items ≡ out.old.items ++ octets_of (reflection_attributes reflection.now)) }
{
    let originator = reflection.originator.map(|id| id.number());
    push_number(out, OPTIONAL, ORIGINATOR_ID, originator)?;
    push_clusters(out, reflection)
}

/// CLUSTER_LIST, if there is a cluster.
fn push_clusters(out: &mut Vec<u8>, reflection: &LentReflection<'_>) -> Result<(), Memory>
    ensures { OnOk result (out.new.items ≡ out.old.items ++ octets_of (clusters_attributes reflection.now.clusters)) }
{
    let size = clusters_size(reflection);
    if size == 0 {
        return Ok(());
    }
    push_head(out, OPTIONAL, CLUSTER_LIST, size)?;
    push_cluster_ids(out, reflection)
}

/// The clusters: the one in front, then the others.
fn push_cluster_ids(out: &mut Vec<u8>, reflection: &LentReflection<'_>) -> Result<(), Memory>
    ensures { OnOk result (out.new.items ≡ out.old.items ++ flat_map (big_bytes 4) reflection.now.clusters) }
{
    push_front(out, reflection.front)?;
    push_ids(out, reflection.others)
}

/// The cluster in front, if one stands there.
fn push_front(out: &mut Vec<u8>, front: Option<RouterId>) -> Result<(), Memory>
    ensures { OnOk result (out.new.items ≡ out.old.items ++ flat_map (big_bytes 4) (clusters_behind front [])) }
{
    match front {
        None => Ok(()),
        Some(front) => push_u32(out, front.number()),
    }
}

fn push_ids(out: &mut Vec<u8>, ids: &[RouterId]) -> Result<(), Memory>
    ensures { OnOk result (out.new.items ≡ out.old.items ++ flat_map (big_bytes 4) ids.now) }
{
    for id in ids {
        push_u32(out, id.number())?;
    }
    Ok(())
}
