//! The clusters of a CLUSTER_LIST (RFC 4456, section 8).

ghost use Rattle.std.specs.Prelude.{◌≡◌, IfOk};
ghost use Rattle.bgp_wire.specs.Routes.{clusters_at};

use crate::numbers::four_octets;
use addr4::{Memory, RouterId};
use bgp_attr::ClusterList;
use std::alloc::Global;

/// The identifiers that the value holds, of four octets each.
pub(crate) fn read_clusters(alloc: Global, value: &[u8]) -> Result<ClusterList, Memory>
    ensures { IfOk result (λ clusters. clusters ≡ clusters_at value.now) }
{
    let count = value.len() / 4;
    let mut clusters = Vec::with_capacity(alloc, count)?;
    let mut rest = value;
    'clusters: for _done in 0..count {
        clusters.push(RouterId::new(four_octets(rest)))?;
        let (_identifier, after) = rest.split_at(4);
        rest = after;
    }
    Ok(ClusterList::from_vec(clusters))
}
