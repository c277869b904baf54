//! What route reflectors add to a route.

ghost use Rattle.std.specs.Prelude.{◌≡◌, ◌==◌, [], None, false, IfOk};
ghost use Rattle.std.specs.List.{list_any};
ghost use Rattle.std.specs.Option.{option_map_or};
ghost use Rattle.bgp_attr.specs.Reflections.{has_been_at, reflected_by};

use crate::cluster_list::ClusterList;
use addr4::{Memory, RouterId, Row};
use std::alloc::Global;
use std::marker::Model;

/// What route reflectors added to a route (RFC 4456, section 8). Few routes have any of it: it stands in a box of its own.
#[derive(Drop)]
pub struct Reflection {
    added: Option<Box<Added>>,
}

#[derive(Drop)]
struct Added {
    originator: Option<RouterId>,
    clusters: ClusterList,
}

impl Model for Reflection {
    ghost use Rattle.std.specs.Prelude.{option_map};
    ghost use Rattle.bgp_attr.specs.Reflections.{Reflected};

    ghost Value = { Reflected };

    ghost use Rattle.bgp_attr.specs.Reflections.{added_by};

    ghost view = { λ r. added_by (option_map (λ added. added.value) r.added) };
}

impl Reflection {
    /// Nothing was added; takes no memory.
    pub fn none() -> Reflection
        ensures { result ≡ record { originator = None; clusters = [] } }
    {
        Reflection { added: None }
    }

    /// These were added; takes no memory where they are nothing.
    pub fn new(
        alloc: Global,
        originator: Option<RouterId>,
        clusters: ClusterList,
    ) -> Result<Reflection, Memory>
        ensures { IfOk result (λ r. r ≡ record { originator = originator; clusters = clusters }) }
    {
        if originator.is_none() && clusters.as_slice().is_empty() {
            return Ok(Reflection::none());
        }
        let added = Added {
            originator,
            clusters,
        };
        let added = Box::new(alloc, added)?;
        Ok(Reflection { added: Some(added) })
    }

    /// ORIGINATOR_ID: the identifier of the router that brought the route into the AS; none where no reflector said it.
    pub fn originator(&self) -> Option<RouterId>
        ensures { result ≡ self.now.originator }
    {
        match &self.added {
            None => None,
            Some(added) => added.originator,
        }
    }

    /// CLUSTER_LIST: the clusters that the route went through, the latest one first; none where no reflector said one.
    pub fn clusters(&self) -> &[RouterId]
        ensures { result.now ≡ self.now.clusters }
    {
        match &self.added {
            None => &[],
            Some(added) => added.clusters.as_slice(),
        }
    }

    /// Whether who has this identifier brought the route into the AS, or the route went through its cluster (RFC 4456, section 8).
    pub fn has_been_at(&self, id: RouterId) -> bool
        ensures { result ≡ has_been_at self.now id }
    {
        is_originator(self.originator(), id) || has_cluster(self.clusters(), id)
    }

    /// The same once more reflected (RFC 4456, section 8): the originator is the sender where none is said, and the cluster stands
    /// in front.
    pub fn reflected(
        &self,
        alloc: Global,
        sender: RouterId,
        cluster: RouterId,
    ) -> Result<Reflection, Memory>
        ensures { IfOk result (λ r. r ≡ reflected_by sender cluster self.now) }
    {
        let others = self.clusters();
        let mut clusters = Vec::with_capacity(alloc, others.len() + 1)?;
        clusters.push(cluster)?;
        clusters.extend_from_slice(others)?;
        let originator = self.originator().unwrap_or(sender);
        Reflection::new(alloc, Some(originator), ClusterList::from_vec(clusters))
    }
}

impl Row for Reflection {
    fn copy(&self) -> Result<Reflection, Memory> {
        match &self.added {
            None => Ok(Reflection::none()),
            Some(added) => {
                let alloc = *Box::allocator(added);
                let clusters = added.clusters.copy()?;
                Reflection::new(alloc, added.originator, clusters)
            }
        }
    }

    fn same(&self, other: &Reflection) -> bool {
        self.originator() == other.originator() && self.clusters() == other.clusters()
    }
}

fn is_originator(originator: Option<RouterId>, id: RouterId) -> bool
    ensures { result ≡ option_map_or (λ originator. originator == id) originator false }
{
    match originator {
        None => false,
        Some(originator) => originator == id,
    }
}

fn has_cluster(clusters: &[RouterId], id: RouterId) -> bool
    ensures { result ≡ list_any (λ cluster. cluster == id) clusters.now }
{
    clusters.iter().any(|cluster| *cluster == id)
}
