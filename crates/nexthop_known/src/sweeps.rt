//! All answers that came with a subnet become stale, and all fresh ones come into force.

ghost use Rattle.std.specs.Prelude.{OnOk, OnErr};
ghost use Rattle.std.specs.Option.{option_map};
ghost use Rattle.std.specs.Ordering.{nat_cmp};
ghost use Rattle.std.specs.BTreeMap as tree;
ghost use Rattle.nexthop_known.specs.Hops.{staled, settled};
ghost use Rattle.nexthop_known.specs.Ties.{let_go, AreTied, AreTold, Puts, Maps, PartlyMaps};

use crate::answer::{Answer, Hop};
use crate::index::{Holding, first_with};
use addr4::{Addr, Family, Memory, Prefix};
use std::collections::{BTreeMap, BTreeSet};

// Makes a known next hop stale.
fn make_stale<A: Answer, F: Family>(hops: &mut BTreeMap<Addr<F>, Hop<A, Prefix<F>>>, hop: Addr<F>)
    ensures { Puts hops.old hops.new hop (option_map let_go (tree.get nat_cmp hops.old hop)) }
{
    if let Some(row) = hops.get_mut(&hop) {
        row.came = None;
    }
}

// Puts the fresh answer of a known next hop in force.
fn put_in_force<A: Answer, F: Family>(hops: &mut BTreeMap<Addr<F>, Hop<A, Prefix<F>>>, hop: Addr<F>)
    ensures { Puts hops.old hops.new hop (option_map settled (tree.get nat_cmp hops.old hop)) }
{
    if let Some(row) = hops.get_mut(&hop) {
        row.in_force = row.fresh;
    }
}

// Makes stale the next hops whose answer came with the subnet. For want of memory some of them are stale, and the others as
// they were.
pub(crate) fn make_all_stale<A: Answer, F: Family>(
    hops: &mut BTreeMap<Addr<F>, Hop<A, Prefix<F>>>,
    stale: &mut BTreeSet<Addr<F>>,
    held: &mut BTreeSet<Holding<Prefix<F>, Addr<F>>>,
    subnet: Prefix<F>,
) -> Result<(), Memory>
    requires tied { AreTied hops.old stale.old held.old }
    ensures tied { AreTied hops.new stale.new held.new }
    ensures ok { OnOk result (Maps (staled subnet) hops.old hops.new) }
    ensures err { OnErr result (PartlyMaps (staled subnet) hops.old hops.new) }
{
    while let Some(hop) = first_with(held, subnet) {
        stale.insert(hop)?;
        make_stale(hops, hop);
        held.remove(&Holding { subnet, hop });
    }
    Ok(())
}

// Puts each fresh answer in force.
pub(crate) fn put_all_in_force<A: Answer, F: Family>(
    hops: &mut BTreeMap<Addr<F>, Hop<A, Prefix<F>>>,
    differing: &mut BTreeSet<Addr<F>>,
)
    requires { AreTold hops.old differing.old }
    ensures told { AreTold hops.new differing.new }
    ensures mapped { Maps settled hops.old hops.new }
{
    while let Some(hop) = differing.pop_first() {
        put_in_force(hops, hop);
    }
}
