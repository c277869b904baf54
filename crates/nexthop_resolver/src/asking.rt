//! Known next hops and the register that is asked about them.

ghost use Rattle.std.specs.Prelude.{◌≡◌, true, IfOk, OnOk, OnErr, IsNone, IsSome};
ghost use Rattle.std.specs.FinMap as map;
ghost use Rattle.nexthop_known.specs.Hops.{is_stale_at};
ghost use Rattle.nexthop_known.specs.Agreement.{IsInterestIn};
ghost use Rattle.nexthop_resolver.specs.Registered.{answer_of, interest_of, IsLargest, Agrees, IsEarly, KeepsOthers, Learns, Renews};

use crate::rows::FromMatch;
use addr4::{Addr, Family, Memory, Prefix};
use nexthop_known::Known;
use register_interest::Register;
use rib_route::Interior;

// Asks about a next hop: what is kept of the answer, and the subnet for which it holds, in which the client is interested from
// now on. For want of memory nothing changes.
fn ask<F: Family, A: FromMatch<F>>(
    client: u8,
    hop: Addr<F>,
    register: &mut Register<Interior<Addr<F>>, F>,
) -> Result<(A, Prefix<F>), Memory>
    ensures answer { IfOk result (λ r. r.0 ≡ answer_of A.kept_of register.old hop) }
    ensures largest { IfOk result (λ r. IsLargest (map.get register.old.rows) hop r.1) }
    ensures interest { IfOk result (λ r. IsInterestIn (interest_of client register.old) (interest_of client register.new) r.1 true) }
    ensures others { KeepsOthers client register.old register.new }
    ensures memory { OnErr result (register.new ≡ register.old) }
{
    let (found, subnet) = register.query(client, hop)?;
    Ok((A::from_match(&found), subnet))
}

// Gives up an interest that came too early, unless a known next hop needs it.
fn give_back<F: Family, A: FromMatch<F>>(
    known: &Known<A, F>,
    client: u8,
    subnet: Prefix<F>,
    register: &mut Register<Interior<Addr<F>>, F>,
)
    requires { IsEarly A.kept_of client known.now register.old subnet }
    ensures agrees { Agrees A.kept_of client known.now register.new }
    ensures others { KeepsOthers client register.old register.new }
{
    if !known.is_answered_with(subnet) {
        register.forget(client, subnet);
    }
}

// Asks about an unknown next hop, and knows it from then on. For want of memory it stays unknown.
pub(crate) fn learn<F: Family, A: FromMatch<F>>(
    known: &mut Known<A, F>,
    client: u8,
    hop: Addr<F>,
    register: &mut Register<Interior<Addr<F>>, F>,
) -> Result<(), Memory>
    requires unknown { IsNone (map.get known.old hop) }
    requires agrees { Agrees A.kept_of client known.old register.old }
    ensures learns { OnOk result (Learns A.kept_of register.old known.old known.new hop) }
    ensures agrees { Agrees A.kept_of client known.new register.new }
    ensures others { KeepsOthers client register.old register.new }
    ensures memory { OnErr result (known.new ≡ known.old) }
{
    let (answer, subnet) = ask(client, hop, register)?;
    match known.learn(hop, subnet, answer) {
        Ok(()) => Ok(()),
        Err(Memory) => {
            give_back(known, client, subnet, register);
            Err(Memory)
        }
    }
}

// Asks again about a stale next hop. For want of memory it stays stale.
pub(crate) fn renew<F: Family, A: FromMatch<F>>(
    known: &mut Known<A, F>,
    client: u8,
    hop: Addr<F>,
    register: &mut Register<Interior<Addr<F>>, F>,
) -> Result<(), Memory>
    requires stale { is_stale_at (map.get known.old hop) ≡ true }
    requires agrees { Agrees A.kept_of client known.old register.old }
    ensures renews { OnOk result (Renews A.kept_of register.old known.old known.new hop) }
    ensures agrees { Agrees A.kept_of client known.new register.new }
    ensures others { KeepsOthers client register.old register.new }
    ensures memory { OnErr result (known.new ≡ known.old) }
{
    let (answer, subnet) = ask(client, hop, register)?;
    match known.fresh(hop, subnet, answer) {
        Ok(()) => Ok(()),
        Err(Memory) => {
            give_back(known, client, subnet, register);
            Err(Memory)
        }
    }
}

// Forgets a known next hop, and gives up the interest in the subnet of its answer, unless another one needs it.
pub(crate) fn forget<F: Family, A: FromMatch<F>>(
    known: &mut Known<A, F>,
    client: u8,
    hop: Addr<F>,
    register: &mut Register<Interior<Addr<F>>, F>,
)
    requires known { IsSome (map.get known.old hop) }
    requires agrees { Agrees A.kept_of client known.old register.old }
    ensures gone { known.new ≡ map.remove known.old hop }
    ensures agrees { Agrees A.kept_of client known.new register.new }
    ensures others { KeepsOthers client register.old register.new }
{
    if let Some(subnet) = known.forget(hop) {
        register.forget(client, subnet);
    }
}
