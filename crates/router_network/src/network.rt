//! What was declared, the interior routes, the peers' chains, and what follows these down to the peers and the forwarding table.

ghost use Rattle.std.specs.Prelude.{◌≡◌, ◌+◌, ◌*◌, IfOk};
ghost use Rattle.std.specs.Option.{option_copied};
ghost use Rattle.hop_side.specs.Resolvers.{resolver_at};
ghost use Rattle.router_moments.specs.Moments.{first_moment, bound_of};

use crate::above::Above;
use crate::exits::Policies;
use crate::readers::Readers;
use addr4::{Addr, Family, Memory, Texts, V4};
use event_text::Declared;
use exit_side::Exits;
use ext_int::ExtInt;
use hop_side::NextHops;
use nexthop_resolver::{Metric, Resolver};
use peer_out::Writes;
use peer_side::Peers;
use redist::Redist;
use register_interest::Register;
use rib_exit::RibExit;
use rib_route::Interior;
use rib_tree::Tree;
use std::alloc::Global;
use std::marker::Model;

/// A network of stages: what events and turns change of the router, for the prefixes of one family. What the best routes are
/// decided from and who reads them are apart, so that the one is lent while the other changes; both ask the register.
#[derive(Drop)]
pub struct Network<F: Texts = V4> {
    pub(crate) alloc: Global,
    pub(crate) above: Above<F>,
    pub(crate) registry: Register<Interior<Addr<F>>, F>,
    pub(crate) readers: Readers<F>,
}

impl<F: Texts> Model for Network<F> {
    ghost use Rattle.router_moments.specs.Moments.{Moment, moment_code};
    ghost use Rattle.event_text.specs.Declarations.{declaration_code};
    ghost use Rattle.event_text.specs.contracts.declared.DeclaredPeer as peer_row;
    ghost use Rattle.bgp_attr.specs.contracts.speaker.Profile as profile_row;
    ghost use Rattle.bgp_attr.specs.contracts.speaker.Speaker as speaker_row;
    ghost use Rattle.addr4.specs.contracts.family.V4 as family_row;
    ghost use Rattle.peer_side.specs.contracts.peers.Peers as peers_row;
    ghost use Rattle.hop_side.specs.contracts.hops.NextHops as hops_row;
    ghost use Rattle.rib_route.specs.contracts.Proto as proto_row;
    ghost use Rattle.rib_route.specs.contracts.rows.Interior as interior_row;
    ghost use Rattle.rib_tree.specs.Branches.{branch_code};
    ghost use Rattle.rib_tree.specs.Trees.{treed_code};
    ghost use Rattle.register_interest.specs.Registers.{registry_code};
    ghost use Rattle.router_network.specs.contracts.exits.Policies as policies_row;
    ghost use Rattle.exit_side.specs.contracts.exits.Exits as exits_row;
    ghost use Rattle.fanout_queue.specs.contracts.reader.Reader as reader_row;
    ghost use Rattle.std.specs.Coded.{coded_option};
    ghost use Rattle.redist.specs.contracts.stage.Redist as redist_row;
    ghost use Rattle.ext_int.specs.contracts.merge.ExtInt as ext_row;
    ghost use Rattle.rib_exit.specs.contracts.exit.RibExit as rib_row;
    ghost use Rattle.std.specs.Borrow.{u32 as word};

    ghost Value = { Moment };

    ghost coded = { moment_code (declaration_code profile_row.the_row.coded (speaker_row.the_row word).coded peer_row.the_row.coded) (treed_code (branch_code proto_row.the_row.coded (interior_row.the_row word).coded)) (registry_code (interior_row.the_row word).coded) (peers_row.the_row family_row.the_row ⟦<V4 as Family>⟧).coded (hops_row.the_row family_row.the_row ⟦<V4 as Family>⟧ ⟦<V4 as Clone>⟧).coded (policies_row.the_row family_row.the_row ⟦<V4 as Family>⟧).coded (exits_row.the_row family_row.the_row ⟦<V4 as Family>⟧ ⟦<V4 as Clone>⟧).coded (coded_option reader_row.the_row.coded) (redist_row.the_row family_row.the_row ⟦<V4 as Family>⟧).coded (rib_row.the_row (ext_row.the_row family_row.the_row ⟦<V4 as Family>⟧ ⟦<V4 as Clone>⟧)).coded };

    ghost view = { λ n. record { declared = n.above.declared; tree = n.above.tree; registry = n.registry; chains = n.above.chains; hops = n.above.hops; outgoing = n.readers.outgoing; exits = n.readers.exits; reader = n.readers.reader; redist = n.above.redist; rib = n.readers.rib } };
}

impl<F: Writes> Network<F> {
    /// Nothing is declared, and no chain stands. Takes no memory.
    pub fn new(alloc: Global) -> Network<F>
        ensures { result ≡ first_moment F.V6 }
    {
        let declared = Declared::new(alloc);
        declared.known();
        let exits = Exits::new(alloc, declared.profile());
        let above = Above {
            declared,
            tree: Tree::new(alloc),
            redist: Redist::new(alloc),
            chains: Peers::new(alloc),
            hops: NextHops::new(alloc),
        };
        let readers = Readers {
            outgoing: Policies::new(alloc),
            exits,
            reader: None,
            rib: RibExit::new(alloc),
        };
        Network {
            alloc,
            above,
            registry: Register::new(alloc),
            readers,
        }
    }

    /// Where memory comes from.
    pub fn alloc(&self) -> Global {
        self.alloc
    }

    /// What was declared.
    pub fn declared(&self) -> &Declared<F>
        ensures { result.now ≡ self.now.declared }
    {
        &self.above.declared
    }

    /// The tree of the interior routes.
    pub fn tree(&self) -> &Tree<F>
        ensures { result.now ≡ self.now.tree }
    {
        &self.above.tree
    }

    /// The next hops of a peer's routes. None exactly where no such peer is declared.
    pub fn resolver(&self, number: u32) -> Option<&Resolver<Metric, F>>
        ensures { option_copied result ≡ resolver_at number self.now.hops }
    {
        self.above.hops.resolver(number)
    }

    /// The external routes on their way to the forwarding table.
    pub fn external(&self) -> &RibExit<ExtInt<F>>
        ensures { result.now ≡ self.now.rib }
    {
        &self.readers.rib
    }

    /// How many turns an idle takes at most.
    pub fn bound(&self) -> Result<u128, Memory>
        ensures { IfOk result (λ bound. bound ≡ bound_of self.now) }
    {
        let rows = plus(self.above.chains.rows()?, self.above.tree.rows())?;
        let hops = plus(self.above.hops.known()?, self.readers.rib.known())?;
        let peers = self.above.declared.peers().len() as u128;
        most_turns(peers, rows, hops, self.readers.exits.most_unread())
    }
}

/// The bound for so many peers, rows, known next hops, and changes that a reader hasn't taken.
fn most_turns(peers: u128, rows: u128, hops: u128, unread: u128) -> Result<u128, Memory>
    ensures { IfOk result (λ bound. bound ≡ (peers + 2) * (unread + 9 * rows + 2 * hops + 6)) }
{
    let of_rows = plus(unread, times(9, rows)?)?;
    let of_all = plus(plus(of_rows, times(2, hops)?)?, 6)?;
    times(plus(peers, 2)?, of_all)
}

/// The sum, which counts rows: no memory has so many that a u128 doesn't count them.
pub(crate) fn plus(a: u128, b: u128) -> Result<u128, Memory>
    ensures { IfOk result (λ sum. sum ≡ a + b) }
{
    match a.checked_add(b) {
        Some(sum) => Ok(sum),
        None => Err(Memory),
    }
}

/// The product, likewise.
fn times(a: u128, b: u128) -> Result<u128, Memory>
    ensures { IfOk result (λ product. product ≡ a * b) }
{
    match a.checked_mul(b) {
        Some(product) => Ok(product),
        None => Err(Memory),
    }
}
