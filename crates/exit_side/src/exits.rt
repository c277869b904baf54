//! The exits of all peers that are up, as the crates above see them: sessions begin and end, and
//! rules are edited.

ghost use Rattle.std.specs.Prelude.{◌≡◌, OnOk, IsSome, None};
ghost use Rattle.std.specs.Option.{option_copied};
ghost use Rattle.bgp_attr.specs.Speakers.{IsProfileOf};
ghost use Rattle.peer_out.specs.Changes.{IsSender};
ghost use Rattle.journal_text.specs.Journals.{Adds};
ghost use Rattle.exit_side.specs.Exits.{no_exits, written_by, chain_at, IsExits};
ghost use Rattle.exit_side.specs.Steps.{BeginsExit, EndsExit, EditsExit};

use addr4::{Addr, Family, Memory, V4};
use bgp_attr::{Neighbour, Profile, Route, SharedAttrs, Speaker};
use fanout_queue::Queue;
use journal_text::Journal;
use out_chain::{OutChain, a_session_stands};
use peer_out::Writes;
use policy_rules::Rules;
use std::alloc::Global;
use std::collections::BTreeMap;
use std::marker::Model;

/// The outgoing chains of all peers that are up, and the queue that they read. Contracts see how
/// messages are written, what each reader of the queue hasn't taken, and a finite map from the
/// peers' numbers to their chains.
#[derive(Drop)]
pub struct Exits<F: Family = V4> {
    alloc: Global,
    profile: Profile,
    pub(crate) queue: Queue<Route<SharedAttrs<F>>, F>,
    pub(crate) chains: BTreeMap<u32, OutChain<F>>,
}

impl<F: Family> Model for Exits<F> {
    ghost use Rattle.std.specs.Coded.{coded_ℕ};
    ghost use Rattle.std.specs.FinMap as map;
    ghost use Rattle.addr4.specs.contracts.family.V4 as family_row;
    ghost use Rattle.bgp_attr.specs.contracts.route.Route as route_row;
    ghost use Rattle.bgp_attr.specs.contracts.speaker.Profile as profile_row;
    ghost use Rattle.fanout_queue.specs.Queues.{queued_code};
    ghost use Rattle.out_chain.specs.contracts.chain.OutChain as chain_row;
    ghost use Rattle.exit_side.specs.Exits.{Exited, exited_code};
    ghost use Rattle.std.specs.Borrow.{u32 as word};
    ghost use Rattle.bgp_attr.specs.contracts.attrs.Attrs as attrs_row;

    ghost Value = { Exited };

    ghost coded = { exited_code profile_row.the_row.coded (queued_code (route_row.the_row (attrs_row.the_row word)).coded) (map.code coded_ℕ (chain_row.the_row family_row.the_row ⟦<V4 as Family>⟧).coded) };

    ghost view = { λ e. record { profile = e.profile; queue = e.queue; chains = map.from_entries e.chains.entries } };

    ghost use Rattle.bgp_attr.specs.Speakers.{IsProfileOf};

    ghost invariant = { λ e. IsProfileOf F.V6 e.profile };
}

impl<F: Writes> Exits<F> {
    /// No peer is up, and the queue has no reader. Messages are written by this profile. Takes no
    /// memory.
    pub fn new(alloc: Global, profile: Profile) -> Exits<F>
        requires { IsProfileOf F.V6 profile }
        ensures { result ≡ no_exits profile }
    {
        Exits {
            alloc,
            profile,
            queue: Queue::new(alloc),
            chains: BTreeMap::new(alloc),
        }
    }

    /// Messages of sessions that begin from here on are written by this profile. Takes no memory.
    pub fn set_profile(&mut self, profile: Profile)
        requires { IsProfileOf F.V6 profile }
        ensures { self.new ≡ written_by profile self.old }
    {
        self.profile = profile;
    }

    /// The chain of a peer; None where the peer isn't up.
    pub fn chain(&self, number: u32) -> Option<&OutChain<F>>
        ensures { option_copied result ≡ chain_at number self.now }
    {
        self.chains.get(&number)
    }

    /// A session of a peer begins: `read.J.S` inherits `best`, `outf.J.S` and `adv.J.S` begin
    /// without rows. Nothing is sent, until the walk to these rules comes by.
    pub fn begin(
        &mut self,
        me: &Speaker<Addr<F>>,
        peer: &Neighbour,
        session: u32,
        rules: Rules<F>,
        journal: &mut Journal<F>,
    ) -> Result<(), Memory>
        requires sound { IsExits self.old }
        requires sender { IsSender self.old.profile me.now }
        requires absent { chain_at peer.now.number self.old ≡ None }
        ensures { OnOk result (Adds (BeginsExit me.now peer.now session rules self.old self.new) journal.old journal.new) }
    {
        a_session_stands();
        let chain = OutChain::start(
            self.alloc,
            self.profile,
            &mut self.queue,
            me,
            peer,
            session,
            rules,
            journal,
        )?;
        drop(self.chains.insert(u32::from(peer.number), chain)?);
        Ok(())
    }

    /// The session of a peer is lost: its links end, whatever its reader hasn't taken.
    pub fn end(&mut self, number: u32, journal: &mut Journal<F>) -> Result<(), Memory>
        requires sound { IsExits self.old }
        requires there { IsSome (chain_at number self.old) }
        ensures { OnOk result (Adds (EndsExit number self.old self.new) journal.old journal.new) }
    {
        a_session_stands();
        let Some(chain) = self.chains.remove(&number) else {
            unreachable!()
        };
        chain.stop(&mut self.queue, journal)
    }

    /// The outgoing filter of a peer's session has new rules. They hold nowhere at first: turns
    /// bring them into force. Nothing changes where the peer isn't up. Takes no memory.
    pub fn edit(&mut self, number: u32, rules: Rules<F>)
        requires sound { IsExits self.old }
        ensures { EditsExit number rules self.old self.new }
    {
        a_session_stands();
        let Some(chain) = self.chains.get_mut(&number) else {
            return;
        };
        chain.edit(rules);
    }
}
