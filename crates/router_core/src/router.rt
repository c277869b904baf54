//! The router's state.

ghost use Rattle.std.specs.Prelude.{◌≡◌, ◌+◌, ◌<◌, [], true, false, OnOk, OnErr, IfOk, IsErr};
ghost use Rattle.event_text.specs.declared.event.Event.TheVariants as events;
ghost use Rattle.event_text.specs.Declarations.{refusal};
ghost use Rattle.event_text.specs.WellFormed.{IsWellFormed};
ghost use Rattle.bgp_attr.specs.Speakers.{IsProfileOf};
ghost use Rattle.router_moments.specs.Moments.{first_moment, profiled, spoken, Gives};
ghost use Rattle.router_moments.specs.Scratch.{IsExactAtRest};
ghost use Rattle.router_moments.specs.Stands.{CoreStands};
ghost use Rattle.router_moments.specs.Blocks.{Acts};
ghost use Rattle.router_core.specs.Heard.{SayOfFamily};

use crate::hears::Hears;
use crate::steps::{hear_said, step};
use addr4::{Family, Memory, Texts, V4};
use bgp_attr::Profile;
use bgp_wire::Said;
use decision::Contests;
use event_text::EventOf;
use journal_text::Journal;
use live_state::declarations_follow;
use rib_tree::a_new_tree_stands;
use router_moments::rows_at_rest_are_exact;
use router_network::Network;
use std::alloc::Global;
use std::marker::Model;

#[derive(Drop)]
pub struct Core<F: Texts = V4> {
    pub(crate) network: Network<F>,
    /// What the decision knows at each prefix. No part of the moment: it says nothing that the rows of the branches don't.
    pub(crate) contests: Contests<F>,
    pub(crate) events: u64,
    pub(crate) failed: bool,
}

impl<F: Texts> Model for Core<F> {
    ghost use Rattle.std.specs.Prelude.{◌≡◌, false};
    ghost use Rattle.std.specs.Coded.{coded_option};
    ghost use Rattle.router_network.specs.Informed.{Informed};
    ghost use Rattle.router_moments.specs.Stands.{HaveReaders};
    ghost use Rattle.router_moments.specs.Moments.{Cored, cored_code, moment_code};
    ghost use Rattle.router_network.specs.contracts.exits.Policies as policies_row;
    ghost use Rattle.exit_side.specs.contracts.exits.Exits as exits_row;
    ghost use Rattle.fanout_queue.specs.contracts.reader.Reader as reader_row;
    ghost use Rattle.redist.specs.contracts.stage.Redist as redist_row;
    ghost use Rattle.ext_int.specs.contracts.merge.ExtInt as ext_row;
    ghost use Rattle.rib_exit.specs.contracts.exit.RibExit as rib_row;
    ghost use Rattle.addr4.specs.contracts.family.V4 as family_row;
    ghost use Rattle.peer_side.specs.contracts.peers.Peers as peers_row;
    ghost use Rattle.hop_side.specs.contracts.hops.NextHops as hops_row;
    ghost use Rattle.rib_route.specs.contracts.Proto as proto_row;
    ghost use Rattle.rib_route.specs.contracts.rows.Interior as interior_row;
    ghost use Rattle.rib_tree.specs.Branches.{branch_code};
    ghost use Rattle.rib_tree.specs.Trees.{treed_code};
    ghost use Rattle.register_interest.specs.Registers.{registry_code};
    ghost use Rattle.event_text.specs.Declarations.{declaration_code};
    ghost use Rattle.event_text.specs.contracts.declared.DeclaredPeer as peer_row;
    ghost use Rattle.bgp_attr.specs.contracts.speaker.Profile as profile_row;
    ghost use Rattle.bgp_attr.specs.contracts.speaker.Speaker as speaker_row;
    ghost use Rattle.std.specs.Borrow.{u32 as word};

    ghost Value = { Cored };

    ghost coded = { cored_code (moment_code (declaration_code profile_row.the_row.coded (speaker_row.the_row word).coded peer_row.the_row.coded) (treed_code (branch_code proto_row.the_row.coded (interior_row.the_row word).coded)) (registry_code (interior_row.the_row word).coded) (peers_row.the_row family_row.the_row ⟦<V4 as Family>⟧).coded (hops_row.the_row family_row.the_row ⟦<V4 as Family>⟧ ⟦<V4 as Clone>⟧).coded (policies_row.the_row family_row.the_row ⟦<V4 as Family>⟧).coded (exits_row.the_row family_row.the_row ⟦<V4 as Family>⟧ ⟦<V4 as Clone>⟧).coded (coded_option reader_row.the_row.coded) (redist_row.the_row family_row.the_row ⟦<V4 as Family>⟧).coded (rib_row.the_row (ext_row.the_row family_row.the_row ⟦<V4 as Family>⟧ ⟦<V4 as Clone>⟧)).coded) };

    ghost view = { λ c. record { moment = c.network; events = c.events; failed = c.failed } };

    ghost invariant = { λ c. c.failed ≡ false → HaveReaders c.network × Informed c.contests c.network };
}

impl<F: Hears> Core<F> {
    /// Nothing is declared, and no link is live. Takes no memory.
    pub fn new(alloc: Global) -> Core<F>
        ensures value { result ≡ record { moment = (first_moment F.V6); events = 0; failed = false } }
        ensures stands { CoreStands result }
    {
        a_new_tree_stands();
        Core {
            network: Network::new(alloc),
            contests: Contests::new(alloc),
            events: 0,
            failed: false,
        }
    }

    /// Steps an event: its lines go into the text of the journal. Answers how many turns `work` or `idle` took, and 0 for
    /// other events. After each call, this and those below, at each prefix every link that no work holds up there has the row
    /// that the live state alone asks for. After want of memory the core answers nothing else.
    pub fn step(&mut self, event: EventOf<F>, journal: &mut Journal<F>) -> Result<u128, Memory>
        requires admitted { refusal self.old.moment.declared event ≡ None }
        requires formed { IsWellFormed self.old.moment.declared.v6 self.old.moment.declared.profile event }
        requires few { self.old.events < 4294967295 }
        requires stands { self.old.failed ≡ false → CoreStands self.old }
        ensures acts { IfOk result (λ turns. Gives (Acts self.old.moment event turns self.new.moment) journal.old journal.new) }
        ensures stands { OnOk result (CoreStands self.new) }
        ensures exact { OnOk result (IsExactAtRest self.new.moment) }
        ensures events { OnOk result (self.new.events ≡ self.old.events + 1) }
        ensures good { OnOk result (self.new.failed ≡ false) }
        ensures memory { OnErr result (self.new.failed ≡ true) }
        ensures stays { self.old.failed ≡ true → IsErr result }
    {
        if self.failed {
            drop(event);
            return Err(Memory);
        }
        rows_at_rest_are_exact();
        declarations_follow();
        self.failed = true;
        let turns = step(&mut self.network, event, &mut self.contests, journal)?;
        self.events += 1;
        self.failed = false;
        Ok(turns)
    }

    /// An UPDATE of a peer that is up does what it says of this family's routes (RFC 4760), as the event `bgp` does; `octets` are
    /// those that it was read from. So one reading serves several networks. This counts as an event. After want of memory the core
    /// answers nothing else.
    pub fn hear(
        &mut self,
        number: u32,
        octets: &[u8],
        said: Said<F>,
        journal: &mut Journal<F>,
    ) -> Result<(), Memory>
        requires admitted { refusal self.old.moment.declared (events.Bgp number octets.now) ≡ None }
        requires formed { IsWellFormed self.old.moment.declared.v6 self.old.moment.declared.profile (events.Bgp number octets.now) }
        requires said { SayOfFamily self.old.moment.declared number octets.now said }
        requires few { self.old.events < 4294967295 }
        requires stands { self.old.failed ≡ false → CoreStands self.old }
        ensures acts { OnOk result (Gives (Acts self.old.moment (events.Bgp number octets.now) 0 self.new.moment) journal.old journal.new) }
        ensures stands { OnOk result (CoreStands self.new) }
        ensures exact { OnOk result (IsExactAtRest self.new.moment) }
        ensures events { OnOk result (self.new.events ≡ self.old.events + 1) }
        ensures good { OnOk result (self.new.failed ≡ false) }
        ensures memory { OnErr result (self.new.failed ≡ true) }
        ensures stays { self.old.failed ≡ true → IsErr result }
    {
        if self.failed {
            drop(said);
            return Err(Memory);
        }
        rows_at_rest_are_exact();
        declarations_follow();
        self.network.declared().known();
        self.failed = true;
        hear_said(&mut self.network, number, said, &mut self.contests, journal)?;
        self.events += 1;
        self.failed = false;
        Ok(())
    }

    /// IPv6 is spoken from now on: routes of IPv6 are read in messages. No peer was declared yet. This counts as an event. Takes no
    /// memory.
    pub fn speak_ipv6(&mut self)
        requires stands { CoreStands self.old }
        requires few { self.old.events < 4294967295 }
        requires alone { self.old.moment.declared.peers ≡ [] }
        ensures value { self.new ≡ record { moment = spoken self.old.moment; events = self.old.events + 1; failed = false } }
        ensures stands { CoreStands self.new }
    {
        self.network.speak_ipv6();
        self.events += 1;
    }

    /// Before anything was declared, messages are read and written by this profile from now on. Takes no memory.
    pub fn set_profile(&mut self, profile: Profile)
        requires family { IsProfileOf F.V6 profile }
        requires fresh { self.old ≡ record { moment = first_moment F.V6; events = 0; failed = false } }
        ensures value { self.new ≡ record { moment = profiled (first_moment F.V6) profile; events = 0; failed = false } }
        ensures stands { CoreStands self.new }
    {
        a_new_tree_stands();
        self.network.set_profile(profile);
    }
}
