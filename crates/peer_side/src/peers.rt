//! The peers' chains, as the crates above see them: declared, and with new rules.

ghost use Rattle.std.specs.Prelude.{◌≡◌, ◌<◌, ℕ, OnOk, IsSome, None};
ghost use Rattle.std.specs.Option.{option_copied};
ghost use Rattle.std.specs.FinMap as map;
ghost use Rattle.journal_text.specs.Journals.{with_entries};
ghost use Rattle.in_chain.specs.Steps.{new_chain};
ghost use Rattle.link_region.specs.declared.regions.Region.TheVariants as regions;
ghost use Rattle.link_region.specs.Regions.{LeadsIn};
ghost use Rattle.peer_side.specs.Peers.{chain_at, put_chain, peer_links, begin_entries, overdue_at, IsPeers};
ghost use Rattle.peer_side.specs.Steps.{EditsInward};

use addr4::{Addr, Family, Memory, Texts, V4};
use bgp_attr::{Neighbour, Speaker};
use in_chain::Chain;
use journal_text::{Entry, Journal, Link, Task};
use policy_rules::Rules;
use std::alloc::Global;
use std::collections::BTreeMap;
use std::marker::Model;

/// The chains of all peers. Contracts see a finite map from the peers' numbers to their chains.
#[derive(Drop)]
pub struct Peers<F: Texts = V4> {
    pub(crate) alloc: Global,
    pub(crate) chains: BTreeMap<u32, Chain<F>>,
}

impl<F: Texts> Model for Peers<F> {
    ghost use Rattle.std.specs.Coded.{coded_ℕ};
    ghost use Rattle.std.specs.FinMap as map;
    ghost use Rattle.addr4.specs.contracts.family.V4 as family_row;
    ghost use Rattle.in_chain.specs.contracts.chain.Chain as chain_row;
    ghost use Rattle.peer_side.specs.Peers.{Chains};

    ghost Value = { Chains };

    ghost coded = { map.code coded_ℕ (chain_row.the_row family_row.the_row ⟦<V4 as Family>⟧).coded };

    ghost view = { λ p. map.from_entries p.chains.entries };
}

impl<F: Texts> Peers<F> {
    /// No peer. Takes no memory.
    pub fn new(alloc: Global) -> Peers<F>
        ensures { result ≡ map.empty }
    {
        Peers {
            alloc,
            chains: BTreeMap::new(alloc),
        }
    }

    /// The chain of a peer.
    pub fn chain(&self, number: u32) -> Option<&Chain<F>>
        ensures { option_copied result ≡ chain_at number self.now }
    {
        self.chains.get(&number)
    }

    /// The greatest number of a peer; 0 where there is none.
    pub fn last(&self) -> u32
        ensures beyond { (k : ℕ) → result < k → chain_at k self.now ≡ None }
        ensures there { 0 < result → IsSome (chain_at result self.now) }
    {
        match self.chains.last_key_value() {
            Some((number, _)) => *number,
            None => 0,
        }
    }

    /// A peer is declared, by the words of this speaker and its own: its links begin, without routes and rules.
    pub fn begin(
        &mut self,
        number: u32,
        me: Speaker<Addr<F>>,
        words: Neighbour,
        journal: &mut Journal<F>,
    ) -> Result<(), Memory>
        requires sound { IsPeers self.old }
        requires absent { chain_at number self.old ≡ None }
        requires own { words.number ≡ number }
        ensures after { OnOk result (self.new ≡ put_chain number (new_chain me words) self.old) }
        ensures lines { OnOk result (journal.new ≡ with_entries journal.old (begin_entries number)) }
        ensures leads { OnOk result (LeadsIn regions.Inward (peer_links self.old) (begin_entries number) (peer_links self.new)) }
        ensures sound { OnOk result (IsPeers self.new) }
    {
        let chain = Chain::new(self.alloc, me, words)?;
        drop(self.chains.insert(number, chain)?);
        journal.push_entry(Entry::Begin(Link::In(number)))?;
        journal.push_entry(Entry::Begin(Link::Filt(number)))
    }

    /// A peer's incoming filter has new rules. They hold nowhere at first: the task `fin.K` brings them into force. Takes no
    /// memory.
    pub fn edit(&mut self, number: u32, rules: Rules<F>)
        requires sound { IsPeers self.old }
        requires there { IsSome (chain_at number self.old) }
        ensures { EditsInward number rules self.old self.new }
    {
        let Some(chain) = self.chains.get_mut(&number) else {
            unreachable!()
        };
        chain.edit(rules);
    }

    /// The task that has to run to its end before a session of a peer may be lost: that of the stage that stands longest,
    /// where 16 stand and a route is live.
    pub fn overdue(&self, number: u32) -> Option<Task>
        ensures { result ≡ overdue_at number self.now }
    {
        match self.chains.get(&number) {
            Some(chain) => chain.overdue(),
            None => None,
        }
    }
}
