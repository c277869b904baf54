//! The resolvers of all peers, as the crates above see them.

ghost use Rattle.std.specs.Prelude.{◌≡◌, OnOk, None};
ghost use Rattle.std.specs.Option.{option_copied};
ghost use Rattle.std.specs.FinMap as map;
ghost use Rattle.link_change.specs.Rows.{no_rows};
ghost use Rattle.rib_route.specs.Rows.{Interior};
ghost use Rattle.register_interest.specs.Registers.{Registry};
ghost use Rattle.nexthop_resolver.specs.Resolving.{nothing_known};
ghost use Rattle.journal_text.specs.Journals.{with_entries};
ghost use Rattle.hop_side.specs.Resolvers.{resolver_at, put_resolver, PeerRows, hop_links, IsHops, AllAgree, AllCounted};
ghost use Rattle.hop_side.specs.Steps.{LeadsRes, begin_entries, HasNoInterest};

use addr4::{Memory, Texts, V4};
use journal_text::{Entry, Journal, Link};
use nexthop_resolver::{Metric, Resolver};
use std::alloc::Global;
use std::collections::BTreeMap;
use std::marker::Model;

/// The resolvers of all peers. Contracts see a finite map from the peers' numbers to their resolvers.
#[derive(Drop)]
pub struct NextHops<F: Texts = V4> {
    pub(crate) alloc: Global,
    pub(crate) resolvers: BTreeMap<u32, Resolver<Metric, F>>,
}

impl<F: Texts> Model for NextHops<F> {
    ghost use Rattle.std.specs.Coded.{coded_ℕ};
    ghost use Rattle.std.specs.FinMap as map;
    ghost use Rattle.nexthop_resolver.specs.contracts.rows.Metric as metric_row;
    ghost use Rattle.nexthop_resolver.specs.Resolving.{resolving_code};
    ghost use Rattle.hop_side.specs.Resolvers.{Resolvers};

    ghost Value = { Resolvers };

    ghost coded = { map.code coded_ℕ (resolving_code metric_row.the_row.coded) };

    ghost view = { λ h. map.from_entries h.resolvers.entries };
}

impl<F: Texts> NextHops<F> {
    /// No peer. Takes no memory.
    pub fn new(alloc: Global) -> NextHops<F>
        ensures { result ≡ map.empty }
    {
        NextHops {
            alloc,
            resolvers: BTreeMap::new(alloc),
        }
    }

    /// The resolver of a peer.
    pub fn resolver(&self, number: u32) -> Option<&Resolver<Metric, F>>
        ensures { option_copied result ≡ resolver_at number self.now }
    {
        self.resolvers.get(&number)
    }

    /// A peer is declared: its link `res.K` begins. No next hop of it is known, and no row stands above it yet.
    pub fn begin(&mut self, number: u8, journal: &mut Journal<F>) -> Result<(), Memory>
        requires sound { IsHops self.old }
        requires absent { resolver_at number self.old ≡ None }
        ensures after { OnOk result (self.new ≡ put_resolver number (nothing_known number) self.old) }
        ensures lines { OnOk result (journal.new ≡ with_entries journal.old (begin_entries number)) }
        ensures leads { OnOk result ((uppers : PeerRows) → uppers number ≡ no_rows → LeadsRes (hop_links self.old uppers) (begin_entries number) (hop_links self.new uppers)) }
        ensures counted { OnOk result ((uppers : PeerRows) → uppers number ≡ no_rows → AllCounted uppers self.old → AllCounted uppers self.new) }
        ensures agree { OnOk result ((r : Registry Interior) → HasNoInterest number r → AllAgree self.old r → AllAgree self.new r) }
        ensures sound { OnOk result (IsHops self.new) }
    {
        let resolver = Resolver::new(number, self.alloc);
        resolver.are_named();
        let key = u32::from(number);
        drop(self.resolvers.insert(key, resolver)?);
        journal.push_entry(Entry::Begin(Link::Res(key)))
    }
}
