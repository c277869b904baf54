//! The chain of one peer, as the crates above see it.

ghost use Rattle.std.specs.Prelude.{◌≡◌, ◌<◌, IfOk, OnOk, None};
ghost use Rattle.std.specs.List.{AllByRecursion};
ghost use Rattle.link_change.specs.Changes.{IsSent};
ghost use Rattle.journal_text.specs.declared.link.Link.TheVariants as names;
ghost use Rattle.journal_text.specs.Journals.{Adds, with_entries};
ghost use Rattle.loss_chain.specs.declared.owner.Owner.TheVariants as owners;
ghost use Rattle.loss_chain.specs.Tables.{NoneEmpty, OneEmptyAtMost};
ghost use Rattle.loss_chain.specs.Stages.{tables_of};
ghost use Rattle.loss_chain.specs.Steps.{weld_entries};
ghost use Rattle.in_chain.specs.Chains.{links_of, filt_rows, IsChain};
ghost use Rattle.in_chain.specs.Falls.{Falls, LeadsChain, way_of_feed};
ghost use Rattle.in_chain.specs.Incomings.{loss_entries, overdue_of};
ghost use Rattle.in_chain.specs.Steps.{new_chain, fed, lost, welded, refiltered};

use addr4::{Addr, Family, Memory, Prefix, Texts, V4};
use bgp_attr::{Neighbour, Route, SharedAttrs, Speaker};
use filter_bank::FilterBank;
use journal_text::{Journal, Link};
use link_change::Change;
use loss_chain::{LossChain, Owner, Stage};
use policy_rules::Rules;
use std::alloc::Global;
use std::marker::Model;

/// A peer's chain. Contracts see the live routes and the lost tables, the words of this speaker and of the peer, and the
/// rules of the incoming filter.
#[derive(Drop)]
pub struct Chain<F: Texts = V4> {
    pub(crate) me: Speaker<Addr<F>>,
    pub(crate) peer: Neighbour,
    pub(crate) number: u32,
    pub(crate) stages: LossChain<SharedAttrs<F>, F>,
    pub(crate) filter: FilterBank<F>,
}

impl<F: Texts> Model for Chain<F> {
    ghost use Rattle.std.specs.Coded.{coded_list};
    ghost use Rattle.in_chain.specs.Incomings.{incoming_code};
    ghost use Rattle.in_chain.specs.Chains.{Chained, chained_code};
    ghost use Rattle.pass_core.specs.Passed.{passed_code};
    ghost use Rattle.std.specs.Borrow.{u32 as word};
    ghost use Rattle.addr4.specs.contracts.family.V4 as family_row;
    ghost use Rattle.addr4.specs.contracts.prefix.Prefix as prefix_row;
    ghost use Rattle.bgp_attr.specs.contracts.attrs.Attrs as attrs_row;
    ghost use Rattle.bgp_attr.specs.contracts.speaker.Speaker as speaker_row;
    ghost use Rattle.bgp_attr.specs.contracts.speaker.Neighbour as neighbour_row;
    ghost use Rattle.policy_rules.specs.contracts.rule.Rule as rule_row;

    ghost Value = { Chained };

    ghost coded = { chained_code (incoming_code (attrs_row.the_row word).coded) (speaker_row.the_row word).coded neighbour_row.the_row.coded (passed_code (coded_list (rule_row.the_row (prefix_row.the_row family_row.the_row ⟦<V4 as Family>⟧)).coded)) };

    ghost view = { λ c. record { incoming = record { number = c.number; tables = c.stages }; me = c.me; peer = c.peer; filter = c.filter } };
}

impl<F: Texts> Chain<F> {
    /// A chain without routes, deletion stages and rules, by the words of this speaker and of the peer. Takes no memory now;
    /// what the stages hold later comes from `alloc`.
    pub fn new(alloc: Global, me: Speaker<Addr<F>>, peer: Neighbour) -> Result<Chain<F>, Memory>
        ensures { IfOk result (λ chain. chain ≡ new_chain me peer) }
    {
        Ok(Chain {
            number: u32::from(peer.number),
            stages: LossChain::new(alloc),
            me,
            peer,
            filter: FilterBank::new(alloc),
        })
    }

    /// The peer's number.
    pub fn number(&self) -> u32
        ensures { result ≡ self.now.incoming.number }
    {
        self.number
    }

    /// The peer, whose routes come in at the chain's top.
    pub fn peer(&self) -> &Neighbour
        ensures { result.now ≡ self.now.peer }
    {
        &self.peer
    }

    /// The lowest of the stages whose links carry attributes, the one above `in.K`. A deletion stage holds the stage above it
    /// in its box, up to the live routes.
    pub fn lowest(&self) -> &Stage<SharedAttrs<F>, F>
        ensures { tables_of result.now ≡ self.now.incoming.tables }
    {
        self.stages.lowest()
    }

    /// The incoming filter, between `in.K` and `filt.K`.
    pub fn filter(&self) -> &FilterBank<F>
        ensures { result.now ≡ self.now.filter }
    {
        &self.filter
    }

    /// A route is announced (`new` is some), or withdrawn (RFC 4271, section 3.1), by the present session. Answers the change
    /// on `filt.K`: None exactly where its map stays the same. An announcement takes its prefix out of the lost tables, and
    /// may so empty one: weld then. Memory comes only for want of memory.
    pub fn feed(
        &mut self,
        p: Prefix<F>,
        new: Option<SharedAttrs<F>>,
        journal: &mut Journal<F>,
    ) -> Result<Option<Change<Route<SharedAttrs<F>>, Prefix<F>>>, Memory>
        requires chain { IsChain self.old }
        requires full { NoneEmpty self.old.incoming.tables.deletions }
        ensures sent { IfOk result (IsSent (filt_rows self.old) (filt_rows self.new) p) }
        ensures after { OnOk result (self.new ≡ fed self.old p new) }
        ensures lines { IfOk result (λ sent. Adds (Falls self.old self.new p (way_of_feed self.old.incoming) sent) journal.old journal.new) }
        ensures chain { OnOk result (IsChain self.new) }
        ensures one_empty { OnOk result (OneEmptyAtMost self.new.incoming.tables.deletions) }
    {
        let Some(change) = self.stages.feed(Owner::Peer(self.number), p, new, journal)? else {
            return Ok(None);
        };
        let sent = self.filter.take_in(change, &self.me, &self.peer);
        journal.push_sent(Link::Filt(self.number), &sent)?;
        Ok(sent)
    }

    /// The session of this number is lost: its routes, if there are any, go to a deletion stage directly below the top, and
    /// the link `peer.K.S` above it begins. The maps of `in.K` and `filt.K` stay the same.
    pub fn lose(&mut self, session: u32, journal: &mut Journal<F>) -> Result<(), Memory>
        requires chain { IsChain self.old }
        requires full { NoneEmpty self.old.incoming.tables.deletions }
        requires room { overdue_of self.old.incoming ≡ None }
        requires later { AllByRecursion (λ d. d.number < session) self.old.incoming.tables.deletions }
        ensures after { OnOk result (self.new ≡ lost session self.old) }
        ensures lines { OnOk result (journal.new ≡ with_entries journal.old (loss_entries session self.old.incoming)) }
        ensures leads { OnOk result (LeadsChain self.old (loss_entries session self.old.incoming) self.new) }
        ensures rows { OnOk result (filt_rows self.new ≡ filt_rows self.old) }
        ensures chain { OnOk result (IsChain self.new) }
        ensures full { OnOk result (NoneEmpty self.new.incoming.tables.deletions) }
    {
        self.stages
            .lose(Owner::Peer(self.number), session, journal)?;
        Ok(())
    }

    /// Takes out the stage that a feed or a turn emptied, if there is one: the link above it is welded into the one below.
    pub fn weld(&mut self, journal: &mut Journal<F>) -> Result<(), Memory>
        requires chain { IsChain self.old }
        requires one_empty { OneEmptyAtMost self.old.incoming.tables.deletions }
        ensures after { OnOk result (self.new ≡ welded self.old) }
        ensures lines { OnOk result (journal.new ≡ with_entries journal.old (weld_entries (owners.Peer self.old.incoming.number) (names.In self.old.incoming.number) self.old.incoming.tables.deletions)) }
        ensures leads { OnOk result (LeadsChain self.old (weld_entries (owners.Peer self.old.incoming.number) (names.In self.old.incoming.number) self.old.incoming.tables.deletions) self.new) }
        ensures rows { OnOk result (filt_rows self.new ≡ filt_rows self.old) }
        ensures chain { OnOk result (IsChain self.new) }
        ensures full { OnOk result (NoneEmpty self.new.incoming.tables.deletions) }
    {
        self.stages.weld(Owner::Peer(self.number), journal)?;
        Ok(())
    }

    /// New rules for the incoming filter. They hold nowhere at first: the task `fin.K` brings them into force. Takes no memory.
    pub fn edit(&mut self, rules: Rules<F>)
        ensures after { self.new ≡ refiltered rules self.old }
        ensures rows { filt_rows self.new ≡ filt_rows self.old }
        ensures links { links_of self.new ≡ links_of self.old }
    {
        self.filter.edit(rules);
    }
}
