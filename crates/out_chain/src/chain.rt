//! The outgoing chain of one session, as the crates above see it.

ghost use Rattle.std.specs.Prelude.{◌≡◌, [], IfOk, OnOk, OnErr, IsSome, None, option_map};
ghost use Rattle.std.specs.FinMap as map;
ghost use Rattle.bgp_attr.specs.Speakers.{IsProfileOf};
ghost use Rattle.addr4.specs.Places.{key_of};
ghost use Rattle.bgp_attr.specs.Routes.{Route as Routed};
ghost use Rattle.link_change.specs.Rows.{Rows};
ghost use Rattle.peer_out.specs.Changes.{IsSender};
ghost use Rattle.fanout_queue.specs.Queues.{Queued, AllBelowRead};
ghost use Rattle.fanout_queue.specs.Readers.{KeepsOtherReaders};
ghost use Rattle.journal_text.specs.Walk.{no_links};
ghost use Rattle.journal_text.specs.Journals.{with_entries};
ghost use Rattle.out_chain.specs.Chains.{out_links, RowsMayBeHeard, OutStands};
ghost use Rattle.out_chain.specs.Steps.{exit_to, new_out, start_entries, stop_entries, LeadsOut, LeadsFromBest, with_rules};

use crate::to_peer::ToPeer;
use addr4::{Addr, Family, Memory, Place, Prefix, Texts, V4};
use bgp_attr::{Neighbour, Profile, Route, SharedAttrs, Speaker};
use cache_stage::Cache;
use fanout_queue::{Queue, Reader};
use filter_bank::OutFilter;
use journal_text::{Entry, Journal, Link, Value};
use peer_out::{PeerOut, SentRoute, Writes};
use policy_rules::Rules;
use std::alloc::Global;
use std::marker::Model;

/// The outgoing chain of a session. Contracts see who sends to whom, the session, the reader's number in the queue, the rules of the
/// outgoing filter, what was sent, and the place of the walk of a refresh.
#[derive(Drop)]
pub struct OutChain<F: Family = V4> {
    pub(crate) peer: Neighbour,
    pub(crate) session: u32,
    pub(crate) reader: Reader,
    pub(crate) filter: OutFilter<F>,
    pub(crate) sent: Cache<SentRoute<F>, F>,
    pub(crate) to_peer: ToPeer<F>,
    /// The place of the walk of a refresh, if one is on.
    pub(crate) refresh: Option<Place<Prefix<F>>>,
}

impl<F: Family> Model for OutChain<F> {
    ghost use Rattle.std.specs.Prelude.{option_map};
    ghost use Rattle.std.specs.Coded.{coded_list, coded_option};
    ghost use Rattle.addr4.specs.Places.{key_of};
    ghost use Rattle.out_chain.specs.Chains.{OutChained, out_chained_code, exit_code};
    ghost use Rattle.pass_core.specs.Passed.{passed_code};
    ghost use Rattle.addr4.specs.contracts.family.V4 as family_row;
    ghost use Rattle.addr4.specs.contracts.prefix.Prefix as prefix_row;
    ghost use Rattle.bgp_attr.specs.contracts.attrs.Attrs as attrs_row;
    ghost use Rattle.bgp_attr.specs.contracts.speaker.Profile as profile_row;
    ghost use Rattle.bgp_attr.specs.contracts.speaker.Speaker as speaker_row;
    ghost use Rattle.bgp_attr.specs.contracts.speaker.Neighbour as neighbour_row;
    ghost use Rattle.policy_rules.specs.contracts.rule.Rule as rule_row;
    ghost use Rattle.std.specs.Borrow.{u32 as word};

    ghost Value = { OutChained };

    ghost coded = { out_chained_code (exit_code profile_row.the_row.coded (speaker_row.the_row word).coded) neighbour_row.the_row.coded (passed_code (coded_option (coded_list (rule_row.the_row (prefix_row.the_row family_row.the_row ⟦<V4 as Family>⟧)).coded))) (attrs_row.the_row word).coded };

    ghost view = { λ c. record { exit = c.to_peer.out; peer = c.peer; session = c.session; reader = c.reader; filter = c.filter; sent = c.sent; refresh = option_map key_of c.refresh } };
}

impl<F: Writes> OutChain<F> {
    /// A session of a peer begins: a reader joins the queue, with nothing to take yet, `read.J.S` inherits `best`, and `outf.J.S` and
    /// `adv.J.S` begin without rows. Nothing is sent, until the walk to these rules comes by. What is sent later comes from `alloc`. For want
    /// of memory the queue stays as it is.
    pub fn start(
        alloc: Global,
        profile: Profile,
        queue: &mut Queue<Route<SharedAttrs<F>>, F>,
        me: &Speaker<Addr<F>>,
        peer: &Neighbour,
        session: u32,
        rules: Rules<F>,
        journal: &mut Journal<F>,
    ) -> Result<OutChain<F>, Memory>
        requires of { IsProfileOf F.V6 profile }
        requires sender { IsSender profile me.now }
        ensures fresh { IfOk result (λ chain. map.get queue.old chain.reader ≡ None) }
        ensures least { IfOk result (λ chain. AllBelowRead queue.old chain.reader) }
        ensures after { IfOk result (λ chain. chain ≡ new_out (exit_to profile me.now peer.now) peer.now session chain.reader rules) }
        ensures joined { IfOk result (λ chain. queue.new ≡ map.insert queue.old chain.reader []) }
        ensures others { IfOk result (λ chain. KeepsOtherReaders chain.reader queue.old queue.new) }
        ensures lines { OnOk result (journal.new ≡ with_entries journal.old (start_entries peer.now.number session)) }
        ensures leads { IfOk result (λ chain. (best : Rows Routed) → LeadsFromBest peer.now.number best no_links (start_entries peer.now.number session) (out_links chain best)) }
        ensures stands { IfOk result (λ chain. (best : Rows Routed) → RowsMayBeHeard profile best → OutStands chain queue.new best) }
        ensures memory { OnErr result (queue.new ≡ queue.old) }
    {
        let number = u32::from(peer.number);
        journal.push_entry(Entry::Inherit(Link::Read(number, session), Link::Best))?;
        journal.push_entry(Entry::Begin(Link::Outf(number, session)))?;
        journal.push_entry(Entry::Begin(Link::Adv(number, session)))?;
        let reader = queue.join_reader()?;
        let out = PeerOut::new(alloc, profile, *me, !peer.internal);
        Ok(OutChain {
            peer: *peer,
            session,
            reader,
            filter: OutFilter::new(rules),
            sent: Cache::new(alloc),
            to_peer: ToPeer { out },
            refresh: None,
        })
    }

    /// The peer's number.
    pub fn number(&self) -> u32
        ensures { result ≡ self.now.peer.number }
    {
        u32::from(self.peer.number)
    }

    /// The number of the session.
    pub fn session(&self) -> u32
        ensures { result ≡ self.now.session }
    {
        self.session
    }

    /// New rules for the outgoing filter. They hold nowhere at first: turns bring them into force. Takes no memory.
    pub fn edit(&mut self, rules: Rules<F>)
        ensures after { self.new ≡ with_rules rules self.old }
        ensures links { (read : Rows Routed) → out_links self.new read ≡ out_links self.old read }
        ensures stands { (queued : Queued Routed) (best : Rows Routed) → OutStands self.old queued best → OutStands self.new queued best }
    {
        self.filter.edit(rules);
    }

    /// The session ends: its links end, whatever its reader hasn't taken, and the reader leaves the queue, also for want of memory.
    pub fn stop(
        self,
        queue: &mut Queue<Route<SharedAttrs<F>>, F>,
        journal: &mut Journal<F>,
    ) -> Result<(), Memory>
        requires live { IsSome (map.get queue.old self.reader) }
        ensures left { queue.new ≡ map.remove queue.old self.reader }
        ensures others { KeepsOtherReaders self.reader queue.old queue.new }
        ensures lines { OnOk result (journal.new ≡ with_entries journal.old (stop_entries self.peer.number self.session)) }
        ensures leads { (read : Rows Routed) → LeadsOut self.peer.number (out_links self read) (stop_entries self.peer.number self.session) no_links }
    {
        let number = u32::from(self.peer.number);
        let session = self.session;
        queue.drop_reader(self.into_reader());
        end_links(number, session, journal)
    }

    // All goes but the reader.
    fn into_reader(self) -> Reader
        ensures { result ≡ self.reader }
    {
        let OutChain {
            reader,
            filter,
            sent,
            to_peer,
            ..
        } = self;
        drop(filter);
        drop(sent);
        drop(to_peer);
        reader
    }
}

// The links of a session end.
fn end_links<F: Texts>(number: u32, session: u32, journal: &mut Journal<F>) -> Result<(), Memory>
    ensures { OnOk result (journal.new ≡ with_entries journal.old (stop_entries number session)) }
{
    journal.push_entry(Entry::End(Link::Read(number, session)))?;
    journal.push_entry(Entry::End(Link::Outf(number, session)))?;
    journal.push_entry(Entry::End(Link::Adv(number, session)))
}
