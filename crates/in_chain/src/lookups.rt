//! Lookups: of tasks, of links and their rows, of what holds up a prefix, and of counts.

ghost use Rattle.std.specs.Prelude.{◌≡◌, IfOk, is_some, IsSome, Some, option_map, slice_get};
ghost use Rattle.addr4.specs.Places.{key_of};
ghost use Rattle.link_change.specs.Rows.{Rows, IsNextCandidate, CoversRows};
ghost use Rattle.journal_text.specs.declared.link.Task.TheVariants as tasks;
ghost use Rattle.journal_text.specs.Lines.{Value as Valuation};
ghost use Rattle.journal_text.specs.Walk.{HasRow};
ghost use Rattle.journal_text.specs.Values.{route_rows};
ghost use Rattle.filter_bank.specs.Filtered.{route_hop};
ghost use Rattle.pass_core.specs.Turns.{row_lags};
ghost use Rattle.loss_chain.specs.declared.owner.Owner.TheVariants as owners;
ghost use Rattle.loss_chain.specs.Held.{has_row};
ghost use Rattle.loss_chain.specs.Steps.{oldest_of, table_of};
ghost use Rattle.in_chain.specs.Incomings.{in_rows, overdue_of};
ghost use Rattle.in_chain.specs.Chains.{links_of, filt_rows, candidates_of, filt_candidates, row_count};
ghost use Rattle.in_chain.specs.Steps.{chain_lags, FindsNextLost};

use crate::chain::Chain;
use addr4::{Addr, Memory, Place, Prefix, Texts};
use bgp_attr::{Route, SharedAttrs};
use journal_text::{Link, Task, Value};
use link_change::Upstream;
use loss_chain::Owner;

impl<F: Texts> Chain<F> {
    /// The task that has to run to its end before a session may be lost: that of the stage that stands longest, where 16
    /// stand and a route is live. So no chain has more than 16 deletion stages.
    pub fn overdue(&self) -> Option<Task>
        ensures { result ≡ overdue_of self.now.incoming }
    {
        self.stages.overdue(Owner::Peer(self.number))
    }

    /// The task of the deletion stage that stands longest, the lowest; None where none stands.
    pub fn oldest(&self) -> Option<Task>
        ensures { result ≡ oldest_of (owners.Peer self.now.incoming.number) self.now.incoming.tables.deletions }
    {
        self.stages.oldest(Owner::Peer(self.number))
    }

    /// Whether the link is one of the chain's: `filt.K`, `in.K`, or `peer.K.S` above the deletion stage of session S.
    pub fn live(&self, link: Link) -> bool
        ensures { result ≡ is_some (links_of self.now link) }
    {
        match link {
            Link::Filt(number) => number == self.number,
            _ => self.stages.live(Owner::Peer(self.number), link),
        }
    }

    /// The row at a prefix of a link of the chain; None where it has none. Memory where the row can't be copied.
    pub fn asked(
        &self,
        link: Link,
        p: Prefix<F>,
    ) -> Result<Option<Value<SharedAttrs<F>, Addr<F>>>, Memory>
        requires { IsSome (links_of self.now link) }
        ensures { IfOk result (HasRow (links_of self.now) link p) }
    {
        match link {
            Link::Filt(_) => self.filtered(p),
            _ => self.stages.asked(Owner::Peer(self.number), link, p),
        }
    }

    // The row of `filt.K` at a prefix.
    fn filtered(&self, p: Prefix<F>) -> Result<Option<Value<SharedAttrs<F>, Addr<F>>>, Memory>
        ensures { IfOk result (λ row. row ≡ route_rows (filt_rows self.now) p) }
    {
        let route = self.filter.asked(&self.stages, p, &self.me, &self.peer)?;
        match route {
            Some(route) => Ok(Some(Value::Route(route))),
            None => Ok(None),
        }
    }

    /// The least candidate of a link of the chain that lies beyond a place: of `in.K` and `peer.K.S` its rows, of `filt.K` the
    /// rows of `in.K`, some of which may have none on `filt.K`.
    pub fn next_candidate(&self, link: Link, after: Place<Prefix<F>>) -> Option<Prefix<F>>
        requires { IsSome (links_of self.now link) }
        ensures next { IsNextCandidate (candidates_of self.now link) (key_of after) result }
        ensures covers { (rows : Rows Valuation) → links_of self.now link ≡ Some rows → CoversRows (candidates_of self.now link) rows }
    {
        let owner = Owner::Peer(self.number);
        match link {
            Link::Filt(number) => self.stages.next_candidate(owner, Link::In(number), after),
            _ => self.stages.next_candidate(owner, link, after),
        }
    }

    /// Whether a task of the chain holds up a prefix: of `del.K.S`, the table of that stage still has it; of `fin.K`, the walk is
    /// yet to come to the row of `in.K` there, or rules wait. Takes no memory.
    pub fn holds_up(&self, task: Task, p: Prefix<F>) -> bool
        ensures { result ≡ chain_lags self.now task p }
    {
        match task {
            Task::Del(number, session) => number == self.number && self.stage_has(session, p),
            Task::Fin(number) => number == self.number && self.filter_lags(p),
            _ => false,
        }
    }

    // Whether the stage of a session still has a row at a prefix.
    fn stage_has(&self, session: u32, p: Prefix<F>) -> bool
        ensures { result ≡ has_row (table_of session self.now.incoming.tables.deletions) p }
    {
        match self.stages.deletion(session) {
            None => false,
            Some(deletion) => deletion.held(p).is_some(),
        }
    }

    // Whether other rules than the latest ones may hold for the row of `in.K` at a prefix.
    fn filter_lags(&self, p: Prefix<F>) -> bool
        ensures { result ≡ row_lags self.now.filter p (in_rows self.now.incoming p) }
    {
        self.has(p) && self.filter.holds_up(p)
    }

    /// Whether `in.K` has a row at a prefix, live or of a lost session: where the filter accepts it, `filt.K` has one there too.
    /// Takes no memory.
    pub fn has(&self, p: Prefix<F>) -> bool
        ensures { result ≡ filt_candidates self.now p }
    {
        self.stages.row(p).is_some()
    }

    /// The prefix whose row the next turn of a deletion stage takes, the least by address and then length. None for any other
    /// task, and where the chain has no such stage or the stage has no row. Takes no memory.
    pub fn next_lost(&self, task: Task) -> Option<Prefix<F>>
        ensures { FindsNextLost self.now task result }
    {
        match task {
            Task::Del(number, session) => {
                if number != self.number {
                    return None;
                }
                self.least_lost(session)
            }
            _ => None,
        }
    }

    // The prefix of the least row of the stage of a session.
    fn least_lost(&self, session: u32) -> Option<Prefix<F>>
        ensures { FindsNextLost self.now (tasks.Del self.now.incoming.number session) result }
    {
        match self.stages.deletion(session) {
            None => None,
            Some(deletion) => deletion.next_held(Place::Before),
        }
    }

    /// The next hop of the row of `filt.K` at a prefix; None exactly where there is none. Takes no memory.
    pub fn next_hop(&self, p: Prefix<F>) -> Option<Addr<F>>
        ensures { result ≡ option_map route_hop (filt_rows self.now p) }
    {
        let row = self.stages.row(p)?;
        self.filter.next_hop(row, p, &self.me, &self.peer)
    }

    /// The task of a deletion stage, by the place of the stage, the longest standing first.
    pub fn loss_at(&self, place: u32) -> Option<Task>
        ensures { result ≡ option_map (λ d. tasks.Del self.now.incoming.number d.number) (slice_get self.now.incoming.tables.deletions place) }
    {
        let number = self.stages.loss_at(place)?;
        Some(Task::Del(self.number, number))
    }

    /// Whether the filter's walk is on.
    pub fn busy(&self) -> bool
        ensures { result ≡ is_some self.now.filter.walk }
    {
        self.filter.busy()
    }

    /// How many rows `in.K` has.
    pub fn rows(&self) -> u128
        ensures { result ≡ row_count self.now }
    {
        self.stages.rows()
    }
}

/// The lowest link, `filt.K`: its candidates are the rows of `in.K`, some of which may have none on `filt.K`.
impl<F: Texts> Upstream<F> for Chain<F> {
    type Row = Route<SharedAttrs<F>>;

    ghost use Rattle.in_chain.specs.Chains.{filt_rows, filt_candidates};

    ghost rows = { filt_rows };

    ghost candidates = { filt_candidates };

    fn asked(&self, p: &Prefix<F>) -> Result<Option<Route<SharedAttrs<F>>>, Memory> {
        self.filter.asked(&self.stages, *p, &self.me, &self.peer)
    }

    fn next_candidate(&self, after: &Place<Prefix<F>>) -> Option<Prefix<F>> {
        self.filter.next_candidate(&self.stages, *after)
    }
}
