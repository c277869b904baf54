//! Lookups in the links of a session, and whether its task has work.

ghost use Rattle.std.specs.Prelude.{◌≡◌, length, IfOk, IsSome, is_some, Some, option_map};
ghost use Rattle.std.specs.FinMap as map;
ghost use Rattle.addr4.specs.Places.{key_of};
ghost use Rattle.bgp_attr.specs.Routes.{Route as Routed};
ghost use Rattle.link_change.specs.Rows.{Rows, IsNextCandidate, CoversRows};
ghost use Rattle.fanout_queue.specs.Readers.{unread_by, read_rows, read_candidates};
ghost use Rattle.journal_text.specs.Lines.{Value as Valuation};
ghost use Rattle.journal_text.specs.Walk.{HasRow};
ghost use Rattle.journal_text.specs.Values.{route_value};
ghost use Rattle.out_chain.specs.Chains.{out_links, out_candidates, has_out_work, out_lags};

use crate::chain::OutChain;
use addr4::{Addr, Family, Memory, Place, Prefix};
use bgp_attr::{Route, SharedAttrs};
use fanout_queue::Queue;
use journal_text::{Link, Value, value_of};
use link_change::Upstream;
use peer_out::Writes;

impl<F: Writes> OutChain<F> {
    /// Whether the link is one of the chain's: `read.J.S`, `outf.J.S` or `adv.J.S`.
    pub fn live(&self, link: Link) -> bool
        ensures { (read : Rows Routed) → result ≡ is_some (out_links self.now read link) }
    {
        match link {
            Link::Read(number, session)
            | Link::Outf(number, session)
            | Link::Adv(number, session) => number == self.number() && session == self.session,
            _ => false,
        }
    }

    /// The row at a prefix of a link of the chain; None where it has none. Memory only for want of memory.
    pub fn asked<U: Upstream<F, Row = Route<SharedAttrs<F>>>>(
        &self,
        link: Link,
        queue: &Queue<Route<SharedAttrs<F>>, F>,
        best: &U,
        p: Prefix<F>,
    ) -> Result<Option<Value<SharedAttrs<F>, Addr<F>>>, Memory>
        requires live { IsSome (map.get queue.now self.now.reader) }
        requires own { IsSome (out_links self.now (read_rows queue.now self.now.reader (U.rows best.now)) link) }
        ensures { IfOk result (HasRow (out_links self.now (read_rows queue.now self.now.reader (U.rows best.now))) link p) }
    {
        match link {
            Link::Read(_, _) => {
                let read = queue.asked(&self.reader, best, p)?;
                Ok(route_value(read))
            }
            Link::Outf(_, _) => {
                let row = queue.asked(&self.reader, best, p)?;
                let sent = self.filter.made(p, row, &self.to_peer, &self.peer)?;
                value_of(&sent)
            }
            Link::Adv(_, _) => {
                let sent = Upstream::asked(&self.sent, &p)?;
                value_of(&sent)
            }
            _ => unreachable!(),
        }
    }

    /// The least candidate of a link of the chain that lies beyond a place: of `read.J.S` and `outf.J.S` one of the best rows, or
    /// the prefix of a change that the reader hasn't taken, some of which may have no row; of `adv.J.S` its rows.
    pub fn next_candidate<U: Upstream<F, Row = Route<SharedAttrs<F>>>>(
        &self,
        link: Link,
        queue: &Queue<Route<SharedAttrs<F>>, F>,
        best: &U,
        after: Place<Prefix<F>>,
    ) -> Option<Prefix<F>>
        requires live { IsSome (map.get queue.now self.now.reader) }
        requires own { IsSome (out_links self.now (read_rows queue.now self.now.reader (U.rows best.now)) link) }
        ensures next { IsNextCandidate (out_candidates self.now (read_candidates queue.now self.now.reader (U.candidates best.now)) link) (key_of after) result }
        ensures covers { (rows : Rows Valuation) → out_links self.now (read_rows queue.now self.now.reader (U.rows best.now)) link ≡ Some rows → CoversRows (out_candidates self.now (read_candidates queue.now self.now.reader (U.candidates best.now)) link) rows }
    {
        match link {
            Link::Adv(_, _) => Upstream::next_candidate(&self.sent, &after),
            _ => queue.next_candidate(&self.reader, best, after),
        }
    }

    /// How many changes the reader hasn't taken.
    pub fn waiting(&self, queue: &Queue<Route<SharedAttrs<F>>, F>) -> u128
        requires { IsSome (map.get queue.now self.now.reader) }
        ensures { result ≡ length (unread_by queue.now self.now.reader) }
    {
        queue.waiting(&self.reader)
    }

    /// Whether the session's task holds up a prefix: the reader hasn't taken a change there, or the filter's walk has yet to come
    /// to the row that it has there, or other rules wait for the end of the walk. Takes no memory. Whether the best rows have one
    /// there is lent; where the reader has taken all, that is whether it has one
    /// ([`the_best_row_tells`](crate::the_best_row_tells)).
    pub fn holds_up(
        &self,
        queue: &Queue<Route<SharedAttrs<F>>, F>,
        has_best: bool,
        p: Prefix<F>,
    ) -> bool
        requires { IsSome (map.get queue.now self.now.reader) }
        ensures { result ≡ out_lags self.now (unread_by queue.now self.now.reader) p has_best }
    {
        queue.unread(&self.reader, p) || (has_best && self.filter.holds_up(p))
    }

    /// Whether the session's task has work: the reader hasn't taken all, or the walk of the filter is on.
    pub fn busy(&self, queue: &Queue<Route<SharedAttrs<F>>, F>) -> bool
        requires { IsSome (map.get queue.now self.now.reader) }
        ensures { result ≡ has_out_work self.now (unread_by queue.now self.now.reader) }
    {
        queue.waiting(&self.reader) > 0 || self.filter.busy()
    }

    /// How many rows were sent.
    pub fn rows(&self) -> u128
        ensures { result ≡ map.len self.now.sent }
    {
        self.sent.len() as u128
    }
}

// A row of `read.J.S`, as a value.
fn route_value<F: Family>(
    row: Option<Route<SharedAttrs<F>>>,
) -> Option<Value<SharedAttrs<F>, Addr<F>>>
    ensures { result ≡ option_map route_value row }
{
    match row {
        Some(row) => Some(Value::Route(row)),
        None => None,
    }
}
