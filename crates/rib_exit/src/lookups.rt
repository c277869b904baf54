//! Lookups: whether a link is live, its row at a prefix, and where its rows may stand.

ghost use Rattle.std.specs.Prelude.{◌≡◌, IfOk, IsSome, is_some, option_map, Some};
ghost use Rattle.addr4.specs.Places.{key_of};
ghost use Rattle.link_change.specs.Rows.{Rows, IsNextCandidate, CoversRows};
ghost use Rattle.rib_route.specs.Rows.{Interior as Inner};
ghost use Rattle.journal_text.specs.Lines.{Value as Valuation};
ghost use Rattle.journal_text.specs.Walk.{HasRow};
ghost use Rattle.journal_text.specs.Values.{external_value, fib_value};
ghost use Rattle.rib_exit.specs.Exits.{exit_links, exit_candidates, StandsOver};

use crate::exit::RibExit;
use crate::lent::{Ext, next_on, row_on};
use crate::reading::Reading;
use addr4::{Addr, Memory, Place, Prefix, Texts};
use bgp_attr::SharedAttrs;
use ext_int::ExtInt;
use journal_text::{Link, Value};
use link_change::Upstream;
use rib_route::{External, FibRow, Interior};
use rib_split::BgpLink;

// The value of an external row, if there is one.
fn external_value<F: Texts>(
    row: Option<External<Addr<F>>>,
) -> Option<Value<SharedAttrs<F>, Addr<F>>>
    ensures { result ≡ option_map external_value row }
{
    match row {
        Some(row) => Some(Value::External(row)),
        None => None,
    }
}

// The value of a forwarding row, if there is one.
fn fib_value<F: Texts>(row: Option<FibRow<Addr<F>>>) -> Option<Value<SharedAttrs<F>, Addr<F>>>
    ensures { result ≡ option_map fib_value row }
{
    match row {
        Some(row) => Some(Value::FibRow(row)),
        None => None,
    }
}

impl<F: Texts> RibExit<ExtInt<F>> {
    /// Whether a link of the exit is live: `ebgp`, `ibgp`, `ext` and `fib`; no other link is.
    pub fn live(&self, link: Link) -> bool
        ensures { (int : Rows Inner) → result ≡ is_some (exit_links self.now int link) }
    {
        matches!(link, Link::Ebgp | Link::Ibgp | Link::Ext | Link::Fib)
    }

    /// The row at a prefix of a link, over the rows of `int` and the best routes; None where it has none. Memory only for want of
    /// memory.
    pub fn asked<I: Upstream<F, Row = Interior<Addr<F>>>, B: Reading<F>>(
        &self,
        link: Link,
        int: &I,
        best: &B,
        prefix: Prefix<F>,
    ) -> Result<Option<Value<SharedAttrs<F>, Addr<F>>>, Memory>
        requires own { IsSome (exit_links self.now (I.rows int.now) link) }
        requires stands { StandsOver (B.rows best.now) self.now }
        ensures { IfOk result (HasRow (exit_links self.now (I.rows int.now)) link prefix) }
    {
        match link {
            Link::Ebgp => Ok(external_value(row_on(best, BgpLink::Ebgp, prefix))),
            Link::Ibgp => Ok(external_value(row_on(best, BgpLink::Ibgp, prefix))),
            Link::Ext => Ok(external_value(best.external(&prefix))),
            Link::Fib => {
                let row = self.forwarding.asked(int, &Ext { best }, prefix)?;
                Ok(fib_value(row))
            }
            _ => unreachable!(),
        }
    }

    /// The least candidate of a link that lies beyond a place: of `ebgp` and `ibgp` its rows, of `ext` the rows of both, and of
    /// `fib` these and the candidates of `int`, some of which may have no row.
    pub fn next_candidate<I: Upstream<F, Row = Interior<Addr<F>>>, B: Reading<F>>(
        &self,
        link: Link,
        int: &I,
        best: &B,
        after: Place<Prefix<F>>,
    ) -> Option<Prefix<F>>
        requires own { IsSome (exit_links self.now (I.rows int.now) link) }
        requires stands { StandsOver (B.rows best.now) self.now }
        ensures next { IsNextCandidate (exit_candidates self.now (I.candidates int.now) link) (key_of after) result }
        ensures covers { (rows : Rows Valuation) → exit_links self.now (I.rows int.now) link ≡ Some rows → CoversRows (exit_candidates self.now (I.candidates int.now) link) rows }
    {
        match link {
            Link::Ebgp => next_on(best, BgpLink::Ebgp, after),
            Link::Ibgp => next_on(best, BgpLink::Ibgp, after),
            Link::Ext => best.next_external(&after),
            Link::Fib => self.forwarding.next_candidate(int, &Ext { best }, after),
            _ => unreachable!(),
        }
    }
}
