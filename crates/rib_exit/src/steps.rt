//! What comes from above, and from the register; and turns of background work.

ghost use Rattle.std.specs.Prelude.{◌≡◌, IfOk, OnOk, OnErr};
ghost use Rattle.nexthop_resolver.specs.Registered.{KeepsOthers};
ghost use Rattle.journal_text.specs.Journals.{Adds};
ghost use Rattle.rib_exit.specs.Exits.{IsExit, AgreesWith, StandsOver};
ghost use Rattle.rib_exit.specs.Steps.{TakesExternal, TakesInterior, ComesOut, Stales, ReachesExit};

use crate::exit::RibExit;
use crate::lent::Ext;
use crate::passing::{pass, pass_both};
use crate::reading::Reading;
use addr4::{Addr, Memory, Prefix, Texts};
use bgp_attr::{Route, SharedAttrs};
use ext_int::ExtInt;
use journal_text::{Journal, Link};
use link_change::{Change, Turn, Upstream};
use register_interest::{Interest, Register};
use rib_route::{FibRow, Interior};
use rib_split::Split;

impl<F: Texts> RibExit<ExtInt<F>> {
    /// A change of the best routes, which the reader took: it goes through the splitter, and each part that this sends goes
    /// down, the add first. A next hop that comes is asked for at once, and one that no row of `ext` names any more is forgotten.
    /// Answers the change of `fib`: None exactly where its map stays the same.
    pub fn take_external<I: Upstream<F, Row = Interior<Addr<F>>>>(
        &mut self,
        change: &Change<Route<SharedAttrs<F>>, Prefix<F>>,
        int: &I,
        register: &mut Register<Interior<Addr<F>>, F>,
        journal: &mut Journal<F>,
    ) -> Result<Option<Change<FibRow<Addr<F>>, Prefix<F>>>, Memory>
        requires sound { IsExit self.old }
        requires agree { AgreesWith self.old register.old }
        ensures taken { IfOk result (λ sent. Adds (TakesExternal change.now (I.rows int.now) sent register.old register.new self.old self.new) journal.old journal.new) }
        ensures memory { OnErr result (KeepsOthers 0 register.old register.new) }
    {
        match self.splitter.take_in(change) {
            Split::Neither => {
                register.known();
                Ok(None)
            }
            Split::One(link, change) => {
                let hops = &mut self.forwarding;
                let sent = pass(hops, link, change, None, int, register, journal);
                register.known();
                sent
            }
            Split::Moved(link, add, delete) => {
                let hops = &mut self.forwarding;
                let sent = pass_both(hops, link, add, delete, int, register, journal);
                register.known();
                sent
            }
        }
    }

    /// A change of the interior routes, as it comes out on `fib`; None exactly where its map stays the same. What the register
    /// gave up with it is told by another call ([`reach`](RibExit::reach)).
    pub fn take_interior<B: Reading<F>>(
        &self,
        change: &Change<Interior<Addr<F>>, Prefix<F>>,
        best: &B,
        journal: &mut Journal<F>,
    ) -> Result<Option<Change<FibRow<Addr<F>>, Prefix<F>>>, Memory>
        requires stands { StandsOver (B.rows best.now) self.now }
        ensures { IfOk result (λ sent. Adds (TakesInterior change.now sent self.now) journal.old journal.new) }
    {
        let sent = self.forwarding.take_int(change, &Ext { best })?;
        journal.push_sent(Link::Fib, &sent)?;
        Ok(sent)
    }

    /// The register gave up these interests with a change of the interior routes: the answers that came with those of the
    /// exit are stale. No row changes, and nothing is said. For want of memory only some of them are stale, and the rows of
    /// `ebgp` and `ibgp` are as they were.
    pub fn reach(&mut self, reached: &[Interest<Prefix<F>>]) -> Result<(), Memory>
        requires sound { IsExit self.old }
        ensures stale { OnOk result (ReachesExit reached.now self.old self.new) }
        ensures memory { OnErr result (self.new.splitter ≡ self.old.splitter) }
    {
        for interest in reached {
            let own = interest.client == 0;
            if own {
                self.invalidate(interest.subnet)?;
            }
        }
        Ok(())
    }

    /// The answers that came with the subnet are stale: the register gave up the interest in it. No row changes, and nothing
    /// is said. For want of memory only some of them are stale, and the rows of `ebgp` and `ibgp` are as they were.
    pub fn invalidate(&mut self, subnet: Prefix<F>) -> Result<(), Memory>
        requires sound { IsExit self.old }
        ensures stale { OnOk result (Stales subnet self.old self.new) }
        ensures memory { OnErr result (self.new.splitter ≡ self.old.splitter) }
    {
        self.forwarding.invalidate(subnet)?;
        self.forwarding.are_named();
        Ok(())
    }

    /// One turn of the task `ext` (`ExtInt::unit`): a walk goes to the next candidate of `ext`, or ends; else the least stale
    /// next hop is asked for again; else a walk begins. Nothing exactly where there is no work; Quiet where no change comes out
    /// on `fib`.
    pub fn turn<I: Upstream<F, Row = Interior<Addr<F>>>, B: Reading<F>>(
        &mut self,
        int: &I,
        best: &B,
        register: &mut Register<Interior<Addr<F>>, F>,
        journal: &mut Journal<F>,
    ) -> Result<Turn<FibRow<Addr<F>>, Prefix<F>>, Memory>
        requires sound { IsExit self.old }
        requires agree { AgreesWith self.old register.old }
        requires stands { StandsOver (B.rows best.now) self.old }
        ensures taken { IfOk result (ComesOut (I.rows int.now) register.old register.new self.old self.new journal.old journal.new) }
        ensures memory { OnErr result (KeepsOthers 0 register.old register.new) }
    {
        let turn = self.forwarding.unit(int, &Ext { best }, register)?;
        self.forwarding.are_named();
        register.known();
        match turn {
            Turn::Nothing => Ok(Turn::Nothing),
            Turn::Quiet => Ok(Turn::Quiet),
            Turn::Sent(change) => {
                journal.push_change(Link::Fib, &change)?;
                Ok(Turn::Sent(change))
            }
        }
    }
}
