//! What comes from `best`, and turns of background work.

ghost use Rattle.std.specs.Prelude.{◌≡◌, IfOk, OnOk, OnErr};
ghost use Rattle.exit_side.specs.Exits.{IsExits, AllStand};
ghost use Rattle.exit_side.specs.Steps.{PutsExit, ComesOut};

use crate::exits::Exits;
use addr4::{Memory, Prefix};
use bgp_attr::{Route, SharedAttrs};
use filter_bank::RouteUpstream;
use journal_text::Journal;
use link_change::{Change, Turn};
use out_chain::a_session_stands;
use peer_out::{SentRoute, Writes};

impl<F: Writes> Exits<F> {
    /// A change of `best` joins the queue, once for all readers. No link of the exits changes yet.
    /// For want of memory nothing changes.
    pub fn put(&mut self, change: Change<Route<SharedAttrs<F>>, Prefix<F>>) -> Result<(), Memory>
        requires sound { IsExits self.old }
        ensures put { OnOk result (PutsExit change self.old self.new) }
        ensures memory { OnErr result (self.new ≡ self.old) }
    {
        a_session_stands();
        self.queue.put(change)
    }

    /// The queue is prepared for lookups of what its readers have (`Queue::prepare`). For want of
    /// memory they answer the same, and take longer.
    pub fn prepare(&mut self) -> Result<(), Memory>
        ensures { self.new ≡ self.old }
    {
        self.queue.prepare()
    }

    /// One turn of the task `out.J` (`OutChain::unit`): where the reader has something to take, its
    /// first change goes down; else the walk of the filter goes to the next candidate of `best`, or
    /// ends. Nothing exactly where there is no work; Quiet where no change comes out on `adv.J.S`.
    pub fn turn<U: RouteUpstream<F>>(
        &mut self,
        number: u32,
        best: &U,
        journal: &mut Journal<F>,
    ) -> Result<Turn<SentRoute<F>, Prefix<F>>, Memory>
        requires sound { IsExits self.old }
        requires stand { AllStand (U.rows best.now) self.old }
        ensures { IfOk result (ComesOut number (U.candidates best.now) (U.rows best.now) self.old self.new journal.old journal.new) }
    {
        a_session_stands();
        let Some(chain) = self.chains.get_mut(&number) else {
            return Ok(Turn::Nothing);
        };
        chain.unit(&mut self.queue, best, journal)
    }
}
