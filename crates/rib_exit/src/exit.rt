//! The RIB's exit, as the crates above see it.

ghost use Rattle.std.specs.Prelude.{◌≡◌, OnOk};
ghost use Rattle.link_change.specs.Rows.{no_rows};
ghost use Rattle.journal_text.specs.Walk.{no_links};
ghost use Rattle.journal_text.specs.Journals.{with_entries};
ghost use Rattle.rib_exit.specs.Exits.{nothing_yet, exit_links};
ghost use Rattle.rib_exit.specs.Steps.{LeadsExit, begin_entries};

use addr4::{Memory, Texts};
use ext_int::ExtInt;
use journal_text::{Entry, Journal, Link};
use rib_split::Splitter;
use std::alloc::Global;

/// The RIB's exit: the splitter, and the merge into the forwarding table with what is known of next hops. Contracts see the rows
/// of `ebgp` and `ibgp` too, of which none is kept. `E` is the merge of the family.
#[derive(Drop)]
pub struct RibExit<E = ExtInt> {
    pub(crate) splitter: Splitter,
    pub(crate) forwarding: E,
}

impl<F: Texts> RibExit<ExtInt<F>> {
    /// No row on any link, and no next hop is known. Takes no memory.
    pub fn new(alloc: Global) -> RibExit<ExtInt<F>>
        ensures { result ≡ nothing_yet }
    {
        RibExit {
            splitter: Splitter::new(),
            forwarding: ExtInt::new(alloc),
        }
    }

    /// The four links begin, where no row stands yet.
    pub fn begin(&self, journal: &mut Journal<F>) -> Result<(), Memory>
        requires { self.now ≡ nothing_yet }
        ensures lines { OnOk result (journal.new ≡ with_entries journal.old begin_entries) }
        ensures leads { OnOk result (LeadsExit no_links begin_entries (exit_links self.now no_rows)) }
    {
        journal.push_entry(Entry::Begin(Link::Ebgp))?;
        journal.push_entry(Entry::Begin(Link::Ibgp))?;
        journal.push_entry(Entry::Begin(Link::Ext))?;
        journal.push_entry(Entry::Begin(Link::Fib))
    }
}
