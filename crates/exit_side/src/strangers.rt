//! Readers of the queue that are no peer's, as that of the forwarding side. They leave the exits as
//! they were ([`StrangersReadOn`](../specs/Laws.antt)).

ghost use Rattle.std.specs.Prelude.{◌≡◌, IfOk, OnErr, IfSome, IsSome, length, [], None};
ghost use Rattle.std.specs.Option.{option_copied};
ghost use Rattle.std.specs.FinMap as map;
ghost use Rattle.addr4.specs.Places.{key_of};
ghost use Rattle.bgp_attr.specs.Routes.{Route as Routed};
ghost use Rattle.link_change.specs.Rows.{Rows, IsNextCandidate, CoversRows};
ghost use Rattle.fanout_queue.specs.Queues.{Takes, AllBelowRead};
ghost use Rattle.fanout_queue.specs.Readers.{read_rows, read_candidates, row_before};
ghost use Rattle.exit_side.specs.Exits.{with_queue};

use crate::exits::Exits;
use addr4::{Memory, Place, Prefix};
use bgp_attr::{Route, SharedAttrs};
use fanout_queue::Reader;
use link_change::{Change, Upstream};
use peer_out::Writes;

impl<F: Writes> Exits<F> {
    /// A reader joins at the end of the queue, under the least number that none has. For want of memory nothing changes.
    pub fn join(&mut self) -> Result<Reader, Memory>
        ensures fresh { IfOk result (λ reader. map.get self.old.queue reader ≡ None) }
        ensures least { IfOk result (AllBelowRead self.old.queue) }
        ensures ok { IfOk result (λ reader. self.new ≡ with_queue (map.insert self.old.queue reader []) self.old) }
        ensures memory { OnErr result (self.new ≡ self.old) }
    {
        self.queue.join_reader()
    }

    /// Takes the first change that the reader hasn't taken. None exactly where there is none. For
    /// want of memory nothing changes.
    pub fn take(
        &mut self,
        reader: &mut Reader,
    ) -> Result<Option<Change<Route<SharedAttrs<F>>, Prefix<F>>>, Memory>
        requires { IsSome (map.get self.old.queue reader.old) }
        ensures same { reader.new ≡ reader.old }
        ensures ok { IfOk result (Takes self.old.queue self.new.queue reader.old) }
        ensures after { self.new ≡ with_queue self.new.queue self.old }
        ensures memory { OnErr result (self.new ≡ self.old) }
    {
        self.queue.take(reader)
    }

    /// How many changes the reader hasn't taken.
    pub fn waiting(&self, reader: &Reader) -> u128
        requires { IsSome (map.get self.now.queue reader.now) }
        ensures { IfSome (map.get self.now.queue reader.now) (λ unread. result ≡ length unread) }
    {
        self.queue.waiting(reader)
    }

    /// What the reader has at a prefix.
    pub fn read<U: Upstream<F, Row = Route<SharedAttrs<F>>>>(
        &self,
        reader: &Reader,
        best: &U,
        prefix: Prefix<F>,
    ) -> Result<Option<Route<SharedAttrs<F>>>, Memory>
        requires { IsSome (map.get self.now.queue reader.now) }
        ensures { IfOk result (λ row. row ≡ read_rows self.now.queue reader.now (U.rows best.now) prefix) }
    {
        self.queue.asked(reader, best, prefix)
    }

    /// The first change at a prefix that the reader hasn't taken, if there is one. What the reader has there is the row before it,
    /// or else the best one.
    pub fn first_unread(
        &self,
        reader: &Reader,
        prefix: Prefix<F>,
    ) -> Option<&Change<Route<SharedAttrs<F>>, Prefix<F>>>
        requires { IsSome (map.get self.now.queue reader.now) }
        ensures { (best : Rows Routed) → read_rows self.now.queue reader.now best prefix ≡ row_before (option_copied result) (best prefix) }
    {
        self.queue.first_unread(reader, prefix)
    }

    /// Where the reader's next row may stand, beyond a place.
    pub fn next_read<U: Upstream<F, Row = Route<SharedAttrs<F>>>>(
        &self,
        reader: &Reader,
        best: &U,
        after: Place<Prefix<F>>,
    ) -> Option<Prefix<F>>
        requires { IsSome (map.get self.now.queue reader.now) }
        ensures next { IsNextCandidate (read_candidates self.now.queue reader.now (U.candidates best.now)) (key_of after) result }
        ensures covers { CoversRows (read_candidates self.now.queue reader.now (U.candidates best.now)) (read_rows self.now.queue reader.now (U.rows best.now)) }
    {
        self.queue.next_candidate(reader, best, after)
    }
}
