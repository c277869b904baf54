//! Rows that name next hops come and go: the next hops that are known follow them.

ghost use Rattle.std.specs.Prelude.{◌≡◌, IfOk, OnOk, OnErr, Some, None};
ghost use Rattle.std.specs.Option.{option_map};
ghost use Rattle.nexthop_resolver.specs.Registered.{Agrees, KeepsOthers, told_of};
ghost use Rattle.nexthop_resolver.specs.Takes.{Moves, Keeps, KeepsOnly, TakesIn};

use crate::asking::{forget, learn};
use crate::resolver::Resolver;
use crate::rows::{FromMatch, Via};
use addr4::{Addr, Family, Memory, Prefix};
use link_change::Change;
use register_interest::Register;
use rib_route::Interior;

// The next hop of a row, if there is a row.
fn hop_of<F: Family, R: Via<F>>(row: &Option<R>) -> Option<Addr<F>>
    ensures { result ≡ option_map R.hop row.now }
{
    match row {
        None => None,
        Some(row) => Some(row.next_hop()),
    }
}

impl<F: Family, A: FromMatch<F>> Resolver<A, F> {
    // One row more names the next hop. For want of memory nothing changes.
    fn note(
        &mut self,
        hop: Addr<F>,
        register: &mut Register<Interior<Addr<F>>, F>,
    ) -> Result<(), Memory>
        requires agrees { Agrees A.kept_of self.old.client self.old.known register.old }
        ensures moves { OnOk result (Moves (told_of A.kept_of register.old) None (Some hop) self.old self.new) }
        ensures agrees { Agrees A.kept_of self.new.client self.new.known register.new }
        ensures others { KeepsOthers self.old.client register.old register.new }
        ensures memory { OnErr result (self.new ≡ self.old) }
    {
        if !self.tallies.one_more(hop)? {
            return Ok(());
        }
        match learn(&mut self.known, self.client, hop, register) {
            Ok(()) => Ok(()),
            Err(Memory) => {
                self.tallies.one_less(hop);
                Err(Memory)
            }
        }
    }

    // One row less names the next hop.
    fn release(&mut self, hop: Addr<F>, register: &mut Register<Interior<Addr<F>>, F>)
        requires agrees { Agrees A.kept_of self.old.client self.old.known register.old }
        ensures moves { Moves (told_of A.kept_of register.old) (Some hop) None self.old self.new }
        ensures only { KeepsOnly self.old.known self.new.known }
        ensures agrees { Agrees A.kept_of self.new.client self.new.known register.new }
        ensures others { KeepsOthers self.old.client register.old register.new }
    {
        if self.tallies.one_less(hop) {
            forget(&mut self.known, self.client, hop, register);
        }
    }

    // One row more, which names a next hop or none.
    fn note_row(
        &mut self,
        after: Option<Addr<F>>,
        register: &mut Register<Interior<Addr<F>>, F>,
    ) -> Result<(), Memory>
        requires agrees { Agrees A.kept_of self.old.client self.old.known register.old }
        ensures moves { OnOk result (Moves (told_of A.kept_of register.old) None after self.old self.new) }
        ensures agrees { Agrees A.kept_of self.new.client self.new.known register.new }
        ensures others { KeepsOthers self.old.client register.old register.new }
        ensures memory { OnErr result (self.new ≡ self.old) }
    {
        match after {
            None => Ok(()),
            Some(hop) => {
                self.note(hop, register)?;
                Ok(())
            }
        }
    }

    // One row less, which named a next hop or none.
    fn release_row(
        &mut self,
        before: Option<Addr<F>>,
        register: &mut Register<Interior<Addr<F>>, F>,
    )
        requires agrees { Agrees A.kept_of self.old.client self.old.known register.old }
        ensures moves { Moves (told_of A.kept_of register.old) before None self.old self.new }
        ensures only { KeepsOnly self.old.known self.new.known }
        ensures agrees { Agrees A.kept_of self.new.client self.new.known register.new }
        ensures others { KeepsOthers self.old.client register.old register.new }
    {
        match before {
            None => {}
            Some(hop) => self.release(hop, register),
        }
    }

    // A row names the second next hop in place of the first. The new one is noted before the old one is released; where both are
    // one, nothing changes. For want of memory nothing changes.
    fn swap(
        &mut self,
        before: Option<Addr<F>>,
        after: Option<Addr<F>>,
        register: &mut Register<Interior<Addr<F>>, F>,
    ) -> Result<(), Memory>
        requires agrees { Agrees A.kept_of self.old.client self.old.known register.old }
        ensures moves { OnOk result (Moves (told_of A.kept_of register.old) before after self.old self.new) }
        ensures agrees { Agrees A.kept_of self.new.client self.new.known register.new }
        ensures others { KeepsOthers self.old.client register.old register.new }
        ensures memory { OnErr result (self.new ≡ self.old) }
    {
        if before == after {
            return Ok(());
        }
        self.note_row(after, register)?;
        self.release_row(before, register);
        Ok(())
    }

    /// A change from above, as it goes on below: by the answers that hold at its prefix. A next hop that comes is asked for at
    /// once, and has one answer for both; one that no row names any more is forgotten. None exactly where the row below stays the
    /// same. For want of memory nothing changes.
    pub fn take_in<R: Via<F, Kept = A>>(
        &mut self,
        change: Change<R, Prefix<F>>,
        register: &mut Register<Interior<Addr<F>>, F>,
    ) -> Result<Option<Change<R::Lower, Prefix<F>>>, Memory>
        requires agrees { Agrees A.kept_of self.old.client self.old.known register.old }
        ensures taken { IfOk result (TakesIn R.hop R.made self.old self.new change) }
        ensures keeps { OnOk result (Keeps (told_of A.kept_of register.old) self.old self.new) }
        ensures agrees { Agrees A.kept_of self.new.client self.new.known register.new }
        ensures others { KeepsOthers self.old.client register.old register.new }
        ensures memory { OnErr result (self.new ≡ self.old) }
    {
        self.are_named();
        let prefix = change.prefix;
        let hop_before = hop_of(&change.before);
        let hop_after = hop_of(&change.after);
        let before = self.resolve(prefix, change.before);
        self.swap(hop_before, hop_after, register)?;
        self.are_named();
        let after = self.resolve(prefix, change.after);
        Ok(Change::between(prefix, before, after))
    }
}
