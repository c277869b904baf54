//! Which deletion stage holds up a prefix first. Nothing here takes memory.

ghost use Rattle.std.specs.Prelude.{◌≡◌, nat_lt, option_map, None, Some};
ghost use Rattle.std.specs.List.{find, list_any};
ghost use Rattle.std.specs.FinMap as map;
ghost use Rattle.journal_text.specs.declared.link.Task.TheVariants as tasks;
ghost use Rattle.link_change.specs.Rows.{IsNextCandidate, with_rows};
ghost use Rattle.loss_chain.specs.Held.{has_row, has_over};
ghost use Rattle.loss_chain.specs.Stages.{deletions_of};
ghost use Rattle.rib_tree.specs.BranchSteps.{table_holds_up};
ghost use Rattle.rib_tree.specs.Steps.{tree_holds_up};
ghost use Rattle.rib_tree.specs.Trees.{IsTree, tree_tasks};

use crate::branch::Branch;
use crate::tree::Tree;
use addr4::{Addr, Place, Prefix, Texts};
use journal_text::Task;
use loss_chain::{Deletion, Stage};
use rib_route::Interior;

impl<F: Texts> Tree<F> {
    /// The first task, by protocol (connected, static, ospf, rip) and loss, whose lost table still has a prefix, or one that
    /// holds one of these addresses.
    pub fn first_loss_at(&self, p: Prefix<F>, addresses: &[Addr<F>]) -> Option<Task>
        requires { IsTree self.now }
        ensures { result ≡ find (tree_holds_up self.now p addresses.now) (tree_tasks self.now) }
    {
        let ospf = self.ospf.first_loss_at(p, addresses);
        let dynamic = ospf.or(self.rip.first_loss_at(p, addresses));
        let statics = self.statics.first_loss_at(p, addresses);
        let below = statics.or(dynamic);
        self.connected.first_loss_at(p, addresses).or(below)
    }
}

impl<F: Texts> Branch<F> {
    /// The first task of a protocol, the longest standing first.
    fn first_loss_at(&self, p: Prefix<F>, addresses: &[Addr<F>]) -> Option<Task>
        ensures { result ≡ option_map (λ d. tasks.Rdel self.now.proto d.number) (find (λ d. table_holds_up (Some d.rows) p addresses.now) self.now.tables.deletions) }
    {
        let loss = first_lost(self.lowest(), p, addresses)?;
        Some(Task::Rdel(self.proto(), loss))
    }
}

// The number of the first loss, from this stage upward.
fn first_lost<F: Texts>(
    stage: &Stage<Interior<Addr<F>>, F>,
    p: Prefix<F>,
    addresses: &[Addr<F>],
) -> Option<u32>
    ensures { result ≡ option_map (λ d. d.number) (find (λ d. table_holds_up (Some d.rows) p addresses.now) (deletions_of stage.now)) }
{
    match stage {
        Stage::Top(_) => None,
        Stage::Deletion(deletion, upper) => {
            if holds_up(deletion, p, addresses) {
                return Some(deletion.number());
            }
            first_lost(upper, p, addresses)
        }
    }
}

// Whether a lost table still has a prefix, or one that holds one of the addresses.
fn holds_up<F: Texts>(
    deletion: &Deletion<Interior<Addr<F>>, F>,
    p: Prefix<F>,
    addresses: &[Addr<F>],
) -> bool
    ensures { result ≡ table_holds_up (Some deletion.now.rows) p addresses.now }
{
    match deletion.next_held(Place::Before) {
        Some(least) => has(deletion, least, p) || is_over_any(deletion, least, addresses),
        None => false,
    }
}

// Whether a lost table, whose least prefix this is, has a prefix.
fn has<F: Texts>(deletion: &Deletion<Interior<Addr<F>>, F>, least: Prefix<F>, p: Prefix<F>) -> bool
    requires { IsNextCandidate (with_rows (map.get deletion.now.rows)) None (Some least) }
    ensures { result ≡ has_row (Some deletion.now.rows) p }
{
    if is_before(p.address(), least) {
        return false;
    }
    deletion.held(p).is_some()
}

// Whether it has one that holds one of the addresses.
fn is_over_any<F: Texts>(
    deletion: &Deletion<Interior<Addr<F>>, F>,
    least: Prefix<F>,
    addresses: &[Addr<F>],
) -> bool
    requires { IsNextCandidate (with_rows (map.get deletion.now.rows)) None (Some least) }
    ensures { result ≡ list_any (has_over (Some deletion.now.rows)) addresses.now }
{
    for address in addresses {
        if is_over(deletion, least, *address) {
            return true;
        }
    }
    false
}

// Whether it has one that holds an address. The prefixes of the family that hold it ascend in the table's order: so those before
// the next row that the table has are passed over, and none is left where that row begins behind the address, as the row behind the
// longest of them does.
fn is_over<F: Texts>(
    deletion: &Deletion<Interior<Addr<F>>, F>,
    least: Prefix<F>,
    address: Addr<F>,
) -> bool
    requires { IsNextCandidate (with_rows (map.get deletion.now.rows)) None (Some least) }
    ensures { result ≡ has_over (Some deletion.now.rows) address }
{
    address.known();
    let mut next = least;
    for bits in 0..F::WIDTH + 1 {
        if is_before(address, next) {
            return false;
        }
        let Some(prefix) = Prefix::new(address, bits) else {
            unreachable!()
        };
        if prefix < next {
            continue;
        }
        if deletion.held(prefix).is_some() {
            return true;
        }
        next = match deletion.next_held(Place::At(prefix)) {
            Some(beyond) => beyond,
            None => return false,
        };
    }
    next.known();
    false
}

// Whether an address comes before all that a prefix holds.
fn is_before<F: Texts>(address: Addr<F>, p: Prefix<F>) -> bool
    ensures { result ≡ nat_lt address p.address }
{
    address < p.address()
}
