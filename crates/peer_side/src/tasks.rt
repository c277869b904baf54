//! Which task comes first, and how many rows there are.

ghost use Rattle.std.specs.Prelude.{◌≡◌, ◌≤◌, ◌+◌, length, IfOk, IfNone};
ghost use Rattle.std.specs.List.{find, flat_map, sum_by};
ghost use Rattle.std.specs.Ordering.{nat_cmp};
ghost use Rattle.std.specs.BTreeMap.{values, IsOrdered};
ghost use Rattle.loss_chain.specs.Steps.{first_task};
ghost use Rattle.in_chain.specs.Chains.{row_count};
ghost use Rattle.in_chain.specs.Steps.{chain_lags};
ghost use Rattle.peer_side.specs.Peers.{chain_tasks, deletion_tasks, filter_tasks, first_walk, first_lost, first_walking, HaveFew, has_peer_work, peer_lags, rows_in, lost_in, left_in, IsPeers};

use crate::peers::Peers;
use addr4::{Memory, Prefix, Texts};
use in_chain::{Chain, turns_are_bounded};
use journal_text::Task;
use std::collections::BTreeMap;

impl<F: Texts> Peers<F> {
    /// The first deletion stage, by peer, then session. None exactly where no row of a lost session is left.
    pub fn first_loss(&self) -> Option<Task>
        requires { IsPeers self.now }
        ensures first { result ≡ find (has_peer_work self.now) (deletion_tasks self.now) }
        ensures none { IfNone result (lost_in self.now ≡ 0) }
    {
        first_oldest(&self.chains)
    }

    /// The first filter's walk that is on, by peer. None exactly where no turn of a walk is left.
    pub fn first_walk(&self) -> Option<Task>
        requires { IsPeers self.now }
        ensures first { result ≡ find (has_peer_work self.now) (filter_tasks self.now) }
        ensures none { IfNone result (left_in self.now ≡ 0) }
    {
        turns_are_bounded();
        first_busy(&self.chains)
    }

    /// The first deletion stage that holds up a prefix, by peer, then session. Takes no memory.
    pub fn first_loss_at(&self, p: Prefix<F>) -> Option<Task>
        requires { IsPeers self.now }
        ensures { result ≡ find (λ task. peer_lags self.now task p) (deletion_tasks self.now) }
    {
        first_lost(&self.chains, p)
    }

    /// The first filter's walk that holds up a prefix, by peer. Takes no memory.
    pub fn first_walk_at(&self, p: Prefix<F>) -> Option<Task>
        requires { IsPeers self.now }
        ensures { result ≡ find (λ task. peer_lags self.now task p) (filter_tasks self.now) }
    {
        first_walking(&self.chains, p)
    }

    /// How many rows all `in.K` have. Memory where they are more than a u128 counts, which no memory holds.
    pub fn rows(&self) -> Result<u128, Memory>
        ensures { IfOk result (λ rows. rows ≡ rows_in self.now) }
    {
        count_rows(&self.chains)
    }
}

/// The oldest stage of the first chain that has one.
fn first_oldest<F: Texts>(chains: &BTreeMap<u32, Chain<F>>) -> Option<Task>
    ensures first { result ≡ first_task (flat_map chain_tasks (values chains.now)) }
    ensures ordered { IsOrdered nat_cmp chains.now }
{
    for chain in chains.values() {
        if let Some(task) = chain.oldest() {
            return Some(task);
        }
    }
    None
}

/// The walk of the first filter that has one.
fn first_busy<F: Texts>(chains: &BTreeMap<u32, Chain<F>>) -> Option<Task>
    ensures first { result ≡ first_walk (values chains.now) }
    ensures ordered { IsOrdered nat_cmp chains.now }
{
    for chain in chains.values() {
        if chain.busy() {
            return Some(Task::Fin(chain.number()));
        }
    }
    None
}

/// The first stage of a chain that holds up a prefix, the longest standing first. At most 16 stand.
fn first_stage<F: Texts>(chain: &Chain<F>, p: Prefix<F>) -> Option<Task>
    requires { length chain.now.incoming.tables.deletions ≤ 16 }
    ensures { result ≡ find (λ task. chain_lags chain.now task p) (chain_tasks chain.now) }
{
    for place in 0..16 {
        match chain.loss_at(place) {
            None => return None,
            Some(task) => {
                if chain.holds_up(task, p) {
                    return Some(task);
                }
            }
        }
    }
    None
}

/// The first stage that holds up a prefix.
fn first_lost<F: Texts>(chains: &BTreeMap<u32, Chain<F>>, p: Prefix<F>) -> Option<Task>
    requires few { HaveFew chains.now }
    ensures first { result ≡ first_lost p (values chains.now) }
    ensures ordered { IsOrdered nat_cmp chains.now }
{
    for (_, chain) in chains {
        if let Some(task) = first_stage(chain, p) {
            return Some(task);
        }
    }
    None
}

/// The first walk that holds up a prefix.
fn first_walking<F: Texts>(chains: &BTreeMap<u32, Chain<F>>, p: Prefix<F>) -> Option<Task>
    ensures first { result ≡ first_walking p (values chains.now) }
    ensures ordered { IsOrdered nat_cmp chains.now }
{
    for chain in chains.values() {
        let task = Task::Fin(chain.number());
        if chain.holds_up(task, p) {
            return Some(task);
        }
    }
    None
}

/// How many rows these chains have together.
fn count_rows<F: Texts>(chains: &BTreeMap<u32, Chain<F>>) -> Result<u128, Memory>
    ensures sum { IfOk result (λ rows. rows ≡ sum_by row_count (values chains.now)) }
    ensures ordered { IsOrdered nat_cmp chains.now }
{
    let mut rows: u128 = 0;
    for chain in chains.values() {
        rows = plus(rows, chain.rows())?;
    }
    Ok(rows)
}

/// The sum, which counts rows: no memory has so many that a u128 doesn't count them.
fn plus(a: u128, b: u128) -> Result<u128, Memory>
    ensures { IfOk result (λ sum. sum ≡ a + b) }
{
    match a.checked_add(b) {
        Some(sum) => Ok(sum),
        None => Err(Memory),
    }
}
