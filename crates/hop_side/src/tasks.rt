//! Whose next hops have work first, and how many are known.

ghost use Rattle.std.specs.Prelude.{◌≡◌, ◌+◌, IfOk, IfNone, is_some, option_map, option_and_then};
ghost use Rattle.std.specs.List.{find, sum_by};
ghost use Rattle.std.specs.Ordering.{nat_cmp};
ghost use Rattle.std.specs.FinMap as map;
ghost use Rattle.std.specs.BTreeMap.{values, IsOrdered};
ghost use Rattle.link_change.specs.Rows.{Rows};
ghost use Rattle.bgp_attr.specs.Routes.{Route};
ghost use Rattle.nexthop_resolver.specs.Kept.{route_hop};
ghost use Rattle.nexthop_resolver.specs.Left.{is_busy, hop_lags};
ghost use Rattle.hop_side.specs.Resolvers.{PeerRows, resolver_at, rows_by, same_metric, hop_holds_up, has_hop_work, known_of, known_in, Beyonds, left_in};
ghost use Rattle.hop_side.specs.Tasks.{first_of, first_lagging};

use crate::hops::NextHops;
use addr4::{Addr, Family, Memory, Prefix, Texts};
use nexthop_resolver::{Metric, Resolver};
use std::collections::BTreeMap;

/// The links `filt.K` of all peers, as far as their rows name next hops.
pub trait Named<F: Family> {
    /// The rows, by the peer's number.
    ghost rows: { Self → PeerRows };

    /// The next hop of the row of a peer at a prefix; None exactly where there is none. Takes no memory.
    fn next_hop(&self, number: u32, p: &Prefix<F>) -> Option<Addr<F>>
        ensures { result ≡ option_map route_hop (rows self.now number p.now) };
}

impl<F: Texts> NextHops<F> {
    /// Whether the next hops of a peer have work: a walk is on, a next hop is stale, or a fresh answer isn't in force.
    pub fn has_work(&self, number: u32) -> bool
        ensures { result ≡ has_hop_work self.now number }
    {
        match self.resolvers.get(&number) {
            Some(resolver) => is_busy(resolver),
            None => false,
        }
    }

    /// Whether the task of a peer's next hops holds up a prefix, where the row of `filt.K` there names this next hop, if it does:
    /// the next hop is stale, or its fresh answer isn't in force there. Takes no memory.
    pub fn holds_up(&self, number: u32, hop: Option<Addr<F>>, p: Prefix<F>) -> bool
        ensures { result ≡ hop_holds_up self.now number p hop }
    {
        match self.resolvers.get(&number) {
            Some(resolver) => lags(resolver, hop, p),
            None => false,
        }
    }

    /// Whether the row of `filt.K` at a prefix that names this next hop goes on to `res.K`. Takes no memory.
    pub fn has(&self, number: u32, hop: Option<Addr<F>>, p: Prefix<F>) -> bool
        ensures { (upper : Rows Route) → option_map route_hop (upper p) ≡ hop → result ≡ is_some (rows_by (resolver_at number self.now) upper p) }
    {
        let Some(hop) = hop else {
            return false;
        };
        match self.resolvers.get(&number) {
            Some(resolver) => is_reached(resolver.answer(hop, p)),
            None => false,
        }
    }

    /// The first peer, by number, whose next hops have work. None exactly where no turn is left.
    pub fn first_busy(&self) -> Option<u32>
        ensures first { result ≡ find (has_hop_work self.now) (map.keys self.now) }
        ensures none { IfNone result ((beyonds : Beyonds) → left_in beyonds self.now ≡ 0) }
    {
        first_of(&self.resolvers)
    }

    /// The first peer, by number, whose task holds up a prefix, where these are the rows of the links `filt.K`. Takes no memory.
    pub fn first_held<U: Named<F>>(&self, uppers: &U, p: Prefix<F>) -> Option<u32>
        ensures { result ≡ find (λ k. hop_holds_up self.now k p (option_map route_hop (U.rows uppers.now k p))) (map.keys self.now) }
    {
        first_lagging(&self.resolvers, uppers, p)
    }

    /// How many next hops all resolvers know, each its own. Memory where they are more than a u128 counts, which no memory holds.
    pub fn known(&self) -> Result<u128, Memory>
        ensures { IfOk result (λ known. known ≡ known_in self.now) }
    {
        count_known(&self.resolvers)
    }
}

/// Whether a resolver has work.
fn is_busy<F: Texts>(resolver: &Resolver<Metric, F>) -> bool
    ensures { result ≡ is_busy same_metric resolver.now }
{
    resolver.busy()
}

/// The first peer whose resolver holds up a prefix.
fn first_lagging<F: Texts, U: Named<F>>(
    resolvers: &BTreeMap<u32, Resolver<Metric, F>>,
    uppers: &U,
    p: Prefix<F>,
) -> Option<u32>
    ensures first { result ≡ first_lagging (U.rows uppers.now) p resolvers.now.entries }
    ensures ordered { IsOrdered nat_cmp resolvers.now }
{
    for (number, resolver) in resolvers {
        if lags(resolver, uppers.next_hop(*number, &p), p) {
            return Some(*number);
        }
    }
    None
}

/// Whether a resolver holds up a prefix where this next hop is named.
fn lags<F: Texts>(resolver: &Resolver<Metric, F>, hop: Option<Addr<F>>, p: Prefix<F>) -> bool
    ensures { result ≡ hop_lags same_metric resolver.now p hop }
{
    resolver.holds_up(hop, p)
}

/// Whether the answer has a metric.
fn is_reached(answer: Option<Metric>) -> bool
    ensures { result ≡ is_some (option_and_then (λ m. m.igp) answer) }
{
    match answer {
        Some(metric) => metric.igp.is_some(),
        None => false,
    }
}

/// The first peer whose resolver has work.
fn first_of<F: Texts>(resolvers: &BTreeMap<u32, Resolver<Metric, F>>) -> Option<u32>
    ensures first { result ≡ first_of resolvers.now.entries }
    ensures ordered { IsOrdered nat_cmp resolvers.now }
{
    for (number, resolver) in resolvers {
        if is_busy(resolver) {
            return Some(*number);
        }
    }
    None
}

/// How many next hops these know together.
fn count_known<F: Texts>(resolvers: &BTreeMap<u32, Resolver<Metric, F>>) -> Result<u128, Memory>
    ensures sum { IfOk result (λ known. known ≡ sum_by known_of (values resolvers.now)) }
    ensures ordered { IsOrdered nat_cmp resolvers.now }
{
    let mut known: u128 = 0;
    for resolver in resolvers.values() {
        known = plus(known, resolver.known())?;
    }
    Ok(known)
}

/// The sum, which counts next hops: no memory has so many that a u128 doesn't count them.
fn plus(a: u128, b: u128) -> Result<u128, Memory>
    ensures { IfOk result (λ sum. sum ≡ a + b) }
{
    match a.checked_add(b) {
        Some(sum) => Ok(sum),
        None => Err(Memory),
    }
}
