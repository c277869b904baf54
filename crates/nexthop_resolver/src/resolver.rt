//! The stage of next hops.

ghost use Rattle.std.specs.Prelude.{◌≡◌, Bool, IfOk, OnOk, OnErr, MatchBool, Some};
ghost use Rattle.std.specs.Option.{option_map};
ghost use Rattle.std.specs.FinMap as map;
ghost use Rattle.addr4.specs.Places.{key_of};
ghost use Rattle.link_change.specs.Rows.{IsNextCandidate, CoversRows};
ghost use Rattle.pass_core.specs.Passed.{function_at};
ghost use Rattle.pass_core.specs.Turns.{passed};
ghost use Rattle.nexthop_resolver.specs.Resolving.{AreNamed, nothing_known, in_force_by, fresh_by, passes, made_by, goes_on, resolved, res_rows, is_in_force};
ghost use Rattle.nexthop_resolver.specs.Takes.{Invalidates, PartlyInvalidates};
ghost use Rattle.nexthop_resolver.specs.Left.{TellsAlike, hop_lags};
ghost use Rattle.nexthop_resolver.specs.Turns.{Rests, HasWork};

use crate::rows::{FromMatch, Via};
use addr4::{Addr, Family, Memory, Place, Prefix, V4};
use link_change::Upstream;
use nexthop_known::{Known, Tallies};
use std::alloc::Global;
use std::marker::Model;

/// The stage of next hops. Contracts see how many rows above name each next hop, the answers about these, and the place of the
/// walk that is on, if any.
#[derive(Drop)]
pub struct Resolver<A, F: Family = V4> {
    pub(crate) client: u8,
    pub(crate) tallies: Tallies<F>,
    pub(crate) known: Known<A, F>,
    pub(crate) walk: Option<Place<Prefix<F>>>,
}

impl<A, F: Family> Model for Resolver<A, F> {
    ghost use Rattle.std.specs.Option.{option_map};
    ghost use Rattle.addr4.specs.Places.{key_of};
    ghost use Rattle.nexthop_resolver.specs.Resolving.{Resolving, AreNamed, resolving_code};

    ghost Value = { Resolving A };

    ghost coded = { resolving_code A.code };

    ghost view = { λ r. record { client = r.client; counts = r.tallies; known = r.known; walk = option_map key_of r.walk } };

    ghost invariant = { λ r. AreNamed r.tallies r.known };
}

// What a row goes on as by an answer; by none it doesn't.
fn made_by<F: Family, R: Via<F>>(row: R, answer: Option<R::Kept>) -> Option<R::Lower>
    ensures { result ≡ made_by R.hop R.made row answer }
{
    match answer {
        None => None,
        Some(answer) => row.resolved(answer),
    }
}

// Whether the answers in force hold at a prefix: during a walk, beyond its place.
fn is_in_force<F: Family>(walk: &Option<Place<Prefix<F>>>, prefix: Prefix<F>) -> bool
    ensures { result ≡ is_in_force (option_map key_of walk.now) prefix }
{
    match walk {
        None => true,
        Some(Place::Before) => true,
        Some(Place::At(last)) => *last < prefix,
    }
}

impl<F: Family, A: FromMatch<F>> Resolver<A, F> {
    /// No next hop is known. The register knows the resolver as this client. Takes no memory.
    pub fn new(client: u8, alloc: Global) -> Resolver<A, F>
        ensures { result ≡ nothing_known client }
    {
        Resolver {
            client,
            tallies: Tallies::new(alloc),
            known: Known::new(alloc),
            walk: None,
        }
    }

    /// The next hops that rows name are those that are known.
    pub fn are_named(&self)
        ensures { AreNamed self.now.counts self.now.known }
    {
        let _known = &self.known;
    }

    /// How many next hops are known.
    pub fn known(&self) -> u128
        ensures { result ≡ map.len self.now.known }
    {
        self.known.known()
    }

    /// Whether there is something to do: a walk is on, a next hop is stale, or a fresh answer isn't in force.
    pub fn busy(&self) -> bool
        ensures { MatchBool result (HasWork self.now) (Rests self.now) }
    {
        if self.walk.is_some() {
            return true;
        }
        if self.known.next_stale().is_some() {
            return true;
        }
        self.known.differs()
    }

    /// Whether a row that names this next hop, if one does, may go on at a prefix by another answer than the register's present
    /// one: the next hop is stale, or its fresh answer isn't the one in force, which holds there.
    pub fn holds_up(&self, hop: Option<Addr<F>>, prefix: Prefix<F>) -> bool
        ensures { (alike : A → A → Bool) → TellsAlike alike → result ≡ hop_lags alike self.now prefix hop }
    {
        match hop {
            None => false,
            Some(hop) => self.hop_lags(hop, prefix),
        }
    }

    // The same of one next hop.
    fn hop_lags(&self, hop: Addr<F>, prefix: Prefix<F>) -> bool
        ensures { (alike : A → A → Bool) → TellsAlike alike → result ≡ hop_lags alike self.now prefix (Some hop) }
    {
        if self.known.is_stale(hop) {
            return true;
        }
        if !is_in_force(&self.walk, prefix) {
            return false;
        }
        self.known.differs_at(hop)
    }

    /// The answers that came with the subnet are stale: the register gave up the interest in it. For want of memory some of them
    /// are stale, and the others as they were.
    pub fn invalidate(&mut self, subnet: Prefix<F>) -> Result<(), Memory>
        ensures stale { OnOk result (Invalidates subnet self.old self.new) }
        ensures memory { OnErr result (PartlyInvalidates subnet self.old self.new) }
    {
        self.known.stale(subnet)?;
        Ok(())
    }

    /// What a row goes on as by the answers in force.
    pub(crate) fn by_in_force<R: Via<F, Kept = A>>(&self, row: Option<R>) -> Option<R::Lower>
        ensures { result ≡ goes_on R.hop R.made (in_force_by self.now.known) row }
    {
        match row {
            None => None,
            Some(row) => {
                let answer = self.known.in_force(row.next_hop());
                made_by(row, answer)
            }
        }
    }

    /// What a row goes on as by the fresh answers.
    pub(crate) fn by_fresh<R: Via<F, Kept = A>>(&self, row: Option<R>) -> Option<R::Lower>
        ensures { result ≡ goes_on R.hop R.made (fresh_by self.now.known) row }
    {
        match row {
            None => None,
            Some(row) => {
                let answer = self.known.fresh_of(row.next_hop());
                made_by(row, answer)
            }
        }
    }

    /// What a row at a prefix goes on as.
    pub(crate) fn resolve<R: Via<F, Kept = A>>(
        &self,
        prefix: Prefix<F>,
        row: Option<R>,
    ) -> Option<R::Lower>
        ensures { result ≡ passed (resolved R.hop R.made) (passes self.now) prefix row }
    {
        if is_in_force(&self.walk, prefix) {
            return self.by_in_force(row);
        }
        self.by_fresh(row)
    }

    /// The row at a prefix of the link below.
    pub fn asked<R: Via<F, Kept = A>, U: Upstream<F, Row = R>>(
        &self,
        upper: &U,
        prefix: Prefix<F>,
    ) -> Result<Option<R::Lower>, Memory>
        ensures { IfOk result (λ row. row ≡ res_rows R.hop R.made self.now (U.rows upper.now) prefix) }
    {
        let row = upper.asked(&prefix)?;
        Ok(self.resolve(prefix, row))
    }

    /// The answer about a next hop that holds at a prefix, if it is known.
    pub fn answer(&self, hop: Addr<F>, prefix: Prefix<F>) -> Option<A>
        ensures { result ≡ function_at (passes self.now) prefix hop }
    {
        if is_in_force(&self.walk, prefix) {
            return self.known.in_force(hop);
        }
        self.known.fresh_of(hop)
    }

    /// The least candidate of the link below beyond a place: those of the link above, of which some may have no row below.
    /// Every row below stands at one.
    pub fn next_candidate<R: Via<F, Kept = A>, U: Upstream<F, Row = R>>(
        &self,
        upper: &U,
        after: Place<Prefix<F>>,
    ) -> Option<Prefix<F>>
        ensures next { IsNextCandidate (U.candidates upper.now) (key_of after) result }
        ensures covers { CoversRows (U.candidates upper.now) (res_rows R.hop R.made self.now (U.rows upper.now)) }
    {
        upper.next_candidate(&after)
    }
}
