//! Laws of known next hops, for the proofs of the crates above. Each is a function that does nothing, whose contract is the
//! law.

ghost use Rattle.nexthop_known.specs.Laws.{NothingIsCounted, OneMoreCounts, OneLessCounts, OneForAnother, MoreAndLess, CountsFollow, NamedIsCounted, CountedIsNamed, NothingAgrees, AnsweredAgrees, EarlyAgrees, EarlyIsGivenUp, ForgottenAgrees, SettledAgrees, NoneCounts, SomeCounts, OneCountsNoMore, SameCount, KnownCount, NoneStale};

/// The numbers of rows that name a next hop follow the change of a row.
pub fn counts_follow_rows()
    ensures first { NothingIsCounted }
    ensures more { OneMoreCounts }
    ensures less { OneLessCounts }
    ensures another { OneForAnother }
    ensures back { MoreAndLess }
    ensures follow { CountsFollow }
{}

/// A next hop has a number exactly where some row names it.
pub fn named_are_counted()
    ensures named { NamedIsCounted }
    ensures counted { CountedIsNamed }
{}

/// Each next hop that isn't stale has the register's present answer and its interest, and no interest is kept without one: so
/// it stays where a next hop is answered, forgotten, or its answer comes into force.
pub fn answers_agree<A>()
    ensures nothing { NothingAgrees A }
    ensures answered { AnsweredAgrees A }
    ensures early { EarlyAgrees A }
    ensures given_up { EarlyIsGivenUp A }
    ensures forgotten { ForgottenAgrees A }
    ensures settled { SettledAgrees A }
{}

/// How many known next hops pass a test, as whether they are stale.
pub fn next_hops_are_counted<A>()
    ensures none { NoneCounts A }
    ensures some { SomeCounts A }
    ensures fewer { OneCountsNoMore A }
    ensures same { SameCount A }
    ensures known { KnownCount A }
    ensures stale { NoneStale A }
{}
