//! The nine steps.

ghost use Rattle.std.specs.Prelude.{◌≡◌};
ghost use Rattle.best_path.specs.Steps.{beats_by};
ghost use Rattle.best_path.specs.Leaders.{first_steps, last_steps, goes_before};

use crate::candidate::Candidate;

/// A step of RFC 4271, section 9.1.2.2; the first one is phase 2's own (section 9.1.2), and the last but one that of RFC 4456,
/// section 9.
#[derive(Clone, Copy, PartialEq, Eq)]
pub(crate) enum Step {
    /// 1. The highest degree of preference (section 9.1.2).
    Preference,
    /// 2. The fewest AS numbers in the path, an AS_SET counting 1 (section 9.1.2.2 a).
    PathLength,
    /// 3. The lowest ORIGIN (section 9.1.2.2 b).
    Origin,
    /// 4. The lowest MULTI_EXIT_DISC of those from one neighbour AS (section 9.1.2.2 c).
    Med,
    /// 5. External peers before internal ones (section 9.1.2.2 d).
    External,
    /// 6. The lowest interior cost to the next hop (section 9.1.2.2 e).
    InteriorMetric,
    /// 7. The lowest BGP identifier, or ORIGINATOR_ID where one is there (section 9.1.2.2 f; RFC 4456, section 9).
    Identifier,
    /// 8. The shortest CLUSTER_LIST (RFC 4456, section 9).
    ClusterCount,
    /// 9. The lowest address of the peer (section 9.1.2.2 g).
    Address,
}

/// Whether a candidate takes the other one out in this step.
pub(crate) fn beats(step: Step, one: &Candidate, other: &Candidate) -> bool
    ensures { result ≡ beats_by step one.now other.now }
{
    match step {
        Step::Preference => other.pref < one.pref,
        Step::PathLength => one.hops < other.hops,
        Step::Origin => one.origin_rank() < other.origin_rank(),
        Step::Med => one.neighbour_as == other.neighbour_as && one.med < other.med,
        Step::External => !one.internal && other.internal,
        Step::InteriorMetric => one.igp < other.igp,
        Step::Identifier => one.id < other.id,
        Step::ClusterCount => one.clusters < other.clusters,
        Step::Address => one.addr < other.addr,
    }
}

/// Whether a candidate goes before the other one in the steps before MULTI_EXIT_DISC: the first of them in which they differ
/// decides.
pub(crate) fn is_ahead(one: &Candidate, other: &Candidate) -> bool
    ensures { result ≡ goes_before first_steps one.now other.now }
{
    if one.pref != other.pref {
        return beats(Step::Preference, one, other);
    }
    if one.hops != other.hops {
        return beats(Step::PathLength, one, other);
    }
    beats(Step::Origin, one, other)
}

/// Whether a candidate goes before the other one in the steps behind MULTI_EXIT_DISC: the first of them in which they differ
/// decides.
pub(crate) fn is_nearer(one: &Candidate, other: &Candidate) -> bool
    ensures { result ≡ goes_before last_steps one.now other.now }
{
    if one.internal != other.internal {
        return beats(Step::External, one, other);
    }
    if one.igp != other.igp {
        return beats(Step::InteriorMetric, one, other);
    }
    if one.id != other.id {
        return beats(Step::Identifier, one, other);
    }
    if one.clusters != other.clusters {
        return beats(Step::ClusterCount, one, other);
    }
    beats(Step::Address, one, other)
}
