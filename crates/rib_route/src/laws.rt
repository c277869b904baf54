//! A law of distances, for the proofs of the crates above: a function that does nothing, whose contract is the law.

ghost use Rattle.rib_route.specs.Distances.{DistancesDiffer};

/// Different protocols have different distances.
pub fn distances_differ()
    ensures { DistancesDiffer }
{}
