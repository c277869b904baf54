//! Laws of the register, for the proofs of the crates above. Each is a function that does nothing, whose contract is the law.

ghost use Rattle.register_interest.specs.Laws.{LongestIsLongest, OneMatch, NotHit};

/// What the contracts call the longest row holds the address, and no longer row does; it is none where no row holds it.
pub fn longest_is_longest<R>()
    ensures { LongestIsLongest R }
{}

/// Each address of the answered subnet has the answered match.
pub fn one_match<R>()
    ensures { OneMatch R }
{}

/// A change that doesn't reach an interest leaves the longest row of each address of its subnet.
pub fn not_hit<R>()
    ensures { NotHit R }
{}
