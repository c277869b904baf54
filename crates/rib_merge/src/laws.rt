//! A law of merged rows, for the proofs of the crates above: a function that does nothing, whose contract is the law.

ghost use Rattle.rib_merge.specs.Laws.{IsOfOneSide, IsLeastOfBoth, HasARow};
ghost use Rattle.std.specs.Prelude.{ℕ};

/// Whatever the distances, a merged row is one of the two rows at its prefix, no row there has a lesser distance, and one
/// is there where either side has a row.
pub fn the_lesser_distance_stands<R>()
    ensures one { IsOfOneSide R }
    ensures least { IsLeastOfBoth R }
    ensures there { HasARow R }
{}
