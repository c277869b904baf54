//! Laws of the peers' chains and of the tree of interior routes: what their steps do leaves no choice.
//!
//! The definitions of steps are relations: between what stands before and after, what comes out, and the entries of the journal. These
//! laws say that they are functions of what stands before. Most of it is said of falls: the messages of one change go down a way of
//! links that are all different, each a lawful change at the prefix, and so what they are follows from the rows before and after
//! ([`falls_are_one`]). That a way passes no link twice is so because the losses of a chain have different numbers
//! ([`ways_pass_links_once`]). A turn takes the least row of a stage, or goes to the next candidate of a walk, and there is one of
//! them alone.
//!
//! For the proofs of the crates above, that say the same of the router and of its whole output. Each law is a function that does
//! nothing, whose contract is the law.
#![tactic(auto)]

ghost use Rattle.chain_determinism.specs.Laws.{FrontIsOne, FallIsOne, FeedsPassOnce, SweepsPassOnce, RoutesPassOnce, LossesPassOnce, LeastRowIsOne, StageRowIsOne, FeedIsOne, TurnIsOne, WeldIsOne, LossIsOne, EditIsOne, TurnsHaveWork, RouteFallIsOne, LossFallIsOne};

/// What one change sends down a way of different links is one, however far it goes, where it leads from the same rows to the same.
pub fn falls_are_one<R>()
    ensures front { FrontIsOne }
    ensures fall { FallIsOne R }
{}

/// No way down a chain or the tree passes a link twice: from the live rows, or from the stage of a loss.
pub fn ways_pass_links_once()
    ensures feeds { FeedsPassOnce }
    ensures sweeps { SweepsPassOnce }
    ensures routes { RoutesPassOnce }
    ensures losses { LossesPassOnce }
{}

/// The row that a turn of the stage of a loss takes is one: its least row.
pub fn stages_take_one_row<R>()
    ensures least { LeastRowIsOne R }
    ensures stage { StageRowIsOne R }
{}

/// The steps of the peers' chains leave no choice; and a turn is one of a task that has work.
pub fn peer_steps_are_one()
    ensures feed { FeedIsOne }
    ensures turn { TurnIsOne }
    ensures weld { WeldIsOne }
    ensures loss { LossIsOne }
    ensures edit { EditIsOne }
    ensures work { TurnsHaveWork }
{}

/// What a change of an interior route sends down the tree to `int` is one, and so are its entries.
pub fn route_falls_are_one()
    ensures route { RouteFallIsOne }
    ensures loss { LossFallIsOne }
{}
