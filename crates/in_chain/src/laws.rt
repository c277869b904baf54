//! Laws of chains, for the proofs of the crates above. Each is a function that does nothing, whose contract is the law.

ghost use Rattle.in_chain.specs.Laws.{TurnsAreBounded, TurnsAreLeft, CandidatesAreCounted, FilteredRowsAreFew, CandidatesCoverRows, NoCandidateAtFirst, FeedsKeepOthers, WeldsKeepCandidates, LossesKeepCandidates, EditsKeepCandidates, WalksKeepCandidates, SweptRowsTakeCandidates, StagesTakeTheNext, WalksHaveNoNext, TurnsTakeTheNext};

/// How many turns of a filter's walk are left: none exactly where no walk is on, and no more than its rows tell.
pub fn turns_are_bounded()
    ensures bounded { TurnsAreBounded }
    ensures left { TurnsAreLeft }
{}

/// How many candidates `filt.K` has beyond a place, and how many rows at most: no more than `in.K` has rows.
pub fn candidates_are_counted()
    ensures counted { CandidatesAreCounted }
    ensures few { FilteredRowsAreFew }
{}

/// Every row of `filt.K` stands at a candidate, which is what [`Chain::has`](crate::Chain::has) tells; a new chain has none.
pub fn candidates_cover_rows()
    ensures covers { CandidatesCoverRows }
    ensures first { NoCandidateAtFirst }
{}

/// A feed keeps the candidates of `filt.K` at every other prefix; a weld, a loss, an edit of the rules and a turn of the filter's
/// walk keep all.
pub fn candidates_stay()
    ensures feeds { FeedsKeepOthers }
    ensures welds { WeldsKeepCandidates }
    ensures losses { LossesKeepCandidates }
    ensures edits { EditsKeepCandidates }
    ensures walks { WalksKeepCandidates }
{}

/// A turn of a deletion stage takes one candidate of `filt.K`, the one that [`Chain::next_lost`](crate::Chain::next_lost) found
/// before it; every other turn takes none, and none was found.
pub fn turns_take_candidates()
    ensures swept { SweptRowsTakeCandidates }
    ensures stages { StagesTakeTheNext }
    ensures walks { WalksHaveNoNext }
    ensures turns { TurnsTakeTheNext }
{}
