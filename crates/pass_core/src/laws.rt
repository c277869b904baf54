//! Laws of a function that is changed in the background, for the proofs of the crates above. Each is a function that does
//! nothing, whose contract is the law.

ghost use Rattle.pass_core.specs.Laws.{HoldsEverywhere, HoldsBeyond, HoldsBehind, StepSetsBehind, StepKeepsBeyond, StepKeepsBehind, EditKeeps, FinishSets, FinishKeepsBehind, EditIsPresent, StepKeepsPresent, FinishKeepsPresent, SplitBegins, SplitBeyond, SplitBehind, SplitSteps, SplitSends, SplitEnds, ExactUnlessHeldUp, NoneLagsWithoutAWalk, EditKeepsRows, PassedIsCovered, ChangeIsPassedOn, StepWalks, EndWalks, WalkLeads, WalkIsSpent, LeftIsBounded, LeftWhileOn, LeftFollows};

/// At each prefix one function holds: the one in force, or up to the place of a walk the new one.
pub fn one_function_holds<F>()
    ensures everywhere { HoldsEverywhere F }
    ensures beyond { HoldsBeyond F }
    ensures behind { HoldsBehind F }
{}

/// A step to a prefix changes what holds at the prefixes that lie beyond the old place and not beyond that prefix, and at
/// no other.
pub fn a_step_sets_what_it_passes<F>()
    ensures sets { StepSetsBehind F }
    ensures keeps_beyond { StepKeepsBeyond F }
    ensures keeps_behind { StepKeepsBehind F }
{}

/// An edit changes what holds at no prefix.
pub fn an_edit_changes_nothing<F>()
    ensures { EditKeeps F }
{}

/// The end of a walk changes what holds beyond its place alone; there the new function holds from then on.
pub fn the_end_sets_the_rest<F>()
    ensures sets { FinishSets F }
    ensures keeps_behind { FinishKeepsBehind F }
{}

/// The function of an edit is the latest, until the next edit.
pub fn the_latest_is_the_edited<F>()
    ensures edit { EditIsPresent F }
    ensures step { StepKeepsPresent F }
    ensures finish { FinishKeepsPresent F }
{}

/// Rows beyond a place by one function, up to it by another: a step to the next candidate changes one row, and where there
/// is none the rows are those of the new function.
pub fn a_step_changes_one_row<A, B>()
    ensures begins { SplitBegins A B }
    ensures beyond { SplitBeyond A B }
    ensures behind { SplitBehind A B }
    ensures steps { SplitSteps A B }
    ensures sends { SplitSends A B }
    ensures ends { SplitEnds A B }
{}

/// The rows below a stage, by the functions that hold: where no walk holds up a prefix that of the latest one; an edit changes
/// none.
pub fn the_rows_below<F, A, B>()
    ensures exact { ExactUnlessHeldUp F A B }
    ensures idle { NoneLagsWithoutAWalk F A }
    ensures edit { EditKeepsRows F A B }
    ensures covered { PassedIsCovered F A B }
    ensures change { ChangeIsPassedOn F A B }
{}

/// What a turn of a walk sends leads from the rows below before it to those after it.
pub fn a_walk_leads<F, A, B>()
    ensures step { StepWalks F A B }
    ensures end { EndWalks F A B }
    ensures leads { WalkLeads F A B }
{}

/// How many turns a walk still takes: each turn leaves fewer, whatever counts the candidates.
pub fn a_walk_ends<F, A, B>()
    ensures spent { WalkIsSpent F A B }
    ensures bounded { LeftIsBounded F }
    ensures on { LeftWhileOn F }
    ensures follows { LeftFollows F }
{}
