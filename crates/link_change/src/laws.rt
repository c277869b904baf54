//! Laws of changes that are applied in order, for the proofs of the crates above. Each is a function that does nothing,
//! whose contract is the law.

ghost use Rattle.link_change.specs.Laws.{BeforeIsOld, BeforeIsFirst, UnchangedStays, BeforeIsCovered, LeadAtEach, FirstHere, FirstElsewhere, LastHere, LastElsewhere, PutKeepsBefore, PutLeads, PutLeadsRow, TakeSends, TakeLeads, TakeSendsHere, TakeLeadsHere};

/// The rows before changes, as the rows after them and the changes tell them.
pub fn the_rows_before_changes<R>()
    ensures old { BeforeIsOld R }
    ensures first { BeforeIsFirst R }
    ensures stays { UnchangedStays R }
    ensures covered { BeforeIsCovered R }
{}

/// Changes lead from rows to rows exactly where they do so at each prefix.
pub fn changes_lead_prefix_by_prefix<R>()
    ensures each { LeadAtEach R }
    ensures first_here { FirstHere R }
    ensures first_elsewhere { FirstElsewhere R }
    ensures last_here { LastHere R }
    ensures last_elsewhere { LastElsewhere R }
{}

/// A change may follow changes that lead to the rows that it is lawful on.
pub fn one_more_change_leads<R>()
    ensures before { PutKeepsBefore R }
    ensures leads { PutLeads R }
    ensures leads_row { PutLeadsRow R }
{}

/// The first of changes that lead on may be taken.
pub fn the_first_change_leads<R>()
    ensures sends { TakeSends R }
    ensures leads { TakeLeads R }
    ensures sends_here { TakeSendsHere R }
    ensures leads_here { TakeLeadsHere R }
{}
