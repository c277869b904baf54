//! A function that is changed in the background.
//!
//! Incoming filters, outgoing filters and redistribution each have a function in force. An edit changes what holds nowhere:
//! it begins a walk over the prefixes, in slices of background work. At a prefix at or before the walk's place the new
//! function holds, beyond it the one in force, for messages and lookups alike. So at any time exactly one function holds at
//! each prefix.
//!
//! An edit during a walk waits, and replaces a function that waited. An edit begins a walk also where its function is equal
//! to the one before. The turn that finds no further prefix ends the walk: then the new function is in force everywhere,
//! and one that waits begins a walk of its own, before all prefixes.
//!
//! A stage that holds a [`Pass`] makes each row below from the one above by the function that holds there. What it passes on
//! and what its turns do is said here once for all such stages, whatever a function is and makes of a row: over `apply`, an
//! argument of the definitions. [`the_rows_below`] and [`a_walk_leads`] are their laws, and [`a_walk_ends`] counts the turns. [`a_step_changes_one_row`] is the
//! law below them, of any two functions and a place: stages whose functions themselves change during a walk, as answers for
//! next hops do, stand on it. To ask the link above for rows and candidates is the stages' own work.
#![tactic(auto)]

mod laws;
mod pass;

pub use laws::{
    a_step_changes_one_row, a_step_sets_what_it_passes, a_walk_ends, a_walk_leads,
    an_edit_changes_nothing, one_function_holds, the_end_sets_the_rest, the_latest_is_the_edited,
    the_rows_below,
};
pub use pass::Pass;
