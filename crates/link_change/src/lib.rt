//! What goes over a link between two stages: changes of one prefix's row, and lookups the other way.
//!
//! A link's map is a function from prefixes to rows. A [`Change`] names a prefix, its row before and its row after; it is
//! lawful on a map that has the row before there, and another one after. [`Change::between`] is the change of a row, none
//! where it stays the same. [`Upstream`] is a link as the stage below sees it: it can be asked for the row of a prefix, and
//! be walked from candidate to candidate; [`nearer`] walks two links as one. [`Turn`] is what one slice of background work
//! came to. [`apply`] keeps a copy of a link's map.
//!
//! Changes that wait are a list, the first one first: each is lawful on what those before it made of the map. The laws of
//! such lists, on which queues of changes stand, are [`one_more_change_leads`], [`the_first_change_leads`],
//! [`changes_lead_prefix_by_prefix`] and [`the_rows_before_changes`].
//!
//! Every stage stands on this crate. The words of the law that each of them keeps, that what it sends leads from its
//! link's old map to the new one, are in its `specs/`, and the lemmas on rows that their proofs share in its `proofs/`.
#![tactic(auto)]

mod change;
mod laws;
mod turn;
mod upstream;

pub use change::{Change, apply, copy_row};
pub use laws::{
    changes_lead_prefix_by_prefix, one_more_change_leads, the_first_change_leads,
    the_rows_before_changes,
};
pub use turn::Turn;
pub use upstream::{Upstream, nearer};
