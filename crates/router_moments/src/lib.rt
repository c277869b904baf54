//! The moments of the router, what events and background work make of them, and what holds at each.
//!
//! A moment is what contracts see of the router between two steps: what was declared, the chains of the peers, the tree of the
//! interior routes, the register and the resolvers, the queue and the exits ([`Moments`](specs/Moments.antt)). What an event does
//! ([`Blocks`](specs/Blocks.antt)), and what a turn of a task does ([`Turns`](specs/Turns.antt)), are relations between two moments
//! and the lines of a journal. That what holds between any two steps (`Stands`) is kept is proved here from the relations alone, but for
//! `local`, losses and edits of redistribution, where `router_core` proves it. So are the laws of what stands: at each prefix, each link
//! that no work holds up there has the row that the live state asks for (`Scratch`), and all that stands can be printed and read back
//! (`Printable`).
//!
//! [`Phase`] names the phases of background work, [`Done`] and [`Idle`] what a turn and an idle came to. `router_core` has the
//! router itself, whose calls promise these relations; `router_determinism` the laws that they leave no choice.
#![tactic(auto)]

mod laws;
mod tasks;

pub use laws::{
    external_rows_are_few, first_moment_stands, known_next_hops_are_few, only_work_holds_up,
    rows_at_rest_are_exact, the_first_task_tells,
};
pub use tasks::{Done, Idle, Phase};
