//! Laws of the router's steps: what they do leaves no choice.
//!
//! The definitions of `router_moments` are relations: between the moment before and after, and the lines that are said. These laws
//! say that a turn of a task, a task that runs to its end, a phase, all phases and the block of an event say one thing and lead to one
//! moment. They stand on those of the parts: of the chains of peers and the interior tree (`chain_determinism`), the next hops
//! (`hop_determinism`), the queue and the exits (`exit_determinism`), and the RIB's exit (`forward_determinism`).
//!
//! For the proofs of `replay`, which says the same of a whole output. Each law is a function that does nothing, whose contract is the
//! law.
#![tactic(auto)]

ghost use Rattle.router_determinism.specs.One.{BlockIsOne, DrainIsOne, ListingIsOne, PhaseIsOne, PhasesAreOne, TurnIsOne, TurnsHaveWork};

use bgp_wire::one_of_message_and_fault;

/// A turn of a task leaves no choice, and only a task with work takes one: so a task that runs to its end, a phase and all phases take as
/// many turns, say the same, and lead to the same moment.
pub fn turns_are_one()
    ensures turn { TurnIsOne }
    ensures work { TurnsHaveWork }
    ensures drain { DrainIsOne }
    ensures phase { PhaseIsOne }
    ensures phases { PhasesAreOne }
{}

/// What an event does leaves no choice: what is said, how many turns are taken, and the moment after it; and the rows of a link, by
/// prefix, are one list.
pub fn blocks_are_one()
    ensures block { BlockIsOne }
    ensures listing { ListingIsOne }
{
    one_of_message_and_fault();
}
