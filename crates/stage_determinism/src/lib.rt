//! Laws of stages: what they do leaves no choice.
//!
//! The definitions of stages are relations: between what stands before and after, and what is sent. These laws say that they are
//! functions. Of rows that became other rows at one prefix, the change that was sent is one; so is the next candidate of a walk, a
//! turn of the walk, and what a stage passes on of a change.
//!
//! For the proofs of the crates above, that say the same of chains, of the router and of its whole output. Each law is a function
//! that does nothing, whose contract is the law.
#![tactic(auto)]

ghost use Rattle.stage_determinism.specs.Laws.{SentIsOne, SentMakesOne, ChangeIsOne, NextIsOne, ComputedIsOne, PassedIsOne, WalkIsOne};

/// The change that rows were sent is one, wherever it is looked for, and it makes one thing of the rows.
pub fn what_is_sent_is_one<R>()
    ensures sent { SentIsOne R }
    ensures makes { SentMakesOne R }
    ensures change { ChangeIsOne R }
{}

/// The least candidate beyond a place is one, or there is none.
pub fn the_next_candidate_is_one()
    ensures { NextIsOne }
{}

/// What a stage passes on of a change is one, where the change differs from what stood there.
pub fn what_is_passed_on_is_one<F, A, B>()
    ensures computed { ComputedIsOne A B }
    ensures passed { PassedIsOne F A B }
{}

/// A turn of a walk leaves no choice: where it goes, what it leaves of the walk, and what it sends.
pub fn a_turn_of_a_walk_is_one<F, A, B>()
    ensures { WalkIsOne F A B }
{}
