//! Laws of the exits: their steps leave no choice.
//!
//! What contracts say of the queue of the changes of `best`, of the outgoing chain of a session and of the exits of all peers
//! are relations: between what stands before and after, what is sent and what is said. These laws say that they are functions,
//! so that the octets that peers are sent are one, over whatever stands before; and that only a task with work takes a turn.
//!
//! For the proofs of the crates above, that say the same of the router and of its whole output. Each law is a function that does
//! nothing, whose contract is the law.
#![tactic(auto)]

ghost use Rattle.exit_determinism.specs.Laws.{AppendedIsOne, TakenIsOne, ReaderIsOne, TakenIsUnread, PassedOutIsOne, WalkedOutIsOne, TurnOutIsOne, ResentIsOne, BeginningIsOne, EndIsOne, EditIsOne, PutIsOne, TurnIsOne, ResendIsOne, TurnHasWork, ResendHasWork};

/// What a queue is after a change was put or taken is one, what is taken of it, and the number that a new reader gets.
pub fn the_queue_is_one<R>()
    ensures put { AppendedIsOne R }
    ensures take { TakenIsOne R }
    ensures reader { ReaderIsOne R }
{}

/// What the outgoing chain of a session is after a step, what it sends, and the lines that it says are one.
pub fn a_chain_is_one()
    ensures pass { PassedOutIsOne }
    ensures walk { WalkedOutIsOne }
    ensures turn { TurnOutIsOne }
    ensures resend { ResentIsOne }
{}

/// What the exits of all peers are after a step, what they send, and the lines that they say are one.
pub fn the_exits_are_one()
    ensures begin { BeginningIsOne }
    ensures end { EndIsOne }
    ensures edit { EditIsOne }
    ensures put { PutIsOne }
    ensures turn { TurnIsOne }
    ensures resend { ResendIsOne }
{}

/// Only a task with work takes a turn, and only a reader that hasn't taken all takes a change.
pub fn turns_have_work()
    ensures take { TakenIsUnread }
    ensures turn { TurnHasWork }
    ensures resend { ResendHasWork }
{}
