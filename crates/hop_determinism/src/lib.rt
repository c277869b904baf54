//! Laws of next hops: what their steps make leaves no choice.
//!
//! The register, the resolvers and the side of all peers' resolvers are told by relations: between what stands before a step and
//! after it, what comes in, what is sent, and what is said. These laws say that the first two settle the others. What a change
//! makes of the register is one, and so is what a client makes of it, since its interests are those of its next hops that aren't
//! stale. What a change from above, a turn, or interests that were given up make of a resolver is one, whatever is kept of the
//! register's answers; and so it is with all peers' resolvers, which only one of them changes at a time.
//!
//! For the proofs of the crates above, that say the same of the router and of its whole output. Each law is a function that does
//! nothing, whose contract is the law.
#![tactic(auto)]

ghost use Rattle.hop_determinism.specs.Laws.{ReachedIsOne, SubnetIsOne, CoverIsOne, LargestIsOne, RegisteredIsOne, ClientsRegisterIsOne, CountsAreOne, LeastStaleIsOne, ToldIsOne, RenewsIsOne, KeptIsOne, InvalidatedIsOne, StaleIsOne, TakesInIsOne, TurnedIsOne, TurnIsOne, TurnedHasWork, TakesHopIsOne, TurnsBelowIsOne, TurnsWithWork, ReachesIsOne};

/// What the register answers about an address is one, with the subnet that comes with it; and so is what a change of a row makes
/// of it, with the interests that it gives up.
pub fn what_is_registered_is_one<R>()
    ensures reached { ReachedIsOne }
    ensures subnet { SubnetIsOne R }
    ensures cover { CoverIsOne R }
    ensures largest { LargestIsOne }
    ensures registered { RegisteredIsOne R }
{}

/// What a client makes of the register is one, by the next hops that it knows afterwards.
pub fn what_a_client_asks_is_one<A>()
    ensures { ClientsRegisterIsOne A }
{}

/// What is counted and known of next hops is one: by the rows that name them, by the register's answers, and where answers become
/// stale.
pub fn what_is_known_is_one<A>()
    ensures counts { CountsAreOne }
    ensures least { LeastStaleIsOne A }
    ensures told { ToldIsOne A }
    ensures renews { RenewsIsOne A }
    ensures kept { KeptIsOne A }
    ensures invalidated { InvalidatedIsOne A }
    ensures stale { StaleIsOne A }
{}

/// What a resolver makes of a change from above is one, and of a turn, with what it sends. A turn is taken only where there is
/// work.
pub fn what_a_resolver_makes_is_one<A, R, L>()
    ensures takes { TakesInIsOne A R L }
    ensures turned { TurnedIsOne A R L }
    ensures turn { TurnIsOne A R L }
    ensures work { TurnedHasWork A R L }
{}

/// What a change on the link of a peer makes of all resolvers and the register is one, and of a turn of its task, with what goes on
/// and is said. A turn is taken only where the task has work. And so is what interests make that the register gave up.
pub fn what_the_side_makes_is_one()
    ensures takes { TakesHopIsOne }
    ensures turns { TurnsBelowIsOne }
    ensures work { TurnsWithWork }
    ensures reaches { ReachesIsOne }
{}
