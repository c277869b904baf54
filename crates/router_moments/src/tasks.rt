//! What background work is asked for, and what it came to.

/// What a turn of a task came to.
#[derive(Clone, Copy, PartialEq)]
pub enum Done {
    /// The task has no work.
    Nothing,
    Taken,
}

/// What an idle announced, and what it took.
#[derive(Clone, Copy)]
pub struct Idle {
    pub bound: u128,
    pub turns: u128,
}

/// The phases of an idle, in their order.
#[derive(Clone, Copy)]
pub enum Phase {
    /// The deletion stages of the interior protocols' losses. In no other phase does a next hop become stale.
    Rdel,
    /// The walk of redistribution.
    Red,
    /// The deletion stages of lost sessions.
    Del,
    /// The walks of the incoming filters.
    Fin,
    /// The next hops of the resolvers: those that are asked for again, and the walks of fresh answers.
    Nh,
    /// What the forwarding side has yet to read of `best`.
    ReadRib,
    /// The exits of peers: what their readers haven't taken, and the walks of the outgoing filters.
    Out,
    /// The next hops of external routes: those that are asked for again, and the walks of fresh answers.
    Ext,
    /// The refreshes that peers asked for: what each was sent is said to it again (RFC 2918).
    Ref,
}
