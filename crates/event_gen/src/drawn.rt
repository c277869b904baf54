//! The events that are drawn.

use bgp_attr::Origin;

/// A task that is drawn, by its name. K is a peer's number.
#[derive(Clone, Copy, PartialEq, Eq)]
pub enum Work {
    /// `rd.rib`
    ReadRib,
    /// `out.K`
    Out(u8),
    /// `nh.K`
    NextHops(u8),
    /// `fin.K`
    Filter(u8),
}

/// An event that is drawn. K is a peer's number, 1 to 4.
#[derive(Clone, Copy, PartialEq, Eq)]
pub enum Drawn {
    /// `bgp K HEX`: the peer announces 10.X.0.0/16, with this ORIGIN and this MULTI_EXIT_DISC.
    Announce(u8, u8, Origin, u8),
    /// `bgp K HEX`: the peer withdraws 10.X.0.0/16.
    Withdraw(u8, u8),
    /// `down K`
    Down(u8),
    /// `up K`
    Up(u8),
    /// `filter in K any pref N accept`
    Prefer(u8, u8),
    /// `route add static 192.0.2.K/32 direct eth1 N`
    AddHost(u8, u8),
    /// `route del static 192.0.2.K/32`
    DeleteHost(u8),
    /// `work TASK N`
    Work(Work, u8),
    /// `idle`
    Idle,
}
