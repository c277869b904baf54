//! Drawing an event.

ghost use Rattle.std.specs.Prelude.{◌≡◌};
ghost use Rattle.event_gen.specs.Draws.{stepped, number_of, next_draws, behind_draws};
ghost use Rattle.event_gen.specs.Events.{kind_of, peer_of, block_of, origin_of, host_event, work_of, other_event, event_of};

use crate::drawn::{Drawn, Work};
use bgp_attr::Origin;

/// The multiplier of the generator.
const FACTOR: u64 = 6_364_136_223_846_793_005;

/// What the generator adds.
const INCREMENT: u64 = 1_442_695_040_888_963_407;

/// The numbers of the four draws of an event.
#[derive(Clone, Copy, PartialEq, Eq)]
pub(crate) struct Draws {
    pub k: u64,
    pub a: u64,
    pub b: u64,
    pub c: u64,
}

/// The state behind a draw.
#[tactic(auto, using(crate::proofs::DrawLemmas::wrapped), unfolding(crate::specs::Draws::stepped))]
fn stepped(state: u64) -> u64
    ensures { result ≡ stepped state }
{
    state.wrapping_mul(FACTOR).wrapping_add(INCREMENT)
}

/// The number that a draw gives, which leads to this state.
fn number_of(state: u64) -> u64
    ensures { result ≡ number_of state }
{
    state / 0x2_0000_0000
}

/// The next four draws, and the state behind them.
pub(crate) fn draw_four(state: u64) -> (Draws, u64)
    ensures draws { result.0 ≡ next_draws state }
    ensures state { result.1 ≡ behind_draws state }
{
    let first = stepped(state);
    let second = stepped(first);
    let third = stepped(second);
    let fourth = stepped(third);
    let draws = Draws {
        k: number_of(first),
        a: number_of(second),
        b: number_of(third),
        c: number_of(fourth),
    };
    (draws, fourth)
}

/// The kind of an event, 0 to 15.
fn kind_of(draws: Draws) -> u64
    ensures { result ≡ kind_of draws }
{
    draws.k % 16
}

/// The peer of an event, 1 to 4.
fn peer_of(draws: Draws) -> u8
    ensures { result ≡ peer_of draws }
{
    1 + (draws.a % 4) as u8
}

/// The second octet of its prefix.
fn block_of(draws: Draws) -> u8
    ensures { result ≡ block_of draws }
{
    (draws.b % 256) as u8
}

/// ORIGIN by its code.
fn origin_of(code: u64) -> Origin
    ensures { result ≡ origin_of code }
{
    if code == 0 {
        Origin::Igp
    } else if code == 1 {
        Origin::Egp
    } else {
        Origin::Incomplete
    }
}

/// A host's route is added, or deleted.
fn host_event(draws: Draws) -> Drawn
    ensures { result ≡ host_event draws }
{
    if draws.c % 2 == 0 {
        Drawn::AddHost(peer_of(draws), 1 + (draws.b % 8) as u8)
    } else {
        Drawn::DeleteHost(peer_of(draws))
    }
}

/// The task of an event.
fn work_of(draws: Draws) -> Work
    ensures { result ≡ work_of draws }
{
    let peer = peer_of(draws);
    let which = draws.c % 4;
    if which == 0 {
        Work::ReadRib
    } else if which == 1 {
        Work::Out(peer)
    } else if which == 2 {
        Work::NextHops(peer)
    } else {
        Work::Filter(peer)
    }
}

/// An event that is no message, by its kind.
fn other_event(draws: Draws) -> Drawn
    ensures { result ≡ other_event draws }
{
    let peer = peer_of(draws);
    let kind = kind_of(draws);
    if kind == 9 {
        Drawn::Down(peer)
    } else if kind < 12 {
        Drawn::Up(peer)
    } else if kind == 12 {
        Drawn::Prefer(peer, 100 + (draws.c % 2) as u8)
    } else if kind == 13 {
        host_event(draws)
    } else if kind == 14 {
        Drawn::Work(work_of(draws), (draws.b % 8) as u8)
    } else {
        Drawn::Idle
    }
}

/// The event of four draws.
#[tactic(auto, unfolding(crate::specs::Events::event_of))]
pub(crate) fn event_of(draws: Draws) -> Drawn
    ensures { result ≡ event_of draws }
{
    let kind = kind_of(draws);
    if kind < 7 {
        let origin = origin_of(draws.c % 3);
        let med = (draws.c / 3 % 4) as u8;
        Drawn::Announce(peer_of(draws), block_of(draws), origin, med)
    } else if kind < 9 {
        Drawn::Withdraw(peer_of(draws), block_of(draws))
    } else {
        other_event(draws)
    }
}
