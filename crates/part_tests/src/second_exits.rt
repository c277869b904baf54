//! The exits of the second family: what an external and an internal peer are told of a route, and that it is gone, octet by octet.

ghost use Rattle.std.specs.Prelude.{◌≡◌, OnOk};
ghost use Rattle.std.specs.Option.{ForSome};
ghost use Rattle.std.specs.FinMap as map;
ghost use Rattle.bgp_attr.specs.Routes.{Route as Routed};
ghost use Rattle.link_change.specs.Rows.{Rows};
ghost use Rattle.peer_out.specs.Changes.{MayBeHeard};
ghost use Rattle.out_chain.specs.Chains.{RowsMayBeHeard};
ghost use Rattle.exit_side.specs.Exits.{IsExits, AllStand};

use crate::prefixes::prefix6;
use crate::second_family::{HEARD, PROFILE, came_to, has_lines, heard, peer, route, site, speaker};
use crate::second_told::{ANNOUNCED, WITHDRAWN};
use crate::untold::{Best, Untold};
use addr4::{Memory, Prefix, Row};
use addr6::V6;
use bgp_attr::{Route, SharedAttrs};
use cache_stage::Cache;
use exit_side::Exits;
use exit_side::laws::nothing_at_first;
use journal_text::Journal;
use link_change::{Change, Upstream};
use policy_rules::Rules;
use std::alloc::Global;
use std::test::Fail;

/// The first session of a peer begins, without rules for what goes out.
fn begin(
    alloc: Global,
    exits: &mut Exits<V6>,
    number: u8,
    asn: u32,
    journal: &mut Journal<V6>,
) -> Result<(), Fail>
    requires sound { IsExits exits.old }
    requires stand { (rows : Rows Routed) → RowsMayBeHeard PROFILE rows → AllStand rows exits.old }
    requires profile { exits.old.profile ≡ PROFILE }
    ensures sound { OnOk result (IsExits exits.new) }
    ensures stand { OnOk result ((rows : Rows Routed) → RowsMayBeHeard PROFILE rows → AllStand rows exits.new) }
    ensures profile { OnOk result (exits.new.profile ≡ PROFILE) }
{
    if exits.chain(u32::from(number)).is_some() {
        return Err(Fail::from("the peer is up"));
    }
    let rules = Rules::new(alloc);
    exits.begin(&speaker(), &peer(number, asn), 1, rules, journal)?;
    Ok(())
}

/// The row of `best` at a prefix becomes this one.
fn decide(
    exits: &mut Exits<V6>,
    best: &mut Best,
    at: Prefix<V6>,
    after: Option<Route<SharedAttrs<V6>>>,
) -> Result<(), Fail>
    requires sound { IsExits exits.old }
    requires stand { AllStand (map.get best.old) exits.old }
    requires profile { exits.old.profile ≡ PROFILE }
    requires heard { ForSome after (λ row. MayBeHeard PROFILE row.attrs) }
    ensures sound { OnOk result (IsExits exits.new) }
    ensures stand { OnOk result (AllStand (map.get best.new) exits.new) }
    ensures profile { OnOk result (exits.new.profile ≡ PROFILE) }
{
    let before = best.asked(&at)?;
    let Some(change) = Change::between(at, before, after) else {
        return Err(Fail::from("no change"));
    };
    let change = best.take_in(change)?;
    exits.put(change)?;
    Ok(())
}

/// What a turn of a peer's exit came to.
fn turn(
    exits: &mut Exits<V6>,
    best: &Best,
    number: u32,
    journal: &mut Journal<V6>,
) -> Result<Option<bool>, Memory>
    requires sound { IsExits exits.old }
    requires stand { AllStand (map.get best.now) exits.old }
    requires profile { exits.old.profile ≡ PROFILE }
    ensures sound { OnOk result (IsExits exits.new) }
    ensures stand { OnOk result (AllStand (map.get best.now) exits.new) }
    ensures profile { OnOk result (exits.new.profile ≡ PROFILE) }
{
    let turn = exits.turn(number, &Untold { best }, journal)?;
    let came = came_to(&turn);
    drop(turn);
    Ok(came)
}

/// What six turns came to, of two that take a change each and three that walk over two prefixes to the end.
fn turns(
    exits: &mut Exits<V6>,
    best: &Best,
    number: u32,
    journal: &mut Journal<V6>,
) -> Result<[Option<bool>; 6], Memory>
    requires sound { IsExits exits.old }
    requires stand { AllStand (map.get best.now) exits.old }
    requires profile { exits.old.profile ≡ PROFILE }
    ensures sound { OnOk result (IsExits exits.new) }
    ensures stand { OnOk result (AllStand (map.get best.now) exits.new) }
    ensures profile { OnOk result (exits.new.profile ≡ PROFILE) }
{
    let first = turn(exits, best, number, journal)?;
    let second = turn(exits, best, number, journal)?;
    let third = turn(exits, best, number, journal)?;
    let fourth = turn(exits, best, number, journal)?;
    let fifth = turn(exits, best, number, journal)?;
    let sixth = turn(exits, best, number, journal)?;
    Ok([first, second, third, fourth, fifth, sixth])
}

/// Two sessions begin; a route comes, and one at a prefix of groups, which no peer is told.
fn announce(
    alloc: Global,
    exits: &mut Exits<V6>,
    best: &mut Best,
    attrs: &SharedAttrs<V6>,
    journal: &mut Journal<V6>,
) -> Result<[[Option<bool>; 6]; 2], Fail>
    requires sound { IsExits exits.old }
    requires stand { (rows : Rows Routed) → RowsMayBeHeard PROFILE rows → AllStand rows exits.old }
    requires profile { exits.old.profile ≡ PROFILE }
    requires heard { MayBeHeard PROFILE attrs.now }
    requires none { best.old ≡ map.empty }
    ensures sound { OnOk result (IsExits exits.new) }
    ensures stand { OnOk result (AllStand (map.get best.new) exits.new) }
    ensures profile { OnOk result (exits.new.profile ≡ PROFILE) }
{
    begin(alloc, exits, 2, 65002, journal)?;
    begin(alloc, exits, 3, 65000, journal)?;
    decide(exits, best, site(1), Some(route(attrs.copy()?)))?;
    decide(
        exits,
        best,
        prefix6(0xff02 << 48, 16),
        Some(route(attrs.copy()?)),
    )?;
    let external = turns(exits, best, 2, journal)?;
    let internal = turns(exits, best, 3, journal)?;
    Ok([external, internal])
}

/// The route goes, and the first session ends.
fn withdraw(
    exits: &mut Exits<V6>,
    best: &mut Best,
    journal: &mut Journal<V6>,
) -> Result<[Option<bool>; 2], Fail>
    requires sound { IsExits exits.old }
    requires stand { AllStand (map.get best.old) exits.old }
    requires profile { exits.old.profile ≡ PROFILE }
    ensures sound { OnOk result (IsExits exits.new) }
    ensures stand { OnOk result (AllStand (map.get best.new) exits.new) }
    ensures profile { OnOk result (exits.new.profile ≡ PROFILE) }
{
    decide(exits, best, site(1), None)?;
    let external = turn(exits, best, 2, journal)?;
    let internal = turn(exits, best, 3, journal)?;
    if exits.chain(2).is_none() {
        return Err(Fail::from("the peer is down"));
    }
    exits.end(2, journal)?;
    Ok([external, internal])
}

/// Whether the turns came to what they should: of those behind the announcement only the walk's first one says something, and it
/// passes over the prefix of groups; the withdrawal says something at once.
fn follow(
    alloc: Global,
    exits: &mut Exits<V6>,
    best: &mut Best,
    attrs: &SharedAttrs<V6>,
    journal: &mut Journal<V6>,
) -> Result<bool, Fail>
    requires sound { IsExits exits.old }
    requires stand { (rows : Rows Routed) → RowsMayBeHeard PROFILE rows → AllStand rows exits.old }
    requires profile { exits.old.profile ≡ PROFILE }
    requires heard { MayBeHeard PROFILE attrs.now }
    requires none { best.old ≡ map.empty }
    ensures sound { OnOk result (IsExits exits.new) }
    ensures stand { OnOk result (AllStand (map.get best.new) exits.new) }
    ensures profile { OnOk result (exits.new.profile ≡ PROFILE) }
{
    let all = announce(alloc, exits, best, attrs, journal)?;
    has_lines(alloc, journal, ANNOUNCED)?;
    journal.clear();
    let gone = withdraw(exits, best, journal)?;
    has_lines(alloc, journal, WITHDRAWN)?;
    let want = [
        Some(false),
        Some(false),
        Some(true),
        Some(false),
        Some(false),
        None,
    ];
    Ok(all == [want, want] && gone == [Some(true), Some(true)])
}

fn follow_new(alloc: Global) -> Result<bool, Fail> {
    nothing_at_first();
    let attrs = heard(alloc, HEARD)?;
    let mut exits = Exits::new(alloc, PROFILE);
    let mut best = Cache::new(alloc);
    let mut journal = Journal::new(alloc, false);
    let followed = follow(alloc, &mut exits, &mut best, &attrs, &mut journal);
    drop(journal);
    drop(best);
    drop(exits);
    drop(attrs);
    followed
}

#[test]
fn peers_are_told_of_a_route_of_ipv6(rt: HostRuntime) -> Result<(), Fail> {
    assert!(rt; follow_new(rt.alloc())?);
    Ok(())
}
