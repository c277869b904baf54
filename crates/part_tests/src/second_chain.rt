//! A peer's chain of the second family: routes come, a filter is edited and walked, and a session is lost.

ghost use Rattle.std.specs.Prelude.{OnOk};
ghost use Rattle.loss_chain.specs.Tables.{NoneEmpty};
ghost use Rattle.in_chain.specs.Chains.{IsChain};

use crate::prefixes::prefix6;
use crate::second_family::{HEARD, PROFILE, came_to, has_lines, heard, peer, site, speaker};
use addr4::{Memory, Prefix, Row};
use addr6::V6;
use bgp_attr::SharedAttrs;
use in_chain::Chain;
use journal_text::{Journal, Task};
use policy_rules::{Rules, read_rules};
use std::alloc::Global;
use std::test::Fail;

/// A route is announced or withdrawn.
fn feed(
    chain: &mut Chain<V6>,
    at: Prefix<V6>,
    row: Option<SharedAttrs<V6>>,
    journal: &mut Journal<V6>,
) -> Result<(), Memory>
    requires chain { IsChain chain.old }
    requires full { NoneEmpty chain.old.incoming.tables.deletions }
    ensures chain { OnOk result (IsChain chain.new) }
    ensures full { OnOk result (NoneEmpty chain.new.incoming.tables.deletions) }
{
    drop(chain.feed(at, row, journal)?);
    chain.weld(journal)
}

/// What a turn of a task of the chain came to.
fn turn(
    chain: &mut Chain<V6>,
    task: Task,
    journal: &mut Journal<V6>,
) -> Result<Option<bool>, Memory>
    requires chain { IsChain chain.old }
    requires full { NoneEmpty chain.old.incoming.tables.deletions }
    ensures chain { OnOk result (IsChain chain.new) }
    ensures full { OnOk result (NoneEmpty chain.new.incoming.tables.deletions) }
{
    let turn = chain.unit(task, journal)?;
    let came = came_to(&turn);
    drop(turn);
    chain.weld(journal)?;
    Ok(came)
}

/// The first session is lost.
fn lose(chain: &mut Chain<V6>, journal: &mut Journal<V6>) -> Result<(), Fail>
    requires chain { IsChain chain.old }
    requires full { NoneEmpty chain.old.incoming.tables.deletions }
    ensures chain { OnOk result (IsChain chain.new) }
    ensures full { OnOk result (NoneEmpty chain.new.incoming.tables.deletions) }
{
    if chain.overdue().is_some() || chain.oldest().is_some() {
        return Err(Fail::from("a stage stands"));
    }
    chain.lose(1, journal)?;
    Ok(())
}

/// The routes of this site's prefixes get a preference, and others are rejected.
const RULES: &str = "2001:db8:1::/48 ge 48 le 128 pref 200 accept any reject";

fn rules(alloc: Global) -> Result<Rules<V6>, Fail> {
    match read_rules(alloc, PROFILE, RULES.as_bytes())? {
        Ok(rules) => Ok(rules),
        Err(_) => Err(Fail::from(RULES)),
    }
}

/// Two routes come; the filter is edited, and walked to its end.
fn walk(
    alloc: Global,
    chain: &mut Chain<V6>,
    attrs: &SharedAttrs<V6>,
    journal: &mut Journal<V6>,
) -> Result<[Option<bool>; 4], Fail>
    requires chain { IsChain chain.old }
    requires full { NoneEmpty chain.old.incoming.tables.deletions }
    ensures chain { OnOk result (IsChain chain.new) }
    ensures full { OnOk result (NoneEmpty chain.new.incoming.tables.deletions) }
{
    feed(chain, site(1), Some(attrs.copy()?), journal)?;
    feed(chain, site(2), Some(attrs.copy()?), journal)?;
    chain.edit(rules(alloc)?);
    let first = turn(chain, Task::Fin(1), journal)?;
    let second = turn(chain, Task::Fin(1), journal)?;
    let third = turn(chain, Task::Fin(1), journal)?;
    Ok([first, second, third, turn(chain, Task::Fin(1), journal)?])
}

/// The session is lost; the next one announces the first route again, and withdraws it when the other is deleted.
fn come_back(
    chain: &mut Chain<V6>,
    attrs: &SharedAttrs<V6>,
    journal: &mut Journal<V6>,
) -> Result<[Option<bool>; 2], Fail>
    requires chain { IsChain chain.old }
    requires full { NoneEmpty chain.old.incoming.tables.deletions }
    ensures chain { OnOk result (IsChain chain.new) }
    ensures full { OnOk result (NoneEmpty chain.new.incoming.tables.deletions) }
{
    lose(chain, journal)?;
    feed(chain, site(1), Some(attrs.copy()?), journal)?;
    let first = turn(chain, Task::Del(1, 1), journal)?;
    let second = turn(chain, Task::Del(1, 1), journal)?;
    feed(chain, site(1), None, journal)?;
    Ok([first, second])
}

/// The lines of the routes and of the walk.
const WALKED: &str = "\
+ 6.in.1 2001:db8:1:0:0:0:0:0/48 o0,p(65001),n2001:db8:0:0:0:0:0:1\n\
+ 6.filt.1 2001:db8:1:0:0:0:0:0/48 1:100:-:0:-:o0,p(65001),n2001:db8:0:0:0:0:0:1\n\
+ 6.in.1 2001:db8:2:0:0:0:0:0/48 o0,p(65001),n2001:db8:0:0:0:0:0:1\n\
+ 6.filt.1 2001:db8:2:0:0:0:0:0/48 1:100:-:0:-:o0,p(65001),n2001:db8:0:0:0:0:0:1\n\
= 6.filt.1 2001:db8:1:0:0:0:0:0/48 1:100:-:0:-:o0,p(65001),n2001:db8:0:0:0:0:0:1 1:200:-:0:-:o0,p(65001),n2001:db8:0:0:0:0:0:1\n\
- 6.filt.1 2001:db8:2:0:0:0:0:0/48 1:100:-:0:-:o0,p(65001),n2001:db8:0:0:0:0:0:1\n";

/// The lines of the loss and of what follows.
const LOST: &str = "\
b 6.peer.1.1\n\
+ 6.peer.1.1 2001:db8:1:0:0:0:0:0/48 o0,p(65001),n2001:db8:0:0:0:0:0:1\n\
- 6.in.1 2001:db8:2:0:0:0:0:0/48 o0,p(65001),n2001:db8:0:0:0:0:0:1\n\
w 6.peer.1.1 6.in.1\n\
- 6.in.1 2001:db8:1:0:0:0:0:0/48 o0,p(65001),n2001:db8:0:0:0:0:0:1\n\
- 6.filt.1 2001:db8:1:0:0:0:0:0/48 1:200:-:0:-:o0,p(65001),n2001:db8:0:0:0:0:0:1\n";

/// Whether the turns came to what they should: each of the walk's first two changes a row, its third ends it; the deletion's only
/// one takes the row that the filter rejects.
fn follow(
    alloc: Global,
    chain: &mut Chain<V6>,
    attrs: &SharedAttrs<V6>,
    journal: &mut Journal<V6>,
) -> Result<bool, Fail>
    requires chain { IsChain chain.old }
    requires full { NoneEmpty chain.old.incoming.tables.deletions }
    ensures chain { OnOk result (IsChain chain.new) }
    ensures full { OnOk result (NoneEmpty chain.new.incoming.tables.deletions) }
{
    let walked = walk(alloc, chain, attrs, journal)?;
    has_lines(alloc, journal, WALKED)?;
    journal.clear();
    let waits = chain.filter().busy();
    let lost = come_back(chain, attrs, journal)?;
    has_lines(alloc, journal, LOST)?;
    Ok(
        walked == [Some(true), Some(true), Some(false), None]
            && !waits
            && lost == [Some(false), None]
            && !chain.has(prefix6(0, 0)),
    )
}

fn follow_new(alloc: Global) -> Result<bool, Fail> {
    let attrs = heard(alloc, HEARD)?;
    let mut chain = Chain::new(alloc, speaker(), peer(1, 65001))?;
    let mut journal = Journal::new(alloc, false);
    let followed = follow(alloc, &mut chain, &attrs, &mut journal);
    drop(journal);
    drop(chain);
    drop(attrs);
    followed
}

#[test]
fn a_chain_of_ipv6_walks_and_loses(rt: HostRuntime) -> Result<(), Fail> {
    assert!(rt; follow_new(rt.alloc())?);
    Ok(())
}
