//! What is known of the branches at one prefix.

ghost use Rattle.std.specs.Prelude.{◌≡◌, ◌≢◌, ◌<◌, ◌+◌, ℕ, Option, Some, None, MatchOption, true, false, cond, length, IfOk, OnOk};
ghost use Rattle.std.specs.FinMap as tables;
ghost use Rattle.addr4.specs.Prefixes.{AddressPrefix};
ghost use Rattle.bgp_attr.specs.Routes.{Route as Routed};
ghost use Rattle.decision.specs.Lineups.{IsLine, at_prefix, with_own, number_at};
ghost use Rattle.decision.specs.Wins.{Win, WinBoth};
ghost use Rattle.decision.specs.Contests.{IsContest, OnlyWinner, HasNoOther, contest_of};

use crate::branches::Branches;
use crate::lineup::Lineup;
use crate::winners::Winners;
use addr4::{Family, Memory, Prefix};
use best_path::Candidate;
use bgp_attr::{Route, SharedAttrs};
use link_change::Change;
use nibble_trie::{Node, Trie};
use std::alloc::Global;
use std::mem::size_of;

/// What stands at each prefix where a branch has a candidate.
#[derive(Drop)]
pub(crate) struct Mark {
    /// How many branches have a candidate of a walk there.
    pub(crate) walkers: u8,
    /// The branch whose row is the best.
    pub(crate) winner: Option<u8>,
}

// A leaf of the table is 16 octets, and a tag.
const _: () = prove!(size_of::<Node<Mark>>() == 16);

/// One more, or one less.
pub(crate) fn moved(walkers: u8, comes: bool) -> u8
    requires more { comes ≡ true → walkers < 65 }
    requires less { comes ≡ false → 0 < walkers }
    ensures { cond comes (result ≡ walkers + 1) (result + 1 ≡ walkers) }
{
    if comes { walkers + 1 } else { walkers - 1 }
}

// The branch, if it has a row.
fn own_winner<F: Family>(branch: u8, row: &Option<Route<SharedAttrs<F>>>) -> Option<u8>
    ensures { result ≡ number_at row.now branch }
{
    match row {
        Some(_) => Some(branch),
        None => None,
    }
}

// The line of the other branch, where one branch alone may have a row before a change, and it is another one: it is asked for
// its row.
fn line_of_other<F: Family, B: Branches<F>>(
    alloc: Global,
    winner: Option<u8>,
    branch: u8,
    change: &Change<Route<SharedAttrs<F>>, Prefix<F>>,
    all: &B,
) -> Result<Option<Lineup>, Memory>
    requires only { OnlyWinner (with_own branch change.now.before (at_prefix (B.rows all.now) change.now.prefix)) winner }
    ensures { IfOk result (λ line. MatchOption line (HasNoOther branch (at_prefix (B.rows all.now) change.now.prefix)) (IsLine (with_own branch change.now.before (at_prefix (B.rows all.now) change.now.prefix)))) }
{
    let Some(number) = winner else {
        return Ok(None);
    };
    if number == branch {
        return Ok(None);
    }
    if 65 <= number {
        return Ok(None);
    }
    let row = all.asked(number, &change.prefix)?;
    match row {
        None => Ok(None),
        Some(route) => Ok(Some(Lineup::of_one(alloc, number, Candidate::of(&route))?)),
    }
}

// A change of a branch's row where the candidates of all are in line. Where one is left, it is the winner's.
fn decide_in_line<F: Family, B: Branches<F>>(
    mark: &mut Mark,
    line: &mut Lineup,
    branch: u8,
    change: &Change<Route<SharedAttrs<F>>, Prefix<F>>,
    all: &B,
) -> Result<Winners, Memory>
    requires small { branch < 65 }
    requires known { IsContest (with_own branch change.now.before (at_prefix (B.rows all.now) change.now.prefix)) (contest_of mark.old (Some line.old)) }
    ensures win { IfOk result (WinBoth branch (at_prefix (B.rows all.now) change.now.prefix) change.now) }
    ensures known { OnOk result (IsContest (with_own branch change.now.after (at_prefix (B.rows all.now) change.now.prefix)) (contest_of mark.new (Some line.new))) }
    ensures short { OnOk result (length line.new.branches.items < 2 → OnlyWinner (with_own branch change.now.after (at_prefix (B.rows all.now) change.now.prefix)) mark.new.winner) }
    ensures walkers { mark.new.walkers ≡ mark.old.walkers }
{
    line.take_in(branch, change)?;
    let former = mark.winner;
    let latter = line.winner();
    mark.winner = latter;
    Ok(Winners { former, latter })
}

// The same where no line is kept: where another branch has a row too, one is made.
fn decide_alone<F: Family, B: Branches<F>>(
    alloc: Global,
    mark: &mut Mark,
    lines: &mut Trie<Lineup, F>,
    branch: u8,
    change: &Change<Route<SharedAttrs<F>>, Prefix<F>>,
    all: &B,
) -> Result<Option<Winners>, Memory>
    requires small { branch < 65 }
    requires known { IsContest (with_own branch change.now.before (at_prefix (B.rows all.now) change.now.prefix)) (contest_of mark.old None) }
    requires none { tables.get lines.old.rows change.now.prefix ≡ None }
    ensures win { IfOk result (Win branch (at_prefix (B.rows all.now) change.now.prefix) change.now) }
    ensures known { OnOk result (IsContest (with_own branch change.now.after (at_prefix (B.rows all.now) change.now.prefix)) (contest_of mark.new (tables.get lines.new.rows change.now.prefix))) }
    ensures walkers { mark.new.walkers ≡ mark.old.walkers }
    ensures others { (q : AddressPrefix) → q ≢ change.now.prefix → tables.get lines.new.rows q ≡ tables.get lines.old.rows q }
{
    let Some(mut line) = line_of_other(alloc, mark.winner, branch, change, all)? else {
        mark.winner = own_winner(branch, &change.after);
        return Ok(None);
    };
    let winners = decide_in_line(mark, &mut line, branch, change, all)?;
    match lines.insert(change.prefix, line) {
        Ok(_) => Ok(Some(winners)),
        Err(_) => Err(Memory),
    }
}

/// What is known at the prefix of a change of a branch's row, by what was known before it; and who wins before it and after, where
/// another branch has a row. The branches are lent as they are after the change. One is asked where it alone had a row.
pub(crate) fn decide<F: Family, B: Branches<F>>(
    alloc: Global,
    mark: &mut Mark,
    lines: &mut Trie<Lineup, F>,
    branch: u8,
    change: &Change<Route<SharedAttrs<F>>, Prefix<F>>,
    all: &B,
) -> Result<Option<Winners>, Memory>
    requires small { branch < 65 }
    requires known { IsContest (with_own branch change.now.before (at_prefix (B.rows all.now) change.now.prefix)) (contest_of mark.old (tables.get lines.old.rows change.now.prefix)) }
    ensures win { IfOk result (Win branch (at_prefix (B.rows all.now) change.now.prefix) change.now) }
    ensures known { OnOk result (IsContest (with_own branch change.now.after (at_prefix (B.rows all.now) change.now.prefix)) (contest_of mark.new (tables.get lines.new.rows change.now.prefix))) }
    ensures walkers { mark.new.walkers ≡ mark.old.walkers }
    ensures others { (q : AddressPrefix) → q ≢ change.now.prefix → tables.get lines.new.rows q ≡ tables.get lines.old.rows q }
{
    let Some(line) = lines.get_mut(change.prefix) else {
        return decide_alone(alloc, mark, lines, branch, change, all);
    };
    let winners = decide_in_line(mark, line, branch, change, all)?;
    if line.is_short() {
        lines.remove(change.prefix);
    }
    Ok(Some(winners))
}
