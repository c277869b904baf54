//! Candidates of the branches that come and go: the decision's state counts them at each prefix.
//!
//! A candidate is counted before its row is decided, and goes after it: so what is decided always stands at a prefix that the state keeps.

ghost use Rattle.std.specs.Prelude.{◌≡◌, ℕ, OnOk, Option, Some, true, false};
ghost use Rattle.addr4.specs.Prefixes.{AddressPrefix};
ghost use Rattle.link_change.specs.Rows.{Candidates};
ghost use Rattle.decision.specs.Branches.{AllRows};
ghost use Rattle.decision.specs.Contests.{Knows, Counts, CoversAt};
ghost use Rattle.router_network.specs.Informed.{Shifts, ShiftsAt, HasShift, HasShifted, shifted};

use addr4::{Family, Memory, Prefix};
use decision::Contests;

/// Before what a step of a branch does at a prefix is decided: a candidate that came there is counted.
pub(crate) fn enter<F: Family>(
    contests: &mut Contests<F>,
    prefix: Prefix<F>,
    had: bool,
    has: bool,
) -> Result<(), Memory>
    requires { HasShift prefix had has contests.old }
    ensures counts { OnOk result ((branch : ℕ) (before now : ℕ → Candidates) → Shifts branch prefix had has before now → Counts contests.old before → Counts contests.new (shifted has before now)) }
    ensures known { OnOk result ((rows : AllRows) → Knows contests.old rows → Knows contests.new rows) }
{
    if had || !has {
        return Ok(());
    }
    contests.note(prefix, true)
}

/// After that: one that went is counted no more.
pub(crate) fn leave<F: Family>(
    contests: &mut Contests<F>,
    prefix: Prefix<F>,
    had: bool,
    has: bool,
) -> Result<(), Memory>
    requires { HasShifted prefix had has contests.old }
    ensures counts { OnOk result ((branch : ℕ) (before now : ℕ → Candidates) → Shifts branch prefix had has before now → Counts contests.old (shifted has before now) → Counts contests.new now) }
    ensures known { OnOk result ((rows : AllRows) (now : ℕ → Candidates) → Counts contests.new now → CoversAt now rows prefix → Knows contests.old rows → Knows contests.new rows) }
{
    if has || !had {
        return Ok(());
    }
    contests.note(prefix, false)
}

/// The same of a candidate that went, if one did.
pub(crate) fn forget<F: Family>(
    contests: &mut Contests<F>,
    lost: Option<Prefix<F>>,
) -> Result<(), Memory>
    requires { (prefix : AddressPrefix) → lost ≡ Some prefix → HasShifted prefix true false contests.old }
    ensures counts { OnOk result ((branch : ℕ) (before now : ℕ → Candidates) → ShiftsAt lost branch before now → Counts contests.old before → Counts contests.new now) }
    ensures known { OnOk result ((rows : AllRows) (now : ℕ → Candidates) → Counts contests.new now → ((prefix : AddressPrefix) → CoversAt now rows prefix) → Knows contests.old rows → Knows contests.new rows) }
{
    let Some(prefix) = lost else {
        return Ok(());
    };
    leave(contests, prefix, true, false)
}
