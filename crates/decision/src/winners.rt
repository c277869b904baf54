//! Whose row is the best before a change and after it, and what goes on below.

ghost use Rattle.std.specs.Prelude.{◌≡◌, ◌≢◌, ℕ, Option, Some, true, IfOk};
ghost use Rattle.bgp_attr.specs.Routes.{Route as Routed};
ghost use Rattle.decision.specs.Branches.{Decides};
ghost use Rattle.decision.specs.Lineups.{at_prefix, with_own, chosen};
ghost use Rattle.decision.specs.Wins.{WinBoth};

use crate::branches::Branches;
use addr4::{Family, Memory, Prefix};
use bgp_attr::{Route, SharedAttrs};
use link_change::Change;

/// The branches that have the best row before a change of one branch's row, and after it.
#[derive(Clone, Copy)]
pub(crate) struct Winners {
    pub(crate) former: Option<u8>,
    pub(crate) latter: Option<u8>,
}

impl Winners {
    /// Whether the best row is the same other branch's before and after.
    pub(crate) fn is_another(self, branch: u8) -> bool
        ensures { result ≡ true → (self.former ≡ self.latter) × (self.latter ≢ Some branch) }
    {
        self.former == self.latter && self.latter != Some(branch)
    }
}

// The row of the branch that wins, where one branch has this own row.
fn row_of<F: Family, B: Branches<F>>(
    winner: Option<u8>,
    branch: u8,
    own: Option<Route<SharedAttrs<F>>>,
    prefix: &Prefix<F>,
    all: &B,
) -> Result<Option<Route<SharedAttrs<F>>>, Memory>
    ensures { IfOk result (λ row. row ≡ chosen (with_own branch own (at_prefix (B.rows all.now) prefix.now)) winner) }
{
    let Some(number) = winner else {
        return Ok(None);
    };
    if number == branch {
        return Ok(own);
    }
    all.asked(number, prefix)
}

/// A branch's change, as it goes on below where these win.
pub(crate) fn won_by<F: Family, B: Branches<F>>(
    winners: Winners,
    branch: u8,
    change: Change<Route<SharedAttrs<F>>, Prefix<F>>,
    all: &B,
) -> Result<Option<Change<Route<SharedAttrs<F>>, Prefix<F>>>, Memory>
    requires { WinBoth branch (at_prefix (B.rows all.now) change.prefix) change winners }
    ensures { IfOk result (Decides branch (B.rows all.now) change) }
{
    if winners.is_another(branch) {
        return Ok(None);
    }
    let before = row_of(winners.former, branch, change.before, &change.prefix, all)?;
    let after = row_of(winners.latter, branch, change.after, &change.prefix, all)?;
    Ok(Change::between(change.prefix, before, after))
}
