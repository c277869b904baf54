//! What the outgoing filter makes of one route.

ghost use Rattle.std.specs.Prelude.{◌≡◌, IfOk};
ghost use Rattle.link_change.specs.Changes.{IsChangeOf};
ghost use Rattle.filter_bank.specs.Outgoing.{is_reflected, is_kept_from, may_go, first_out, let_out, outgoing};

use crate::sent::Sent;
use addr4::{Family, Memory, Prefix, Row};
use bgp_attr::{Neighbour, Route, SharedAttrs};
use link_change::Change;
use policy_rules::{Rules, judge};

/// Whether a route of one peer goes to the other inside the AS, since one of them is a client (RFC 4456, section 6).
fn is_reflected(from: &Neighbour, to: &Neighbour) -> bool
    ensures { result ≡ is_reflected from.now to.now }
{
    from.client || to.client
}

/// Whether a route from there is kept from the peer.
fn is_kept_from(peer: &Neighbour, from: Option<Neighbour>) -> bool
    ensures { result ≡ is_kept_from peer.now from }
{
    match from {
        None => false,
        Some(from) => {
            from.number == peer.number
                || from.internal && peer.internal && !is_reflected(&from, peer)
        }
    }
}

/// Whether the peer may get the route, if the rules let it.
fn may_go<F: Family>(peer: &Neighbour, prefix: Prefix<F>, route: &Route<SharedAttrs<F>>) -> bool
    ensures { result ≡ may_go F.V6 peer.now prefix route.now }
{
    !is_kept_from(peer, route.from) && prefix.is_of_hosts()
}

/// The route before any rule.
fn first_out<F: Family>(peer: &Neighbour, route: Route<SharedAttrs<F>>) -> Route<SharedAttrs<F>>
    ensures { result ≡ first_out peer.now route }
{
    let mut route = route;
    if !peer.internal {
        route.med = None;
    }
    route
}

/// The route that goes out; without rules none does.
fn let_out<F: Family>(
    peer: &Neighbour,
    rules: &Option<Rules<F>>,
    prefix: Prefix<F>,
    row: Option<Route<SharedAttrs<F>>>,
) -> Option<Route<SharedAttrs<F>>>
    ensures { result ≡ let_out F.V6 peer.now rules.now prefix row }
{
    match (rules, row) {
        (Some(rules), Some(route)) => {
            if !may_go(peer, prefix, &route) {
                return None;
            }
            judge(rules, prefix, first_out(peer, route))
        }
        _ => None,
    }
}

/// What is sent of a row above.
pub(crate) fn sent_row<F: Family, S: Sent<F>>(
    form: &S,
    peer: &Neighbour,
    rules: &Option<Rules<F>>,
    prefix: Prefix<F>,
    row: Option<Route<SharedAttrs<F>>>,
) -> Result<Option<S::Row>, Memory>
    ensures { IfOk result (λ sent. sent ≡ outgoing (S.form form.now) peer.now rules.now prefix row) }
{
    form.known();
    match let_out(peer, rules, prefix, row) {
        None => Ok(None),
        Some(route) => form.sent(&prefix, &route),
    }
}

/// The same of a row that is needed again. It is copied only where there are rules.
fn sent_before<F: Family, S: Sent<F>>(
    form: &S,
    peer: &Neighbour,
    rules: &Option<Rules<F>>,
    prefix: Prefix<F>,
    row: &Option<Route<SharedAttrs<F>>>,
) -> Result<Option<S::Row>, Memory>
    ensures { IfOk result (λ sent. sent ≡ outgoing (S.form form.now) peer.now rules.now prefix row.now) }
{
    match (rules, row) {
        (Some(_), Some(route)) => sent_row(form, peer, rules, prefix, Some(route.copy()?)),
        _ => Ok(None),
    }
}

/// What other rules change of what is sent of a row above.
pub(crate) fn sent_change<F: Family, S: Sent<F>>(
    form: &S,
    peer: &Neighbour,
    former: &Option<Rules<F>>,
    latter: &Option<Rules<F>>,
    prefix: Prefix<F>,
    row: Option<Route<SharedAttrs<F>>>,
) -> Result<Option<Change<S::Row, Prefix<F>>>, Memory>
    ensures { IfOk result (IsChangeOf prefix (outgoing (S.form form.now) peer.now former.now prefix row) (outgoing (S.form form.now) peer.now latter.now prefix row)) }
{
    let before = sent_before(form, peer, former, prefix, &row)?;
    let after = sent_row(form, peer, latter, prefix, row)?;
    Ok(Change::between(prefix, before, after))
}
