//! The first rule that decides.

ghost use Rattle.std.specs.Prelude.{◌≡◌, ◌↔◌, IsTrue, IfSome, is_some};
ghost use Rattle.bgp_attr.specs.Routes.{Route as Routed};
ghost use Rattle.policy_rules.specs.Judged.{Holds, Judged, KeepsSource, Outcome, done, acted};
ghost use Rattle.policy_rules.specs.Verdicts.{judged_by};

use crate::rule::{Action, Condition, Rule, Rules, Verdict};
use addr4::{Addr, Family, Prefix};
use bgp_attr::{Attrs, Route, SharedAttrs};

/// Lets a route of a prefix pass along the rules. A rule whose condition doesn't hold passes the route on; so does one
/// whose verdict is `next`, after its actions. The first other rule decides: `accept` does its actions and accepts, `reject`
/// rejects. After the last rule the route is accepted as it then is. None exactly where a rule rejects. The route's
/// attributes, its interior metric and its peer stay. Takes no memory.
pub fn judge<F: Family>(
    rules: &Rules<F>,
    prefix: Prefix<F>,
    route: Route<SharedAttrs<F>>,
) -> Option<Route<SharedAttrs<F>>>
    ensures judged { Judged rules.now prefix route result }
    ensures value { result ≡ judged_by rules.now prefix route }
    ensures kept { IfSome result (KeepsSource route) }
{
    let mut route = route;
    for rule in rules.as_slice() {
        match outcome(rule, prefix, &mut route) {
            Verdict::Accept => return Some(route),
            Verdict::Reject => return None,
            Verdict::Next => {}
        }
    }
    Some(route)
}

/// Whether [`judge`] accepts routes with these attributes: no condition looks at anything else of a route. Takes no memory.
pub fn accepts<F: Family>(rules: &Rules<F>, prefix: Prefix<F>, attrs: &Attrs<Addr<F>>) -> bool
    ensures { (r : Routed) → r.attrs ≡ attrs.now → result ≡ is_some (judged_by rules.now prefix r) }
{
    for rule in rules.as_slice() {
        if holds(rule.condition, prefix, attrs) {
            match rule.verdict {
                Verdict::Accept => return true,
                Verdict::Reject => return false,
                Verdict::Next => {}
            }
        }
    }
    true
}

/// What one rule does: `Next` where it passes the route on.
fn outcome<F: Family>(
    rule: &Rule<Prefix<F>>,
    prefix: Prefix<F>,
    route: &mut Route<SharedAttrs<F>>,
) -> Verdict
    ensures { Outcome result rule.now prefix route.old route.new }
{
    if !holds(rule.condition, prefix, route.attrs.attrs()) {
        return Verdict::Next;
    }
    act(rule.actions.as_slice(), route);
    rule.verdict
}

/// Whether a condition holds of a route of this prefix with these attributes.
fn holds<F: Family>(
    condition: Condition<Prefix<F>>,
    prefix: Prefix<F>,
    attrs: &Attrs<Addr<F>>,
) -> bool
    ensures { (r : Routed) → r.attrs ≡ attrs.now → (IsTrue result ↔ Holds condition prefix r) }
{
    match condition {
        Condition::Any => true,
        Condition::Within {
            prefix: outer,
            least,
            most,
        } => outer.covers(prefix) && least <= prefix.length() && prefix.length() <= most,
        Condition::Path(asn) => attrs.path.has(asn),
        Condition::Origin(origin) => attrs.origin == origin,
    }
}

/// Does actions, in order.
fn act<F: Family>(actions: &[Action], route: &mut Route<SharedAttrs<F>>)
    ensures { route.new ≡ acted actions.now route.old }
{
    for action in actions {
        set(*action, route);
    }
}

/// Does one action.
fn set<F: Family>(action: Action, route: &mut Route<SharedAttrs<F>>)
    ensures { route.new ≡ done action route.old }
{
    match action {
        Action::Pref(number) => route.pref = number,
        Action::Med(number) => route.med = Some(number),
        Action::NoMed => route.med = None,
        Action::Prepend(times) => route.prepend = times,
    }
}
