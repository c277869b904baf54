//! Rules.

ghost use Rattle.std.specs.Prelude.{◌≡◌, [], length, IfOk};

use addr4::{Family, Memory, Prefix, V4};
use bgp_attr::Origin;
use std::alloc::Global;
use std::marker::Model;

/// Which routes a rule is for.
#[derive(Clone, Copy, PartialEq, Eq)]
pub enum Condition<P = Prefix> {
    /// `any`: all.
    Any,
    /// `PREFIX ge N le N`: those whose prefix lies in this one, with a length from the least to the most, 0 to the family's width.
    Within { prefix: P, least: u8, most: u8 },
    /// `path AS`: those with this AS number in some segment of the AS path.
    Path(u32),
    /// `origin N`: those with this ORIGIN.
    Origin(Origin),
}

/// What a rule sets in a route.
#[derive(Clone, Copy, PartialEq, Eq)]
pub enum Action {
    /// `pref N`: the degree of preference.
    Pref(u32),
    /// `med N`: the MULTI_EXIT_DISC that counts.
    Med(u32),
    /// `nomed`: none counts.
    NoMed,
    /// `prepend N`: how often more than once the local AS is put in front of the path, 0 to 16.
    Prepend(u8),
}

/// What becomes of a route for which a rule is.
#[derive(Clone, Copy, PartialEq, Eq)]
pub enum Verdict {
    /// The actions are done, and the route is accepted.
    Accept,
    /// The route is rejected.
    Reject,
    /// The actions are done, and the next rule follows.
    Next,
}

/// Actions, in the order in which they are done.
#[derive(Drop)]
pub struct Actions {
    items: Vec<Action>,
}

impl Model for Actions {
    ghost use Rattle.std.specs.Prelude.{List};
    ghost use Rattle.policy_rules.specs.declared.rule.Action.{Action};

    ghost Value = { List Action };

    ghost view = { λ a. a.items.items };
}

impl Actions {
    /// Takes no memory.
    pub fn from_vec(items: Vec<Action>) -> Actions
        ensures { result ≡ items.items }
    {
        Actions { items }
    }

    /// The same actions again.
    pub fn copy(&self, alloc: Global) -> Result<Actions, Memory>
        ensures { IfOk result (λ copied. copied ≡ self.now) }
    {
        let mut items = Vec::with_capacity(alloc, self.items.len())?;
        for action in &self.items {
            items.push(*action)?;
        }
        Ok(Actions { items })
    }

    pub fn as_slice(&self) -> &[Action]
        ensures { result.now ≡ self.now }
    {
        self.items.as_slice()
    }
}

/// One rule.
#[derive(Drop)]
pub struct Rule<P = Prefix> {
    pub condition: Condition<P>,
    pub actions: Actions,
    pub verdict: Verdict,
}

impl<F: Family> Rule<Prefix<F>> {
    /// The same rule again.
    pub fn copy(&self, alloc: Global) -> Result<Rule<Prefix<F>>, Memory>
        ensures { IfOk result (λ copied. copied ≡ self.now) }
    {
        Ok(Rule {
            condition: self.condition,
            actions: self.actions.copy(alloc)?,
            verdict: self.verdict,
        })
    }
}

/// A list of rules, perhaps empty.
#[derive(Drop)]
pub struct Rules<F: Family = V4> {
    items: Vec<Rule<Prefix<F>>>,
}

impl<F: Family> Model for Rules<F> {
    ghost use Rattle.std.specs.Prelude.{List};
    ghost use Rattle.policy_rules.specs.Rules.{Rule};

    ghost Value = { List Rule };

    ghost view = { λ r. r.items.items };
}

impl<F: Family> Rules<F> {
    /// The empty list; takes no memory.
    pub fn new(alloc: Global) -> Rules<F>
        ensures { result ≡ [] }
    {
        Rules {
            items: Vec::new(alloc),
        }
    }

    /// Takes no memory.
    pub fn from_vec(items: Vec<Rule<Prefix<F>>>) -> Rules<F>
        ensures { result ≡ items.items }
    {
        Rules { items }
    }

    /// The same rules again.
    pub fn copy(&self, alloc: Global) -> Result<Rules<F>, Memory>
        ensures { IfOk result (λ copied. copied ≡ self.now) }
    {
        let mut items = Vec::with_capacity(alloc, self.items.len())?;
        for rule in &self.items {
            items.push(rule.copy(alloc)?)?;
        }
        Ok(Rules { items })
    }

    /// How many rules there are.
    pub fn len(&self) -> usize
        ensures { result ≡ length self.now }
    {
        self.items.len()
    }

    pub fn as_slice(&self) -> &[Rule<Prefix<F>>]
        ensures { result.now ≡ self.now }
    {
        self.items.as_slice()
    }
}
