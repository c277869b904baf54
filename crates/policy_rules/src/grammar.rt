//! Reading a list of rules.

ghost use Rattle.std.specs.Prelude.{◌≡◌, ◌∷◌, ◌<◌, ◌≤◌, ◌++◌, Bool, List, [], length, IfOk, IfSome, None, MatchOption};
ghost use Rattle.std.specs.Result.{result_ok};
ghost use Rattle.policy_rules.specs.declared.rule.Action.{Action};
ghost use Rattle.policy_rules.specs.Words.{words};
ghost use Rattle.policy_rules.specs.Ranges.{AreRules};
ghost use Rattle.policy_rules.specs.Grammar.{rules_of, behind, behind_prefix, at_action, in_front};

use crate::rule::{Action, Actions, Condition, Rule, Rules};
use crate::words::{first_word, origin_of, setting_of, verdict_of, within_of};
use addr4::{Memory, Prefix, Texts, read_number_below};
use bgp_attr::Profile;
use std::alloc::Global;

/// A text that is no list of rules.
#[derive(Clone, Copy, Debug, PartialEq, Eq, thiserror::Error)]
#[error("not a list of rules")]
pub struct BadRule;

/// Reads a list of rules, perhaps empty, in words parted by spaces, one or more; spaces may also stand at the start and the
/// end. Their prefixes are the family's. The profile tells which numbers an AS may have. `BadRule` exactly where the text
/// isn't in the grammar. What was read is in range: lengths to the family's width, numbers of 32 bits, `prepend` to 16.
#[tactic(auto, using(crate::proofs::GrammarLemmas::none_in_front, crate::proofs::GrammarLemmas::one_more_in_front, crate::proofs::GrammarLemmas::all_in_front_of_none), unfolding(crate::specs::Grammar::rules_of))]
pub fn read_rules<F: Texts>(
    alloc: Global,
    profile: Profile,
    text: &[u8],
) -> Result<Result<Rules<F>, BadRule>, Memory>
    ensures value { IfOk result (λ rules. result_ok rules ≡ rules_of F.V6 profile.as4 (words text.now)) }
    ensures ranges { IfOk result (λ read. IfOk read (λ rules. AreRules F.V6 profile.as4 rules)) }
{
    let mut rules = Vec::new(alloc);
    let mut rest = text;
    while let Some((word, more)) = first_word(rest) {
        let Some((rule, behind)) = first_rule(alloc, profile, word, more)? else {
            return Ok(Err(BadRule));
        };
        rules.push(rule)?;
        rest = behind;
    }
    Ok(Ok(Rules::from_vec(rules)))
}

/// The first rule, by its first word and what follows that, and what follows the rule.
fn first_rule<'a, F: Texts>(
    alloc: Global,
    profile: Profile,
    word: &[u8],
    rest: &'a [u8],
) -> Result<Option<(Rule<Prefix<F>>, &'a [u8])>, Memory>
    ensures value { IfOk result (λ found. MatchOption found (rules_of F.V6 profile.as4 (word.now ∷ words rest.now) ≡ None) (λ r. rules_of F.V6 profile.as4 (word.now ∷ words rest.now) ≡ in_front r.0 (rules_of F.V6 profile.as4 (words r.1.now)))) }
    ensures shorter { IfOk result (λ found. IfSome found (λ r. length (words r.1.now) < length (words rest.now))) }
{
    match condition(profile, word, rest) {
        Some((condition, rest)) => rule_behind(alloc, profile, condition, rest),
        None => Ok(None),
    }
}

/// The rule with this condition, by what follows that, and what follows the rule.
#[tactic(auto, unfolding(crate::specs::Grammar::rules_of))]
fn rule_behind<'a, F: Texts>(
    alloc: Global,
    profile: Profile,
    condition: Condition<Prefix<F>>,
    text: &'a [u8],
) -> Result<Option<(Rule<Prefix<F>>, &'a [u8])>, Memory>
    ensures value { IfOk result (λ found. MatchOption found (behind F.V6 profile.as4 condition [] (words text.now) ≡ None) (λ r. behind F.V6 profile.as4 condition [] (words text.now) ≡ in_front r.0 (rules_of F.V6 profile.as4 (words r.1.now)))) }
    ensures shorter { IfOk result (λ found. IfSome found (λ r. length (words r.1.now) < length (words text.now))) }
{
    let mut actions = Vec::new(alloc);
    let mut rest = text;
    while let Some((word, more)) = first_word(rest) {
        if let Some(verdict) = verdict_of(word) {
            let actions = Actions::from_vec(actions);
            return Ok(Some((
                Rule {
                    condition,
                    actions,
                    verdict,
                },
                more,
            )));
        }
        let Some((action, behind)) = action(word, more) else {
            return Ok(None);
        };
        actions.push(action)?;
        rest = behind;
    }
    Ok(None)
}

/// A condition, by its first word and what follows that, and what follows the condition.
#[tactic(auto, unfolding(crate::specs::Grammar::rules_of))]
fn condition<'a, F: Texts>(
    profile: Profile,
    word: &[u8],
    rest: &'a [u8],
) -> Option<(Condition<Prefix<F>>, &'a [u8])>
    ensures value { MatchOption result (rules_of F.V6 profile.as4 (word.now ∷ words rest.now) ≡ None) (λ r. rules_of F.V6 profile.as4 (word.now ∷ words rest.now) ≡ behind F.V6 profile.as4 r.0 [] (words r.1.now)) }
    ensures shorter { IfSome result (λ r. length (words r.1.now) ≤ length (words rest.now)) }
{
    if word == b"any".as_slice() {
        return Some((Condition::Any, rest));
    }
    if word == b"path".as_slice() {
        let (number, rest) = first_word(rest)?;
        let asn = read_number_below(number, profile.asn_bound())?;
        return Some((Condition::Path(asn), rest));
    }
    if word == b"origin".as_slice() {
        let (number, rest) = first_word(rest)?;
        let origin = origin_of(number)?;
        return Some((Condition::Origin(origin), rest));
    }
    within(profile, word, rest)
}

/// The condition that begins with a prefix, and what follows it.
#[tactic(auto, unfolding(crate::specs::Grammar::rules_of))]
fn within<'a, F: Texts>(
    profile: Profile,
    prefix: &[u8],
    rest: &'a [u8],
) -> Option<(Condition<Prefix<F>>, &'a [u8])>
    ensures value { MatchOption result (behind_prefix F.V6 profile.as4 prefix.now (words rest.now) ≡ None) (λ r. behind_prefix F.V6 profile.as4 prefix.now (words rest.now) ≡ behind F.V6 profile.as4 r.0 [] (words r.1.now)) }
    ensures shorter { IfSome result (λ r. length (words r.1.now) ≤ length (words rest.now)) }
{
    let (ge, rest) = first_word(rest)?;
    let (least, rest) = first_word(rest)?;
    let (le, rest) = first_word(rest)?;
    let (most, rest) = first_word(rest)?;
    let condition = within_of(prefix, ge, least, le, most)?;
    Some((condition, rest))
}

/// An action, by its first word and what follows that, and what follows the action.
#[tactic(auto, unfolding(crate::specs::Grammar::rules_of))]
fn action<'a>(word: &[u8], rest: &'a [u8]) -> Option<(Action, &'a [u8])>
    ensures value { (v6 as4 : Bool) (c : _) (before : List Action) → MatchOption result (at_action v6 as4 c before word.now (words rest.now) ≡ None) (λ r. at_action v6 as4 c before word.now (words rest.now) ≡ behind v6 as4 c (before ++ r.0 ∷ []) (words r.1.now)) }
    ensures shorter { IfSome result (λ r. length (words r.1.now) ≤ length (words rest.now)) }
{
    if word == b"nomed".as_slice() {
        return Some((Action::NoMed, rest));
    }
    let (number, rest) = first_word(rest)?;
    let action = setting_of(word, number)?;
    Some((action, rest))
}
