//! The words of a text, and what single words say.

ghost use Rattle.std.specs.Prelude.{◌≡◌, ◌∷◌, suc, [], MatchOption};
ghost use Rattle.addr4.specs.Families.{bits_of};
ghost use Rattle.addr4.specs.Texts.{number_below, parts, parts_after};
ghost use Rattle.policy_rules.specs.Words.{words, words_among, origin_of, setting_of, verdict_of, within_of};

use crate::rule::{Action, Condition, Verdict};
use addr4::{Family, Prefix, Texts, first_part, read_number, read_number_below, read_prefix};
use bgp_attr::Origin;

/// The first word, and what follows it. None where there is no word.
#[tactic(auto, unfolding(crate::specs::Words::words))]
pub fn first_word(text: &[u8]) -> Option<(&[u8], &[u8])>
    ensures { MatchOption result (words text.now ≡ []) (λ w. words text.now ≡ w.0.now ∷ words w.1.now) }
{
    let (mut word, mut rest) = first_part(text, b' ');
    while word.is_empty() {
        (word, rest) = first_part(rest?, b' ');
    }
    match rest {
        Some(rest) => Some((word, rest)),
        None => Some((word, &[])),
    }
}

/// An ORIGIN by its number.
#[tactic(auto, unfolding(crate::specs::Words::origin_of))]
pub fn origin_of(word: &[u8]) -> Option<Origin>
    ensures { result ≡ origin_of word.now }
{
    match read_number_below(word, 3)? {
        0 => Some(Origin::Igp),
        1 => Some(Origin::Egp),
        _ => Some(Origin::Incomplete),
    }
}

/// A length that a prefix of the family can have.
fn length<F: Family>(word: &[u8]) -> Option<u8>
    ensures { result ≡ number_below (suc (bits_of F.V6)) word.now }
{
    let length = read_number_below(word, u64::from(F::WIDTH) + 1)?;
    Some(length as u8)
}

/// The condition `PREFIX ge N le N`, by its five words: a prefix of the family, and lengths to its width.
#[tactic(auto, unfolding(crate::specs::Words::within_of))]
pub fn within_of<F: Texts>(
    prefix: &[u8],
    ge: &[u8],
    least: &[u8],
    le: &[u8],
    most: &[u8],
) -> Option<Condition<Prefix<F>>>
    ensures { result ≡ within_of F.V6 prefix.now ge.now least.now le.now most.now }
{
    if ge != b"ge".as_slice() || le != b"le".as_slice() {
        return None;
    }
    let prefix = read_prefix(prefix).ok()?;
    let least = length::<F>(least)?;
    let most = length::<F>(most)?;
    Some(Condition::Within {
        prefix,
        least,
        most,
    })
}

/// An action of two words.
#[tactic(auto, unfolding(crate::specs::Words::setting_of))]
pub fn setting_of(word: &[u8], number: &[u8]) -> Option<Action>
    ensures { result ≡ setting_of word.now number.now }
{
    if word == b"pref".as_slice() {
        return Some(Action::Pref(read_number(number)?));
    }
    if word == b"med".as_slice() {
        return Some(Action::Med(read_number(number)?));
    }
    if word == b"prepend".as_slice() {
        return Some(Action::Prepend(read_number_below(number, 17)? as u8));
    }
    None
}

/// The verdict of a word.
#[tactic(auto, unfolding(crate::specs::Words::verdict_of))]
pub fn verdict_of(word: &[u8]) -> Option<Verdict>
    ensures { result ≡ verdict_of word.now }
{
    if word == b"accept".as_slice() {
        return Some(Verdict::Accept);
    }
    if word == b"reject".as_slice() {
        return Some(Verdict::Reject);
    }
    if word == b"next".as_slice() {
        return Some(Verdict::Next);
    }
    None
}
