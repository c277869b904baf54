//! The best candidate, in two passes that copy and mark none.
//!
//! The first pass finds one that leads in the steps before MULTI_EXIT_DISC (1 to 3). Whom it does not leave behind there is as
//! good as it in each of them. The second pass goes over those: it passes by whom MULTI_EXIT_DISC takes out (step 4), and keeps
//! the first one that leads in the steps behind it (5 to 9).

ghost use Rattle.std.specs.Prelude.{◌≡◌, ◌≤◌, ◌<◌, ◌&&◌, true, List, None, length, map, MatchOption};
ghost use Rattle.std.specs.Option.{option_copied, option_map_or};
ghost use Rattle.bgp_attr.specs.Routes.{Route};
ghost use Rattle.best_path.specs.Keys.{candidate_of};
ghost use Rattle.best_path.specs.Steps.{left_by_all, IsPlaceOfBest};
ghost use Rattle.best_path.specs.Leaders.{Leads, first_steps, last_steps, goes_before, is_taken_out, is_left, has_local};
ghost use Rattle.best_path.specs.Places.{FindsFirst, those_local};

use crate::candidate::Candidate;
use crate::step::{Step, beats, is_ahead, is_nearer};

/// At most how many candidates there are: those of 64 peers, and the local one.
pub const MOST: usize = 65;

// One that leads in steps 1 to 3, where none is local; else none.
fn leader(candidates: &[Candidate]) -> Option<&Candidate>
    requires { 0 < length candidates.now }
    ensures lead { MatchOption (option_copied result) (has_local candidates.now ≡ true) (Leads first_steps candidates.now) }
    ensures local { MatchOption (option_copied result) (has_local candidates.now ≡ true) (λ lead. FindsFirst those_local candidates.now None) }
{
    let mut lead = &candidates[0];
    for (i, one) in candidates.iter().enumerate() {
        if one.local {
            return None;
        }
        if is_ahead(one, lead) {
            lead = one;
        }
    }
    Some(lead)
}

// Whether MULTI_EXIT_DISC takes a candidate out (step 4): whether one of those that the lead does not leave behind has the same
// neighbour AS and a lower one.
fn is_taken_out(candidates: &[Candidate], lead: &Candidate, other: &Candidate) -> bool
    ensures { result ≡ is_taken_out candidates.now lead.now other.now }
{
    for (i, one) in candidates.iter().enumerate() {
        if beats(Step::Med, one, other) && !is_ahead(lead, one) {
            return true;
        }
    }
    false
}

// Whether a candidate is left by steps 1 to 4, and goes before the best so far in steps 5 to 9. Step 4 is asked last: only of
// whom it may still matter.
fn takes_over(
    candidates: &[Candidate],
    lead: &Candidate,
    best: Option<&Candidate>,
    one: &Candidate,
) -> bool
    ensures { result ≡ (is_left candidates.now lead.now one.now && option_map_or (λ other. goes_before last_steps one.now other) (option_copied best.entry) true) }
{
    if is_ahead(lead, one) {
        return false;
    }
    if let Some(other) = best {
        if !is_nearer(one, other) {
            return false;
        }
    }
    !is_taken_out(candidates, lead, one)
}

// The place of the first one that the nine steps leave, where this one leads in the first three.
fn first_left(candidates: &[Candidate], lead: &Candidate) -> Option<usize>
    requires { Leads first_steps candidates.now lead.now }
    ensures { FindsFirst left_by_all candidates.now result }
{
    let mut best: Option<&Candidate> = None;
    let mut place = 0;
    for (i, one) in candidates.iter().enumerate() {
        if takes_over(candidates, lead, best, one) {
            best = Some(one);
            place = i;
        }
    }
    match best {
        None => None,
        Some(_) => Some(place),
    }
}

// The place of the first local candidate.
fn first_local(candidates: &[Candidate]) -> Option<usize>
    ensures { FindsFirst those_local candidates.now result }
{
    for (i, candidate) in candidates.iter().enumerate() {
        if candidate.local {
            return Some(i);
        }
    }
    None
}

// The same of any number of candidates: the steps are needed only where there are several.
fn best_by_steps(candidates: &[Candidate]) -> Option<usize>
    requires { 0 < length candidates.now }
    ensures { (routes : List Route) → map candidate_of routes ≡ candidates.now → IsPlaceOfBest routes result }
{
    match leader(candidates) {
        None => first_local(candidates),
        Some(lead) => first_left(candidates, lead),
    }
}

/// The place of the best candidate: of any routes whose candidates these are, that of the route which the decision process
/// picks. None exactly for the empty list. Takes no memory.
pub fn best(candidates: &[Candidate]) -> Option<usize>
    requires { length candidates.now ≤ 65 }
    ensures { (routes : List Route) → map candidate_of routes ≡ candidates.now → IsPlaceOfBest routes result }
{
    match candidates.len() {
        0 => None,
        1 => Some(0),
        _ => best_by_steps(candidates),
    }
}
