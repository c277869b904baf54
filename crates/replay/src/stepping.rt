//! Stepping a line.

ghost use Rattle.std.specs.Prelude.{◌≡◌, ◌≢◌, ◌+◌, ℕ, Some, None, Ok, Err, IfOk, IfSome, IfNone, OnOk};
ghost use Rattle.event_text.specs.FileEvents.{IsWellSaid, file_refusal};
ghost use Rattle.router.specs.Networks.{networks_of};
ghost use Rattle.replay.specs.Judging.{judge, placed};
ghost use Rattle.replay.specs.Stream.{IsReady, StepsLine, RefusesLine, made};

use addr4::Memory;
use event_text::{FileEvent, admit_file, parse_file};
use exit_laws::{steps_are_heard, what_is_heard};
use journal_text::{Code, Line, Value, journals_join};
use live_state::declarations_follow;
use router::{Journals, Router};
use std::alloc::Global;

/// The number of the line that is refused whatever it holds: 2^32 - 1 events are the most.
const LAST_LINE: u64 = 4_294_967_296;

/// The code with which an event is refused in a line, if it is.
fn misplaced(router: &Router, number: u64, event: &FileEvent) -> Option<Code>
    ensures refused { IfSome result (λ code. placed number (file_refusal router.now.first.moment.declared event.now) event.now ≡ Err code) }
    ensures admitted { IfNone result (placed number (file_refusal router.now.first.moment.declared event.now) event.now ≡ Ok event.now) }
{
    if let Some(code) = admit_file(event, router.declared()) {
        return Some(code);
    }
    if number == LAST_LINE {
        return Some(Code::E6);
    }
    None
}

/// What may be said of a line.
#[tactic(auto, unfolding(crate::specs::Judging::judge))]
fn judge(
    alloc: Global,
    router: &Router,
    number: u64,
    line: &[u8],
) -> Result<Result<FileEvent, Code>, Memory>
    ensures judged { IfOk result (λ answer. answer ≡ judge number router.now.first.moment.declared line.now) }
    ensures said { IfOk result (λ answer. IfOk answer (IsWellSaid router.now.first.moment.declared.profile)) }
{
    let event = match parse_file(alloc, router.declared().profile(), line)? {
        Ok(event) => event,
        Err(code) => return Ok(Err(code)),
    };
    if let Some(code) = misplaced(router, number, &event) {
        drop(event);
        return Ok(Err(code));
    }
    Ok(Ok(event))
}

/// Steps a line, and answers how many turns its event took; or writes that it is refused, and answers None.
#[tactic(auto, using(crate::proofs::Lines::accepted_is_admitted, crate::proofs::Lines::accepted_in_time))]
pub fn step_line(
    alloc: Global,
    router: &mut Router,
    number: u64,
    line: &[u8],
    journal: &mut Journals,
) -> Result<Option<u128>, Memory>
    requires { IsReady number router.old }
    ensures accepted { IfOk result (λ turns. (taken : ℕ) → turns ≡ Some taken → StepsLine journal.old.quiet number (networks_of router.old) line.now (made journal.old) (made journal.new) (networks_of router.new) taken) }
    ensures ready { IfOk result (λ turns. turns ≢ None → IsReady (number + 1) router.new) }
    ensures refused { IfOk result (λ turns. turns ≡ None → RefusesLine number (networks_of router.old) line.now (made journal.old) (made journal.new)) }
    ensures quiet { OnOk result (journal.new.quiet ≡ journal.old.quiet) }
{
    match judge(alloc, router, number, line)? {
        Ok(event) => {
            let turns = router.step(event, journal)?;
            declarations_follow();
            journals_join::<Value>();
            what_is_heard();
            steps_are_heard();
            Ok(Some(turns))
        }
        Err(code) => {
            journal.push_line(Line::Refused(number, code))?;
            Ok(None)
        }
    }
}
