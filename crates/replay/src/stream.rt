//! Text that comes in pieces, stepped line by line.

ghost use Rattle.std.specs.Prelude.{◌≡◌, ◌++◌, ◌∷◌, [], ◌<◌, ◌≤◌, ◌+◌, ◌^◌, ◌⊎◌, List, ℕ, IfOk, OnOk, length, true, false};
ghost use Rattle.check_run.specs.Lines.{IsPart, lines_of};
ghost use Rattle.router.specs.Networks.{networks_of};
ghost use Rattle.replay.specs.Output.{IsOutputTo, IsRefusedOutput};
ghost use Rattle.replay.specs.Stream.{IsReady, GoesOn, IsNearer, HasStepped, made};

use crate::stepping::step_line;
use addr4::Memory;
use check_run::{first_line, without_return};
use journal_text::{Code, Line};
use router::{Journals, Router};
use router_moments::first_moment_stands;
use std::alloc::Global;

/// So many bytes without an LF may be part of a line, which may end with CR LF; with one more the line is refused.
const LONGEST_PART: usize = 16385;

/// Reads text in pieces, and steps each line as soon as it is whole.
#[derive(Drop)]
pub struct Stream {
    alloc: Global,
    router: Router,
    /// The number of the line that has begun.
    number: u64,
    /// What was read of it.
    pending: Vec<u8>,
    /// How many turns the events took.
    turns: u128,
    ghost few: { number ≤ 2 ^ 32 },
    ghost short: { length pending.items < 16386 },
}

/// The sum of two counts. Past 2^128 there is none, which is answered as want of memory.
fn sum_of(count: u128, more: u128) -> Result<u128, Memory>
    ensures { IfOk result (λ sum. sum ≡ count + more) }
{
    match count.checked_add(more) {
        Some(sum) => Ok(sum),
        None => Err(Memory),
    }
}

impl Stream {
    ghost use Rattle.replay.specs.Streams.{state};

    pub fn new(alloc: Global, quiet: bool) -> Stream
        ensures stepped { HasStepped quiet [] result.number (networks_of result.router) result.turns result.pending.items [] }
        ensures ready { IsReady result.number result.router }
    {
        first_moment_stands();
        Stream {
            alloc,
            router: Router::new(alloc),
            number: 1,
            pending: Vec::new(alloc),
            turns: 0,
        }
    }

    /// The router, behind all whole lines.
    pub fn router(&self) -> &Router
        ensures { result.now ≡ self.now.router }
    {
        &self.router
    }

    /// How many turns the events took.
    pub fn turns(&self) -> u128
        ensures { result ≡ self.now.turns }
    {
        self.turns
    }

    /// Takes what follows of the line that has begun. Answers whether the text so far is accepted.
    fn take_part(&mut self, part: &[u8], journal: &mut Journals) -> Result<bool, Memory>
        requires part { IsPart part.now }
        requires ready { IsReady self.old.number self.old.router }
        ensures goes_on { IfOk result (λ accepted. GoesOn journal.old.quiet accepted (state self.old) part.now (made journal.old) (made journal.new) (state self.new)) }
        ensures progress { IfOk result (λ accepted. accepted ≡ true → IsNearer (length part.now) (state self.old) (state self.new)) }
        ensures ready { OnOk result (IsReady self.new.number self.new.router) }
        ensures quiet { OnOk result (journal.new.quiet ≡ journal.old.quiet) }
    {
        if part.len() > LONGEST_PART - self.pending.len() {
            journal.push_line(Line::Refused(self.number, Code::E1))?;
            return Ok(false);
        }
        self.pending.extend_from_slice(part)?;
        Ok(true)
    }

    /// Takes the end of a line. Answers whether the line is accepted.
    fn take_end(&mut self, journal: &mut Journals) -> Result<bool, Memory>
        requires { IsReady self.old.number self.old.router }
        ensures goes_on { IfOk result (λ accepted. GoesOn journal.old.quiet accepted (state self.old) (10 ∷ []) (made journal.old) (made journal.new) (state self.new)) }
        ensures progress { IfOk result (λ accepted. accepted ≡ true → IsNearer 1 (state self.old) (state self.new)) }
        ensures ready { IfOk result (λ accepted. accepted ≡ true → IsReady self.new.number self.new.router) }
        ensures quiet { OnOk result (journal.new.quiet ≡ journal.old.quiet) }
    {
        let line = without_return(self.pending.as_slice());
        let Some(turns) = step_line(self.alloc, &mut self.router, self.number, line, journal)?
        else {
            return Ok(false);
        };
        self.turns = sum_of(self.turns, turns)?;
        self.pending.clear();
        self.number += 1;
        Ok(true)
    }

    /// Takes a piece of the text. Answers whether the text so far is accepted; nothing is taken after a line
    /// that is refused.
    pub fn take_piece(&mut self, piece: &[u8], journal: &mut Journals) -> Result<bool, Memory>
        requires { IsReady self.old.number self.old.router }
        ensures goes_on { IfOk result (λ accepted. GoesOn journal.old.quiet accepted (state self.old) piece.now (made journal.old) (made journal.new) (state self.new)) }
        ensures progress { IfOk result (λ accepted. accepted ≡ true → IsNearer (length piece.now) (state self.old) (state self.new)) }
        ensures ready { IfOk result (λ accepted. accepted ≡ true → IsReady self.new.number self.new.router) }
        ensures quiet { OnOk result (journal.new.quiet ≡ journal.old.quiet) }
    {
        let mut rest = piece;
        loop {
            let (part, next) = first_line(rest);
            if !self.take_part(part, journal)? {
                return Ok(false);
            }
            let Some(next) = next else {
                return Ok(true);
            };
            if !self.take_end(journal)? {
                return Ok(false);
            }
            rest = next;
        }
    }

    /// Takes the end of the text. Answers whether the text is accepted.
    pub fn finish(&mut self, journal: &mut Journals) -> Result<bool, Memory>
        requires { IsReady self.old.number self.old.router }
        ensures accepted { IfOk result (λ accepted. accepted ≡ true → (read taken : List ℕ) →
            HasStepped journal.old.quiet read self.old.number (networks_of self.old.router) self.old.turns self.old.pending.items (taken ++ made journal.old) → IsOutputTo journal.old.quiet (lines_of read) (taken ++ made journal.new) (networks_of self.new.router) self.new.turns) }
        ensures refused { IfOk result (λ accepted. accepted ≡ false → (read taken : List ℕ) →
            HasStepped journal.old.quiet read self.old.number (networks_of self.old.router) self.old.turns self.old.pending.items (taken ++ made journal.old) → IsRefusedOutput journal.old.quiet read (taken ++ made journal.new)) }
        ensures quiet { OnOk result (journal.new.quiet ≡ journal.old.quiet) }
    {
        if self.pending.is_empty() {
            return Ok(true);
        }
        let line = self.pending.as_slice();
        let Some(turns) = step_line(self.alloc, &mut self.router, self.number, line, journal)?
        else {
            return Ok(false);
        };
        self.turns = sum_of(self.turns, turns)?;
        Ok(true)
    }
}
