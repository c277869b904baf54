//! Stories in which a read or a write fails, each call once. Each read gives one line.

use crate::answer::{Answer, Pace, answer_failing, answer_to};
use crate::fault::{Fault, fault_in};
use replay::Status;
use std::alloc::{AllocError, Global};

const RUN: &str = "replay run";

/// Whether the output is that of the lines before the read with this number, which fails.
fn is_told(alloc: Global, events: &str, number: u64, before: &str) -> Result<bool, AllocError> {
    let answer = answer_failing(alloc, RUN, Pace::Lines, events.as_bytes(), number, 0)?;
    let earlier = answer_to(alloc, RUN, Pace::Whole, before.as_bytes())?;
    Ok(answer.status == Status::ReadFault && answer.output.as_slice() == earlier.output.as_slice())
}

/// Collects the lines of the events, and then half a line; says what is wrong where a read fails behind them, if anything.
fn fault_behind(
    alloc: Global,
    events: &str,
    before: &mut String,
) -> Result<Option<Fault>, AllocError> {
    let mut number = 1u64;
    for line in events.split_inclusive('\n') {
        if !is_told(alloc, events, number, before.as_str())? {
            return Ok(Some(Fault::Read(number)));
        }
        before.push_str(line)?;
        number = number.wrapping_add(1);
    }
    before.push_str("up")?;
    number = number.wrapping_add(1);
    if is_told(alloc, before.as_str(), number, events)? {
        return Ok(None);
    }
    Ok(Some(Fault::Read(number)))
}

/// What is wrong where a read fails, if anything: the output must be that of the lines before it, without half a line that was read
/// behind them.
pub fn fault_of_reads(alloc: Global, events: &str) -> Result<Option<Fault>, AllocError> {
    let mut before = String::new(alloc);
    fault_behind(alloc, events, &mut before)
}

/// The first lines of a text, so many.
fn first_lines(alloc: Global, text: &str, count: u64) -> Result<String, AllocError> {
    let mut lines = String::new(alloc);
    let mut left = count;
    for line in text.split_inclusive('\n') {
        if left > 0 {
            lines.push_str(line)?;
            left = left.wrapping_sub(1);
        }
    }
    Ok(lines)
}

/// Whether the output has what the lines before the last one that was read give: that is written before more is read.
fn is_prompt(alloc: Global, events: &str, answer: &Answer) -> Result<bool, AllocError> {
    let before = first_lines(alloc, events, answer.reads.saturating_sub(1))?;
    let earlier = answer_to(alloc, RUN, Pace::Whole, before.as_bytes())?;
    Ok(
        answer
            .output
            .as_slice()
            .starts_with(earlier.output.as_slice()),
    )
}

/// The status where the write with this number fails, and whether the output is right: the whole one, or a front of it.
fn told_of_write(
    alloc: Global,
    events: &str,
    wanted: &str,
    number: u64,
) -> Result<(Status, bool), AllocError> {
    let answer = answer_failing(alloc, RUN, Pace::Lines, events.as_bytes(), 0, number)?;
    let right = match answer.status {
        Status::Ok => fault_in(&answer, wanted, Status::Ok).is_none(),
        Status::WriteFault => {
            wanted.as_bytes().starts_with(answer.output.as_slice())
                && is_prompt(alloc, events, &answer)?
        }
        _ => false,
    };
    Ok((answer.status, right))
}

/// What is wrong where a write fails, if anything.
pub fn fault_of_writes(
    alloc: Global,
    events: &str,
    wanted: &str,
) -> Result<Option<Fault>, AllocError> {
    for number in 1..u64::MAX {
        let (status, right) = told_of_write(alloc, events, wanted, number)?;
        if !right {
            return Ok(Some(Fault::Write(number)));
        }
        if status == Status::Ok {
            return Ok(None);
        }
    }
    Ok(None)
}

/// What is wrong, if anything, where a line is too long: it is refused before more is read, so the read that would fail isn't made.
pub fn fault_of_long_lines(alloc: Global) -> Result<Option<Fault>, AllocError> {
    let run = fault_of_long_line(alloc, RUN, 16386, 2, "refused 1 E1\n")?;
    let check = fault_of_long_line(alloc, "replay check", 65538, 3, "refused 1 J1\n")?;
    Ok(run.or(check))
}

/// The same of a command, for a line of so many bytes, where the read with this number would fail.
fn fault_of_long_line(
    alloc: Global,
    command: &str,
    length: usize,
    read: u64,
    wanted: &str,
) -> Result<Option<Fault>, AllocError> {
    let text = "#".repeat(alloc, length)?;
    let answer = answer_failing(alloc, command, Pace::Whole, text.as_bytes(), read, 0)?;
    Ok(fault_in(&answer, wanted, Status::Refused))
}
