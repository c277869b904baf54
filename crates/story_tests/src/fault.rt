//! What can be wrong with an answer.

use crate::answer::{Answer, Pace, answer_to};
use crate::lines::first_difference;
use replay::Status;
use std::alloc::{AllocError, Global};

/// What is wrong with an answer: its first line that differs, its status, or what it is where the read or the write with this
/// number fails.
#[derive(Clone, Copy, Debug)]
pub enum Fault {
    Line(u64),
    Status(Status),
    Read(u64),
    Write(u64),
}

/// The status that an output's last line tells.
pub fn status_of(output: &str) -> Status {
    let last = output.lines().last().unwrap_or("");
    match last.split(' ').next() {
        Some("refused") => Status::Refused,
        Some("broken") => Status::Broken,
        Some("usage:") => Status::Usage,
        _ => Status::Ok,
    }
}

/// What is wrong with an answer that must have this output and this status, if anything.
pub fn fault_in(answer: &Answer, wanted: &str, status: Status) -> Option<Fault> {
    match first_difference(wanted.as_bytes(), answer.output.as_slice()) {
        Some(line) => Some(Fault::Line(line)),
        None if answer.status == status => None,
        None => Some(Fault::Status(answer.status)),
    }
}

/// What is wrong with the answer of a command to an input, if anything: the status is the one that the output tells.
pub fn fault_of(
    alloc: Global,
    command: &str,
    pace: Pace,
    input: &[u8],
    wanted: &str,
) -> Result<Option<Fault>, AllocError> {
    let answer = answer_to(alloc, command, pace, input)?;
    Ok(fault_in(&answer, wanted, status_of(wanted)))
}
