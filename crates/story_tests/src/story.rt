//! Tries one story: a file in a topic's folder, with the output that stands beside it.

use crate::answer::{Answer, Pace, answer_to};
use crate::failing::{fault_of_reads, fault_of_writes};
use crate::fault::{Fault, fault_of, status_of};
use crate::lines::{first_difference, without_journal};
use std::alloc::{AllocError, Global};
use std::{fs, io};

const RUN: &str = "replay run";

/// What is wrong with the answer to an event file that is run quietly, if anything.
fn fault_of_quiet(alloc: Global, events: &str, wanted: &str) -> Result<Option<Fault>, AllocError> {
    let rest = without_journal(alloc, wanted)?;
    fault_of(
        alloc,
        "replay run --quiet",
        Pace::Whole,
        events.as_bytes(),
        rest.as_str(),
    )
}

/// What is wrong with the verdict on a journal, if anything.
fn fault_of_check(alloc: Global, journal: &str, wanted: &str) -> Result<Option<Fault>, AllocError> {
    fault_of(
        alloc,
        "replay check",
        Pace::Bytes,
        journal.as_bytes(),
        wanted,
    )
}

/// What is wrong with the answers to an event file, if anything.
fn fault_of_run(alloc: Global, events: &str, wanted: &str) -> Result<Option<Fault>, AllocError> {
    let whole = fault_of(alloc, RUN, Pace::Whole, events.as_bytes(), wanted)?;
    let bytes = fault_of(alloc, RUN, Pace::Bytes, events.as_bytes(), wanted)?;
    let quiet = fault_of_quiet(alloc, events, wanted)?;
    let check = fault_of_check(alloc, wanted, "lawful\n")?;
    Ok(whole.or(bytes).or(quiet).or(check))
}

/// The same of an event file that is also run with a read or a write that fails, each call once.
fn fault_of_failing(
    alloc: Global,
    events: &str,
    wanted: &str,
) -> Result<Option<Fault>, AllocError> {
    let run = fault_of_run(alloc, events, wanted)?;
    let reads = fault_of_reads(alloc, events)?;
    let writes = fault_of_writes(alloc, events, wanted)?;
    Ok(run.or(reads).or(writes))
}

/// Puts an answer behind the outputs of earlier ones; whether its status is the one that it tells.
fn push_answer(answer: &Answer, output: &mut String) -> Result<bool, AllocError> {
    match str::from_utf8(answer.output.as_slice()) {
        Ok(text) => {
            output.push_str(text)?;
            Ok(answer.status == status_of(text))
        }
        Err(_) => Ok(false),
    }
}

/// Collects the answers to command lines. Nothing is there to be read. What is wrong with a status, if anything.
fn answer_commands(
    alloc: Global,
    commands: &str,
    output: &mut String,
) -> Result<Option<Fault>, AllocError> {
    for command in commands.lines() {
        let answer = answer_to(alloc, command, Pace::Whole, b"")?;
        if !push_answer(&answer, output)? {
            return Ok(Some(Fault::Status(answer.status)));
        }
    }
    Ok(None)
}

/// What is wrong with the answers to command lines, if anything.
fn fault_of_commands(
    alloc: Global,
    commands: &str,
    wanted: &str,
) -> Result<Option<Fault>, AllocError> {
    let mut output = String::new(alloc);
    let fault = answer_commands(alloc, commands, &mut output)?;
    match first_difference(wanted.as_bytes(), output.as_bytes()) {
        Some(line) => Ok(Some(Fault::Line(line))),
        None => Ok(fault),
    }
}

/// What is done with the text of a story.
#[derive(Clone, Copy)]
pub enum Kind {
    Run,
    /// Also with reads and writes that fail.
    Failing,
    Check,
    Commands,
    /// It has octets, not a text.
    Capture,
}

/// Whether a story is one in which each read and each write fails once.
fn is_to_fail(file: &str) -> bool {
    file == "to_the_forwarding_table.events" || file == "own_routes_go_out.events"
}

/// What is done with a file; None where it is no story.
pub fn kind_of(file: &str) -> Option<Kind> {
    if file.ends_with(".events") {
        return Some(if is_to_fail(file) {
            Kind::Failing
        } else {
            Kind::Run
        });
    }
    if file.ends_with(".journal") {
        return Some(Kind::Check);
    }
    if file.ends_with(".commands") {
        return Some(Kind::Commands);
    }
    if file.ends_with(".mrt") {
        return Some(Kind::Capture);
    }
    None
}

/// What is wrong with a story, if anything.
fn fault_of_kind(
    alloc: Global,
    kind: Kind,
    text: &str,
    wanted: &str,
) -> Result<Option<Fault>, AllocError> {
    match kind {
        Kind::Run => fault_of_run(alloc, text, wanted),
        Kind::Failing => fault_of_failing(alloc, text, wanted),
        Kind::Commands => fault_of_commands(alloc, text, wanted),
        Kind::Check => fault_of_check(alloc, text, wanted),
        Kind::Capture => Ok(None),
    }
}

/// What is wrong with what a capture gives, if anything: `NAME.events`, the event file that is another story, or where the capture
/// is refused `NAME.out`.
fn fault_of_capture(rt: &HostRuntime, folder: &str, file: &str) -> io::Result<Option<Fault>> {
    let alloc = rt.alloc();
    let path = format!(in alloc; "{folder}/{file}")?;
    let capture = fs::read(rt, path.as_str())?;
    let name = file.split('.').next().unwrap_or("");
    let events = format!(in alloc; "{folder}/{name}.events")?;
    let wanted = match fs::read_to_string(rt, events.as_str()) {
        Ok(text) => text,
        Err(_) => wanted_of(rt, folder, file)?,
    };
    let command = mrt_for(wanted.as_str());
    let whole = fault_of(
        alloc,
        command,
        Pace::Whole,
        capture.as_slice(),
        wanted.as_str(),
    )?;
    let bytes = fault_of(
        alloc,
        command,
        Pace::Bytes,
        capture.as_slice(),
        wanted.as_str(),
    )?;
    Ok(whole.or(bytes))
}

/// The command that gives an event file: AS numbers have four octets where its first line says so.
fn mrt_for(events: &str) -> &'static str {
    if events.starts_with("as4") {
        "replay mrt --as4"
    } else {
        "replay mrt"
    }
}

/// The text of a file in a folder.
fn text_of(rt: &HostRuntime, folder: &str, file: &str) -> io::Result<String> {
    let path = format!(in rt.alloc(); "{folder}/{file}")?;
    fs::read_to_string(rt, path.as_str())
}

/// The output that a story must have.
fn wanted_of(rt: &HostRuntime, folder: &str, file: &str) -> io::Result<String> {
    let name = file.split('.').next().unwrap_or("");
    let path = format!(in rt.alloc(); "{folder}/{name}.out")?;
    fs::read_to_string(rt, path.as_str())
}

/// What is wrong with the story of a file, if anything.
pub(crate) fn fault_of_story(
    rt: &HostRuntime,
    folder: &str,
    file: &str,
    kind: Kind,
) -> io::Result<Option<Fault>> {
    if let Kind::Capture = kind {
        return fault_of_capture(rt, folder, file);
    }
    let wanted = wanted_of(rt, folder, file)?;
    let text = text_of(rt, folder, file)?;
    let fault = fault_of_kind(rt.alloc(), kind, text.as_str(), wanted.as_str())?;
    Ok(fault)
}
