//! Runs the program on stories: files, each with the output that it must have. The folder that the first word names has a folder of
//! each topic, and nothing else; the stories stand in these.
//!
//! `NAME.events` is an event file, for `replay run`; `NAME.journal` is a journal, for `replay check`; `NAME.commands` has whole
//! command lines, with nothing to read. `NAME.out` is what must be written, and the status is told by its last line. `NAME.mrt` is a
//! capture, for `replay mrt`, which must give `NAME.events`, or where it is refused `NAME.out`. The outputs come from a program of
//! another hand, never from this one.
//!
//! An event file is read in one piece, and again byte by byte; with `--quiet` it must give the same lines without those
//! of the journal; and its whole output, judged by `check`, must be lawful. Two of them are read line by line, too, while each
//! read fails once, and each write: so what a line gives is written before more is read. The sessions of a peer, as many as it
//! may have, and lines that are refused before they end are stories that no file holds.
//!
//! It prints the name of each file, with its topic's in front, whose answers are right. Of another it says which line differs
//! first, on standard error, and ends with status 1. The examples in the documents are some of these files.
//!
//! Behind the stories it tries what else has expected answers of another hand: messages, whose rows with the answers that they
//! want come on standard input, and the texts of generated events, which `stdout` has.
#![tactic(auto)]

mod answer;
mod failing;
mod fault;
mod generated;
mod lines;
mod messages;
mod octets;
mod sessions;
mod story;
mod texts;
mod written;

use crate::failing::fault_of_long_lines;
use crate::fault::Fault;
use crate::sessions::fault_of_sessions;
use crate::story::{fault_of_story, kind_of};
use anyhow::Context;
use std::{env, fs, io};

/// The names of what is in a folder, in order.
fn names_in(rt: &HostRuntime, folder: &str) -> io::Result<Vec<String>> {
    let alloc = rt.alloc();
    let mut names = Vec::new(alloc);
    for entry in fs::read_dir(rt, folder)? {
        names.push(String::from_str(alloc, entry?.file_name())?)?;
    }
    names.sort()?;
    Ok(names)
}

/// Prints the name of what is right, or what is wrong with it; how many things are wrong.
fn tell(rt: &HostRuntime, name: &str, fault: Option<Fault>) -> io::Result<u64> {
    match fault {
        None => {
            println!(rt; "{name}")?;
            Ok(0)
        }
        Some(fault) => {
            eprintln!(rt; "{name}: {fault:?}")?;
            Ok(1)
        }
    }
}

/// Tells of a file, by its topic and its name; how many things are wrong.
fn tell_file(rt: &HostRuntime, topic: &str, file: &str, fault: Option<Fault>) -> io::Result<u64> {
    let name = format!(in rt.alloc(); "{topic}/{file}")?;
    tell(rt, name.as_str(), fault)
}

/// Tells of each story in a topic's folder; how many are wrong.
fn tell_stories(rt: &HostRuntime, folder: &str, topic: &str, files: &[String]) -> io::Result<u64> {
    let mut wrong = 0u64;
    for file in files {
        if let Some(kind) = kind_of(file.as_str()) {
            let fault = fault_of_story(rt, folder, file.as_str(), kind)?;
            wrong = wrong.wrapping_add(tell_file(rt, topic, file.as_str(), fault)?);
        }
    }
    Ok(wrong)
}

/// Tells of the stories of a topic; how many are wrong.
fn tell_topic(rt: &HostRuntime, stories: &str, topic: &str) -> io::Result<u64> {
    let folder = format!(in rt.alloc(); "{stories}/{topic}")?;
    let files = names_in(rt, folder.as_str())?;
    tell_stories(rt, folder.as_str(), topic, files.as_slice())
}

/// Tells of the stories of each topic; how many are wrong.
fn tell_topics(rt: &HostRuntime, stories: &str, topics: &[String]) -> io::Result<u64> {
    let mut wrong = 0u64;
    for topic in topics {
        wrong = wrong.wrapping_add(tell_topic(rt, stories, topic.as_str())?);
    }
    Ok(wrong)
}

/// Tells of the stories that no file holds; how many are wrong.
fn tell_others(rt: &HostRuntime) -> io::Result<u64> {
    let lines = tell(rt, "lines too long", fault_of_long_lines(rt.alloc())?)?;
    let sessions = tell(rt, "65535 sessions", fault_of_sessions(rt.alloc())?)?;
    Ok(lines.wrapping_add(sessions))
}

/// Tells of the stories in a folder of topics, and of the others; how many are wrong.
fn tell_all(rt: &HostRuntime, stories: &str) -> io::Result<u64> {
    let topics = names_in(rt, stories)?;
    let wrong = tell_topics(rt, stories, topics.as_slice())?;
    Ok(wrong.wrapping_add(tell_others(rt)?))
}

/// Tells of all stories; an error where one is wrong.
fn try_stories(rt: &HostRuntime) -> anyhow::Result<()> {
    let folder = env::args(rt)?.nth(1).context("no folder")?;
    match tell_all(rt, folder.as_str())? {
        0 => Ok(()),
        _ => Err(anyhow::Error::from(io::Error::from(io::ErrorKind::InvalidData))),
    }
}

fn main(rt: HostRuntime) -> anyhow::Result<()> {
    try_stories(&rt)?;
    let text = io::read_to_string(rt.alloc(), rt.reader())?;
    messages::print_judged(&rt, text.as_str())?;
    generated::print_texts(&rt)
}
