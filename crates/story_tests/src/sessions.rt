//! A peer that comes and goes as often as it may, and then once more: a story too long for a file.
//!
//! What a program of another hand prints for its 131,073 lines was compared with the output that is made here.

use crate::answer::Pace;
use crate::fault::{Fault, fault_of};
use std::alloc::{AllocError, Global};

/// The most sessions that a peer may have.
const MOST: usize = 65_535;

/// The first lines.
const DECLARED: &str = "local 65000 192.0.2.254 192.0.2.254\npeer 1 65001 192.0.2.1 192.0.2.1\n";

/// What they give.
const BEGUN: &str = "\
b org.connected\n\
b org.static\n\
b org.ospf\n\
b org.rip\n\
b low\n\
b dyn\n\
b int\n\
b red\n\
b best\n\
i read.rib best\n\
b ebgp\n\
b ibgp\n\
b ext\n\
b fib\n\
b in.1\n\
b filt.1\n\
b res.1\n";

/// What a session gives, with its number in the place of `#`.
const SESSION: &str = "\
i read.1.# best\n\
b outf.1.#\n\
b adv.1.#\n\
e read.1.#\n\
e outf.1.#\n\
e adv.1.#\n";

/// The events: all sessions that there may be, and one more.
fn events_of_sessions(alloc: Global) -> Result<String, AllocError> {
    let sessions = "up 1\ndown 1\n".repeat(alloc, MOST)?;
    format!(in alloc; "{DECLARED}{sessions}up 1\n")
}

/// What the session with this number gives.
fn push_session(alloc: Global, number: usize, output: &mut String) -> Result<(), AllocError> {
    let number = format!(in alloc; "{number}")?;
    let session = SESSION.replace(alloc, '#', number.as_str())?;
    output.push_str(session.as_str())
}

/// Their output: of each session, links that begin and end; the one more is refused.
fn output_of_sessions(alloc: Global) -> Result<String, AllocError> {
    let mut output = String::from_str(alloc, BEGUN)?;
    for number in 1..=MOST {
        push_session(alloc, number, &mut output)?;
    }
    output.push_str("refused 131073 E6\n")?;
    Ok(output)
}

/// What is wrong with the answers to the sessions of a peer, if anything, up to the last that it may have.
pub fn fault_of_sessions(alloc: Global) -> Result<Option<Fault>, AllocError> {
    let events = events_of_sessions(alloc)?;
    let wanted = output_of_sessions(alloc)?;
    let run = fault_of(
        alloc,
        "replay run",
        Pace::Whole,
        events.as_bytes(),
        wanted.as_str(),
    )?;
    let check = fault_of(
        alloc,
        "replay check",
        Pace::Whole,
        wanted.as_bytes(),
        "lawful\n",
    )?;
    Ok(run.or(check))
}
