//! The replay program: the words of its command line, standard input and standard output.
//!
//! All that it does is the call of [`replay`] on standard input and output; here is the exit status of each answer. Nothing is
//! written to standard error.
#![tactic(auto)]

use edge_io::{Reading, Writing};
use replay::{Status, replay};
use std::env;
use std::io::ErrorKind;
use std::process::ExitCode;

/// The exit status of an answer.
fn code(status: Status) -> u8 {
    match status {
        Status::Ok => 0,
        Status::Broken => 1,
        Status::Usage => 2,
        Status::Refused => 3,
        Status::ReadFault => 4,
        Status::WriteFault => 5,
        Status::Memory => 6,
    }
}

fn main(rt: HostRuntime) -> ExitCode {
    let alloc = rt.alloc();
    let mut words = Vec::new(alloc);
    match env::args(&rt) {
        Ok(args) => {
            for word in args {
                if words.push(word).is_err() {
                    return ExitCode::from(code(Status::Memory));
                }
            }
        }
        Err(error) if error.kind() == ErrorKind::OutOfMemory => {
            return ExitCode::from(code(Status::Memory));
        }
        // A word that is no text is no command's.
        Err(_) => {}
    }
    let mut source = Reading::new(rt.stdin());
    let mut sink = Writing::new(rt.stdout());
    let status = replay(alloc, words.as_slice(), &mut source, &mut sink);
    ExitCode::from(code(status))
}
