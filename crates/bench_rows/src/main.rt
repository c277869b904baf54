//! Measures parts of the program alone. The first word says which.
//!
//! | Words | What is measured |
//! |---|---|
//! | `messages` | reading the messages of an event file, which comes on standard input |
//! | `table N STEPS`, `map N STEPS` | the tables, with N prefixes, up to that step of the work |
//! | `queue N`, `octets N` | N changes in the queue with its readers; N announcements to a peer |
//! | `decide B N C`, `feed B N C` | C changes of B branches at N prefixes, decided or only stored |
//!
//! It prints two numbers: how much was done, and a checksum. With no word it does a little of each, a line for each row.
//! `bench/all.py` runs it and measures.
#![tactic(auto)]

mod decisions;
mod exits;
mod measured;
mod messages;
mod tables;

use crate::decisions::Work;
use crate::measured::{Measured, number_of};
use anyhow::Context;
use std::env;

fn print(rt: &HostRuntime, measured: Measured) -> anyhow::Result<()> {
    println!(rt; "{} {}", measured.count, measured.sum)?;
    Ok(())
}

fn print_tables(rt: &HostRuntime, kind: &str, count: u64, steps: u64) -> anyhow::Result<()> {
    let sum = tables::sum_in(rt.alloc(), kind, count, steps);
    let sum = sum.ok().context("no memory")?;
    print(rt, Measured { count, sum })
}

fn print_exits(rt: &HostRuntime, kind: &str, count: u64) -> anyhow::Result<()> {
    let measured = exits::measured(rt.alloc(), kind, count);
    print(rt, measured.ok().context("no memory")?)
}

fn print_decisions(rt: &HostRuntime, work: &Work) -> anyhow::Result<()> {
    let measured = decisions::run(rt.alloc(), work);
    print(rt, measured.ok().context("no memory")?)
}

/// A little of each.
fn print_each(rt: &HostRuntime) -> anyhow::Result<()> {
    print(rt, messages::measured(rt)?)?;
    for kind in ["table", "map"] {
        print_tables(rt, kind, 1000, 5)?;
    }
    for kind in ["queue", "octets"] {
        print_exits(rt, kind, 300)?;
    }
    for decides in [false, true] {
        let work = Work {
            branches: 4,
            prefixes: 50,
            changes: 400,
            decides,
        };
        print_decisions(rt, &work)?;
    }
    Ok(())
}

/// What the words after the first say of decisions.
fn work_of(rt: &HostRuntime, decides: bool) -> anyhow::Result<Work> {
    Ok(Work {
        branches: u8::try_from(number_of(rt, 2)?)?,
        prefixes: u32::try_from(number_of(rt, 3)?)?,
        changes: number_of(rt, 4)?,
        decides,
    })
}

fn print_kind(rt: &HostRuntime, kind: &str) -> anyhow::Result<()> {
    match kind {
        "messages" => print(rt, messages::measured(rt)?),
        "queue" | "octets" => print_exits(rt, kind, number_of(rt, 2)?),
        "decide" => print_decisions(rt, &work_of(rt, true)?),
        "feed" => print_decisions(rt, &work_of(rt, false)?),
        _ => print_tables(rt, kind, number_of(rt, 2)?, number_of(rt, 3)?),
    }
}

fn main(rt: HostRuntime) -> anyhow::Result<()> {
    match env::args(&rt)?.nth(1) {
        None => print_each(&rt),
        Some(kind) => print_kind(&rt, kind.as_str()),
    }
}
