//! Tries the reading and writing of messages: rows, each with the answer that it wants.
//!
//! A row is `FLAGS OCTETS = ANSWER`. Flags: `x` the message comes from an external peer (`i`: an internal one), `4` AS numbers
//! of four octets, `r` errors handled in the revised manner, `c` the reader is a route reflector, `6` IPv6 is spoken, too. Where
//! several stand there, parted by commas, the answer is the same under each. The answer says in words what the octets are read as. With `w` or `W`
//! the answer is octets: those that are sent of what was read (`W`: with AS numbers of four octets), an UPDATE of one prefix of
//! either family, or the NOTIFICATION that answers a fault. Lines that begin with `#` and empty lines are no rows.
//!
//! Each row that gets another answer is printed, and then how many rows there were and how many were wrong.

ghost use Rattle.bgp_wire.specs.Readable.{IsReadableMessage};

use crate::octets::octets_of;
use crate::texts::push_message;
use crate::written::push_written;
use addr4::Memory;
use anyhow::Context;
use bgp_attr::Profile;
use bgp_wire::{Message, read_message};
use std::alloc::Global;

/// What was read, in words or as what is sent.
fn push_told(
    out: &mut Vec<u8>,
    flags: &str,
    profile: Profile,
    external: bool,
    message: &Message,
) -> Result<(), Memory>
    requires { IsReadableMessage profile external message.now }
{
    if is_sent(flags) {
        push_written(out, profile, external, message, flags.contains('W'))
    } else {
        push_message(out, message)
    }
}

/// The answer to octets.
fn push_answer(out: &mut Vec<u8>, flags: &str, octets: &[u8]) -> Result<(), Memory> {
    let profile = Profile {
        as4: flags.contains('4'),
        revised: flags.contains('r'),
        reflect: flags.contains('c'),
        v6: flags.contains('6'),
        second: false,
    };
    let external = flags.contains('x');
    let message = read_message(*out.allocator(), profile, octets, external)?;
    push_told(out, flags, profile, external, &message)
}

/// Whether the answer is what is sent.
fn is_sent(flags: &str) -> bool {
    flags.contains('w') || flags.contains('W')
}

fn wanted_answer(alloc: Global, flags: &str, wanted: &str) -> anyhow::Result<Vec<u8>> {
    if is_sent(flags) {
        octets_of(alloc, wanted)
    } else {
        Ok(Vec::from_slice(alloc, wanted.as_bytes())?)
    }
}

/// Whether octets get the answer that is wanted.
fn is_answered(alloc: Global, flags: &str, octets: &[u8], wanted: &[u8]) -> Result<bool, Memory> {
    let mut out = Vec::new(alloc);
    push_answer(&mut out, flags, octets)?;
    Ok(out.as_slice() == wanted)
}

/// The same of octets and an answer in words.
fn is_right(alloc: Global, flags: &str, words: &str, wanted: &str) -> anyhow::Result<bool> {
    let octets = octets_of(alloc, words)?;
    let wanted = wanted_answer(alloc, flags, wanted)?;
    let answered = is_answered(alloc, flags, octets.as_slice(), wanted.as_slice());
    answered.ok().context("no memory")
}

/// The same under each of these flags.
fn all_are_right(alloc: Global, list: &str, words: &str, wanted: &str) -> anyhow::Result<bool> {
    for flags in list.split(',') {
        if !is_right(alloc, flags, words, wanted)? {
            return Ok(false);
        }
    }
    Ok(true)
}

/// Whether a row gets the answer that it wants.
fn row_is_right(alloc: Global, row: &str) -> anyhow::Result<bool> {
    let (input, wanted) = row.split_once(" = ").context("no answer")?;
    let (list, words) = input.split_once(' ').context("no octets")?;
    all_are_right(alloc, list, words, wanted)
}

/// Prints each row of a text that gets another answer; how many rows there are, and how many are wrong.
fn judge(rt: &HostRuntime, text: &str) -> anyhow::Result<[u64; 2]> {
    let mut rows = 0u64;
    let mut wrong = 0u64;
    for row in text.lines() {
        if row.is_empty() || row.starts_with('#') {
            continue;
        }
        rows = rows.wrapping_add(1);
        if !row_is_right(rt.alloc(), row)? {
            wrong = wrong.wrapping_add(1);
            println!(rt; "{row}")?;
        }
    }
    Ok([rows, wrong])
}

pub(crate) fn print_judged(rt: &HostRuntime, text: &str) -> anyhow::Result<()> {
    let [rows, wrong] = judge(rt, text)?;
    println!(rt; "{rows} rows, {wrong} wrong")?;
    Ok(())
}
