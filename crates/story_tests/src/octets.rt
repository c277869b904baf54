//! Octets in words.

use anyhow::Context;
use std::alloc::Global;

/// The octets of hexadecimal digits, so many times.
fn push_times(out: &mut Vec<u8>, digits: &str, count: u16) -> anyhow::Result<()> {
    let octets = hex::decode(*out.allocator(), digits)
        .ok()
        .context("no hexadecimal digits")?;
    for _ in 0..count {
        out.extend_from_slice(octets.as_slice())?;
    }
    Ok(())
}

fn push_word(out: &mut Vec<u8>, word: &str) -> anyhow::Result<()> {
    if word == "F" {
        return push_times(out, "ff", 16);
    }
    match word.split_once('*') {
        Some((digits, count)) => push_times(
            out,
            digits,
            count.parse::<u16>().ok().context("no number")?,
        ),
        None => push_times(out, word, 1),
    }
}

/// Octets in words: `F` is a marker of 16 ones, `HEX*N` are these octets N times, `-` is none.
pub(crate) fn octets_of(alloc: Global, words: &str) -> anyhow::Result<Vec<u8>> {
    let mut out = Vec::new(alloc);
    for word in words.split(' ') {
        if word != "-" {
            push_word(&mut out, word)?;
        }
    }
    Ok(out)
}
