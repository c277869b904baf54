//! Prints generated texts, small ones whole, and of a large one its size and a checksum.
//!
//! What must be printed comes from a program of another hand. The texts have events of each kind.

use anyhow::Context;
use edge_io::Source;
use event_gen::GeneratedSource;
use std::alloc::Global;
use std::io::Write;

/// Prints the text of a source, some bytes at a time.
fn print_text<W: Write>(out: &mut W, source: &mut GeneratedSource) -> anyhow::Result<()> {
    let mut buf = [0u8; 1000];
    for _ in 0..u64::MAX {
        let count = source.read(&mut buf).ok().context("no memory")?;
        if count == 0 {
            break;
        }
        out.write_all(&buf[..count])?;
    }
    Ok(())
}

/// The size of a text and its checksum: each byte is added to 31 times what came before.
fn sum_of(source: &mut GeneratedSource) -> anyhow::Result<(u64, u64)> {
    let mut buf = [0u8; 1000];
    let mut size = 0u64;
    let mut sum = 0u64;
    for _ in 0..u64::MAX {
        let count = source.read(&mut buf).ok().context("no memory")?;
        if count == 0 {
            break;
        }
        for byte in &buf[..count] {
            sum = sum.wrapping_mul(31).wrapping_add(u64::from(*byte));
        }
        size = size.wrapping_add(count as u64);
    }
    Ok((size, sum))
}

/// Prints the text of a seed and a count.
fn print_seed(rt: &HostRuntime, seed: u64, count: u32) -> anyhow::Result<()> {
    let mut source = GeneratedSource::new(rt.alloc(), seed, count);
    print_text(&mut rt.stdout(), &mut source)
}

/// The size and the checksum of the text of a seed and a count.
fn sum_of_seed(alloc: Global, seed: u64, count: u32) -> anyhow::Result<(u64, u64)> {
    let mut source = GeneratedSource::new(alloc, seed, count);
    sum_of(&mut source)
}

/// The second seed's text has events of each kind.
pub(crate) fn print_texts(rt: &HostRuntime) -> anyhow::Result<()> {
    print_seed(rt, 7, 20)?;
    print_seed(rt, 140, 39)?;
    print_seed(rt, u64::MAX, 3)?;
    print_seed(rt, 1, 0)?;
    let (size, sum) = sum_of_seed(rt.alloc(), 7, 60_000)?;
    println!(rt; "{size} {sum}")?;
    Ok(())
}
