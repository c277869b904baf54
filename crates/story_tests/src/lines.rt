//! Outputs, line by line.

use std::alloc::{AllocError, Global};

/// The number of the first line that differs; None where the outputs are equal.
pub fn first_difference(wanted: &[u8], printed: &[u8]) -> Option<u64> {
    if wanted == printed {
        return None;
    }
    let mut number = 1u64;
    let mut others = printed.iter();
    for byte in wanted {
        if others.next() != Some(byte) {
            break;
        }
        number = number.wrapping_add(u64::from(*byte == b'\n'));
    }
    Some(number)
}

/// Whether a line is one of a journal: its first word is one of these.
fn is_journal(line: &str) -> bool {
    let word = line.split(' ').next().unwrap_or("");
    word.len() == 1 && "bi+-=?we".contains(word)
}

/// An output without the lines of its journal.
pub fn without_journal(alloc: Global, output: &str) -> Result<String, AllocError> {
    let mut rest = String::new(alloc);
    for line in output.split_inclusive('\n') {
        if !is_journal(line) {
            rest.push_str(line)?;
        }
    }
    Ok(rest)
}
