//! The command over captures: the worked row, and reads and writes that fail.

use capture_run::{Ending, convert};
use edge_io::{MemorySink, MemorySource};
use std::alloc::{AllocError, Global};
use std::test::Fail;

/// An established peer, and the UPDATE that it sends.
const ROW: &str = "\
000000000010000000000014fde9fde800000001c0000201c00002fe00050006\
00000000001000010000003cfde9fde800000001c0000201c00002feffffffffffffffffffffffffffffffff002c0200000012400101004002040201fde9400304c0000201100a01";

const LINES: &str = "\
local 65000 192.0.2.254 192.0.2.254\n\
peer 1 65001 192.0.2.1 192.0.2.1\n\
up 1\n";

const MESSAGE: &str =
    "bgp 1 ffffffffffffffffffffffffffffffff002c0200000012400101004002040201fde9400304c0000201100a01\n";

/// A run over the first octets of the row, where the read and the write with these numbers fail: how it ends, and what was written.
fn run(
    alloc: Global,
    octets: usize,
    read: u64,
    write: u64,
) -> Result<Option<(Ending, Vec<u8>)>, AllocError> {
    let Ok(mut file) = hex::decode(alloc, ROW) else {
        return Ok(None);
    };
    file.truncate(octets);
    let mut source = MemorySource::new(file, vec![in alloc; read]?);
    let mut sink = MemorySink::new(Vec::new(alloc), vec![in alloc; write]?);
    let ending = convert(alloc, false, &mut source, &mut sink);
    let written = Vec::from_slice(alloc, sink.bytes())?;
    Ok(Some((ending, written)))
}

#[test]
fn a_row_is_converted_up_to_its_end_or_a_failure(rt: HostRuntime) -> Result<(), Fail> {
    let alloc = rt.alloc();
    for (octets, read, write, ending, first, second, third) in [
        (104, 0, 0, Ending::Done, LINES, MESSAGE, "idle\n"),
        (103, 0, 0, Ending::Refused, LINES, "refused 2 M1\n", ""),
        (0, 0, 0, Ending::Done, "", "", ""),
        (104, 1, 0, Ending::ReadFault, "", "", ""),
        (104, 2, 0, Ending::ReadFault, LINES, MESSAGE, ""),
        (104, 0, 1, Ending::WriteFault, "", "", ""),
        (104, 0, 2, Ending::WriteFault, LINES, MESSAGE, ""),
    ] {
        let mut want = Vec::from_slice(alloc, first.as_bytes())?;
        want.extend_from_slice(second.as_bytes())?;
        want.extend_from_slice(third.as_bytes())?;
        match run(alloc, octets, read, write)? {
            Some((end, written)) => {
                assert!(rt; end == ending);
                assert!(rt; written == want);
            }
            None => assert!(rt; false),
        }
    }
    Ok(())
}
