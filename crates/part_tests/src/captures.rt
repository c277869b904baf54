//! Records of a capture: the worked rows, a malformed record, and a source that gives an octet at a time.

ghost use Rattle.std.specs.Prelude.{Some};

use edge_io::{Failed, MemorySource, Source};
use mrt_reader::{Code, Next, Reader, Stop};
use std::alloc::Global;
use std::test::Fail;

/// A source that gives an octet at a time.
#[derive(Drop)]
struct Slow {
    inner: MemorySource,
}

impl Source for Slow {
    ghost left = { λ s. Some s.inner.left };

    ghost faults = { λ s. s.inner.faults };

    fn read(&mut self, buf: &mut [u8]) -> Result<usize, Failed> {
        if buf.is_empty() {
            return Ok(0);
        }
        self.inner.read(&mut buf[..1])
    }
}

/// The text that records give, whose octets these hex digits spell, and how it ends.
fn converted(alloc: Global, records: &str, cut: usize) -> Result<(Vec<u8>, Next), Stop> {
    let mut digits = Vec::new(alloc);
    for part in records.split(' ') {
        digits.extend_from_slice(part.as_bytes())?;
    }
    let mut file = match hex::decode(alloc, digits) {
        Ok(file) => file,
        Err(_) => return Err(Stop::ReadFault),
    };
    file.truncate(file.len().saturating_sub(cut));
    let mut source = Slow {
        inner: MemorySource::new(file, Vec::new(alloc)),
    };
    let mut reader = Reader::new(alloc, false);
    let mut text = Vec::new(alloc);
    let mut lines = Vec::new(alloc);
    for _ in 0..100 {
        let next = reader.next(&mut source, &mut lines)?;
        text.extend_from_slice(lines.as_slice())?;
        if next != Next::Record {
            return Ok((text, next));
        }
    }
    Err(Stop::ReadFault)
}

/// The row of a session: an established peer, and the UPDATE that it sends.
const ROW: &str = "\
00000000 0010 0000 00000014 fde9fde800000001c0000201c00002fe 00050006 \
00000000 0010 0001 0000003c fde9fde800000001c0000201c00002fe ffffffffffffffffffffffffffffffff002c0200000012400101004002040201fde9400304c0000201100a01";

const LINES: &str = "\
local 65000 192.0.2.254 192.0.2.254\n\
peer 1 65001 192.0.2.1 192.0.2.1\n\
up 1\n";

#[test]
fn records_give_the_lines_of_an_event_file(rt: HostRuntime) -> Result<(), Fail> {
    let alloc = rt.alloc();
    let message =
        "bgp 1 ffffffffffffffffffffffffffffffff002c0200000012400101004002040201fde9400304c0000201100a01\nidle\n";
    for (records, cut, lines, rest, next) in [
        (ROW, 0, LINES, message, Next::End),
        (ROW, 1, LINES, "refused 2 M1\n", Next::Refused(2, Code::M1)),
        (ROW, 65, LINES, "refused 2 M1\n", Next::Refused(2, Code::M1)),
        (ROW, 72, LINES, "idle\n", Next::End),
        (ROW, 73, "", "refused 1 M1\n", Next::Refused(1, Code::M1)),
        ("", 0, "", "", Next::End),
        (
            "00000000 0011 0001 00000003 000000",
            0,
            "",
            "refused 1 M2\n",
            Next::Refused(1, Code::M2),
        ),
        (
            "00000000 0010 0001 0000000a fde9fde8000000020000",
            0,
            "",
            "",
            Next::End,
        ),
    ] {
        let mut want = Vec::from_slice(alloc, lines.as_bytes())?;
        want.extend_from_slice(rest.as_bytes())?;
        match converted(alloc, records, cut) {
            Ok((text, end)) => {
                assert!(rt; text == want);
                assert!(rt; end == next);
            }
            Err(_) => assert!(rt; false),
        }
    }
    Ok(())
}
