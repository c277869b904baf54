//! The adapters over readers and writers that fail.

use edge_io::{Reading, Sink, Source, Writing};
use std::io::{self, ErrorKind, Read};
use std::test::Fail;

/// A reader that fails at every second call.
#[derive(Drop)]
struct Faulty {
    fails: bool,
}

impl Read for Faulty {
    fn read(&mut self, _buf: &mut [u8]) -> io::Result<usize> {
        self.fails = !self.fails;
        if self.fails {
            Ok(0)
        } else {
            Err(ErrorKind::Other.into())
        }
    }
}

/// What three reads of two bytes give.
fn given<R: Read + Drop>(from: R) -> [Option<usize>; 3] {
    let mut source = Reading::new(from);
    let mut buf = [0u8; 2];
    [
        source.read(&mut buf).ok(),
        source.read(&mut buf).ok(),
        source.read(&mut buf).ok(),
    ]
}

/// How much of three pieces, the last one empty, has room.
fn taken(room: &mut [u8]) -> [Option<usize>; 3] {
    let mut sink = Writing::new(room);
    [
        sink.write(b"abc").ok(),
        sink.write(b"c").ok(),
        sink.write(b"").ok(),
    ]
}

#[test]
fn what_a_stream_cannot_give_or_take_is_a_fault(rt: HostRuntime) -> Result<(), Fail> {
    let mut room = [0u8; 2];
    assert!(rt; given(b"abc".as_slice()) == [Some(2), Some(1), Some(0)]);
    assert!(rt; given(Faulty { fails: false }) == [Some(0), None, Some(0)]);
    assert!(rt; taken(&mut room) == [Some(2), None, Some(0)]);
    Ok(())
}
