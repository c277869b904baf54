//! Messages of which a journal keeps less than their digits: their lines, read in pieces.

use addr4::Memory;
use bgp_attr::Octets;
use journal_text::{Journal, Line};
use std::alloc::Global;
use std::test::Fail;

/// So many octets of ones, and zeros behind them.
fn message(alloc: Global, ones: u32, zeros: u32) -> Result<Octets, Memory> {
    let mut octets = Vec::new(alloc);
    octets.resize(ones as usize, 0xff)?;
    octets.resize(ones as usize + zeros as usize, 0)?;
    Ok(Octets::from_vec(octets))
}

/// Pushes the line of a message, and its text to what is wanted.
fn push(
    alloc: Global,
    journal: &mut Journal,
    want: &mut Vec<u8>,
    ones: u32,
    zeros: u32,
) -> Result<(), Fail> {
    let octets = message(alloc, ones, zeros)?;
    let digits = hex::encode(alloc, octets.as_slice())?;
    want.extend_from_slice(b"out 7 ")?;
    want.extend_from_slice(digits.as_bytes())?;
    want.push(b'\n')?;
    journal.push_line(Line::Out(7, octets))?;
    Ok(())
}

/// Whether a journal's text is this one, read in pieces that fit into a room.
fn reads(journal: &Journal, room: &mut [u8], want: &[u8]) -> bool {
    let mut reader = journal.reader();
    let mut rest = want;
    for _ in 0..u64::MAX {
        let count = reader.read(room);
        if count == 0 {
            break;
        }
        match rest.strip_prefix(&room[..count]) {
            Some(behind) => rest = behind,
            None => return false,
        }
    }
    rest.is_empty()
}

#[test]
fn the_marker_of_a_message_is_read_though_it_is_not_kept(rt: HostRuntime) -> Result<(), Fail> {
    let alloc = rt.alloc();
    let mut journal = Journal::new(alloc, true);
    let mut want = Vec::new(alloc);
    push(alloc, &mut journal, &mut want, 16, 7)?;
    push(alloc, &mut journal, &mut want, 15, 7)?;
    push(alloc, &mut journal, &mut want, 16, 0)?;
    push(alloc, &mut journal, &mut want, 16, 65535)?;
    push(alloc, &mut journal, &mut want, 16, 65536)?;
    push(alloc, &mut journal, &mut want, 16, 7)?;
    journal.flush()?;
    assert!(rt; reads(&journal, &mut [0; 2], &want));
    assert!(rt; reads(&journal, &mut [0; 7], &want));
    assert!(rt; reads(&journal, &mut [0; 4096], &want));
    Ok(())
}

/// Pushes the line of a message to a peer, of a marker and these octets.
fn push_marked(alloc: Global, journal: &mut Journal, peer: u32, octets: &[u8]) -> Result<(), Fail> {
    let mut all = Vec::new(alloc);
    all.resize(16, 0xff)?;
    all.extend_from_slice(octets)?;
    journal.push_line(Line::Out(peer, Octets::from_vec(all)))?;
    Ok(())
}

/// Pushes messages, one behind the other and with other lines between them.
fn push_each(alloc: Global, journal: &mut Journal) -> Result<(), Fail> {
    push_marked(alloc, journal, 1, &[0x01])?;
    push_marked(alloc, journal, 9, &[0x23, 0x45])?;
    push_marked(alloc, journal, 10, &[])?;
    journal.push_line(Line::Note(64, message(alloc, 16, 1)?))?;
    push_marked(alloc, journal, 64, &[0x67])?;
    journal.push_line(Line::Work(1))?;
    push_marked(alloc, journal, 64, &[0x89])?;
    push_marked(alloc, journal, 255, &[0xab])?;
    push_marked(alloc, journal, 256, &[0xcd])?;
    journal.push_line(Line::Out(1, message(alloc, 1, 0)?))?;
    push_marked(alloc, journal, 2, &[0xef])?;
    Ok(())
}

/// The lines of these messages.
const EACH: &[u8] = b"\
out 1 ffffffffffffffffffffffffffffffff01\n\
out 9 ffffffffffffffffffffffffffffffff2345\n\
out 10 ffffffffffffffffffffffffffffffff\n\
note 64 ffffffffffffffffffffffffffffffff00\n\
out 64 ffffffffffffffffffffffffffffffff67\n\
work 1\n\
out 64 ffffffffffffffffffffffffffffffff89\n\
out 255 ffffffffffffffffffffffffffffffffab\n\
out 256 ffffffffffffffffffffffffffffffffcd\n\
out 1 ff\n\
out 2 ffffffffffffffffffffffffffffffffef\n";

#[test]
fn what_stands_between_two_messages_is_read_though_it_is_not_kept(
    rt: HostRuntime,
) -> Result<(), Fail> {
    let alloc = rt.alloc();
    let mut journal = Journal::new(alloc, true);
    push_each(alloc, &mut journal)?;
    journal.flush()?;
    assert!(rt; reads(&journal, &mut [0; 2], EACH));
    assert!(rt; reads(&journal, &mut [0; 3], EACH));
    assert!(rt; reads(&journal, &mut [0; 7], EACH));
    Ok(())
}
