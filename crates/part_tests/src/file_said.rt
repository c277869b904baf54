//! What lines of files with words of IPv6 say, word by word.

use crate::file_lines::PLAIN;
use crate::prefixes::{address6, prefix6};
use event_text::{Event, FileEvent, Question, parse_file};
use journal_text::{Link, Task};
use rib_route::Proto;
use std::test::Fail;

/// 2001:db8::, in which documents have their addresses.
const FRONT: u64 = 0x2001_0db8_0000_0000;

/// Whether the event of IPv6's network is the one that the line's number says.
fn is_second(number: usize, event: &FileEvent) -> bool {
    let FileEvent::Second(event) = event else {
        return false;
    };
    match (number, event) {
        (1, Event::RouteAdd(at, row)) => {
            *at == prefix6(FRONT, 64)
                && row.proto == Proto::Static
                && row.gateway == Some(address6(0xfe80 << 48, 1))
                && row.metric == 7
        }
        (2, Event::Query(Question::Ask(link, at))) => {
            link.is(Link::In(1)) && *at == prefix6(FRONT + (0x8000 << 16), 33)
        }
        (3, Event::Work(task, turns)) => *task == Task::Out(3) && *turns == 4,
        (4, Event::Query(Question::Cover(addr))) => *addr == address6(0x0001_0000_0000_0000, 0xff),
        _ => false,
    }
}

/// Lines, and what they say.
const SAID: [&str; 5] = [
    "local6 2001:DB8::FE",
    "route add static 2001:db8::1/64 via fe80::1 eth0 7",
    "ask 6.in.1 2001:db8:ffff::/33",
    "work 6.out.3 4",
    "cover 1::FF",
];

fn is_said(number: usize, event: &FileEvent) -> bool {
    match event {
        FileEvent::Local6(addr) => number == 0 && *addr == address6(FRONT, 0xfe),
        event => is_second(number, event),
    }
}

#[test]
fn words_of_ipv6_say_their_event(rt: HostRuntime) -> Result<(), Fail> {
    for number in 0..SAID.len() {
        match parse_file(rt.alloc(), PLAIN, SAID[number].as_bytes())? {
            Ok(event) => assert!(rt; is_said(number, &event)),
            Err(_) => return Err(Fail::from(SAID[number])),
        }
    }
    Ok(())
}
