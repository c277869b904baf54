//! Events of files with words of IPv6 that stand where they may, and those that are refused, by their codes.

use crate::admitted::{code_named, step};
use addr4::Memory;
use event_text::{Declared, FileEvent, admit_file, parse_file};
use journal_text::Code;
use std::alloc::Global;
use std::test::Fail;

/// Does an event, unless it is refused.
fn step_file(event: &FileEvent, declared: &mut Declared) -> Result<Option<Code>, Memory> {
    if let Some(code) = admit_file(event, declared) {
        return Ok(Some(code));
    }
    match event {
        FileEvent::First(event) => step(event, declared),
        FileEvent::Local6(_) => {
            declared.set_ipv6();
            Ok(None)
        }
        FileEvent::Second(_) => Ok(None),
    }
}

/// Reads an event, and does it unless it is refused.
fn refused(alloc: Global, line: &[u8], declared: &mut Declared) -> Result<Option<Code>, Memory> {
    match parse_file(alloc, declared.profile(), line)? {
        Ok(event) => step_file(&event, declared),
        Err(code) => Ok(Some(code)),
    }
}

/// Events before and behind `local6`, each behind its code; `-` where it is accepted. Without `local6` an IPv6 word is refused as
/// such before anything is looked up, and only behind `local`.
const EVENTS: &str = "\
E4 local6 2001:db8::fe\n\
E2 local6 ::1\n\
E4 filter6 in 1 any accept\n\
E4 lost6 static\n\
E4 redist6 static on\n\
E4 route add connected 2001:db8::/64 direct eth0 1\n\
E4 route del static 2001:db8::/64\n\
E4 cover 2001:db8::9\n\
E4 settled 2001:db8::/32\n\
E4 work 6.fin.1 1\n\
E4 ask 6.best 2001:db8::/32\n\
E4 show 6.best\n\
- local 65000 192.0.2.254 192.0.2.254\n\
E2 filter6 in 1 accept\n\
E9 filter6 in 1 any accept\n\
E9 filter6 out 1\n\
E9 lost6 static\n\
E9 redist6 static on\n\
E9 route add connected 2001:db8::/64 direct eth0 1\n\
E9 route del static 2001:db8::/64\n\
E9 cover 2001:db8::9\n\
E9 settled 2001:db8::/32\n\
E9 work 6.fin.1 1\n\
E9 work 6.rd.rib 1\n\
E9 ask 6.best 2001:db8::/32\n\
E9 show 6.best\n\
E9 show 6.in.1\n\
E5 show in.1\n\
E2 ask in.1 2001:db8::/32\n\
E2 local6 ff02::1\n\
- local6 2001:db8::fe\n\
E7 local6 2001:db8::fe\n\
E7 local6 2001:db8::fd\n\
E2 local6 ::\n\
E7 as4\n\
E7 revised\n\
E7 reflect\n\
E3 local 65000 192.0.2.254 192.0.2.254\n\
E5 filter6 in 1 any accept\n\
E5 filter6 out 1\n\
E5 work 6.fin.1 1\n\
E5 work 6.out.1 1\n\
E5 ask 6.in.1 2001:db8::/32\n\
E5 show 6.adv.1.1\n\
- lost6 static\n\
- redist6 static on\n\
- route add connected 2001:db8::/64 direct eth0 1\n\
- route del static 2001:db8::/64\n\
- cover 2001:db8::9\n\
- settled 2001:db8::/32\n\
- work 6.rd.rib 1\n\
- work 6.red 1\n\
- work 6.ext 1\n\
- work 6.rdel.rip.2 1\n\
- ask 6.best 2001:db8::/32\n\
- show 6.best\n\
- show 6.org.rip.2\n\
- show best\n\
- peer 1 65001 192.0.2.1 192.0.2.1\n\
E7 local6 2001:db8::fe\n\
- filter6 in 1 any accept\n\
- filter6 out 1\n\
E5 filter6 in 2 any accept\n\
- work 6.fin.1 1\n\
E5 work 6.nh.2 1\n\
- show 6.peer.1.4\n\
E5 show 6.peer.2.4\n\
- ask 6.res.1 2001:db8::/32\n\
- up 1\n\
- down 1\n\
- idle";

/// Events of a file where a peer stands before `local6` would.
const BEHIND: &str = "\
- as4\n\
- local 65000 192.0.2.254 192.0.2.254\n\
- peer 1 65001 192.0.2.1 192.0.2.1\n\
E7 local6 2001:db8::fe\n\
E9 filter6 in 1 path 70000 accept\n\
E9 filter6 in 2 any accept\n\
E9 show 6.in.1\n\
E9 show 6.in.2\n\
E9 work 6.out.2 1\n\
- show in.1\n\
E5 show in.2\n\
E3 peer 1 65001 192.0.2.1 192.0.2.1";

/// Fails where an event gets another code than this.
fn is_told(
    alloc: Global,
    line: &[u8],
    want: Option<Code>,
    declared: &mut Declared,
) -> Result<(), Fail> {
    match refused(alloc, line, declared)? == want {
        true => Ok(()),
        false => Err(Fail::from(Vec::from_slice(alloc, line)?)),
    }
}

/// Fails at the first event that gets another code.
fn in_order(alloc: Global, events: &str, declared: &mut Declared) -> Result<(), Fail> {
    for line in events.split('\n') {
        let (want, event) = line.split_once(' ').ok_or("no event")?;
        is_told(alloc, event.as_bytes(), code_named(want), declared)?;
    }
    Ok(())
}

/// New rules of a peer's filter, one more than a filter may have.
fn too_many_rules(alloc: Global, line: &str) -> Result<Vec<u8>, Memory> {
    let mut rules = Vec::from_slice(alloc, line.as_bytes())?;
    for _ in 0..65 {
        rules.extend_from_slice(b" any accept")?;
    }
    Ok(rules)
}

/// Too many rules are refused last: behind IPv6 words without `local6`, and behind an undeclared peer.
fn rules_come_last(
    alloc: Global,
    want: [Option<Code>; 2],
    declared: &mut Declared,
) -> Result<(), Fail> {
    let [first, second] = want;
    let rules = too_many_rules(alloc, "filter6 in 1")?;
    is_told(alloc, &rules, first, declared)?;
    let rules = too_many_rules(alloc, "filter6 out 2")?;
    is_told(alloc, &rules, second, declared)
}

fn follow(
    alloc: Global,
    events: &str,
    want: [Option<Code>; 2],
    declared: &mut Declared,
) -> Result<(), Fail> {
    in_order(alloc, events, declared)?;
    rules_come_last(alloc, want, declared)
}

fn follow_new(alloc: Global, events: &str, want: [Option<Code>; 2]) -> Result<(bool, usize), Fail> {
    let mut declared = Declared::new(alloc);
    let followed = follow(alloc, events, want, &mut declared);
    let end = (declared.profile().v6, declared.peers().len());
    drop(declared);
    followed?;
    Ok(end)
}

#[test]
fn events_of_ipv6_are_refused_in_order(rt: HostRuntime) -> Result<(), Fail> {
    let spoken = follow_new(rt.alloc(), EVENTS, [Some(Code::E6), Some(Code::E5)])?;
    let unspoken = follow_new(rt.alloc(), BEHIND, [Some(Code::E9), Some(Code::E9)])?;
    assert!(rt; spoken == (true, 1) && unspoken == (false, 1));
    Ok(())
}
