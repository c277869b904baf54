//! Events that stand where they may, and those that are refused, by their codes.

use addr4::Memory;
use bgp_attr::Profile;
use event_text::{Declared, Event, admit, parse};
use journal_text::Code;
use std::alloc::Global;
use std::test::Fail;

/// Does an event, unless it is refused.
pub(crate) fn step(event: &Event, declared: &mut Declared) -> Result<Option<Code>, Memory> {
    if let Some(code) = admit(event, declared) {
        return Ok(Some(code));
    }
    declared.known();
    match event {
        Event::Whole(word) => declared.set_profile(word.said(declared.profile())),
        Event::Local(words) => declared.set_speaker(*words),
        Event::Peer(number, words, client) => declared.add_peer(*number, *words, *client)?,
        Event::Up(number) => declared.begin_session(*number),
        Event::Down(number) => declared.end_session(*number),
        _ => {}
    }
    Ok(None)
}

/// Reads an event, and does it unless it is refused.
fn refused(alloc: Global, line: &str, declared: &mut Declared) -> Result<Option<Code>, Memory> {
    match parse(alloc, declared.profile(), line.as_bytes())? {
        Ok(event) => step(&event, declared),
        Err(code) => Ok(Some(code)),
    }
}

/// The profile that FIRST leaves.
const WIDE_AND_REVISED: Profile = Profile {
    as4: true,
    revised: true,
    reflect: false,
    v6: false,
    second: false,
};

/// That of a route reflector.
const REFLECTOR: Profile = Profile {
    as4: false,
    revised: false,
    reflect: true,
    v6: false,
    second: false,
};

/// That of a file that says nothing of the whole of it.
const PLAIN: Profile = Profile {
    as4: false,
    revised: false,
    reflect: false,
    v6: false,
    second: false,
};

/// What may stand in front of the others: of the whole file, once each.
const FIRST: &str = "\
E4 up 1\n\
- revised\n\
E2 peer 1 70000 192.0.2.1 192.0.2.1\n\
- as4\n\
E7 as4\n\
E7 revised\n\
E2 revised on\n\
E4 peer 1 70000 192.0.2.1 192.0.2.1";

/// Events in a row, each behind its code; `-` where it is accepted.
const EVENTS: &str = "\
E4 peer 65 65001 192.0.2.1 192.0.2.1\n\
E4 up 300\n\
E4 filter in 1 any accept\n\
E4 filter out 1 any accept\n\
E4 cover 9.9.9.9\n\
E4 settled 10.0.0.0/8\n\
E4 redist static on\n\
E4 idle\n\
- # local\n\
- local 65000 192.0.2.254 192.0.2.254\n\
E7 as4\n\
E7 revised\n\
E7 reflect\n\
E2 as4 on\n\
E3 local 65000 192.0.2.254 192.0.2.253\n\
E3 peer 1 65000 192.0.2.1 192.0.2.254\n\
- peer 1 65000 192.0.2.1 192.0.2.1\n\
E3 peer 1 65000 192.0.2.2 192.0.2.2\n\
E3 peer 65 65000 192.0.2.2 192.0.2.1\n\
E6 peer 65 65000 192.0.2.2 192.0.2.2\n\
- peer 64 65001 192.0.2.2 192.0.2.2\n\
E5 up 300\n\
E5 bgp 2 ff\n\
E5 show peer.2.1\n\
E5 work fin.2 1\n\
E5 work nh.2 1\n\
- work nh.64 1\n\
E5 ask filt.2 10.1.0.0/16\n\
E5 ask res.2 10.1.0.0/16\n\
- ask res.1 10.1.0.0/16\n\
E5 filter in 2\n\
E5 filter out 2 any accept\n\
- filter out 64 any accept\n\
E5 work out.2 1\n\
- work out.64 1\n\
- work rd.rib 1\n\
E5 show adv.2.1\n\
E5 ask read.2.1 10.1.0.0/16\n\
- ask outf.64.9 10.1.0.0/16\n\
- show read.rib\n\
- route del rip 10.0.0.0/8\n\
- show org.rip.2\n\
- show best\n\
- work rdel.rip.2 1\n\
- redist rip off\n\
- work red 1\n\
- work ext 1\n\
- show red\n\
- ask ext 10.1.0.0/16\n\
- down 64";

/// What may stand in front of the others where this speaker is a route reflector,
const REFLECTED: &str = "\
E2 peer 1 65000 192.0.2.1 192.0.2.1 client\n\
- reflect\n\
E7 reflect\n\
E2 reflect on\n\
E4 peer 1 65000 192.0.2.1 192.0.2.1 client";

/// and behind them: clients, each behind its code.
const CLIENTS: &str = "\
E3 peer 1 65001 192.0.2.3 192.0.2.3 client\n\
E8 peer 65 65001 192.0.2.3 192.0.2.3 client\n\
E6 peer 65 65000 192.0.2.3 192.0.2.3 client\n\
E2 peer 3 65000 192.0.2.3 192.0.2.3 clients\n\
E2 peer 3 65000 192.0.2.3 192.0.2.3 client client\n\
- peer 3 65000 192.0.2.3 192.0.2.3 client";

/// The code of a word; none of any other.
pub(crate) fn code_named(word: &str) -> Option<Code> {
    match word {
        "E2" => Some(Code::E2),
        "E3" => Some(Code::E3),
        "E4" => Some(Code::E4),
        "E5" => Some(Code::E5),
        "E6" => Some(Code::E6),
        "E7" => Some(Code::E7),
        "E8" => Some(Code::E8),
        "E9" => Some(Code::E9),
        _ => None,
    }
}

/// Fails at the first event that gets another code.
fn in_order(alloc: Global, events: &str, declared: &mut Declared) -> Result<(), Fail> {
    for line in events.split('\n') {
        let (want, event) = line.split_once(' ').ok_or("no event")?;
        is_told(alloc, event, code_named(want), declared)?;
    }
    Ok(())
}

/// Fails where an event gets another code than this.
fn is_told(
    alloc: Global,
    line: &str,
    want: Option<Code>,
    declared: &mut Declared,
) -> Result<(), Fail> {
    match refused(alloc, line, declared)? == want {
        true => Ok(()),
        false => Err(Fail::from(line)),
    }
}

/// Answers how many peers are declared in the end.
fn peers_of_events(
    alloc: Global,
    profile: Profile,
    declared: &mut Declared,
) -> Result<usize, Fail> {
    if profile.as4 {
        in_order(alloc, FIRST, declared)?;
    }
    if profile.reflect {
        in_order(alloc, REFLECTED, declared)?;
    }
    in_order(alloc, EVENTS, declared)?;
    if profile.reflect {
        in_order(alloc, CLIENTS, declared)?;
    }
    if declared.profile() != profile {
        return Err(Fail::from("another profile"));
    }
    Ok(declared.peers().len())
}

fn peers_declared(alloc: Global, profile: Profile) -> Result<usize, Fail> {
    let mut declared = Declared::new(alloc);
    let peers = peers_of_events(alloc, profile, &mut declared);
    drop(declared);
    peers
}

#[test]
fn events_are_refused_in_order(rt: HostRuntime) -> Result<(), Fail> {
    for profile in [PLAIN, WIDE_AND_REVISED] {
        assert!(rt; peers_declared(rt.alloc(), profile)? == 2);
    }
    assert!(rt; peers_declared(rt.alloc(), REFLECTOR)? == 3);
    Ok(())
}
