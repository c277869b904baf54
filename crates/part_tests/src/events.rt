//! Lines that are read or refused.

use crate::unread_lines::{UNPRINTABLE, UNREAD};
use addr4::Memory;
use bgp_attr::Profile;
use event_text::parse;
use journal_text::Code;
use std::alloc::Global;
use std::test::Fail;

/// AS numbers of two octets, and errors by RFC 4271.
const OF_TWO: Profile = Profile {
    as4: false,
    revised: false,
    reflect: false,
    v6: false,
    second: false,
};

/// AS numbers of four octets, and revised errors.
const OF_FOUR: Profile = Profile {
    as4: true,
    revised: true,
    reflect: false,
    v6: false,
    second: false,
};

/// Lines that are read. Those that are empty or begin with `#` say nothing.
const READ: &str = "\
\n\
\x20\x20\x20\n\
# up 1\n\
\x20\x20#up\n\
as4\n\
\x20revised \n\
local 65535 192.0.2.254 223.1.2.3\n\
peer 3 65001 192.0.2.1 1.0.0.1\n\
\x20\x20up   7 \n\
down 4294967295\n\
bgp 1 fF0a\n\
filter in 1\n\
filter in 1 any pref 200 accept\n\
filter in 2 path 65535 reject any accept\n\
filter out 1\n\
filter out 1 any nomed prepend 16 next origin 2 reject\n\
idle\n\
work del.1.2 0\n\
work fin.1 3\n\
work nh.64 0\n\
work rd.rib 3\n\
work out.64 3\n\
ask in.1 192.0.2.77/24\n\
ask filt.1 10.1.0.0/16\n\
show filt.1\n\
ask res.1 10.1.0.0/16\n\
show res.64\n\
ask best 10.1.0.0/16\n\
show best\n\
ask read.rib 10.1.0.0/16\n\
show read.2.1\n\
ask outf.2.1 10.1.0.0/16\n\
show adv.2.1\n\
show peer.3.4\n\
route add static 10.1.2.3/8 direct eth0 7\n\
route add ospf 10.0.0.0/8 via 192.0.2.9 a.b-c_d 4294967295\n\
route add rip 0.0.0.0/0 direct abcdefghijklmno 0\n\
route del connected 10.1.2.3/16\n\
lost rip\n\
cover 9.9.9.9\n\
settled 0.0.0.0/0\n\
settled 10.1.2.3/16\n\
redist ospf on\n\
redist  static  off \n\
work rdel.ospf.2 3\n\
work red 4294967295\n\
work ext 0\n\
show org.rip.1\n\
show red\n\
ask red 0.0.0.0/0\n\
show ebgp\n\
ask ibgp 10.1.0.0/16\n\
show ext\n\
show fib\n\
show peer.2.17\n\
show filt.4294967295\n\
show res.3\n\
show org.static\n\
show org.rip.2\n\
work del.2.1 3\n\
work rdel.rip.2 3\n\
peer 3 65001 192.0.2.1 1.0.0.0\n\
local 65535 192.0.2.254 223.255.255.255\n\
route add static 10.1.2.3/8 direct eth0.1-a_b 7\n\
filter in 1 \n\
filter in 1    \n\
filter in 1 any accept\n\
filter in 1   any  pref 4294967295   accept \n\
filter in 1 any pref 0 med 7 nomed prepend 16 next any reject\n\
filter in 1 10.1.2.3/16 ge 0 le 32 reject\n\
filter in 1 path 0 accept path 65535 accept\n\
filter in 1 origin 2 reject";

/// Lines that are read where AS numbers have four octets, and are no events where they have two.
const WIDE: &str = "\
local 65536 192.0.2.254 192.0.2.254\n\
local 4294967295 192.0.2.254 192.0.2.254\n\
peer 1 70000 192.0.2.1 192.0.2.1\n\
peer 1 4294967295 192.0.2.1 192.0.2.1\n\
filter in 1 path 65536 reject\n\
filter in 1 path 0 accept path 4294967295 accept\n\
filter out 1 path 65536 reject";

/// The code of a line that is refused.
fn code_of(alloc: Global, profile: Profile, line: &[u8]) -> Result<Option<Code>, Memory> {
    match parse(alloc, profile, line)? {
        Ok(_) => Ok(None),
        Err(code) => Ok(Some(code)),
    }
}

/// Fails at the first of these lines that gets another code.
fn have_code(alloc: Global, profile: Profile, lines: &str, want: Option<Code>) -> Result<(), Fail> {
    for line in lines.as_bytes().split(|octet| *octet == b'\n') {
        if code_of(alloc, profile, line)? != want {
            return Err(Fail::from(Vec::from_slice(alloc, line)?));
        }
    }
    Ok(())
}

#[test]
fn lines_are_read_or_refused(rt: HostRuntime) -> Result<(), Fail> {
    for profile in [OF_TWO, OF_FOUR] {
        have_code(rt.alloc(), profile, READ, None)?;
        have_code(rt.alloc(), profile, UNREAD, Some(Code::E2))?;
        have_code(rt.alloc(), profile, UNPRINTABLE, Some(Code::E1))?;
    }
    have_code(rt.alloc(), OF_TWO, WIDE, Some(Code::E2))?;
    have_code(rt.alloc(), OF_FOUR, WIDE, None)
}
