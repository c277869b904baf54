//! Lines of files with words of IPv6: which network is told what they say, and which are refused.

use addr4::Memory;
use bgp_attr::Profile;
use event_text::{FileEvent, parse_file};
use journal_text::Code;
use std::alloc::Global;
use std::test::Fail;

/// AS numbers of two octets, and no word of IPv6 so far.
pub(crate) const PLAIN: Profile = Profile {
    as4: false,
    revised: false,
    reflect: false,
    v6: false,
    second: false,
};

/// AS numbers of four octets, behind `local6`.
const WIDE: Profile = Profile {
    as4: true,
    revised: true,
    reflect: false,
    v6: true,
    second: false,
};

/// Lines that IPv4's network is told, or both.
const FIRST: &str = "\
\n\
# local6 ::\n\
as4\n\
local 65000 192.0.2.254 192.0.2.254\n\
peer 3 65001 192.0.2.1 1.0.0.1\n\
up 7\n\
down 7\n\
bgp 1 ff\n\
filter in 1 10.0.0.0/8 ge 8 le 32 reject\n\
filter out 1 any accept\n\
idle\n\
work fin.1 3\n\
ask in.1 10.0.0.0/8\n\
show best\n\
route add static 10.0.0.0/8 via 192.0.2.9 eth0 7\n\
route del static 10.0.0.0/8\n\
lost static\n\
redist static on\n\
cover 192.0.2.1\n\
settled 10.0.0.0/8";

/// Lines that begin IPv6's network: the address is neither `::` nor `::1`, and not in ff00::/8.
const LOCAL: &str = "\
local6 2001:db8::fe\n\
\x20local6  2001:db8::fe \n\
local6 2001:DB8:0:00:000:0000:0:FE\n\
local6 ::2\n\
local6 1::\n\
local6 1:2:3:4:5:6:7::\n\
local6 ::1:2:3:4:5:6:7\n\
local6 fe80::1\n\
local6 feff:ffff:ffff:ffff:ffff:ffff:ffff:ffff";

/// Lines that IPv6's network alone is told.
const SECOND: &str = "\
filter6 in 1\n\
filter6 in 1 any pref 200 accept\n\
filter6 in 1 2001:db8::/32 ge 32 le 128 pref 200 accept any reject\n\
filter6 out 64 ::/0 ge 0 le 0 nomed prepend 16 next path 65535 next origin 2 reject\n\
lost6 ospf\n\
redist6 static on\n\
redist6  rip  off \n\
route add connected 2001:db8::/64 direct eth0 1\n\
route add static ::/0 via fe80::1 eth0 7\n\
route add rip 2001:db8::1/128 via 2001:db8::9 a.b-c_d 4294967295\n\
route del rip 2001:db8::/64\n\
cover 2001:db8::9\n\
cover ::\n\
settled ::/0\n\
settled 2001:db8::1/128\n\
work 6.del.1.2 0\n\
work 6.fin.1 3\n\
work 6.nh.64 0\n\
work 6.rd.rib 3\n\
work 6.out.64 3\n\
work 6.ref.2 9\n\
work 6.rdel.ospf.2 3\n\
work 6.red 4294967295\n\
work 6.ext 0\n\
ask 6.in.1 2001:db8::/32\n\
ask 6.filt.1 2001:db8::/32\n\
ask 6.res.1 2001:db8::/32\n\
ask 6.best ::/0\n\
show 6.peer.2.17\n\
show 6.org.static\n\
show 6.org.rip.2\n\
show 6.int\n\
show 6.red\n\
show 6.read.rib\n\
show 6.ebgp\n\
show 6.ext\n\
show 6.fib\n\
show 6.read.2.1\n\
show 6.outf.2.1\n\
show 6.adv.2.1";

/// Lines that are no events: a word or address of another family, a prefix of another family than its link's or its gateway's,
/// texts that are no addresses, and words that no language has.
const UNREAD: &str = "\
local6\n\
local6 2001:db8::fe 1\n\
local6 65000 2001:db8::fe\n\
local6 ::\n\
local6 ::1\n\
local6 0:0:0:0:0:0:0:1\n\
local6 ff00::\n\
local6 ff02::1\n\
local6 ffff:ffff:ffff:ffff:ffff:ffff:ffff:ffff\n\
local6 192.0.2.254\n\
local6 ::192.0.2.254\n\
local6 ::ffff:192.0.2.1\n\
local6 2001:db8::fe/64\n\
local6 2001:db8\n\
local6 1:2:3:4:5:6:7\n\
local6 1:2:3:4:5:6:7:8:9\n\
local6 1:2:3:4::5:6:7:8\n\
local6 1::2::3\n\
local6 1:::2\n\
local6 :1:2:3:4:5:6:7\n\
local6 1:2:3:4:5:6:7:\n\
local6 12345::1\n\
local6 2001:db8::g\n\
local6 [2001:db8::fe]\n\
local6 2001:db8::fe%eth0\n\
Local6 2001:db8::fe\n\
local 65000 192.0.2.254 2001:db8::fe\n\
peer 3 65001 192.0.2.1 2001:db8::1\n\
peer 3 65001 2001:db8::1 192.0.2.1\n\
peer6 3 65001 192.0.2.1 192.0.2.1\n\
up6 1\n\
bgp6 1 ff\n\
idle6\n\
6.idle\n\
filter6\n\
filter6 in\n\
filter6 in 0 any accept\n\
filter6 to 1 any accept\n\
filter6 in 1 any\n\
filter6 in 1 10.0.0.0/8 ge 8 le 32 accept\n\
filter6 in 1 2001:db8::/32 ge 32 le 129 accept\n\
filter6 in 1 2001:db8::/129 ge 0 le 128 accept\n\
filter in 1 2001:db8::/32 ge 32 le 128 accept\n\
lost6\n\
lost6 bgp\n\
lost6 rip rip\n\
redist6 rip\n\
redist6 rip On\n\
redist6 bgp on\n\
route add static 10.0.0.0/8 via 2001:db8::9 eth0 7\n\
route add static 2001:db8::/32 via 192.0.2.9 eth0 7\n\
route add static 2001:db8::/129 direct eth0 7\n\
route add static 2001:db8::/064 direct eth0 7\n\
route del static 2001:db8::\n\
route6 del static 2001:db8::/32\n\
cover 2001:db8::/32\n\
cover6 2001:db8::9\n\
settled 2001:db8::\n\
settled6 2001:db8::/32\n\
ask in.1 2001:db8::/32\n\
ask 6.in.1 10.0.0.0/8\n\
ask 6.in.1\n\
show 6.\n\
show 6.6.in.1\n\
show 6in.1\n\
show 06.in.1\n\
show 4.in.1\n\
show 6.in.0\n\
show 6.nh.1\n\
work 6.in.1 3\n\
work 6.fin.0 3\n\
work 6.fin.1";

/// Lines of IPv6's network where AS numbers have four octets, and no events where they have two.
const OF_FOUR: &str = "\
filter6 in 1 path 65536 reject\n\
filter6 out 1 path 4294967295 accept";

/// Lines with an octet that no line has.
const UNPRINTABLE: &str = "local6\t2001:db8::fe\n# \u{7f}";

/// Who is told what a line says, or why nobody is.
#[derive(Clone, Copy, PartialEq, Eq)]
enum Told {
    First,
    Local,
    Second,
    Nobody(Code),
}

fn network_of(alloc: Global, profile: Profile, line: &[u8]) -> Result<Told, Memory> {
    match parse_file(alloc, profile, line)? {
        Ok(FileEvent::First(_)) => Ok(Told::First),
        Ok(FileEvent::Local6(_)) => Ok(Told::Local),
        Ok(FileEvent::Second(_)) => Ok(Told::Second),
        Err(code) => Ok(Told::Nobody(code)),
    }
}

/// Fails at the first of these lines that another network is told, or that gets another code.
fn are_told(alloc: Global, profile: Profile, lines: &str, want: Told) -> Result<(), Fail> {
    for line in lines.as_bytes().split(|octet| *octet == b'\n') {
        if network_of(alloc, profile, line)? != want {
            return Err(Fail::from(Vec::from_slice(alloc, line)?));
        }
    }
    Ok(())
}

#[test]
fn a_network_is_told_by_the_words(rt: HostRuntime) -> Result<(), Fail> {
    for profile in [PLAIN, WIDE] {
        are_told(rt.alloc(), profile, FIRST, Told::First)?;
        are_told(rt.alloc(), profile, LOCAL, Told::Local)?;
        are_told(rt.alloc(), profile, SECOND, Told::Second)?;
        are_told(rt.alloc(), profile, UNREAD, Told::Nobody(Code::E2))?;
        are_told(rt.alloc(), profile, UNPRINTABLE, Told::Nobody(Code::E1))?;
    }
    are_told(rt.alloc(), PLAIN, OF_FOUR, Told::Nobody(Code::E2))?;
    are_told(rt.alloc(), WIDE, OF_FOUR, Told::Second)
}
