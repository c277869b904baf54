//! Lines that are no events.

/// Lines that are no events.
pub(crate) const UNREAD: &str = "\
as\n\
as2\n\
as4 1\n\
As4\n\
revised on\n\
revise\n\
local 0 192.0.2.254 192.0.2.254\n\
peer 3 0 192.0.2.1 1.0.0.1\n\
local 4294967296 192.0.2.254 192.0.2.254\n\
local 065536 192.0.2.254 192.0.2.254\n\
peer 3 4294967296 192.0.2.1 1.0.0.1\n\
filter in 1 path 4294967296 accept\n\
local 65000 0.0.0.0 192.0.2.254\n\
local 65000 192.0.2.254 127.0.0.1\n\
local 65000 192.0.2.254 224.0.0.1\n\
local 65000 192.0.2.254\n\
peer 3 65001 192.0.2.1 1.0.0.1 x\n\
up 0\n\
up 01\n\
up 4294967296\n\
up\n\
down 1 1\n\
bgp 1\n\
bgp 1 fff\n\
bgp 1 0g\n\
filter in 0 any accept\n\
filter out 0 any accept\n\
filter out 1 any prepend 17 accept\n\
filter out\n\
filter to 1 any accept\n\
work rd 3\n\
work rd.1 3\n\
work out.0 3\n\
work out.rib 3\n\
show adv.2\n\
show read.2\n\
filter in 1 any pref\n\
filter in\n\
idle 1\n\
work del.1 0\n\
work fin.0 3\n\
work nh 3\n\
work nh.0 3\n\
work nh.1.1 3\n\
work nh.x 3\n\
work nh.1\n\
work res.1 3\n\
show nh.1\n\
show res.0\n\
ask in.1 192.0.2.0/33\n\
show peer.3.4.5\n\
show red.1\n\
show red.static\n\
ask ebgp.1 10.1.0.0/16\n\
ask best.1 10.1.0.0/16\n\
Up 1\n\
route add rip 0.0.0.0/0 direct abcdefghijklmnop 0\n\
route add rip 0.0.0.0/0 direct Eth0 0\n\
route add rip 0.0.0.0/0 direct 0\n\
route add rip 0.0.0.0/0 direct eth0 4294967296\n\
route add rip 0.0.0.0/0 direct eth0 0 0\n\
route add rip 0.0.0.0/0 via eth0 0\n\
route add bgp 0.0.0.0/0 direct eth0 0\n\
route del rip\n\
lost\n\
cover 9.9.9.9/32\n\
settled\n\
settled 10.0.0.0/33\n\
settled 10.0.0.0/8 x\n\
work rdel.rip.0 3\n\
work red.1 3\n\
work red.static 3\n\
work ext.rib 3\n\
work ebgp 3\n\
redist rip\n\
redist rip On\n\
redist rip on off\n\
redist bgp on\n\
redist on rip\n\
redist off\n\
redist\n\
show org.bgp\n\
show in\n\
show in.\n\
show in.0\n\
show in.01\n\
show in.1.1\n\
show in.4294967296\n\
show peer.1\n\
show peer.1.0\n\
show peer.1.1.1\n\
show org\n\
show best.1\n\
show read.1\n\
show read.rib.1\n\
show In.1\n\
work del.2 3\n\
work del.0.1 3\n\
work fin.1.1 3\n\
work nh. 3\n\
work nh.01 3\n\
work nh.4294967296 3\n\
work Nh.1 3\n\
work nhs.1 3\n\
work rdel.2.1 3\n\
work rd.rib.1 3\n\
work rd.Rib 3\n\
work out 3\n\
work out.1.1 3\n\
work read.rib 3\n\
work red. 3\n\
work red.rip 3\n\
work Red 3\n\
work ext.1 3\n\
local 65000 192.0.2.254 0.255.255.255\n\
local 65000 192.0.2.254 224.0.0.0\n\
ask best 10.1.0.0/33\n\
ask best 10.1.0.0/016\n\
ask best 10.1.0/16\n\
ask best 10.1.0.0.0/16\n\
ask best 10.01.0.0/16\n\
ask best 10.256.0.0/16\n\
ask best 10.1.0.0\n\
ask best 10.1.0.0/16/8\n\
ask best +10.1.0.0/16\n\
ask best\n\
route add rip 0.0.0.0/0 direct eth:0 0\n\
filter in 1 origin 3 reject\n\
filter in 1 any\n\
filter in 1 any accept any\n\
filter in 1 accept\n\
filter in 1 any prepend 17 accept\n\
filter in 1 any pref 4294967296 accept\n\
filter in 1 any pref 01 accept\n\
filter in 1 any pref accept\n\
filter in 1 any med -1 accept\n\
filter in 1 Any accept\n\
filter in 1 10.0.0.0/8 accept\n\
filter in 1 10.0.0.0/8 ge 8 le 33 accept\n\
filter in 1 10.0.0.0/8 le 8 ge 32 accept\n\
filter in 1 10.0.0.0/33 ge 8 le 32 accept";

/// Lines with an octet that no line has.
pub(crate) const UNPRINTABLE: &str = "up\t1\n# \u{7f}";
