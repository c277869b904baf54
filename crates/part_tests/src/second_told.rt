//! What peers are told of a route of IPv6, and that it is gone.

/// An external peer gets the local AS in front and the local address as the next hop, an internal one LOCAL_PREF, and both the prefix
/// in MP_REACH_NLRI (RFC 4760, section 3), behind the attributes of lesser types.
pub(crate) const ANNOUNCED: &str = "\
i 6.read.2.1 6.best\n\
b 6.outf.2.1\n\
b 6.adv.2.1\n\
i 6.read.3.1 6.best\n\
b 6.outf.3.1\n\
b 6.adv.3.1\n\
+ 6.read.2.1 2001:db8:1:0:0:0:0:0/48 1:100:-:0:1:o0,p(65001),n2001:db8:0:0:0:0:0:1\n\
+ 6.read.2.1 ff02:0:0:0:0:0:0:0/16 1:100:-:0:1:o0,p(65001),n2001:db8:0:0:0:0:0:1\n\
+ 6.outf.2.1 2001:db8:1:0:0:0:0:0/48 o0,p(65000.65001),n2001:db8:0:0:0:0:0:fe\n\
+ 6.adv.2.1 2001:db8:1:0:0:0:0:0/48 o0,p(65000.65001),n2001:db8:0:0:0:0:0:fe\n\
out 2 ffffffffffffffffffffffffffffffff0043020000002c\
400101004002060202fde8fde9\
800e1c0002011020010db80000000000000000000000fe003020010db80001\n\
+ 6.read.3.1 2001:db8:1:0:0:0:0:0/48 1:100:-:0:1:o0,p(65001),n2001:db8:0:0:0:0:0:1\n\
+ 6.read.3.1 ff02:0:0:0:0:0:0:0/16 1:100:-:0:1:o0,p(65001),n2001:db8:0:0:0:0:0:1\n\
+ 6.outf.3.1 2001:db8:1:0:0:0:0:0/48 o0,p(65001),n2001:db8:0:0:0:0:0:1,l100\n\
+ 6.adv.3.1 2001:db8:1:0:0:0:0:0/48 o0,p(65001),n2001:db8:0:0:0:0:0:1,l100\n\
out 3 ffffffffffffffffffffffffffffffff00480200000031\
400101004002040201fde940050400000064\
800e1c0002011020010db8000000000000000000000001003020010db80001\n";

/// What isn't there any more stands in MP_UNREACH_NLRI, alone (RFC 4760, section 4).
pub(crate) const WITHDRAWN: &str = "\
- 6.read.2.1 2001:db8:1:0:0:0:0:0/48 1:100:-:0:1:o0,p(65001),n2001:db8:0:0:0:0:0:1\n\
- 6.outf.2.1 2001:db8:1:0:0:0:0:0/48 o0,p(65000.65001),n2001:db8:0:0:0:0:0:fe\n\
- 6.adv.2.1 2001:db8:1:0:0:0:0:0/48 o0,p(65000.65001),n2001:db8:0:0:0:0:0:fe\n\
out 2 ffffffffffffffffffffffffffffffff0024020000000d800f0a0002013020010db80001\n\
- 6.read.3.1 2001:db8:1:0:0:0:0:0/48 1:100:-:0:1:o0,p(65001),n2001:db8:0:0:0:0:0:1\n\
- 6.outf.3.1 2001:db8:1:0:0:0:0:0/48 o0,p(65001),n2001:db8:0:0:0:0:0:1,l100\n\
- 6.adv.3.1 2001:db8:1:0:0:0:0:0/48 o0,p(65001),n2001:db8:0:0:0:0:0:1,l100\n\
out 3 ffffffffffffffffffffffffffffffff0024020000000d800f0a0002013020010db80001\n\
e 6.read.2.1\n\
e 6.outf.2.1\n\
e 6.adv.2.1\n";
