//! The octets of the second family's messages: an announcement whose attributes stand on both sides of MP_REACH_NLRI (RFC 4760).

ghost use Rattle.std.specs.Option.{ForSome};
ghost use Rattle.peer_out.specs.Changes.{IsSender, MayBeHeard, IsSentOf};

use crate::second_family::{PROFILE, heard, route, site, speaker};
use addr4::Prefix;
use addr6::V6;
use bgp_attr::{Route, SharedAttrs};
use link_change::Change;
use peer_out::{PeerOut, SentRoute};
use std::alloc::Global;
use std::test::Fail;

/// An UPDATE that announces 2001:db8:1::/48, with attributes that aren't recognized behind MP_REACH_NLRI, of the types 16 and 8.
const HEARD_MORE: &str = "\
ffffffffffffffffffffffffffffffff0053020000003c\
400101004002040201fde9\
800e1c0002011020010db8000000000000000000000001003020010db80001\
c010080102030405060708c0080400010002";

/// What an external peer is told of it: type 8 stands in front of MP_REACH_NLRI and type 16 behind it, with the partial flag set.
const TOLD: &str = "\
ffffffffffffffffffffffffffffffff0055020000003e\
400101004002060202fde8fde9e0080400010002\
800e1c0002011020010db80000000000000000000000fe003020010db80001\
e010080102030405060708";

/// And when it is gone.
const GONE: &str = "ffffffffffffffffffffffffffffffff0024020000000d800f0a0002013020010db80001";

/// Whether the octets of a change of what the peer was sent are these.
fn is_said(
    alloc: Global,
    exit: &PeerOut<V6>,
    prefix: Prefix<V6>,
    before: Option<SentRoute<V6>>,
    after: Option<SentRoute<V6>>,
    want: &str,
) -> Result<bool, Fail>
    requires { ForSome after (IsSentOf exit.now.profile exit.now.external prefix) }
{
    let change = Change {
        prefix,
        before,
        after,
    };
    let octets = exit.message(&change)?;
    let digits = hex::encode(alloc, &octets)?;
    Ok(digits.as_str() == want)
}

/// Whether the peer is told of the route, and that it is gone.
fn tells(alloc: Global, exit: &PeerOut<V6>, row: &Route<SharedAttrs<V6>>) -> Result<bool, Fail>
    requires sender { IsSender exit.now.profile exit.now.me }
    requires heard { MayBeHeard exit.now.profile row.now.attrs }
{
    let at = site(1);
    let told = is_said(alloc, exit, at, None, exit.sent(at, row)?, TOLD)?;
    let gone = is_said(alloc, exit, at, exit.sent(at, row)?, None, GONE)?;
    Ok(told && gone)
}

fn tells_new(alloc: Global) -> Result<bool, Fail> {
    let row = route(heard(alloc, HEARD_MORE)?);
    let exit = PeerOut::new(alloc, PROFILE, speaker(), true);
    tells(alloc, &exit, &row)
}

#[test]
fn attributes_stand_by_their_types(rt: HostRuntime) -> Result<(), Fail> {
    assert!(rt; tells_new(rt.alloc())?);
    Ok(())
}
