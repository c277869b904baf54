//! Addresses at both ends of what their family has, and texts, those of RFC 4291, section 2.2 and 2.3, among them.

use crate::V6;
use addr4::{
    Addr, BadAddr, BadPrefix, Family, Memory, Prefix, push_addr, push_prefix, read_addr,
    read_prefix,
};
use std::alloc::Global;
use std::test::Fail;

/// 2001:db8::1.
const ONE: V6 = V6(0x2001_0db8_0000_0000_0000_0000_0000_0001);

#[test]
fn bits_are_masked_to_a_length(rt: HostRuntime) -> Result<(), Fail> {
    let all = V6(u128::MAX);
    assert!(rt; ONE.masked(128) == ONE && ONE.masked(0) == V6(0));
    assert!(rt; ONE.masked(127) == V6(ONE.0 - 1) && ONE.masked(1) == V6(0));
    assert!(rt; all.masked(1) == V6(1 << 127) && all.masked(64) == V6(u128::MAX << 64));
    Ok(())
}

#[test]
fn bits_and_digits_are_told_from_the_front(rt: HostRuntime) -> Result<(), Fail> {
    assert!(rt; !ONE.bit(0) && ONE.bit(2) && ONE.bit(127) && !ONE.bit(126));
    assert!(rt;
        ONE.digit(31) == 2 && ONE.digit(24) == 8 && ONE.digit(25) == 11 && ONE.digit(0) == 1
    );
    assert!(rt; ONE.shared_bits(V6(0)) == 2 && ONE.shared_bits(V6(ONE.0 - 1)) == 127);
    Ok(())
}

/// The prefix of a length, at most 128, that the address lies in.
fn prefix(address: V6, length: u8) -> Prefix<V6> {
    Prefix::new(Addr::from_bits(address), length % 129).unwrap()
}

#[test]
fn hosts_are_told(rt: HostRuntime) -> Result<(), Fail> {
    assert!(rt; !V6(0).is_host() && !V6(1).is_host() && V6(2).is_host() && ONE.is_host());
    assert!(rt; V6(0xff00 << 112).masked(16) == V6(0xff00 << 112));
    assert!(rt; !V6(0xff00 << 112).is_host() && V6((0xff << 120) - 1).is_host());
    assert!(rt; prefix(V6(0), 0).is_of_hosts() && prefix(V6(0xfe << 120), 8).is_of_hosts());
    assert!(rt;
        !prefix(V6(0xff << 120), 8).is_of_hosts() && !prefix(V6(u128::MAX), 128).is_of_hosts()
    );
    Ok(())
}

#[test]
fn a_prefix_holds_what_begins_with_its_bits(rt: HostRuntime) -> Result<(), Fail> {
    let front = prefix(ONE, 32);
    assert!(rt; front.covers(prefix(ONE, 128)) && !prefix(ONE, 128).covers(front));
    assert!(rt; front.holds(Addr::from_bits(ONE)) && !front.holds(Addr::from_bits(V6(1 << 127))));
    assert!(rt; front.last() == Addr::from_bits(V6(ONE.0 - 1 + (1 << 96) - 1)));
    assert!(rt; prefix(ONE, 0).last() == Addr::from_bits(V6(u128::MAX)));
    assert!(rt; prefix(ONE, 128).last() == Addr::from_bits(ONE));
    Ok(())
}

/// Texts of addresses, each before the one that is printed.
const READ: &str = "\
:: 0:0:0:0:0:0:0:0\n\
::1 0:0:0:0:0:0:0:1\n\
1:: 1:0:0:0:0:0:0:0\n\
2001:db8::1 2001:db8:0:0:0:0:0:1\n\
ABCD:EF01:2345:6789:ABCD:EF01:2345:6789 abcd:ef01:2345:6789:abcd:ef01:2345:6789\n\
2001:DB8:0:0:8:800:200C:417A 2001:db8:0:0:8:800:200c:417a\n\
2001:DB8::8:800:200C:417A 2001:db8:0:0:8:800:200c:417a\n\
FF01::101 ff01:0:0:0:0:0:0:101\n\
0000:00a0:0:0:0:0:0:00fF 0:a0:0:0:0:0:0:ff\n\
1:2:3:4:5:6:7:: 1:2:3:4:5:6:7:0\n\
::2:3:4:5:6:7:8 0:2:3:4:5:6:7:8";

/// Texts that are no address: groups are missing, or too many; `::` stands for none, or twice; a group has five digits, or
/// none; a colon stands at an end; a byte is no hex digit; an IPv4 address stands behind.
const NO_ADDRESSES: &str = "\
1:2:3:4:5:6:7\n\
1:2:3:4:5:6:7:8:9\n\
1:2:3:4::5:6:7:8\n\
::1:2:3:4:5:6:7:8\n\
1::2::3\n\
1:2:3:4:5:6:7:12345\n\
::00001\n\
\n\
:\n\
:::\n\
1:::2\n\
:1:2:3:4:5:6:7\n\
1:2:3:4:5:6:7:\n\
::1:\n\
1:2:3:4:5:6:7:g\n\
::1 \n\
::ffff:192.0.2.1\n\
192.0.2.1";

/// Texts of prefixes, each before the one that is printed.
const READ_PREFIXES: &str = "\
::/0 0:0:0:0:0:0:0:0/0\n\
2001:db8::1/128 2001:db8:0:0:0:0:0:1/128\n\
2001:0DB8:0000:CD30:0000:0000:0000:0000/60 2001:db8:0:cd30:0:0:0:0/60\n\
2001:0DB8:0:CD30::/60 2001:db8:0:cd30:0:0:0:0/60\n\
2001:0DB8::CD30/60 2001:db8:0:0:0:0:0:0/60\n\
2001:db8:ffff::/33 2001:db8:8000:0:0:0:0:0/33";

/// Texts that are no prefix.
const NO_PREFIXES: &str = "\
::/129\n\
::/01\n\
::/\n\
::\n\
/0\n\
::/0/0\n\
2001:0DB8:0:CD3/60\n\
192.0.2.0/24";

fn address_of(text: &str) -> Result<Addr<V6>, BadAddr> {
    read_addr(text.as_bytes())
}

fn prefix_of(text: &str) -> Result<Prefix<V6>, BadPrefix> {
    read_prefix(text.as_bytes())
}

/// The address that a text spells, as it is printed; none where it spells none.
fn printed(alloc: Global, text: &str) -> Result<Option<Vec<u8>>, Memory> {
    let Ok(address) = address_of(text) else {
        return Ok(None);
    };
    let mut out = Vec::new(alloc);
    push_addr(&mut out, address)?;
    Ok(Some(out))
}

/// The same of a prefix.
fn printed_prefix(alloc: Global, text: &str) -> Result<Option<Vec<u8>>, Memory> {
    let Ok(prefix) = prefix_of(text) else {
        return Ok(None);
    };
    let mut out = Vec::new(alloc);
    push_prefix(&mut out, prefix)?;
    Ok(Some(out))
}

#[test]
fn addresses_are_printed_without_double_colons(rt: HostRuntime) -> Result<(), Fail> {
    for line in READ.split('\n') {
        let (text, want) = line.split_once(' ').ok_or("no text")?;
        let out = printed(rt.alloc(), text)?.ok_or("not read")?;
        assert!(rt; &out[..] == want.as_bytes());
        let again = printed(rt.alloc(), want)?.ok_or("not read again")?;
        assert!(rt; &again[..] == want.as_bytes());
    }
    assert!(rt; address_of("2001:db8::1") == Ok(Addr::from_bits(ONE)));
    Ok(())
}

#[test]
fn other_texts_are_no_addresses(rt: HostRuntime) -> Result<(), Fail> {
    for text in NO_ADDRESSES.split('\n') {
        assert!(rt; address_of(text).is_err());
    }
    Ok(())
}

#[test]
fn prefixes_are_read_and_printed(rt: HostRuntime) -> Result<(), Fail> {
    for line in READ_PREFIXES.split('\n') {
        let (text, want) = line.split_once(' ').ok_or("no text")?;
        let out = printed_prefix(rt.alloc(), text)?.ok_or("not read")?;
        assert!(rt; &out[..] == want.as_bytes());
    }
    for text in NO_PREFIXES.split('\n') {
        assert!(rt; prefix_of(text).is_err());
    }
    Ok(())
}
