//! Measures the reading of messages: lines `bgp K HEX` of an event file come on standard input, and each message is read.
//!
//! What is measured: how many messages were read, and how many prefixes they withdraw and announce.

use crate::measured::Measured;
use addr4::Memory;
use anyhow::Context;
use bgp_attr::Profile;
use bgp_wire::{Message, read_message};
use std::alloc::Global;
use std::io::{BufRead, BufReader};

/// How messages are read: AS numbers of two octets, errors by RFC 4271.
const PROFILE: Profile = Profile {
    as4: false,
    revised: false,
    reflect: false,
    v6: false,
    second: false,
};

/// The octets of a line `bgp K HEX`; none of another line.
fn octets_of(alloc: Global, line: &str) -> Option<Vec<u8>> {
    let rest = line.strip_prefix("bgp ")?;
    let (_peer, text) = rest.split_once(' ')?;
    hex::decode(alloc, text.as_bytes()).ok()
}

/// How many prefixes a message withdraws and announces.
fn prefixes_in(alloc: Global, octets: &[u8]) -> Result<u64, Memory> {
    match read_message(alloc, PROFILE, octets, true)? {
        Message::Update(update) => {
            let withdrawn = update.first.withdrawn.as_slice().len() as u64;
            let announced = update.first.announced.as_slice().len() as u64;
            Ok(withdrawn.wrapping_add(announced))
        }
        _ => Ok(0),
    }
}

pub(crate) fn measured(rt: &HostRuntime) -> anyhow::Result<Measured> {
    let alloc = rt.alloc();
    let mut measured = Measured { count: 0, sum: 0 };
    for line in BufReader::new(alloc, rt.reader())?.lines(alloc) {
        let line = line?;
        if let Some(octets) = octets_of(alloc, line.as_str()) {
            let found = prefixes_in(alloc, octets.as_slice())
                .ok()
                .context("no memory")?;
            measured.count = measured.count.wrapping_add(1);
            measured.sum = measured.sum.wrapping_add(found);
        }
    }
    Ok(measured)
}
