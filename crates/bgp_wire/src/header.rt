//! The header of a message, and the fields of an UPDATE.

ghost use Rattle.std.specs.Prelude.{◌≡◌, ◌+◌, ◌<◌, ◌≤◌, length, false, IfOk};
ghost use Rattle.bgp_wire.specs.Faults.{Gives};
ghost use Rattle.bgp_wire.specs.Updates.{fields_at, fields_of, has_wrong_length, header_at, is_marked};

use crate::notice::{FaultKind, Refusal, refused};
use crate::numbers::number_at;
use std::alloc::Global;

pub(crate) const OPEN: u8 = 1;

pub(crate) const UPDATE: u8 = 2;

pub(crate) const NOTIFICATION: u8 = 3;

pub(crate) const KEEPALIVE: u8 = 4;

/// RFC 2918, section 3.
pub(crate) const ROUTE_REFRESH: u8 = 5;

/// The longest message, in octets.
pub(crate) const LONGEST: usize = 4096;

/// Whether the first 16 octets are all ones.
fn is_marked(bytes: &[u8]) -> bool
    requires { 16 ≤ length bytes.now }
    ensures { result ≡ is_marked bytes.now }
{
    bytes[..16].iter().all(|octet| *octet == 255)
}

/// Whether a message of a type has fewer octets than it must, or of a KEEPALIVE or a ROUTE-REFRESH any more.
fn has_wrong_length(kind: u8, size: usize) -> bool
    ensures value { result ≡ has_wrong_length kind size }
    ensures update { result ≡ false → kind ≡ 2 → 23 ≤ size }
    ensures refresh { result ≡ false → kind ≡ 5 → 23 ≤ size }
{
    if kind == OPEN {
        size < 29
    } else if kind == UPDATE {
        size < 23
    } else if kind == NOTIFICATION {
        size < 21
    } else if kind == KEEPALIVE {
        size != 19
    } else {
        size != 23
    }
}

/// The type of a message whose header has no fault (RFC 4271, section 6.1; RFC 2918, section 3).
#[tactic(auto, unfolding(crate::specs::Updates::header_at))]
pub(crate) fn read_header(alloc: Global, bytes: &[u8]) -> Result<u8, Refusal>
    ensures gives { Gives (λ kind. kind) result (header_at bytes.now) }
    ensures kinds { IfOk result (λ kind. (0 < kind) × (kind < 6)) }
    ensures update { IfOk result (λ kind. kind ≡ 2 → 23 ≤ length bytes.now) }
    ensures refresh { IfOk result (λ kind. kind ≡ 5 → 23 ≤ length bytes.now) }
{
    if bytes.len() < 19 {
        return Err(refused(alloc, FaultKind::BadMessageLength, &[]));
    }
    if !is_marked(bytes) {
        return Err(refused(alloc, FaultKind::NotSynchronized, &[]));
    }
    let size = number_at(bytes, 16);
    if size < 19 || size > LONGEST || size != bytes.len() {
        return Err(refused(alloc, FaultKind::BadMessageLength, &bytes[16..18]));
    }
    let kind = bytes[18];
    if kind < OPEN || kind > ROUTE_REFRESH {
        return Err(refused(alloc, FaultKind::BadMessageType, &bytes[18..19]));
    }
    if has_wrong_length(kind, bytes.len()) {
        return Err(refused(alloc, FaultKind::BadMessageLength, &bytes[16..18]));
    }
    Ok(kind)
}

/// The three fields of an UPDATE (RFC 4271, section 4.3).
#[derive(Clone, Copy)]
pub(crate) struct UpdateFields<'a> {
    pub(crate) withdrawn: &'a [u8],
    pub(crate) attributes: &'a [u8],
    pub(crate) announced: &'a [u8],
}

#[tactic(auto, unfolding(crate::specs::Updates::fields_at))]
pub(crate) fn read_fields(alloc: Global, bytes: &[u8]) -> Result<UpdateFields<'_>, Refusal>
    requires { 23 ≤ length bytes.now }
    ensures { Gives fields_of result (fields_at bytes.now) }
{
    let withdrawn_size = number_at(bytes, 19);
    if bytes.len() < withdrawn_size + 23 {
        return Err(refused(alloc, FaultKind::MalformedAttributes, &[]));
    }
    let attributes_size = number_at(bytes, 21 + withdrawn_size);
    if bytes.len() < withdrawn_size + attributes_size + 23 {
        return Err(refused(alloc, FaultKind::MalformedAttributes, &[]));
    }
    Ok(UpdateFields {
        withdrawn: &bytes[21..21 + withdrawn_size],
        attributes: &bytes[23 + withdrawn_size..23 + withdrawn_size + attributes_size],
        announced: &bytes[23 + withdrawn_size + attributes_size..],
    })
}
