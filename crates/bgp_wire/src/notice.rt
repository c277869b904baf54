//! Faults.

ghost use Rattle.std.specs.Prelude.{◌≡◌};
ghost use Rattle.bgp_wire.specs.declared.notice.Refusal.TheVariants.{Memory};
ghost use Rattle.bgp_wire.specs.Faults.{Refuses, notice, code_of, subcode_of};

use addr4;
use bgp_attr::Octets;
use std::alloc::{AllocError, AllocFailed, Global};

/// A fault, as the NOTIFICATION that answers it (RFC 4271, section 4.5).
#[derive(Drop)]
pub struct Notice {
    pub code: u8,
    pub subcode: u8,
    /// The data field.
    pub octets: Octets,
}

/// The faults of messages (RFC 4271, sections 6.1 and 6.3).
#[derive(Clone, Copy)]
pub(crate) enum FaultKind {
    NotSynchronized,
    BadMessageLength,
    BadMessageType,
    MalformedAttributes,
    UnrecognizedWellKnown,
    MissingWellKnown,
    BadFlags,
    BadLength,
    BadOrigin,
    BadNextHop,
    /// Of the value of MP_REACH_NLRI or MP_UNREACH_NLRI.
    BadOptional,
    BadNetwork,
    MalformedPath,
}

impl FaultKind {
    ghost use Rattle.bgp_wire.specs.Faults.{code_of, subcode_of};

    fn code(self) -> u8
        ensures { result ≡ code_of self }
    {
        match self {
            FaultKind::NotSynchronized | FaultKind::BadMessageLength | FaultKind::BadMessageType =>
                1,
            _ => 3,
        }
    }

    fn subcode(self) -> u8
        ensures { result ≡ subcode_of self }
    {
        match self {
            FaultKind::NotSynchronized | FaultKind::MalformedAttributes => 1,
            FaultKind::BadMessageLength | FaultKind::UnrecognizedWellKnown => 2,
            FaultKind::BadMessageType | FaultKind::MissingWellKnown => 3,
            FaultKind::BadFlags => 4,
            FaultKind::BadLength => 5,
            FaultKind::BadOrigin => 6,
            FaultKind::BadNextHop => 8,
            FaultKind::BadOptional => 9,
            FaultKind::BadNetwork => 10,
            FaultKind::MalformedPath => 11,
        }
    }
}

/// Why octets aren't read.
#[derive(Drop)]
pub(crate) enum Refusal {
    Memory,
    Fault(Notice),
}

impl From<AllocError> for Refusal {
    ghost from_gives = { λ _ refusal. refusal ≡ Memory };

    fn from(_error: AllocError) -> Refusal {
        Refusal::Memory
    }
}

impl<T: Drop> From<AllocFailed<T>> for Refusal {
    ghost from_gives = { λ _ refusal. refusal ≡ Memory };

    fn from(_error: AllocFailed<T>) -> Refusal {
        Refusal::Memory
    }
}

impl From<addr4::Memory> for Refusal {
    ghost from_gives = { λ _ refusal. refusal ≡ Memory };

    fn from(_error: addr4::Memory) -> Refusal {
        Refusal::Memory
    }
}

/// A fault with data.
pub(crate) fn refused(alloc: Global, kind: FaultKind, octets: &[u8]) -> Refusal
    ensures { Refuses result (notice (code_of kind) (subcode_of kind) octets.now) }
{
    match Vec::from_slice(alloc, octets) {
        Ok(octets) => Refusal::Fault(Notice {
            code: kind.code(),
            subcode: kind.subcode(),
            octets: Octets::from_vec(octets),
        }),
        Err(_) => Refusal::Memory,
    }
}
