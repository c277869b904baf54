//! What is answered where the next record is asked for.

ghost use Rattle.std.specs.Prelude.{◌≡◌};
ghost use Rattle.mrt_reader.specs.declared.answer.Stop.TheVariants.{Memory};

use addr4;
use std::alloc::{AllocError, AllocFailed};

/// Why a file is refused at a record.
#[derive(Clone, Copy, Debug, PartialEq, Eq)]
pub enum Code {
    /// The input ends within the record.
    M1,
    /// Its fields run beyond its length, or octets are left behind a state change.
    M2,
    /// It is one more than a file may have, which are 1,000,000,000.
    M3,
}

/// What came next.
#[derive(Clone, Copy, Debug, PartialEq, Eq)]
pub enum Next {
    /// A record, which may give no line.
    Record,
    /// The end of the file.
    End,
    /// A record with this number, from 1, at which the file is refused.
    Refused(u32, Code),
}

/// Why nothing is known of the next record.
#[derive(Clone, Copy, Debug, PartialEq, Eq)]
pub enum Stop {
    /// A read failed.
    ReadFault,
    /// There was no memory.
    Memory,
}

impl From<addr4::Memory> for Stop {
    ghost from_gives = { λ _ stop. stop ≡ Memory };

    fn from(_error: addr4::Memory) -> Stop {
        Stop::Memory
    }
}

impl From<AllocError> for Stop {
    ghost from_gives = { λ _ stop. stop ≡ Memory };

    fn from(_error: AllocError) -> Stop {
        Stop::Memory
    }
}

impl<T: Drop> From<AllocFailed<T>> for Stop {
    ghost from_gives = { λ _ stop. stop ≡ Memory };

    fn from(_error: AllocFailed<T>) -> Stop {
        Stop::Memory
    }
}
