//! How a run of `mrt` ends.

/// How a run of `mrt` ended.
#[derive(Clone, Copy, Debug, PartialEq, Eq)]
pub enum Ending {
    /// All records were read, and their whole text was written.
    Done,
    /// The file is refused at a record. The lines of those before it were written, and the line that says so.
    Refused,
    /// A read failed. The lines of the whole records that were read were written.
    ReadFault,
    /// A write failed.
    WriteFault,
    /// There was no memory. The lines of some first records were written.
    Memory,
}
