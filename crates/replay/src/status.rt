//! How the program ends.

/// How the program ends.
#[derive(Clone, Copy, Debug, PartialEq, Eq)]
pub enum Status {
    /// The input was read to its end, and all output was written.
    Ok,
    /// The journal breaks a rule, and the line that says so was written.
    Broken,
    /// The words are no command, and the usage line was written.
    Usage,
    /// A line was refused, and the line that says so was written.
    Refused,
    /// A read failed.
    ReadFault,
    /// A write failed.
    WriteFault,
    /// There was no memory. Nothing more was written.
    Memory,
}
