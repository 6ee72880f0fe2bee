//! Why no further try is begun.

/// Why no further try is begun.
#[derive(Clone, Copy, Debug, PartialEq, Eq)]
pub enum Stop {
    /// A record could not be written or synced.
    WriteFailed,
    /// Memory was wanting for a record.
    OutOfMemory,
    /// As many tries have failed as were allowed.
    EnoughFailed,
}
