//! What is done to put a new file in the place of another.
use bf_value::{Sequence, Text};

/// A call on a new file that succeeded.
#[derive(Drop)]
pub enum Call {
    /// These bytes were written behind what the file held.
    Wrote(Sequence<u8>),
    /// All that was written is on the disk.
    Synced,
    /// The file took the place of the one at its path.
    Renamed,
}

/// A path that a new file was put at, or is left at under its own name, and all calls made on that file; of one that was
/// put there the rename is the last.
#[derive(Drop)]
pub struct Placed {
    pub path: Text,
    pub calls: Sequence<Call>,
}
