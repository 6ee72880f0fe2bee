//! Where the data intervals of runs start.

use bf_days::Days;
use jiff::Timestamp;

/// The first and the last moment at which a data interval may start, both included.
#[derive(Clone, Copy, Debug, PartialEq, Eq)]
pub struct MomentRange {
    pub from: Timestamp,
    pub to: Timestamp,
}

/// Where data intervals start: from a moment to another, both included, or on days of the graph's zone.
#[derive(Clone, Copy, Debug, PartialEq, Eq)]
pub enum Starts {
    Between(MomentRange),
    On(Days),
}

/// The range of a backfill: where the data intervals of its runs start, and whether a range without any is refused.
#[derive(Clone, Copy, Debug, PartialEq, Eq)]
pub struct RunRange {
    pub starts: Starts,
    pub some: bool,
}
