//! Data intervals.
use jiff::Timestamp;

/// A data interval, as Airflow has it. Its start is the run's logical date.
#[derive(Clone, Copy, Debug, PartialEq, Eq)]
pub struct Interval {
    pub start: Timestamp,
    pub end: Timestamp,
}
