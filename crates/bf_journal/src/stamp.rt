//! What records are stamped with.
use std::time::Clock;

/// When a try started and ended, in milliseconds since 1970 by the machine's clock, and the number of the signal that
/// ended its program, if known. No outcome depends on it.
#[derive(Clone, Copy, Debug, PartialEq, Eq)]
pub struct Stamp {
    pub start: i64,
    pub end: i64,
    pub signal: Option<i32>,
}

/// Gives the milliseconds since 1970 by the machine's clock; 0 where the clock doesn't answer. No contract covers this.
pub(crate) fn milliseconds_since_1970<C: Clock>(clock: &C) -> i64 {
    match clock.since_1970() {
        Ok(passed) => i64::try_from(passed.as_millis()).unwrap_or(i64::MAX),
        Err(_) => 0,
    }
}
