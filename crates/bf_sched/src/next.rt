//! What the scheduler says.

use bf_try::Ticket;

/// What the scheduler did, or what it wants.
#[derive(Debug, Drop)]
pub enum Next {
    /// It let one event come that comes by itself.
    Stepped,
    /// This try has begun, and is to be run.
    Go(Ticket),
    /// Nothing can come before a running try ends, or the clock goes on.
    Wait,
    /// Nothing can come before this moment, in seconds since 1970.
    Until(i64),
    /// The backfill has ended.
    Ended,
}
