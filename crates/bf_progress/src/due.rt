//! What is to be told at a moment.
ghost use Rattle.std.specs.Prelude.{◌≡◌};
ghost use Rattle.bf_progress.specs.inner.Due.{seconds_between_of};

use crate::begun::Begun;
use crate::delayed::Delayed;
use std::time::Duration;

/// What is to be shown.
#[derive(Clone, Copy, Debug, Drop)]
pub(crate) enum Due {
    Nothing,
    /// How far the backfill is.
    Counts,
    /// The running try that began first.
    Longest(Begun),
    /// The try that has waited longest for its delay, where none runs.
    Delayed(Delayed),
}

/// Gives the whole seconds from one moment to another; 0 where the other is earlier.
pub(crate) fn seconds_between(from: Duration, to: Duration) -> u64
    ensures { result ≡ seconds_between_of from to }
{
    to.saturating_sub(from).as_secs()
}
