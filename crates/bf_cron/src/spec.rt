//! Schedules, and why a text is none.
ghost use Rattle.std.specs.Prelude.{◌≡◌};
ghost use Rattle.bf_cron.specs.declared.spec.CronFault.TheVariants.{OutOfMemory};

use std::alloc::AllocError;
use thiserror::Error;

/// A schedule. Each word is the set of a field's numbers: bit 5 of `hours` is set where the schedule has the hour 5.
/// `any_day` and `any_weekday` are true where the text of that field is exactly `*`.
#[derive(Clone, Copy, Debug, PartialEq, Eq)]
pub struct CronSpec {
    pub minutes: u64,
    pub hours: u64,
    pub days: u64,
    pub months: u64,
    pub weekdays: u64,
    pub any_day: bool,
    pub any_weekday: bool,
}

/// Why a text could not be read as a schedule.
#[derive(Clone, Copy, Debug, PartialEq, Eq, Error)]
pub enum CronFault {
    #[error("bad cron")]
    Bad,
    #[error("out of memory")]
    OutOfMemory,
}

impl From<AllocError> for CronFault {
    ghost from_gives = { λ _ e. e ≡ OutOfMemory };

    /// Gives `OutOfMemory`.
    fn from(_e: AllocError) -> CronFault {
        CronFault::OutOfMemory
    }
}
