//! A clock for which nothing waits once no further try is begun.
use bf_failure::DetailedRunner;
use bf_journal::{Durable, Journaled, Recording};
use bf_lane::TimeSource;
use std::sync::Wait;
use std::thread::Parker;

/// Says whether further tries may begin.
pub(crate) trait Stops {
    /// Whether no further try may begin.
    fn has_stopped(&self) -> bool;
}

impl<'a, J, RT, R, D> Stops for Recording<'a, J, RT, R, D>
where
    J: Journaled,
    RT: Wait + std::time::Clock,
    R: DetailedRunner,
    D: Durable + Drop,
{
    /// Whether the recorder has a reason to begin no further try.
    fn has_stopped(&self) -> bool {
        self.stop_reason().is_some()
    }
}

/// Tells the inner clock's moments, and the last moment there is once no further try may begin. So a try that waits for
/// its retry delay is due, and is given up, at once.
#[derive(Drop)]
pub(crate) struct StoppingClock<'a, C: Drop, S> {
    pub(crate) clock: C,
    pub(crate) stops: &'a S,
    pub(crate) told: i64,
}

impl<'a, C: TimeSource + Drop, S: Stops> TimeSource for StoppingClock<'a, C, S> {
    ghost last = { λ clock. clock.told };

    /// The inner clock's present moment; `i64::MAX` once no further try may begin, so that no delay is waited for from
    /// then on.
    fn now(&mut self) -> i64 {
        let now = self.clock.now();
        let present = if self.stops.has_stopped() {
            i64::MAX
        } else {
            now
        };
        self.told = self.told.max(present);
        self.told
    }

    /// Pauses as the inner clock does, at most until the moment `until`.
    fn pause<W: Wait>(&mut self, rt: &W, sleep: &Parker, until: i64) {
        self.clock.pause(rt, sleep, until);
    }
}
