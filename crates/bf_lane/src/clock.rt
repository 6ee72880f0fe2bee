//! The time until which an answer is waited for.
ghost use Rattle.std.specs.Prelude.{◌≡◌, pos};

use std::io;
use std::marker::Model;
use std::sync::Wait;
use std::thread::Parker;
use std::time::{Clock, Duration, Instant};

/// A clock. Moments are whole seconds since it began. Contracts see its last answer, and that it never runs backwards.
pub trait TimeSource {
    ghost use Rattle.std.specs.Prelude.{◌≡◌, ◌≤ℤ◌, ℤ};

    /// What `now` answered last.
    ghost last: { Self → ℤ };

    /// The present moment, in whole seconds since the clock began. Contracts see the last answer that was given, and
    /// that none is earlier than the one before it.
    fn now(&mut self) -> i64
        ensures told { last self.new ≡ result }
        ensures onward { last self.old ≤ℤ result };

    /// Sleeps until `sleep` is woken, or until the moment `until`, in seconds since the clock began. It may
    /// wake sooner.
    fn pause<W: Wait>(&mut self, rt: &W, sleep: &Parker, until: i64);
}

/// The machine's monotonic clock, which nobody sets. It begins where it is first read; where it can't be read, it tells
/// what it told before, at first 0.
#[derive(Drop)]
pub struct MachineClock<'c, C> {
    clock: &'c C,
    start: Option<Instant>,
    told: i64,
}

impl<'c, C: Clock> MachineClock<'c, C> {
    /// A clock that reads the machine's, which is borrowed, and begins now. No clause says what its last answer is
    /// before the first.
    pub fn new(clock: &'c C) -> MachineClock<'c, C> {
        MachineClock {
            clock,
            start: Instant::now(clock).ok(),
            told: 0,
        }
    }

    /// How long the clock has run; where it hasn't begun, it begins now. `Err` where the machine's clock can't be read.
    fn passed(&mut self) -> io::Result<Duration>
        ensures { self.new.told ≡ self.old.told }
    {
        let now = Instant::now(self.clock)?;
        let start = self.start.unwrap_or(now);
        self.start = Some(start);
        Ok(now.duration_since(start))
    }
}

impl<'c, C: Clock> TimeSource for MachineClock<'c, C> {
    ghost last = { λ clock. clock.told };

    /// How many whole seconds the clock has run; where it can't be read, what was told before, at first 0.
    fn now(&mut self) -> i64 {
        if let Ok(passed) = self.passed() {
            let seconds = i64::try_from(passed.as_secs()).unwrap_or(i64::MAX);
            self.told = self.told.max(seconds);
        }
        self.told
    }

    /// Sleeps until `sleep` is woken or the clock comes to `until`, in seconds since it began. Where it can't be read,
    /// it is taken to show what was told last.
    fn pause<W: Wait>(&mut self, rt: &W, sleep: &Parker, until: i64) {
        let until = Duration::from_secs(u64::try_from(until).unwrap_or(0));
        let told = Duration::from_secs(u64::try_from(self.told).unwrap_or(0));
        let passed = self.passed().unwrap_or(told);
        sleep.park_timeout(rt, until.saturating_sub(passed));
    }
}

/// A clock that stands still, and jumps to each moment that is waited for. Contracts see what it shows.
#[derive(Clone, Copy, Debug, Drop)]
pub struct Jump {
    at: i64,
}

impl Model for Jump {
    ghost use Rattle.std.specs.Prelude.{ℤ};

    ghost Value = { ℤ };

    ghost view = { λ clock. clock.at };

    ghost inverse = { λ shown. record { at = shown } };
}

impl Jump {
    /// A clock that shows its beginning, the moment 0.
    pub fn new() -> Jump
        ensures { result ≡ pos 0 }
    {
        Jump { at: 0 }
    }
}

impl TimeSource for Jump {
    ghost last = { λ clock. clock };

    /// The moment that the clock shows, in seconds since it began.
    fn now(&mut self) -> i64
        ensures told { result ≡ self.old }
        ensures same { self.new ≡ self.old }
    {
        self.at
    }

    /// Doesn't sleep: the clock shows `until`, in seconds since it began, from now on.
    fn pause<W: Wait>(&mut self, _rt: &W, _sleep: &Parker, until: i64)
        ensures { self.new ≡ until }
    {
        self.at = until;
    }
}
