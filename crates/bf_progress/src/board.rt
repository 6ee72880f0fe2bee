//! What is known of a backfill while it runs.
ghost use Rattle.std.specs.Prelude.{◌≡◌, [], OnErr, OnOk, false, filter};
ghost use Rattle.bf_progress.specs.inner.Delays.{AreDelayedAfter, waits_at};
ghost use Rattle.bf_progress.specs.inner.Due.{IsNoted, IsRunningAfter, due_of, is_line_due_in, is_minute_over_in, running_after, shown_of};

use crate::begun::{Begun, push_begun, remove_ended};
use crate::counts::Counts;
use crate::delayed::{Delayed, delayed_by, push_delayed, remove_over};
use crate::due::{Due, seconds_between};
use bf_core::{Core, Event};
use bf_value::OutOfMemory;
use std::alloc::Global;
use std::time::Duration;

/// How many seconds pass without an event before the try that runs or waits longest is shown, and before it is shown
/// again.
const MINUTE: u64 = 60;

/// The state of the progress display: the counts, the tries that run or wait for their delay, and when each was shown
/// last. All times are by the monotonic clock.
#[derive(Drop)]
pub(crate) struct Board {
    pub(crate) counts: Counts,
    /// In the order in which they began.
    pub(crate) running: Vec<Begun>,
    /// In the order in which they began to wait.
    pub(crate) delayed: Vec<Delayed>,
    /// Whether an event has come since the counts were shown.
    pub(crate) has_changed: bool,
    /// When the counts were shown last; before that, when the backfill began.
    pub(crate) shown: Duration,
    /// When an event came last; before that, when the backfill began.
    pub(crate) changed: Duration,
    /// How many whole minutes after `changed` the try that runs or waits longest was shown last; 0 where none was.
    pub(crate) minutes: u64,
}

impl Board {
    /// Makes the board of a backfill that begins at `now`, before its first event.
    pub(crate) fn new(alloc: Global, counts: Counts, now: Duration) -> Board
        ensures running { result.running.items ≡ [] }
        ensures delayed { result.delayed.items ≡ [] }
        ensures moments { (result.shown ≡ now) × (result.changed ≡ now) × (result.minutes ≡ 0) }
        ensures shown { (result.counts ≡ counts) × (result.has_changed ≡ false) }
    {
        Board {
            counts,
            running: Vec::new(alloc),
            delayed: Vec::new(alloc),
            has_changed: false,
            shown: now,
            changed: now,
            minutes: 0,
        }
    }

    /// Adds a try that begins at `now` to the running ones, or removes one that ends; does nothing for other events. At
    /// want of memory the running tries stay as they were.
    fn note_try(&mut self, event: &Event, now: Duration) -> Result<(), OutOfMemory>
        ensures ok { OnOk result (self.new.running.items
            ≡ running_after event.now now self.old.running.items) }
        ensures err { OnErr result (self.new.running.items ≡ self.old.running.items) }
        ensures same { self.new ≡ record self.old { running = self.new.running } }
    {
        match event {
            Event::Begin(name) => push_begun(
                &mut self.running,
                Begun {
                    name: *name,
                    at: now,
                },
            ),
            Event::End(name, _) => {
                remove_ended(&mut self.running, *name);
                Ok(())
            }
            _ => Ok(()),
        }
    }

    /// Adds the try that waits for its delay from `now` on by this event, if one does. At want of memory those that
    /// wait stay as they were.
    fn note_delay(
        &mut self,
        event: &Event,
        core: &Core<'_>,
        now: Duration,
    ) -> Result<(), OutOfMemory>
        ensures delayed { AreDelayedAfter event.now core.now.dag core.now.limits now
            self.old.delayed.items self.new.delayed.items }
        ensures same { self.new ≡ record self.old { delayed = self.new.delayed } }
    {
        match delayed_by(event, core, now) {
            Some(delayed) => push_delayed(&mut self.delayed, delayed),
            None => Ok(()),
        }
    }

    /// Forgets the tries whose delay is over at `now`.
    pub(crate) fn forget_delays(&mut self, now: Duration)
        ensures waiting { self.new.delayed.items ≡ filter (waits_at now) self.old.delayed.items }
        ensures same { self.new ≡ record self.old { delayed = self.new.delayed } }
    {
        remove_over(&mut self.delayed, now);
    }

    /// Notes an event that came at `now`, after which `running` tries run. Ignores ticks. At want of memory a try that
    /// begins or waits isn't noted, though it is counted.
    pub(crate) fn note_event(&mut self, event: &Event, core: &Core<'_>, running: u32, now: Duration)
        ensures running { IsRunningAfter event.now now self.old.running.items
            self.new.running.items }
        ensures delayed { AreDelayedAfter event.now core.now.dag core.now.limits now
            self.old.delayed.items self.new.delayed.items }
        ensures noted { IsNoted event.now running now self.old self.new }
    {
        if let Event::Tick { .. } = event {
            return;
        }
        self.counts.note_event(event, core);
        self.counts.running = running;
        let _ = self.note_try(event, now);
        let _ = self.note_delay(event, core, now);
        self.has_changed = true;
        self.changed = now;
        self.minutes = 0;
    }

    /// Answers whether at `now` more whole minutes have passed since the last event than when the try that runs or
    /// waits longest was last shown.
    fn is_minute_over(&self, now: Duration) -> bool
        ensures { result ≡ is_minute_over_in self.now now }
    {
        self.minutes < seconds_between(self.changed, now) / MINUTE
    }

    /// Answers whether the counts are due at `now`: at least a second has passed since they were shown, and an event
    /// has come since, or a terminal keeps their line (`keeps_line`), which other lines may have overwritten.
    fn is_line_due(&self, now: Duration, keeps_line: bool) -> bool
        ensures { result ≡ is_line_due_in self.now now keeps_line }
    {
        (self.has_changed || keeps_line) && 0 < seconds_between(self.shown, now)
    }

    /// Gives what is due at `now`; the try that runs longest, or where none runs the one that has waited longest, comes
    /// before the counts. `keeps_line` where a terminal keeps the line of the counts.
    pub(crate) fn due(&self, now: Duration, keeps_line: bool) -> Due
        ensures { result ≡ due_of self.now now keeps_line }
    {
        match (self.running.first(), self.delayed.first()) {
            (Some(begun), _) if self.is_minute_over(now) => Due::Longest(*begun),
            (None, Some(delayed)) if self.is_minute_over(now) => Due::Delayed(*delayed),
            _ if self.is_line_due(now, keeps_line) => Due::Counts,
            _ => Due::Nothing,
        }
    }

    /// Notes that `due` was shown at `now`.
    pub(crate) fn note_told(&mut self, due: Due, now: Duration)
        ensures { self.new ≡ shown_of self.old due now }
    {
        match due {
            Due::Nothing => {}
            Due::Counts => {
                self.has_changed = false;
                self.shown = now;
            }
            Due::Longest(_) | Due::Delayed(_) => self.minutes = seconds_between(self.changed, now)
                / MINUTE,
        }
    }
}
