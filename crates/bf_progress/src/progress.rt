//! What tells how far a backfill is.

use crate::begun::Begun;
use crate::board::Board;
use crate::counts::{Counts, line_of_counts, terminal_line_of_counts};
use crate::delayed::Delayed;
use crate::due::{Due, seconds_between};
use crate::longest::{delayed_line, longest_line};
use crate::screen::{Screen, tell_line};
use bf_core::{Core, Event};
use bf_failure::context_of;
use bf_interval::Runs;
use bf_plan::Plan;
use bf_value::OutOfMemory;
use std::alloc::Global;
use std::sync::atomic::{AtomicBool, Ordering};
use std::sync::{Mutex, Wait};
use std::thread::Parker;
use std::time::{Clock, Duration};

/// How many seconds pass between two looks at what is due.
const PAUSE: u64 = 1;

/// How many seconds a day has.
const DAY: u64 = 86_400;

/// The progress of a backfill, noted by the thread that runs it and shown by another. Contracts don't say what is noted
/// or shown.
#[derive(Drop)]
pub struct Progress<'a, RT> {
    rt: &'a RT,
    alloc: Global,
    plan: &'a Plan,
    runs: &'a Runs,
    board: Mutex<Board>,
    has_ended: AtomicBool,
    /// Wakes the showing thread when the backfill has ended.
    bell: Parker,
}

impl<'a, RT: Screen + Wait + Clock> Progress<'a, RT> {
    /// Makes the progress of a backfill of this plan and runs that begins now, before its first event. No contract
    /// covers this.
    pub fn new(rt: &'a RT, alloc: Global, plan: &'a Plan, runs: &'a Runs) -> Progress<'a, RT> {
        let counts = Counts::new(runs.count(), plan.dag().tasks.len());
        let now = rt.monotonic().unwrap_or(Duration::ZERO);
        Progress {
            rt,
            alloc,
            plan,
            runs,
            board: Mutex::new(Board::new(alloc, counts, now)),
            has_ended: AtomicBool::new(false),
            bell: Parker::new(),
        }
    }

    /// Gives the present moment by the runtime's monotonic clock; zero where the clock doesn't answer. No contract
    /// covers this.
    fn now(&self) -> Duration {
        self.rt.monotonic().unwrap_or(Duration::ZERO)
    }

    /// Notes an event, after which `running` tries run; `core` has taken the event in already. Shows nothing itself.
    pub fn note_event(&self, event: &Event, core: &Core<'_>, running: u32) {
        let now = self.now();
        let mut board = self.board.lock(self.rt);
        board.note_event(event, core, running, now);
    }

    /// Shows what is due, once a second, until `stop_telling` is called.
    pub fn tell_until_ended(&self) {
        for _ in self.rt.forever() {
            self.bell.park_timeout(self.rt, Duration::from_secs(PAUSE));
            if self.has_ended.load(Ordering::SeqCst) {
                return;
            }
            self.tell_due();
        }
    }

    /// Lets `tell_until_ended` return: the backfill has ended, or was stopped.
    pub fn stop_telling(&self) {
        self.has_ended.store(true, Ordering::SeqCst);
        self.bell.unpark();
    }

    /// Shows the counts a last time, on a line of their own and with no try running: where the backfill was stopped,
    /// nothing noted the ends of its last tries.
    pub fn show_last(&self) {
        let counts = Counts {
            running: 0,
            ..self.counts()
        };
        self.show(line_of_counts(self.alloc, &counts));
    }

    /// Gives the counts as they are now, once it has the lock of the board.
    fn counts(&self) -> Counts {
        let board = self.board.lock(self.rt);
        board.counts
    }

    /// Gives what is due at `now`, notes it as shown, and gives the counts with it. `keeps_line` where a terminal keeps
    /// the line of the counts.
    fn take_due(&self, now: Duration, keeps_line: bool) -> (Due, Counts) {
        let mut board = self.board.lock(self.rt);
        board.forget_delays(now);
        let due = board.due(now, keeps_line);
        board.note_told(due, now);
        (due, board.counts)
    }

    /// Shows what is due now. The lock of the board isn't held while it is written.
    fn tell_due(&self) {
        let now = self.now();
        let keeps_line = self.rt.is_terminal();
        match self.take_due(now, keeps_line) {
            (Due::Nothing, _) => {}
            (Due::Counts, counts) if keeps_line => self.show(terminal_line_of_counts(
                self.alloc, &counts,
            )),
            (Due::Counts, counts) => self.show(line_of_counts(self.alloc, &counts)),
            (Due::Longest(begun), _) => self.tell_longest(&begun, now),
            (Due::Delayed(delayed), _) => self.tell_delayed(&delayed, now),
        }
    }

    /// Shows a line; does nothing where memory was wanting for it.
    fn show(&self, line: Result<String, OutOfMemory>) {
        if let Ok(line) = line {
            tell_line(self.rt, self.alloc, line.as_str());
        }
    }

    /// Shows how long `begun`, the longest running try, has run at `now`; does nothing where the plan has no such task
    /// or run.
    fn tell_longest(&self, begun: &Begun, now: Duration) {
        let Some(context) = context_of(self.plan, self.runs, begun.name) else {
            return;
        };
        let seconds = seconds_between(begun.at, now);
        self.show(longest_line(self.alloc, seconds, &context));
    }

    /// Shows until when `delayed`, which at `now` has waited longest, waits, by the wall clock; does nothing where that
    /// can't be read, or the plan has no such task or run.
    fn tell_delayed(&self, delayed: &Delayed, now: Duration) {
        let Some(context) = context_of(self.plan, self.runs, delayed.name) else {
            return;
        };
        let Ok(present) = self.rt.since_1970() else {
            return;
        };
        let until = present.saturating_add(delayed.until.saturating_sub(now));
        self.show(delayed_line(self.alloc, until.as_secs() % DAY, &context));
    }
}
