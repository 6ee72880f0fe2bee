//! A runner that records.
ghost use Rattle.std.specs.Prelude.{◌≡◌, ◌<◌, length, IfOk, IfSome, string_bytes};
ghost use Rattle.bf_journal.specs.Recording.{IsWritten, MayRecord, is_write_failed};

use crate::durable::Durable;
use crate::journaled::Journaled;
use crate::record::record_of;
use crate::recorder::Recorder;
use crate::stamp::{Stamp, milliseconds_since_1970};
use crate::stop::Stop;
use bf_failure::{Detail, DetailedRunner};
use bf_interval::Runs;
use bf_plan::Plan;
use bf_try::{Done, Outcome, RunnerFault, TaskRunner, Ticket, grade};
use bf_value::OutOfMemory;
use std::alloc::Global;
use std::marker::Model;
use std::sync::{Mutex, Wait};
use std::time::{Clock, Duration};

/// A runner that hands each try on to another runner and records how it ended. It gives up all further tries once a
/// record can't be written, memory is wanting for one, or enough tries have failed; tries that already run are still
/// recorded.
#[derive(Drop)]
pub struct Recording<'a, K: Journaled, RT, R: DetailedRunner, D: Durable + Drop> {
    rt: &'a RT,
    alloc: Global,
    plan: &'a Plan,
    runs: &'a Runs,
    runner: &'a R,
    recorder: Mutex<Recorder<K, D>>,
}

impl<'a, K: Journaled, RT, R: DetailedRunner, D: Durable + Drop> Model
    for Recording<'a, K, RT, R, D> {
    ghost use Rattle.std.specs.Coded.{codes};
    ghost use Rattle.bf_plan.specs.contracts.plan.Dag;
    ghost use Rattle.bf_interval.specs.contracts.interval.Interval;
    ghost use Rattle.bf_journal.specs.Recording.{MayRecord, RecordingOf};

    ghost Value = { RecordingOf R };

    ghost coded = { Prim.hlevel (codes, Dag.the_row.coded, Interval.the_row.coded) };

    ghost view = { λ s. record {
      runner = s.runner.now;
      dag = s.plan.now.dag;
      intervals = s.runs.now;
    } };

    ghost invariant = { λ s. MayRecord K.may_record
        (R.may_answer s.runner.now) s.plan.now.dag s.runs.now };
}

/// The line of a try's record, None where it can have none, and whether the try failed.
#[derive(Drop)]
struct GradedRecord {
    has_failed: bool,
    line: Option<String>,
}

impl<'a, K, RT, R, D> Recording<'a, K, RT, R, D>
where
    K: Journaled,
    RT: Wait + Clock,
    R: DetailedRunner,
    D: Durable + Drop,
{
    /// Makes a runner that makes each try by `runner` and records how it ended by `recorder`.
    pub fn new(
        rt: &'a RT,
        alloc: Global,
        plan: &'a Plan,
        runs: &'a Runs,
        runner: &'a R,
        recorder: Recorder<K, D>,
    ) -> Self
        requires { MayRecord K.may_record (R.may_answer runner.now) plan.now.dag runs.now }
        ensures { result ≡ record {
          runner = runner.entry.now;
          dag = plan.entry.now.dag;
          intervals = runs.entry.now;
        } }
    {
        Recording {
            rt,
            alloc,
            plan,
            runs,
            runner,
            recorder: Mutex::new(recorder),
        }
    }

    /// Gives the present moment by the monotonic clock, for the recorder's syncs; zero where the clock doesn't answer.
    /// No contract covers this.
    fn now(&self) -> Duration {
        self.rt.monotonic().unwrap_or(Duration::ZERO)
    }

    /// Makes the line of an answered try's record, None where it can have none, and says whether the try failed.
    /// Contracts say only that the line may be recorded.
    fn graded_record_of(&self, done: &Done, stamp: Stamp) -> Result<GradedRecord, OutOfMemory>
        requires may { R.may_answer self.now.runner done.now.name done.now.given done.now.raw }
        requires task { done.now.name.task < length self.now.dag.tasks }
        ensures { IfOk result (λ r. IfSome r.line (λ line. K.may_record (string_bytes line))) }
    {
        let outcome = grade(self.alloc, self.plan, done.name().task, done.raw())?;
        let line = record_of(self.alloc, self.plan, self.runs, done, &outcome, stamp)?;
        let has_failed = matches!(&outcome, Outcome::Failed);
        Ok(GradedRecord { has_failed, line })
    }

    /// Writes the record of an answered try, and counts the try where it failed; does nothing for a task that the plan
    /// doesn't have. Contracts don't say what is written, since the recorder is behind a lock.
    fn record(&self, done: &Done, stamp: Stamp) -> Result<(), OutOfMemory>
        requires { R.may_answer self.now.runner done.now.name done.now.given done.now.raw }
    {
        if done.name().task as usize >= self.plan.dag().tasks.len() {
            return Ok(());
        }
        let recordable = self.graded_record_of(done, stamp)?;
        let now = self.now();
        let mut recorder = self.recorder.lock(self.rt);
        if let Some(line) = &recordable.line {
            recorder.record(line.as_bytes(), now);
        }
        if recordable.has_failed {
            recorder.count_failed();
        }
        Ok(())
    }

    /// Notes in the recorder that memory was wanting for a record. No contract covers this: the recorder is behind a
    /// lock.
    fn note_memory_failure(&self) {
        let mut recorder = self.recorder.lock(self.rt);
        recorder.note_memory_failure();
    }

    /// Gives the reason why no further try is to begin; None while tries may begin. No contract covers this: the
    /// recorder is behind a lock.
    pub fn stop_reason(&self) -> Option<Stop> {
        let recorder = self.recorder.lock(self.rt);
        recorder.stop_reason()
    }

    /// Syncs the device and gives it back with the reason why no further try was to begin; None where tries might still
    /// have begun.
    pub fn close(self) -> (D, Option<Stop>)
        ensures { IsWritten K.may_record K.base (D.written result.0) (is_write_failed result.1) }
    {
        let Recording {
            rt: _,
            alloc: _,
            plan: _,
            runs: _,
            runner: _,
            recorder,
        } = self;
        recorder.into_inner().close()
    }
}

/// Gives the number of the signal that ended a try's program; None where no detail names one. No contract covers this.
fn signal_in(detail: Option<&Detail>) -> Option<i32> {
    match detail {
        Some(Detail::Signal(number)) => Some(*number),
        Some(Detail::NotStarted(_)) | None => None,
    }
}

impl<'a, K, RT, R, D> TaskRunner for Recording<'a, K, RT, R, D>
where
    K: Journaled,
    RT: Wait + Clock,
    R: DetailedRunner,
    D: Durable + Drop,
{
    ghost may_answer = { λ s n g raw. R.may_answer s.runner n g raw };

    ghost may_give_up = { λ s n g. Unit {0} };

    /// Makes a try by the inner runner and records how it ended. `GaveUp`, without making the try, once no further try
    /// is to begin; other faults are the inner runner's.
    fn run(&self, ticket: Ticket) -> Result<Done, (Ticket, RunnerFault)> {
        if self.stop_reason().is_some() {
            return Err((ticket, RunnerFault::GaveUp));
        }
        let start = milliseconds_since_1970(self.rt);
        let (done, detail) = self.runner.run_in_detail(ticket)?;
        let stamp = Stamp {
            start,
            end: milliseconds_since_1970(self.rt),
            signal: signal_in(detail.as_ref()),
        };
        if self.record(&done, stamp).is_err() {
            self.note_memory_failure();
        }
        Ok(done)
    }
}
