//! Backfills whose tries are recorded.
ghost use Rattle.std.specs.Prelude.{◌≡◌, IfErr, IfOk, length};
ghost use Rattle.bf_kept.specs.Kept.{AreFit};
ghost use Rattle.bf_journal.specs.Recording.{IsRecordBy, IsWritten, MayRecord, is_write_failed};
ghost use Rattle.bf_process.specs.Words.{launching_of};
ghost use Rattle.bf_commands.specs.inner.Journaled.{IsStopRecordedOrWanting};
ghost use Rattle.bf_commands.specs.inner.OverTable.{IsUnsent};
ghost use Rattle.bf_commands.specs.inner.Reported.{IsEndFrom};

use crate::crew::Crew;
use crate::stop::stop_fault_of_recording;
use crate::stopping_clock::StoppingClock;
use bf_command_fault::CommandFault;
use bf_core::Ended;
use bf_failure::DetailedRunner;
use bf_interval::Runs;
use bf_journal::{Durable, Journaled, Recorder, Recording, Stop};
use bf_kept::{Keeping, KeptTries};
use bf_lane::TimeSource;
use bf_plan::Plan;
use bf_process::LogFaults;
use bf_progress::Screen;
use std::alloc::Global;
use std::marker::Brand;
use std::sync::Wait;
use std::thread::Threads;
use std::time::{Clock, Duration};

/// Where tries are recorded, and after how many failed ones no further try begins; None for any number.
#[derive(Drop)]
pub(crate) struct Record<D: Durable + Drop> {
    pub(crate) device: D,
    pub(crate) most_failed: Option<u32>,
}

/// How a backfill with a journal ended: its end, or why it stopped before; the journal's device; and why no further try
/// was begun, None where none was held back.
#[derive(Drop)]
pub(crate) struct RecordedEnd<'p, D: Durable + Drop> {
    pub(crate) ended: Result<Ended<'p>, CommandFault>,
    pub(crate) device: D,
    pub(crate) stop: Option<Stop>,
}

/// Makes a runner that makes tries by `runner` and records how they end. Its syncs are timed from now, or from zero
/// where the clock doesn't answer. The type `J` says which records are allowed.
fn recording_of<'a, J, RT, R, D>(
    rt: &'a RT,
    alloc: Global,
    plan: &'a Plan,
    runs: &'a Runs,
    runner: &'a R,
    record: Record<D>,
) -> Recording<'a, J, RT, R, D>
where
    J: Journaled,
    RT: Wait + Clock,
    R: DetailedRunner,
    D: Durable + Drop,
    requires base { J.base ≡ D.written record.device }
    requires may { MayRecord J.may_record (R.may_answer runner.now) plan.now.dag runs.now }
    ensures { result ≡ record {
      runner = runner.entry.now;
      dag = plan.entry.now.dag;
      intervals = runs.entry.now;
    } }
{
    let now = rt.monotonic().unwrap_or(Duration::ZERO);
    let recorder = Recorder::<J, D>::new(record.device, record.most_failed, now);
    Recording::new(rt, alloc, plan, runs, runner, recorder)
}

impl<'m, RT: Screen + Threads + Wait + Clock + Sync> Crew<'m, RT> {
    /// Runs a backfill to its end by the workers, and records each new try as it ends. `J` says which records are
    /// allowed; `log_faults` is None where no programs are started. `ended` is `Err` where tries are left when a record
    /// fails or too many failed, a thread can't be started, a try is given up, or memory runs out.
    fn resume_recorded_as<'p, J, K, R, D, C>(
        &self,
        plan: &'p Plan,
        runs: &Runs,
        keeping: &Keeping<'_, K, R>,
        record: Record<D>,
        clock: C,
        log_faults: Option<&LogFaults>,
    ) -> RecordedEnd<'p, D>
    where
        J: Journaled + Send + Sync,
        K: KeptTries + Sync,
        R: DetailedRunner + Sync,
        D: Durable + Drop + Send,
        C: TimeSource + Drop,
        requires fit { AreFit plan.now.dag (K.kept keeping.now.kept.now) }
        requires base { J.base ≡ D.written record.device }
        requires may { MayRecord J.may_record (R.may_answer keeping.now.runner.now) plan.now.dag
            runs.now }
        ensures end { IfOk result.ended
            (IsEndFrom (K.kept keeping.now.kept.now) (R.may_answer keeping.now.runner.now)
            plan.entry.now.dag plan.entry.now.limits (length runs.now) self.now.workers) }
        ensures stop { IfErr result.ended (IsStopRecordedOrWanting record.most_failed
            (K.kept keeping.now.kept.now) (launching_of self.now.launching).logs plan.entry.now.dag
            runs.now) }
        ensures unsent { IfErr result.ended IsUnsent }
        ensures written { IsWritten J.may_record J.base (D.written result.device)
            (is_write_failed result.stop) }
    {
        let most_failed = record.most_failed;
        let recording = recording_of::<J, RT, R, D>(
            self.rt,
            self.alloc,
            plan,
            runs,
            keeping.runner,
            record,
        );
        let kept = Keeping {
            alloc: self.alloc,
            kept: keeping.kept,
            runner: &recording,
            at_once: keeping.at_once,
        };
        let clock = StoppingClock {
            clock,
            stops: &recording,
            told: 0,
        };
        let ended = self.resume_by_workers(plan, runs, &kept, clock);
        let (device, stop) = recording.close();
        let ended = match ended {
            Ok(ended) => Ok(ended),
            Err(fault) => {
                let stopping = self.stopped_backfill(plan, runs, log_faults);
                Err(stop_fault_of_recording(&stopping, &fault, stop, most_failed))
            }
        };
        RecordedEnd {
            ended,
            device,
            stop,
        }
    }

    /// Runs a backfill to its end by the workers, and records each new try as it ends. Once a record fails or too many
    /// tries failed, none begins any more: `ended` is `Err` if one is left; also where a thread can't be started, a try
    /// is given up, or memory runs out. `log_faults` is None where no programs are started.
    pub(crate) fn resume_recorded<'p, K, R, D, C>(
        &self,
        plan: &'p Plan,
        runs: &Runs,
        keeping: &Keeping<'_, K, R>,
        record: Record<D>,
        clock: C,
        log_faults: Option<&LogFaults>,
    ) -> RecordedEnd<'p, D>
    where
        K: KeptTries + Sync,
        R: DetailedRunner + Sync,
        D: Durable + Drop + Send,
        C: TimeSource + Drop,
        requires { AreFit plan.now.dag (K.kept keeping.now.kept.now) }
        ensures end { IfOk result.ended
            (IsEndFrom (K.kept keeping.now.kept.now) (R.may_answer keeping.now.runner.now)
            plan.entry.now.dag plan.entry.now.limits (length runs.now) self.now.workers) }
        ensures stop { IfErr result.ended (IsStopRecordedOrWanting record.most_failed
            (K.kept keeping.now.kept.now) (launching_of self.now.launching).logs plan.entry.now.dag
            runs.now) }
        ensures unsent { IfErr result.ended IsUnsent }
        ensures written { IsWritten (IsRecordBy (R.may_answer keeping.now.runner.now)
            plan.entry.now.dag runs.now)
            (D.written record.device) (D.written result.device) (is_write_failed result.stop) }
    {
        self.resume_recorded_as::<Brand, K, R, D, C>(plan, runs, keeping, record, clock, log_faults)
    }
}
