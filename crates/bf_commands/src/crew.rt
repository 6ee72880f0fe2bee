//! What runs the tries of a backfill.
ghost use Rattle.std.specs.Prelude.{◌≡◌, IfNone, IfOk, IfErr, None, false, length};
ghost use Rattle.bf_exec.specs.Faults.{MayFail};
ghost use Rattle.bf_kept.specs.Kept.{AreFit, MayGiveUpAnew};
ghost use Rattle.bf_commands.specs.OverTable.{is_single_threaded_in};
ghost use Rattle.bf_commands.specs.inner.Reported.{IsEndFrom};

use crate::progress::Noting;
use crate::stop::StoppedBackfill;
use bf_core::{BackfillFault, Ended};
use bf_exec::{Observer, Silent, Watch, resume};
use bf_interval::Runs;
use bf_kept::{Keeping, KeptTries};
use bf_lane::TimeSource;
use bf_moment::Moment;
use bf_plan::Plan;
use bf_process::{Launching, LogFaults};
use bf_progress::{Progress, Screen};
use bf_try::TaskRunner;
use bf_workers::Workers;
use std::alloc::Global;
use std::sync::Wait;
use std::thread;
use std::thread::{Scope, Threads};
use std::time::Clock;

/// What is told on the screen without being asked for, besides the report: progress, and each try that fails.
#[derive(Clone, Copy, Debug, Drop)]
pub struct Tells {
    pub progress: bool,
    pub failures: bool,
}

/// What a backfill runs on: the machine and its memory, how many tries may run at once, how programs are launched,
/// whether `--progress` is given, and what else is told on the screen.
#[derive(Drop)]
pub struct Crew<'m, RT> {
    pub rt: &'m RT,
    pub alloc: Global,
    pub workers: Workers,
    pub progress: bool,
    pub tells: Tells,
    pub launching: Launching<'m>,
}

impl<'m, RT> Crew<'m, RT> {
    /// Makes a crew of so many workers, with progress where asked for; it tells nothing else, and has no launcher and
    /// no logs.
    pub fn new(rt: &'m RT, alloc: Global, workers: Workers, progress: bool) -> Crew<'m, RT>
        ensures machine { result.rt ≡ rt.entry }
        ensures workers { result.workers ≡ workers }
        ensures progress { result.progress ≡ progress }
        ensures silent { (result.tells.progress ≡ false) × (result.tells.failures ≡ false) }
        ensures bare { (result.launching.launcher ≡ None) × (result.launching.logs ≡ None) }
    {
        Crew {
            rt,
            alloc,
            workers,
            progress,
            tells: Tells {
                progress: false,
                failures: false,
            },
            launching: Launching {
                launcher: None,
                logs: None,
                clocks: &[],
            },
        }
    }

    /// Changes how the crew launches programs, and what it tells without being asked.
    pub fn with_launching(self, launching: Launching<'m>, tells: Tells) -> Crew<'m, RT>
        ensures machine { result.rt ≡ self.entry.rt }
        ensures workers { result.workers ≡ self.entry.workers }
        ensures progress { result.progress ≡ self.entry.progress }
        ensures launching { result.launching ≡ launching.entry }
        ensures tells { result.tells ≡ tells }
    {
        Crew {
            rt: self.rt,
            alloc: self.alloc,
            workers: self.workers,
            progress: self.progress,
            tells,
            launching,
        }
    }

    /// Gives this crew for the runs of a plan. `clocks` has for each run, in order of date, the local time at its start
    /// in the graph's zone.
    pub(crate) fn with_clocks<'c>(&self, clocks: &'c [Moment]) -> Crew<'c, RT>
    where
        'm: 'c,
        ensures machine { result.rt ≡ self.now.rt }
        ensures workers { result.workers ≡ self.now.workers }
        ensures progress { result.progress ≡ self.now.progress }
        ensures launching { result.launching ≡ record self.now.launching { clocks = clocks.entry } }
        ensures tells { result.tells ≡ self.now.tells }
    {
        Crew {
            rt: self.rt,
            alloc: self.alloc,
            workers: self.workers,
            progress: self.progress,
            tells: self.tells,
            launching: Launching {
                launcher: self.launching.launcher,
                logs: self.launching.logs,
                clocks,
            },
        }
    }

    /// Gathers what is told of a backfill that stopped early: its plan and runs, the folder of logs, and whether a log
    /// couldn't be made. `log_faults` is None where no programs were started.
    pub(crate) fn stopped_backfill<'a>(
        &self,
        plan: &'a Plan,
        runs: &'a Runs,
        log_faults: Option<&LogFaults>,
    ) -> StoppedBackfill<'a>
    where
        'm: 'a,
        ensures plan { result.plan ≡ plan.entry }
        ensures runs { result.runs ≡ runs.entry }
        ensures logs { result.logs ≡ self.now.launching.logs }
        ensures unlogged { IfNone log_faults.entry (result.cannot_log ≡ false) }
    {
        StoppedBackfill {
            alloc: self.alloc,
            plan,
            runs,
            logs: self.launching.logs,
            cannot_log: match log_faults {
                Some(faults) => faults.has_unmade_log(),
                None => false,
            },
        }
    }

    /// Whether a table's answers are given in the calling thread, without workers: where progress isn't asked for.
    /// Handing a try over to a worker takes longer than answering it.
    pub(crate) fn is_single_threaded(&self) -> bool
        ensures { result ≡ is_single_threaded_in self.now.progress }
    {
        !self.progress
    }
}

impl<'m, RT: Screen + Threads + Wait + Clock + Sync> Crew<'m, RT> {
    /// Runs a backfill to its end by the workers, and shows each event to `observer`. Kept tries end as they did; the
    /// runner in `keeping` makes the others. `Err` where a thread can't be started, the runner gives up a try that
    /// isn't kept, or memory runs out.
    fn resume_observed<'p, K, R, C, O>(
        &self,
        plan: &'p Plan,
        runs: &Runs,
        keeping: &Keeping<'_, K, R>,
        clock: C,
        observer: O,
    ) -> Result<Ended<'p>, BackfillFault>
    where
        K: KeptTries + Sync,
        R: TaskRunner + Sync,
        C: TimeSource + Drop,
        O: Observer + Drop,
        requires { AreFit plan.now.dag (K.kept keeping.now.kept.now) }
        ensures end { IfOk result (IsEndFrom (K.kept keeping.now.kept.now)
            (R.may_answer keeping.now.runner.now)
            plan.entry.now.dag plan.entry.now.limits (length runs.now) self.now.workers) }
        ensures err { IfErr result (MayFail
            (MayGiveUpAnew (K.kept keeping.now.kept.now) (R.may_give_up keeping.now.runner.now))) }
    {
        let mut watch = Watch { clock, observer };
        resume(
            self.rt,
            self.alloc,
            plan,
            runs,
            self.workers,
            keeping,
            &mut watch,
        )
    }

    /// Runs a backfill to its end by the workers, beside a thread that shows progress on the screen; where that thread
    /// can't be started, shows only the last line. `Err` where a worker can't be started, a try that isn't kept is
    /// given up, or memory runs out.
    fn resume_with_progress<'s, 'p, E, K, R, C>(
        &self,
        scope: &Scope<'s, E>,
        progress: &'s Progress<'_, RT>,
        plan: &'p Plan,
        runs: &Runs,
        keeping: &Keeping<'_, K, R>,
        clock: C,
    ) -> Result<Ended<'p>, BackfillFault>
    where
        K: KeptTries + Sync,
        R: TaskRunner + Sync,
        C: TimeSource + Drop,
        requires { AreFit plan.now.dag (K.kept keeping.now.kept.now) }
        ensures end { IfOk result (IsEndFrom (K.kept keeping.now.kept.now)
            (R.may_answer keeping.now.runner.now)
            plan.entry.now.dag plan.entry.now.limits (length runs.now) self.now.workers) }
        ensures err { IfErr result (MayFail
            (MayGiveUpAnew (K.kept keeping.now.kept.now) (R.may_give_up keeping.now.runner.now))) }
    {
        let teller = scope.spawn(move || progress.tell_until_ended());
        let ended = self.resume_observed(plan, runs, keeping, clock, Noting { progress });
        progress.stop_telling();
        if let Ok(teller) = teller {
            teller.join(self.rt);
        }
        progress.show_last();
        ended
    }

    /// Runs a backfill to its end by the workers, and shows its progress where that is asked for or told anyway. Kept
    /// tries end as they did. `Err` where a thread can't be started, a try that isn't kept is given up, or memory runs
    /// out.
    pub(crate) fn resume_by_workers<
        'p,
        K: KeptTries + Sync,
        R: TaskRunner + Sync,
        C: TimeSource + Drop,
    >(
        &self,
        plan: &'p Plan,
        runs: &Runs,
        keeping: &Keeping<'_, K, R>,
        clock: C,
    ) -> Result<Ended<'p>, BackfillFault>
        requires { AreFit plan.now.dag (K.kept keeping.now.kept.now) }
        ensures end { IfOk result (IsEndFrom (K.kept keeping.now.kept.now)
            (R.may_answer keeping.now.runner.now)
            plan.entry.now.dag plan.entry.now.limits (length runs.now) self.now.workers) }
        ensures err { IfErr result (MayFail
            (MayGiveUpAnew (K.kept keeping.now.kept.now) (R.may_give_up keeping.now.runner.now))) }
    {
        if !self.progress && !self.tells.progress {
            return self.resume_observed(plan, runs, keeping, clock, Silent);
        }
        let progress = Progress::new(self.rt, self.alloc, plan, runs);
        let lent = &progress;
        thread::scope(
            thread::scope_env(),
            self.rt,
            |scope| -> Result<Ended<'_>, BackfillFault>
                requires { AreFit plan.now.dag (K.kept keeping.now.kept.now) }
                ensures end { IfOk result (IsEndFrom (K.kept keeping.entry.now.kept.now)
                    (R.may_answer keeping.entry.now.runner.now)
                    plan.entry.now.dag plan.entry.now.limits (length runs.entry.now)
                    self.entry.now.workers) }
                ensures err { IfErr result (MayFail
                    (MayGiveUpAnew (K.kept keeping.entry.now.kept.now)
                    (R.may_give_up keeping.entry.now.runner.now))) }
            { self.resume_with_progress(scope, lent, plan, runs, keeping, clock) },
        )
    }
}
