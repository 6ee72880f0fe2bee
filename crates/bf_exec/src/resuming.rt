//! A backfill by workers that goes on from kept tries.
ghost use Rattle.std.specs.Prelude.{IfOk, IfErr};
ghost use Rattle.bf_kept.specs.Kept.{AreFit, AreGradedAnew, MayGiveUpAnew};
ghost use Rattle.bf_core.specs.Answered.{AreGraded};
ghost use Rattle.bf_core.specs.Endings.{IsEndOf, KeepsWorkers};
ghost use Rattle.bf_core.specs.Events.{entry_in};
ghost use Rattle.bf_core.specs.Terms.{AreAlike};
ghost use Rattle.bf_exec.specs.Faults.{MayFail};

use crate::running::run_with_answers_at_once;
use crate::watch::{Observer, Watch};
use bf_core::{BackfillFault, Ended};
use bf_kept::{Keeping, KeptTries};
use bf_lane::TimeSource;
use bf_plan::Plan;
use bf_runs::RunCount;
use bf_try::TaskRunner;
use bf_workers::Workers;
use std::alloc::Global;
use std::sync::Wait;
use std::thread::Threads;

/// Drives a backfill of the plan over these runs to its end, with kept tries: a kept try that is given the same again
/// ends as it did, at once, and `keeping`'s runner answers every other, at once too where it can. All else is as in
/// `run_backfill`.
///
/// If the runner could have given what is kept, it could have given all: a backfill that goes on from what is kept of a
/// broken-off one ends as one that the runner answers alone.
pub fn resume<
    'p,
    W: Threads + Wait + Sync,
    N: RunCount,
    K: KeptTries + Sync,
    R: TaskRunner + Sync,
    C: TimeSource,
    O: Observer,
>(
    rt: &W,
    alloc: Global,
    plan: &'p Plan,
    runs: &N,
    workers: Workers,
    keeping: &Keeping<'_, K, R>,
    watch: &mut Watch<C, O>,
) -> Result<Ended<'p>, BackfillFault>
    requires { AreFit plan.now.dag (K.kept keeping.now.kept.now) }
    ensures of { IfOk result (IsEndOf plan.entry.now.dag plan.entry.now.limits (N.runs runs.now)) }
    ensures again { IfOk result (λ ended.
        AreAlike (K.kept keeping.now.kept.now) (entry_in ended.state.ledger)) }
    ensures anew { IfOk result (λ ended.
        AreGradedAnew (K.kept keeping.now.kept.now) (R.may_answer keeping.now.runner.now)
        plan.entry.now.dag (entry_in ended.state.ledger)) }
    ensures all { AreGraded (R.may_answer keeping.now.runner.now)
        plan.entry.now.dag (K.kept keeping.now.kept.now)
        → IfOk result (λ ended. AreGraded (R.may_answer keeping.now.runner.now)
        plan.entry.now.dag (entry_in ended.state.ledger)) }
    ensures workers { IfOk result (λ ended.
        KeepsWorkers plan.entry.now.dag (N.runs runs.now) workers ended.journal) }
    ensures err { IfErr result (MayFail
        (MayGiveUpAnew (K.kept keeping.now.kept.now) (R.may_give_up keeping.now.runner.now))) }
{
    run_with_answers_at_once(rt, alloc, plan, runs, workers, keeping, watch)
}
