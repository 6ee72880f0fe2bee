//! A backfill by one worker that goes on from kept tries.
ghost use Rattle.std.specs.Prelude.{IfOk, IfErr};
ghost use Rattle.bf_kept.specs.Kept.{AreFit, AreGradedAnew, MayGiveUpAnew};
ghost use Rattle.bf_core.specs.Answered.{AreGraded, MayFault};
ghost use Rattle.bf_core.specs.Endings.{IsEndOf, KeepsWorkers};
ghost use Rattle.bf_core.specs.Events.{entry_in};
ghost use Rattle.bf_core.specs.Terms.{AreAlike};
ghost use Rattle.bf_plain.specs.Ticks.{TicksToFirstMoments};

use crate::driving::one_by_one;
use bf_core::{BackfillFault, Ended};
use bf_kept::{Keeping, KeptTries};
use bf_plan::Plan;
use bf_runs::RunCount;
use bf_try::TaskRunner;
use std::alloc::Global;

/// Drives a backfill of the plan over these runs to its end, with kept tries: a kept try that is given the same again
/// ends as it did, and `keeping`'s runner answers every other. All else is as in `one_by_one`.
pub fn resume_one_by_one<'p, N: RunCount, K: KeptTries, R: TaskRunner>(
    alloc: Global,
    plan: &'p Plan,
    runs: &N,
    keeping: &Keeping<'_, K, R>,
) -> Result<Ended<'p>, BackfillFault>
    requires { AreFit plan.now.dag (K.kept keeping.now.kept.now) }
    ensures of { IfOk result (IsEndOf plan.entry.now.dag plan.entry.now.limits (N.runs runs.now)) }
    ensures again { IfOk result (λ ended.
        AreAlike (K.kept keeping.now.kept.now) (entry_in ended.state.ledger)) }
    ensures anew { IfOk result (λ ended.
        AreGradedAnew (K.kept keeping.now.kept.now) (R.may_answer keeping.now.runner.now)
        plan.entry.now.dag (entry_in ended.state.ledger)) }
    ensures all { AreGraded (R.may_answer keeping.now.runner.now)
        plan.entry.now.dag (K.kept keeping.now.kept.now)
        → IfOk result (λ ended. AreGraded (R.may_answer keeping.now.runner.now)
        plan.entry.now.dag (entry_in ended.state.ledger)) }
    ensures workers { IfOk result (λ ended.
        KeepsWorkers plan.entry.now.dag (N.runs runs.now) 1 ended.journal) }
    ensures err { IfErr result (MayFault
        (MayGiveUpAnew (K.kept keeping.now.kept.now) (R.may_give_up keeping.now.runner.now))) }
    ensures ticks { IfOk result (λ ended.
        TicksToFirstMoments plan.entry.now.dag plan.entry.now.limits (N.runs runs.now)
        ended.journal) }
{
    one_by_one(alloc, plan, runs, keeping)
}
