//! Backfills by several workers.
ghost use Rattle.std.specs.Prelude.{◌≡◌, ◌≢◌, IfOk, IfErr, OnOk, length};
ghost use Rattle.bf_core.specs.Answered.{AreGraded};
ghost use Rattle.bf_core.specs.inner.Driven.{IsOver};
ghost use Rattle.bf_core.specs.Endings.{IsEndOf, KeepsWorkers};
ghost use Rattle.bf_core.specs.Events.{HasEnded, entry_in};
ghost use Rattle.bf_lane.specs.Open.{Fulfils};
ghost use Rattle.bf_exec.specs.inner.Accounts.{AreUnused};
ghost use Rattle.bf_exec.specs.Faults.{MayFail, MayHalt};
ghost use Rattle.bf_exec.specs.inner.Faults.{IsFaultOf};
ghost use Rattle.bf_exec.specs.Shown.{HasShown};
ghost use Rattle.bf_exec.specs.inner.Shown.{WasShown};
ghost use Rattle.bf_exec.specs.inner.Starting.{AreFresh};
ghost use Rattle.bf_sched.specs.Driving.{StaysDriven};
ghost use Rattle.bf_exec.specs.Turns.{AreAmong, AreInStep};
ghost use Rattle.bf_exec.specs.inner.Turns.{IsLeftBy};
ghost use Rattle.bf_exec.specs.declared.turn_fault.TurnFault.{TurnFault};

use crate::at_once::{AnswerAtOnce, ByWorkers};
use crate::executor::Executor;
use crate::order::{Desk, Order, Shared};
use crate::starting::{all_queues_and_seats, start_lanes};
use crate::turn_fault::TurnFault;
use crate::watch::{Observer, Watch};
use bf_core::{BackfillFault, Core, Ended};
use bf_lane::{Queues, Seats, Service, TimeSource};
use bf_plan::Plan;
use bf_runs::RunCount;
use bf_sched::Scheduler;
use bf_try::TaskRunner;
use bf_workers::Workers;
use std::alloc::Global;
use std::marker::Brand;
use std::sync::Wait;
use std::thread;
use std::thread::{Parker, Scope, Threads};

/// Takes turns until the backfill has ended. `Err`, as in `TurnFault`, where a turn halts.
#[tactic(auto, using(bf_sched::proofs::Driving::same_driven, crate::proofs::Turning::left_by))]
fn all_turns<
    's,
    K: Service + Send + Sync + 's,
    W: Wait,
    D: AnswerAtOnce,
    C: TimeSource,
    O: Observer,
>(
    rt: &W,
    desk: &D,
    executor: &mut Executor<'s, K>,
    scheduler: &mut Scheduler<'_>,
    watch: &mut Watch<C, O>,
) -> Result<(), TurnFault>
    requires in_step { AreInStep executor.old scheduler.old }
    requires at_once { AreAmong (D.may_answer_at_once desk.now) K.answers }
    ensures ended { OnOk result (HasEnded scheduler.new.backfill.state) }
    ensures in_step { OnOk result (AreInStep executor.new scheduler.new) }
    ensures driven { OnOk result (StaysDriven K.answers scheduler.old scheduler.new) }
    ensures left { IfErr result (IsLeftBy executor.new) }
    ensures fault { IfErr result (MayHalt K.gives_up) }
    ensures shown { HasShown O.shows watch.old.observer watch.new.observer scheduler.old.backfill
        scheduler.new.backfill }
{
    for _ in rt.forever() {
        if !executor.turn(rt, desk, scheduler, watch)? {
            return Ok(());
        }
    }
    unreachable!()
}

/// Drives a backfill from its start to its end by turns of the executor, and leaves the lanes open. `Err`, as in
/// `TurnFault`, where a turn halts or memory is wanting.
fn drive<'s, 'p, K, W, D, N, C, O>(
    rt: &W,
    desk: &D,
    executor: &mut Executor<'s, K>,
    order: &Order<'p, '_, N>,
    watch: &mut Watch<C, O>,
) -> Result<Ended<'p>, TurnFault>
where
    K: Service + Send + Sync + 's,
    W: Wait,
    D: Shared + AnswerAtOnce,
    N: RunCount,
    C: TimeSource,
    O: Observer,
    requires lanes { length executor.old ≡ order.now.workers }
    requires unused { AreUnused executor.old }
    requires at_once { AreAmong (D.may_answer_at_once desk.now) K.answers }
    ensures over { IfOk result (IsOver K.answers order.now.plan.now.dag order.now.plan.now.limits
        (N.runs order.now.runs.now) order.now.workers) }
    ensures left { IfErr result (IsLeftBy executor.new) }
    ensures fault { IfErr result (MayHalt K.gives_up) }
    ensures shown { IfOk result (WasShown O.shows order.now.plan.now.dag (N.runs order.now.runs.now)
        watch.old.observer watch.new.observer) }
{
    let _sound = order.plan.dag();
    let _fit = order.plan.limits();
    let core = Core::new(desk.alloc(), order.plan, order.runs)?;
    let mut scheduler = Scheduler::new(desk.alloc(), core, order.workers)?;
    all_turns(rt, desk, executor, &mut scheduler, watch)?;
    match scheduler.into_ended() {
        Ok(ended) => Ok(ended),
        Err(_) => unreachable!(),
    }
}

/// The fault of a backfill of which a turn halted by `halt`: want of memory, or a try that the runner gave up.
fn fault_of(halt: TurnFault) -> BackfillFault
    requires { halt ≢ TurnFault.Stranger }
    ensures { IsFaultOf halt result }
{
    match halt {
        TurnFault::OutOfMemory => BackfillFault::OutOfMemory,
        TurnFault::Runner(name) => BackfillFault::Runner(name),
        TurnFault::Stranger => unreachable!(),
    }
}

/// Starts the workers in a scope of threads, drives the backfill, and joins the workers, after a fault too. `queues`
/// and `seats` are those of each lane, in the same order. `Start` where a worker can't be started, `Runner` where the
/// runner gave a try up, `OutOfMemory` at want of memory.
#[tactic(auto, using(crate::proofs::Closing::may_fail))]
fn run_in_scope<'s, 'p, K, E, W, D, N, C, O>(
    scope: &Scope<'s, E>,
    rt: &'s W,
    queues: &'s [Queues<K>],
    seats: Vec<Seats<K>>,
    desk: &'s D,
    order: &Order<'p, '_, N>,
    watch: &mut Watch<C, O>,
) -> Result<Ended<'p>, BackfillFault>
where
    K: Service + Send + Sync + 's,
    W: Threads + Wait + Sync,
    D: TaskRunner + Shared + AnswerAtOnce + Sync,
    N: RunCount,
    C: TimeSource,
    O: Observer,
    requires many { length seats.items ≡ order.now.workers }
    requires fresh { AreFresh queues.now seats.items }
    requires fulfils { Fulfils (D.may_answer desk.now) (D.may_give_up desk.now) K.answers
        K.gives_up }
    requires at_once { AreAmong (D.may_answer_at_once desk.now) (D.may_answer desk.now) }
    ensures over { IfOk result (IsOver K.answers order.now.plan.now.dag order.now.plan.now.limits
        (N.runs order.now.runs.now) order.now.workers) }
    ensures fault { IfErr result (MayFail K.gives_up) }
    ensures shown { IfOk result (WasShown O.shows order.now.plan.now.dag (N.runs order.now.runs.now)
        watch.old.observer watch.new.observer) }
{
    let lanes = start_lanes(scope, rt, queues, seats, desk)?;
    let mut executor = Executor::new(lanes);
    let ended = drive(rt, desk, &mut executor, order, watch);
    drop(executor.close(rt));
    match ended {
        Ok(ended) => Ok(ended),
        // The closed lanes show that what was gathered are the answers to what was submitted: none is a stranger's.
        Err(halt) => Err(fault_of(halt)),
    }
}

/// Drives the backfill that `order` asks for to its end, by workers that share `desk`. `Start` where a worker can't be
/// started, `Runner` where the runner gave a try up, `OutOfMemory` at want of memory.
fn run_order<'p, K, W, D, N, C, O>(
    rt: &W,
    desk: &D,
    order: &Order<'p, '_, N>,
    watch: &mut Watch<C, O>,
) -> Result<Ended<'p>, BackfillFault>
where
    K: Service + Send + Sync,
    W: Threads + Wait + Sync,
    D: TaskRunner + Shared + AnswerAtOnce + Sync,
    N: RunCount,
    C: TimeSource,
    O: Observer,
    requires fulfils { Fulfils (D.may_answer desk.now) (D.may_give_up desk.now) K.answers
        K.gives_up }
    requires at_once { AreAmong (D.may_answer_at_once desk.now) (D.may_answer desk.now) }
    ensures over { IfOk result (IsOver K.answers order.now.plan.now.dag order.now.plan.now.limits
        (N.runs order.now.runs.now) order.now.workers) }
    ensures fault { IfErr result (MayFail K.gives_up) }
{
    let (queues, seats) = all_queues_and_seats::<K>(desk.alloc(), order.workers)?;
    let rows = queues.as_slice();
    let ended = thread::scope(
        thread::scope_env(),
        rt,
        |scope| -> Result<Ended<'_>, BackfillFault>
            requires many { length seats.items ≡ order.now.workers }
            requires fresh { AreFresh rows.now seats.items }
            requires fulfils { Fulfils (D.may_answer desk.now) (D.may_give_up desk.now) K.answers
                K.gives_up }
            requires at_once { AreAmong (D.may_answer_at_once desk.now) (D.may_answer desk.now) }
            ensures over { IfOk result (IsOver K.answers order.entry.now.plan.now.dag
                order.entry.now.plan.now.limits (N.runs order.entry.now.runs.now)
                order.entry.now.workers) }
            ensures fault { IfErr result (MayFail K.gives_up) }
        { run_in_scope(scope, rt, rows, seats, desk, order, watch) },
    );
    ended
}

/// Drives a backfill to its end as `run_backfill` does, but hands no worker a try that `runner` answers at once.
pub(crate) fn run_with_answers_at_once<
    'p,
    W: Threads + Wait + Sync,
    N: RunCount,
    R: TaskRunner + AnswerAtOnce + Sync,
    C: TimeSource,
    O: Observer,
>(
    rt: &W,
    alloc: Global,
    plan: &'p Plan,
    runs: &N,
    workers: Workers,
    runner: &R,
    watch: &mut Watch<C, O>,
) -> Result<Ended<'p>, BackfillFault>
    requires { AreAmong (R.may_answer_at_once runner.now) (R.may_answer runner.now) }
    ensures of { IfOk result (IsEndOf plan.entry.now.dag plan.entry.now.limits (N.runs runs.now)) }
    ensures graded { IfOk result (λ ended.
        AreGraded (R.may_answer runner.now) plan.entry.now.dag (entry_in ended.state.ledger)) }
    ensures workers { IfOk result (λ ended.
        KeepsWorkers plan.entry.now.dag (N.runs runs.now) workers ended.journal) }
    ensures err { IfErr result (MayFail (R.may_give_up runner.now)) }
{
    let desk = Desk {
        alloc,
        runner,
        answered: Parker::new(),
    };
    let order = Order {
        plan,
        runs,
        workers,
    };
    run_order::<Brand, W, Desk<'_, R>, N, C, O>(rt, &desk, &order, watch)
}

/// Drives a backfill of the plan over these runs to its end, by so many workers at once; `runner` answers its tries.
/// The clock says when tries may begin that wait for a moment; the observer is shown each event as it comes.
///
/// `Runner` where the runner gives a try up, `Start` where a thread can't be started, `OutOfMemory` at want of memory.
/// After a fault no try begins, those that run are waited for, and all threads have ended.
pub fn run_backfill<
    'p,
    W: Threads + Wait + Sync,
    N: RunCount,
    R: TaskRunner + Sync,
    C: TimeSource,
    O: Observer,
>(
    rt: &W,
    alloc: Global,
    plan: &'p Plan,
    runs: &N,
    workers: Workers,
    runner: &R,
    watch: &mut Watch<C, O>,
) -> Result<Ended<'p>, BackfillFault>
    ensures of { IfOk result (IsEndOf plan.entry.now.dag plan.entry.now.limits (N.runs runs.now)) }
    ensures graded { IfOk result (λ ended.
        AreGraded (R.may_answer runner.now) plan.entry.now.dag (entry_in ended.state.ledger)) }
    ensures workers { IfOk result (λ ended.
        KeepsWorkers plan.entry.now.dag (N.runs runs.now) workers ended.journal) }
    ensures err { IfErr result (MayFail (R.may_give_up runner.now)) }
{
    let runner = ByWorkers { runner };
    run_with_answers_at_once(rt, alloc, plan, runs, workers, &runner, watch)
}
