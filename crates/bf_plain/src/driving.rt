//! A backfill, driven to its end.
ghost use Rattle.std.specs.Prelude.{◌≡◌, ◌+◌, true, false, OnOk, IfOk, IfErr};
ghost use Rattle.bf_core.specs.Answered.{AreGraded, MayFault};
ghost use Rattle.bf_core.specs.inner.Driven.{IsOver};
ghost use Rattle.bf_core.specs.Endings.{IsEndOf, KeepsWorkers};
ghost use Rattle.bf_core.specs.Events.{HasEnded, entry_in};
ghost use Rattle.bf_core.specs.Running.{running_now};
ghost use Rattle.bf_sched.specs.Driving.{IsUnderWay, StaysDriven};
ghost use Rattle.bf_plain.specs.inner.Driving.{IsIdle, IsLonger, fault_by};
ghost use Rattle.bf_plain.specs.Ticks.{TicksToFirstMoments};
ghost use Rattle.bf_plain.specs.inner.Ticks.{TicksSo};

use bf_core::{BackfillFault, Core, Ended};
use bf_plan::Plan;
use bf_runs::RunCount;
use bf_sched::{Next, Scheduler};
use bf_try::{Done, RunnerFault, TaskRunner, Ticket};
use bf_workers::Workers;
use std::alloc::Global;

/// The fault of a backfill whose runner gave no answer to `ticket`: `OutOfMemory` at want of memory, `Runner` with the
/// try's name where it gave the try up.
fn fault_of(ticket: Ticket, fault: RunnerFault) -> BackfillFault
    ensures { result ≡ fault_by ticket fault }
{
    match fault {
        RunnerFault::OutOfMemory => BackfillFault::OutOfMemory,
        RunnerFault::GaveUp => BackfillFault::Runner(ticket.name()),
    }
}

/// The runner's answer to the try of a ticket. `Runner` where the runner gave the try up, `OutOfMemory` at want of
/// memory.
fn answer_to<R: TaskRunner>(runner: &R, ticket: Ticket) -> Result<Done, BackfillFault>
    ensures ok { IfOk result (λ done. (done.name ≡ ticket.name) × (done.given ≡ ticket.given)
        × R.may_answer runner.now ticket.name ticket.given done.raw) }
    ensures err { IfErr result (MayFault (R.may_give_up runner.now)) }
{
    match runner.run(ticket) {
        Ok(done) => Ok(done),
        Err((ticket, fault)) => Err(fault_of(ticket, fault)),
    }
}

/// Runs the try of a ticket, which has begun, and ends it by the runner's answer. `Runner` where the runner gave the
/// try up, `OutOfMemory` at want of memory.
fn make_try<R: TaskRunner>(
    runner: &R,
    scheduler: &mut Scheduler<'_>,
    ticket: Ticket,
) -> Result<(), BackfillFault>
    requires { IsUnderWay scheduler.old.backfill ticket }
    ensures driven { OnOk result (StaysDriven (R.may_answer runner.now) scheduler.old
        scheduler.new) }
    ensures counted { OnOk result (running_now scheduler.new.backfill.state + 1
        ≡ running_now scheduler.old.backfill.state) }
    ensures longer { OnOk result (IsLonger scheduler.old scheduler.new) }
    ensures err { IfErr result (MayFault (R.may_give_up runner.now)) }
    ensures ticks { OnOk result (TicksSo scheduler.old scheduler.new) }
{
    let _replayed = scheduler.journal();
    let done = answer_to(runner, ticket)?;
    scheduler.finish_allowed(done)?;
    Ok(())
}

/// Lets one event come by itself, or makes one try from its begin to its end, or moves the clock to the moment for
/// which a try waits. False where the backfill has ended. `Runner` where the runner gave the try up, `OutOfMemory` at
/// want of memory.
fn turn<R: TaskRunner>(runner: &R, scheduler: &mut Scheduler<'_>) -> Result<bool, BackfillFault>
    requires { IsIdle scheduler.old }
    ensures idle { OnOk result (IsIdle scheduler.new) }
    ensures driven { OnOk result (StaysDriven (R.may_answer runner.now) scheduler.old
        scheduler.new) }
    ensures longer { IfOk result (λ went_on. went_on ≡ true
        → IsLonger scheduler.old scheduler.new) }
    ensures ended { IfOk result (λ went_on. went_on ≡ false
        → HasEnded scheduler.new.backfill.state) }
    ensures err { IfErr result (MayFault (R.may_give_up runner.now)) }
    ensures ticks { OnOk result (TicksSo scheduler.old scheduler.new) }
{
    let _replayed = scheduler.journal();
    match scheduler.next()? {
        Next::Stepped => Ok(true),
        Next::Go(ticket) => {
            make_try(runner, scheduler, ticket)?;
            Ok(true)
        }
        Next::Until(moment) => {
            if !scheduler.tick(moment)? {
                unreachable!();
            }
            Ok(true)
        }
        Next::Wait => unreachable!(),
        Next::Ended => Ok(false),
    }
}

/// Takes turns until the backfill has ended, which it does: each turn adds an event, and no journal outgrows memory.
/// `Runner` where the runner gave a try up, `OutOfMemory` at want of memory.
fn all_turns<R: TaskRunner>(runner: &R, scheduler: &mut Scheduler<'_>) -> Result<(), BackfillFault>
    requires { IsIdle scheduler.old }
    ensures driven { OnOk result (StaysDriven (R.may_answer runner.now) scheduler.old
        scheduler.new) }
    ensures ended { OnOk result (HasEnded scheduler.new.backfill.state) }
    ensures err { IfErr result (MayFault (R.may_give_up runner.now)) }
    ensures ticks { OnOk result (TicksSo scheduler.old scheduler.new) }
{
    // The proof that the loop ends goes by the length of the journal.
    let mut events = scheduler.journal().len();
    while turn(runner, scheduler)? {
        events = scheduler.journal().len();
    }
    Ok(())
}

/// Drives a backfill from its start to its end. `Runner` where the runner gave a try up, `OutOfMemory` at want of
/// memory.
fn drive<'p, N: RunCount, R: TaskRunner>(
    alloc: Global,
    plan: &'p Plan,
    runs: &N,
    runner: &R,
) -> Result<Ended<'p>, BackfillFault>
    ensures over { IfOk result (IsOver (R.may_answer runner.now) plan.entry.now.dag
        plan.entry.now.limits (N.runs runs.now) 1) }
    ensures err { IfErr result (MayFault (R.may_give_up runner.now)) }
    ensures ticks { IfOk result (λ ended.
        TicksToFirstMoments plan.entry.now.dag plan.entry.now.limits (N.runs runs.now)
        ended.journal) }
{
    let _sound = plan.dag();
    let _fit = plan.limits();
    let core = Core::new(alloc, plan, runs)?;
    let mut scheduler = Scheduler::new(alloc, core, Workers::one())?;
    all_turns(runner, &mut scheduler)?;
    match scheduler.into_ended() {
        Ok(ended) => Ok(ended),
        Err(_) => unreachable!(),
    }
}

/// Drives a backfill of the plan over these runs to its end; `runner` answers its tries, one after the other in this
/// thread. Where only tries are left that wait for a moment, the clock goes to the earliest at once. `Runner` where the
/// runner gave a try up, `OutOfMemory` at want of memory.
pub fn one_by_one<'p, N: RunCount, R: TaskRunner>(
    alloc: Global,
    plan: &'p Plan,
    runs: &N,
    runner: &R,
) -> Result<Ended<'p>, BackfillFault>
    ensures of { IfOk result (IsEndOf plan.entry.now.dag plan.entry.now.limits (N.runs runs.now)) }
    ensures graded { IfOk result (λ ended.
        AreGraded (R.may_answer runner.now) plan.entry.now.dag (entry_in ended.state.ledger)) }
    ensures workers { IfOk result (λ ended.
        KeepsWorkers plan.entry.now.dag (N.runs runs.now) 1 ended.journal) }
    ensures err { IfErr result (MayFault (R.may_give_up runner.now)) }
    ensures ticks { IfOk result (λ ended.
        TicksToFirstMoments plan.entry.now.dag plan.entry.now.limits (N.runs runs.now)
        ended.journal) }
{
    drive(alloc, plan, runs, runner)
}
