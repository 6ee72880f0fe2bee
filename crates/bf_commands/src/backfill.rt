//! A backfill that goes on from tries that are kept, if any, to its report.
ghost use Rattle.std.specs.Prelude.{◌≡◌, Bool, None, IfOk, IfErr, length, map};
ghost use Rattle.bf_kept.specs.Kept.{AreFit};
ghost use Rattle.bf_process.specs.Words.{MayAnswer, launching_of, through};
ghost use Rattle.bf_table.specs.Tables.{answer_of};
ghost use Rattle.bf_device.specs.Device.{HasHalted};
ghost use Rattle.bf_command_fault.specs.Refusal.{Leaves, Sends};
ghost use Rattle.bf_commands.specs.Cleared.{MayAnswerBy};
ghost use Rattle.bf_commands.specs.inner.Cleared.{IsStopOrWantingAnew, IsStopOrWantingFrom};
ghost use Rattle.bf_commands.specs.OverTable.{AnswersByTable, answering, is_single_threaded_in};
ghost use Rattle.bf_commands.specs.inner.OverTable.{IsUnsent, IsWantingWorkers};
ghost use Rattle.bf_commands.specs.Reported.{IsReportFrom};
ghost use Rattle.bf_commands.specs.inner.Reported.{IsEndFrom};

use crate::crew::Crew;
use crate::programs::{programs_of, tell_of_logs};
use crate::reported::write_ended;
use crate::stop::{stop_fault_alone, stop_fault_by_programs, stop_fault_over_table};
use bf_command_fault::CommandFault;
use bf_core::Ended;
use bf_device::Write;
use bf_interval::{Interval, Runs};
use bf_kept::{Keeping, KeptTries};
use bf_lane::{Jump, MachineClock};
use bf_plain::resume_one_by_one;
use bf_plan::Plan;
use bf_process::Starter;
use bf_progress::Screen;
use bf_table::{Table, TableRunner};
use bf_value::OutOfMemory;
use jiff::Timestamp;
use std::alloc::Global;
use std::sync::Wait;
use std::thread::Threads;
use std::time::Clock;

/// Lists the starts of these data intervals, in their order.
fn interval_starts(alloc: Global, intervals: &[Interval]) -> Result<Vec<Timestamp>, OutOfMemory>
    ensures { IfOk result (λ starts. starts.items ≡ map (λ i. i.start) intervals.now) }
{
    Ok(
        intervals
            .iter()
            .map(|interval| interval.start)
            .collect(alloc)?,
    )
}

/// Makes a runner that answers each try of these runs from the table.
pub(crate) fn runner_over<'p>(
    alloc: Global,
    plan: &'p Plan,
    table: Table,
    runs: &Runs,
) -> Result<TableRunner<'p>, OutOfMemory>
    ensures { IfOk result (λ runner. runner ≡ answering plan.entry.now.dag table runs.now) }
{
    let starts = interval_starts(alloc, runs.intervals())?;
    TableRunner::new(alloc, table, plan, &starts)
}

/// Runs a backfill to its end in the calling thread. Kept tries end as they did; a table answers the others. `Err` only
/// at want of memory.
fn resume_alone<'p, K: KeptTries>(
    plan: &'p Plan,
    runs: &Runs,
    keeping: &Keeping<'_, K, TableRunner<'_>>,
) -> Result<Ended<'p>, CommandFault>
    requires { AreFit plan.now.dag (K.kept keeping.now.kept.now) }
    ensures end { IfOk result (IsEndFrom (K.kept keeping.now.kept.now)
        (λ n given raw. raw ≡ answer_of keeping.now.runner.now n)
        plan.entry.now.dag plan.entry.now.limits (length runs.now) 1) }
    ensures memory { IfErr result (λ fault. fault ≡ CommandFault.OutOfMemory) }
{
    match resume_one_by_one(keeping.alloc, plan, runs, keeping) {
        Ok(ended) => Ok(ended),
        Err(fault) => Err(stop_fault_alone(&fault)),
    }
}

/// Runs a backfill to its end without waiting for the delays between tries. Tries in `kept` end as they did; a table
/// answers the others. `Err` where memory runs out, or with progress, where a thread can't be started.
fn resume_over_table<'p, RT: Screen + Threads + Wait + Clock + Sync, K: KeptTries + Sync>(
    crew: &Crew<'_, RT>,
    plan: &'p Plan,
    runs: &Runs,
    kept: &K,
    table: Table,
) -> Result<Ended<'p>, CommandFault>
    requires { AreFit plan.now.dag (K.kept kept.now) }
    ensures end { IfOk result (IsEndFrom (K.kept kept.now)
        (AnswersByTable plan.entry.now.dag table runs.now)
        plan.entry.now.dag plan.entry.now.limits (length runs.now) crew.now.workers) }
    ensures wanting { IfErr result (IsWantingWorkers (is_single_threaded_in crew.now.progress)) }
    ensures unsent { IfErr result IsUnsent }
{
    let runner = runner_over(crew.alloc, plan, table, runs)?;
    let keeping = Keeping {
        alloc: crew.alloc,
        kept,
        runner: &runner,
        at_once: true,
    };
    if crew.is_single_threaded() {
        let _some = crew.workers.count();
        return resume_alone(plan, runs, &keeping);
    }
    match crew.resume_by_workers(plan, runs, &keeping, Jump::new()) {
        Ok(ended) => Ok(ended),
        Err(fault) => Err(stop_fault_over_table(&fault)),
    }
}

/// Runs a backfill to its end, and tells on the screen where logs are incomplete. Tries in `kept` end as they did;
/// programs make the others. `Err` where a thread can't be started, a program can't be waited for, a log can't be made,
/// or memory runs out.
fn resume_by_programs<
    'p,
    RT: Starter + Screen + Threads + Wait + Clock + Sync,
    K: KeptTries + Sync,
>(crew: &Crew<'_, RT>, plan: &'p Plan, runs: &Runs, kept: &K) -> Result<Ended<'p>, CommandFault>
    requires { AreFit plan.now.dag (K.kept kept.now) }
    ensures end { IfOk result (IsEndFrom (K.kept kept.now)
        (MayAnswer (through (launching_of crew.now.launching) (RT.may_hear crew.now.rt.now))
        plan.entry.now.dag runs.now)
        plan.entry.now.dag plan.entry.now.limits (length runs.now) crew.now.workers) }
    ensures stop { IfErr result (IsStopOrWantingAnew (K.kept kept.now)
        (launching_of crew.now.launching) (RT.may_lose crew.now.rt.now) plan.entry.now.dag
        runs.now) }
    ensures unsent { IfErr result IsUnsent }
{
    let programs = programs_of(crew, plan, runs);
    let keeping = Keeping {
        alloc: crew.alloc,
        kept,
        runner: &programs,
        at_once: false,
    };
    let ended = crew.resume_by_workers(plan, runs, &keeping, MachineClock::new(crew.rt));
    let log_faults = programs.runner().log_faults();
    tell_of_logs(crew.rt, log_faults);
    match ended {
        Ok(ended) => Ok(ended),
        Err(fault) => {
            let stopping = crew.stopped_backfill(plan, runs, Some(log_faults));
            Err(stop_fault_by_programs(&stopping, &fault))
        }
    }
}

/// Runs a backfill to its end. Tries in `kept` end as they did; `answers` answers the others, or programs make them
/// where it is None. `Err` where the backfill stops early or memory runs out; a table never stops at a try.
fn resume_backfill<'p, RT: Starter + Screen + Threads + Wait + Clock + Sync, K: KeptTries + Sync>(
    crew: &Crew<'_, RT>,
    plan: &'p Plan,
    runs: &Runs,
    kept: &K,
    answers: Option<Table>,
) -> Result<Ended<'p>, CommandFault>
    requires { AreFit plan.now.dag (K.kept kept.now) }
    ensures end { IfOk result (IsEndFrom (K.kept kept.now)
        (MayAnswerBy (through (launching_of crew.now.launching) (RT.may_hear crew.now.rt.now))
        answers plan.entry.now.dag runs.now)
        plan.entry.now.dag plan.entry.now.limits (length runs.now) crew.now.workers) }
    ensures stop { IfErr result (IsStopOrWantingFrom (is_single_threaded_in crew.now.progress)
        (K.kept kept.now)
        (launching_of crew.now.launching) (RT.may_lose crew.now.rt.now) answers plan.entry.now.dag
        runs.now) }
    ensures unsent { IfErr result IsUnsent }
{
    match answers {
        Some(table) => resume_over_table(crew, plan, runs, kept, table),
        None => resume_by_programs(crew, plan, runs, kept),
    }
}

/// Runs a backfill to its end and writes its report; true where every run succeeded. Tries in `kept` end as they did;
/// `answers` answers the others, or programs make them where it is None. `Err` where the backfill stops early, `out`
/// fails, or memory runs out. Tells progress, failed tries and incomplete logs on the screen as the crew does.
pub(crate) fn write_backfill<
    RT: Starter + Screen + Threads + Wait + Clock + Sync,
    K: KeptTries + Sync,
    W: Write,
>(
    crew: &Crew<'_, RT>,
    plan: &Plan,
    runs: &Runs,
    kept: &K,
    answers: Option<Table>,
    out: &mut W,
) -> Result<bool, CommandFault>
    requires fit { AreFit plan.now.dag (K.kept kept.now) }
    ensures ok { IfOk result (λ success. Sends (λ text. IsReportFrom (K.kept kept.now)
        (MayAnswerBy (through (launching_of crew.now.launching) (RT.may_hear crew.now.rt.now))
        answers plan.now.dag runs.now)
        plan.now.dag runs.now text success) (W.written out.old) (W.written out.new)) }
    ensures stop { IfErr result (IsStopOrWantingFrom (is_single_threaded_in crew.now.progress)
        (K.kept kept.now)
        (launching_of crew.now.launching) (RT.may_lose crew.now.rt.now) answers plan.now.dag
        runs.now) }
    ensures left { IfErr result (Leaves (HasHalted (W.failures out.old) (W.failures out.new)
        (W.interruptions out.old) (W.interruptions out.new))
        (λ text. (success : Bool) × IsReportFrom (K.kept kept.now)
        (MayAnswerBy (through (launching_of crew.now.launching) (RT.may_hear crew.now.rt.now))
        answers plan.now.dag runs.now)
        plan.now.dag runs.now text success) (W.written out.old) (W.written out.new)) }
{
    let ended = resume_backfill(crew, plan, runs, kept, answers)?;
    let _end = ended.state();
    write_ended(crew.alloc, runs, ended, out)
}
