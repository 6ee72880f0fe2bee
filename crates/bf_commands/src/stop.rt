//! What is told of a backfill that stopped.
ghost use Rattle.std.specs.Prelude.{◌≡◌, ◌⊎◌, None, IfNone, IfSome, MatchOption, false, option_map, slice_get};
ghost use Rattle.bf_core.specs.Answered.{MayFault};
ghost use Rattle.bf_exec.specs.Faults.{MayFail};
ghost use Rattle.bf_commands.specs.inner.Journaled.{IsToldAt, IsToldOfRecorded, told_of_stop};
ghost use Rattle.bf_commands.specs.inner.OverTable.{IsUnsent, IsWantingWorkers};
ghost use Rattle.bf_commands.specs.inner.Programs.{IsGivenUp, IsToldOfStop, IsUnanswered, IsUnlogged};

use bf_command_fault::{CommandFault, StopFault};
use bf_core::BackfillFault;
use bf_failure::{context_of, log_path};
use bf_interval::Runs;
use bf_journal::Stop;
use bf_plan::Plan;
use bf_value::{JobName, Text};
use std::alloc::Global;

/// Gives the command's fault where a backfill over a table stopped in the calling thread: want of memory, since no
/// thread is started and a table gives up no try.
pub(crate) fn stop_fault_alone(fault: &BackfillFault) -> CommandFault
    requires { MayFault (λ name given. ⊥) fault.now }
    ensures { result ≡ CommandFault.OutOfMemory }
{
    match fault {
        BackfillFault::OutOfMemory => CommandFault::OutOfMemory,
        BackfillFault::Runner(_) | BackfillFault::Start => unreachable!(),
    }
}

/// Gives the command's fault where a backfill over a table stopped in its workers: want of memory, or a thread that
/// can't be started, since a table gives up no try.
pub(crate) fn stop_fault_over_table(fault: &BackfillFault) -> CommandFault
    requires { MayFail (λ name given. ⊥) fault.now }
    ensures wanting { IsWantingWorkers false result }
    ensures unsent { IsUnsent result }
{
    match fault {
        BackfillFault::OutOfMemory => CommandFault::OutOfMemory,
        BackfillFault::Start => CommandFault::Stopped(StopFault::CannotStart),
        BackfillFault::Runner(_) => unreachable!(),
    }
}

/// A backfill that stopped: its plan and runs, the folder of its logs, None where none are kept, and whether a log
/// couldn't be made.
#[derive(Drop)]
pub(crate) struct StoppedBackfill<'a> {
    pub(crate) alloc: Global,
    pub(crate) plan: &'a Plan,
    pub(crate) runs: &'a Runs,
    pub(crate) logs: Option<&'a str>,
    pub(crate) cannot_log: bool,
}

impl<'a> StoppedBackfill<'a> {
    /// Gives the fault that a try's log can't be made, with the path of its `.out` file, or want of memory. None where
    /// no logs are kept, or the plan has no such task, or there is no such run.
    fn log_fault_of(&self, name: JobName) -> Option<CommandFault>
        ensures told { IfSome result (IsUnlogged (option_map (λ l. l.now) self.now.logs)
            self.now.plan.now.dag self.now.runs.now name) }
        ensures none { IfNone result ((self.now.logs ≡ None)
            ⊎ ((slice_get self.now.plan.now.dag.tasks name.task ≡ None)
            ⊎ (slice_get self.now.runs.now name.run ≡ None))) }
    {
        let Some(folder) = self.logs else {
            return None;
        };
        let Some(context) = context_of(self.plan, self.runs, name) else {
            return None;
        };
        match log_path(self.alloc, folder, &context, ".out") {
            Ok(path) => Some(CommandFault::Stopped(StopFault::CannotLog(Text::new(path)))),
            Err(_) => Some(CommandFault::OutOfMemory),
        }
    }

    /// Gives the fault that a try's program can't be waited for, with its task's id, map index and number; or want of
    /// memory.
    fn lost_fault(&self, name: JobName) -> CommandFault
        ensures lost { IsUnanswered self.now.plan.now.dag name result }
        ensures told { IsGivenUp (option_map (λ l. l.now) self.now.logs) self.now.plan.now.dag
            self.now.runs.now name result }
        ensures unsent { IsUnsent result }
    {
        match String::from_str(self.alloc, self.plan.dag().id_of(name.task)) {
            Ok(task) => CommandFault::Stopped(StopFault::GaveUp {
                task: Text::new(task),
                index: name.index,
                attempt: name.attempt,
            }),
            Err(_) => CommandFault::OutOfMemory,
        }
    }

    /// Gives the fault of a try that its runner gave up: that its log can't be made, where some log couldn't be and
    /// these are kept, else that its program can't be waited for; or want of memory.
    fn given_up_fault(&self, name: JobName) -> CommandFault
        ensures lost { self.now.cannot_log ≡ false
            → IsUnanswered self.now.plan.now.dag name result }
        ensures told { IsGivenUp (option_map (λ l. l.now) self.now.logs) self.now.plan.now.dag
            self.now.runs.now name result }
        ensures unsent { IsUnsent result }
    {
        if !self.cannot_log {
            return self.lost_fault(name);
        }
        match self.log_fault_of(name) {
            Some(fault) => fault,
            None => self.lost_fault(name),
        }
    }
}

/// Gives the command's fault where a backfill by programs stopped: want of memory, a thread that can't be started, or,
/// where a try was given up, what `given_up_fault` gives.
pub(crate) fn stop_fault_by_programs(
    stopping: &StoppedBackfill<'_>,
    fault: &BackfillFault,
) -> CommandFault
    ensures told { IsToldOfStop (option_map (λ l. l.now) stopping.now.logs)
        stopping.now.plan.now.dag stopping.now.runs.now fault.now result }
    ensures unsent { IsUnsent result }
{
    match fault {
        BackfillFault::OutOfMemory => CommandFault::OutOfMemory,
        BackfillFault::Start => CommandFault::Stopped(StopFault::CannotStart),
        BackfillFault::Runner(name) => stopping.given_up_fault(*name),
    }
}

/// Gives the command's fault where a recorded backfill stopped at a try: by `stop`, that a record failed, memory ran
/// out, or `most_failed` tries failed; without it, that the runner gave the try up.
fn stop_fault_at_try(
    stopping: &StoppedBackfill<'_>,
    name: JobName,
    stop: Option<Stop>,
    most_failed: Option<u32>,
) -> CommandFault
    ensures exact { MatchOption (told_of_stop stop most_failed)
        (IsGivenUp (option_map (λ l. l.now) stopping.now.logs) stopping.now.plan.now.dag
        stopping.now.runs.now name result)
        (λ told. result ≡ told) }
    ensures told { IsToldAt most_failed (option_map (λ l. l.now) stopping.now.logs)
        stopping.now.plan.now.dag stopping.now.runs.now name result }
    ensures unsent { IsUnsent result }
{
    match (stop, most_failed) {
        (Some(Stop::WriteFailed), _) => CommandFault::Stopped(StopFault::CannotRecord),
        (Some(Stop::OutOfMemory), _) => CommandFault::OutOfMemory,
        (Some(Stop::EnoughFailed), Some(most)) => {
            CommandFault::Stopped(StopFault::EnoughFailed(most))
        }
        (Some(Stop::EnoughFailed), None) | (None, _) => stopping.given_up_fault(name),
    }
}

/// Gives the command's fault where a recorded backfill stopped. `stop` says why no further try began, None where
/// nothing held one back; `most_failed` is how many tries may fail, None for any number.
pub(crate) fn stop_fault_of_recording(
    stopping: &StoppedBackfill<'_>,
    fault: &BackfillFault,
    stop: Option<Stop>,
    most_failed: Option<u32>,
) -> CommandFault
    ensures told { IsToldOfRecorded most_failed (option_map (λ l. l.now) stopping.now.logs)
        stopping.now.plan.now.dag stopping.now.runs.now
        fault.now result }
    ensures unsent { IsUnsent result }
{
    match fault {
        BackfillFault::OutOfMemory => CommandFault::OutOfMemory,
        BackfillFault::Start => CommandFault::Stopped(StopFault::CannotStart),
        BackfillFault::Runner(name) => stop_fault_at_try(stopping, *name, stop, most_failed),
    }
}
