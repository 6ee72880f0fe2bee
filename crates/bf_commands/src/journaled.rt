//! A backfill that goes on from a journal, and records its tries there, to its report.
ghost use Rattle.std.specs.Prelude.{◌≡◌, Bool, IfErr, IfOk, length};
ghost use Rattle.std.specs.List.{list_all};
ghost use Rattle.bf_core.specs.Events.{entry_in};
ghost use Rattle.bf_kept.specs.Kept.{AreFit};
ghost use Rattle.bf_process.specs.Words.{MayAnswer, launching_of, through};
ghost use Rattle.bf_device.specs.Device.{HasHalted};
ghost use Rattle.bf_journal.specs.Heads.{head_text};
ghost use Rattle.bf_journal.specs.Left.{KeepsJournal};
ghost use Rattle.bf_journal.specs.Recording.{IsRecordBy, IsWritten, is_write_failed};
ghost use Rattle.bf_command_fault.specs.Refusal.{Leaves, Sends};
ghost use Rattle.bf_commands.specs.Cleared.{MayAnswerBy};
ghost use Rattle.bf_commands.specs.Journaled.{JournalReportFault, IsJournalReport};
ghost use Rattle.bf_commands.specs.inner.Journaled.{IsStopRecordedOrWanting};
ghost use Rattle.bf_commands.specs.OverTable.{AnswersByTable};
ghost use Rattle.bf_commands.specs.inner.OverTable.{IsUnsent};
ghost use Rattle.bf_planning.specs.Wanting.{IsWanting};
ghost use Rattle.bf_commands.specs.Reported.{IsReportFrom, IsReportOf};
ghost use Rattle.bf_commands.specs.inner.Reported.{IsEndFrom};

use crate::backfill::runner_over;
use crate::crew::Crew;
use crate::journal::{Journal, read_and_mend_journal};
use crate::programs::{programs_of, tell_of_logs};
use crate::recorded::{Record, RecordedEnd};
use crate::reported::write_ended;
use crate::telling::tell_unrecorded;
use bf_command_fault::CommandFault;
use bf_core::Ended;
use bf_device::Write;
use bf_interval::Runs;
use bf_journal::{ClearedTask, Cuttable, Since, Stop};
use bf_kept::{Keeping, KeptTries};
use bf_lane::{Jump, MachineClock};
use bf_plan::Plan;
use bf_process::Starter;
use bf_progress::Screen;
use bf_table::Table;
use std::sync::Wait;
use std::thread::Threads;
use std::time::Clock;

/// What a backfill with a journal came to: whether every run succeeded, or why there is no report; and the journal's
/// device.
#[derive(Drop)]
pub struct Recorded<D: Cuttable + Drop> {
    pub report: Result<bool, CommandFault>,
    pub device: D,
}

/// A backfill to run: its plan and runs, the tries kept from an earlier one, and the cleared tasks as the head of its
/// journal names them.
#[derive(Drop)]
pub(crate) struct Backfill<'a, K> {
    pub(crate) plan: &'a Plan,
    pub(crate) runs: &'a Runs,
    pub(crate) before: &'a K,
    pub(crate) cleared: &'a [ClearedTask],
}

/// Runs a backfill to its end. Tries in `kept` end as they did; a table answers the others, and each of these is
/// recorded as it ends. `ended` is `Err` where it stops early or memory runs out.
fn record_over_table<'p, RT, K, D>(
    crew: &Crew<'_, RT>,
    plan: &'p Plan,
    runs: &Runs,
    kept: &K,
    table: Table,
    record: Record<D>,
) -> RecordedEnd<'p, D>
where
    RT: Screen + Threads + Wait + Clock + Sync,
    K: KeptTries + Sync,
    D: Cuttable + Drop + Send,
    requires { AreFit plan.now.dag (K.kept kept.now) }
    ensures end { IfOk result.ended
        (IsEndFrom (K.kept kept.now) (AnswersByTable plan.entry.now.dag table runs.now)
        plan.entry.now.dag plan.entry.now.limits (length runs.now) crew.now.workers) }
    ensures stop { IfErr result.ended (IsStopRecordedOrWanting record.most_failed (K.kept kept.now)
        (launching_of crew.now.launching).logs plan.entry.now.dag runs.now) }
    ensures unsent { IfErr result.ended IsUnsent }
    ensures written { IsWritten (IsRecordBy (AnswersByTable plan.entry.now.dag table runs.now)
        plan.entry.now.dag runs.now)
        (D.written record.device) (D.written result.device) (is_write_failed result.stop) }
{
    let runner = match runner_over(crew.alloc, plan, table, runs) {
        Ok(runner) => runner,
        Err(_) => {
            return RecordedEnd {
                ended: Err(CommandFault::OutOfMemory),
                device: record.device,
                stop: None,
            };
        }
    };
    let keeping = Keeping {
        alloc: crew.alloc,
        kept,
        runner: &runner,
        at_once: true,
    };
    crew.resume_recorded(plan, runs, &keeping, record, Jump::new(), None)
}

/// Runs a backfill to its end, and tells on the screen where logs are incomplete. Tries in `kept` end as they did;
/// programs make the others, and each of these is recorded as it ends. `ended` is `Err` where it stops early or memory
/// runs out.
fn record_by_programs<'p, RT, K, D>(
    crew: &Crew<'_, RT>,
    plan: &'p Plan,
    runs: &Runs,
    kept: &K,
    record: Record<D>,
) -> RecordedEnd<'p, D>
where
    RT: Starter + Screen + Threads + Wait + Clock + Sync,
    K: KeptTries + Sync,
    D: Cuttable + Drop + Send,
    requires { AreFit plan.now.dag (K.kept kept.now) }
    ensures end { IfOk result.ended (IsEndFrom (K.kept kept.now)
        (MayAnswer (through (launching_of crew.now.launching) (RT.may_hear crew.now.rt.now))
        plan.entry.now.dag runs.now)
        plan.entry.now.dag plan.entry.now.limits (length runs.now) crew.now.workers) }
    ensures stop { IfErr result.ended (IsStopRecordedOrWanting record.most_failed (K.kept kept.now)
        (launching_of crew.now.launching).logs plan.entry.now.dag runs.now) }
    ensures unsent { IfErr result.ended IsUnsent }
    ensures written { IsWritten (IsRecordBy
        (MayAnswer (through (launching_of crew.now.launching) (RT.may_hear crew.now.rt.now))
        plan.entry.now.dag runs.now) plan.entry.now.dag runs.now)
        (D.written record.device) (D.written result.device) (is_write_failed result.stop) }
{
    let programs = programs_of(crew, plan, runs);
    let keeping = Keeping {
        alloc: crew.alloc,
        kept,
        runner: &programs,
        at_once: false,
    };
    let log_faults = programs.runner().log_faults();
    let clock = MachineClock::new(crew.rt);
    let ended = crew.resume_recorded(plan, runs, &keeping, record, clock, Some(log_faults));
    tell_of_logs(crew.rt, log_faults);
    ended
}

/// Runs a backfill to its end. Tries in `kept` end as they did; `answers` answers the others, or programs make them
/// where it is None, and each of these is recorded as it ends. `ended` is `Err` where it stops early or memory runs
/// out.
fn record_to_end<'p, RT, K, D>(
    crew: &Crew<'_, RT>,
    plan: &'p Plan,
    runs: &Runs,
    kept: &K,
    answers: Option<Table>,
    record: Record<D>,
) -> RecordedEnd<'p, D>
where
    RT: Starter + Screen + Threads + Wait + Clock + Sync,
    K: KeptTries + Sync,
    D: Cuttable + Drop + Send,
    requires { AreFit plan.now.dag (K.kept kept.now) }
    ensures end { IfOk result.ended (IsEndFrom (K.kept kept.now)
        (MayAnswerBy (through (launching_of crew.now.launching) (RT.may_hear crew.now.rt.now))
        answers plan.entry.now.dag runs.now)
        plan.entry.now.dag plan.entry.now.limits (length runs.now) crew.now.workers) }
    ensures stop { IfErr result.ended (IsStopRecordedOrWanting record.most_failed (K.kept kept.now)
        (launching_of crew.now.launching).logs plan.entry.now.dag runs.now) }
    ensures unsent { IfErr result.ended IsUnsent }
    ensures written { IsWritten (IsRecordBy
        (MayAnswerBy (through (launching_of crew.now.launching) (RT.may_hear crew.now.rt.now))
        answers plan.entry.now.dag runs.now) plan.entry.now.dag runs.now)
        (D.written record.device) (D.written result.device) (is_write_failed result.stop) }
{
    match answers {
        Some(table) => record_over_table(crew, plan, runs, kept, table, record),
        None => record_by_programs(crew, plan, runs, kept, record),
    }
}

/// Writes the report of a backfill that has ended; true where every run succeeded. Tells on the screen that the journal
/// isn't whole where `stop` says that a record failed. `Err` where `out` fails, or at want of memory.
fn write_report_and_tell<RT: Screen, W: Write>(
    crew: &Crew<'_, RT>,
    runs: &Runs,
    ended: Ended<'_>,
    stop: Option<Stop>,
    out: &mut W,
) -> Result<bool, CommandFault>
    requires { length runs.now ≡ ended.runs }
    ensures ok { IfOk result (λ success. Sends
        (λ text. IsReportOf ended.entry.dag runs.now (entry_in ended.entry.state.ledger) text
        success)
        (W.written out.old) (W.written out.new)) }
    ensures wanting { IfErr result IsWanting }
    ensures left { IfErr result (Leaves (HasHalted (W.failures out.old) (W.failures out.new)
        (W.interruptions out.old) (W.interruptions out.new))
        (λ text. (success : Bool) × IsReportOf ended.entry.dag runs.now
        (entry_in ended.entry.state.ledger) text success)
        (W.written out.old) (W.written out.new)) }
{
    let success = write_ended(crew.alloc, runs, ended, out)?;
    if matches!(stop, Some(Stop::WriteFailed | Stop::OutOfMemory)) {
        tell_unrecorded(crew.rt);
    }
    Ok(success)
}

/// Runs a backfill to its end and writes its report. Tries in `kept` end as they did; `answers` answers the others, or
/// programs make them where it is None, and each of these is recorded as it ends. `report` is `Err` where it stops
/// early, `out` fails, or memory runs out.
fn record_and_write_report<RT, K, D, W>(
    crew: &Crew<'_, RT>,
    plan: &Plan,
    runs: &Runs,
    kept: &K,
    answers: Option<Table>,
    record: Record<D>,
    out: &mut W,
) -> Recorded<D>
where
    RT: Starter + Screen + Threads + Wait + Clock + Sync,
    K: KeptTries + Sync,
    D: Cuttable + Drop + Send,
    W: Write,
    requires { AreFit plan.now.dag (K.kept kept.now) }
    ensures ok { IfOk result.report (λ success. Sends (λ text. IsReportFrom (K.kept kept.now)
        (MayAnswerBy (through (launching_of crew.now.launching) (RT.may_hear crew.now.rt.now))
        answers plan.now.dag runs.now)
        plan.now.dag runs.now text success) (W.written out.old) (W.written out.new)) }
    ensures stop { IfErr result.report (IsStopRecordedOrWanting record.most_failed (K.kept kept.now)
        (launching_of crew.now.launching).logs plan.now.dag runs.now) }
    ensures left { IfErr result.report (Leaves (HasHalted (W.failures out.old) (W.failures out.new)
        (W.interruptions out.old) (W.interruptions out.new))
        (λ text. (success : Bool) × IsReportFrom (K.kept kept.now)
        (MayAnswerBy (through (launching_of crew.now.launching) (RT.may_hear crew.now.rt.now))
        answers plan.now.dag runs.now)
        plan.now.dag runs.now text success) (W.written out.old) (W.written out.new)) }
    ensures written { (failed : Bool) × IsWritten (IsRecordBy
        (MayAnswerBy (through (launching_of crew.now.launching) (RT.may_hear crew.now.rt.now))
        answers plan.now.dag runs.now) plan.now.dag runs.now)
        (D.written record.device) (D.written result.device) failed }
{
    let RecordedEnd {
        ended,
        device,
        stop,
    } = record_to_end(crew, plan, runs, kept, answers, record);
    match ended {
        Ok(ended) => {
            let _end = ended.state();
            let report = write_report_and_tell(crew, runs, ended, stop, out);
            Recorded { report, device }
        }
        Err(fault) => Recorded {
            report: Err(fault),
            device,
        },
    }
}

/// Mends the journal's file and tells on the screen what it held, takes each try from it or else from `before`, makes
/// and records the others, and writes the report. `answers` answers these; None starts programs. `report` is `Err`
/// where the journal is refused, the backfill stops early, `out` fails, or memory runs out.
pub(crate) fn record_backfill<RT, K, D, W>(
    crew: &Crew<'_, RT>,
    backfill: &Backfill<'_, K>,
    answers: Option<Table>,
    journal: Journal<D>,
    out: &mut W,
) -> Recorded<D>
where
    RT: Starter + Screen + Threads + Wait + Clock + Sync,
    K: KeptTries + Sync,
    D: Cuttable + Drop + Send,
    W: Write,
    requires { AreFit backfill.now.plan.now.dag (K.kept backfill.now.before.now) }
    ensures ok { IfOk result.report (λ success. Sends (λ text.
        IsJournalReport (K.kept backfill.now.before.now) journal.retry_failed journal.held.items
        backfill.now.cleared.now
        (MayAnswerBy (through (launching_of crew.now.launching) (RT.may_hear crew.now.rt.now))
        answers backfill.now.plan.now.dag backfill.now.runs.now)
        backfill.now.plan.now.dag backfill.now.runs.now text success) (W.written out.old)
        (W.written out.new)) }
    ensures fault { IfErr result.report
        (JournalReportFault journal.stop_after (K.kept backfill.now.before.now) journal.retry_failed
        journal.held.items backfill.now.cleared.now (launching_of crew.now.launching).logs
        backfill.now.plan.now.dag backfill.now.runs.now) }
    ensures left { IfErr result.report (Leaves (HasHalted (W.failures out.old) (W.failures out.new)
        (W.interruptions out.old) (W.interruptions out.new))
        (λ text. (success : Bool)
        × IsJournalReport (K.kept backfill.now.before.now) journal.retry_failed journal.held.items
        backfill.now.cleared.now
        (MayAnswerBy (through (launching_of crew.now.launching) (RT.may_hear crew.now.rt.now))
        answers backfill.now.plan.now.dag backfill.now.runs.now)
        backfill.now.plan.now.dag backfill.now.runs.now text success) (W.written out.old)
        (W.written out.new)) }
    ensures journal { KeepsJournal
        (MayAnswerBy (through (launching_of crew.now.launching) (RT.may_hear crew.now.rt.now))
        answers backfill.now.plan.now.dag backfill.now.runs.now)
        backfill.now.plan.now.dag backfill.now.runs.now
        (head_text backfill.now.plan.now.dag backfill.now.runs.now backfill.now.cleared.now)
        journal.held.items (D.written journal.device) (D.written result.device) }
{
    let plan = backfill.plan;
    let runs = backfill.runs;
    let mut journal = journal;
    let tries = match read_and_mend_journal(
        crew.rt,
        crew.alloc,
        plan,
        runs,
        backfill.cleared,
        &mut journal,
    ) {
        Ok(tries) => tries,
        Err(fault) => {
            return Recorded {
                report: Err(fault),
                device: journal.device,
            };
        }
    };
    let since = Since {
        plan,
        tries: &tries,
        retry_failed: journal.retry_failed,
        before: backfill.before,
    };
    let record = Record {
        device: journal.device,
        most_failed: journal.stop_after,
    };
    record_and_write_report(crew, plan, runs, &since, answers, record, out)
}
