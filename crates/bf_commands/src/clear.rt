//! The command `clear`: a backfill that goes on from its report, where some tasks in runs are cleared.
ghost use Rattle.std.specs.Prelude.{◌≡◌, Bool, IfOk, IfErr, option_map};
ghost use Rattle.bf_device.specs.Device.{HasHalted};
ghost use Rattle.bf_command_fault.specs.Refusal.{Leaves, Sends};
ghost use Rattle.bf_kept.specs.Kept.{AreFit};
ghost use Rattle.bf_process.specs.Words.{launching_of};
ghost use Rattle.bf_clear.specs.Keeping.{kept_in};
ghost use Rattle.bf_commands.specs.Cleared.{AreAnswersIn, ClearingFault, IsFaultBefore, IsPrepared, IsReportAfter, IsUncleared, MayAnswerBy};
ghost use Rattle.bf_commands.specs.inner.Cleared.{IsFaultOfTable};
ghost use Rattle.bf_journal.specs.Heads.{head_text};
ghost use Rattle.bf_journal.specs.Left.{KeepsJournal};
ghost use Rattle.bf_commands.specs.Journaled.{IsClearedBy, JournalReportFault, IsJournalReport};
ghost use Rattle.bf_commands.specs.OverTable.{is_single_threaded_in};
ghost use Rattle.bf_planning.specs.Clocks.{clocks_in};
ghost use Rattle.bf_commands.specs.Programs.{launched_in, with_clocks};

use crate::backfill::write_backfill;
use crate::cleared::{ToClear, keep_outside, keep_uncleared, places_to_clear};
use crate::crew::Crew;
use crate::heading::cleared_tasks_of;
use crate::journal::Journal;
use crate::journaled::{Backfill, Recorded, record_backfill};
use bf_clear::Cleared;
use bf_command_fault::CommandFault;
use bf_device::Write;
use bf_journal::{ClearedTask, Cuttable};
use bf_planning::{DatedPlan, RunRange, table_in, timed_plan_in};
use bf_process::Starter;
use bf_progress::Screen;
use bf_report::Report;
use bf_table::Table;
use std::alloc::Global;
use std::sync::Wait;
use std::thread::Threads;
use std::time::Clock;

/// Reads the table in these bytes; None where there are none. `Err` where they aren't a table, or at want of memory.
fn answers_in(alloc: Global, table: Option<&[u8]>) -> Result<Option<Table>, CommandFault>
    ensures ok { IfOk result (λ answers. AreAnswersIn (option_map (λ s. s.now) table.entry)
        answers) }
    ensures fault { IfErr result (IsFaultOfTable (option_map (λ s. s.now) table.entry)) }
{
    match table {
        Some(bytes) => {
            let table = table_in(alloc, bytes)?;
            Ok(Some(table))
        }
        None => Ok(None),
    }
}

/// What the files of a command hold besides the report: a plan with its runs, and the table's answers, None where no
/// table is named.
#[derive(Drop)]
pub struct Prepared {
    pub dated: DatedPlan,
    pub answers: Option<Table>,
}

/// Makes the plan of a graph file with its runs in a range, and reads the table, where there is one. `Err` where the
/// graph, the table or the range is refused, looked at in this order, or at want of memory.
pub fn prepare_backfill(
    alloc: Global,
    graph: &[u8],
    zone_file: Option<&[u8]>,
    table: Option<&[u8]>,
    range: RunRange,
) -> Result<Prepared, CommandFault>
    ensures ok { IfOk result (λ p. IsPrepared graph.now (option_map (λ s. s.now) zone_file.entry)
        (option_map (λ s. s.now) table.entry)
        range p.dated.plan.dag p.dated.runs (clocks_in p.dated) p.answers) }
    ensures fault { IfErr result (IsFaultBefore graph.now (option_map (λ s. s.now) zone_file.entry)
        (option_map (λ s. s.now) table.entry)
        range) }
{
    let timed = timed_plan_in(alloc, graph, zone_file)?;
    let answers = answers_in(alloc, table)?;
    let dated = timed.into_dated(alloc, range)?;
    Ok(Prepared { dated, answers })
}

/// A backfill that goes on from a report: its plan and runs, what the report keeps, and the cleared tasks as the head
/// of its journal names them.
#[derive(Drop)]
pub struct Clearing<'a> {
    pub dated: &'a DatedPlan,
    pub kept: Cleared<'a>,
    pub cleared: Vec<ClearedTask>,
}

/// Clears `what` in a report with all that follows from it; runs and writes nothing. `Err` where a seed or line names
/// nothing in it, the report isn't of this graph and these runs (of this graph, where nothing is cleared), or memory
/// runs out.
pub fn clear_in_report<'a>(
    alloc: Global,
    dated: &'a DatedPlan,
    report: Report,
    what: ToClear,
) -> Result<Clearing<'a>, CommandFault>
    ensures dated { IfOk result (λ c. c.dated ≡ dated.entry) }
    ensures cleared { IfOk result (λ c. IsClearedBy dated.entry.now.plan.dag dated.entry.now.runs
        report what (kept_in c.kept) c.cleared.items) }
    ensures fit { IfOk result (λ c. AreFit dated.entry.now.plan.dag (kept_in c.kept)) }
    ensures fault { IfErr result (IsUncleared dated.entry.now.plan.dag dated.entry.now.runs report
        what) }
{
    let places = places_to_clear(alloc, dated, &report, &what)?;
    let kept = keep_outside(alloc, dated, report, &what, places.as_slice())?;
    let cleared = cleared_tasks_of(alloc, &dated.plan, &dated.runs, places.as_slice())?;
    Ok(Clearing {
        dated,
        kept,
        cleared,
    })
}

/// Clears `what` in a report with all that follows from it, makes these tries, and writes the new report; true where
/// every run succeeded. `answers` answers them; None starts programs. `Err` where report or `what` is refused, the
/// backfill stops early, `out` fails, or memory runs out.
fn clear_and_write_report<RT: Starter + Screen + Threads + Wait + Clock + Sync, W: Write>(
    crew: &Crew<'_, RT>,
    dated: &DatedPlan,
    answers: Option<Table>,
    report: Report,
    what: &ToClear,
    out: &mut W,
) -> Result<bool, CommandFault>
    ensures ok { IfOk result (λ success. Sends
        (λ text. IsReportAfter (launched_in dated.now (launching_of crew.now.launching)
        (RT.may_hear crew.now.rt.now))
        answers dated.now.plan.dag dated.now.runs report what.now text success)
        (W.written out.old) (W.written out.new)) }
    ensures fault { IfErr result (ClearingFault (is_single_threaded_in crew.now.progress)
        (with_clocks (launching_of crew.now.launching) (clocks_in dated.now))
        (RT.may_lose crew.now.rt.now)
        answers dated.now.plan.dag dated.now.runs report what.now) }
    ensures left { IfErr result (Leaves (HasHalted (W.failures out.old) (W.failures out.new)
        (W.interruptions out.old) (W.interruptions out.new))
        (λ text. (success : Bool) × IsReportAfter
        (launched_in dated.now (launching_of crew.now.launching) (RT.may_hear crew.now.rt.now))
        answers dated.now.plan.dag dated.now.runs report what.now text success)
        (W.written out.old) (W.written out.new)) }
{
    let kept = keep_uncleared(crew.alloc, dated, report, what)?;
    let crew = crew.with_clocks(&dated.clocks);
    let written = write_backfill(&crew, &dated.plan, &dated.runs, &kept, answers, out);
    drop(kept);
    written
}

/// Clears `what` in a report with all that follows from it, makes these tries, and writes the new report; true where
/// every run succeeded. The prepared table answers them; programs do where there is none. `Err` where report or `what`
/// is refused, the backfill stops early, `out` fails, or memory runs out.
pub fn write_resumed_report<RT: Starter + Screen + Threads + Wait + Clock + Sync, W: Write>(
    crew: &Crew<'_, RT>,
    prepared: Prepared,
    report: Report,
    what: ToClear,
    out: &mut W,
) -> Result<bool, CommandFault>
    ensures ok { IfOk result (λ success. Sends
        (λ text. IsReportAfter (launched_in prepared.dated (launching_of crew.now.launching)
        (RT.may_hear crew.now.rt.now))
        prepared.answers prepared.dated.plan.dag prepared.dated.runs report what text success)
        (W.written out.old) (W.written out.new)) }
    ensures fault { IfErr result (ClearingFault (is_single_threaded_in crew.now.progress)
        (with_clocks (launching_of crew.now.launching) (clocks_in prepared.dated))
        (RT.may_lose crew.now.rt.now)
        prepared.answers prepared.dated.plan.dag prepared.dated.runs report what) }
    ensures left { IfErr result (Leaves (HasHalted (W.failures out.old) (W.failures out.new)
        (W.interruptions out.old) (W.interruptions out.new))
        (λ text. (success : Bool) × IsReportAfter
        (launched_in prepared.dated (launching_of crew.now.launching) (RT.may_hear crew.now.rt.now))
        prepared.answers prepared.dated.plan.dag prepared.dated.runs report what text success)
        (W.written out.old) (W.written out.new)) }
{
    let Prepared { dated, answers } = prepared;
    let written = clear_and_write_report(crew, &dated, answers, report, &what, out);
    drop(dated);
    written
}

/// Mends the journal's file and tells on the screen what it held, takes each try from it or else from what the report
/// keeps, makes and records the others, and writes the new report. `answers` answers them; None starts programs.
/// `report` is `Err` where the journal is refused, the backfill stops early, `out` fails, or memory runs out.
pub fn record_resumed_report<RT, D, W>(
    crew: &Crew<'_, RT>,
    clearing: &Clearing<'_>,
    answers: Option<Table>,
    journal: Journal<D>,
    out: &mut W,
) -> Recorded<D>
where
    RT: Starter + Screen + Threads + Wait + Clock + Sync,
    D: Cuttable + Drop + Send,
    W: Write,
    requires { AreFit clearing.now.dated.now.plan.dag (kept_in clearing.now.kept) }
    ensures ok { IfOk result.report (λ success. Sends (λ text.
        IsJournalReport (kept_in clearing.now.kept) journal.retry_failed journal.held.items
        clearing.now.cleared.items
        (MayAnswerBy (launched_in clearing.now.dated.now (launching_of crew.now.launching)
        (RT.may_hear crew.now.rt.now)) answers clearing.now.dated.now.plan.dag
        clearing.now.dated.now.runs)
        clearing.now.dated.now.plan.dag clearing.now.dated.now.runs text success)
        (W.written out.old) (W.written out.new)) }
    ensures fault { IfErr result.report
        (JournalReportFault journal.stop_after (kept_in clearing.now.kept) journal.retry_failed
        journal.held.items clearing.now.cleared.items (launching_of crew.now.launching).logs
        clearing.now.dated.now.plan.dag clearing.now.dated.now.runs) }
    ensures left { IfErr result.report (Leaves (HasHalted (W.failures out.old) (W.failures out.new)
        (W.interruptions out.old) (W.interruptions out.new))
        (λ text. (success : Bool)
        × IsJournalReport (kept_in clearing.now.kept) journal.retry_failed journal.held.items
        clearing.now.cleared.items
        (MayAnswerBy (launched_in clearing.now.dated.now (launching_of crew.now.launching)
        (RT.may_hear crew.now.rt.now)) answers clearing.now.dated.now.plan.dag
        clearing.now.dated.now.runs)
        clearing.now.dated.now.plan.dag clearing.now.dated.now.runs text success)
        (W.written out.old) (W.written out.new)) }
    ensures journal { KeepsJournal
        (MayAnswerBy (launched_in clearing.now.dated.now (launching_of crew.now.launching)
        (RT.may_hear crew.now.rt.now)) answers clearing.now.dated.now.plan.dag
        clearing.now.dated.now.runs)
        clearing.now.dated.now.plan.dag clearing.now.dated.now.runs
        (head_text clearing.now.dated.now.plan.dag clearing.now.dated.now.runs
        clearing.now.cleared.items)
        journal.held.items (D.written journal.device) (D.written result.device) }
{
    let backfill = Backfill {
        plan: &clearing.dated.plan,
        runs: &clearing.dated.runs,
        before: &clearing.kept,
        cleared: clearing.cleared.as_slice(),
    };
    let crew = crew.with_clocks(&clearing.dated.clocks);
    record_backfill(&crew, &backfill, answers, journal, out)
}
