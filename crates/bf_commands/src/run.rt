//! The command `run`: a run for each data interval of a range, with the programs of its tasks.
ghost use Rattle.std.specs.Prelude.{[], Bool, IfOk, IfErr, option_map};
ghost use Rattle.bf_device.specs.Device.{HasHalted};
ghost use Rattle.bf_command_fault.specs.Refusal.{Leaves, Sends};
ghost use Rattle.bf_kept.specs.Kept.{nothing};
ghost use Rattle.bf_process.specs.Words.{MayAnswer, launching_of};
ghost use Rattle.bf_journal.specs.Heads.{head_text};
ghost use Rattle.bf_journal.specs.Left.{KeepsJournal};
ghost use Rattle.bf_commands.specs.Journaled.{JournalReportFault, IsJournalReport};
ghost use Rattle.bf_commands.specs.Programs.{RunFault, IsRunReport, launched_in};

use crate::backfill::write_backfill;
use crate::crew::Crew;
use crate::journal::Journal;
use crate::journaled::{Backfill, Recorded, record_backfill};
use bf_command_fault::CommandFault;
use bf_device::Write;
use bf_journal::Cuttable;
use bf_kept::NothingKept;
use bf_planning::{DatedPlan, RunRange, dated_plan_in};
use bf_process::Starter;
use bf_progress::Screen;
use std::sync::Wait;
use std::thread::Threads;
use std::time::Clock;

/// Runs a graph once for each data interval that starts in the range, its ends included, by starting its tasks'
/// programs, and writes the report; true where every run succeeded. `Err`, before a program starts, where the graph or
/// then the range is refused; and where the backfill stops early, `out` fails, or memory runs out.
pub fn run_programs<RT: Starter + Screen + Threads + Wait + Clock + Sync, W: Write>(
    crew: &Crew<'_, RT>,
    graph: &[u8],
    zone_file: Option<&[u8]>,
    range: RunRange,
    out: &mut W,
) -> Result<bool, CommandFault>
    ensures ok { IfOk result (λ success. Sends (λ text.
        IsRunReport (launching_of crew.now.launching) (RT.may_hear crew.now.rt.now) graph.now
        (option_map (λ s. s.now) zone_file.entry) range text success)
        (W.written out.old) (W.written out.new)) }
    ensures fault { IfErr result (RunFault (launching_of crew.now.launching)
        (RT.may_lose crew.now.rt.now) graph.now (option_map (λ s. s.now) zone_file.entry) range) }
    ensures left { IfErr result (Leaves (HasHalted (W.failures out.old) (W.failures out.new)
        (W.interruptions out.old) (W.interruptions out.new))
        (λ text. (success : Bool)
        × IsRunReport (launching_of crew.now.launching) (RT.may_hear crew.now.rt.now) graph.now
        (option_map (λ s. s.now) zone_file.entry) range text success)
        (W.written out.old) (W.written out.new)) }
{
    let dated = dated_plan_in(crew.alloc, graph, zone_file, range)?;
    let crew = crew.with_clocks(&dated.clocks);
    let written = write_backfill(&crew, &dated.plan, &dated.runs, &NothingKept, None, out);
    drop(dated);
    written
}

/// Mends the journal's file and tells on the screen what it held, takes tries from it, makes the others by starting
/// programs, records each of these as it ends, and writes the report. `report` is `Err` where the journal is refused,
/// the backfill stops early, `out` fails, or memory runs out.
pub fn record_programs<RT, D, W>(
    crew: &Crew<'_, RT>,
    dated: &DatedPlan,
    journal: Journal<D>,
    out: &mut W,
) -> Recorded<D>
where
    RT: Starter + Screen + Threads + Wait + Clock + Sync,
    D: Cuttable + Drop + Send,
    W: Write,
    ensures ok { IfOk result.report (λ success. Sends (λ text.
        IsJournalReport nothing journal.retry_failed journal.held.items []
        (MayAnswer (launched_in dated.now (launching_of crew.now.launching)
        (RT.may_hear crew.now.rt.now)) dated.now.plan.dag dated.now.runs)
        dated.now.plan.dag dated.now.runs text success) (W.written out.old) (W.written out.new)) }
    ensures fault { IfErr result.report
        (JournalReportFault journal.stop_after nothing journal.retry_failed
        journal.held.items [] (launching_of crew.now.launching).logs dated.now.plan.dag
        dated.now.runs) }
    ensures left { IfErr result.report (Leaves (HasHalted (W.failures out.old) (W.failures out.new)
        (W.interruptions out.old) (W.interruptions out.new))
        (λ text. (success : Bool)
        × IsJournalReport nothing journal.retry_failed journal.held.items []
        (MayAnswer (launched_in dated.now (launching_of crew.now.launching)
        (RT.may_hear crew.now.rt.now)) dated.now.plan.dag dated.now.runs)
        dated.now.plan.dag dated.now.runs text success) (W.written out.old) (W.written out.new)) }
    ensures journal { KeepsJournal
        (MayAnswer (launched_in dated.now (launching_of crew.now.launching)
        (RT.may_hear crew.now.rt.now)) dated.now.plan.dag dated.now.runs)
        dated.now.plan.dag dated.now.runs (head_text dated.now.plan.dag dated.now.runs [])
        journal.held.items (D.written journal.device) (D.written result.device) }
{
    let backfill = Backfill {
        plan: &dated.plan,
        runs: &dated.runs,
        before: &NothingKept,
        cleared: &[],
    };
    let crew = crew.with_clocks(&dated.clocks);
    record_backfill(&crew, &backfill, None, journal, out)
}
